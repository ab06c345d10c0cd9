// The size of ipco: its head and one for each property, and what the properties hold beside these.
ghost use Rattle.std.specs.Prelude.{◌≡◌, cond, is_some, ◌+◌, ◌*◌, ◌^◌, ◌<◌, ◌≤◌, option_map, option_copied};
ghost use Rattle.panel.specs.Of.{panel_of, colour_of, gain_of};
ghost use Rattle.heif.specs.Colr.{first_colr_size, second_colr_count, second_colr_size, alternates_count, alternates_size};
ghost use Rattle.heif.specs.Ipco.{gain_property_count, tone_properties_size, gain_properties_size, ipco_size};
ghost use Rattle.plan_positions.specs.Placed.{Placed};

use crate::part_size;
use panel::Panel;
use panel::color::ColorMetadata;
use panel::gain_map::EncodedGainMap;
use panel::when::when;
use plan_runs::Places;

// The first colr of the colour picture: a profile where no code points are stated.
fn first_colr_bytes(color: &ColorMetadata) -> usize
    ensures { 8 + result ≡ first_colr_size color.now.cicp (option_copied color.now.icc) }
{
    if color.cicp.is_some() || color.icc.is_none() {
        11
    } else {
        part_size(color.icc)
    }
}

// What the second colr holds beside its head: a profile beside code points.
fn second_colr_bytes(color: &ColorMetadata) -> usize
    ensures { let icc = option_copied color.now.icc in 8 * second_colr_count color.now.cicp icc + result ≡ second_colr_size color.now.cicp icc }
{
    part_size(color.cicp.and(color.icc))
}

// The alternate colour: what it states of code points and a profile.
fn alternates_bytes(alternate: &Option<ColorMetadata>) -> u128
    ensures value { let a = option_map colour_of alternate.now in 8 * alternates_count a + result ≡ alternates_size a }
    ensures upper_bound { result < 2 ^ 65 }
{
    match alternate {
        Some(color) => { when(color.cicp.is_some(), 11) as u128 + part_size(color.icc) as u128 }
        None => 0,
    }
}

// The tone map's properties, where there is one: ispe, pixi and the alternate colour.
fn tone_bytes(gain: &EncodedGainMap) -> u128
    ensures value { let g = gain_of gain.now in 8 * cond (is_some g.tone) (2 + alternates_count g.alternate) 0 + result ≡ tone_properties_size g.tone g.alternate }
    ensures upper_bound { result < 2 ^ 66 }
{
    match gain.tmap {
        Some(_) => 12 + 8 + alternates_bytes(&gain.alternate_color),
        None => 0,
    }
}

// The gain map's properties, where there is one: hvcC, ispe, pixi, auxC and colr of the gain image, and the tone map's.
fn gain_bytes(gain: &Option<EncodedGainMap>) -> u128
    ensures value { let g = option_map gain_of gain.now in 8 * gain_property_count g + result ≡ gain_properties_size g }
    ensures upper_bound { result < 2 ^ 67 }
{
    match gain {
        Some(g) => g.hvcc.len() as u128 + 12 + 6 + 44 + 11 + tone_bytes(g),
        None => 0,
    }
}

// ipco, the whole box.
#[tactic(auto, unfolding(panel::specs::Of::panel_of))]
pub(crate) fn ipco_size(panel: &Panel, places: &Places) -> u128
    ensures value { Placed (panel_of panel.now) places.now → result ≡ 8 + ipco_size (panel_of panel.now) }
    ensures near { result ≤ ipco_size (panel_of panel.now) + 8000 }
    ensures upper_bound { result < 2 ^ 68 }
{
    let heads = 8 + 8 * places.count as u128;
    // hvcC, two ispe, colr and pixi
    let color = panel.color.hvcc.len() as u128
        + 12
        + 12
        + first_colr_bytes(&panel.color_meta) as u128
        + 8;
    // hvcC, pixi and auxC
    let alpha = panel.alpha.hvcc.len() as u128 + 6 + 31;
    // the second colr, irot, imir, clli and clap
    let o = &places.options;
    let turns = o.irot.count() as u128 + o.imir.count() as u128;
    let clli = 4 * o.clli.count() as u128;
    let clap = 32 * o.clap.count() as u128;
    let options = second_colr_bytes(&panel.color_meta) as u128 + turns + clli + clap;
    heads + color + alpha + options + gain_bytes(&panel.gain_map)
}
