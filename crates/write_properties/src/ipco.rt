// ipco: the properties, in their order.
ghost use Rattle.std.specs.Prelude.{◌≡◌, [], ◌∷◌, ◌+◌};
ghost use Rattle.octets.specs.Stores.{Room, Boxed};
ghost use Rattle.write_properties.specs.Room.{BoxRoom};
ghost use Rattle.panel.specs.Of.{panel_of};
ghost use Rattle.heif.specs.Ipco.{colour_slots, alpha_slots, option_slots, held, ipco};
ghost use Rattle.heif.specs.Ipco.{colour_properties_size, alpha_properties_size, optional_properties_size, ipco_size};

use crate::auxc::write_auxc;
use crate::clap::write_clap;
use crate::clli::write_clli;
use crate::colr::{write_colr, write_secondary_colr};
use crate::gain_map;
use crate::hvcc::write_hvcc;
use crate::imir::write_imir;
use crate::irot::write_irot;
use crate::ispe::write_ispe;
use crate::pixi::write_pixi;
use octets::Output;
use panel::Panel;

// hvcC of the colour tiles, ispe of a tile and of the whole picture, colr, and pixi of three channels.
#[tactic(auto, unfolding(panel::specs::Of::panel_of))]
fn write_color_properties(out: &mut Output, panel: &Panel)
    requires { let p = panel_of panel.now in BoxRoom out.old (colour_properties_size p.tiles.hvcc p.colour) }
    ensures { let p = panel_of panel.now in Boxed out.old (colour_properties_size p.tiles.hvcc p.colour) (held (colour_slots p.dims p.depth p.tiles.hvcc p.colour)) out.new }
{
    write_hvcc(out, panel.color.hvcc);
    write_ispe(out, panel.dims.tile_w, panel.dims.tile_h);
    write_ispe(out, panel.dims.full_w, panel.dims.full_h);
    write_colr(out, &panel.color_meta);
    write_pixi::<3>(out, panel.bit_depth.bits());
}

// hvcC of the alpha tiles, pixi of one channel, and the type of an alpha picture.
#[tactic(auto, unfolding(panel::specs::Of::panel_of))]
fn write_alpha_properties(out: &mut Output, panel: &Panel)
    requires { let p = panel_of panel.now in BoxRoom out.old (alpha_properties_size p.alpha.hvcc) }
    ensures { let p = panel_of panel.now in Boxed out.old (alpha_properties_size p.alpha.hvcc) (held (alpha_slots p.alpha_depth p.alpha.hvcc)) out.new }
{
    write_hvcc(out, panel.alpha.hvcc);
    write_pixi::<1>(out, panel.alpha_bit_depth.bits());
    write_auxc(out, b"urn:mpeg:hevc:2015:auxid:1");
}

// What is present of the second colr, irot, imir, clli and clap.
#[tactic(auto, unfolding(panel::specs::Of::panel_of))]
fn write_optional_properties(out: &mut Output, panel: &Panel)
    requires { let p = panel_of panel.now in BoxRoom out.old (optional_properties_size p.visible p.colour p.metadata.orientation p.metadata.light) }
    ensures { let p = panel_of panel.now in Boxed out.old (optional_properties_size p.visible p.colour p.metadata.orientation p.metadata.light) (held (option_slots p.dims p.visible p.colour p.metadata.orientation p.metadata.light)) out.new }
{
    let orientation = panel.metadata.orientation;
    write_secondary_colr(out, &panel.color_meta);
    write_irot(out, orientation.irot_steps());
    write_imir(out, orientation.imir_axis());
    write_clli(out, panel.metadata.content_light_level);
    write_clap(out, panel.dims, panel.visible);
}

// ipco.
pub fn write_ipco(out: &mut Output, size: u32, panel: &Panel)
    requires room { Room out.old (8 + ipco_size (panel_of panel.now)) }
    requires whole { size ≡ 8 + ipco_size (panel_of panel.now) }
    ensures { Boxed out.old (8 + ipco_size (panel_of panel.now)) (ipco (panel_of panel.now) ∷ []) out.new }
{
    out.write_box(size, b"ipco");
    write_color_properties(out, panel);
    write_alpha_properties(out, panel);
    write_optional_properties(out, panel);
    gain_map::write_ipco(out, panel);
}
