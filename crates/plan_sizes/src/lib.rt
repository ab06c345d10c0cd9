// The whole size of each box of a file.
//
// The sizes of ipco and ipma stand in modules of their names. A size that depends on how long the lent bytes are is counted in 128 bits:
// several lengths may sum to more than 64 hold.

#![tactic(auto)]

pub mod ipco;
pub mod ipma;
pub mod sizes;

ghost use Rattle.std.specs.Prelude.{◌≡◌, cond, ◌+◌, ◌^◌, ◌<◌, ◌≤◌, is_some, option_map, option_copied};
ghost use Rattle.panel.specs.Of.{panel_of, gain_of};
ghost use Rattle.panel.specs.Form.{form_of};
ghost use Rattle.panel.specs.Parts.{long};
ghost use Rattle.heif.specs.Items.{shape};
ghost use Rattle.heif.specs.Ftyp.{ftyp_size, head_size};
ghost use Rattle.heif.specs.Iloc.{iloc_size};
ghost use Rattle.heif.specs.Iinf.{iinf_size};
ghost use Rattle.heif.specs.Iref.{iref_size};
ghost use Rattle.heif.specs.Ipco.{ipco_size};
ghost use Rattle.heif.specs.Mdat.{gain_data_size, mdat_size};
ghost use Rattle.plan_positions.specs.Placed.{Placed};
ghost use Rattle.plan_sizes.specs.Sized.{Sized};

use crate::ipco::ipco_size;
use crate::ipma::ipma_size;
use crate::sizes::Sizes;
use panel::gain_map::EncodedGainMap;
use panel::when::when;
use panel::{FileForm, Panel};
use plan_items::brands::{adds_heix, gain_uses_rext, hvcc_uses_rext};
use plan_items::form::{count_bytes, ids_bytes};
use plan_items::grid::descriptor_length;
use plan_items::items::Items;
use plan_runs::Places;

// ftyp, the whole box. color and gain: the record is of the range extensions' profile.
fn ftyp_size(color: bool, gain: bool, tone: bool) -> u32
    ensures { result ≡ 8 + ftyp_size color gain tone }
{
    28 + when(adds_heix(color, gain), 4) + when(tone, 4)
}

// iloc, the whole box: an entry of an id and 14 bytes for each item.
fn iloc_size(form: FileForm, s: Items) -> u32
    ensures value { result ≡ 8 + iloc_size (form_of form) s }
    ensures upper_bound { result ≤ 2500000 }
{
    let n = s.last_id();
    14 + 14 * n + count_bytes(form) + ids_bytes(form, n)
}

// iinf, the whole box: an entry of an id and 19 bytes for each item, and the content type of XMP.
fn iinf_size(form: FileForm, s: Items) -> u32
    ensures value { result ≡ 8 + iinf_size (form_of form) s }
    ensures upper_bound { result ≤ 3200000 }
{
    let n = s.last_id();
    12 + 19 * n + count_bytes(form) + ids_bytes(form, n) + when(s.has_gain(), 20)
}

// iref, the whole box: references of an id and 10 bytes, and an id for each item referred to.
fn iref_size(form: FileForm, s: Items) -> u32
    ensures value { result ≡ 8 + iref_size (form_of form) s }
    ensures upper_bound { result ≤ 600000 }
{
    let one = 10 + ids_bytes(form, 2);
    let two = 10 + ids_bytes(form, 3);
    let tiles = 10 + ids_bytes(form, s.tiles() + 1);
    12 + 2 * tiles
        + one
        + when(s.has_exif(), one)
        + when(s.has_gain(), 2 * one)
        + when(s.has_tone(), two)
}

// Four bytes and those of a part, where there is one: the offset of the TIFF header and the Exif, or the type and the profile of a colr.
pub fn part_size(part: Option<&[u8]>) -> usize
    ensures { result ≡ cond (is_some part.entry) 4 0 + long (option_copied part.entry) }
{
    match part {
        Some(part) => 4 + part.len(),
        None => 0,
    }
}

// The gain map's payloads, where there is one: its sample, its XMP and its tone map.
fn gain_data_size(gain: &Option<EncodedGainMap>) -> u128
    ensures value { result ≡ gain_data_size (option_map gain_of gain.now) }
    ensures upper_bound { result < 2 ^ 66 }
{
    match gain {
        Some(g) => {
            let tone = g.tmap.map_or(0, |tone| tone.len());
            g.sample.len() as u128 + g.xmp.len() as u128 + tone as u128
        }
        None => 0,
    }
}

// mdat, the whole box.
#[tactic(auto, unfolding(panel::specs::Of::panel_of))]
fn mdat_size(panel: &Panel) -> u128
    ensures value { result ≡ 8 + mdat_size (panel_of panel.now) }
    ensures upper_bound { result < 2 ^ 68 }
{
    8 + panel.color.samples.bytes.len() as u128
        + panel.alpha.samples.bytes.len() as u128
        + part_size(panel.metadata.exif) as u128
        + gain_data_size(&panel.gain_map)
}

// The size of every box, those of ipco and ipma by the places of the properties. Of whichever items and places, `meta` says how large meta is
// at most and `mdat` how large mdat is.
#[tactic(auto, unfolding(panel::specs::Of::panel_of))]
pub fn sizes_of(form: FileForm, panel: &Panel, s: Items, places: &Places) -> Sizes
    ensures sized { s ≡ shape (panel_of panel.now) → Placed (panel_of panel.now) places.now → Sized (form_of form) (panel_of panel.now) result }
    ensures ipco { result.ipco ≤ result.iprp }
    ensures iprp { result.iprp ≤ result.meta }
    ensures meta { result.meta ≤ ipco_size (panel_of panel.now) + 130000000 }
    ensures mdat { result.mdat ≡ 8 + mdat_size (panel_of panel.now) }
{
    let color = hvcc_uses_rext(panel.color.hvcc);
    let gain = gain_uses_rext(&panel.gain_map);
    let iloc = iloc_size(form, s);
    let iinf = iinf_size(form, s);
    let iref = iref_size(form, s);
    let ipma = ipma_size(form, s, places);
    let idat = 8 + 2 * descriptor_length(panel.dims);
    let ipco = ipco_size(panel, places);
    let iprp = 8 + ipco + ipma as u128;
    // 12 of its head, 33 of hdlr, 12 of pitm without its id, and grpl, which is there with a tone map
    let meta = 57
        + ids_bytes(form, 1) as u128
        + iloc as u128
        + iinf as u128
        + iref as u128
        + iprp
        + when(s.has_tone(), 36) as u128
        + idat as u128;
    Sizes {
        ftyp: ftyp_size(color, gain, s.has_tone()),
        iloc,
        iinf,
        iref,
        ipma,
        idat,
        ipco,
        iprp,
        meta,
        mdat: mdat_size(panel),
    }
}
