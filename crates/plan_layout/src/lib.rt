// The layout of a file: the whole size of each box and where the payloads begin; and the length of the file.
#![tactic(auto)]

ghost use Rattle.std.specs.Prelude.{◌≡◌, ◌+◌, ◌≤◌, option_map, length};
ghost use Rattle.panel.specs.Of.{panel_of, gain_of};
ghost use Rattle.heif.specs.Items.{Even};
ghost use Rattle.heif.specs.File.{size};
ghost use Rattle.heif.specs.Mdat.{gain_data_size, mdat_size};
ghost use Rattle.plan_items.specs.Payloads.{payload_lengths};
ghost use Rattle.plan_sizes.specs.Sized.{Sized};
ghost use Rattle.plan_layout.specs.Laid.{payloads_from, Laid, Within};

use panel::Panel;
use panel::gain_map::EncodedGainMap;
use plan_items::brands::{gain_uses_rext, hvcc_uses_rext};
use plan_items::grid::descriptor_length;
use plan_items::payloads::{PayloadLengths, Payloads};
use plan_sizes::part_size;
use plan_sizes::sizes::Sizes;

// What a file is laid out by: the whole size of each box, where the payloads lie, and whether the records are of the range extensions'
// profile. The sizes stand here in 32 bits, one beside the other as in `Sizes`: a struct over the type of the number could not hold what
// `Sizes` holds of its own.
#[derive(Clone, Copy)]
pub struct Layout {
    pub ftyp: u32,
    pub meta: u32,
    pub iloc: u32,
    pub iinf: u32,
    pub iref: u32,
    pub iprp: u32,
    pub ipco: u32,
    pub ipma: u32,
    pub idat: u32,
    pub mdat: u32,
    pub payloads: Payloads,
    pub color_rext: bool,
    pub gain_rext: bool,
}

// The length of the file: its three boxes, one behind the other.
pub fn file_size(z: Sizes) -> u128
    ensures boxes { result ≡ z.ftyp + z.meta + z.mdat }
    ensures whole { (f : _) (p : _) → Sized f p z → result ≡ size f p }
{
    z.ftyp as u128 + z.meta + z.mdat
}

// How many bytes the gain map's payloads have, 0 where there is none.
fn payload_lengths(gain: &Option<EncodedGainMap>) -> PayloadLengths
    requires { gain_data_size (option_map gain_of gain.now) ≤ 4294967295 }
    ensures { result ≡ payload_lengths (option_map gain_of gain.now) }
{
    match gain {
        Some(g) => PayloadLengths {
            sample: g.sample.len() as u32,
            xmp: g.xmp.len() as u32,
            tmap: g.tmap.map_or(0, |tone| tone.len()) as u32,
        },
        None => PayloadLengths {
            sample: 0,
            xmp: 0,
            tmap: 0,
        },
    }
}

// Where the payloads lie, from the first colour sample on, of a panel whose payloads end within 32 bits.
#[tactic(auto, unfolding(panel::specs::Of::panel_of))]
fn payloads_of(panel: &Panel, color: u32) -> Payloads
    requires { color + mdat_size (panel_of panel.now) ≤ 4294967295 }
    ensures { result ≡ payloads_from color (panel_of panel.now) }
{
    let alpha = color + panel.color.samples.bytes.len() as u32;
    let other = alpha + panel.alpha.samples.bytes.len() as u32;
    Payloads {
        descriptor: descriptor_length(panel.dims),
        color,
        alpha,
        other,
        exif: part_size(panel.metadata.exif) as u32,
        gain: payload_lengths(&panel.gain_map),
    }
}

// The layout that sizes make of a panel.
#[tactic(auto, unfolding(panel::specs::Of::panel_of))]
pub fn placed(panel: &Panel, z: Sizes) -> Layout
    requires { Within z (panel_of panel.now) }
    ensures { (f : _) → Even (panel_of panel.now) → Sized f (panel_of panel.now) z → Laid f (panel_of panel.now) result }
{
    let mdat = z.ftyp + z.meta as u32;
    let color_data = mdat + 8;
    Layout {
        ftyp: z.ftyp,
        meta: z.meta as u32,
        iloc: z.iloc,
        iinf: z.iinf,
        iref: z.iref,
        iprp: z.iprp as u32,
        ipco: z.ipco as u32,
        ipma: z.ipma,
        idat: z.idat,
        mdat: z.mdat as u32,
        payloads: payloads_of(panel, color_data),
        color_rext: hvcc_uses_rext(panel.color.hvcc),
        gain_rext: gain_uses_rext(&panel.gain_map),
    }
}
