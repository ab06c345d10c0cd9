// The panel that a caller's codes and byte parts stand for. A part is there where its byte is 1; the codes of an absent part are not looked
// at.

#![tactic(auto)]

ghost use Rattle.panel.specs.Of.{colour_of, metadata_of, gain_of, panel_of};
ghost use Rattle.c_types.specs.Lent.{lent_of};
ghost use Rattle.c_numbers.specs.Codes.{Stands, cicp_from, colour_from, metadata_from, gain_from, panel_from};
ghost use Rattle.panel_codes.specs.Known.{Known};

use c_types::{CicpCodes, ColorCodes, GainCodes, LentParts, PanelCodes};
use panel::Panel;
use panel::color::{Cicp, ColorMetadata};
use panel::gain_map::EncodedGainMap;
use panel::metadata::Metadata;
use panel_codes::{UnknownCode, cicp_named, named};

// A colour encoding.
fn cicp_from(c: CicpCodes) -> Result<Cicp, UnknownCode>
    ensures { Known (cicp_from c) result }
{
    cicp_named(c.primaries, c.transfer, c.matrix, c.full_range as u16)
}

// A colour, by code points, by a profile, by both or by neither.
#[tactic(auto, unfolding(crate::specs::Codes::colour_from))]
fn color_from<'a>(c: ColorCodes, icc: &'a [u8]) -> Result<ColorMetadata<'a>, UnknownCode>
    ensures { Stands colour_of (colour_from c icc.now) result }
{
    let has_cicp: bool = named(c.has_cicp as u16)?;
    let has_icc: bool = named(c.has_icc as u16)?;
    let cicp = has_cicp.then(|| cicp_from(c.cicp)).transpose()?;
    Ok(ColorMetadata {
        cicp,
        icc: has_icc.then_some(icc),
    })
}

// A gain map.
#[tactic(auto, unfolding(crate::specs::Codes::gain_from))]
fn gain_from<'a>(g: GainCodes, parts: &LentParts<'a>) -> Result<EncodedGainMap<'a>, UnknownCode>
    ensures { Stands gain_of (gain_from g (lent_of parts.now)) result }
{
    let bit_depth = named(g.bit_depth as u16)?;
    let has_tmap: bool = named(g.has_tmap as u16)?;
    let has_alternate: bool = named(g.has_alternate as u16)?;
    let cicp = cicp_from(g.cicp)?;
    let alternate_color = has_alternate
        .then(|| color_from(g.alternate, parts.alternate_icc))
        .transpose()?;
    Ok(EncodedGainMap {
        hvcc: parts.gain_hvcc,
        sample: parts.gain_sample,
        width: g.width,
        height: g.height,
        bit_depth,
        cicp,
        xmp: parts.gain_xmp,
        tmap: has_tmap.then_some(parts.gain_tmap),
        alternate_color,
    })
}

// Orientation, light level and Exif.
#[tactic(auto, unfolding(crate::specs::Codes::metadata_from))]
fn metadata_from<'a>(c: PanelCodes, exif: &'a [u8]) -> Result<Metadata<'a>, UnknownCode>
    ensures { Stands metadata_of (metadata_from c exif.now) result }
{
    let orientation = named(c.orientation as u16)?;
    let has_light: bool = named(c.has_light as u16)?;
    let has_exif: bool = named(c.has_exif as u16)?;
    Ok(Metadata {
        orientation,
        content_light_level: has_light.then_some(c.light_level()),
        exif: has_exif.then_some(exif),
    })
}

// The panel. It is put where it is called: out of a function of its own the whole answer would be copied, for which the compiler calls
// memcpy of the C library, and the archive is to want memset alone.
#[inline(always)]
#[tactic(auto, unfolding(crate::specs::Codes::panel_from, panel::specs::Of::panel_of))]
pub fn panel_from<'a>(c: PanelCodes, parts: &LentParts<'a>) -> Result<Panel<'a>, UnknownCode>
    ensures { Stands panel_of (panel_from c (lent_of parts.now)) result }
{
    let bit_depth = named(c.bit_depth as u16)?;
    let alpha_bit_depth = named(c.alpha_bit_depth as u16)?;
    let has_visible: bool = named(c.has_visible as u16)?;
    let metadata = metadata_from(c, parts.exif)?;
    let color_meta = color_from(c.color, parts.icc)?;
    let has_gain = named(c.has_gain as u16)?;
    // By `if`: with `then`, as in gain_from, the proof did not close.
    let gain_map = if has_gain {
        Some(gain_from(c.gain, parts)?)
    } else {
        None
    };
    Ok(Panel {
        dims: c.dims(),
        visible: has_visible.then_some(c.visible_size()),
        bit_depth,
        alpha_bit_depth,
        color: parts.color,
        alpha: parts.alpha,
        color_meta,
        metadata,
        gain_map,
    })
}
