// colr: colour by code points (nclx) or by an ICC profile (prof).
ghost use Rattle.std.specs.Prelude.{[], ◌∷◌, Some, option_map};
ghost use Rattle.octets.specs.Numbers.{◌‖◌, text};
ghost use Rattle.octets.specs.Boxes.{box, optional};
ghost use Rattle.octets.specs.Stores.{Room, Boxed};
ghost use Rattle.write_properties.specs.Room.{BoxRoom};
ghost use Rattle.panel.specs.Of.{colour_of};
ghost use Rattle.heif.specs.Colr.{nclx_payload, first_colr, second_colr, alternates};
ghost use Rattle.heif.specs.Colr.{nclx_size, profile_size, first_colr_size, second_colr_size, alternates_size};

use octets::{Output, size_of};
use panel::coded::Coded;
use panel::color::{Cicp, ColorMetadata};
use panel::when::when;

// By code points. It is put where it is called, as the compiler does by itself with most writers: were one of them left a function to which
// the output is lent, the output would be looked up anew behind each byte of the file, as a byte could be a part of it.
#[inline(always)]
pub(crate) fn write_colr_nclx(out: &mut Output, enc: Cicp)
    requires { Room out.old nclx_size }
    ensures { Boxed out.old nclx_size (box "colr" (nclx_payload enc) ∷ []) out.new }
{
    out.write_box(19, b"colr");
    out.put(b"nclx");
    out.w16(enc.primaries.code());
    out.w16(enc.transfer.code());
    out.w16(enc.matrix.code());
    out.w8(when(enc.full_range, 0x80) as u8);
}

// By a profile.
fn write_colr_icc(out: &mut Output, icc: &[u8])
    requires { BoxRoom out.old (profile_size (Some icc.now)) }
    ensures { Boxed out.old (profile_size (Some icc.now)) (box "colr" (text "prof" ‖ icc.now) ∷ []) out.new }
{
    out.write_box(size_of(12, icc.len()), b"colr");
    out.put(b"prof");
    out.put(icc);
}

// The first colr: code points where they are present, else a profile, else unspecified full-range.
pub(crate) fn write_colr(out: &mut Output, color: &ColorMetadata)
    requires { let c = colour_of color.now in BoxRoom out.old (first_colr_size c.cicp c.icc) }
    ensures { let c = colour_of color.now in Boxed out.old (first_colr_size c.cicp c.icc) (box "colr" (first_colr c.cicp c.icc) ∷ []) out.new }
{
    match (color.cicp, color.icc) {
        (Some(enc), _) => write_colr_nclx(out, enc),
        (None, Some(icc)) => write_colr_icc(out, icc),
        (None, None) => write_colr_nclx(out, Cicp::unspecified()),
    }
}

// The second colr: a profile beside code points.
pub(crate) fn write_secondary_colr(out: &mut Output, color: &ColorMetadata)
    requires { let c = colour_of color.now in BoxRoom out.old (second_colr_size c.cicp c.icc) }
    ensures { let c = colour_of color.now in Boxed out.old (second_colr_size c.cicp c.icc) (optional "colr" (second_colr c.cicp c.icc)) out.new }
{
    if let Some(icc) = color.cicp.and(color.icc) {
        write_colr_icc(out, icc);
    }
}

// What an alternate colour states, where there is one: code points, then a profile.
pub(crate) fn write_alternate_colr(out: &mut Output, alternate: &Option<ColorMetadata>)
    requires { BoxRoom out.old (alternates_size (option_map colour_of alternate.now)) }
    ensures { Boxed out.old (alternates_size (option_map colour_of alternate.now)) (alternates (option_map colour_of alternate.now)) out.new }
{
    if let Some(color) = alternate {
        if let Some(enc) = color.cicp {
            write_colr_nclx(out, enc);
        }
        if let Some(icc) = color.icc {
            write_colr_icc(out, icc);
        }
    }
}
