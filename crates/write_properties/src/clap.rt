// The property clap.
ghost use Rattle.octets.specs.Boxes.{optional};
ghost use Rattle.octets.specs.Stores.{Room, Wrote, Boxed};
ghost use Rattle.heif.specs.Clap.{offset, clap_payload, clap_size};

use octets::Output;
use panel::{GridDims, VisibleSize};

// How far the centre of what is visible lies from the centre of what is decoded: half of visible minus decoded. A difference that wraps is
// the two's complement of one below zero.
fn write_offset(out: &mut Output, visible: u32, decoded: u32)
    requires { Room out.old 8 }
    ensures { Wrote out.old 8 (offset visible decoded) out.new }
{
    out.w32(visible.wrapping_sub(decoded));
    out.w32(2);
}

// clap, where there is a visible size: that size, each side over 1, and the offsets of its centre.
pub(crate) fn write_clap(out: &mut Output, dims: GridDims, visible: Option<VisibleSize>)
    requires { Room out.old (clap_size visible) }
    ensures { Boxed out.old (clap_size visible) (optional "clap" (clap_payload dims visible)) out.new }
{
    if let Some(size) = visible {
        out.write_box(40, b"clap");
        out.w32(size.w);
        out.w32(1);
        out.w32(size.h);
        out.w32(1);
        write_offset(out, size.w, dims.tile_w);
        write_offset(out, size.h, dims.tile_h);
    }
}
