// idat: the descriptors of the two grids, each of which says how many rows and columns there are, and the size of the whole picture.
ghost use Rattle.std.specs.Prelude.{◌≡◌, false, cond, [], ◌∷◌, ◌+◌, ◌-◌, ◌≤◌};
ghost use Rattle.octets.specs.Numbers.{◌‖◌, be};
ghost use Rattle.octets.specs.Stores.{Room, Wrote, Boxed};
ghost use Rattle.heif.specs.Idat.{descriptor, descriptor_size, idat, idat_size};

use octets::Output;
use panel::when::when;
use plan_items::grid::{Grid, is_large};

// The first four bytes of a grid's descriptor.
fn write_grid_head(out: &mut Output, flags: u8, grid: Grid)
    requires { Room out.old 4 }
    ensures { Wrote out.old 4 (be 1 0 ‖ be 1 flags ‖ be 1 (grid.rows - 1) ‖ be 1 (grid.cols - 1)) out.new }
{
    out.w8(0);
    out.w8(flags);
    out.w8(grid.further_rows());
    out.w8(grid.further_cols());
}

// A side of the whole picture, in 32 bits or in 16.
fn write_side(out: &mut Output, large: bool, n: u32)
    requires room { Room out.old (cond large 4 2) }
    requires narrow { large ≡ false → n ≤ 65535 }
    ensures { Wrote out.old (cond large 4 2) (be (cond large 4 2) n) out.new }
{
    if large {
        out.w32(n);
    } else {
        out.w16(n as u16);
    }
}

// The descriptor of a grid.
fn write_descriptor(out: &mut Output, grid: Grid)
    requires { Room out.old (descriptor_size grid) }
    ensures { Wrote out.old (descriptor_size grid) (descriptor grid) out.new }
{
    let d = grid.dims();
    let large = is_large(d);
    write_grid_head(out, when(large, 2) as u8, grid);
    write_side(out, large, d.full_w);
    write_side(out, large, d.full_h);
}

// idat: the descriptor of each grid.
pub fn write_idat(out: &mut Output, size: u32, grid: Grid)
    requires room { Room out.old (8 + idat_size grid) }
    requires whole { size ≡ 8 + idat_size grid }
    ensures { Boxed out.old (8 + idat_size grid) (idat grid ∷ []) out.new }
{
    out.write_box(size, b"idat");
    write_descriptor(out, grid);
    write_descriptor(out, grid);
}
