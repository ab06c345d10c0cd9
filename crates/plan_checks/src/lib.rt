// The checks 1, 22, 8 and 2 to 4 of a panel, each of which answers whether it refuses.
#![tactic(auto)]

ghost use Rattle.std.specs.Prelude.{◌≡◌, ◌||◌, ◌*◌, eqb};
ghost use Rattle.octets.specs.Numbers.{total};
ghost use Rattle.panel.specs.Form.{form_of};
ghost use Rattle.heif.specs.Refusal.{bad_side, bad_grid, bad_part, bad_visible, seen, bad_axis, bad_cover, bad_counts, bad_id, bad_items};
ghost use Rattle.heif.specs.Items.{last_id};
ghost use Rattle.plan_checks.specs.Sums.{bad_samples};

use panel::{FileForm, GridDims, Samples, VisibleSize};
use plan_items::items::Items;

// Whether rows or columns are too few or too many.
fn bad_side(n: u32) -> bool
    ensures { result ≡ bad_side n }
{
    !(1..=256).contains(&n)
}

// Check 1: a side of the grid is 0 or above 256.
pub fn bad_grid(dims: GridDims) -> bool
    ensures { result ≡ bad_grid dims.rows dims.cols }
{
    bad_side(dims.rows) || bad_side(dims.cols)
}

// Whether along one axis nothing is visible, or more than is decoded, or what is decoded does not fit in 32 bits with a sign.
fn bad_part(visible: u32, decoded: u32) -> bool
    ensures { result ≡ bad_part visible decoded }
{
    visible == 0 || visible > decoded || decoded > 2147483647
}

// Check 22: a visible size, where there is one, is no part of a tile, or the tile is too large for one.
pub fn bad_visible(dims: GridDims, visible: Option<VisibleSize>) -> bool
    ensures { result ≡ bad_visible dims visible }
{
    match visible {
        Some(size) => bad_part(size.w, dims.tile_w) || bad_part(size.h, dims.tile_h),
        None => false,
    }
}

// What is seen of a tile: the visible size, or all that is decoded.
fn seen(dims: GridDims, visible: Option<VisibleSize>) -> VisibleSize
    ensures { result ≡ seen dims visible }
{
    visible.unwrap_or(VisibleSize {
        w: dims.tile_w,
        h: dims.tile_h,
    })
}

// Whether along one axis a size is 0, or n tiles of a size are less than the full size.
fn bad_axis(n: u32, tile: u32, full: u32) -> bool
    ensures { result ≡ bad_axis n tile full }
{
    // 64 bits hold the product of any two numbers of 32.
    tile == 0 || full == 0 || (n as u64 * tile as u64) < full as u64
}

// Check 8: a size is 0, or what is seen of the tiles doesn't cover the picture.
pub fn bad_cover(dims: GridDims, visible: Option<VisibleSize>) -> bool
    ensures { result ≡ bad_cover dims (seen dims visible) }
{
    let tile = seen(dims, visible);
    bad_axis(dims.cols, tile.w, dims.full_w) || bad_axis(dims.rows, tile.h, dims.full_h)
}

// Check 2: a list of lengths has not exactly an entry for each tile.
pub fn bad_counts(dims: GridDims, colors: usize, alphas: usize) -> bool
    ensures { result ≡ bad_counts (dims.rows * dims.cols) colors alphas }
{
    let tiles = dims.rows as usize * dims.cols as usize;
    colors != tiles || alphas != tiles
}

// Whether lengths sum to a number. It ends at the first length above what is missing, so that no more of a list is read than decides it,
// and compares before it subtracts, so that nothing wraps.
fn sums_to(lengths: &[u32], sum: u64) -> bool
    ensures { result ≡ eqb (total lengths.now) sum }
{
    let mut missing = sum;
    for &n in lengths {
        let n = n as u64;
        if n > missing {
            return false;
        }
        missing -= n;
    }
    missing == 0
}

// Whether the lengths of a picture's samples do not sum to the bytes lent.
fn bad_samples(samples: Samples) -> bool
    ensures { result ≡ bad_samples samples.entry }
{
    !sums_to(samples.lengths, samples.bytes.len() as u64)
}

// Check 3: lengths do not sum to the bytes lent, of the colour or of alpha.
pub fn bad_sums(color: Samples, alpha: Samples) -> bool
    ensures { result ≡ (bad_samples color.entry || bad_samples alpha.entry) }
{
    bad_samples(color) || bad_samples(alpha)
}

// Whether the last id does not fit in the bytes that the form has for it.
fn bad_last_id(form: FileForm, s: Items) -> bool
    ensures { result ≡ bad_id (form_of form).id (last_id s) }
{
    // 32 bits hold the last id of so many tiles.
    !form.is_wide() && 65535 < s.last_id()
}

// Check 4: the last id does not fit, or the tiles are more than a reference can count.
pub fn bad_items(form: FileForm, s: Items) -> bool
    ensures { result ≡ bad_items (form_of form) s }
{
    bad_last_id(form, s) || 65535 < s.tiles()
}
