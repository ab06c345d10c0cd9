// The tile lookup: an item id, and that very part of the lent bytes which is its tile's payload.
#![tactic(auto)]

ghost use Rattle.std.specs.Prelude.{◌≡◌, ◌+◌, ◌*◌, ◌≤◌, ◌<◌, length};
ghost use Rattle.octets.specs.Numbers.{total as total_of};
ghost use Rattle.plan_tile.specs.Lookup.{names_colour, names_alpha, bad_lists, too_many, tile_refusal, tile_bytes};
ghost use Rattle.plan_tile.specs.Lookup.{span_of, tile_span, span_address};
ghost use Rattle.plan_tile.specs.Told.{number, lent, refusal_of, span_told};

use octets::total;
use panel::{ItemId, Samples};
use plan_checks::bad_sums;

// Why the lookup refuses an id, each by the number of its check, in the order in which they are made: 2, 3, 4, 7. Of several the first
// counts.
#[derive(Clone, Copy)]
pub enum TileRefusal {
    // The lists of lengths differ in count, or are empty.
    TileCount = 2,
    // The lengths do not sum to the bytes lent.
    SampleLengths = 3,
    // The alpha grid's id would be above 65,535.
    ItemIds = 4,
    // The id names no tile.
    NoTile = 7,
}

// A refusal's number.
impl From<TileRefusal> for u8 {
    ghost from_gives = { λ refusal n. n ≡ number refusal };

    fn from(refusal: TileRefusal) -> u8 {
        refusal as u8
    }
}

// Where a tile's payload lies, by numbers: in the alpha bytes or else the colour bytes, from `start` on, `size` bytes.
#[derive(Clone, Copy)]
pub struct TileSpan {
    pub alpha: bool,
    pub start: usize,
    pub size: usize,
}

// Whether the lists of lengths differ in count, or are empty.
fn bad_lists(colors: usize, alphas: usize) -> bool
    ensures { result ≡ bad_lists colors alphas }
{
    colors != alphas || colors == 0
}

// Whether the alpha grid's id would be above 65,535.
fn too_many(n: usize) -> bool
    ensures { result ≡ too_many n }
{
    n > 32766
}

// Whether an id names one of n colour tiles.
fn names_color(n: usize, id: ItemId) -> bool
    ensures { result ≡ names_colour n id.0 }
{
    (1..=n).contains(&(id.0 as usize))
}

// Whether an id names one of n alpha tiles.
fn names_alpha(n: usize, id: ItemId) -> bool
    requires { n ≤ 32766 }
    ensures { result ≡ names_alpha n id.0 }
{
    (n + 2..=2 * n + 1).contains(&(id.0 as usize))
}

// The span of tile k of a picture, whose lengths sum to the bytes lent.
fn span_of(alpha: bool, samples: Samples, k: usize) -> TileSpan
    requires k_in_bounds { k < length samples.lengths.now }
    requires sum { total_of samples.lengths.now ≡ length samples.bytes.now }
    ensures { result ≡ span_of alpha samples.entry.lengths.now k }
{
    let start = total(&samples.lengths[..k]) as usize;
    let size = samples.lengths[k] as usize;
    TileSpan { alpha, start, size }
}

// The span of the tile that an id names, or why it is refused.
#[tactic(auto, unfolding(crate::specs::Lookup::tile_span, crate::specs::Lookup::tile_refusal, crate::specs::Lookup::lent_tiles))]
pub fn tile_span(id: ItemId, color: Samples, alpha: Samples) -> Result<TileSpan, TileRefusal>
    ensures span { span_told result ≡ tile_span id.0 (lent color.entry alpha.entry) }
    ensures refusal { refusal_of result ≡ tile_refusal id.0 (lent color.entry alpha.entry) }
{
    let n = color.lengths.len();
    if bad_lists(n, alpha.lengths.len()) {
        return Err(TileRefusal::TileCount);
    }
    if bad_sums(color, alpha) {
        return Err(TileRefusal::SampleLengths);
    }
    if too_many(n) {
        return Err(TileRefusal::ItemIds);
    }
    if names_color(n, id) {
        return Ok(span_of(false, color, id.0 as usize - 1));
    }
    if names_alpha(n, id) {
        return Ok(span_of(true, alpha, id.0 as usize - (n + 2)));
    }
    Err(TileRefusal::NoTile)
}

// Why the lookup refuses an id: 2, 3, 4 or 7; or 0, where it does not.
pub fn tile_refusal(id: ItemId, color: Samples, alpha: Samples) -> u8
    ensures { result ≡ tile_refusal id.0 (lent color.entry alpha.entry) }
{
    match tile_span(id, color, alpha) {
        Ok(_) => 0,
        Err(refusal) => refusal.into(),
    }
}

// The payload of the tile that an id names: that very part of the colour bytes or of the alpha bytes; empty where `tile_refusal` is not 0.
#[tactic(auto, unfolding(crate::specs::Lookup::tile_span, crate::specs::Lookup::tile_bytes, crate::specs::Lookup::lent_tiles))]
pub fn tile<'a>(id: ItemId, color: Samples<'_, 'a>, alpha: Samples<'_, 'a>) -> &'a [u8]
    ensures bytes { result.now ≡ tile_bytes id.0 (lent color.entry alpha.entry) }
    ensures place { result.ref_ptr ≡ span_address (tile_span id.0 (lent color.entry alpha.entry)) color.entry.bytes.ref_ptr alpha.entry.bytes.ref_ptr }
{
    match tile_span(id, color, alpha) {
        Ok(span) => {
            let bytes = if span.alpha { alpha.bytes } else { color.bytes };
            &bytes[span.start..span.start + span.size]
        }
        Err(_) => &color.bytes[..0],
    }
}
