// The tile lookup by numbers: since a reference can't be returned to C, where the tile's payload lies.
ghost use Rattle.std.specs.Prelude.{◌≡◌};
ghost use Rattle.plan_tile.specs.Lookup.{lent_tiles, tile_span};
ghost use Rattle.plan_tile.specs.Told.{span_told};
ghost use Rattle.kahopiru.specs.Tile.{tile_told};

use panel::{ItemId, Samples};
use plan_tile::{TileRefusal, TileSpan, tile_span};

// Where a tile's payload lies: in the alpha samples where `alpha` is 1, else in the colour samples, from `start` on, `length` bytes.
// Where `refusal` is not 0, all else is 0: C has no Result, and its bool is no type of this interface.
#[repr(C)]
#[derive(Clone, Copy)]
pub struct TilePlace {
    pub refusal: u32,
    pub alpha: u32,
    pub start: u64,
    pub length: u64,
}

// A span, or the number of a refusal.
impl From<Result<TileSpan, TileRefusal>> for TilePlace {
    ghost from_gives = { λ answer place. place ≡ tile_told (span_told answer) };

    fn from(answer: Result<TileSpan, TileRefusal>) -> TilePlace {
        match answer {
            Ok(span) => TilePlace {
                refusal: 0,
                alpha: span.alpha as u32,
                start: span.start as u64,
                length: span.size as u64,
            },
            Err(refusal) => TilePlace {
                refusal: u8::from(refusal) as u32,
                alpha: 0,
                start: 0,
                length: 0,
            },
        }
    }
}

// The place of the tile that an item id names, or the number of the refusal: 2, 3, 4 or 7.
#[unsafe(no_mangle)]
pub extern "C" fn kahopiru_tile(
    id: u16,
    color_lengths: &[u32],
    alpha_lengths: &[u32],
    color_samples: &[u8],
    alpha_samples: &[u8],
) -> TilePlace
    ensures { result ≡ tile_told (tile_span id (lent_tiles color_lengths.now alpha_lengths.now color_samples.now alpha_samples.now)) }
{
    let color = Samples {
        lengths: color_lengths,
        bytes: color_samples,
    };
    let alpha = Samples {
        lengths: alpha_lengths,
        bytes: alpha_samples,
    };
    tile_span(ItemId(id), color, alpha).into()
}
