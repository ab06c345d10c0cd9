// The tile lookup, called for every id of two pictures and for each reason to refuse.
use panel::{ItemId, Samples};
use plan_tile::{tile, tile_refusal};
use std::io;

// Prints the number of the refusal, or 0, and the part: a line for an id.
fn print_tile(rt: &impl Print, id: u16, color: Samples, alpha: Samples) -> io::Result<()> {
    let refusal = tile_refusal(ItemId(id), color, alpha);
    print!(rt; "{refusal} ")?;
    rt.write_all(tile(ItemId(id), color, alpha))?;
    println!(rt)
}

// The ids from 0 to 7.
fn print_tiles(rt: &impl Print, color: Samples, alpha: Samples) -> io::Result<()> {
    for id in 0..8 {
        print_tile(rt, id, color, alpha)?;
    }
    Ok(())
}

// Lists that are refused: with 2, where they differ in count or are empty, with 3, where they do not sum to the bytes, and with 4, where
// there are more tiles than ids.
fn print_refused(rt: &impl Print) -> io::Result<()> {
    let none = Samples {
        lengths: &[],
        bytes: &[],
    };
    let one = Samples {
        lengths: &[0],
        bytes: &[],
    };
    let two = Samples {
        lengths: &[0, 0],
        bytes: &[],
    };
    let two_short = Samples {
        lengths: &[0, 0],
        bytes: &[0],
    };
    let many = Samples {
        lengths: &[0; 32767],
        bytes: &[],
    };
    print_tile(rt, 1, two, one)?;
    print_tile(rt, 1, none, none)?;
    print_tile(rt, 1, two, two_short)?;
    print_tile(rt, 1, many, many)
}

// Prints what is found among the tiles of panel P and of the panel with every part, and what is refused.
pub(crate) fn print_lookups(rt: &impl Print) -> io::Result<()> {
    let color_of_p = Samples {
        lengths: &[1],
        bytes: &[0xAA],
    };
    let alpha_of_p = Samples {
        lengths: &[1],
        bytes: &[0xBB],
    };
    let color_of_full = Samples {
        lengths: &[2, 1],
        bytes: &[0xA1, 0xA2, 0xA3],
    };
    let alpha_of_full = Samples {
        lengths: &[1, 3],
        bytes: &[0xB1, 0xB2, 0xB3, 0xB4],
    };
    print_tiles(rt, color_of_p, alpha_of_p)?;
    print_tiles(rt, color_of_full, alpha_of_full)?;
    print_refused(rt)
}
