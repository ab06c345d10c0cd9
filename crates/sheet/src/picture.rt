// Both pictures, with their records, lengths and bytes.
ghost use Rattle.std.specs.Prelude.{◌*◌, ◌≤◌, length};
ghost use Rattle.octets.specs.Numbers.{total};
ghost use Rattle.sheet_fields.specs.Fields.{bytes};
ghost use Rattle.sheet_fields.specs.Reads.{Reads};
ghost use Rattle.sheet.specs.Sheet.{two_pictures};
ghost use Rattle.sheet.specs.Of.{pictures_of};

use octets::total;
use panel::{Samples, Tiles};
use sheet_fields::{SheetReader, SheetRefusal};

// Bytes for the sum of lengths. A sum that usize does not hold is more than any sheet has.
#[tactic(auto, unfolding(sheet_fields::specs::Fields::bytes))]
fn read_samples<'a>(reader: &mut SheetReader<'a>, lengths: &[u32]) -> Result<&'a [u8], SheetRefusal>
    ensures { Reads (bytes (total lengths.now)) (λ x. x.now) reader.old result reader.new }
{
    let sum = usize::try_from(total(lengths)).map_err(|_| SheetRefusal::Short)?;
    reader.bytes(sum)
}

// Both records, n lengths for each picture, and bytes for the sum of the lengths: colour, then alpha. The lengths are put into a list
// that has an entry for every four bytes that are left: where it is too short for n of them, so is the sheet.
#[tactic(auto, using(sheet_fields::proofs::Lengths::too_few), unfolding(crate::specs::Sheet::two_pictures))]
pub(crate) fn read_pictures<'a>(
    reader: &mut SheetReader<'a>,
    n: u32,
    mut room: &'a mut [u32],
) -> Result<(Tiles<'a>, Tiles<'a>), SheetRefusal>
    requires { length reader.old.left.now ≤ 4 * length room.old }
    ensures { Reads (two_pictures n) pictures_of reader.old result reader.new }
{
    let color_hvcc = reader.string()?;
    let alpha_hvcc = reader.string()?;
    let color_room = room.split_off_mut(..n as usize).ok_or(SheetRefusal::Short)?;
    let color_lengths = reader.lengths(color_room)?;
    let alpha_room = room.split_off_mut(..n as usize).ok_or(SheetRefusal::Short)?;
    let alpha_lengths = reader.lengths(alpha_room)?;
    let color_bytes = read_samples(reader, color_lengths)?;
    let alpha_bytes = read_samples(reader, alpha_lengths)?;
    Ok((
        Tiles {
            hvcc: color_hvcc,
            samples: Samples {
                lengths: color_lengths,
                bytes: color_bytes,
            },
        },
        Tiles {
            hvcc: alpha_hvcc,
            samples: Samples {
                lengths: alpha_lengths,
                bytes: alpha_bytes,
            },
        },
    ))
}
