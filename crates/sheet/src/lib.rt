// The panel sheet: a panel as one run of bytes. specs/ holds the definition of what a sheet says, field by field (Sheet); here it is
// read, numbers by value and byte parts as slices of the sheet.

#![tactic(auto)]

pub mod color;
pub mod gain;
pub mod metadata;
pub mod picture;

ghost use Rattle.std.specs.Prelude.{◌*◌, ◌≤◌, length};
ghost use Rattle.panel.specs.Of.{panel_of, gain_of};
ghost use Rattle.sheet_fields.specs.Reads.{Reads, ReadsAll};
ghost use Rattle.sheet.specs.Sheet.{gain, fields};

use crate::color::read_color;
use crate::gain::read_gain;
use crate::metadata::read_metadata;
use crate::picture::read_pictures;
use panel::Panel;
use sheet_fields::{SheetReader, SheetRefusal};
use sheet_frame::map::read_map;
use sheet_frame::{at_end, read_dims};

// The panel of a sheet: its byte parts are slices of the sheet, and its lengths parts of a list that has an entry for every four bytes of
// the sheet.
#[tactic(auto, unfolding(crate::specs::Sheet::fields, sheet_fields::specs::Fields::optional, panel::specs::Of::panel_of))]
pub fn read_sheet<'a>(sheet: &'a [u8], room: &'a mut [u32]) -> Result<Panel<'a>, SheetRefusal>
    requires { length sheet.now ≤ 4 * length room.old }
    ensures { ReadsAll fields panel_of sheet.now result }
{
    let mut reader = SheetReader { left: sheet };
    let map = read_map(&mut reader)?;
    let dims = read_dims(&mut reader)?;
    let bit_depth = reader.code()?;
    let alpha_bit_depth = reader.code()?;
    let (color, alpha) = read_pictures(&mut reader, dims.rows * dims.cols, room)?;
    let color_meta = read_color(&mut reader, map.cicp, map.icc)?;
    let metadata = read_metadata(&mut reader, map)?;
    // The closure states what it reads: this is not inferred of a closure whose answer borrows from the sheet.
    let gain_map = reader.optional(
        map.gain_map,
        |reader|
            ensures { Reads (gain map) gain_of reader.old result reader.new }
        { read_gain(reader, map) },
    )?;
    at_end(&reader)?;
    Ok(Panel {
        dims,
        visible: None,
        bit_depth,
        alpha_bit_depth,
        color,
        alpha,
        color_meta,
        metadata,
        gain_map,
    })
}
