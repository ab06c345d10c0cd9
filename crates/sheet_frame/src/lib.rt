// What frames the fields of a sheet: the map and the grid at its front, and its end.

#![tactic(auto)]

pub mod map;

ghost use Rattle.std.specs.Prelude.{◌^◌, ◌<◌, IfOk};
ghost use Rattle.panel.specs.Panel.{Panel as PurePanel};
ghost use Rattle.sheet_fields.specs.Reads.{Reads, ReadsAll};
ghost use Rattle.sheet_frame.specs.Frame.{dims, end};

use panel::GridDims;
use sheet_fields::{SheetReader, SheetRefusal};

// Columns and rows in 16 bits, and four sizes in 32.
#[tactic(auto, unfolding(crate::specs::Frame::dims))]
pub fn read_dims(reader: &mut SheetReader) -> Result<GridDims, SheetRefusal>
    ensures reads { Reads dims (λ d. d) reader.old result reader.new }
    ensures small { IfOk result (λ d. (d.cols < 2 ^ 16) × (d.rows < 2 ^ 16)) }
{
    Ok(GridDims {
        cols: reader.u16()?.into(),
        rows: reader.u16()?.into(),
        tile_w: reader.u32()?,
        tile_h: reader.u32()?,
        full_w: reader.u32()?,
        full_h: reader.u32()?,
    })
}

// The end of the fields: no bytes are left over.
#[tactic(auto, unfolding(crate::specs::Frame::end))]
pub fn at_end(reader: &SheetReader) -> Result<(), SheetRefusal>
    ensures { (p : PurePanel) → ReadsAll (end p) (λ _. p) reader.now.left.now result }
{
    if reader.left.is_empty() {
        Ok(())
    } else {
        Err(SheetRefusal::LeftOver)
    }
}
