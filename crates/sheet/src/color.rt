// The colour of the picture, and the alternate colour of a tone map.
ghost use Rattle.std.specs.Prelude.{option_map};
ghost use Rattle.panel.specs.Of.{colour_of};
ghost use Rattle.sheet_fields.specs.Reads.{Reads};
ghost use Rattle.sheet.specs.Sheet.{colour, alternate};

use panel::color::ColorMetadata;
use sheet_fields::{SheetReader, SheetRefusal};
use sheet_frame::map::Map;

// A colour: code points and a profile, each if its bit stands.
#[tactic(auto, unfolding(crate::specs::Sheet::colour, sheet_fields::specs::Fields::optional))]
pub(crate) fn read_color<'a>(
    reader: &mut SheetReader<'a>,
    cicp: bool,
    icc: bool,
) -> Result<ColorMetadata<'a>, SheetRefusal>
    ensures { Reads (colour cicp icc) colour_of reader.old result reader.new }
{
    Ok(ColorMetadata {
        cicp: reader.optional(cicp, SheetReader::cicp)?,
        icc: reader.optional(icc, SheetReader::string)?,
    })
}

// The alternate colour of a tone map: there if one of its two fields is.
#[tactic(auto, unfolding(crate::specs::Sheet::alternate))]
pub(crate) fn read_alternate<'a>(
    reader: &mut SheetReader<'a>,
    map: Map,
) -> Result<Option<ColorMetadata<'a>>, SheetRefusal>
    ensures { Reads (alternate map) (option_map colour_of) reader.old result reader.new }
{
    let color = read_color(reader, map.alternate_cicp, map.alternate_icc)?;
    let stated = color.cicp.is_some() || color.icc.is_some();
    Ok(stated.then_some(color))
}
