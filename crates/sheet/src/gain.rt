// The gain map, with its tone map and its alternate colour.
ghost use Rattle.panel.specs.Of.{gain_of};
ghost use Rattle.sheet_fields.specs.Reads.{Reads};
ghost use Rattle.sheet.specs.Sheet.{image, gain};

use crate::color::read_alternate;
use panel::gain_map::EncodedGainMap;
use sheet_fields::{SheetReader, SheetRefusal};
use sheet_frame::map::Map;

// The gain map's own fields: no tone map yet, and no alternate colour.
#[tactic(auto, unfolding(crate::specs::Sheet::image))]
fn read_image<'a>(reader: &mut SheetReader<'a>) -> Result<EncodedGainMap<'a>, SheetRefusal>
    ensures { Reads image gain_of reader.old result reader.new }
{
    Ok(EncodedGainMap {
        hvcc: reader.string()?,
        sample: reader.string()?,
        width: reader.u32()?,
        height: reader.u32()?,
        bit_depth: reader.code()?,
        cicp: reader.cicp()?,
        xmp: reader.string()?,
        tmap: None,
        alternate_color: None,
    })
}

// The gain map, with its tone map and its alternate colour if their bits stand.
#[tactic(auto, unfolding(crate::specs::Sheet::gain, sheet_fields::specs::Fields::optional))]
pub(crate) fn read_gain<'a>(
    reader: &mut SheetReader<'a>,
    map: Map,
) -> Result<EncodedGainMap<'a>, SheetRefusal>
    ensures { Reads (gain map) gain_of reader.old result reader.new }
{
    let image = read_image(reader)?;
    Ok(EncodedGainMap {
        tmap: reader.optional(map.tmap, SheetReader::string)?,
        alternate_color: read_alternate(reader, map)?,
        ..image
    })
}
