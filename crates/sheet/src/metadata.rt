// Orientation, light level and Exif.
ghost use Rattle.panel.specs.Of.{metadata_of};
ghost use Rattle.sheet_fields.specs.Reads.{Reads};
ghost use Rattle.sheet.specs.Sheet.{oriented, light, metadata};

use panel::metadata::{ContentLightLevel, Metadata, Orientation};
use sheet_fields::{SheetReader, SheetRefusal};
use sheet_frame::map::Map;

// A light level: two numbers of 16 bits.
#[tactic(auto, unfolding(crate::specs::Sheet::light))]
fn read_light(reader: &mut SheetReader) -> Result<ContentLightLevel, SheetRefusal>
    ensures { Reads light (λ l. l) reader.old result reader.new }
{
    Ok(ContentLightLevel {
        max_content_light_level: reader.u16()?,
        max_pic_average_light_level: reader.u16()?,
    })
}

// The orientation: Normal if its bit is off.
#[tactic(auto, unfolding(crate::specs::Sheet::oriented, sheet_fields::specs::Fields::optional))]
fn read_oriented(reader: &mut SheetReader, stands: bool) -> Result<Orientation, SheetRefusal>
    ensures { Reads (oriented stands) (λ o. o) reader.old result reader.new }
{
    let orientation = reader.optional(stands, SheetReader::code)?;
    Ok(orientation.unwrap_or(Orientation::Normal))
}

// Orientation, light level and Exif, each if its bit stands.
#[tactic(auto, unfolding(crate::specs::Sheet::metadata, sheet_fields::specs::Fields::optional))]
pub(crate) fn read_metadata<'a>(
    reader: &mut SheetReader<'a>,
    map: Map,
) -> Result<Metadata<'a>, SheetRefusal>
    ensures { Reads (metadata map) metadata_of reader.old result reader.new }
{
    Ok(Metadata {
        orientation: read_oriented(reader, map.orientation)?,
        content_light_level: reader.optional(map.light_level, read_light)?,
        exif: reader.optional(map.exif, SheetReader::string)?,
    })
}
