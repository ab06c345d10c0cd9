// The map of a sheet: which of the fields that may be left out are there.
ghost use Rattle.std.specs.Prelude.{◌≡◌, ◌<◌};
ghost use Rattle.sheet_fields.specs.Reads.{Reads};
ghost use Rattle.sheet_frame.specs.Map.{bit, sheet_map};

use sheet_fields::{SheetReader, SheetRefusal};

// A bool for each bit, the lowest first.
#[derive(Clone, Copy)]
pub struct Map {
    pub cicp: bool,
    pub icc: bool,
    pub orientation: bool,
    pub light_level: bool,
    pub exif: bool,
    pub gain_map: bool,
    pub tmap: bool,
    pub alternate_cicp: bool,
    pub alternate_icc: bool,
}

// Whether bit i stands, bit 0 being the lowest.
fn bit(i: u32, bits: u16) -> bool
    requires { i < 16 }
    ensures { result ≡ bit i bits }
{
    bits >> i & 1 == 1
}

// Bits 0 to 8. A map is refused where a bit above 8 stands, or a field without the one that it belongs to.
impl TryFrom<u16> for Map {
    type Error = SheetRefusal;

    ghost use Rattle.sheet_frame.specs.Judges.{Judges};

    ghost try_from_gives = { λ bits result. Judges bits result };

    #[tactic(auto, unfolding(crate::specs::Map::map_of, crate::specs::Map::judged))]
    fn try_from(bits: u16) -> Result<Map, SheetRefusal> {
        let map = Map {
            cicp: bit(0, bits),
            icc: bit(1, bits),
            orientation: bit(2, bits),
            light_level: bit(3, bits),
            exif: bit(4, bits),
            gain_map: bit(5, bits),
            tmap: bit(6, bits),
            alternate_cicp: bit(7, bits),
            alternate_icc: bit(8, bits),
        };
        if 511 < bits
            || map.tmap && !map.gain_map
            || (map.alternate_cicp || map.alternate_icc) && !map.tmap
        {
            return Err(SheetRefusal::BadMap);
        }
        Ok(map)
    }
}

// The map: 16 bits.
#[tactic(auto, unfolding(crate::specs::Map::sheet_map))]
pub fn read_map(reader: &mut SheetReader) -> Result<Map, SheetRefusal>
    ensures { Reads sheet_map (λ m. m) reader.old result reader.new }
{
    Map::try_from(reader.u16()?)
}
