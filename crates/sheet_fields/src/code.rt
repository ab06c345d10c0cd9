// The fields of a sheet that are codes. A code that stands for nothing is refused.
ghost use Rattle.panel.specs.Codes.{named};
ghost use Rattle.sheet_fields.specs.Fields.{coded};
ghost use Rattle.sheet_fields.specs.Codes.{cicp};
ghost use Rattle.sheet_fields.specs.Reads.{Reads};

use crate::{SheetReader, SheetRefusal};
use panel::coded::Coded;
use panel::color::Cicp;
use panel_codes::named;

impl<'a> SheetReader<'a> {
    // A value with a code of one byte.
    pub fn code<T: Coded>(&mut self) -> Result<T, SheetRefusal>
        ensures { Reads (coded 1 (named T.code T.every)) (λ x. x) self.old result self.new }
    {
        Ok(named(self.u8()?.into())?)
    }

    // A colour: three codes of 16 bits, then 0 or 1 for the full range.
    #[tactic(auto, unfolding(crate::specs::Codes::cicp))]
    pub fn cicp(&mut self) -> Result<Cicp, SheetRefusal>
        ensures { Reads cicp (λ c. c) self.old result self.new }
    {
        Ok(Cicp {
            primaries: named(self.u16()?)?,
            transfer: named(self.u16()?)?,
            matrix: named(self.u16()?)?,
            full_range: self.code()?,
        })
    }
}
