// What the codes of a panel's enums stand for. A code that no value has stands for nothing.

#![tactic(auto)]

ghost use Rattle.panel.specs.Codes.{named};
ghost use Rattle.panel_codes.specs.Codes.{cicp_named};
ghost use Rattle.panel_codes.specs.Known.{Known};

use panel::coded::Coded;
use panel::color::Cicp;

// A code that stands for nothing.
#[derive(Clone, Copy)]
pub struct UnknownCode;

// The value with this code.
pub fn named<T: Coded>(code: u16) -> Result<T, UnknownCode>
    ensures { Known (named T.code T.every code) result }
{
    // With `find` in place of the loop the proof did not close.
    for value in T::every() {
        if value.code() == code {
            return Ok(*value);
        }
    }
    Err(UnknownCode)
}

// The colour encoding with these code points and this range.
#[tactic(auto, unfolding(crate::specs::Codes::cicp_named))]
pub fn cicp_named(
    primaries: u16,
    transfer: u16,
    matrix: u16,
    full_range: u16,
) -> Result<Cicp, UnknownCode>
    ensures { Known (cicp_named primaries transfer matrix full_range) result }
{
    Ok(Cicp {
        primaries: named(primaries)?,
        transfer: named(transfer)?,
        matrix: named(matrix)?,
        full_range: named(full_range)?,
    })
}
