// The call that turns a panel sheet into a file or a refusal.
#![tactic(auto)]

ghost use Rattle.std.specs.Prelude.{◌≤◌, length, IfOk};
ghost use Rattle.sheet.specs.Answer.{SheetPromised};
ghost use Rattle.sheet_file.specs.Says.{sheet_says};

use sheet::read_sheet;
use sheet_fields::SheetRefusal;
use write_file::wrap_hevc_grid_with_alpha;

// The file of a sheet in the output, and its length; or why it is refused, and the output as it was.
pub fn sheet_file(sheet: &[u8], out: &mut [u8]) -> Result<u64, SheetRefusal>
    ensures promised { SheetPromised sheet.now out.old (sheet_says result) out.new }
    ensures within { IfOk result (λ n. n ≤ length out.old) }
{
    if 12288 < sheet.len() {
        return Err(SheetRefusal::TooLong);
    }
    // An entry for every four bytes of 12,288. It is of fixed length, since nothing here may allocate.
    let mut lengths = [0u32; 3072];
    let panel = read_sheet(sheet, &mut lengths)?;
    Ok(wrap_hevc_grid_with_alpha(&panel, out)?)
}
