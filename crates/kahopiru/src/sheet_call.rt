// The call that turns a panel sheet into a file, in numbers.
ghost use Rattle.std.specs.Prelude.{◌≡◌, length};
ghost use Rattle.sheet.specs.Answer.{sheet_answer, sheet_after};
ghost use Rattle.c_types.specs.Told.{told};

use c_types::Told;
use sheet_file::sheet_file;

// The file of a sheet in the output, and its length; or the number of its refusal, and the output as it was.
#[unsafe(no_mangle)]
pub extern "C" fn kahopiru_sheet(sheet: &[u8], out: &mut [u8]) -> Told
    ensures value { result ≡ told (sheet_answer sheet.now (length out.old)) }
    ensures out_after { out.new ≡ sheet_after sheet.now out.old }
{
    sheet_file(sheet, out).into()
}
