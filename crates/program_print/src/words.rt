// Each refusal of a sheet in words, for whoever wrote it: those of README.md, held to them by tests/words.sh.
use panel::Refusal;
use sheet_fields::SheetRefusal;

// What is wrong with a sheet, or with the panel that it says. No sheet is answered 22 or 2 to 5. It is no Display: the type is another
// crate's, and what is said of the room and of docs/ is the program's.
pub fn words_of(refusal: SheetRefusal) -> &'static str {
    match refusal {
        SheetRefusal::Panel(Refusal::GridSide) => {
            "there are no rows or no columns, or more than 256"
        }
        SheetRefusal::Panel(Refusal::Cover) => {
            "a size of a tile or of the whole picture is 0, or what the tiles show does not cover the whole picture"
        }
        SheetRefusal::Panel(Refusal::OutputLength) => {
            "the room for the file is too short; it is 32,768 bytes here, and docs/SHEET.md says what to do"
        }
        SheetRefusal::Panel(_) => "README.md has the numbers of refusals",
        SheetRefusal::Short => "the sheet ends before its fields do",
        SheetRefusal::BadMap => {
            "the sheet's map asks for something that there is not, or for a part without the part that it belongs to"
        }
        SheetRefusal::Code => {
            "a form of the file, a depth, an orientation, a colour code, or a yes or no is none that exists"
        }
        SheetRefusal::LeftOver => "bytes are left over behind the sheet's last field",
        SheetRefusal::TooLong => "the sheet has more than 12,288 bytes",
    }
}
