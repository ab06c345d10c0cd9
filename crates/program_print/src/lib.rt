// Prints the file of a panel sheet, and nothing else, or `refused N` and a line feed; and says on standard error what became of it.
#![tactic(auto)]

mod words;

ghost use Rattle.std.specs.Prelude.{◌≤◌, length, IfOk};

use sheet_fields::SheetRefusal;
use sheet_file::sheet_file;
use std::io;
use std::io::Read;
use words::words_of;

// Fills the room from its front until it is full or the input ends, and answers how many bytes were read, as `read` does.
pub fn read_full(input: &mut impl Read, room: &mut [u8]) -> io::Result<usize>
    ensures within { IfOk result (λ n. n ≤ length room.new) }
{
    // By `while`: how far a read got is what the next one begins at, and no iterator goes in such steps; `read_exact` refuses a short input.
    let mut n = 0;
    while n < room.len() {
        let more = input.read(&mut room[n..])?;
        if more == 0 {
            break;
        }
        n += more;
    }
    Ok(n)
}

// Prints what a sheet is answered, with room for a file of 32,768 bytes: a whole file, of so many bytes, or a refusal, by its number. An
// error says that not all of it could be printed. The room is of a fixed size, as nothing here allocates.
pub fn print_sheet_file(rt: &impl Print, sheet: &[u8]) -> io::Result<Result<u64, SheetRefusal>> {
    let mut room = [0u8; 32768];
    let answer = sheet_file(sheet, &mut room);
    match answer {
        Ok(size) => rt.write_all(&room[..size as usize])?,
        Err(refusal) => println!(rt; "refused {}", u8::from(refusal))?,
    }
    Ok(answer)
}

// Says on standard error what became of a sheet, in one line that begins with `written`, `refused` or `failed`.
pub fn say(rt: &impl Eprint, printed: io::Result<Result<u64, SheetRefusal>>) -> io::Result<()> {
    match printed {
        Ok(Ok(size)) => eprintln!(rt; "written {size} bytes"),
        Ok(Err(refusal)) => eprintln!(rt; "refused {}: {}", u8::from(refusal), words_of(refusal)),
        Err(_) => say_failed(rt, "not all of it could be written"),
    }
}

// Says on standard error that something failed, and what.
pub fn say_failed(rt: &impl Eprint, what: &str) -> io::Result<()> {
    eprintln!(rt; "failed: {what}")
}
