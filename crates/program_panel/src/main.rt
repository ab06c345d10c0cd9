// Reads one panel sheet from standard input and prints its file, or `refused N`; what became of it is said on standard error, since what
// the sheet is answered has no exit status of its own. A sheet of more than 12,288 bytes is refused, so one byte more than that is read and
// no further, into a room of that size, as nothing here allocates.
#![tactic(auto)]

use program_print::{print_sheet_file, read_full, say, say_failed};
use std::io;

fn main(rt: HostRuntime) -> io::Result<()> {
    let mut input = [0u8; 12289];
    match read_full(&mut rt.stdin(), &mut input) {
        Ok(n) => say(&rt, print_sheet_file(&rt, &input[..n])),
        Err(_) => say_failed(&rt, "the sheet cannot be read to its end"),
    }
}
