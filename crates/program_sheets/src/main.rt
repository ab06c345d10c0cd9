// Prints what each of the sheets in data/ is answered, in the order of the arguments, with a line feed behind each answer.
#![tactic(auto)]

use program_print::{print_sheet_file, read_full};
use std::fs::File;
use std::{env, io};

// Prints what the sheet in a file is answered; false where not all of it could be printed. The room is of a fixed size, as nothing here
// allocates.
fn run(rt: &HostRuntime, path: &str) -> io::Result<bool> {
    let mut input = [0u8; 12289];
    let mut file = File::open(rt, path)?;
    let n = read_full(&mut file, &mut input)?;
    if print_sheet_file(rt, &input[..n]).is_err() {
        return Ok(false);
    }
    println!(rt)?;
    Ok(true)
}

fn main(rt: HostRuntime) -> io::Result<()> {
    for path in env::args(&rt)?.skip(1) {
        if !run(&rt, path.as_str())? {
            break;
        }
    }
    Ok(())
}
