// The printing program: a block file on standard input, its plan or its refusal on standard output.
#![tactic(auto)]

use std::io;

// The buffer holds one byte more than the longest file. So a longer file is 9,217 bytes here, which the library refuses with 15 by
// their number: the program needs no test of its own.
fn main(rt: HostRuntime) -> io::Result<()> {
    let mut file = [0u8; 9217];
    let size = input::read_full(&mut rt.stdin(), &mut file)?;
    let mut text = [0u8; 25600];
    match print::plan_text(&file[..size], &mut text) {
        Ok(end) => rt.write_all(&text[..end]),
        Err(_) => Ok(()),
    }
}
