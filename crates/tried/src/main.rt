// A benchmark: a block file on standard input, and on standard output how many partial orders the search of its week tries, or its refusal.
#![tactic(auto)]

use std::io;
use week::Week;

// A number and the end of a line.
fn put_line(rt: &impl Print, number: u32) -> io::Result<()> {
    println!(rt; "{number}")
}

// The buffer holds one byte more than the longest file, as in the printing program.
fn main(rt: HostRuntime) -> io::Result<()> {
    let mut file = [0u8; 9217];
    let size = input::read_full(&mut rt.stdin(), &mut file)?;
    let mut domain = [0u16; 24];
    let mut loss = [0u16; 24];
    let mut give = [0u16; 24];
    let mut ties = [0u16; 9216];
    let numbers = match block::read(&file[..size], &mut domain, &mut loss, &mut give, &mut ties) {
        Ok(numbers) => numbers,
        Err(refusal) => {
            print!(rt; "refused ")?;
            return put_line(&rt, refusal.number());
        }
    };
    let n = numbers.n;
    if 24 < n {
        return Ok(());
    }
    let lots = n as usize;
    let week = Week {
        numbers,
        domain: &domain[..lots],
        loss: &loss[..lots],
        give: &give[..lots],
        ties: &ties[..lots * lots * 16],
    };
    put_line(&rt, solve::tried(&week))
}
