// Replays stored calls of the arithmetic. A line of standard input is an operation and three
// operands, in hexadecimal, and is answered by the refusal and the result. oracle/README.md has the
// table of operations, and says how the stored answers were made.
#![tactic(auto)]

mod operations;
mod results;

use crate::operations::{Call, LINE};
use std::io;
use streams::Lines;

fn main(rt: HostRuntime) -> io::Result<()> {
    for line in Lines::<_, LINE>::new(rt.stdin()) {
        println!(rt; "{}", Call::from(line?).answer())?;
    }
    Ok(())
}
