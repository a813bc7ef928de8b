// Replays stored calls of the column writer. A line of standard input is a width and a number, in
// hexadecimal, and is answered by the number in a column of so many places. tools/columns.py made the
// stored lines and what they are answered, and holds the program to fresh ones.
#![tactic(auto)]

use std::io;
use streams::Lines;

// The bytes of a line: two digits, a space, sixteen digits and the newline
const LINE: usize = 20;

const WIDEST: usize = 24;

fn main(rt: HostRuntime) -> io::Result<()> {
    for line in Lines::<_, LINE>::new(rt.stdin()) {
        let line = line?;
        let width = hexadecimal::number(&line[0..2]) as usize;
        if width > WIDEST {
            break;
        }
        let mut text = [b'\n'; WIDEST + 1];
        call_line::write_number(&mut text[..width], hexadecimal::number(&line[3..19]));
        rt.write_all(&text[..width + 1])?;
    }
    Ok(())
}
