// Replays stored calls of the logarithm, the power and the weights. A line of standard input is a
// letter and one or two operands, in hexadecimal, and is answered by the refusal and the result's
// bits. oracle/README.md says what the letters are and how the stored answers were made.
#![tactic(auto)]

use hexadecimal::Answer;
use std::io;
use streams::Lines;

// The bytes of a line: a letter and sixteen digits, a space or the newline behind each
const LINE: usize = 19;

// What is left of the line of a power: eight digits and the newline
const REST: usize = 9;

fn main(rt: HostRuntime) -> io::Result<()> {
    for line in Lines::<_, LINE>::new(rt.stdin()) {
        let line = line?;
        let operand = hexadecimal::number(&line[2..18]);
        let answer = match line[0] {
            b'l' => logarithm::ln(float::from_bits(operand)),
            b'w' => Ok(logarithm::weight(operand)),
            _ => {
                let Some(exponent) = exponent(rt)? else {
                    break;
                };
                Ok(logarithm::powi(float::from_bits(operand), exponent))
            }
        };
        let answer = Answer {
            refusal: refusal::number(&answer),
            result: float::to_bits(answer.unwrap_or(0.0)),
        };
        println!(rt; "{answer}")?;
    }
    Ok(())
}

fn exponent(rt: HostRuntime) -> io::Result<Option<u32>> {
    let Some(rest) = streams::read_line::<_, REST>(&mut rt.stdin())? else {
        return Ok(None);
    };
    let exponent = hexadecimal::number(&rest[0..8]) % 0x1_0000_0000;
    Ok(Some(exponent as u32))
}
