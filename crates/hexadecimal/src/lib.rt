// Numbers in hexadecimal, as the replay programs read and print them.
#![tactic(auto)]

ghost use Rattle.std.specs.Prelude.{◌≡◌, ◌<◌, Some};
ghost use Rattle.hexadecimal.specs.Digits.{digit_of, with_digit, value, line_of};

use std::fmt;

// What a call is answered by: the refusal's number, which is 0 for none, and the result's bits
#[derive(Clone, Copy)]
pub struct Answer {
    pub refusal: u8,
    pub result: u64,
}

impl fmt::Display for Answer {
    ghost output = { λ answer. Some (line_of answer) };

    fn fmt<W: fmt::Write>(&self, f: &mut fmt::Formatter<W>) -> fmt::Result {
        let Answer { refusal, result } = *self;
        write!(f, "{refusal:x} {result:016x}")
    }
}

// The last sixteen digits of a text, as a number. A byte that is no digit counts as 0.
pub fn number(text: &[u8]) -> u64
    ensures { result ≡ value text.now }
{
    text.iter().fold(0, |n, byte| with_digit(n, *byte))
}

fn with_digit(n: u64, byte: u8) -> u64
    ensures { result ≡ with_digit n byte }
{
    n % 0x1000_0000_0000_0000 * 16 + digit(byte)
}

fn digit(byte: u8) -> u64
    ensures value { result ≡ digit_of byte }
    ensures upper_bound { result < 16 }
{
    match byte {
        b'0'..=b'9' => u64::from(byte - b'0'),
        b'a'..=b'f' => u64::from(byte - b'a') + 10,
        _ => 0,
    }
}
