// Makes a call list: lines of words on standard input, call lines on standard output. What words say, and
// why they say nothing, is `call_words`'s, the lines are `call_line`'s, the reads and the turns are `turns`';
// here are the lines' numbers and the writes. A wrong line is told on standard error, with its number, and
// makes no call line.
#![tactic(auto)]

ghost use Rattle.std.specs.Prelude.{◌≡◌, ⊤, Ok};
ghost use Rattle.streams.specs.Streams.{WritesAll};
ghost use Rattle.call_line.specs.Write.{line_text, check};

use arrayvec::ArrayVec;
use call_line::Call;
use std::fmt;
use std::io::{self, Write};
use turns::{Program, Stop};

// The bytes of a line of words
const LONGEST: usize = 256;

// Those that are kept: one more, so that a longer line is told.
const KEPT: usize = LONGEST + 1;

// The line so far, its number, and where wrong lines are told.
#[derive(Drop)]
struct Making {
    line: ArrayVec<u8, KEPT>,
    number: u64,
    rt: HostRuntime,
}

fn main(rt: HostRuntime) {
    let mut making = Making {
        line: ArrayVec::new(),
        number: 1,
        rt,
    };
    match turns::run(&mut making, &mut rt.stdin(), &mut rt.stdout()) {
        Ok(()) | Err(Stop::Turns) => {}
        Err(Stop::Input(_)) => complain(&rt, "the input cannot be read"),
        Err(Stop::Output(_)) => complain(&rt, "the list cannot be written"),
    }
}

// What it makes is not said here.
impl Program for Making {
    ghost reached = { λ _ _ _ _. ⊤ };

    ghost failed = { λ _ _ _. ⊤ };

    ghost whole = { λ _ _ _. ⊤ };

    ghost parted = { λ _ _ _. ⊤ };

    fn feed<W: Write>(&mut self, chunk: &[u8], out: &mut W) -> io::Result<()> {
        for &byte in chunk {
            if byte == b'\n' {
                self.make_line(out)?;
                self.line.clear();
                // No input has so many lines that it stays.
                self.number = self.number.saturating_add(1);
            } else {
                // A byte that finds no room is not kept.
                let _ = self.line.try_push(byte);
            }
        }
        Ok(())
    }

    // A last line may lack its newline.
    fn finish<W: Write>(&mut self, out: &mut W) -> io::Result<()> {
        if self.line.is_empty() {
            return Ok(());
        }
        self.make_line(out)
    }
}

impl Making {
    fn make_line<W: Write>(&self, out: &mut W) -> io::Result<()> {
        let number = self.number;
        if self.line.len() > LONGEST {
            let message = "the line is too long: at most 256 bytes";
            complain(&self.rt, AtLine { number, message });
            return Ok(());
        }
        match call_words::read_words(self.line.as_slice()) {
            Ok(Some(call)) => write_call(call, out),
            Ok(None) => Ok(()),
            Err(message) => {
                complain(&self.rt, AtLine { number, message });
                Ok(())
            }
        }
    }
}

// Words say no call that is refused.
fn write_call<W: Write>(call: Call, out: &mut W) -> io::Result<()>
    requires { check call ≡ Ok tt }
    ensures { WritesAll result (W.contents out.old) (W.contents out.new) (line_text call) }
{
    let text = call_line::line(call).unwrap();
    streams::write_all(out, &text)
}

// What stands at a line of the input.
#[derive(Drop)]
struct AtLine<M> {
    number: u64,
    message: M,
}

impl<M: fmt::Display> fmt::Display for AtLine<M> {
    fn fmt<W: fmt::Write>(&self, f: &mut fmt::Formatter<W>) -> fmt::Result {
        let AtLine { number, message } = self;
        write!(f, "line {number}: {message}")
    }
}

// A run goes on where standard error takes no message.
fn complain(rt: &impl Eprint, message: impl fmt::Display + Drop) {
    let _ = eprintln!(rt; "make_list: {message}");
}
