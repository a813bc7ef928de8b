// Writes a call list anew: standard input to standard output, chunk by chunk. A line that is taken
// comes back as `call_line` writes its call, one that is refused as the number of its refusal.
#![tactic(auto)]

ghost use Rattle.std.specs.Prelude.{◌+◌, ◌≤◌, ◌≡◌, [], ◌++◌, Ok, length};
ghost use Rattle.std.specs.declared.option.Option.{Option};
ghost use Rattle.arrayvec.specs.ArrayVec.{array_vec_len};
ghost use Rattle.call_line.specs.Write.{line_bytes};
ghost use Rattle.turns.specs.Texts.{Reaches, Begun, Whole, Parted};
ghost use Rattle.rewrite.specs.Rewrite.{refusal_text, text_for, rewritten_from, rewritten, Rewrites};
ghost use Rattle.rewrite.specs.Program.{Run, Rewritten};

use arrayvec::ArrayVec;
use call_line::LineRefusal;
use call_list::{KEPT, REFUSAL_WIDTH};
use refusal::Refusal;
use std::io::{self, ErrorKind, Read, Write};
use turns::{CHUNK, Program, Stop};

// The most that a line is answered: a line in shape and its newline
const TEXT: usize = call_line::LINE_WIDTH + 1;

// Room for the answers to a chunk, each byte of which ends at most one line
const ROOM: usize = CHUNK * TEXT;

type Line = ArrayVec<u8, KEPT>;

type Texts = ArrayVec<u8, ROOM>;

// The bytes of the line so far that are kept, and the answers to a chunk.
#[derive(Drop)]
struct Rewriting {
    line: Line,
    texts: Texts,
}

fn main(rt: HostRuntime) {
    let _ = match rewrite_all(&mut rt.stdin(), &mut rt.stdout()) {
        Ok(()) | Err(Stop::Turns) => Ok(()),
        Err(Stop::Input(_)) => eprintln!(rt; "rewrite: the input cannot be read"),
        Err(Stop::Output(_)) => eprintln!(rt; "rewrite: the lines cannot be written"),
    };
}

fn rewrite_all<R: Read, W: Write>(input: &mut R, out: &mut W) -> Result<(), Stop>
    ensures { Rewritten result (R.remaining input.old) (R.remaining input.new) (W.contents out.old) (W.contents out.new) }
{
    let mut rewriting = Rewriting {
        line: ArrayVec::new(),
        texts: ArrayVec::new(),
    };
    turns::run(&mut rewriting, input, out)
}

// ---- one line

#[tactic(auto, unfolding(crate::specs::Rewrite::refusal_text))]
fn refusal_text(refusal: Refusal) -> [u8; REFUSAL_WIDTH + 1]
    ensures { result ≡ refusal_text refusal }
{
    let mut text = [b'\n'; REFUSAL_WIDTH + 1];
    call_line::write_number(&mut text[..REFUSAL_WIDTH], u8::from(refusal) as u64);
    text
}

// The answer to a line, which comes without its newline.
fn put_line(line: &[u8], texts: &mut Texts)
    requires { array_vec_len texts.old + line_bytes ≤ 835584 }
    ensures { texts.new.items ≡ texts.old.items ++ text_for line.now }
{
    match call_line::read_line(line) {
        Ok(call) => {
            let text = call_line::line(call).unwrap();
            texts.try_extend_from_slice(&text).unwrap()
        }
        Err(LineRefusal::Report(refusal) | LineRefusal::Other(refusal)) => {
            texts.try_extend_from_slice(&refusal_text(refusal)).unwrap()
        }
    }
}

// ---- chunks

impl Rewriting {
    // The answers to the lines that end in the chunk.
    fn rewrite(&mut self, chunk: &[u8])
        requires { length chunk.now ≤ 16384 }
        ensures { Rewrites self.old.line.items chunk.now self.new.texts.items self.new.line.items }
    {
        self.texts.clear();
        for &byte in chunk {
            if byte == b'\n' {
                put_line(self.line.as_slice(), &mut self.texts);
                self.line.clear();
            } else {
                // A byte that finds no room is not kept.
                let _ = self.line.try_push(byte);
            }
        }
    }

    // The end of the input: a last line that lacks its newline is answered.
    fn rewrite_last(&mut self)
        ensures { self.new.texts.items ≡ rewritten_from self.old.line.items [] }
    {
        self.texts.clear();
        if !self.line.is_empty() {
            put_line(self.line.as_slice(), &mut self.texts);
        }
    }
}

impl Program for Rewriting {
    ghost reached = { Reaches rewritten Run };

    ghost failed = { Begun rewritten Run };

    ghost whole = { Whole rewritten };

    ghost parted = { Parted rewritten Run };

    fn feed<W: Write>(&mut self, chunk: &[u8], out: &mut W) -> io::Result<()> {
        if chunk.len() > CHUNK {
            return Err(io::Error::from(ErrorKind::InvalidInput));
        }
        self.rewrite(chunk);
        streams::write_all(out, self.texts.as_slice())
    }

    fn finish<W: Write>(&mut self, out: &mut W) -> io::Result<()> {
        self.rewrite_last();
        streams::write_all(out, self.texts.as_slice())
    }
}
