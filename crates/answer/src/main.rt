// Answers a call list: standard input to standard output, chunk by chunk. What is answered is
// `call_list`'s, the reads and the turns are `turns`'; here are the buffer and the writes.
#![tactic(auto)]

ghost use Rattle.std.specs.Prelude.{◌≡◌, length};
ghost use Rattle.std.specs.declared.option.Option.{Option};
ghost use Rattle.turns.specs.Texts.{Reaches, Begun, Whole, Parted};
ghost use Rattle.call_list.specs.Whole.{answers};
ghost use Rattle.answer.specs.Turn.{Run, Answers};

use call_list::{ROW, State};
use std::io::{self, ErrorKind, Read, Write};
use turns::{CHUNK, Program, Stop};

// Room for the answers to as many lines as a chunk has bytes
const ROOM: usize = CHUNK * ROW;

// What is kept from chunk to chunk, and the buffer that a chunk's answers are laid into. In a run no
// line counts more bytes than are kept and the buffer has the room, so that each call is taken.
#[derive(Drop)]
struct Answering {
    state: State,
    room: [u8; ROOM],
}

impl Program for Answering {
    ghost reached = { Reaches answers Run };

    ghost failed = { Begun answers Run };

    ghost whole = { Whole answers };

    ghost parted = { Parted answers Run };

    fn feed<W: Write>(&mut self, chunk: &[u8], out: &mut W) -> io::Result<()> {
        if chunk.len() > CHUNK {
            return Err(io::Error::from(ErrorKind::InvalidInput));
        }
        let written = self.state.feed(chunk, &mut self.room).unwrap_or(0);
        let answers = &self.room[..written];
        streams::write_all(out, answers)
    }

    fn finish<W: Write>(&mut self, out: &mut W) -> io::Result<()> {
        let written = self.state.finish(&mut self.room).unwrap_or(0);
        let answers = &self.room[..written];
        streams::write_all(out, answers)
    }
}

fn main(rt: HostRuntime) {
    let _ = match answer_all(&mut rt.stdin(), &mut rt.stdout()) {
        Ok(()) | Err(Stop::Turns) => Ok(()),
        Err(Stop::Input(_)) => eprintln!(rt; "answer: the input cannot be read"),
        Err(Stop::Output(_)) => eprintln!(rt; "answer: the answers cannot be written"),
    };
}

fn answer_all<R: Read, W: Write>(input: &mut R, out: &mut W) -> Result<(), Stop>
    ensures { Answers result (R.remaining input.old) (R.remaining input.new) (W.contents out.old) (W.contents out.new) }
{
    let mut answering = Answering {
        state: State::new(),
        room: zeros(),
    };
    turns::run(&mut answering, input, out)
}

// It promises its length alone, so that no proof computes with so many bytes.
fn zeros<const N: usize>() -> [u8; N]
    ensures { length result ≡ N }
{
    [0; N]
}
