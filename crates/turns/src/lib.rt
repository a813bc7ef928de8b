// A program that reads its input chunk by chunk and writes what each leads to: its turns, one read
// and what the program does with it.
#![tactic(auto)]

ghost use Rattle.std.specs.Prelude.{◌≡◌, ℕ, List, []};
ghost use Rattle.std.specs.declared.option.Option.{Option};
ghost use Rattle.turns.specs.Turns.{Feeds, Finishes, Stops};

use std::io::{self, Read, Write};

// The bytes of a read
pub const CHUNK: usize = 16_384;

pub trait Program {
    // The bytes of the input so far lead here, in a run whose output was the first of the two when it
    // began and is the other now.
    ghost reached: { List ℕ → Self → Option (List ℕ) → Option (List ℕ) → Type 0 };

    // The turn of their last chunk failed.
    ghost failed: { List ℕ → Option (List ℕ) → Option (List ℕ) → Type 0 };

    // They are the whole input, and all that comes of it is written.
    ghost whole: { List ℕ → Option (List ℕ) → Option (List ℕ) → Type 0 };

    // They are, and the last write failed.
    ghost parted: { List ℕ → Option (List ℕ) → Option (List ℕ) → Type 0 };

    // A program that has room for a read alone fails where the chunk is longer.
    fn feed<W: Write>(&mut self, chunk: &[u8], out: &mut W) -> io::Result<()>
        ensures { Feeds reached failed result self.old self.new chunk.now (W.contents out.old) (W.contents out.new) };

    // The end of the input.
    fn finish<W: Write>(&mut self, out: &mut W) -> io::Result<()>
        ensures { Finishes reached whole parted result self.old (W.contents out.old) (W.contents out.new) };
}

// Why a run ended before its input.
#[derive(Drop)]
pub enum Stop {
    Input(io::Error),
    Output(io::Error),
    Turns,
}

// A read that failed or came to the end, and a write that failed, are in the last turn.
//
// A proved loop has to end, and nothing says that the input does: the turns are counted, to a number
// that no run uses up.
pub fn run<T: Program, R: Read, W: Write>(
    program: &mut T,
    input: &mut R,
    out: &mut W,
) -> Result<(), Stop>
    ensures { T.reached [] program.old (W.contents out.old) (W.contents out.old)
        → Stops T.reached T.failed T.whole T.parted result program.new (R.remaining input.old)
        (R.remaining input.new) (W.contents out.old) (W.contents out.new) }
{
    let mut chunk = [0; CHUNK];
    for _ in 0..u64::MAX {
        let n = streams::read_chunk(input, &mut chunk).map_err(Stop::Input)?;
        if n == 0 {
            return program.finish(out).map_err(Stop::Output);
        }
        program.feed(&chunk[..n], out).map_err(Stop::Output)?;
    }
    Err(Stop::Turns)
}
