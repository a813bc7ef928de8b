// Reads and writes of the programs, over std's readers and writers: whole lines and chunks. What a
// signal interrupts is tried again.
#![tactic(auto)]

ghost use Rattle.std.specs.Prelude.{◌≡◌, ◌≢◌, ◌-◌, ◌^◌, IfErr};
ghost use Rattle.std.specs.IoError.{error_kind};
ghost use Rattle.std.specs.declared.io.ErrorKind.{ErrorKind};
ghost use Rattle.std.specs.Iterator.{at_most};
ghost use Rattle.streams.specs.Streams.{Reads, Fills, ReadsLine, YieldsLine, Writes, WritesAll, Tried};

use std::io::{self, ErrorKind, Read, Write};

// The lines of an input, of N bytes each. Where it ends within a line there is no other.
#[derive(Drop)]
pub struct Lines<R, const N: usize> {
    input: R,
    // Nothing says that an input ends, so its lines are counted.
    left: u64,
}

impl<R, const N: usize> Lines<R, N> {
    pub fn new(input: R) -> Lines<R, N>
        ensures { result ≡ record { input = input; left = 2 ^ 64 - 1 } }
    {
        Lines {
            input,
            left: u64::MAX,
        }
    }
}

impl<R: Read + Drop, const N: usize> Iterator for Lines<R, N> {
    type Item = io::Result<[u8; N]>;

    ghost next_gives = { λ s line t. YieldsLine N s.left line (R.remaining s.input) (R.remaining t.input) };

    ghost remaining = { λ s. at_most s.left };

    fn next(&mut self) -> Option<io::Result<[u8; N]>> {
        if self.left == 0 {
            return None;
        }
        self.left -= 1;
        read_line(&mut self.input).transpose()
    }

    fn size_hint(&self) -> (usize, Option<usize>) {
        (0, None)
    }
}

// A line of N bytes: None where the input ends before.
pub fn read_line<R: Read, const N: usize>(input: &mut R) -> io::Result<Option<[u8; N]>>
    ensures bytes { ReadsLine N result (R.remaining input.old) (R.remaining input.new) }
    ensures retried { IfErr result (λ e. error_kind e ≢ ErrorKind.Interrupted) }
{
    let mut line = [0u8; N];
    if fill(input, &mut line)? {
        return Ok(Some(line));
    }
    Ok(None)
}

// Fills the line from the input. Answers whether the input did not end before.
pub fn fill<R: Read>(input: &mut R, line: &mut [u8]) -> io::Result<bool>
    ensures bytes { Fills result (R.remaining input.old) (R.remaining input.new) line.new }
    ensures retried { IfErr result (λ e. error_kind e ≢ ErrorKind.Interrupted) }
{
    let mut filled = 0;
    while filled < line.len() {
        let n = read_chunk(input, &mut line[filled..])?;
        if n == 0 {
            return Ok(false);
        }
        filled += n;
    }
    Ok(true)
}

// One read into the chunk. Answers how many bytes it put at the start of it: 0 at the end of the
// input.
pub fn read_chunk<R: Read>(input: &mut R, chunk: &mut [u8]) -> io::Result<usize>
    ensures bytes { Reads result (R.remaining input.old) (R.remaining input.new) chunk.new }
    ensures retried { IfErr result (λ e. error_kind e ≢ ErrorKind.Interrupted) }
{
    retried(&mut || input.read(chunk))
}

// Writes all of the bytes. One that fails, or takes nothing, leaves those before it written.
pub fn write_all<W: Write>(out: &mut W, bytes: &[u8]) -> io::Result<()>
    ensures bytes { WritesAll result (W.contents out.old) (W.contents out.new) bytes.now }
    ensures retried { IfErr result (λ e. error_kind e ≢ ErrorKind.Interrupted) }
{
    let mut rest = bytes;
    while !rest.is_empty() {
        let n = write_chunk(out, rest)?;
        if n == 0 {
            return Err(io::Error::from(ErrorKind::WriteZero));
        }
        rest = &rest[n..];
    }
    Ok(())
}

// One write. Answers how many of the bytes, from the first on, it took.
fn write_chunk<W: Write>(out: &mut W, bytes: &[u8]) -> io::Result<usize>
    ensures bytes { Writes result (W.contents out.old) (W.contents out.new) bytes.now }
    ensures retried { IfErr result (λ e. error_kind e ≢ ErrorKind.Interrupted) }
{
    retried(&mut || out.write(bytes))
}

// What the first try answers that no signal interrupts.
fn retried<F: FnMut() -> io::Result<usize>>(attempt: &mut F) -> io::Result<usize>
    requires { F.IsAlwaysCallable attempt.old }
    ensures tries { Tried F.step attempt.old result attempt.new }
    ensures retried { IfErr result (λ e. error_kind e ≢ ErrorKind.Interrupted) }
{
    // Nothing says that the signals end, so the tries are counted.
    for _ in 0..u64::MAX {
        match attempt() {
            Err(e) if e.kind() == ErrorKind::Interrupted => {}
            answer => return answer,
        }
    }
    Err(io::Error::from(ErrorKind::TimedOut))
}
