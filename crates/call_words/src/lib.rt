// A call list by words: what a line of it says.
#![tactic(auto)]

ghost use Rattle.std.specs.Prelude.{◌≡◌, ℕ, ◌≤◌, Bool, [], ◌∷◌, length, map, MatchOption, ok_or};
ghost use Rattle.std.specs.Iterator.{at_most};
ghost use Rattle.call_words.specs.Words as W;
ghost use Rattle.call_words.specs.Steps.{bounded_nanos};
ghost use Rattle.call_words.specs.declared.Why.{Why};

use call_line::Call;
use packets::PacketSize;
use std::fmt;

// The largest whole rate, 10^15 bit/s: each up to 2^53 is a float.
const MOST_RATE: u64 = 1_000_000_000_000_000;

// The most whole seconds: with 999,999,999 ns more they are a u64.
const MOST_SECONDS: u64 = 4_000_000_000;

const NANOS: u64 = 1_000_000_000;

// The digits after a point: one for each power of ten down to a ns
const MOST_PLACES: usize = 9;

// What is wrong with a line: the first of these, and of the values the first from the left. The
// outcome is neither `lost` nor `arrived`, the measure neither `bytes` nor `packets`.
#[derive(Clone, Copy)]
pub enum Why {
    UnknownCall,
    WordCount,
    Rate,
    Time,
    Size,
    Outcome,
    Measure,
}

impl fmt::Display for Why {
    fn fmt<W: fmt::Write>(&self, f: &mut fmt::Formatter<W>) -> fmt::Result {
        f.write_str(match self {
            Why::UnknownCall => {
                "there is no such call: estimate, acknowledged, alr, capacity, packet, report, read or start"
            }
            Why::WordCount => {
                "the wrong number of words: a rate follows, or SECONDS (alr), or SECONDS BYTES lost or arrived (packet), or bytes or packets (start), or nothing (read)"
            }
            Why::Rate => {
                "a wrong rate: whole bit/s, at most 1000000000000000, without leading zeros, or inf; a capacity may be none"
            }
            Why::Time => {
                "a wrong time: seconds, at most 4000000000, without leading zeros, whole or with one to nine digits after a point; alr may be off"
            }
            Why::Size => "a wrong size: whole bytes, at most 9999999, without leading zeros",
            Why::Outcome => {
                "a packet that is neither lost nor arrived: its last word is one of the two"
            }
            Why::Measure => "a start by neither bytes nor packets: its last word is one of the two",
        })
    }
}

// The calls with one value
#[derive(Clone, Copy)]
enum Valued {
    Estimate,
    Acknowledged,
    Alr,
    Capacity,
    Report,
    Start,
}

#[derive(Clone, Copy)]
enum Name {
    WithValue(Valued),
    Packet,
    Read,
}

const NAMES: [(&[u8], Name); 8] = [
    (b"estimate", Name::WithValue(Valued::Estimate)),
    (b"acknowledged", Name::WithValue(Valued::Acknowledged)),
    (b"alr", Name::WithValue(Valued::Alr)),
    (b"capacity", Name::WithValue(Valued::Capacity)),
    (b"packet", Name::Packet),
    (b"report", Name::WithValue(Valued::Report)),
    (b"read", Name::Read),
    (b"start", Name::WithValue(Valued::Start)),
];

// What the ratio of the controller that is started counts
const MEASURES: [(&[u8], Call); 2] = [
    (b"bytes", Call::StartBytes),
    (b"packets", Call::StartPackets),
];

// Whether the packet is lost
const OUTCOMES: [(&[u8], u8); 2] = [(b"lost", 1), (b"arrived", 0)];

// ---- words

// A space, a tab or a CR
#[tactic(auto, unfolding(crate::specs::Words::is_blank))]
fn is_blank(byte: u8) -> bool
    ensures { result ≡ W.is_blank byte }
{
    matches!(byte, b' ' | b'\t' | b'\r')
}

// The bytes before the first that is so, and those from it on.
fn cut<P: Fn(u8) -> bool>(bytes: &[u8], so: P) -> (&[u8], &[u8])
    requires { P.IsAlwaysCallable so }
    ensures { (p : ℕ → Bool) → W.Answers (P.post so) p → (result.0.now ≡ W.up_to p bytes.now) × (result.1.now ≡ W.on_from p bytes.now) }
{
    let place = bytes
        .iter()
        .position(|byte| so(*byte))
        .unwrap_or(bytes.len());
    bytes.split_at(place)
}

// The words of a line that are still to come
#[derive(Drop)]
struct Words<'a> {
    rest: &'a [u8],
}

impl<'a> Iterator for Words<'a> {
    type Item = &'a [u8];

    ghost next_gives = { λ s word t. MatchOption word (W.words_in s.rest.now ≡ []) (λ w. W.words_in s.rest.now ≡ w.now ∷ W.words_in t.rest.now) };

    ghost remaining = { λ s. at_most (length (W.words_in s.rest.now)) };

    fn next(&mut self) -> Option<&'a [u8]> {
        let (_blanks, line) = cut(self.rest, |byte| !is_blank(byte));
        if line.is_empty() {
            return None;
        }
        let (word, rest) = cut(line, is_blank);
        self.rest = rest;
        Some(word)
    }
}

// What stands beside the word in a table.
fn look_up<T: Copy>(table: &[(&[u8], T)], word: &[u8]) -> Option<T>
    ensures { result ≡ W.look_up (map (λ entry. (entry.0.now, entry.1)) table.now) word.now }
{
    for entry in table {
        if entry.0 == word {
            return Some(entry.1);
        }
    }
    None
}

// ---- values

#[tactic(auto, unfolding(crate::specs::Words::at_most))]
fn at_most(most: u64, number: Option<u64>) -> Option<u64>
    ensures { result ≡ W.at_most most number }
{
    number.filter(|n| *n <= most)
}

// The bits of a rate's float.
#[tactic(auto, unfolding(crate::specs::Words::rate_of, crate::specs::Words::bits_of))]
fn read_rate(word: &[u8]) -> Result<u64, Why>
    ensures { result ≡ ok_or (W.rate_of word.now) Why.Rate }
{
    if word == b"inf".as_slice() {
        return Ok(float::to_bits(f64::INFINITY));
    }
    let rate = at_most(MOST_RATE, call_line::read_number(word)).ok_or(Why::Rate)?;
    Ok(float::to_bits(std::num::nearest_u64_to_f64(rate)))
}

#[tactic(auto, unfolding(crate::specs::Words::size_of))]
fn read_size(word: &[u8]) -> Result<u64, Why>
    ensures { result ≡ ok_or (W.size_of word.now) Why.Size }
{
    at_most(packets::LARGEST_PACKET, call_line::read_number(word)).ok_or(Why::Size)
}

// What one unit in the last of so many places after the point is in ns.
fn unit(places: usize) -> u64
    requires { places ≤ 9 }
    ensures { result ≡ W.unit_of places }
{
    10u64.pow((MOST_PLACES - places) as u32)
}

// The ns of a point and the digits after it, which may begin with zeros.
#[tactic(auto, unfolding(crate::specs::Words::fraction_of, crate::specs::Words::places_of, crate::specs::Words::times))]
fn read_fraction(fraction: &[u8]) -> Option<u64>
    ensures { result ≡ W.fraction_of fraction.now }
{
    let Some((_point, digits)) = fraction.split_first() else {
        return Some(0);
    };
    if digits.is_empty() || digits.len() > MOST_PLACES {
        return None;
    }
    let value = call_line::digits_value(digits)?;
    Some(value * unit(digits.len()))
}

// The ns of a time in seconds.
fn read_seconds(word: &[u8]) -> Option<u64>
    ensures { result ≡ bounded_nanos word.now }
{
    let (seconds, fraction) = cut(word, |byte| byte == b'.');
    let seconds = at_most(MOST_SECONDS, call_line::read_number(seconds))?;
    let nanos = read_fraction(fraction)?;
    Some(seconds * NANOS + nanos)
}

// The ns of a time that a call may have.
#[tactic(auto, using(crate::proofs::Numbers::bounded))]
fn read_time(word: &[u8]) -> Result<u64, Why>
    ensures { result ≡ ok_or (W.time_of word.now) Why.Time }
{
    at_most(packets::LATEST_TIME, read_seconds(word)).ok_or(Why::Time)
}

// ---- calls

#[tactic(auto, unfolding(crate::specs::Words::with_value, crate::specs::Words::alr_of, crate::specs::Words::capacity_of, crate::specs::Words::start_of, crate::specs::Words::measures, crate::specs::Words::given))]
fn with_value(name: Valued, value: &[u8]) -> Result<Call, Why>
    ensures { result ≡ W.with_value name value.now }
{
    match name {
        Valued::Estimate => Ok(Call::Estimate(read_rate(value)?)),
        Valued::Acknowledged => Ok(Call::Acknowledged(read_rate(value)?)),
        Valued::Alr if value == b"off".as_slice() => Ok(Call::AlrOff),
        Valued::Alr => Ok(Call::AlrOn(read_time(value)?)),
        Valued::Capacity if value == b"none".as_slice() => Ok(Call::CapacityNone),
        Valued::Capacity => Ok(Call::CapacityIs(read_rate(value)?)),
        Valued::Report => Ok(Call::Report(read_rate(value)?)),
        Valued::Start => look_up(&MEASURES, value).ok_or(Why::Measure),
    }
}

#[tactic(auto, using(crate::proofs::Numbers::size_fits), unfolding(crate::specs::Words::packet_of, crate::specs::Words::with_outcome, crate::specs::Words::outcomes))]
fn packet(time: &[u8], size: &[u8], outcome: &[u8]) -> Result<Call, Why>
    ensures { result ≡ W.packet_of time.now size.now outcome.now }
{
    let time = read_time(time)?;
    let size = read_size(size)? as PacketSize;
    let lost = look_up(&OUTCOMES, outcome).ok_or(Why::Outcome)?;
    Ok(Call::Packet { time, lost, size })
}

// The number of words comes before what they say. A word more than a call has is looked for, so that
// too many are seen.
#[tactic(auto, unfolding(crate::specs::Words::call_of))]
fn call_of(name: Name, mut words: Words) -> Result<Call, Why>
    ensures { result ≡ W.call_of name (W.words_in words.entry.rest.now) }
{
    let values = [words.next(), words.next(), words.next(), words.next()];
    match (name, values) {
        (Name::WithValue(name), [Some(value), None, ..]) => with_value(name, value),
        (Name::Packet, [Some(time), Some(size), Some(outcome), None]) => packet(
            time, size, outcome,
        ),
        (Name::Read, [None, ..]) => Ok(Call::Read),
        _ => Err(Why::WordCount),
    }
}

// What a line says, its newline left out: nothing where it has no words, or a comment.
#[tactic(auto, unfolding(crate::specs::Words::words_of, crate::specs::Words::said, crate::specs::Words::is_comment, crate::specs::Words::names))]
pub fn read_words(line: &[u8]) -> Result<Option<Call>, Why>
    ensures { result ≡ W.words_of line.now }
{
    let mut words = Words { rest: line };
    let Some(first) = words.next() else {
        return Ok(None);
    };
    if first.starts_with(b"#") {
        return Ok(None);
    }
    let name = look_up(&NAMES, first).ok_or(Why::UnknownCall)?;
    let call = call_of(name, words)?;
    Ok(Some(call))
}
