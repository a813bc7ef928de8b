// A call list's lines and columns: what a line says, a call written as a line, and a number written in
// a column.
#![tactic(auto)]

ghost use Rattle.std.specs.Prelude.{◌≡◌, ◌≢◌, ℕ, ◌*◌, ◌/◌, ◌%◌, ◌≤◌, ◌<◌, Ok, length, slice_index};
ghost use Rattle.refusal.specs.Outcome.{and_then};
ghost use Rattle.call_line.specs.Column.{ascii_zero, is_digit, more, digits_of, column_of, column, total};
ghost use Rattle.call_line.specs.Digits.{last_digits};
ghost use Rattle.call_line.specs.Line.{fields_in, fields_of, by_flag, in_table, check_bits, packet_of};
ghost use Rattle.call_line.specs.Line.{call_of, values_of, fields, checked, refused, line_of};
ghost use Rattle.call_line.specs.Write.{line_text, check, write_outcome, written, ReadBack};

use bandwidth::Bitrate;
use packets::{PacketResult, PacketSize};
use refusal::Refusal;

// A line's columns: kind, A, B and C.
const COLUMNS: usize = 4;

const WIDE: [usize; COLUMNS] = [2, 20, 20, 8];

pub const LINE_WIDTH: usize = WIDE[0] + WIDE[1] + WIDE[2] + WIDE[3];

// Those of a line as it was before frames were bundled, which is still read.
const NARROW: [usize; COLUMNS] = [2, 20, 20, 6];

pub const NARROW_WIDTH: usize = NARROW[0] + NARROW[1] + NARROW[2] + NARROW[3];

// The digits of u64::MAX
const MOST_DIGITS: usize = 20;

#[derive(Clone, Copy)]
struct Fields {
    kind: u64,
    a: u64,
    b: u64,
    c: u64,
}

impl From<[u64; COLUMNS]> for Fields {
    ghost from_gives = { λ values all. all ≡ fields values };

    fn from(values: [u64; COLUMNS]) -> Fields {
        let [kind, a, b, c] = values;
        Fields { kind, a, b, c }
    }
}

// Rates are the 64 bits of an f64, times are in ns, `lost` is 1 or 0. The last two start anew, with
// loss counted in bytes or in packets.
#[derive(Clone, Copy)]
pub enum Call {
    Estimate(u64),
    Acknowledged(u64),
    AlrOn(u64),
    AlrOff,
    CapacityIs(u64),
    CapacityNone,
    Packet {
        time: u64,
        lost: u8,
        size: PacketSize,
    },
    Report(u64),
    Read,
    StartBytes,
    StartPackets,
}

// Why a line is refused. A report that is in shape empties the queue all the same.
#[derive(Clone, Copy)]
pub enum LineRefusal {
    Report(Refusal),
    Other(Refusal),
}

#[tactic(auto, unfolding(crate::specs::Column::is_digit))]
pub fn is_digit(byte: u8) -> bool
    ensures { result ≡ is_digit byte }
{
    byte.is_ascii_digit()
}

// The number in digits that may begin with zeros. None with a byte that is no digit, and above 2^64 - 1.
#[tactic(auto, using(crate::proofs::Reading::digit_bounds, crate::proofs::Reading::stop_ahead, crate::proofs::Reading::more_end, crate::proofs::Reading::more_stop, crate::proofs::Reading::more_over, crate::proofs::Reading::more_on))]
pub fn digits_value(digits: &[u8]) -> Option<u64>
    ensures { result ≡ more 0 digits.now }
{
    // Nineteen digits fit a u64.
    let (first, rest) = digits.split_at(digits.len().min(MOST_DIGITS - 1));
    let mut value: u64 = 0;
    for byte in first {
        if !is_digit(*byte) {
            return None;
        }
        value = value * 10 + u64::from(*byte - b'0');
    }
    for byte in rest {
        if !is_digit(*byte) {
            return None;
        }
        value = value.checked_mul(10)?.checked_add(u64::from(*byte - b'0'))?;
    }
    Some(value)
}

// The number in a column's digits. None without digits, with a zero before others, with a byte that
// is no digit, and above 2^64 - 1.
#[tactic(auto, using(crate::proofs::Reading::no_digits, crate::proofs::Reading::leading_zero, crate::proofs::Reading::one_digit, crate::proofs::Reading::no_leading_zero))]
pub fn read_number(digits: &[u8]) -> Option<u64>
    ensures { result ≡ digits_of digits.now }
{
    match digits {
        [] | [b'0', _, ..] => None,
        _ => digits_value(digits),
    }
}

// What a column says: spaces, and then digits to its end.
#[tactic(auto, using(crate::proofs::Columns::blank))]
fn read_column(column: &[u8]) -> Option<u64>
    ensures { result ≡ column_of column.now }
{
    let spaces = column.iter().position(|byte| *byte != b' ')?;
    read_number(&column[spaces..])
}

// The first wrong column ends the reading.
#[tactic(auto, using(crate::proofs::Columns::columns_cut), unfolding(crate::specs::Line::four))]
fn read_columns(line: &[u8], widths: [usize; COLUMNS]) -> Option<Fields>
    requires { length line.now ≡ total widths }
    ensures { result ≡ fields_in widths line.now }
{
    let [kind, a, b, _] = widths;
    let (kind, line) = line.split_at(kind);
    let (a, line) = line.split_at(a);
    let (b, c) = line.split_at(b);
    Some(Fields {
        kind: read_column(kind)?,
        a: read_column(a)?,
        b: read_column(b)?,
        c: read_column(c)?,
    })
}

// A line's length tells its columns.
#[tactic(auto, using(crate::proofs::Columns::other_width), unfolding(crate::specs::Line::fields_of))]
fn read_fields(line: &[u8]) -> Option<Fields>
    ensures { result ≡ fields_of line.now }
{
    match line.len() {
        LINE_WIDTH => read_columns(line, WIDE),
        NARROW_WIDTH => read_columns(line, NARROW),
        _ => None,
    }
}

fn check_bits(bits: u64) -> Result<(), Refusal>
    ensures { result ≡ check_bits bits }
{
    loss_controller::check_rate(Bitrate::from_bits(bits))
}

// What a flag picks; one that is neither 0 nor 1 is refused.
#[tactic(auto, unfolding(crate::specs::Line::by_flag))]
fn by_flag(
    flag: u64,
    off: Result<Call, Refusal>,
    on: Result<Call, Refusal>,
) -> Result<Call, Refusal>
    ensures { result ≡ by_flag flag off on }
{
    match flag {
        0 => off,
        1 => on,
        _ => Err(Refusal::Flag),
    }
}

impl Fields {
    // Whether the table of kinds allows them.
    #[tactic(auto, using(crate::proofs::Table::rule_rest), unfolding(crate::specs::Line::in_table))]
    fn in_table(self) -> bool
        ensures { result ≡ in_table self.kind self.a self.b self.c }
    {
        let Fields { kind, a, b, c } = self;
        match kind {
            1 | 2 | 6 => b == 0 && c == 0,
            // A is 0 where the flag B is.
            3 | 4 => c == 0 && (b != 0 || a == 0),
            5 => true,
            7 => a == 0 && b == 0 && c == 0,
            8 => a == 0 && c == 0,
            _ => false,
        }
    }

    // The checks are a report's of each packet.
    #[tactic(auto, unfolding(crate::specs::Line::packet_of, crate::specs::Line::unless_refused, packets::specs::Summary::check_packet))]
    fn packet(self) -> Result<Call, Refusal>
        ensures { result ≡ packet_of self.a self.b self.c }
    {
        // what the narrower widths don't hold is refused as their largest
        let packet = PacketResult {
            local_send_time: self.a,
            size: PacketSize::try_from(self.c).unwrap_or(PacketSize::MAX),
            lost: u8::try_from(self.b).unwrap_or(u8::MAX),
        };
        packet.check()?;
        Ok(Call::Packet {
            time: packet.local_send_time,
            lost: packet.lost,
            size: packet.size,
        })
    }

    // The call, where the table allows them.
    #[tactic(auto, using(crate::proofs::Table::call_rest, crate::proofs::Table::and_is), unfolding(crate::specs::Line::call_of, crate::specs::Line::unless_refused, crate::specs::Line::alr_of, crate::specs::Line::capacity_of, crate::specs::Line::start_of))]
    fn call(self) -> Result<Call, Refusal>
        ensures { result ≡ call_of self.kind self.a self.b self.c }
    {
        let Fields { kind, a, b, .. } = self;
        match kind {
            1 => check_bits(a).and(Ok(Call::Estimate(a))),
            2 => check_bits(a).and(Ok(Call::Acknowledged(a))),
            3 => {
                let on = packets::check_time(a).and(Ok(Call::AlrOn(a)));
                by_flag(b, Ok(Call::AlrOff), on)
            }
            4 => {
                let on = check_bits(a).and(Ok(Call::CapacityIs(a)));
                by_flag(b, Ok(Call::CapacityNone), on)
            }
            5 => self.packet(),
            6 => check_bits(a).and(Ok(Call::Report(a))),
            7 => Ok(Call::Read),
            8 => by_flag(b, Ok(Call::StartBytes), Ok(Call::StartPackets)),
            _ => Err(Refusal::NotInShape),
        }
    }

    #[tactic(auto, unfolding(crate::specs::Line::checked))]
    fn checked(self) -> Result<Call, Refusal>
        ensures { result ≡ checked self }
    {
        if !self.in_table() {
            return Err(Refusal::NotInShape);
        }
        self.call()
    }

    #[tactic(auto, unfolding(crate::specs::Line::refused))]
    fn refused(self, refusal: Refusal) -> LineRefusal
        ensures { result ≡ refused self.kind refusal }
    {
        if self.kind == 6 && refusal != Refusal::NotInShape {
            return LineRefusal::Report(refusal);
        }
        LineRefusal::Other(refusal)
    }
}

// What a line says, its newline left out.
#[tactic(auto, unfolding(crate::specs::Line::line_of, crate::specs::Line::said))]
pub fn read_line(line: &[u8]) -> Result<Call, LineRefusal>
    ensures { result ≡ line_of line.now }
{
    let fields = read_fields(line).ok_or(LineRefusal::Other(Refusal::NotInShape))?;
    fields.checked().map_err(|refusal| fields.refused(refusal))
}

// The powers of ten that a u64 holds, the largest first
const POWERS: [u64; MOST_DIGITS] = [
    10_000_000_000_000_000_000,
    1_000_000_000_000_000_000,
    100_000_000_000_000_000,
    10_000_000_000_000_000,
    1_000_000_000_000_000,
    100_000_000_000_000,
    10_000_000_000_000,
    1_000_000_000_000,
    100_000_000_000,
    10_000_000_000,
    1_000_000_000,
    100_000_000,
    10_000_000,
    1_000_000,
    100_000,
    10_000,
    1_000,
    100,
    10,
    1,
];

// How often a power was subtracted, and what is left.
#[derive(Clone, Copy)]
struct Subtracted {
    value: u8,
    rest: u64,
}

fn digit(rest: u64, power: u64) -> Subtracted
    requires { (0 < power) × (rest < 10 * power) }
    ensures { (result.value ≡ rest / power) × (result.rest ≡ rest % power) × (result.value ≤ 9) }
{
    let mut value = 0;
    let mut rest = rest;
    while rest >= power {
        rest -= power;
        value += 1;
    }
    Subtracted { value, rest }
}

// The last twenty digits of n, which has no more. All twenty whatever the column: the loop then has a
// fixed length and each power is a constant to the compiler, which makes one multiplication of the
// subtractions of each.
fn digits(n: u64) -> [u8; MOST_DIGITS]
    ensures { result ≡ last_digits 20 n }
{
    // A copy, since the array of a constant is built anew wherever it is named.
    let powers = POWERS;
    let mut digits = [b'0'; MOST_DIGITS];
    let mut rest = n;
    for k in 0..MOST_DIGITS {
        let taken = digit(rest, powers[k]);
        rest = taken.rest;
        digits[k] = b'0' + taken.value;
    }
    digits
}

fn leading_zeros(digits: &[u8]) -> usize
    ensures within { result ≤ length digits.now }
    ensures zeros { (k : ℕ) → k < result → slice_index digits.now k ≡ ascii_zero }
    ensures digit { result < length digits.now → slice_index digits.now result ≢ ascii_zero }
{
    digits
        .iter()
        .position(|digit| *digit != b'0')
        .unwrap_or(digits.len())
}

// Fills the column with n, which is below ten.
#[tactic(auto, using(crate::proofs::Writing::digit_column, crate::proofs::Writing::no_column))]
fn write_digit(out: &mut [u8], n: u64)
    requires { n < 10 }
    ensures { out.new ≡ column (length out.old) n }
{
    if let Some((last, spaces)) = out.split_last_mut() {
        spaces.fill(b' ');
        *last = b'0' + n as u8;
    }
}

// Fills the column with n, right-justified with spaces. Of a number with more digits than the column
// has places, the last are written.
pub fn write_number(out: &mut [u8], n: u64)
    ensures { out.new ≡ column (length out.old) n }
{
    // Most of an answer's columns: no power is asked.
    if n < 10 {
        write_digit(out, n);
        return;
    }
    let digits = digits(n);
    // A digit that finds no room counts too: 105 in two places is 05.
    let count = MOST_DIGITS - leading_zeros(&digits);
    let (spaces, places) = out.split_at_mut(out.len().saturating_sub(count));
    spaces.fill(b' ');
    places.copy_from_slice(&digits[MOST_DIGITS - places.len()..]);
}

// The fields of a call's line: kind, A, B and C.
impl From<Call> for [u64; COLUMNS] {
    ghost from_gives = { λ call all. all ≡ values_of call };

    #[tactic(auto, unfolding(crate::specs::Line::values_of))]
    fn from(call: Call) -> [u64; COLUMNS] {
        match call {
            Call::Estimate(bandwidth) => [1, bandwidth, 0, 0],
            Call::Acknowledged(bitrate) => [2, bitrate, 0, 0],
            Call::AlrOn(start) => [3, start, 1, 0],
            Call::AlrOff => [3, 0, 0, 0],
            Call::CapacityIs(bandwidth) => [4, bandwidth, 1, 0],
            Call::CapacityNone => [4, 0, 0, 0],
            Call::Packet { time, lost, size } => [5, time, lost as u64, size as u64],
            Call::Report(delay) => [6, delay, 0, 0],
            Call::Read => [7, 0, 0, 0],
            Call::StartBytes => [8, 0, 0, 0],
            Call::StartPackets => [8, 0, 1, 0],
        }
    }
}

// Writes the call's line, with its newline, at the start of out. Where it is refused nothing is
// written: the reader's checks come first, and then the room.
pub fn write_line(call: Call, out: &mut [u8]) -> Result<(), Refusal>
    ensures value { (result ≡ write_outcome call (length out.old)) × (out.new ≡ written call out.old) }
    ensures read_back { ReadBack call result out.new }
{
    let values = <[u64; COLUMNS]>::from(call);
    Fields::from(values).checked()?;
    if out.len() <= LINE_WIDTH {
        return Err(Refusal::NoRoom);
    }
    let mut from = 0;
    for (width, value) in WIDE.iter().zip(&values) {
        let to = from + *width;
        write_number(&mut out[from..to], *value);
        from = to;
    }
    out[from] = b'\n';
    Ok(())
}

// The call's line, with its newline. Refused by the reader's checks alone: there is room.
pub fn line(call: Call) -> Result<[u8; LINE_WIDTH + 1], Refusal>
    ensures { result ≡ and_then (check call) (λ _. Ok (line_text call)) }
{
    let mut text = [0; LINE_WIDTH + 1];
    write_line(call, &mut text)?;
    Ok(text)
}
