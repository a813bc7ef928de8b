// The operations of the arithmetic, by their numbers.
use crate::results::{part, refusable, refusable_part, taken};
use bandwidth::{Bitrate, DataSize};
use duration::Duration;
use hexadecimal::Answer;
use stored_fields::Pair;
use time::{TimeDelta, Timestamp};

// The bytes of a line: two digits and three times sixteen, a space or the newline behind each
pub(crate) const LINE: usize = 54;

// What a line says: an operation by its number, and its operands.
#[derive(Clone, Copy)]
pub(crate) struct Call {
    operation: u64,
    a: u64,
    b: u64,
    c: u64,
}

impl From<[u8; LINE]> for Call {
    fn from(line: [u8; LINE]) -> Call {
        Call {
            operation: hexadecimal::number(&line[0..2]),
            a: hexadecimal::number(&line[3..19]),
            b: hexadecimal::number(&line[20..36]),
            c: hexadecimal::number(&line[37..53]),
        }
    }
}

impl Call {
    pub(crate) fn answer(self) -> Answer {
        match self.operation {
            0x00..=0x0F => float_answer(self),
            0x10..=0x3F => rate_answer(self),
            0x40..=0x5F => size_answer(self),
            0x60..=0x7F => time_answer(self),
            _ => delta_answer(self),
        }
    }

    // Two times: c has the case of each, a and b their ns.
    fn pairs(self) -> (Pair, Pair) {
        let first = Pair {
            case: self.c % 16,
            value: self.a,
        };
        let second = Pair {
            case: self.c / 16,
            value: self.b,
        };
        (first, second)
    }
}

fn float_answer(call: Call) -> Answer {
    let Call { operation, a, b, c } = call;
    let x = float::from_bits(a);
    let y = float::from_bits(b);
    let z = float::from_bits(c);
    match operation {
        0x00 => taken(float::min(x, y)),
        0x01 => taken(float::max(x, y)),
        0x02 => refusable(float::clamp(x, y, z)),
        0x03 => taken(x.abs()),
        0x04 => taken(x.is_finite()),
        0x05 => taken(x.ceil()),
        0x06 => taken(x.round()),
        0x07 => taken(std::num::saturating_f64_to_i64(x)),
        0x08 => taken(std::num::saturating_f64_to_u64(x)),
        _ => taken(x),
    }
}

fn rate_answer(call: Call) -> Answer {
    let Call { operation, a, b, c } = call;
    let y = float::from_bits(b);
    let rate = Bitrate::from_bits(a);
    let other = Bitrate::from_bits(b);
    let third = Bitrate::from_bits(c);
    match operation {
        0x10 => taken(Bitrate::ZERO),
        0x11 => taken(Bitrate::MAX),
        0x12 => taken(Bitrate::INFINITY),
        0x13 => taken(Bitrate::NEG_INFINITY),
        0x14 => taken(Bitrate::bps(a)),
        0x15 => refusable(Bitrate::kbps(a)),
        0x16 => refusable(Bitrate::mbps(a)),
        0x17 => refusable(Bitrate::gbps(a)),
        0x18 => taken(rate.as_f64()),
        0x19 => taken(rate.as_u64()),
        0x1A => refusable(rate.clamp(other, third)),
        0x1B => taken(rate.min(other)),
        0x1C => taken(rate.max(other)),
        0x1D => taken(rate.is_valid()),
        0x1E => taken(rate.as_valid()),
        0x1F => taken(rate.is_zero()),
        0x20 => taken(Bitrate::from(a)),
        0x21 => taken(rate),
        0x22 => taken(rate * Duration { nanos: b }),
        0x23 => taken(rate * y),
        0x24 => refusable(rate.sub(other)),
        0x25 => taken(rate + other),
        0x26 => taken(rate / y),
        0x27 => taken(rate == other),
        0x28 => taken(rate.partial_cmp(&other)),
        0x29 => taken(rate < other),
        0x2A => taken(rate <= other),
        0x2B => taken(rate > other),
        _ => taken(rate >= other),
    }
}

fn size_answer(call: Call) -> Answer {
    let Call { operation, a, b, c } = call;
    let x = a.cast_signed();
    let y = b.cast_signed();
    let sizes = [x, y, c.cast_signed()];
    let size = DataSize::bytes(x);
    let other = DataSize::bytes(y);
    match operation {
        0x40 => taken(DataSize::ZERO),
        0x41 => taken(size),
        0x42 => refusable(DataSize::kbytes(x)),
        0x43 => refusable(DataSize::mbytes(x)),
        0x44 => refusable(DataSize::gbytes(x)),
        0x45 => refusable(size.as_bytes_f64()),
        0x46 => refusable(size.as_bytes_usize()),
        0x47 => taken(size.as_bytes_i64()),
        0x48 => refusable(size.saturating_sub(other)),
        0x49 => refusable(size.as_kb()),
        0x4A => refusable(DataSize::try_from(a as usize)),
        0x4B => taken(DataSize::from((a % 256) as u8)),
        0x4C => refusable(size.div_duration(Duration { nanos: b })),
        0x4D => refusable(size.mul_i64(y)),
        0x4E => refusable(size.mul_u64(b)),
        0x4F | 0x51 => refusable(size.sub(other)),
        0x50 | 0x52 => refusable(size.add(other)),
        0x53 => refusable(DataSize::sum(&sizes[..0])),
        0x54 => refusable(DataSize::sum(&sizes[..1])),
        0x55 => refusable(DataSize::sum(&sizes[..2])),
        0x56 => refusable(DataSize::sum(&sizes)),
        0x57 => taken(size == other),
        0x58 => taken(size.cmp(&other)),
        0x59 => taken(size < other),
        0x5A => taken(size <= other),
        0x5B => taken(size > other),
        _ => taken(size >= other),
    }
}

fn time_answer(call: Call) -> Answer {
    let Call {
        operation,
        a,
        b,
        ..
    } = call;
    let (first, second) = call.pairs();
    let time = Timestamp::from(first);
    let other = Timestamp::from(second);
    let by = TimeDelta::from(second);
    let span = Duration { nanos: b };
    match operation {
        0x60 | 0x61 | 0x6E | 0x6F => refusable_part(operation, time.add(by)),
        0x62 | 0x63 | 0x70 | 0x71 => refusable_part(operation, time.sub(by)),
        0x64 | 0x65 | 0x72 | 0x73 => refusable_part(operation, time.add(span)),
        0x66 | 0x67 | 0x74 | 0x75 => refusable_part(operation, time.sub(span)),
        0x68 | 0x69 => part(operation, time - other),
        0x6A | 0x6B => part(operation, time - b),
        0x6C | 0x6D => part(operation, Timestamp::from(a)),
        0x76 => taken(time.is_exact()),
        0x77 => taken(time == other),
        0x78 => taken(time.cmp(&other)),
        0x79 => taken(time < other),
        0x7A => taken(time <= other),
        0x7B => taken(time > other),
        _ => taken(time >= other),
    }
}

fn delta_answer(call: Call) -> Answer {
    let Call {
        operation,
        a,
        b,
        ..
    } = call;
    let (first, second) = call.pairs();
    let first = TimeDelta::from(first);
    let second = TimeDelta::from(second);
    let span = TimeDelta::from(Duration { nanos: b });
    match operation {
        0x80 | 0x81 => part(operation, TimeDelta::ZERO),
        0x82 | 0x83 => refusable_part(operation, TimeDelta::from_secs(a.cast_signed())),
        0x84 | 0x85 => refusable_part(operation, TimeDelta::from_millis(a.cast_signed())),
        0x86 | 0x87 | 0x8A | 0x8B => refusable_part(operation, first.add(second)),
        0x88 | 0x89 | 0x8C | 0x8D => refusable_part(operation, first.sub(second)),
        0x8E | 0x8F => refusable_part(operation, first.div_u32((b % 0x1_0000_0000) as u32)),
        0x90 | 0x91 => part(operation, TimeDelta::from(Duration { nanos: a })),
        0x92 | 0x93 => part(operation, first.max(second)),
        0x94 => taken(first.as_secs_f64()),
        0x95 => taken(first == second),
        0x96 => taken(first.cmp(&second)),
        0x97 => taken(first < second),
        0x98 => taken(first <= second),
        0x99 => taken(first > second),
        0x9A => taken(first >= second),
        0x9B => taken(first == span),
        0x9C => taken(first.cmp(&span)),
        0x9D => taken(first < span),
        0x9E => taken(first <= span),
        0x9F => taken(first > span),
        0xA0 => taken(first >= span),
        0xA1 => refusable(time::div_time_delta(DataSize::bytes(a.cast_signed()), second)),
        0xA2 => taken(Duration { nanos: a }.as_secs_f64()),
        _ => refusable(Duration::from_secs_f64(float::from_bits(a))),
    }
}
