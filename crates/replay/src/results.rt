// Operands and results as 64 bits.
use bandwidth::{Bitrate, DataSize};
use duration::Duration;
use hexadecimal::Answer;
use refusal::Refusal;
use std::cmp::Ordering;
use stored_fields::Pair;
use time::{TimeDelta, Timestamp};

pub(crate) fn taken(value: impl Bits) -> Answer {
    Answer {
        refusal: 0,
        result: value.bits(),
    }
}

pub(crate) fn refusable(value: Result<impl Bits, Refusal>) -> Answer {
    match value {
        Ok(value) => taken(value),
        Err(refusal) => Answer {
            refusal: u8::from(refusal),
            result: 0,
        },
    }
}

// A result as the line of an answer has it.
pub(crate) trait Bits {
    fn bits(self) -> u64;
}

impl Bits for u64 {
    fn bits(self) -> u64 {
        self
    }
}

impl Bits for usize {
    fn bits(self) -> u64 {
        self as u64
    }
}

impl Bits for i64 {
    fn bits(self) -> u64 {
        self.cast_unsigned()
    }
}

impl Bits for bool {
    fn bits(self) -> u64 {
        u64::from(self)
    }
}

impl Bits for f64 {
    fn bits(self) -> u64 {
        float::to_bits(self)
    }
}

impl Bits for Bitrate {
    fn bits(self) -> u64 {
        self.to_bits()
    }
}

impl Bits for Option<Bitrate> {
    fn bits(self) -> u64 {
        self.map_or(u64::MAX, Bits::bits)
    }
}

impl Bits for DataSize {
    fn bits(self) -> u64 {
        self.as_bytes_i64().bits()
    }
}

impl Bits for Duration {
    fn bits(self) -> u64 {
        self.nanos
    }
}

impl Bits for Ordering {
    fn bits(self) -> u64 {
        match self {
            Ordering::Less => 0,
            Ordering::Equal => 1,
            Ordering::Greater => 2,
        }
    }
}

impl Bits for Option<Ordering> {
    fn bits(self) -> u64 {
        self.map_or(3, Bits::bits)
    }
}

// ---- times: an operation that answers one has an even number for its case and the next one for its ns

pub(crate) trait Zero {
    const ZERO: Self;
}

impl Zero for Timestamp {
    const ZERO: Timestamp = Timestamp::Exact(0);
}

impl Zero for TimeDelta {
    const ZERO: TimeDelta = TimeDelta::ZERO;
}

pub(crate) fn part(operation: u64, time: impl Into<Pair>) -> Answer {
    let Pair { case, value } = time.into();
    taken(if operation % 2 == 0 { case } else { value })
}

pub(crate) fn refusable_part<T: Zero + Into<Pair>>(
    operation: u64,
    time: Result<T, Refusal>,
) -> Answer {
    match time {
        Ok(time) => part(operation, time),
        Err(refusal) => Answer {
            refusal: u8::from(refusal),
            ..part(operation, T::ZERO)
        },
    }
}
