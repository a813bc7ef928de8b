// Rates and times as the stored files of the replay programs have them: two fields of 64 bits, of
// which the first says which case it is.
#![tactic(auto)]

ghost use Rattle.std.specs.Prelude.{◌≡◌};
ghost use Rattle.stored_fields.specs.Fields as Fields;

use bandwidth::Bitrate;
use duration::Duration;
use time::{TimeDelta, Timestamp};

#[derive(Clone, Copy, Debug, PartialEq, Eq)]
pub struct Pair {
    pub case: u64,
    pub value: u64,
}

impl From<Option<Bitrate>> for Pair {
    ghost from_gives = { λ rate pair. pair ≡ Fields.of_option rate };

    fn from(rate: Option<Bitrate>) -> Pair {
        Pair {
            case: u64::from(rate.is_some()),
            value: rate.map_or(0, Bitrate::to_bits),
        }
    }
}

impl From<Timestamp> for Pair {
    ghost from_gives = { λ time pair. pair ≡ Fields.of_timestamp time };

    fn from(time: Timestamp) -> Pair {
        let (case, value) = match time {
            Timestamp::DistantPast => (0, 0),
            Timestamp::Exact(ns) => (1, ns),
            Timestamp::DistantFuture => (2, 0),
        };
        Pair { case, value }
    }
}

impl From<Pair> for Timestamp {
    ghost from_gives = { λ pair time. time ≡ Fields.timestamp pair.case pair.value };

    fn from(pair: Pair) -> Timestamp {
        let Pair { case, value } = pair;
        match case {
            0 => Timestamp::DistantPast,
            1 => Timestamp::Exact(value),
            _ => Timestamp::DistantFuture,
        }
    }
}

impl From<TimeDelta> for Pair {
    ghost from_gives = { λ delta pair. pair ≡ Fields.of_delta delta };

    fn from(delta: TimeDelta) -> Pair {
        let (case, value) = match delta {
            TimeDelta::NegativeInfinity => (0, 0),
            TimeDelta::Negative(span) => (1, span.nanos),
            TimeDelta::Positive(span) => (2, span.nanos),
            TimeDelta::PositiveInfinity => (3, 0),
        };
        Pair { case, value }
    }
}

impl From<Pair> for TimeDelta {
    ghost from_gives = { λ pair delta. delta ≡ Fields.delta pair.case pair.value };

    fn from(pair: Pair) -> TimeDelta {
        let span = Duration { nanos: pair.value };
        match pair.case {
            0 => TimeDelta::NegativeInfinity,
            1 => TimeDelta::Negative(span),
            2 => TimeDelta::Positive(span),
            _ => TimeDelta::PositiveInfinity,
        }
    }
}
