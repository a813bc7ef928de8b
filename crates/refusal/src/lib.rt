// Why a call is refused, and the number that a line has for it.
#![tactic(auto)]

ghost use Rattle.std.specs.Prelude.{◌≡◌};
ghost use Rattle.refusal.specs.Outcome.{number};
ghost use Rattle.refusal.specs.Refusal.{code};
ghost use Rattle.refusal.specs.declared.Refusal.TheVariants.{Arithmetic};

use std::num::TryFromIntError;

#[derive(Clone, Copy, Debug, PartialEq, Eq, Hash)]
pub enum Refusal {
    // A line that is not in shape
    NotInShape = 1,
    // A finite rate with its sign bit set, or above 10^15 bit/s
    Rate = 2,
    // A time above 4 * 10^18 ns
    Time = 3,
    // Packet columns of unequal length
    UnequalColumns = 4,
    // More than 4,096 packets
    TooManyPackets = 5,
    // A number that has no logarithm here
    NoLogarithm = 6,
    // An arithmetic result that the type does not hold, or that there is none
    Arithmetic = 7,
    // A flag that is neither 0 nor 1
    Flag = 8,
    // The running sums would pass their limit
    RunningSums = 10,
    // The count of observations would pass its limit
    Observations = 11,
    // The queue holds 4,096 packets
    QueueFull = 12,
    // The lent buffer has no room
    NoRoom = 13,
    // A packet of more than 9,999,999 bytes
    PacketSize = 17,
}

impl From<Refusal> for u8 {
    ghost from_gives = { λ refusal number. number ≡ code refusal };

    fn from(refusal: Refusal) -> u8 {
        refusal as u8
    }
}

// The number that a line has for it: 0 where nothing is refused.
pub fn number<T>(outcome: &Result<T, Refusal>) -> u8
    ensures { result ≡ number outcome.now }
{
    match outcome {
        Ok(_) => 0,
        Err(refusal) => u8::from(*refusal),
    }
}

// A number that the other type does not hold
impl From<TryFromIntError> for Refusal {
    ghost from_gives = { λ _ refusal. refusal ≡ Arithmetic };

    fn from(_error: TryFromIntError) -> Refusal {
        Self::Arithmetic
    }
}
