// Times and their differences: src/bwe/time.rs. What can be refused is a named function in place of
// Rust's operator, and AddAssign and SubAssign are those of Add and Sub. An instant is a number of ns.
#![tactic(auto)]

ghost use Rattle.std.specs.Prelude.{◌≡◌, ◌+◌};
ghost use Rattle.duration.specs.Nanos as Nanos;
ghost use Rattle.time.specs.Delta as Delta;
ghost use Rattle.time.specs.Time as Time;
ghost use Rattle.time.specs.declared.TimeDelta.TheVariants.{Positive};
ghost use Rattle.time.specs.declared.Timestamp.TheVariants.{Exact};

use bandwidth::{Bitrate, DataSize};
use duration::Duration;
use refusal::Refusal;
use std::ops::Sub;

mod order;

// An instant, or a time before or after all of them, in their order.
#[derive(Clone, Copy, Debug, PartialEq, Eq, PartialOrd, Ord)]
pub enum Timestamp {
    // A time in the past that already happened.
    DistantPast,
    // An exact instant.
    Exact(u64),
    // A time in the future that will never happen.
    DistantFuture,
}

// A duration that can be negative, or one to a distant past or future. Negative zero is a value of
// its own.
#[derive(Clone, Copy, Debug, PartialEq, Eq)]
pub enum TimeDelta {
    // To some event in the distant past that already happened.
    NegativeInfinity,
    // An exact negative duration.
    Negative(Duration),
    // An exact positive duration.
    Positive(Duration),
    // To some event in the distant future that will never happen.
    PositiveInfinity,
}

impl Timestamp {
    pub fn is_exact(self) -> bool
        ensures { result ≡ Time.is_exact self }
    {
        matches!(self, Self::Exact(_))
    }

    // Add<TimeDelta> and Add<Duration>
    #[tactic(auto, unfolding(crate::specs::Time::plus, duration::specs::Nanos::fitted, duration::specs::Nanos::minus))]
    pub fn add<D: Into<TimeDelta>>(self, rhs: D) -> Result<Timestamp, Refusal>
        ensures { (delta : TimeDelta) × D.converts rhs delta × result ≡ Time.plus self delta }
    {
        match (self, rhs.into()) {
            (Self::DistantFuture, _) | (_, TimeDelta::PositiveInfinity) => Ok(Self::DistantFuture),
            (Self::DistantPast, _) | (_, TimeDelta::NegativeInfinity) => Ok(Self::DistantPast),
            (Self::Exact(i), TimeDelta::Negative(d)) => {
                let instant = i.checked_sub(d.nanos).ok_or(Refusal::Arithmetic)?;
                Ok(Self::Exact(instant))
            }
            (Self::Exact(i), TimeDelta::Positive(d)) => {
                let instant = i.checked_add(d.nanos).ok_or(Refusal::Arithmetic)?;
                Ok(Self::Exact(instant))
            }
        }
    }

    // Sub<TimeDelta> and Sub<Duration>, whose table in Rust is that of Add with rhs negated
    #[tactic(auto, unfolding(crate::specs::Time::minus))]
    pub fn sub<D: Into<TimeDelta>>(self, rhs: D) -> Result<Timestamp, Refusal>
        ensures { (delta : TimeDelta) × D.converts rhs delta × result ≡ Time.minus self delta }
    {
        let delta: TimeDelta = rhs.into();
        self.add(delta.negated())
    }
}

impl Sub for Timestamp {
    type Output = TimeDelta;

    ghost sub_gives = { λ later earlier delta. delta ≡ Time.since later earlier };

    #[tactic(auto, unfolding(crate::specs::Time::since))]
    fn sub(self, rhs: Timestamp) -> TimeDelta {
        match (self, rhs) {
            // also of two distant pasts or futures, though they are equal
            (Self::DistantFuture, _) | (_, Self::DistantPast) => TimeDelta::PositiveInfinity,
            (Self::DistantPast, _) | (_, Self::DistantFuture) => TimeDelta::NegativeInfinity,
            (Self::Exact(this), Self::Exact(that)) => difference(this, that),
        }
    }
}

// Sub<Instant>
impl Sub<u64> for Timestamp {
    type Output = TimeDelta;

    ghost sub_gives = { λ later earlier delta. delta ≡ Time.since later (Exact earlier) };

    fn sub(self, rhs: u64) -> TimeDelta {
        self - Self::from(rhs)
    }
}

// From<Instant>
impl From<u64> for Timestamp {
    ghost from_gives = { λ value time. time ≡ Exact value };

    fn from(value: u64) -> Timestamp {
        Self::Exact(value)
    }
}

impl TimeDelta {
    pub const ZERO: TimeDelta = Self::Positive(Duration::ZERO);

    // Seconds as a float
    #[tactic(auto, using(float::proofs::Std::infinity_is, float::proofs::Std::neg_infinity_is), unfolding(crate::specs::Delta::in_seconds))]
    pub fn as_secs_f64(self) -> f64
        ensures { result ≡ Delta.in_seconds self }
    {
        match self {
            Self::NegativeInfinity => f64::NEG_INFINITY,
            Self::Negative(d) => -d.as_secs_f64(),
            Self::Positive(d) => d.as_secs_f64(),
            Self::PositiveInfinity => f64::INFINITY,
        }
    }

    pub fn from_secs(secs: i64) -> Result<TimeDelta, Refusal>
        ensures { result ≡ Delta.units secs 1000000000 }
    {
        in_units(secs, 1_000_000_000)
    }

    pub fn from_millis(millis: i64) -> Result<TimeDelta, Refusal>
        ensures { result ≡ Delta.units millis 1000000 }
    {
        in_units(millis, 1_000_000)
    }

    // Add
    #[tactic(auto, unfolding(crate::specs::Delta::plus))]
    pub fn add(self, rhs: TimeDelta) -> Result<TimeDelta, Refusal>
        ensures { result ≡ Delta.plus self rhs }
    {
        match (self, rhs) {
            (Self::PositiveInfinity, _) | (_, Self::PositiveInfinity) => {
                Ok(Self::PositiveInfinity)
            }
            (Self::NegativeInfinity, _) | (_, Self::NegativeInfinity) => {
                Ok(Self::NegativeInfinity)
            }
            (Self::Negative(this), Self::Negative(that)) => Ok(Self::Negative(sum(this, that)?)),
            (Self::Positive(this), Self::Positive(that)) => Ok(Self::Positive(sum(this, that)?)),
            (Self::Positive(this), Self::Negative(that)) => {
                Ok(difference(this.nanos, that.nanos))
            }
            (Self::Negative(this), Self::Positive(that)) => {
                Ok(difference(that.nanos, this.nanos))
            }
        }
    }

    // Sub, whose table in Rust is that of Add with rhs negated
    #[tactic(auto, unfolding(crate::specs::Delta::minus))]
    pub fn sub(self, rhs: TimeDelta) -> Result<TimeDelta, Refusal>
        ensures { result ≡ Delta.minus self rhs }
    {
        self.add(rhs.negated())
    }

    #[tactic(auto, unfolding(crate::specs::Delta::negated))]
    fn negated(self) -> TimeDelta
        ensures { result ≡ Delta.negated self }
    {
        match self {
            Self::NegativeInfinity => Self::PositiveInfinity,
            Self::Negative(d) => Self::Positive(d),
            Self::Positive(d) => Self::Negative(d),
            Self::PositiveInfinity => Self::NegativeInfinity,
        }
    }

    // Div<u32>: Rust panics where a finite one is divided by 0; here that is refused.
    #[tactic(auto, unfolding(crate::specs::Delta::over))]
    pub fn div_u32(self, rhs: u32) -> Result<TimeDelta, Refusal>
        ensures { result ≡ Delta.over self rhs }
    {
        match self {
            Self::NegativeInfinity | Self::PositiveInfinity => Ok(self),
            Self::Negative(d) => Ok(Self::Negative(quotient(d, rhs)?)),
            Self::Positive(d) => Ok(Self::Positive(quotient(d, rhs)?)),
        }
    }
}

// A comparison with a duration d is one with TimeDelta::from(d).
impl From<Duration> for TimeDelta {
    ghost from_gives = { λ value delta. delta ≡ Positive value };

    fn from(value: Duration) -> TimeDelta {
        Self::Positive(value)
    }
}

// Div<TimeDelta> for DataSize: the rate at which this size takes that long.
#[tactic(auto, unfolding(crate::specs::Delta::rate))]
pub fn div_time_delta(size: DataSize, rhs: TimeDelta) -> Result<Bitrate, Refusal>
    ensures { result ≡ Delta.rate size rhs }
{
    size.over_seconds(rhs.as_secs_f64())
}

// n units of so many ns
#[tactic(auto, unfolding(crate::specs::Delta::units, duration::specs::Nanos::fitted))]
fn in_units(n: i64, unit: u64) -> Result<TimeDelta, Refusal>
    ensures { result ≡ Delta.units n unit }
{
    let nanos = n
        .unsigned_abs()
        .checked_mul(unit)
        .ok_or(Refusal::Arithmetic)?;
    let span = Duration { nanos };
    if n >= 0 {
        return Ok(TimeDelta::Positive(span));
    }
    Ok(TimeDelta::Negative(span))
}

#[tactic(auto, unfolding(duration::specs::Nanos::fitted))]
fn sum(this: Duration, that: Duration) -> Result<Duration, Refusal>
    ensures { result ≡ Nanos.fitted (this.nanos + that.nanos) }
{
    let sum = this.nanos.checked_add(that.nanos);
    let nanos = sum.ok_or(Refusal::Arithmetic)?;
    Ok(Duration { nanos })
}

#[tactic(auto, unfolding(duration::specs::Nanos::over))]
fn quotient(d: Duration, n: u32) -> Result<Duration, Refusal>
    ensures { result ≡ Nanos.over d.nanos n }
{
    let nanos = d.nanos.checked_div(n as u64).ok_or(Refusal::Arithmetic)?;
    Ok(Duration { nanos })
}

// this - that, in ns. Two equal ones give Positive(0), which is ZERO.
#[tactic(auto, unfolding(crate::specs::Delta::difference))]
fn difference(this: u64, that: u64) -> TimeDelta
    ensures { result ≡ Delta.difference this that }
{
    if this < that {
        return TimeDelta::Negative(Duration { nanos: that - this });
    }
    TimeDelta::Positive(Duration { nanos: this - that })
}
