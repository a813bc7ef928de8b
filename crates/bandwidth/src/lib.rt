// Bit rates and data sizes: crates/proto/src/bandwidth.rs. What can be refused is a named function
// in place of Rust's operator.
#![tactic(auto)]

ghost use Rattle.std.specs.Prelude.{◌≡◌, ◌*◌, ◌&&◌, pos, ◌*ℤ◌, from_bits, to_bits};
ghost use Rattle.std.specs.Float.{binary64};
ghost use Rattle.std.specs.Float.Ieee.{eq};
ghost use Rattle.std.specs.Float.Ieee.Scale.{finite};
ghost use Rattle.bandwidth.specs.Rate as Rate;
ghost use Rattle.bandwidth.specs.Size as Size;

use duration::Duration;
use refusal::Refusal;
use std::ops::{Add, Div, Mul};

// A data rate in bits per second. It is a float, so that repeated calculations keep their
// fractions. A NaN equals nothing and is in no order.
#[derive(Clone, Copy, Debug, PartialEq, PartialOrd)]
pub struct Bitrate {
    pub bps: f64,
}

// A data size in bytes.
#[derive(Clone, Copy, Debug, PartialEq, Eq, PartialOrd, Ord)]
pub struct DataSize {
    pub bytes: i64,
}

impl Bitrate {
    pub const ZERO: Bitrate = Bitrate { bps: 0.0 };
    // u64::MAX bit/s, to the nearest float
    pub const MAX: Bitrate = Bitrate {
        bps: 18446744073709551616.0,
    };
    // 10^15 bit/s: the most that a setter takes, and the limit of products, sums and candidates.
    pub const MOST: Bitrate = Bitrate { bps: 1.0e15 };
    // Useful as invalid values with comparison semantics.
    pub const INFINITY: Bitrate = Bitrate { bps: f64::INFINITY };

    pub const NEG_INFINITY: Bitrate = Bitrate {
        bps: f64::NEG_INFINITY,
    };

    pub fn bps(bps: u64) -> Bitrate
        ensures { result ≡ Rate.nearest bps }
    {
        let bps = std::num::nearest_u64_to_f64(bps);
        Bitrate { bps }
    }

    pub fn kbps(kbps: u64) -> Result<Bitrate, Refusal>
        ensures { result ≡ Rate.whole_rate (kbps * 1000) }
    {
        Self::in_units(kbps, 1_000)
    }

    pub fn mbps(mbps: u64) -> Result<Bitrate, Refusal>
        ensures { result ≡ Rate.whole_rate (mbps * 1000000) }
    {
        Self::in_units(mbps, 1_000_000)
    }

    pub fn gbps(gbps: u64) -> Result<Bitrate, Refusal>
        ensures { result ≡ Rate.whole_rate (gbps * 1000000000) }
    {
        Self::in_units(gbps, 1_000_000_000)
    }

    // n units of so many bit/s
    #[tactic(auto, unfolding(crate::specs::Rate::whole_rate))]
    fn in_units(n: u64, unit: u64) -> Result<Bitrate, Refusal>
        ensures { result ≡ Rate.whole_rate (n * unit) }
    {
        let bps = n.checked_mul(unit).ok_or(Refusal::Arithmetic)?;
        Ok(Self::bps(bps))
    }

    // The rate whose float has these bits.
    pub fn from_bits(bits: u64) -> Bitrate
        ensures { result ≡ Rate.rate (from_bits binary64 bits) }
    {
        Bitrate {
            bps: float::from_bits(bits),
        }
    }

    pub fn to_bits(self) -> u64
        ensures { result ≡ to_bits binary64 self.bps }
    {
        float::to_bits(self.bps)
    }

    pub fn as_f64(self) -> f64
        ensures { result ≡ self.bps }
    {
        self.bps
    }

    // The bits per second rounded upwards, at most u64::MAX.
    #[tactic(auto, using(float::proofs::Std::ceiling_is), unfolding(crate::specs::Rate::upwards))]
    pub fn as_u64(self) -> u64
        ensures { result ≡ Rate.upwards self }
    {
        std::num::saturating_f64_to_u64(self.bps.ceil())
    }

    #[tactic(auto, unfolding(crate::specs::Rate::clamped))]
    pub fn clamp(self, min: Bitrate, max: Bitrate) -> Result<Bitrate, Refusal>
        ensures { result ≡ Rate.clamped self min max }
    {
        let bps = float::clamp(self.bps, min.bps, max.bps)?;
        Ok(Bitrate { bps })
    }

    #[tactic(auto, unfolding(crate::specs::Rate::smaller))]
    pub fn min(self, other: Bitrate) -> Bitrate
        ensures { result ≡ Rate.smaller self other }
    {
        let bps = float::min(self.bps, other.bps);
        Bitrate { bps }
    }

    #[tactic(auto, unfolding(crate::specs::Rate::larger))]
    pub fn max(self, other: Bitrate) -> Bitrate
        ensures { result ≡ Rate.larger self other }
    {
        let bps = float::max(self.bps, other.bps);
        Bitrate { bps }
    }

    #[tactic(auto, using(float::proofs::Std::finite_is))]
    pub fn is_valid(self) -> bool
        ensures { result ≡ finite self.bps }
    {
        self.bps.is_finite()
    }

    #[tactic(auto, unfolding(crate::specs::Rate::valid))]
    pub fn as_valid(self) -> Option<Bitrate>
        ensures { result ≡ Rate.valid self }
    {
        self.is_valid().then_some(self)
    }

    pub fn is_zero(self) -> bool
        ensures { result ≡ eq self.bps (Rate.zero).bps }
    {
        self == Bitrate::ZERO
    }

    // Sub: Rust asserts that the first is at least the second; here the rest is refused.
    #[tactic(auto, using(float::proofs::Std::partial_ge_is), unfolding(crate::specs::Rate::minus))]
    pub fn sub(self, rhs: Bitrate) -> Result<Bitrate, Refusal>
        ensures { result ≡ Rate.minus self rhs }
    {
        if self >= rhs {
            return Ok(Bitrate {
                bps: self.bps - rhs.bps,
            });
        }
        Err(Refusal::Arithmetic)
    }

    // What finite operands gave is at most MOST. An operand that is not finite stands for an absent
    // rate, and what came of it stays.
    #[tactic(auto, using(float::proofs::Std::partial_gt_is), unfolding(crate::specs::Rate::limited))]
    pub fn limited(self, operands_finite: bool) -> Bitrate
        ensures { result ≡ Rate.limited operands_finite self }
    {
        if operands_finite && self > Bitrate::MOST {
            return Bitrate::MOST;
        }
        self
    }
}

impl From<u64> for Bitrate {
    ghost from_gives = { λ value rate. rate ≡ Rate.nearest value };

    fn from(value: u64) -> Bitrate {
        Bitrate::bps(value)
    }
}

impl From<f64> for Bitrate {
    ghost from_gives = { λ value rate. rate ≡ Rate.rate value };

    fn from(value: f64) -> Bitrate {
        Bitrate { bps: value }
    }
}

// The bytes that this rate carries.
impl Mul<Duration> for Bitrate {
    type Output = DataSize;

    ghost mul_gives = { λ rate d size. size ≡ Rate.carried rate d };

    #[tactic(auto, using(float::proofs::Std::half_away_is), unfolding(crate::specs::Rate::carried))]
    fn mul(self, rhs: Duration) -> DataSize {
        let bits = self.bps * rhs.as_secs_f64();
        let bytes = bits / 8.0;
        DataSize::bytes(std::num::saturating_f64_to_i64(bytes.round()))
    }
}

impl Mul<f64> for Bitrate {
    type Output = Bitrate;

    ghost mul_gives = { λ rate x product. product ≡ Rate.times rate x };

    #[tactic(auto, unfolding(crate::specs::Rate::times))]
    fn mul(self, rhs: f64) -> Bitrate {
        let product = Bitrate {
            bps: self.bps * rhs,
        };
        product.limited(are_finite(self.bps, rhs))
    }
}

impl Add for Bitrate {
    type Output = Bitrate;

    ghost add_gives = { λ a b sum. sum ≡ Rate.plus a b };

    #[tactic(auto, unfolding(crate::specs::Rate::plus))]
    fn add(self, rhs: Bitrate) -> Bitrate {
        let sum = Bitrate {
            bps: self.bps + rhs.bps,
        };
        sum.limited(are_finite(self.bps, rhs.bps))
    }
}

impl Div<f64> for Bitrate {
    type Output = Bitrate;

    ghost div_gives = { λ rate x quotient. quotient ≡ Rate.over rate x };

    #[tactic(auto, unfolding(crate::specs::Rate::over))]
    fn div(self, rhs: f64) -> Bitrate {
        if rhs == 0.0 {
            return Bitrate::ZERO;
        }
        Bitrate {
            bps: self.bps / rhs,
        }
    }
}

#[tactic(auto, using(float::proofs::Std::finite_is))]
fn are_finite(a: f64, b: f64) -> bool
    ensures { result ≡ (finite a && finite b) }
{
    a.is_finite() && b.is_finite()
}

// 2^53: up to it each whole number is a float.
const MOST_EXACT: u64 = 9_007_199_254_740_992;

impl DataSize {
    pub const ZERO: DataSize = DataSize { bytes: 0 };

    pub fn bytes(bytes: i64) -> DataSize
        ensures { result ≡ Size.size bytes }
    {
        DataSize { bytes }
    }

    pub fn kbytes(kbytes: i64) -> Result<DataSize, Refusal>
        ensures { result ≡ Size.fitted (kbytes *ℤ pos 1024) }
    {
        Self::in_units(kbytes, 1_024)
    }

    pub fn mbytes(mbytes: i64) -> Result<DataSize, Refusal>
        ensures { result ≡ Size.fitted (mbytes *ℤ pos 1048576) }
    {
        Self::in_units(mbytes, 1_048_576)
    }

    pub fn gbytes(gbytes: i64) -> Result<DataSize, Refusal>
        ensures { result ≡ Size.fitted (gbytes *ℤ pos 1073741824) }
    {
        Self::in_units(gbytes, 1_073_741_824)
    }

    // n units of so many bytes
    #[tactic(auto, using(integer::proofs::Signed::fitted_by))]
    fn in_units(n: i64, unit: i64) -> Result<DataSize, Refusal>
        ensures { result ≡ Size.fitted (n *ℤ unit) }
    {
        let bytes = n.checked_mul(unit).ok_or(Refusal::Arithmetic)?;
        Ok(DataSize { bytes })
    }

    // The bytes as a float, where it holds the number whatever it is: up to 2^53 in magnitude.
    #[tactic(auto, using(crate::proofs::Exact::exact, crate::proofs::Exact::inexact), unfolding(crate::specs::Size::float))]
    pub fn as_bytes_f64(self) -> Result<f64, Refusal>
        ensures { result ≡ Size.float self }
    {
        if self.bytes.unsigned_abs() <= MOST_EXACT {
            return Ok(self.bytes as f64);
        }
        Err(Refusal::Arithmetic)
    }

    #[tactic(auto, using(integer::proofs::Signed::unsigned_from, integer::proofs::Signed::not_unsigned), unfolding(crate::specs::Size::unsigned))]
    pub fn as_bytes_usize(self) -> Result<usize, Refusal>
        ensures { result ≡ Size.unsigned self }
    {
        Ok(usize::try_from(self.bytes)?)
    }

    pub fn as_bytes_i64(self) -> i64
        ensures { result ≡ self.bytes }
    {
        self.bytes
    }

    // Subtract, at least zero.
    #[tactic(auto, unfolding(crate::specs::Size::saturating_minus))]
    pub fn saturating_sub(self, rhs: DataSize) -> Result<DataSize, Refusal>
        ensures { result ≡ Size.saturating_minus self rhs }
    {
        let rest = self.sub(rhs)?;
        Ok(DataSize {
            bytes: rest.bytes.max(0),
        })
    }

    #[tactic(auto, unfolding(crate::specs::Size::kilobytes))]
    pub fn as_kb(self) -> Result<f64, Refusal>
        ensures { result ≡ Size.kilobytes self }
    {
        let bytes = self.as_bytes_f64()?;
        Ok(bytes / 1000.0)
    }

    // Div<Duration>: the rate at which this size takes that long.
    #[tactic(auto, unfolding(crate::specs::Size::over))]
    pub fn div_duration(self, rhs: Duration) -> Result<Bitrate, Refusal>
        ensures { result ≡ Size.over self rhs }
    {
        self.over_seconds(rhs.as_secs_f64())
    }

    // What Div<Duration> and Div<TimeDelta> share: this size over so many seconds.
    pub fn over_seconds(self, s: f64) -> Result<Bitrate, Refusal>
        ensures { result ≡ Size.over_seconds self s }
    {
        let bytes = self.as_bytes_f64()?;
        Ok(Bitrate { bps: bytes * 8.0 } / s)
    }

    // Mul<i64>, whose answer is a number of bytes and no DataSize.
    #[tactic(auto, using(integer::proofs::Signed::fitted_by), unfolding(crate::specs::Size::times_signed))]
    pub fn mul_i64(self, rhs: i64) -> Result<i64, Refusal>
        ensures { result ≡ Size.times_signed self rhs }
    {
        self.bytes.checked_mul(rhs).ok_or(Refusal::Arithmetic)
    }

    // Mul<u64>: a factor above i64::MAX is refused, where Rust wraps it.
    #[tactic(auto, using(integer::proofs::Signed::fitted_from, integer::proofs::Signed::not_fitted), unfolding(crate::specs::Size::times_unsigned, integer::specs::Fitted::fitted))]
    pub fn mul_u64(self, rhs: u64) -> Result<DataSize, Refusal>
        ensures { result ≡ Size.times_unsigned self rhs }
    {
        let factor = i64::try_from(rhs)?;
        Self::in_units(self.bytes, factor)
    }

    // Sub and SubAssign
    #[tactic(auto, using(integer::proofs::Signed::fitted_by, integer::proofs::Signed::read_is), unfolding(crate::specs::Size::minus))]
    pub fn sub(self, rhs: DataSize) -> Result<DataSize, Refusal>
        ensures { result ≡ Size.minus self rhs }
    {
        let difference = self.bytes.checked_sub(rhs.bytes);
        let bytes = difference.ok_or(Refusal::Arithmetic)?;
        Ok(DataSize { bytes })
    }

    // Add and AddAssign
    #[tactic(auto, using(integer::proofs::Signed::fitted_by), unfolding(crate::specs::Size::plus))]
    pub fn add(self, rhs: DataSize) -> Result<DataSize, Refusal>
        ensures { result ≡ Size.plus self rhs }
    {
        let sum = self.bytes.checked_add(rhs.bytes);
        let bytes = sum.ok_or(Refusal::Arithmetic)?;
        Ok(DataSize { bytes })
    }

    // Sum: refused at the first partial sum that fits no size.
    #[tactic(auto, unfolding(crate::specs::Size::total))]
    pub fn sum(sizes: &[i64]) -> Result<DataSize, Refusal>
        ensures { result ≡ Size.total sizes.now }
    {
        sizes.iter().try_fold(
            DataSize::ZERO,
            |sum, bytes| sum.add(DataSize::bytes(*bytes)),
        )
    }
}

impl TryFrom<usize> for DataSize {
    type Error = Refusal;

    ghost try_from_gives = { λ value size. size ≡ Size.fitted (pos value) };

    #[tactic(auto, using(integer::proofs::Signed::fitted_from, integer::proofs::Signed::not_fitted))]
    fn try_from(value: usize) -> Result<DataSize, Refusal> {
        let bytes = i64::try_from(value)?;
        Ok(DataSize { bytes })
    }
}

impl From<u8> for DataSize {
    ghost from_gives = { λ value size. size ≡ Size.size (pos value) };

    fn from(value: u8) -> DataSize {
        DataSize {
            bytes: value as i64,
        }
    }
}
