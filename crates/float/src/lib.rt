// f64 with Rust's rules, for what Rattle's own operators and methods leave open: which of two zeros
// is the smaller, bounds out of order, a bit pattern that is a NaN's, the sign of a NaN.
#![tactic(auto)]

ghost use Rattle.std.specs.Prelude.{◌≡◌, from_bits, to_bits};
ghost use Rattle.std.specs.Float.{binary64};
ghost use Rattle.float.specs.Rust.{minimum, maximum, sign_bit};
ghost use Rattle.float.specs.Answer.{clamped};

use refusal::Refusal;

// The smaller of two: the other operand when one is NaN, and of two zeros the first.
#[tactic(auto, unfolding(crate::specs::Rust::minimum))]
pub fn min(a: f64, b: f64) -> f64
    ensures { result ≡ minimum a b }
{
    if a.is_nan() || b < a { b } else { a }
}

// The larger of two, by the same rules.
#[tactic(auto, unfolding(crate::specs::Rust::maximum))]
pub fn max(a: f64, b: f64) -> f64
    ensures { result ≡ maximum a b }
{
    if a.is_nan() || a < b { b } else { a }
}

// x within the two bounds; refused where min <= max does not hold, and Rust panics.
#[tactic(auto, unfolding(crate::specs::Answer::clamped))]
pub fn clamp(x: f64, min: f64, max: f64) -> Result<f64, Refusal>
    ensures { result ≡ clamped x min max }
{
    if min <= max {
        Ok(x.clamp(min, max))
    } else {
        Err(Refusal::Arithmetic)
    }
}

// The float with these bits; every pattern of a NaN gives the NaN.
pub fn from_bits(bits: u64) -> f64
    ensures { result ≡ from_bits binary64 bits }
{
    std::num::f64_from_bits_with_nan(bits)
}

// The bits of the float; a NaN gives 7FF8000000000000.
pub fn to_bits(x: f64) -> u64
    ensures { result ≡ to_bits binary64 x }
{
    std::num::f64_to_bits_with_nan(x)
}

// The sign bit, of -0.0 too. Whichever NaN, its bit is clear.
#[tactic(auto, using(crate::proofs::Std::sign_bit_is, crate::proofs::Std::nan_unsigned))]
pub fn is_sign_negative(x: f64) -> bool
    ensures { result ≡ sign_bit x }
{
    !x.is_nan() && x.is_sign_negative()
}
