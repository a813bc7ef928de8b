// Document 01's logarithm, power and weights ("Logarithm and powers"): fixed steps in a fixed order,
// each operation rounded once, so that every machine has the same bits.
#![tactic(auto)]

ghost use Rattle.std.specs.Prelude.{◌≡◌};
ghost use Rattle.logarithm.specs.Ln.{logarithm, logarithm_of_bits};
ghost use Rattle.logarithm.specs.Power.{power, weight};

use refusal::Refusal;

// The coefficients of fdlibm's e_log.c; the bits stand beside.
const LN2_HI: f64 = 0.6931471803691238; // 3FE62E42FEE00000

const LN2_LO: f64 = 1.9082149292705877e-10; // 3DEA39EF35793C76

const L1: f64 = 0.6666666666666735; // 3FE5555555555593

const L2: f64 = 0.3999999999940942; // 3FD999999997FA04

const L3: f64 = 0.2857142874366239; // 3FD2492494229359

const L4: f64 = 0.22222198432149784; // 3FCC71C51D8E78AF

const L5: f64 = 0.1818357216161805; // 3FC7466496CB03DE

const L6: f64 = 0.15313837699209373; // 3FC39A09D078C69F

const L7: f64 = 0.14798198605116586; // 3FC2F112DF3E5244

// A bit pattern's halves, and the fields of the upper one: each is a quotient or a remainder.
const TWO_20: u64 = 0x10_0000;

const TWO_32: u64 = 0x1_0000_0000;

// The natural logarithm of a positive, normal, finite number.
#[tactic(auto, unfolding(crate::specs::Ln::logarithm))]
pub fn ln(x: f64) -> Result<f64, Refusal>
    ensures { result ≡ logarithm x }
{
    if f64::MIN_POSITIVE <= x && x <= f64::MAX {
        Ok(ln_of_bits(float::to_bits(x)))
    } else {
        Err(Refusal::NoLogarithm)
    }
}

#[tactic(auto, unfolding(crate::specs::Ln::logarithm_of_bits))]
fn ln_of_bits(bits: u64) -> f64
    ensures { result ≡ logarithm_of_bits bits }
{
    let h = bits / TWO_32 + 0x9_5F62;
    let k = ((h / TWO_20) as i64 - 1023) as f64;
    let upper = h % TWO_20 + 0x3FE6_A09E;
    let reduced = float::from_bits(upper * TWO_32 + bits % TWO_32);
    let f = reduced - 1.0;
    let q = (0.5 * f) * f;
    let s = f / (2.0 + f);
    let z = s * s;
    let w = z * z;
    let a = w * (L2 + w * (L4 + w * L6));
    let b = z * (L1 + w * (L3 + w * (L5 + w * L7)));
    let r = b + a;
    s * (q + r) + k * LN2_LO - q + f + k * LN2_HI
}

// base to the power n.
#[tactic(auto, using(crate::proofs::Steps::turn, crate::proofs::Steps::done), unfolding(crate::specs::Power::power))]
pub fn powi(base: f64, n: u32) -> f64
    ensures { result ≡ power base n }
{
    let mut answer = 1.0;
    let mut base = base;
    let mut n = n;
    while n != 0 {
        if n % 2 == 1 {
            answer *= base;
        }
        n /= 2;
        if n != 0 {
            base *= base;
        }
    }
    answer
}

// powi(0.9, age) for the fifteen ages of a window.
const WEIGHTS: [f64; 15] = [
    1.0,
    0.9,
    0.81,
    0.7290000000000001,
    0.6561000000000001,
    0.5904900000000002,
    0.5314410000000002,
    0.47829690000000014,
    0.43046721000000016,
    0.38742048900000015,
    0.34867844010000015,
    0.31381059609000017,
    0.28242953648100017,
    0.2541865828329002,
    0.22876792454961015,
];

// The weight of an observation of this age; one that the window no longer holds has none.
pub fn weight(age: u64) -> f64
    ensures { result ≡ weight age }
{
    WEIGHTS.get(age as usize).copied().unwrap_or(0.0)
}
