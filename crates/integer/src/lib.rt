// Whole numbers that an i64 holds: the definitions are in `specs/`, and what std's checked arithmetic
// and conversions of i64 answer is in `proofs/` in their words. The crate has no code.
#![tactic(auto)]
