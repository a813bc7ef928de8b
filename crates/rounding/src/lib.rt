// The laws of rounding are in `proofs/`, what they speak of in `specs/`. The crate has no code.
#![tactic(auto)]
