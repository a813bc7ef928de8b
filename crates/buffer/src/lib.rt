// Bytes laid into a lent buffer: the definition is in `specs/`, its laws in `proofs/`. The crate has
// no code.
#![tactic(auto)]
