// The history behind demand 3 is in `specs/`. The crate has no code.
#![tactic(auto)]
