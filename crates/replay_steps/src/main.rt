// Replays the controller's steps on stored states. A line of standard input is a state and a
// report's totals, in hexadecimal, and is answered by what each step answers there, and by the state
// after the report. oracle/README.md has the fields in their order, and says how the stored answers
// were made.
#![tactic(auto)]

mod fields;
mod print;
mod report;
mod steps;

use crate::fields::{FIELD, read_controller, read_summary, state_of};
use crate::report::print_report;
use crate::steps::{print_candidates, print_likelihood, print_window};
use std::io;
use streams::Lines;

fn main(rt: HostRuntime) -> io::Result<()> {
    let input = &mut rt.stdin();
    for first in Lines::<_, FIELD>::new(rt.stdin()) {
        let state = state_of(hexadecimal::number(&first?[0..16]));
        let controller = read_controller(input, state)?;
        let summary = read_summary(input)?;
        print_window(&rt, controller)?;
        print_likelihood(&rt, controller)?;
        print_candidates(&rt, controller)?;
        print_report(&rt, controller, summary)?;
    }
    Ok(())
}
