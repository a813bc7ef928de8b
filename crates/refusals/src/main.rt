// Drives the refusals of the controller's calls: each code of document 01 alone, each two that one
// report can earn together, the values on both sides of each limit. A line is a case: its name, the
// code that it got, the code that document 01 gives it, and whether the controller is the same
// after it or which of its parts changed; after a call that is taken, what the controller holds.
// The last line counts the cases, and those that got another code or, refused, did not leave the
// controller as it was. All of it comes twice, by bytes and by packets.
#![tactic(auto)]

mod calls;
mod controllers;
mod limits;
mod order;
mod reports;
mod summaries;
mod values;
mod verdict;

use crate::calls::{options, rates};
use crate::limits::{
    bytes_limit, columns, count_limit, empty_reports, longest_reports, odd_packets, packets_limit,
    times_at_full_count,
};
use crate::order::{alone, chain, packet_by_packet, pairs};
use crate::summaries::{no_report, no_report_first, summaries};
use crate::verdict::Tally;
use std::io;

fn main(rt: HostRuntime) -> io::Result<()> {
    let mut tally = Tally {
        out: rt.stdout(),
        use_byte_loss_ratio: true,
        cases: 0,
        mismatches: 0,
    };
    println!(rt; "by bytes")?;
    all_cases(&mut tally)?;
    println!(rt; "by packets")?;
    tally.use_byte_loss_ratio = false;
    all_cases(&mut tally)?;
    println!(rt; "cases {}, mismatches {}", tally.cases, tally.mismatches)
}

fn all_cases(tally: &mut Tally) -> io::Result<()> {
    alone(tally)?;
    pairs(tally)?;
    chain(tally)?;
    packet_by_packet(tally)?;
    columns(tally)?;
    longest_reports(tally)?;
    odd_packets(tally)?;
    bytes_limit(tally)?;
    packets_limit(tally)?;
    count_limit(tally)?;
    times_at_full_count(tally)?;
    empty_reports(tally)?;
    rates(tally)?;
    options(tally)?;
    summaries(tally)?;
    no_report(tally)?;
    no_report_first(tally)
}
