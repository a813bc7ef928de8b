// Packets that are summed up already: codes 5, 2, 3, 10, 11, in this order.
use crate::controllers::{FULL_BYTES, FULL_COUNT, Sums, USUAL};
use crate::values::{COMPLETING, DELAY, LATEST, MOST_COUNT, SOON, TOO_LATE};
use crate::verdict::{Outcome, Tally};
use bandwidth::Bitrate;
use packets::PacketResultsSummary;
use refusal::Refusal;
use std::io;

pub(crate) fn summaries(tally: &mut Tally) -> io::Result<()> {
    let both = Sums {
        count: MOST_COUNT,
        ..FULL_BYTES
    };
    for (sums, time, delay, expected) in [
        (USUAL, SOON, DELAY, None),
        (USUAL, COMPLETING, DELAY, None),
        (USUAL, LATEST, DELAY, None),
        (USUAL, SOON, -1.0, Some(Refusal::Rate)),
        (USUAL, TOO_LATE, DELAY, Some(Refusal::Time)),
        (FULL_BYTES, SOON, DELAY, Some(Refusal::RunningSums)),
        (FULL_COUNT, COMPLETING, DELAY, Some(Refusal::Observations)),
        (USUAL, TOO_LATE, -1.0, Some(Refusal::Rate)),
        (FULL_BYTES, SOON, -1.0, Some(Refusal::Rate)),
        (FULL_COUNT, COMPLETING, -1.0, Some(Refusal::Rate)),
        (FULL_BYTES, TOO_LATE, DELAY, Some(Refusal::Time)),
        (FULL_COUNT, TOO_LATE, DELAY, Some(Refusal::Time)),
        (both, COMPLETING, DELAY, Some(Refusal::RunningSums)),
    ] {
        let start = tally.controller(sums);
        let answer = start.update_with_summary(summary_at(time), Bitrate { bps: delay });
        let delay = float::to_bits(delay);
        let case = format_args!("{sums}, summary at {time}, delay {delay:016x}");
        tally.judge(case, start, Outcome::new(start, answer), expected)?;
    }
    Ok(())
}

// Totals that no report of at most 4,096 packets has, and those on the other side of each limit:
// packets, lost packets, bytes and lost bytes.
pub(crate) fn no_report(tally: &mut Tally) -> io::Result<()> {
    let refused = Some(Refusal::TooManyPackets);
    for (summary, expected) in [
        // 4,096 packets of 9,999,999 bytes, all lost or none, and a byte more
        (totals(4_096, 4_096, 40_959_995_904, 40_959_995_904), None),
        (
            totals(4_096, 4_096, 40_959_995_905, 40_959_995_905),
            refused,
        ),
        (totals(4_096, 0, 40_959_995_904, 0), None),
        (totals(4_096, 0, 40_959_995_905, 0), refused),
        (totals(4_097, 0, 0, 0), refused),
        (totals(5_000, 0, 5_000_000, 0), refused),
        (totals(3, 3, 3_000, 3_000), None),
        (totals(3, 4, 3_000, 3_000), refused),
        (totals(3, 1, 3_000, 3_001), refused),
        (totals(3, 0, 3_000, 1), refused),
        // A packet, a lost one, and two that arrived, of 9,999,999 bytes and of one more
        (totals(1, 0, 9_999_999, 0), None),
        (totals(1, 0, 10_000_000, 0), refused),
        (totals(3, 1, 9_999_999, 9_999_999), None),
        (totals(3, 1, 10_000_000, 10_000_000), refused),
        (totals(3, 1, 19_999_998, 0), None),
        (totals(3, 1, 19_999_999, 0), refused),
        (totals(u64::MAX, u64::MAX, u64::MAX, u64::MAX), refused),
        (totals(0, 0, 1, 0), refused),
        // No packets, but a time
        (totals(0, 0, 0, 0), refused),
        (PacketResultsSummary::EMPTY, None),
    ] {
        tally.totals(USUAL, summary, DELAY, expected)?;
    }
    Ok(())
}

// 5 goes before the others.
pub(crate) fn no_report_first(tally: &mut Tally) -> io::Result<()> {
    let refused = Some(Refusal::TooManyPackets);
    let late = PacketResultsSummary {
        last_send_time: TOO_LATE,
        ..totals(3, 4, 3_000, 3_000)
    };
    let completing = PacketResultsSummary {
        last_send_time: COMPLETING,
        ..late
    };
    tally.totals(USUAL, late, DELAY, refused)?;
    tally.totals(USUAL, late, -1.0, refused)?;
    tally.totals(FULL_BYTES, completing, DELAY, refused)?;
    tally.totals(FULL_COUNT, completing, DELAY, refused)
}

impl Tally {
    fn totals(
        &mut self,
        sums: Sums,
        summary: PacketResultsSummary,
        delay: f64,
        expected: Option<Refusal>,
    ) -> io::Result<()> {
        let PacketResultsSummary {
            num_packets,
            num_lost_packets,
            total_size,
            lost_size,
            last_send_time,
        } = summary;
        let start = self.controller(sums);
        let answer = start.update_with_summary(summary, Bitrate { bps: delay });
        let delay = float::to_bits(delay);
        let case = format_args!(
            "{sums}, totals {num_packets}, {num_lost_packets}, {total_size}, {lost_size} at {last_send_time}, delay {delay:016x}"
        );
        self.judge(case, start, Outcome::new(start, answer), expected)
    }
}

// Three packets of 1,000 bytes.
pub(crate) fn summary_at(last_send_time: u64) -> PacketResultsSummary {
    PacketResultsSummary {
        last_send_time,
        ..totals(3, 0, 3_000, 0)
    }
}

// Totals of packets that complete no observation.
fn totals(
    num_packets: u64,
    num_lost_packets: u64,
    total_size: u64,
    lost_size: u64,
) -> PacketResultsSummary {
    PacketResultsSummary {
        num_packets,
        num_lost_packets,
        total_size,
        lost_size,
        last_send_time: SOON,
    }
}
