// The order of the codes of a report.
use crate::controllers::{FULL, FULL_COUNT, FULL_PACKETS, Sums, USUAL};
use crate::reports::{Report, completing, marked, packets, send};
use crate::values::{COMPLETING, DELAY, MOST_COUNT};
use crate::verdict::Tally;
use refusal::Refusal;
use std::io;

// What a report is refused for, in document 01's order
const REASONS: [Refusal; 8] = [
    Refusal::UnequalColumns,
    Refusal::TooManyPackets,
    Refusal::Rate,
    Refusal::Time,
    Refusal::PacketSize,
    Refusal::Flag,
    Refusal::RunningSums,
    Refusal::Observations,
];

pub(crate) fn alone(tally: &mut Tally) -> io::Result<()> {
    tally.report(packets(3), None)?;
    tally.report(completing(3), None)?;
    for reason in REASONS {
        tally.pair(reason, None)?;
    }
    Ok(())
}

pub(crate) fn pairs(tally: &mut Tally) -> io::Result<()> {
    for (i, first) in REASONS.iter().enumerate() {
        for second in &REASONS[i + 1..] {
            tally.pair(*first, Some(*second))?;
        }
    }
    // 10 by packets
    let full = Sums {
        count: MOST_COUNT,
        ..FULL_PACKETS
    };
    tally.report_to(full, completing(3), Some(Refusal::RunningSums))
}

// All codes at once, 4 by the flags and by the sizes; then each time the first of them goes.
pub(crate) fn chain(tally: &mut Tally) -> io::Result<()> {
    let mut report = marked(Some(1), Some(1), Some(1));
    report.times.value = COMPLETING;
    report.delay = -1.0;
    report = report.with_lengths(4_097, 4_097, 3);
    tally.report_to(FULL, report, Some(Refusal::UnequalColumns))?;
    report = report.with_lengths(4_097, 3, 4_097);
    tally.report_to(FULL, report, Some(Refusal::UnequalColumns))?;
    report = report.with_lengths(4_097, 4_097, 4_097);
    tally.report_to(FULL, report, Some(Refusal::TooManyPackets))?;
    report = report.with_lengths(3, 3, 3);
    tally.report_to(FULL, report, Some(Refusal::Rate))?;
    report.delay = DELAY;
    tally.report_to(FULL, report, Some(Refusal::Time))?;
    report.times.odd = None;
    tally.report_to(FULL, report, Some(Refusal::PacketSize))?;
    report.sizes.odd = None;
    tally.report_to(FULL, report, Some(Refusal::Flag))?;
    report.flags.odd = None;
    tally.report_to(FULL, report, Some(Refusal::RunningSums))?;
    tally.report_to(FULL_COUNT, report, Some(Refusal::Observations))
}

// The first packet that has a code wins, and in one packet 3 comes before 17, and 17 before 8.
pub(crate) fn packet_by_packet(tally: &mut Tally) -> io::Result<()> {
    for (time, size, flag, expected) in [
        (Some(0), None, Some(0), Refusal::Time),
        (Some(0), None, Some(1), Refusal::Time),
        (Some(0), None, Some(2), Refusal::Time),
        (Some(1), None, Some(2), Refusal::Time),
        (Some(1), None, Some(0), Refusal::Flag),
        (Some(2), None, Some(0), Refusal::Flag),
        (Some(2), None, Some(1), Refusal::Flag),
        (Some(2), None, Some(2), Refusal::Time),
        (Some(0), Some(0), None, Refusal::Time),
        (Some(0), Some(1), None, Refusal::Time),
        (Some(1), Some(0), None, Refusal::PacketSize),
        (Some(2), Some(2), None, Refusal::Time),
        (None, Some(0), Some(0), Refusal::PacketSize),
        (None, Some(0), Some(1), Refusal::PacketSize),
        (None, Some(1), Some(0), Refusal::Flag),
        (None, Some(2), Some(2), Refusal::PacketSize),
        (Some(0), Some(0), Some(0), Refusal::Time),
        (Some(2), Some(2), Some(2), Refusal::Time),
        (Some(0), Some(1), Some(2), Refusal::Time),
        (Some(0), Some(2), Some(1), Refusal::Time),
        (Some(1), Some(0), Some(2), Refusal::PacketSize),
        (Some(2), Some(0), Some(1), Refusal::PacketSize),
        (Some(1), Some(2), Some(0), Refusal::Flag),
        (Some(2), Some(1), Some(0), Refusal::Flag),
        (Some(2), None, None, Refusal::Time),
        (None, Some(2), None, Refusal::PacketSize),
        (None, None, Some(2), Refusal::Flag),
    ] {
        tally.report(marked(time, size, flag), Some(expected))?;
    }
    Ok(())
}

impl Tally {
    // A report that has both reasons, from its packets or from the controller, and gets the first.
    fn pair(&mut self, first: Refusal, second: Option<Refusal>) -> io::Result<()> {
        let mut sums = USUAL;
        let mut report = packets(3);
        for reason in second.iter().chain(&[first]) {
            sums = sums.with_reason(*reason);
            report = report.with_reason(*reason);
        }
        let start = self.controller(sums);
        let outcome = send(report, start);
        let (code, other_code) = (u8::from(first), second.map_or(0, u8::from));
        let case = format_args!("codes {code} and {other_code}");
        self.judge(case, start, outcome, Some(first))
    }
}
