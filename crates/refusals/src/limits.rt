// Reports at each limit: codes 4 and 5, 3, 17 and 8, 10, 11, and reports without packets.
use crate::controllers::{FULL, FULL_BYTES, FULL_COUNT, FULL_PACKETS, Sums, USUAL};
use crate::reports::{Report, completing, packets, send};
use crate::values::{
    COMPLETING, LARGEST, LATEST, MOST_BYTES, MOST_COUNT, MOST_PACKETS, NO_FLAG, TOO_LARGE, TOO_LATE,
};
use crate::verdict::Tally;
use bandwidth::Bitrate;
use refusal::Refusal;
use std::io;
use time::Timestamp;

// ---- 4 and 5

pub(crate) fn columns(tally: &mut Tally) -> io::Result<()> {
    tally.report(packets(3), None)?;
    for (times, sizes, flags) in [
        (3, 2, 3),
        (3, 4, 3),
        (3, 0, 3),
        (3, 3, 2),
        (3, 3, 4),
        (3, 3, 0),
        (2, 3, 3),
        (4, 3, 3),
        (0, 3, 3),
        (3, 0, 0),
        (0, 3, 0),
        (0, 0, 3),
        (1, 2, 3),
        (4_096, 4_097, 4_096),
        (4_096, 4_096, 4_097),
        (4_097, 4_096, 4_096),
        (4_097, 4_096, 4_097),
        (4_097, 4_097, 4_096),
    ] {
        let report = packets(3).with_lengths(times, sizes, flags);
        tally.report(report, Some(Refusal::UnequalColumns))?;
    }
    Ok(())
}

pub(crate) fn longest_reports(tally: &mut Tally) -> io::Result<()> {
    let refused = Some(Refusal::TooManyPackets);
    tally.report(packets(4_096), None)?;
    tally.report(packets(4_097), refused)?;
    let mut most = completing(4_096);
    let mut more = completing(4_097);
    tally.report(most, None)?;
    tally.report(more, refused)?;
    most.times.odd = Some((4_095, TOO_LATE));
    more.times.odd = Some((4_096, TOO_LATE));
    tally.report(most, Some(Refusal::Time))?;
    tally.report(more, refused)?;
    most.times.odd = None;
    most.sizes.odd = Some((4_095, TOO_LARGE));
    tally.report(most, Some(Refusal::PacketSize))?;
    most.sizes.odd = None;
    most.flags.odd = Some((4_095, NO_FLAG));
    tally.report(most, Some(Refusal::Flag))
}

// ---- 3, 17 and 8

pub(crate) fn odd_packets(tally: &mut Tally) -> io::Result<()> {
    let refused = Some(Refusal::Time);
    for (time, expected) in [
        (LATEST, None),
        (TOO_LATE, refused),
        (u64::MAX, refused),
        (0, None),
    ] {
        let mut report = packets(3);
        report.times.odd = Some((1, time));
        tally.report(report, expected)?;
    }
    let refused = Some(Refusal::PacketSize);
    for (size, expected) in [
        (65_536, None),
        (LARGEST, None),
        (TOO_LARGE, refused),
        (u32::MAX, refused),
    ] {
        let mut report = packets(3);
        report.sizes.odd = Some((1, size));
        tally.report(report, expected)?;
    }
    let refused = Some(Refusal::Flag);
    for (flag, expected) in [(1, None), (NO_FLAG, refused), (u8::MAX, refused)] {
        let mut report = packets(3);
        report.flags.odd = Some((1, flag));
        tally.report(report, expected)?;
    }
    Ok(())
}

// ---- 10

pub(crate) fn bytes_limit(tally: &mut Tally) -> io::Result<()> {
    let refused = Some(Refusal::RunningSums);
    let mut empty = packets(3);
    empty.sizes.value = 0;
    // 40,959,995,904 bytes
    let mut heaviest = packets(4_096);
    heaviest.sizes.value = LARGEST;
    for (bytes, report, expected) in [
        (999_999_997_000, packets(3), None),
        (999_999_997_001, packets(3), refused),
        (999_999_997_000, completing(3), None),
        (999_999_997_001, completing(3), refused),
        (MOST_BYTES, empty, None),
        (1_000_000_000_001, empty, refused),
        (959_040_004_096, heaviest, None),
        (959_040_004_097, heaviest, refused),
    ] {
        tally.report_to(Sums { bytes, ..USUAL }, report, expected)?;
    }
    frames_limit(tally)?;
    let most = Sums {
        bytes: u64::MAX,
        ..USUAL
    };
    tally.report_to(most, packets(3), refused)
}

// 100,000 frames of 9,999,999 bytes leave room for 100,000 bytes.
fn frames_limit(tally: &mut Tally) -> io::Result<()> {
    let refused = Some(Refusal::RunningSums);
    let frames = Sums {
        packets: 100_000,
        bytes: 999_999_900_000,
        ..USUAL
    };
    let before = Sums {
        packets: 99_999,
        bytes: 999_989_900_001,
        ..USUAL
    };
    for (sums, size, expected) in [
        (before, LARGEST, None),
        (frames, LARGEST, refused),
        (frames, 100_000, None),
        (frames, 100_001, refused),
    ] {
        let mut frame = packets(1);
        frame.sizes.value = size;
        tally.report_to(sums, frame, expected)?;
    }
    Ok(())
}

pub(crate) fn packets_limit(tally: &mut Tally) -> io::Result<()> {
    let refused = Some(Refusal::RunningSums);
    for (packets, report, expected) in [
        (999_999_997, packets(3), None),
        (999_999_998, packets(3), refused),
        (999_999_997, completing(3), None),
        (999_999_998, completing(3), refused),
        (MOST_PACKETS, packets(1), refused),
        (u64::MAX, packets(3), refused),
    ] {
        tally.report_to(Sums { packets, ..USUAL }, report, expected)?;
    }
    let both = Sums {
        packets: 999_999_997,
        bytes: 999_999_997_000,
        ..USUAL
    };
    tally.report_to(both, packets(3), None)
}

// ---- 11

pub(crate) fn count_limit(tally: &mut Tally) -> io::Result<()> {
    let refused = Some(Refusal::Observations);
    for (count, expected) in [
        (999_999_999, None),
        (MOST_COUNT, refused),
        (1_000_000_001, refused),
        (u64::MAX, refused),
    ] {
        let sums = Sums { count, ..USUAL };
        tally.report_to(sums, completing(3), expected)?;
        tally.report_to(sums, packets(3), None)?;
    }
    Ok(())
}

// What completes an observation, and so gets 11, and what does not
pub(crate) fn times_at_full_count(tally: &mut Tally) -> io::Result<()> {
    let refused = Some(Refusal::Observations);
    // 250 ms, and a late report
    for (time, expected) in [(10_250_000_000, None), (LATEST, refused), (0, None)] {
        let mut report = packets(3);
        report.times.value = time;
        tally.report_to(FULL_COUNT, report, expected)?;
    }
    let full = tally.controller(FULL_COUNT);
    let mut first = full;
    first.observations.last_send_time_most_recent_observation = Timestamp::DistantFuture;
    tally.judge("the first report", first, send(completing(3), first), None)?;
    let mut unset = full;
    unset.estimator.current_estimate.loss_limited_bandwidth = Bitrate::NEG_INFINITY;
    let outcome = send(completing(3), unset);
    tally.judge("without an estimate", unset, outcome, refused)
}

// ---- a report without packets: never 10 or 11

pub(crate) fn empty_reports(tally: &mut Tally) -> io::Result<()> {
    tally.report(packets(0), None)?;
    for sums in [
        FULL_BYTES,
        FULL_PACKETS,
        FULL_COUNT,
        FULL,
        Sums {
            count: u64::MAX,
            packets: u64::MAX,
            bytes: u64::MAX,
        },
    ] {
        tally.report_to(sums, packets(0), None)?;
    }
    let negative = Report {
        delay: -1.0,
        ..packets(0)
    };
    tally.report_to(FULL, negative, Some(Refusal::Rate))
}
