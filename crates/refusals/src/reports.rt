// Reports of packets, how they are sent and how they are printed.
use crate::controllers::{Sums, USUAL};
use crate::values::{COMPLETING, DELAY, NO_FLAG, SOON, TOO_LARGE, TOO_LATE};
use crate::verdict::{Outcome, Tally};
use bandwidth::Bitrate;
use loss_controller::LossController;
use packets::PacketSize;
use refusal::Refusal;
use std::{fmt, io};

// The most places that a column has
const PLACES: usize = 4_097;

// The same value in each place of a column, but for an odd one at a place of its own
#[derive(Clone, Copy)]
pub(crate) struct Column<T> {
    pub(crate) length: usize,
    pub(crate) value: T,
    pub(crate) odd: Option<(usize, T)>,
}

// Packets in three columns: when they were sent, their bytes, and 1 for those that are lost
#[derive(Clone, Copy)]
pub(crate) struct Report {
    pub(crate) times: Column<u64>,
    pub(crate) sizes: Column<PacketSize>,
    pub(crate) flags: Column<u8>,
    pub(crate) delay: f64,
}

// So many packets of 1,000 bytes that arrived, too soon to complete an observation.
pub(crate) fn packets(length: usize) -> Report {
    Report {
        times: Column::new(length, SOON),
        sizes: Column::new(length, 1_000),
        flags: Column::new(length, 0),
        delay: DELAY,
    }
}

// So many packets that complete an observation.
pub(crate) fn completing(n: usize) -> Report {
    let mut report = packets(n);
    report.times.value = COMPLETING;
    report
}

// Three packets with a time, a size and a flag that is refused at these places.
pub(crate) fn marked(time: Option<usize>, size: Option<usize>, flag: Option<usize>) -> Report {
    let mut report = packets(3);
    report.times.odd = time.map(|place| (place, TOO_LATE));
    report.sizes.odd = size.map(|place| (place, TOO_LARGE));
    report.flags.odd = flag.map(|place| (place, NO_FLAG));
    report
}

impl Report {
    // With columns of these lengths
    pub(crate) fn with_lengths(mut self, times: usize, sizes: usize, flags: usize) -> Report {
        self.times.length = times;
        self.sizes.length = sizes;
        self.flags.length = flags;
        self
    }

    // With what earns the refusal, as far as it lies in the report
    pub(crate) fn with_reason(mut self, reason: Refusal) -> Report {
        match reason {
            Refusal::Rate => self.delay = -1.0,
            Refusal::Time => self.times.odd = Some((1, TOO_LATE)),
            Refusal::UnequalColumns => self.sizes.length = 2,
            Refusal::TooManyPackets => self = self.with_lengths(PLACES, PLACES, PLACES),
            Refusal::Flag => self.flags.odd = Some((1, NO_FLAG)),
            Refusal::Observations => self.times.value = COMPLETING,
            Refusal::PacketSize => self.sizes.odd = Some((1, TOO_LARGE)),
            _ => {}
        }
        self
    }
}

impl<T: Copy> Column<T> {
    // With nothing odd yet
    fn new(length: usize, value: T) -> Column<T> {
        Column {
            length,
            value,
            odd: None,
        }
    }

    fn filled(self) -> [T; PLACES] {
        let mut column = [self.value; PLACES];
        if let Some((place, odd)) = self.odd
            && place < PLACES
        {
            column[place] = odd;
        }
        column
    }
}

// To a controller that is lent, so that one which a refused report changes shows.
pub(crate) fn send(report: Report, mut controller: LossController) -> Outcome {
    let times = report.times.filled();
    let sizes = report.sizes.filled();
    let flags = report.flags.filled();
    let answer = lent::update_lent(
        &mut controller,
        &times[..report.times.length.min(PLACES)],
        &sizes[..report.sizes.length.min(PLACES)],
        &flags[..report.flags.length.min(PLACES)],
        Bitrate { bps: report.delay },
    );
    Outcome { answer, controller }
}

impl fmt::Display for Report {
    fn fmt<W: fmt::Write>(&self, f: &mut fmt::Formatter<W>) -> fmt::Result {
        let Report {
            times,
            sizes,
            flags,
            delay,
        } = *self;
        write!(
            f,
            "report of {}, {}, {} packets",
            times.length, sizes.length, flags.length
        )?;
        write!(f, " of {} bytes at {}", sizes.value, times.value)?;
        if let Some((place, time)) = times.odd {
            write!(f, ", packet {place} at {time}")?;
        }
        if let Some((place, size)) = sizes.odd {
            write!(f, ", packet {place} of {size} bytes")?;
        }
        if let Some((place, flag)) = flags.odd {
            write!(f, ", packet {place} with flag {flag}")?;
        }
        write!(f, ", delay {:016x}", float::to_bits(delay))
    }
}

impl Tally {
    pub(crate) fn report(&mut self, report: Report, expected: Option<Refusal>) -> io::Result<()> {
        let start = self.controller(USUAL);
        self.judge(report, start, send(report, start), expected)
    }

    // A report to a controller with this count and these running sums.
    pub(crate) fn report_to(
        &mut self,
        sums: Sums,
        report: Report,
        expected: Option<Refusal>,
    ) -> io::Result<()> {
        let start = self.controller(sums);
        let case = format_args!("{sums}, {report}");
        self.judge(case, start, send(report, start), expected)
    }
}
