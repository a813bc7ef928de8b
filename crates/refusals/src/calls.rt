// Code 2 at each call that takes a rate, and the setters that take an option.
use crate::controllers::USUAL;
use crate::reports::{Report, packets, send};
use crate::summaries::summary_at;
use crate::values::{LATEST, SOON, TOO_LATE};
use crate::verdict::{Outcome, Tally};
use bandwidth::Bitrate;
use loss_controller::LossController;
use refusal::Refusal;
use std::io;

// ---- 2, at each call that takes a rate

pub(crate) fn rates(tally: &mut Tally) -> io::Result<()> {
    tally.rates(
        "estimate",
        |start, rate| Outcome::new(start, start.set_bandwidth_estimate(rate)),
    )?;
    tally.rates(
        "acknowledged",
        |start, rate| Outcome::new(start, start.set_acknowledged_bitrate(rate)),
    )?;
    tally.rates(
        "link capacity",
        |start, rate| Outcome::new(start, start.set_link_capacity_estimate(Some(rate))),
    )?;
    tally.rates("report with delay", |start, rate| send_with(3, start, rate))?;
    tally.rates(
        "empty report with delay",
        |start, rate| send_with(0, start, rate),
    )?;
    tally.rates(
        "summary with delay",
        |start, rate| Outcome::new(start, start.update_with_summary(summary_at(SOON), rate)),
    )
}

fn send_with(n: usize, start: LossController, rate: Bitrate) -> Outcome {
    let report = Report {
        delay: rate.bps,
        ..packets(n)
    };
    send(report, start)
}

// ---- the setters that take an option

pub(crate) fn options(tally: &mut Tally) -> io::Result<()> {
    let on = tally.controller(USUAL);
    let mut off = on;
    off.inputs.alr_start_time = None;
    off.inputs.link_capacity_estimate = None;
    for start in [on, off] {
        tally.alr(start, LATEST, None)?;
        tally.alr(start, TOO_LATE, Some(Refusal::Time))?;
        tally.alr(start, u64::MAX, Some(Refusal::Time))?;
        tally.alr(start, 0, None)?;
    }
    for start in [on, off] {
        let off = Outcome::new(start, start.set_alr_start_time(None));
        tally.judge("ALR off", start, off, None)?;
        let none = Outcome::new(start, start.set_link_capacity_estimate(None));
        tally.judge("no link capacity", start, none, None)?;
    }
    Ok(())
}

impl Tally {
    fn rates<F: Fn(LossController, Bitrate) -> Outcome>(
        &mut self,
        name: &str,
        call: F,
    ) -> io::Result<()>
        requires { F.IsAlwaysCallable call }
    {
        let start = self.controller(USUAL);
        let refused = Some(Refusal::Rate);
        for (bits, expected) in [
            // 0.0 and 10^15; the float above it, and the largest
            (0, None),
            (0x430C_6BF5_2634_0000, None),
            (0x430C_6BF5_2634_0001, refused),
            (0x7FEF_FFFF_FFFF_FFFF, refused),
            // -0.0, the float below it, -1.0 and -10^15
            (0x8000_0000_0000_0000, refused),
            (0x8000_0000_0000_0001, refused),
            (0xBFF0_0000_0000_0000, refused),
            (0xC30C_6BF5_2634_0000, refused),
            // The infinities and NaN
            (0x7FF0_0000_0000_0000, None),
            (0xFFF0_0000_0000_0000, None),
            (0x7FF8_0000_0000_0000, None),
        ] {
            let case = format_args!("{name} {bits:016x}");
            let outcome = call(start, Bitrate::from_bits(bits));
            self.judge(case, start, outcome, expected)?;
        }
        Ok(())
    }

    fn alr(
        &mut self,
        start: LossController,
        time: u64,
        expected: Option<Refusal>,
    ) -> io::Result<()> {
        let case = format_args!("ALR on at {time}");
        let outcome = Outcome::new(start, start.set_alr_start_time(Some(time)));
        self.judge(case, start, outcome, expected)
    }
}
