// What a case came to, printed and counted.
use crate::controllers::{Sums, controller};
use comparison::Changes;
use loss_controller::LossController;
use refusal::Refusal;
use std::fmt;
use std::io::{self, Stdout};

// What a call answered, and the controller that it left.
#[derive(Clone, Copy)]
pub(crate) struct Outcome {
    pub(crate) answer: Result<(), Refusal>,
    pub(crate) controller: LossController,
}

impl Outcome {
    // Of a call by value: where it is refused its caller has the controller of before.
    pub(crate) fn new(start: LossController, answer: Result<LossController, Refusal>) -> Outcome {
        Outcome {
            answer: answer.map(|_| ()),
            controller: answer.unwrap_or(start),
        }
    }
}

// The cases so far, the profile of the controllers that they are put to, and where they are told.
#[derive(Drop)]
pub(crate) struct Tally {
    pub(crate) out: Stdout,
    pub(crate) use_byte_loss_ratio: bool,
    pub(crate) cases: u64,
    pub(crate) mismatches: u64,
}

impl Tally {
    pub(crate) fn controller(&self, sums: Sums) -> LossController {
        controller(self.use_byte_loss_ratio, sums)
    }

    pub(crate) fn judge(
        &mut self,
        case: impl fmt::Display + Drop,
        start: LossController,
        outcome: Outcome,
        expected: Option<Refusal>,
    ) -> io::Result<()> {
        let Outcome { answer, controller } = outcome;
        let refusal = answer.err();
        let code = refusal::number(&answer);
        let expected_code = expected.map_or(0, u8::from);
        print!(self.out; "{case}: {code}, expected {expected_code}, ")?;
        let changes = comparison::compared(start, controller);
        match refusal {
            None => println!(self.out; "{}; {}", Told(changes), Held(controller))?,
            Some(_) => println!(self.out; "{}", Told(changes))?,
        }
        self.cases = self.cases.wrapping_add(1);
        let is_left = refusal.is_none() || changes.is_none();
        if refusal != expected || !is_left {
            self.mismatches = self.mismatches.wrapping_add(1);
        }
        Ok(())
    }
}

// What the controller holds after a call that is taken.
#[derive(Clone, Copy)]
struct Held(LossController);

impl fmt::Display for Held {
    fn fmt<W: fmt::Write>(&self, f: &mut fmt::Formatter<W>) -> fmt::Result {
        let observations = self.0.observations;
        let sums = Sums {
            count: observations.num_observations,
            packets: observations.partial_observation.num_packets,
            bytes: observations.partial_observation.size,
        };
        let delay = self.0.inputs.delay_based_estimate.to_bits();
        write!(f, "{sums}, delay {delay:016x}")
    }
}

#[derive(Clone, Copy)]
struct Told(Changes);

impl fmt::Display for Told {
    fn fmt<W: fmt::Write>(&self, f: &mut fmt::Formatter<W>) -> fmt::Result {
        let changes = self.0;
        if changes.is_none() {
            return f.write_str("same");
        }
        f.write_str("changed:")?;
        let parts = [
            (changes.profile, " profile"),
            (changes.sums, " sums"),
            (changes.time, " time"),
            (changes.count, " count"),
            (changes.window, " window"),
            (changes.ceiling, " ceiling"),
            (changes.estimator, " estimator"),
            (changes.acknowledged, " acknowledged"),
            (changes.delay, " delay"),
            (changes.alr, " ALR"),
            (changes.capacity, " capacity"),
        ];
        for (is_changed, name) in parts {
            if is_changed {
                f.write_str(name)?;
            }
        }
        Ok(())
    }
}
