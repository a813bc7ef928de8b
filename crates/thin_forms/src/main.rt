// The thin forms of the report beside the call by value, on one controller of each profile, report
// after report. A line has the call's refusal, and whether each form answered the same and left the
// same behind.
#![tactic(auto)]

ghost use Rattle.std.specs.Prelude.{◌≡◌, Ok};
ghost use Rattle.std.specs.Result.{result_unwrap_or};
ghost use Rattle.refusal.specs.Outcome.{and_then};
ghost use Rattle.loss_controller.specs.Report.{update_bandwidth_estimate};
ghost use Rattle.lent.specs.Records.{update_records};

use bandwidth::Bitrate;
use loss_controller::LossController;
use packets::{PacketResult, PacketSize};
use refusal::Refusal;
use std::io;

// A report's packets: when they were sent, their bytes, and 1 for those that are lost
#[derive(Clone, Copy)]
struct Columns<'a> {
    times: &'a [u64],
    sizes: &'a [PacketSize],
    flags: &'a [u8],
}

// What a call answered, and the controller that it left
#[derive(Clone, Copy)]
struct Outcome {
    answer: Result<(), Refusal>,
    controller: LossController,
}

// A controller as its reports so far left it, and where they are told
#[derive(Clone, Copy)]
struct Course<'a> {
    out: &'a HostRuntime,
    controller: LossController,
}

fn main(rt: HostRuntime) -> io::Result<()> {
    println!(rt; "by bytes")?;
    Course::new(&rt, LossController::new()).forms()?;
    println!(rt; "by packets")?;
    Course::new(&rt, LossController::with_profile(false)).forms()
}

impl<'a> Course<'a> {
    fn new(out: &'a HostRuntime, new: LossController) -> Course<'a> {
        let set = new.set_bandwidth_estimate(Bitrate { bps: 1.0e6 });
        Course {
            out,
            controller: set.unwrap_or(new),
        }
    }

    fn forms(&mut self) -> io::Result<()> {
        self.sent_at(0)?;
        self.sent_at(300_000_000)?;
        self.sent_at(600_000_000)?;
        // 3, 17, 8, 2 and 4
        self.sent_at(4_000_000_000_000_000_001)?;
        let large = [(1_200, 1), (10_000_000, 0), (400, 0)];
        self.reported(packets(700_000_000, large), 2.0e6)?;
        let flagged = [(1_200, 1), (800, 2), (400, 0)];
        self.reported(packets(700_000_000, flagged), 2.0e6)?;
        let usual = packets(700_000_000, [(1_200, 1), (800, 0), (400, 1)]);
        self.reported(usual, -1.0)?;
        self.unequal()?;
        // 5, 10 and 11
        self.too_many()?;
        let mut full = *self;
        full.controller.observations.partial_observation.size = 1_000_000_000_000;
        full.sent_at(900_000_000)?;
        let mut full = *self;
        full.controller.observations.num_observations = 1_000_000_000;
        full.sent_at(900_000_000)?;
        self.reported(usual, f64::INFINITY)?;
        self.sent_at(900_000_000)?;
        self.sent_at(1_000_000_000)?;
        // What the reports came to, so that forms which agree in doing nothing are told.
        let count = self.controller.observations.num_observations;
        let size = self.controller.observations.partial_observation.size;
        println!(self.out; "observations {count}, running bytes {size}")
    }

    // The second packet was sent long before.
    fn sent_at(&mut self, time: u64) -> io::Result<()> {
        let mut packets = packets(time, [(1_200, 0), (800, 1), (9_999_999, 0)]);
        packets[1].local_send_time = 5;
        self.reported(packets, 2.0e6)
    }

    fn reported(&mut self, packets: [PacketResult; 3], bps: f64) -> io::Result<()> {
        let columns = Columns {
            times: &packets.map(|packet| packet.local_send_time),
            sizes: &packets.map(|packet| packet.size),
            flags: &packets.map(|packet| packet.lost),
        };
        let delay = Bitrate { bps };
        let (by_value, lent) = by_columns(self.controller, columns, delay);
        let answer = of_records(self.controller, packets, delay);
        let records = by_value.same(Outcome::new(self.controller, answer));
        self.controller = by_value.controller;
        println!(self.out;
            "refusal {}, lent {lent}, records {records}",
            by_value.code()
        )
    }

    // Columns of unequal length, which records do not have.
    fn unequal(&mut self) -> io::Result<()> {
        self.columns_alone(Columns {
            times: &[800_000_000, 800_000_001, 800_000_002],
            sizes: &[1_200, 800],
            flags: &[0, 1, 0],
        })
    }

    // One packet more than a report may have. `of_records` lends an array of three: what
    // `update_records` does with 4,097 is its contract's.
    fn too_many(&mut self) -> io::Result<()> {
        self.columns_alone(Columns {
            times: &[800_000_000; 4_097],
            sizes: &[1_200; 4_097],
            flags: &[0; 4_097],
        })
    }

    fn columns_alone(&mut self, columns: Columns) -> io::Result<()> {
        let (by_value, lent) = by_columns(self.controller, columns, Bitrate { bps: 2.0e6 });
        self.controller = by_value.controller;
        println!(self.out; "refusal {}, lent {lent}", by_value.code())
    }
}

// Packets that were sent at a time, each by its size and its flag.
fn packets(local_send_time: u64, packets: [(PacketSize, u8); 3]) -> [PacketResult; 3] {
    packets.map(|(size, lost)| PacketResult {
        local_send_time,
        size,
        lost,
    })
}

// The call by value, and whether the lent form does the same.
fn by_columns(
    controller: LossController,
    columns: Columns,
    delay: Bitrate,
) -> (Outcome, &'static str) {
    let Columns {
        times,
        sizes,
        flags,
    } = columns;
    let answer = controller.update_bandwidth_estimate(times, sizes, flags, delay);
    let by_value = Outcome::new(controller, answer);
    (by_value, by_value.same(by_loan(controller, columns, delay)))
}

// The lent form, on a controller of its own.
fn by_loan(controller: LossController, columns: Columns, delay: Bitrate) -> Outcome
    ensures answer { result.answer
        ≡ and_then (update_bandwidth_estimate controller columns.entry.times.now columns.entry.sizes.now columns.entry.flags.now delay) (λ _. Ok tt) }
    ensures left { result.controller
        ≡ result_unwrap_or (update_bandwidth_estimate controller columns.entry.times.now columns.entry.sizes.now columns.entry.flags.now delay) controller }
{
    let mut own = controller;
    let Columns {
        times,
        sizes,
        flags,
    } = columns;
    let answer = lent::update_lent(&mut own, times, sizes, flags, delay);
    Outcome {
        answer,
        controller: own,
    }
}

// The form over packet records, on an array that is lent.
fn of_records(
    controller: LossController,
    records: [PacketResult; 3],
    delay: Bitrate,
) -> Result<LossController, Refusal>
    ensures { result ≡ update_records controller records delay }
{
    lent::update_records(controller, &records, delay)
}

impl Outcome {
    // Of a call by value: a call that is refused leaves the controller that its caller has.
    fn new(before: LossController, answer: Result<LossController, Refusal>) -> Outcome {
        Outcome {
            answer: answer.map(|_| ()),
            controller: answer.unwrap_or(before),
        }
    }

    fn code(self) -> u8 {
        refusal::number(&self.answer)
    }

    fn same(self, other: Outcome) -> &'static str {
        let changes = comparison::compared(self.controller, other.controller);
        if self.answer == other.answer && changes.is_none() {
            "same"
        } else {
            "OTHER"
        }
    }
}
