// Replays stored calls of the controller. A line of standard input is a call, in hexadecimal, and is
// answered by its refusal and what the controller reads after it. oracle/README.md has the fields in
// their order, and says how the stored answers were made.
#![tactic(auto)]

use arrayvec::{ArrayVec, CapacityError};
use bandwidth::Bitrate;
use loss_controller::LossController;
use packets::{PacketResult, PacketSize};
use refusal::Refusal;
use std::{fmt, io};
use stored_fields::Pair;
use streams::Lines;

// The bytes of a line: four times sixteen digits, a space or the newline behind each
const LINE: usize = 68;

// The queue's places
const PLACES: usize = packets::MOST_PACKETS_IN_REPORT;

#[derive(Clone, Copy)]
struct Call {
    kind: u64,
    a: u64,
    b: u64,
    c: u64,
}

// The packets for the next report, in its three columns
#[derive(Drop)]
struct Queue {
    times: ArrayVec<u64, PLACES>,
    sizes: ArrayVec<PacketSize, PLACES>,
    flags: ArrayVec<u8, PLACES>,
}

// The controller and the queue
#[derive(Drop)]
struct Machine {
    controller: LossController,
    queue: Queue,
}

fn main(rt: HostRuntime) -> io::Result<()> {
    let mut machine = Machine::new();
    for line in Lines::<_, LINE>::new(rt.stdin()) {
        let outcome = machine.take(Call::from(line?));
        let controller = machine.controller;
        println!(rt;
            "{}",
            Answer {
                outcome,
                controller
            }
        )?;
    }
    Ok(())
}

// ---- calls

impl From<[u8; LINE]> for Call {
    fn from(line: [u8; LINE]) -> Call {
        Call {
            kind: hexadecimal::number(&line[0..16]),
            a: hexadecimal::number(&line[17..33]),
            b: hexadecimal::number(&line[34..50]),
            c: hexadecimal::number(&line[51..67]),
        }
    }
}

impl Call {
    fn rate(self) -> Bitrate {
        Bitrate::from_bits(self.a)
    }

    fn packet(self) -> PacketResult {
        PacketResult {
            local_send_time: self.a,
            size: (self.c % 0x1_0000_0000) as PacketSize,
            // A number that is no byte is no flag either.
            lost: u8::try_from(self.b).unwrap_or(u8::MAX),
        }
    }

    fn flag(self) -> Result<bool, Refusal> {
        match self.b {
            0 => Ok(false),
            1 => Ok(true),
            _ => Err(Refusal::Flag),
        }
    }

    // The value where the flag says that there is one
    fn option<T: Drop>(self, value: T) -> Result<Option<T>, Refusal> {
        Ok(self.flag()?.then_some(value))
    }

    // By bytes or by packets
    fn started(self) -> Result<LossController, Refusal> {
        Ok(LossController::with_profile(!self.flag()?))
    }
}

// ---- the controller and the queue

impl Machine {
    fn new() -> Machine {
        Machine {
            controller: LossController::new(),
            queue: Queue::new(),
        }
    }

    fn take(&mut self, call: Call) -> Result<(), Refusal> {
        let controller = self.controller;
        self.controller = match call.kind {
            1 => controller.set_bandwidth_estimate(call.rate())?,
            2 => controller.set_acknowledged_bitrate(call.rate())?,
            3 => controller.set_alr_start_time(call.option(call.a)?)?,
            4 => controller.set_link_capacity_estimate(call.option(call.rate())?)?,
            5 => {
                call.packet().check()?;
                self.queue.push(call.packet())?;
                controller
            }
            6 => self.report(call.rate())?,
            8 => {
                let started = call.started()?;
                self.queue.clear();
                started
            }
            // A packet that is not asked
            9 => {
                self.queue.push(call.packet())?;
                controller
            }
            _ => controller,
        };
        Ok(())
    }

    // A report empties the queue, refused or not.
    fn report(&mut self, delay: Bitrate) -> Result<LossController, Refusal> {
        let reported = self.controller.update_bandwidth_estimate(
            self.queue.times.as_slice(),
            self.queue.sizes.as_slice(),
            self.queue.flags.as_slice(),
            delay,
        );
        self.queue.clear();
        reported
    }
}

impl Queue {
    fn new() -> Queue {
        Queue {
            times: ArrayVec::new(),
            sizes: ArrayVec::new(),
            flags: ArrayVec::new(),
        }
    }

    fn push(&mut self, packet: PacketResult) -> Result<(), Refusal> {
        self.times.try_push(packet.local_send_time).map_err(full)?;
        self.sizes.try_push(packet.size).map_err(full)?;
        self.flags.try_push(packet.lost).map_err(full)
    }

    fn clear(&mut self) {
        self.times.clear();
        self.sizes.clear();
        self.flags.clear();
    }
}

fn full<T: Drop>(_error: CapacityError<T>) -> Refusal {
    Refusal::QueueFull
}

// ---- answers

// What a call is answered by
#[derive(Clone, Copy)]
struct Answer {
    outcome: Result<(), Refusal>,
    controller: LossController,
}

impl fmt::Display for Answer {
    fn fmt<W: fmt::Write>(&self, f: &mut fmt::Formatter<W>) -> fmt::Result {
        let result = self.controller.loss_based_result();
        let refusal = refusal::number(&self.outcome);
        let state = u8::from(result.state);
        let Pair { case, value: rate } = Pair::from(result.bandwidth_estimate);
        let loss = float::to_bits(self.controller.inherent_loss());
        let ratio = self.controller.average_reported_loss_ratio();
        let ratio = float::to_bits(ratio.unwrap_or(0.0));
        let count = self.controller.num_observations();
        write!(
            f,
            "{refusal:02x} {state:x} {case:x} {rate:016x} {loss:016x} {ratio:016x} {count:08x}"
        )
    }
}
