// The observations of the controller: the running sums, the window of fifteen, the loss ratio and
// the ceiling that it sets, from loss_controller.rs. Sizes are u64 bytes.
#![tactic(auto)]

ghost use Rattle.std.specs.Prelude.{◌≡◌, ◌+◌, ◌^◌, ◌<◌, pos};
ghost use Rattle.bandwidth.specs.Size as Size;
ghost use Rattle.observation.specs.Partial as Partial;
ghost use Rattle.observation.specs.Window as Window;
ghost use Rattle.observation.specs.Ratio as Ratio;
ghost use Rattle.observation.specs.Rows as Rows;
ghost use Rattle.observation.specs.Steps as Steps;

use bandwidth::{Bitrate, DataSize};
use likelihood::Row;
use packets::PacketResultsSummary;
use refusal::Refusal;
use time::{TimeDelta, Timestamp};

// The limits of the running sums and of the count of observations.
const MOST_RUNNING_PACKETS: u64 = 1_000_000_000;

const MOST_RUNNING_BYTES: u64 = 1_000_000_000_000;

const MOST_OBSERVATIONS: u64 = 1_000_000_000;

// The sums of an observation that is being made.
#[derive(Clone, Copy, Debug, PartialEq, Eq)]
pub struct PartialObservation {
    pub num_packets: u64,
    pub num_lost_packets: u64,
    pub size: u64,
    pub lost_size: u64,
}

#[derive(Clone, Copy)]
pub struct Observation {
    pub num_packets: u64,
    pub size: u64,
    pub num_lost_packets: u64,
    pub lost_size: u64,
    pub num_received_packets: u64,
    pub sending_rate: Bitrate,
    pub id: u64,
    pub is_initialized: bool,
}

// What `maybe_add_observation` and `reset_observations` change of the controller, and the profile,
// which is fixed when it is made: whether loss is counted in bytes or in packets.
#[derive(Clone, Copy)]
pub struct Observations {
    pub use_byte_loss_ratio: bool,
    pub partial_observation: PartialObservation,
    pub last_send_time_most_recent_observation: Timestamp,
    pub num_observations: u64,
    pub observations: [Observation; 15],
    pub cached_instant_upper_bound: Option<Bitrate>,
}

// The observations after a report, and whether it completed one.
#[derive(Clone, Copy)]
pub struct Added {
    pub observations: Observations,
    pub completed: bool,
}

// Bytes as the Rust's DataSize.
fn data_size(bytes: u64) -> Result<DataSize, Refusal>
    ensures { result ≡ Size.fitted (pos bytes) }
{
    DataSize::try_from(bytes as usize)
}

// ---- running sums

impl PartialObservation {
    pub fn new() -> PartialObservation
        ensures { result ≡ Partial.none }
    {
        PartialObservation {
            num_packets: 0,
            num_lost_packets: 0,
            size: 0,
            lost_size: 0,
        }
    }

    // RunningSums where the bytes would pass 10^12 or the packets 10^9, and Arithmetic where a lost
    // sum fits no u64.
    #[tactic(auto, using(std::proofs::lemmas::Bool::Decides::nat_tests), unfolding(crate::specs::Partial::updated))]
    pub fn update(self, summary: PacketResultsSummary) -> Result<PartialObservation, Refusal>
        ensures { result ≡ Partial.updated self summary }
    {
        if self.passes_limits(summary) {
            return Err(Refusal::RunningSums);
        }
        let num_lost_packets = self
            .num_lost_packets
            .checked_add(summary.num_lost_packets)
            .ok_or(Refusal::Arithmetic)?;
        let lost_size = self
            .lost_size
            .checked_add(summary.lost_size)
            .ok_or(Refusal::Arithmetic)?;
        Ok(PartialObservation {
            num_packets: self.num_packets + summary.num_packets,
            num_lost_packets,
            size: self.size + summary.total_size,
            lost_size,
        })
    }

    fn passes_limits(self, summary: PacketResultsSummary) -> bool
        ensures { result ≡ Partial.beyond (Partial.plus self summary) }
    {
        self.num_packets.saturating_add(summary.num_packets) > MOST_RUNNING_PACKETS
            || self.size.saturating_add(summary.total_size) > MOST_RUNNING_BYTES
    }

    // These sums as the observation `id`. Arithmetic where more packets are lost than there are, or
    // from the rate.
    #[tactic(auto, using(std::proofs::lemmas::Bool::Decides::nat_tests, crate::proofs::Sizes::held), unfolding(crate::specs::Window::observed, bandwidth::specs::Size::float, integer::specs::Fitted::fitted, time::specs::Delta::rate))]
    fn completed(self, id: u64, observation_duration: TimeDelta) -> Result<Observation, Refusal>
        ensures { result ≡ Window.observed self id observation_duration }
    {
        if self.num_lost_packets > self.num_packets {
            return Err(Refusal::Arithmetic);
        }
        let size = data_size(self.size)?;
        let sending_rate = time::div_time_delta(size, observation_duration)?;
        Ok(Observation {
            num_packets: self.num_packets,
            size: self.size,
            num_lost_packets: self.num_lost_packets,
            lost_size: self.lost_size,
            num_received_packets: self.num_packets - self.num_lost_packets,
            sending_rate,
            id,
            is_initialized: true,
        })
    }
}

// ---- the window

impl Observation {
    pub const DUMMY: Observation = Observation {
        num_packets: 0,
        size: 0,
        num_lost_packets: 0,
        lost_size: 0,
        num_received_packets: 0,
        sending_rate: Bitrate::NEG_INFINITY,
        id: 0,
        is_initialized: false,
    };
}

impl Observations {
    #[tactic(auto, using(float::proofs::Std::neg_infinity_is), unfolding(crate::specs::Window::cleared))]
    pub fn new(use_byte_loss_ratio: bool) -> Observations
        ensures { result ≡ Window.cleared use_byte_loss_ratio 0 }
    {
        Observations {
            use_byte_loss_ratio,
            partial_observation: PartialObservation::new(),
            last_send_time_most_recent_observation: Timestamp::DistantFuture,
            num_observations: 0,
            observations: [Observation::DUMMY; 15],
            cached_instant_upper_bound: None,
        }
    }

    // reset_observations: called when ALR goes on or off. The profile stays, and the count, and with
    // it the ids, goes on.
    #[tactic(auto, unfolding(crate::specs::Window::cleared))]
    pub fn reset(self) -> Observations
        ensures { result ≡ Window.cleared self.use_byte_loss_ratio self.num_observations }
    {
        Observations {
            num_observations: self.num_observations,
            ..Observations::new(self.use_byte_loss_ratio)
        }
    }

    // After the report's summary, which is the Rust's None where there are no packets. The refusals
    // come in the order RunningSums, Observations, Arithmetic.
    #[tactic(auto, using(std::proofs::lemmas::Bool::Decides::nat_tests), unfolding(crate::specs::Window::added, crate::specs::Window::reference, crate::specs::Window::full, crate::specs::Window::completes, crate::specs::Window::with_partial))]
    pub fn maybe_add_observation(self, summary: PacketResultsSummary) -> Result<Added, Refusal>
        ensures { result ≡ Window.added self summary }
    {
        if summary.num_packets == 0 {
            return Ok(Added {
                observations: self,
                completed: false,
            });
        }
        let last_send_time = Timestamp::from(summary.last_send_time);
        if self.partial_observation.passes_limits(summary) {
            return Err(Refusal::RunningSums);
        }
        let reference = if self.last_send_time_most_recent_observation.is_exact() {
            self.last_send_time_most_recent_observation
        } else {
            last_send_time
        };
        let observation_duration = last_send_time - reference;
        // above 250 ms: the Rust asks first whether it is above ZERO, which says no more
        let completes = observation_duration
            > TimeDelta::from(config::OBSERVATION_DURATION_LOWER_BOUND);
        if completes && self.num_observations >= MOST_OBSERVATIONS {
            return Err(Refusal::Observations);
        }
        let partial_observation = self.partial_observation.update(summary)?;
        if completes {
            return self.complete(partial_observation, observation_duration, last_send_time);
        }
        Ok(Added {
            observations: Observations {
                partial_observation,
                last_send_time_most_recent_observation: reference,
                ..self
            },
            completed: false,
        })
    }

    // The running sums become the newest observation, and the ceiling is computed anew.
    #[tactic(auto, unfolding(crate::specs::Window::completed, crate::specs::Window::renewed, crate::specs::Window::stored, crate::specs::Window::with_ceiling))]
    fn complete(
        self,
        partial_observation: PartialObservation,
        observation_duration: TimeDelta,
        last_send_time: Timestamp,
    ) -> Result<Added, Refusal>
        requires { self.num_observations < 10 ^ 9 }
        ensures { result ≡ Window.completed self partial_observation observation_duration last_send_time }
    {
        let observation = partial_observation.completed(
            self.num_observations,
            observation_duration,
        )?;
        let mut observations = Observations {
            partial_observation: PartialObservation::new(),
            last_send_time_most_recent_observation: last_send_time,
            num_observations: self.num_observations + 1,
            ..self
        };
        let slot = (observation.id % config::OBSERVATION_WINDOW_SIZE) as usize;
        observations.observations[slot] = observation;
        let ceiling = observations.calculate_instant_upper_bound()?;
        observations.cached_instant_upper_bound = Some(ceiling);
        Ok(Added {
            observations,
            completed: true,
        })
    }
}

// ---- the loss ratio and the ceiling

// How many observations are newer: (count - 1) - id. An id that is not below the count stands
// beyond the window.
#[tactic(auto, using(std::proofs::lemmas::Bool::Decides::nat_tests), unfolding(crate::specs::Ratio::age))]
fn age(num_observations: u64, id: u64) -> u64
    ensures { result ≡ Ratio.age num_observations id }
{
    if id < num_observations {
        return (num_observations - 1) - id;
    }
    config::OBSERVATION_WINDOW_SIZE
}

impl Observation {
    // What the loss ratio weighs: bytes, or packets. Arithmetic where a size goes to no float.
    #[tactic(auto, using(crate::proofs::Sizes::held), unfolding(crate::specs::Steps::total_and_lost, bandwidth::specs::Size::float, integer::specs::Fitted::fitted))]
    fn total_and_lost(&self, use_byte_loss_ratio: bool) -> Result<(f64, f64), Refusal>
        ensures { result ≡ Steps.total_and_lost use_byte_loss_ratio self.now }
    {
        if use_byte_loss_ratio {
            let total = data_size(self.size)?.as_bytes_f64()?;
            let lost = data_size(self.lost_size)?.as_bytes_f64()?;
            return Ok((total, lost));
        }
        Ok((
            std::num::nearest_u64_to_f64(self.num_packets),
            std::num::nearest_u64_to_f64(self.num_lost_packets),
        ))
    }
}

impl Observations {
    // In slot order. 0.0 where nothing was sent, and Arithmetic where a size goes to no float.
    #[tactic(auto, using(crate::proofs::Sums::ratio_is, refusal::proofs::Outcome::fold_turn, refusal::proofs::Outcome::fold_end), unfolding(crate::specs::Steps::summed))]
    pub fn average_reported_loss_ratio(self) -> Result<f64, Refusal>
        ensures { result ≡ Ratio.average_reported_loss_ratio self }
    {
        let mut total = 0.0;
        let mut lost = 0.0;
        for observation in &self.observations {
            if !observation.is_initialized {
                continue;
            }
            let index = age(self.num_observations, observation.id);
            let instant_temporal_weight = logarithm::weight(index);
            let (its_total, its_lost) = observation.total_and_lost(self.use_byte_loss_ratio)?;
            total += instant_temporal_weight * its_total;
            lost += instant_temporal_weight * its_lost;
        }
        if total == 0.0 {
            return Ok(0.0);
        }
        Ok(lost / total)
    }

    // The Rust has a branch for a ratio above 1.0, which no list reaches. The maximum rate is infinite.
    #[tactic(auto, using(float::proofs::Std::infinity_is), unfolding(crate::specs::Ratio::instant_upper_bound, crate::specs::Ratio::instant_limit, rounding::specs::Ratio::loss_ceiling))]
    pub fn calculate_instant_upper_bound(self) -> Result<Bitrate, Refusal>
        ensures { result ≡ Ratio.instant_upper_bound self }
    {
        let average_reported_loss_ratio = self.average_reported_loss_ratio()?;
        if average_reported_loss_ratio > config::INSTANT_UPPER_BOUND_LOSS_OFFSET {
            return Ok(
                config::INSTANT_UPPER_BOUND_BANDWIDTH_BALANCE
                    / (average_reported_loss_ratio - config::INSTANT_UPPER_BOUND_LOSS_OFFSET),
            );
        }
        Ok(Bitrate::INFINITY)
    }

    #[tactic(auto, using(float::proofs::Std::infinity_is), unfolding(crate::specs::Ratio::cached, crate::specs::Ratio::valid_or_max, bandwidth::specs::Rate::valid))]
    pub fn get_instant_upper_bound(self) -> Bitrate
        ensures { result ≡ Ratio.cached self.cached_instant_upper_bound }
    {
        self.cached_instant_upper_bound
            .and_then(Bitrate::as_valid)
            .unwrap_or(Bitrate::INFINITY)
    }
}

// ---- rows for the likelihood

impl Observation {
    // Its row when so many observations are complete; an empty one where the slot is. Arithmetic
    // where a size goes to no float.
    #[tactic(auto, unfolding(crate::specs::Steps::row, crate::specs::Steps::kilobytes, crate::specs::Rows::row_of))]
    fn row(&self, use_byte_loss_ratio: bool, num_observations: u64) -> Result<Row, Refusal>
        ensures { result ≡ Steps.row use_byte_loss_ratio num_observations self.now }
    {
        if !self.is_initialized {
            return Ok(Row::EMPTY);
        }
        let weight = logarithm::weight(age(num_observations, self.id));
        let (lost, received, total) = if use_byte_loss_ratio {
            self.kilobytes()?
        } else {
            (
                std::num::nearest_u64_to_f64(self.num_lost_packets),
                std::num::nearest_u64_to_f64(self.num_received_packets),
                std::num::nearest_u64_to_f64(self.num_packets),
            )
        };
        Ok(Row {
            is_initialized: true,
            weight,
            lost,
            received,
            total,
            sending_rate: self.sending_rate,
        })
    }

    // Lost, received and total.
    #[tactic(auto, using(crate::proofs::Sizes::held, crate::proofs::Sizes::difference_held), unfolding(crate::specs::Steps::kilobytes, bandwidth::specs::Size::kilobytes, bandwidth::specs::Size::float, integer::specs::Fitted::fitted))]
    fn kilobytes(&self) -> Result<(f64, f64, f64), Refusal>
        ensures { result ≡ Steps.kilobytes self.now }
    {
        let total_size = data_size(self.size)?;
        let total = total_size.as_kb()?;
        let lost_size = data_size(self.lost_size)?;
        let lost = lost_size.as_kb()?;
        let received = total_size.sub(lost_size)?.as_kb()?;
        Ok((lost, received, total))
    }
}

impl Observations {
    // Each slot as a row, in slot order.
    #[tactic(auto, using(std::proofs::lemmas::List::map_more, std::proofs::lemmas::List::Folds::list_all_more), unfolding(crate::specs::Rows::rows, crate::specs::Ratio::readable, crate::specs::Steps::row))]
    pub fn rows(self) -> Result<[Row; 15], Refusal>
        ensures { result ≡ Rows.rows self }
    {
        let mut rows = [Row::EMPTY; 15];
        for (slot, observation) in self.observations.iter().enumerate() {
            rows[slot] = observation.row(self.use_byte_loss_ratio, self.num_observations)?;
        }
        Ok(rows)
    }
}
