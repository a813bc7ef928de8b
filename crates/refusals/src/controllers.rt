// Controllers of either profile of which no other part is as in a new one, so that a part that is
// not handed back shows.
use crate::values::{MOST_BYTES, MOST_COUNT, MOST_PACKETS, REFERENCE};
use bandwidth::Bitrate;
use duration::Duration;
use estimator::{Estimator, HoldInfo, LossControllerState, Recovery};
use likelihood::ChannelParameters;
use loss_controller::{Inputs, LossController};
use observation::{Observation, Observations, PartialObservation};
use refusal::Refusal;
use std::fmt;
use time::Timestamp;

// A controller's count of observations, and its running packets and bytes
#[derive(Clone, Copy)]
pub(crate) struct Sums {
    pub(crate) count: u64,
    pub(crate) packets: u64,
    pub(crate) bytes: u64,
}

// Where a case asks for no other
pub(crate) const USUAL: Sums = Sums {
    count: 40,
    packets: 5,
    bytes: 5_000,
};

// No room for another observation
pub(crate) const FULL_COUNT: Sums = Sums {
    count: MOST_COUNT,
    ..USUAL
};

// No room for another packet
pub(crate) const FULL_PACKETS: Sums = Sums {
    packets: MOST_PACKETS,
    ..USUAL
};

// No room for another byte
pub(crate) const FULL_BYTES: Sums = Sums {
    bytes: MOST_BYTES,
    ..USUAL
};

// No room for anything
pub(crate) const FULL: Sums = Sums {
    count: MOST_COUNT,
    packets: MOST_PACKETS,
    bytes: MOST_BYTES,
};

impl Sums {
    // With what earns the refusal, as far as it lies in the controller
    pub(crate) fn with_reason(mut self, reason: Refusal) -> Sums {
        match reason {
            Refusal::RunningSums => self.bytes = MOST_BYTES,
            Refusal::Observations => self.count = MOST_COUNT,
            _ => {}
        }
        self
    }
}

impl fmt::Display for Sums {
    fn fmt<W: fmt::Write>(&self, f: &mut fmt::Formatter<W>) -> fmt::Result {
        let Sums {
            count,
            packets,
            bytes,
        } = *self;
        write!(f, "count {count}, packets {packets}, bytes {bytes}")
    }
}

pub(crate) fn controller(use_byte_loss_ratio: bool, sums: Sums) -> LossController {
    let observations = Observations {
        use_byte_loss_ratio,
        partial_observation: PartialObservation {
            num_packets: sums.packets,
            num_lost_packets: 1,
            size: sums.bytes,
            lost_size: 500,
        },
        last_send_time_most_recent_observation: Timestamp::Exact(REFERENCE),
        num_observations: sums.count,
        // The fifteen newest, each in its slot
        observations: std::array::from_fn(|slot| observation(sums.count, slot as u64)),
        cached_instant_upper_bound: Some(Bitrate { bps: 2.0e6 }),
    };
    LossController {
        observations,
        estimator: estimator(),
        inputs: Inputs {
            acknowledged_bitrate: Bitrate { bps: 1.3e6 },
            delay_based_estimate: Bitrate { bps: 1.7e6 },
            alr_start_time: Some(8_000_000_000),
            link_capacity_estimate: Some(Bitrate { bps: 2.5e6 }),
        },
    }
}

fn estimator() -> Estimator {
    Estimator {
        state: LossControllerState::Decreasing,
        current_estimate: ChannelParameters {
            inherent_loss: 0.02,
            loss_limited_bandwidth: Bitrate { bps: 1.5e6 },
        },
        last_hold_info: HoldInfo {
            timestamp: Timestamp::Exact(10_200_000_000),
            duration: Duration {
                nanos: 1_200_000_000,
            },
            rate: Bitrate { bps: 1.4e6 },
        },
        last_time_estimate_reduced: Timestamp::Exact(9_900_000_000),
        recovery: Recovery {
            recovering_after_loss_timestamp: Timestamp::Exact(9_950_000_000),
            bandwidth_limit_in_current_window: Bitrate { bps: 1.9e6 },
        },
    }
}

fn observation(count: u64, slot: u64) -> Observation {
    let place = slot % 15;
    let age = (count % 15 + 14 - place) % 15;
    Observation {
        num_packets: 20,
        size: 20_000 + place,
        num_lost_packets: 1,
        lost_size: 500 + place,
        num_received_packets: 19,
        sending_rate: Bitrate { bps: 6.4e5 },
        id: count.wrapping_sub(age + 1),
        is_initialized: true,
    }
}
