// Which parts of a controller differ from those of another, floats by their bits: what the programs
// that try the controller print.
#![tactic(auto)]

ghost use Rattle.std.specs.Prelude.{◌≡◌};
ghost use Rattle.comparison.specs.Same as Same;

use bandwidth::Bitrate;
use estimator::Estimator;
use loss_controller::LossController;
use observation::Observation;

#[derive(Clone, Copy, PartialEq, Eq, Default)]
pub struct Changes {
    pub profile: bool,
    pub sums: bool,
    pub time: bool,
    pub count: bool,
    pub window: bool,
    pub ceiling: bool,
    pub estimator: bool,
    pub acknowledged: bool,
    pub delay: bool,
    pub alr: bool,
    pub capacity: bool,
}

impl Changes {
    // No part differs.
    pub fn is_none(self) -> bool
        ensures { result ≡ Same.is_none self }
    {
        self == Changes::default()
    }
}

#[tactic(auto, using(time::proofs::Comparisons::eq_is))]
pub fn compared(a: LossController, b: LossController) -> Changes
    ensures { result ≡ Same.changes a b }
{
    let (one, other) = (a.observations, b.observations);
    let (told, retold) = (a.inputs, b.inputs);
    Changes {
        profile: one.use_byte_loss_ratio != other.use_byte_loss_ratio,
        sums: one.partial_observation != other.partial_observation,
        time: one.last_send_time_most_recent_observation
            != other.last_send_time_most_recent_observation,
        count: one.num_observations != other.num_observations,
        window: !same_window(one.observations, other.observations),
        ceiling: !same_option(
            one.cached_instant_upper_bound,
            other.cached_instant_upper_bound,
        ),
        estimator: !same_estimator(a.estimator, b.estimator),
        acknowledged: told.acknowledged_bitrate.to_bits() != retold.acknowledged_bitrate.to_bits(),
        delay: told.delay_based_estimate.to_bits() != retold.delay_based_estimate.to_bits(),
        alr: told.alr_start_time != retold.alr_start_time,
        capacity: !same_option(told.link_capacity_estimate, retold.link_capacity_estimate),
    }
}

// By their bits: two NaN can be the same, and zero is not -0.
fn same_option(a: Option<Bitrate>, b: Option<Bitrate>) -> bool
    ensures { result ≡ Same.option a b }
{
    a.map(Bitrate::to_bits) == b.map(Bitrate::to_bits)
}

fn same_window(a: [Observation; 15], b: [Observation; 15]) -> bool
    ensures { result ≡ Same.window a b }
{
    a.iter()
        .zip(&b)
        .all(|(one, other)| same_observation(*one, *other))
}

fn same_observation(a: Observation, b: Observation) -> bool
    ensures { result ≡ Same.observation a b }
{
    let parts = |o: Observation| {
        let packets = (o.num_packets, o.num_lost_packets, o.num_received_packets);
        let sizes = (o.size, o.lost_size);
        (
            packets,
            sizes,
            o.id,
            o.is_initialized,
            o.sending_rate.to_bits(),
        )
    };
    parts(a) == parts(b)
}

#[tactic(auto, using(time::proofs::Comparisons::eq_is))]
fn same_estimator(a: Estimator, b: Estimator) -> bool
    ensures { result ≡ Same.estimator a b }
{
    let parts = |estimator: Estimator| {
        let estimate = estimator.current_estimate;
        let hold = estimator.last_hold_info;
        let recovery = estimator.recovery;
        (
            estimator.state,
            (
                float::to_bits(estimate.inherent_loss),
                estimate.loss_limited_bandwidth.to_bits(),
            ),
            (hold.timestamp, hold.duration, hold.rate.to_bits()),
            estimator.last_time_estimate_reduced,
            (
                recovery.recovering_after_loss_timestamp,
                recovery.bandwidth_limit_in_current_window.to_bits(),
            ),
        )
    };
    parts(a) == parts(b)
}
