// The candidates for the estimate: their upper bound, the at most six of them, and the choice among
// them (src/bwe/loss_controller.rs). They stand in a vector that allocates nothing.
#![tactic(auto)]

ghost use Rattle.std.specs.Prelude.{◌≡◌};
ghost use Rattle.candidates.specs.Bound as Bound;
ghost use Rattle.candidates.specs.Candidate as Candidate;
ghost use Rattle.candidates.specs.Choice as Choice;

use arrayvec::ArrayVec;
use bandwidth::Bitrate;
use likelihood::{ChannelParameters, Row};
use refusal::Refusal;
use time::{TimeDelta, Timestamp};

// What the upper bound reads of the controller.
#[derive(Clone, Copy)]
pub struct Bounds {
    // link_capacity_bound: infinite outside ALR
    pub capacity: Bitrate,
    // None unless is_bandwidth_limited_due_to_loss
    pub bandwidth_limit_in_current_window: Option<Bitrate>,
    // get_instant_upper_bound
    pub instant_upper_bound: Bitrate,
    pub delay_based_estimate: Bitrate,
    pub acknowledged_bitrate: Bitrate,
    // last_send_time_most_recent_observation
    pub last_send_time: Timestamp,
    pub last_time_estimate_reduced: Timestamp,
}

// ---- the upper bound

// The maximum rate, or in ALR the capacity that probes have proven. Nothing else reads the capacity.
#[tactic(auto, using(float::proofs::Std::infinity_is), unfolding(crate::specs::Bound::capacity))]
pub fn link_capacity_bound(in_alr: bool, link_capacity_estimate: Option<Bitrate>) -> Bitrate
    ensures { result ≡ Bound.capacity in_alr link_capacity_estimate }
{
    let max_bitrate = Bitrate::INFINITY;
    if in_alr && let Some(capacity) = link_capacity_estimate {
        return min_of_valid(max_bitrate, capacity);
    }
    max_bitrate
}

// The smaller of the two, where the limit is valid.
#[tactic(auto, unfolding(crate::specs::Bound::at_most))]
fn min_of_valid(upper_bound: Bitrate, limit: Bitrate) -> Bitrate
    ensures { result ≡ Bound.at_most limit upper_bound }
{
    if limit.is_valid() {
        return upper_bound.min(limit);
    }
    upper_bound
}

// The Rust asks also whether the largest ramp-up factor is above zero, which it is.
#[tactic(auto, unfolding(crate::specs::Bound::upper_bound, crate::specs::Bound::in_window, crate::specs::Bound::within, crate::specs::Bound::acceleration))]
pub fn get_candidate_bandwidth_upper_bound(bounds: Bounds) -> Bitrate
    ensures { result ≡ Bound.upper_bound bounds }
{
    let mut upper_bound = bounds.capacity;
    if let Some(limit) = bounds.bandwidth_limit_in_current_window
        && limit.is_valid()
    {
        upper_bound = limit.min(upper_bound);
    }
    upper_bound = bounds.instant_upper_bound.min(upper_bound);
    upper_bound = min_of_valid(upper_bound, bounds.delay_based_estimate);
    if bounds.acknowledged_bitrate.is_valid()
        && bounds.last_send_time.is_exact()
        && bounds.last_time_estimate_reduced.is_exact()
    {
        let delta = (bounds.last_send_time - bounds.last_time_estimate_reduced).max(
            TimeDelta::ZERO,
        );
        let maxout_time = config::RAMPUP_ACCELERATION_MAXOUT_TIME.as_secs_f64();
        let time_since_bw_reduced = float::min(maxout_time, delta.as_secs_f64());
        let rampup_acceleration = config::RAMPUP_ACCELERATION_MAX_FACTOR.as_secs_f64()
            * time_since_bw_reduced
            / maxout_time;
        upper_bound = upper_bound + bounds.acknowledged_bitrate * rampup_acceleration;
    }
    upper_bound
}

// ---- the candidates

#[tactic(auto, using(std::proofs::lemmas::List::map_more), unfolding(crate::specs::Candidate::candidates, crate::specs::Candidate::bandwidths))]
pub fn get_candidates(current: ChannelParameters, bounds: Bounds) -> ArrayVec<ChannelParameters, 6>
    ensures { result.items ≡ Candidate.candidates current bounds }
{
    let rate = current.loss_limited_bandwidth;
    let delay = bounds.delay_based_estimate;
    let acknowledged = bounds.acknowledged_bitrate;
    let bound = get_candidate_bandwidth_upper_bound(bounds);
    let above = is_above(delay, rate);
    let backoff = config::BANDWIDTH_BACKOFF_LOWER_BOUND_FACTOR;
    let mut candidates = ArrayVec::new();
    for factor in [
        config::CANDIDATE_FACTOR_UP,
        config::CANDIDATE_FACTOR_SAME,
        config::CANDIDATE_FACTOR_DOWN,
    ] {
        candidates.push(candidate(current, bound, scaled(factor, rate)));
    }
    if above {
        candidates.push(candidate(current, bound, delay));
    }
    if acknowledged.is_valid() {
        candidates.push(candidate(current, bound, acknowledged * backoff));
    }
    if above {
        candidates.push(candidate(current, bound, delay * backoff));
    }
    candidates
}

// factor * current: the factor is the first operand.
#[tactic(auto, unfolding(crate::specs::Candidate::scaled))]
fn scaled(factor: f64, current: Bitrate) -> Bitrate
    ensures { result ≡ Candidate.scaled factor current }
{
    Bitrate::from(factor) * current.as_f64()
}

// Whether the delay estimate is a candidate.
#[tactic(auto, using(float::proofs::Std::partial_gt_is), unfolding(crate::specs::Candidate::above))]
fn is_above(delay_based_estimate: Bitrate, current: Bitrate) -> bool
    ensures { result ≡ Candidate.above delay_based_estimate current }
{
    delay_based_estimate.is_valid() && delay_based_estimate > current
}

// Every candidate is made here: its bandwidth cut and limited, its inherent loss made feasible. An
// infinite bound is an absent one, and cuts nothing.
#[tactic(auto, unfolding(crate::specs::Candidate::candidate, crate::specs::Candidate::cut))]
fn candidate(
    current: ChannelParameters,
    upper_bound: Bitrate,
    bandwidth: Bitrate,
) -> ChannelParameters
    ensures { result ≡ Candidate.candidate current upper_bound bandwidth }
{
    let limit = current.loss_limited_bandwidth.max(upper_bound);
    let cut = bandwidth.min(limit);
    let mut candidate = current;
    candidate.loss_limited_bandwidth = cut.limited(bandwidth.is_valid());
    candidate.inherent_loss = likelihood::get_feasible_inherent_loss(candidate);
    candidate
}

// ---- the choice

// The candidate with the greatest objective after its Newton step, or the current parameters. Of
// equal objectives the first stays, and a NaN is never greater. A refused objective ends the choice.
#[tactic(auto, unfolding(crate::specs::Choice::choice, crate::specs::Choice::better, crate::specs::Choice::judged))]
pub fn choose(
    use_byte_loss_ratio: bool,
    current: ChannelParameters,
    candidates: &[ChannelParameters],
    rows: [Row; 15],
    average_reported_loss_ratio: f64,
) -> Result<ChannelParameters, Refusal>
    ensures { result ≡ Choice.choice use_byte_loss_ratio current candidates.now rows average_reported_loss_ratio }
{
    let mut best_candidate = current;
    let mut objective_max = f64::MIN;
    for candidate in candidates {
        let candidate = likelihood::newtons_method_update(rows, *candidate);
        let candidate_objective = likelihood::get_objective(
            use_byte_loss_ratio,
            rows,
            average_reported_loss_ratio,
            candidate,
        )?;
        if candidate_objective > objective_max {
            objective_max = candidate_objective;
            best_candidate = candidate;
        }
    }
    Ok(best_candidate)
}
