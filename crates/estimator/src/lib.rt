// The rest of `update_bandwidth_estimate` of src/bwe/loss_controller.rs once the best candidate is
// chosen: increase limits, hold and state. The settings that the Rust asks here are fixed on; the
// maximum rate is infinite.
#![tactic(auto)]

ghost use Rattle.std.specs.Prelude.{◌≡◌};
ghost use Rattle.estimator.specs.State as State;
ghost use Rattle.estimator.specs.Hold as Hold;
ghost use Rattle.estimator.specs.Recovery as Recovering;
ghost use Rattle.estimator.specs.Increase as Increase;
ghost use Rattle.estimator.specs.Update as Update;

use bandwidth::Bitrate;
use duration::Duration;
use likelihood::ChannelParameters;
use refusal::Refusal;
use time::Timestamp;

// MAX_HOLD_DURATION as a float
const MAX_HOLD_SECS: f64 = 60.0;

// State of the loss controller
#[derive(Clone, Copy, Debug, PartialEq, Eq)]
pub enum LossControllerState {
    // The estimate increases, limited by loss.
    Increasing = 1,
    // The estimate decreases, limited by loss.
    Decreasing = 2,
    // The estimate is that of the delay controller.
    DelayBased = 0,
}

// What keeps the estimate from rising again straight after loss
#[derive(Clone, Copy)]
pub struct HoldInfo {
    pub timestamp: Timestamp,
    pub duration: Duration,
    pub rate: Bitrate,
}

// The recovery after loss: from its timestamp on, for the delayed increase window, the limit bounds
// the estimate.
#[derive(Clone, Copy)]
pub struct Recovery {
    pub recovering_after_loss_timestamp: Timestamp,
    pub bandwidth_limit_in_current_window: Bitrate,
}

// The fields of the controller that these steps read and write
#[derive(Clone, Copy)]
pub struct Estimator {
    pub state: LossControllerState,
    pub current_estimate: ChannelParameters,
    pub last_hold_info: HoldInfo,
    pub last_time_estimate_reduced: Timestamp,
    pub recovery: Recovery,
}

// What else they read
#[derive(Clone, Copy)]
pub struct Report {
    pub average_reported_loss_ratio: f64,
    pub acknowledged_bitrate: Bitrate,
    pub delay_based_estimate: Bitrate,
    // last_send_time_most_recent_observation
    pub last_send_time: Timestamp,
}

// The number that an answer line has for the state.
impl From<LossControllerState> for u8 {
    ghost from_gives = { λ state number. number ≡ State.number state };

    fn from(state: LossControllerState) -> u8 {
        state as u8
    }
}

impl LossControllerState {
    pub fn is_bandwidth_limited_due_to_loss(self) -> bool
        ensures { result ≡ State.is_limited_due_to_loss self }
    {
        self != LossControllerState::DelayBased
    }
}

impl Default for HoldInfo {
    ghost is_default = { λ hold. hold ≡ Hold.initial };

    #[tactic(auto, using(float::proofs::Std::infinity_is))]
    fn default() -> HoldInfo {
        HoldInfo {
            timestamp: Timestamp::DistantPast,
            duration: config::INIT_HOLD_DURATION,
            rate: Bitrate::INFINITY,
        }
    }
}

// Twice as long, at most MAX_HOLD_DURATION. From there on the seconds are not turned to ns, which
// might not fit.
#[tactic(auto, using(crate::proofs::Span::doubled_taken), unfolding(crate::specs::Hold::doubled, crate::specs::Hold::twice))]
pub fn doubled(duration: Duration) -> Duration
    ensures { result ≡ Hold.doubled duration }
{
    let secs = duration.as_secs_f64() * config::HOLD_DURATION_FACTOR;
    if secs >= MAX_HOLD_SECS {
        return config::MAX_HOLD_DURATION;
    }
    Duration::from_secs_f64(secs).unwrap()
}

impl Recovery {
    #[tactic(auto, using(crate::proofs::Constants::largest))]
    pub fn new() -> Recovery
        ensures { result ≡ Recovering.initial }
    {
        Recovery {
            recovering_after_loss_timestamp: Timestamp::DistantPast,
            bandwidth_limit_in_current_window: Bitrate::MAX,
        }
    }

    #[tactic(auto, unfolding(crate::specs::Recovery::window_end))]
    fn window_end(self) -> Result<Timestamp, Refusal>
        ensures { result ≡ Recovering.window_end self }
    {
        self.recovering_after_loss_timestamp
            .add(config::DELAYED_INCREASE_WINDOW)
    }

    // The best rate, bounded by the limit while the window runs.
    #[tactic(auto, using(time::proofs::Comparisons::partial_cmp_is, float::proofs::Std::partial_gt_is), unfolding(crate::specs::Recovery::bounded, crate::specs::Recovery::is_above_limit))]
    fn bounded(self, best: Bitrate, last_send_time: Timestamp) -> Result<Bitrate, Refusal>
        ensures { result ≡ Recovering.bounded self best last_send_time }
    {
        let window_end = self.window_end()?;
        if self.recovering_after_loss_timestamp.is_exact()
            && window_end > last_send_time
            && best > self.bandwidth_limit_in_current_window
        {
            return Ok(self.bandwidth_limit_in_current_window);
        }
        Ok(best)
    }

    // A new window with a new limit, where the state is limited by loss and no window runs.
    #[tactic(auto, using(time::proofs::Comparisons::partial_cmp_is), unfolding(crate::specs::Recovery::renewed, crate::specs::Recovery::is_over, crate::specs::Recovery::opened))]
    fn renewed(
        self,
        state: LossControllerState,
        best: Bitrate,
        last_send_time: Timestamp,
    ) -> Result<Recovery, Refusal>
        ensures { result ≡ Recovering.renewed self state best last_send_time }
    {
        if !state.is_bandwidth_limited_due_to_loss() {
            return Ok(self);
        }
        let window_end = self.window_end()?;
        if !self.recovering_after_loss_timestamp.is_exact() || window_end < last_send_time {
            let limit = best * config::CONF_MAX_INCREASE_FACTOR;
            let min_bitrate = config::CONGESTION_CONTROLLER_MIN_BITRATE;
            return Ok(Recovery {
                recovering_after_loss_timestamp: last_send_time,
                bandwidth_limit_in_current_window: min_bitrate.max(limit),
            });
        }
        Ok(self)
    }
}

impl Estimator {
    pub fn new() -> Estimator
        ensures { result ≡ Update.initial }
    {
        Estimator {
            state: LossControllerState::DelayBased,
            current_estimate: ChannelParameters::default(),
            last_hold_info: HoldInfo::default(),
            last_time_estimate_reduced: Timestamp::DistantPast,
            recovery: Recovery::new(),
        }
    }

    // What `update_bandwidth_estimate` does with the best candidate. Refused where a time fits no
    // u64 of ns.
    #[tactic(auto, unfolding(crate::specs::Update::applied, crate::specs::Update::with_reduction_noted))]
    pub fn apply_best_candidate(
        mut self,
        best_candidate: ChannelParameters,
        report: Report,
    ) -> Result<Estimator, Refusal>
        ensures { result ≡ Update.applied self best_candidate report }
    {
        if best_candidate.loss_limited_bandwidth < self.current_estimate.loss_limited_bandwidth {
            self.last_time_estimate_reduced = report.last_send_time;
        }
        self.updated(best_candidate, report)
    }

    // The steps after that, which stop where the hold runs: the rate is then at most the held one.
    #[tactic(auto, using(time::proofs::Comparisons::partial_cmp_is), unfolding(crate::specs::Update::updated, crate::specs::Update::decided, crate::specs::Update::is_in_hold, crate::specs::Update::held))]
    fn updated(
        mut self,
        best_candidate: ChannelParameters,
        report: Report,
    ) -> Result<Estimator, Refusal>
        ensures { result ≡ Update.updated self best_candidate report }
    {
        let loss_limited_bandwidth = self.increase_limited(best_candidate, report)?;
        let mut best = best_candidate;
        best.loss_limited_bandwidth = loss_limited_bandwidth;
        if self.state == LossControllerState::Decreasing
            && self.last_hold_info.timestamp > report.last_send_time
            && loss_limited_bandwidth < report.delay_based_estimate
        {
            best.loss_limited_bandwidth = loss_limited_bandwidth.min(self.last_hold_info.rate);
            self.current_estimate = best;
            return Ok(self);
        }
        self.with_new_state(best, report)
    }

    // ---- increase limits

    // The best candidate's rate within the limits on its increase: where loss limits the estimate the
    // window's, then the ramp-up's
    #[tactic(auto, unfolding(crate::specs::Increase::increase_limited, crate::specs::Increase::increase_limited_due_to_loss))]
    fn increase_limited(
        self,
        best_candidate: ChannelParameters,
        report: Report,
    ) -> Result<Bitrate, Refusal>
        ensures { result ≡ Increase.increase_limited self best_candidate report }
    {
        let best = self.not_increased_above_inherent_loss(
            best_candidate,
            report.average_reported_loss_ratio,
        );
        if !self.state.is_bandwidth_limited_due_to_loss() {
            return Ok(best);
        }
        let bounded = self.recovery.bounded(best, report.last_send_time)?;
        let increase_when_loss_limited = self.is_estimate_increasing_when_loss_limited(bounded);
        if increase_when_loss_limited && report.acknowledged_bitrate.is_valid() {
            return Ok(self.ramped_up(bounded, report.acknowledged_bitrate));
        }
        Ok(bounded)
    }

    // The best candidate's rate, and the current one where it is lower and the average loss is
    // above the inherent loss.
    #[tactic(auto, unfolding(crate::specs::Increase::not_increased_above_inherent_loss))]
    fn not_increased_above_inherent_loss(
        self,
        best_candidate: ChannelParameters,
        average_reported_loss_ratio: f64,
    ) -> Bitrate
        ensures { result ≡ Increase.not_increased_above_inherent_loss self best_candidate average_reported_loss_ratio }
    {
        let current = self.current_estimate.loss_limited_bandwidth;
        let best = best_candidate.loss_limited_bandwidth;
        if average_reported_loss_ratio > best_candidate.inherent_loss && current < best {
            return current;
        }
        best
    }

    // At most the acknowledged rate times the ramp-up factor, and an increase all the same.
    #[tactic(auto, unfolding(crate::specs::Increase::ramped_up, crate::specs::Increase::within_rampup, crate::specs::Increase::rampup_factor))]
    fn ramped_up(self, best: Bitrate, acknowledged_bitrate: Bitrate) -> Bitrate
        ensures { result ≡ Increase.ramped_up self best acknowledged_bitrate }
    {
        let current = self.current_estimate.loss_limited_bandwidth;
        let held = self.last_hold_info.rate;
        // Slower while the acknowledged rate is in the region of the held one.
        let rampup_factor = if held.is_valid()
            && acknowledged_bitrate < held * config::BANDWIDTH_RAMPUP_HOLD_THRESHOLD
        {
            config::BANDWIDTH_RAMPUP_UPPER_BOUND_FACTOR_IN_HOLD
        } else {
            config::BANDWIDTH_RAMPUP_UPPER_BOUND_FACTOR
        };
        let ramped = current.max(best.min(acknowledged_bitrate * rampup_factor));
        if self.state == LossControllerState::Decreasing && ramped == current {
            // At least 1 bit/s more when the state leaves Decreasing.
            return current + Bitrate::bps(1);
        }
        ramped
    }

    #[tactic(auto, unfolding(crate::specs::Increase::is_estimate_increasing_when_loss_limited))]
    fn is_estimate_increasing_when_loss_limited(self, candidate: Bitrate) -> bool
        ensures { result ≡ Increase.is_estimate_increasing_when_loss_limited self candidate }
    {
        if !self.state.is_bandwidth_limited_due_to_loss() {
            return false;
        }
        let current = self.current_estimate.loss_limited_bandwidth;
        if current < candidate {
            return true;
        }
        current == candidate && self.state == LossControllerState::Increasing
    }

    // ---- hold and state

    // The window goes by the new state.
    #[tactic(auto, unfolding(crate::specs::Update::with_new_state))]
    fn with_new_state(self, best: ChannelParameters, report: Report) -> Result<Estimator, Refusal>
        ensures { result ≡ Update.with_new_state self best report }
    {
        let rate = best.loss_limited_bandwidth;
        let state = self.new_state(rate, report.delay_based_estimate);
        let last_hold_info = self.new_hold_info(state, rate, report.last_send_time)?;
        let recovery = self.recovery.renewed(state, rate, report.last_send_time)?;
        Ok(Estimator {
            state,
            current_estimate: best,
            last_hold_info,
            recovery,
            ..self
        })
    }

    #[tactic(auto, using(float::proofs::Std::infinity_is), unfolding(crate::specs::Update::new_state, crate::specs::Update::is_limiting))]
    fn new_state(
        self,
        loss_limited_bandwidth: Bitrate,
        delay_based_estimate: Bitrate,
    ) -> LossControllerState
        ensures { result ≡ Update.new_state self loss_limited_bandwidth delay_based_estimate }
    {
        let is_limiting = loss_limited_bandwidth < delay_based_estimate
            && loss_limited_bandwidth < Bitrate::INFINITY;
        if !is_limiting {
            LossControllerState::DelayBased
        } else if self.is_estimate_increasing_when_loss_limited(loss_limited_bandwidth) {
            LossControllerState::Increasing
        } else {
            LossControllerState::Decreasing
        }
    }

    // DelayBased resets the hold, and Decreasing enters one where the state was another. The next one
    // will last twice as long.
    #[tactic(auto, unfolding(crate::specs::Update::new_hold_info, crate::specs::Hold::entered))]
    fn new_hold_info(
        self,
        new_state: LossControllerState,
        loss_limited_bandwidth: Bitrate,
        last_send_time: Timestamp,
    ) -> Result<HoldInfo, Refusal>
        ensures { result ≡ Update.new_hold_info self new_state loss_limited_bandwidth last_send_time }
    {
        match new_state {
            LossControllerState::Increasing => Ok(self.last_hold_info),
            LossControllerState::Decreasing => {
                if self.state == LossControllerState::Decreasing {
                    return Ok(self.last_hold_info);
                }
                let duration = self.last_hold_info.duration;
                Ok(HoldInfo {
                    timestamp: last_send_time.add(duration)?,
                    duration: doubled(duration),
                    rate: loss_limited_bandwidth,
                })
            }
            LossControllerState::DelayBased => Ok(HoldInfo::default()),
        }
    }
}
