// `LossController` of src/bwe/loss_controller.rs, its calls by value. A call that is refused answers
// the refusal alone: the caller has the controller as it was.
#![tactic(auto)]

ghost use Rattle.std.specs.Prelude.{◌≡◌, true};
ghost use Rattle.loss_controller.specs.Controller as Controller;
ghost use Rattle.loss_controller.specs.Setters as Setters;
ghost use Rattle.loss_controller.specs.Report as Steps;
ghost use Rattle.loss_controller.specs.Result as Read;

use bandwidth::Bitrate;
use candidates::Bounds;
use estimator::{Estimator, LossControllerState, Report};
use observation::Observations;
use packets::{PacketResultsSummary, PacketSize};
use refusal::Refusal;

// What the controller is told by others
#[derive(Clone, Copy)]
pub struct Inputs {
    pub acknowledged_bitrate: Bitrate,
    pub delay_based_estimate: Bitrate,
    // None if not in ALR. Whether it was in ALR is read from here too.
    pub alr_start_time: Option<u64>,
    // From probes during ALR
    pub link_capacity_estimate: Option<Bitrate>,
}

#[derive(Clone, Copy)]
pub struct LossController {
    pub observations: Observations,
    pub estimator: Estimator,
    pub inputs: Inputs,
}

#[derive(Clone, Copy)]
pub struct LossBasedBweResult {
    pub bandwidth_estimate: Option<Bitrate>,
    pub state: LossControllerState,
}

// Refused where it is finite, and has its sign bit set or is above 10^15.
#[tactic(auto, using(float::proofs::Std::partial_gt_is), unfolding(crate::specs::Setters::check_rate))]
pub fn check_rate(rate: Bitrate) -> Result<(), Refusal>
    ensures { result ≡ Setters.check_rate rate }
{
    if rate.is_valid() && (float::is_sign_negative(rate.bps) || rate > Bitrate::MOST) {
        return Err(Refusal::Rate);
    }
    Ok(())
}

impl LossController {
    // By bytes, as the Rust's settings have it.
    pub fn new() -> LossController
        ensures { result ≡ Controller.initial true }
    {
        LossController::with_profile(true)
    }

    // Whether loss is counted in bytes or in packets is fixed here. The Rust has the setting, and no
    // way to make a controller with another value of it.
    #[tactic(auto, using(float::proofs::Std::infinity_is))]
    pub fn with_profile(use_byte_loss_ratio: bool) -> LossController
        ensures { result ≡ Controller.initial use_byte_loss_ratio }
    {
        LossController {
            observations: Observations::new(use_byte_loss_ratio),
            estimator: Estimator::new(),
            inputs: Inputs {
                acknowledged_bitrate: Bitrate::INFINITY,
                delay_based_estimate: Bitrate::INFINITY,
                alr_start_time: None,
                link_capacity_estimate: None,
            },
        }
    }

    // ---- the four setters

    // Override the current bandwidth estimate.
    #[tactic(auto, unfolding(crate::specs::Setters::set_bandwidth_estimate))]
    pub fn set_bandwidth_estimate(
        mut self,
        bandwidth_estimate: Bitrate,
    ) -> Result<LossController, Refusal>
        ensures { result ≡ Setters.set_bandwidth_estimate self bandwidth_estimate }
    {
        check_rate(bandwidth_estimate)?;
        self.estimator.current_estimate.loss_limited_bandwidth = bandwidth_estimate;
        Ok(self)
    }

    // Update the acknowledged bitrate based on TWCC feedback.
    #[tactic(auto, unfolding(crate::specs::Setters::set_acknowledged_bitrate))]
    pub fn set_acknowledged_bitrate(
        mut self,
        acknowledged_bitrate: Bitrate,
    ) -> Result<LossController, Refusal>
        ensures { result ≡ Setters.set_acknowledged_bitrate self acknowledged_bitrate }
    {
        check_rate(acknowledged_bitrate)?;
        self.inputs.acknowledged_bitrate = acknowledged_bitrate;
        Ok(self)
    }

    // Set ALR start time from the ALR detector. Where ALR goes on or off the observations are
    // reset, so as not to mix the two kinds of traffic in one window.
    #[tactic(auto, unfolding(crate::specs::Setters::set_alr_start_time, crate::specs::Setters::check_start, crate::specs::Setters::with_alr_start_time))]
    pub fn set_alr_start_time(mut self, alr_start: Option<u64>) -> Result<LossController, Refusal>
        ensures { result ≡ Setters.set_alr_start_time self alr_start }
    {
        if let Some(start) = alr_start {
            packets::check_time(start)?;
        }
        let was_in_alr = self.is_in_alr();
        let is_in_alr = alr_start.is_some();
        self.inputs.alr_start_time = alr_start;
        if was_in_alr != is_in_alr {
            return Ok(self.reset_observations());
        }
        Ok(self)
    }

    // Set link capacity estimate from successful ALR probes.
    #[tactic(auto, unfolding(crate::specs::Setters::set_link_capacity_estimate, crate::specs::Setters::check_capacity))]
    pub fn set_link_capacity_estimate(
        mut self,
        capacity: Option<Bitrate>,
    ) -> Result<LossController, Refusal>
        ensures { result ≡ Setters.set_link_capacity_estimate self capacity }
    {
        if let Some(rate) = capacity {
            check_rate(rate)?;
        }
        self.inputs.link_capacity_estimate = capacity;
        Ok(self)
    }

    // Check if currently in ALR state
    fn is_in_alr(self) -> bool
        ensures { result ≡ Setters.is_in_alr self }
    {
        self.inputs.alr_start_time.is_some()
    }

    #[tactic(auto, unfolding(crate::specs::Setters::reset_observations))]
    fn reset_observations(self) -> LossController
        ensures { result ≡ Setters.reset_observations self }
    {
        LossController {
            observations: self.observations.reset(),
            ..self
        }
    }

    // ---- the report

    // Update the estimate using TWCC feedback from the network: the packets in three columns, and
    // the estimate of the delay controller.
    #[tactic(auto, unfolding(crate::specs::Report::update_bandwidth_estimate))]
    pub fn update_bandwidth_estimate(
        self,
        times: &[u64],
        sizes: &[PacketSize],
        flags: &[u8],
        delay_based_estimated: Bitrate,
    ) -> Result<LossController, Refusal>
        ensures { result ≡ Steps.update_bandwidth_estimate self times.now sizes.now flags.now delay_based_estimated }
    {
        packets::check_columns(times, sizes, flags)?;
        check_rate(delay_based_estimated)?;
        let summary = packets::summary(times, sizes, flags)?;
        self.reported(summary, delay_based_estimated)
    }

    // The same, of packets that are summed up already; totals that no report has are refused as too
    // many packets.
    #[tactic(auto, unfolding(crate::specs::Report::update_with_summary))]
    pub fn update_with_summary(
        self,
        summary: PacketResultsSummary,
        delay_based_estimated: Bitrate,
    ) -> Result<LossController, Refusal>
        ensures { result ≡ Steps.update_with_summary self summary delay_based_estimated }
    {
        if !summary.is_of_report() {
            return Err(Refusal::TooManyPackets);
        }
        check_rate(delay_based_estimated)?;
        packets::check_time(summary.last_send_time)?;
        self.reported(summary, delay_based_estimated)
    }

    // The steps, once packets and delay estimate are taken.
    #[tactic(auto, unfolding(crate::specs::Report::reported, crate::specs::Report::observed, crate::specs::Report::with_delay_based_estimate, crate::specs::Report::has_valid_estimate))]
    fn reported(
        mut self,
        summary: PacketResultsSummary,
        delay_based_estimated: Bitrate,
    ) -> Result<LossController, Refusal>
        ensures { result ≡ Steps.reported self summary delay_based_estimated }
    {
        self.inputs.delay_based_estimate = delay_based_estimated;
        if summary.num_packets == 0 {
            return Ok(self);
        }
        let added = self.observations.maybe_add_observation(summary)?;
        self.observations = added.observations;
        let current = self.estimator.current_estimate.loss_limited_bandwidth;
        // The estimator must be initialized before use.
        if !added.completed || !current.is_valid() {
            return Ok(self);
        }
        self.estimator = self.updated_estimator()?;
        Ok(self)
    }

    // The candidates, the best of them, and what follows from it.
    #[tactic(auto, unfolding(crate::specs::Report::updated_estimator))]
    pub fn updated_estimator(self) -> Result<Estimator, Refusal>
        ensures { result ≡ Steps.updated_estimator self }
    {
        let rows = self.observations.rows()?;
        let ratio = self.observations.average_reported_loss_ratio()?;
        let current_estimate = self.estimator.current_estimate;
        let candidates = candidates::get_candidates(current_estimate, self.bounds());
        let best_candidate = candidates::choose(
            self.observations.use_byte_loss_ratio,
            current_estimate,
            &candidates,
            rows,
            ratio,
        )?;
        self.estimator
            .apply_best_candidate(best_candidate, self.report(ratio))
    }

    // What the candidates' upper bound reads.
    #[tactic(auto, unfolding(crate::specs::Report::bounds))]
    pub fn bounds(self) -> Bounds
        ensures { result ≡ Steps.bounds self }
    {
        let estimator = self.estimator;
        let inputs = self.inputs;
        Bounds {
            capacity: candidates::link_capacity_bound(
                self.is_in_alr(),
                inputs.link_capacity_estimate,
            ),
            bandwidth_limit_in_current_window: estimator
                .state
                .is_bandwidth_limited_due_to_loss()
                .then_some(estimator.recovery.bandwidth_limit_in_current_window),
            instant_upper_bound: self.observations.get_instant_upper_bound(),
            delay_based_estimate: inputs.delay_based_estimate,
            acknowledged_bitrate: inputs.acknowledged_bitrate,
            last_send_time: self.observations.last_send_time_most_recent_observation,
            last_time_estimate_reduced: estimator.last_time_estimate_reduced,
        }
    }

    // What the steps after the choice read.
    #[tactic(auto, unfolding(crate::specs::Report::report))]
    fn report(self, average_reported_loss_ratio: f64) -> Report
        ensures { result ≡ Steps.report self average_reported_loss_ratio }
    {
        Report {
            average_reported_loss_ratio,
            acknowledged_bitrate: self.inputs.acknowledged_bitrate,
            delay_based_estimate: self.inputs.delay_based_estimate,
            last_send_time: self.observations.last_send_time_most_recent_observation,
        }
    }

    // ---- the reads

    #[tactic(auto, unfolding(crate::specs::Result::loss_based_result))]
    pub fn loss_based_result(self) -> LossBasedBweResult
        ensures { result ≡ Read.loss_based_result self }
    {
        LossBasedBweResult {
            bandwidth_estimate: self.published(),
            state: self.estimator.state,
        }
    }

    // The estimate, limited once there are observations.
    #[tactic(auto, unfolding(crate::specs::Result::published, candidates::specs::Bound::at_most, bandwidth::specs::Rate::valid))]
    fn published(self) -> Option<Bitrate>
        ensures { result ≡ Read.published self }
    {
        let current_estimate = self.estimator.current_estimate;
        let loss_limited_bandwidth = current_estimate.loss_limited_bandwidth.as_valid()?;
        if self.observations.num_observations == 0 {
            return Some(loss_limited_bandwidth);
        }
        let instant_upper_bound = self.observations.get_instant_upper_bound();
        let delay_based_estimate = self.inputs.delay_based_estimate;
        if delay_based_estimate.is_valid() {
            let delay_limited = loss_limited_bandwidth.min(delay_based_estimate);
            return Some(delay_limited.min(instant_upper_bound));
        }
        Some(loss_limited_bandwidth.min(instant_upper_bound))
    }

    // Added by design: the loss ratio of the window. Refused where a size goes to no float.
    #[tactic(auto, unfolding(crate::specs::Result::average_reported_loss_ratio))]
    pub fn average_reported_loss_ratio(self) -> Result<f64, Refusal>
        ensures { result ≡ Read.average_reported_loss_ratio self }
    {
        self.observations.average_reported_loss_ratio()
    }

    // Added by design: the count of completed observations.
    pub fn num_observations(self) -> u64
        ensures { result ≡ Read.num_observations self }
    {
        self.observations.num_observations
    }

    // For an answer line.
    pub fn inherent_loss(self) -> f64
        ensures { result ≡ Read.inherent_loss self }
    {
        self.estimator.current_estimate.inherent_loss
    }
}
