// The report, and the controller after it.
use crate::print::{Fields, InPair};
use estimator::Estimator;
use loss_controller::LossController;
use observation::Observations;
use packets::PacketResultsSummary;
use refusal::Refusal;
use std::io;

pub(crate) fn print_report(
    out: &impl Print,
    controller: LossController,
    summary: PacketResultsSummary,
) -> io::Result<()> {
    let count = controller.observations.num_observations;
    let answer = reported(controller, summary);
    let refusal = refusal::number(&answer);
    print!(out; "{refusal:016x} ")?;
    print_after(out, answer.unwrap_or(controller), count)
}

// What `update_with_summary` does with the observations and the estimate, without its checks: stored
// states and totals need not be a report's.
fn reported(
    mut controller: LossController,
    summary: PacketResultsSummary,
) -> Result<LossController, Refusal> {
    let added = controller.observations.maybe_add_observation(summary)?;
    controller.observations = added.observations;
    let current = controller.estimator.current_estimate;
    if added.completed && current.loss_limited_bandwidth.is_valid() {
        controller.estimator = controller.updated_estimator()?;
    }
    Ok(controller)
}

// With the packets and the sending rate in the slot of the observation of this number.
fn print_after(out: &impl Print, controller: LossController, number: u64) -> io::Result<()> {
    let Estimator {
        state,
        current_estimate,
        last_hold_info: hold,
        last_time_estimate_reduced,
        recovery,
    } = controller.estimator;
    print!(out; "{:016x} ", u8::from(state))?;
    print_observations(out, controller.observations, number)?;
    println!(out;
        "{} {} {:016x} {} {} {} {}",
        Fields(current_estimate),
        InPair(hold.timestamp),
        hold.duration.nanos,
        Fields(hold.rate),
        InPair(last_time_estimate_reduced),
        InPair(recovery.recovering_after_loss_timestamp),
        Fields(recovery.bandwidth_limit_in_current_window),
    )
}

fn print_observations(out: &impl Print, observations: Observations, number: u64) -> io::Result<()> {
    let partial = observations.partial_observation;
    let slot = (number % config::OBSERVATION_WINDOW_SIZE) as usize;
    let observation = observations.observations[slot];
    print!(out;
        "{:016x} {:016x} {:016x} {:016x} {:016x} {:016x} {} {} ",
        u8::from(observations.use_byte_loss_ratio),
        observations.num_observations,
        partial.num_packets,
        partial.num_lost_packets,
        partial.size,
        partial.lost_size,
        InPair(observations.last_send_time_most_recent_observation),
        InPair(observations.cached_instant_upper_bound),
    )?;
    print!(out;
        "{:016x} {:016x} {:016x} {} ",
        observation.num_packets,
        observation.num_lost_packets,
        observation.num_received_packets,
        Fields(observation.sending_rate),
    )
}
