// The controller and the report of a line, field by field.
use bandwidth::Bitrate;
use duration::Duration;
use estimator::{Estimator, HoldInfo, LossControllerState, Recovery};
use likelihood::ChannelParameters;
use loss_controller::{Inputs, LossController};
use observation::{Observation, Observations, PartialObservation};
use packets::PacketResultsSummary;
use std::io::{self, Stdin};
use stored_fields::Pair;
use time::Timestamp;

// The bytes of a field: sixteen digits, and a space or the newline behind them
pub(crate) const FIELD: usize = 17;

// An input that ends before leaves the rest of the field's bytes at zero, which are no digits.
fn field(input: &mut Stdin) -> io::Result<u64> {
    let mut text = [0; FIELD];
    streams::fill(input, &mut text)?;
    Ok(hexadecimal::number(&text[0..16]))
}

fn read_pair(input: &mut Stdin) -> io::Result<Pair> {
    Ok(Pair {
        case: field(input)?,
        value: field(input)?,
    })
}

fn read_rate(input: &mut Stdin) -> io::Result<Bitrate> {
    Ok(Bitrate::from_bits(field(input)?))
}

fn read_option(input: &mut Stdin) -> io::Result<Option<Bitrate>> {
    let Pair { case, value } = read_pair(input)?;
    Ok((case == 1).then_some(Bitrate::from_bits(value)))
}

fn read_time(input: &mut Stdin) -> io::Result<Timestamp> {
    Ok(Timestamp::from(read_pair(input)?))
}

fn read_parameters(input: &mut Stdin) -> io::Result<ChannelParameters> {
    Ok(ChannelParameters {
        inherent_loss: float::from_bits(field(input)?),
        loss_limited_bandwidth: read_rate(input)?,
    })
}

pub(crate) fn state_of(number: u64) -> LossControllerState {
    match number {
        0 => LossControllerState::DelayBased,
        1 => LossControllerState::Increasing,
        _ => LossControllerState::Decreasing,
    }
}

pub(crate) fn read_controller(
    input: &mut Stdin,
    state: LossControllerState,
) -> io::Result<LossController> {
    Ok(LossController {
        observations: read_observations(input)?,
        estimator: read_estimator(input, state)?,
        inputs: read_inputs(input)?,
    })
}

fn read_observations(input: &mut Stdin) -> io::Result<Observations> {
    Ok(Observations {
        use_byte_loss_ratio: field(input)? == 1,
        num_observations: field(input)?,
        partial_observation: read_partial(input)?,
        last_send_time_most_recent_observation: read_time(input)?,
        cached_instant_upper_bound: read_option(input)?,
        observations: read_window(input)?,
    })
}

fn read_partial(input: &mut Stdin) -> io::Result<PartialObservation> {
    Ok(PartialObservation {
        num_packets: field(input)?,
        num_lost_packets: field(input)?,
        size: field(input)?,
        lost_size: field(input)?,
    })
}

fn read_window(input: &mut Stdin) -> io::Result<[Observation; 15]> {
    let mut window = [Observation::DUMMY; 15];
    for observation in &mut window {
        *observation = read_observation(input)?;
    }
    Ok(window)
}

fn read_observation(input: &mut Stdin) -> io::Result<Observation> {
    Ok(Observation {
        is_initialized: field(input)? == 1,
        id: field(input)?,
        num_packets: field(input)?,
        size: field(input)?,
        num_lost_packets: field(input)?,
        lost_size: field(input)?,
        num_received_packets: field(input)?,
        sending_rate: read_rate(input)?,
    })
}

fn read_estimator(input: &mut Stdin, state: LossControllerState) -> io::Result<Estimator> {
    Ok(Estimator {
        state,
        current_estimate: read_parameters(input)?,
        last_hold_info: read_hold(input)?,
        last_time_estimate_reduced: read_time(input)?,
        recovery: read_recovery(input)?,
    })
}

fn read_hold(input: &mut Stdin) -> io::Result<HoldInfo> {
    Ok(HoldInfo {
        timestamp: read_time(input)?,
        duration: Duration {
            nanos: field(input)?,
        },
        rate: read_rate(input)?,
    })
}

fn read_recovery(input: &mut Stdin) -> io::Result<Recovery> {
    Ok(Recovery {
        recovering_after_loss_timestamp: read_time(input)?,
        bandwidth_limit_in_current_window: read_rate(input)?,
    })
}

fn read_inputs(input: &mut Stdin) -> io::Result<Inputs> {
    Ok(Inputs {
        acknowledged_bitrate: read_rate(input)?,
        delay_based_estimate: read_rate(input)?,
        // Since when is not asked.
        alr_start_time: (field(input)? == 1).then_some(0),
        link_capacity_estimate: read_option(input)?,
    })
}

// What is lost and what arrived: packets, and then bytes.
pub(crate) fn read_summary(input: &mut Stdin) -> io::Result<PacketResultsSummary> {
    let num_lost_packets = field(input)? % 0x1_0000_0000_0000;
    let num_received_packets = field(input)? % 0x1_0000_0000_0000;
    let lost_size = field(input)? % 0x1_0000_0000_0000;
    let received_size = field(input)? % 0x1_0000_0000_0000;
    let last_send_time = field(input)?;
    Ok(PacketResultsSummary {
        num_packets: num_lost_packets + num_received_packets,
        num_lost_packets,
        total_size: lost_size + received_size,
        lost_size,
        last_send_time,
    })
}
