// The settings of the controller: the Rust's `Config::default()` and the constants beside it, by
// their names. Fixed on in the Rust, and so not asked here:
// `not_increase_if_inherent_loss_less_than_average_loss`, `append_acknowledged_rate_candidate`,
// `append_delay_based_estimate_candidate`; fixed off: `trendline_integration_enabled`. A controller
// has its own `use_byte_loss_ratio`. Both temporal weight factors are 0.9: crate `logarithm` has the
// table of weights. `newton_iterations` is 1. The maximum rate is infinite. The Rust's branch for a
// loss ratio above 1.0, which no list reaches, is left out with its three settings and `min_bitrate`.
#![tactic(auto)]

use bandwidth::Bitrate;
use duration::Duration;

// ---- observations

pub const OBSERVATION_WINDOW_SIZE: u64 = 15;

pub const OBSERVATION_DURATION_LOWER_BOUND: Duration = Duration { nanos: 250_000_000 };

// ---- the instant upper bound, which is the loss ceiling

pub const INSTANT_UPPER_BOUND_LOSS_OFFSET: f64 = 0.05;

pub const INSTANT_UPPER_BOUND_BANDWIDTH_BALANCE: Bitrate = Bitrate { bps: 100000.0 };

// ---- inherent loss

pub const INITIAL_INHERENT_LOSS_ESTIMATE: f64 = 0.01;

pub const INHERENT_LOSS_LOWER_BOUND: f64 = 0.001;

pub const INHERENT_LOSS_UPPER_BOUND_OFFSET: f64 = 0.05;

pub const INHERENT_LOSS_UPPER_BOUND_BANDWIDTH_BALANCE: Bitrate = Bitrate { bps: 100000.0 };

pub const NEWTON_STEP_SIZE: f64 = 0.75;

// ---- bias

pub const HIGHER_BANDWIDTH_BIAS_FACTOR: f64 = 0.0002;

pub const HIGHER_LOG_BANDWIDTH_BIAS_FACTOR: f64 = 0.02;

pub const THRESHOLD_OF_HIGH_BANDWIDTH_PREFERENCE: f64 = 0.2;

pub const BANDWIDTH_PREFERENCE_SMOOTHING_FACTOR: f64 = 0.002;

// ---- candidates

// candidate_factor[0]
pub const CANDIDATE_FACTOR_UP: f64 = 1.02;

// candidate_factor[1]
pub const CANDIDATE_FACTOR_SAME: f64 = 1.0;

// candidate_factor[2]
pub const CANDIDATE_FACTOR_DOWN: f64 = 0.95;

pub const BANDWIDTH_BACKOFF_LOWER_BOUND_FACTOR: f64 = 1.0;

pub const RAMPUP_ACCELERATION_MAXOUT_TIME: Duration = Duration {
    nanos: 60_000_000_000,
};

pub const RAMPUP_ACCELERATION_MAX_FACTOR: Duration = Duration {
    nanos: 60_000_000_000,
};

// ---- recovery, hold and ramp-up

pub const DELAYED_INCREASE_WINDOW: Duration = Duration { nanos: 300_000_000 };

pub const CONGESTION_CONTROLLER_MIN_BITRATE: Bitrate = Bitrate { bps: 5000.0 };

pub const CONF_MAX_INCREASE_FACTOR: f64 = 1.3;

pub const BANDWIDTH_RAMPUP_UPPER_BOUND_FACTOR: f64 = 1.5;

pub const BANDWIDTH_RAMPUP_UPPER_BOUND_FACTOR_IN_HOLD: f64 = 1.2;

pub const BANDWIDTH_RAMPUP_HOLD_THRESHOLD: f64 = 1.3;

pub const HOLD_DURATION_FACTOR: f64 = 2.0;

pub const INIT_HOLD_DURATION: Duration = Duration { nanos: 300_000_000 };

pub const MAX_HOLD_DURATION: Duration = Duration {
    nanos: 60_000_000_000,
};
