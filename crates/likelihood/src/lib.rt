// The likelihood of loss_controller.rs: how well a candidate explains the observations, which come
// as rows of floats in slot order.
#![tactic(auto)]

ghost use Rattle.std.specs.Prelude.{◌≡◌};
ghost use Rattle.likelihood.specs.Feasible.{initial, upper_bound, feasible};
ghost use Rattle.likelihood.specs.Probability.{probability, row_probability};
ghost use Rattle.likelihood.specs.Newton.{safe, derivatives, newton};
ghost use Rattle.likelihood.specs.Bias.{adjusted, bias as bias_of};
ghost use Rattle.likelihood.specs.Objective.{objective};

use bandwidth::Bitrate;
use refusal::Refusal;

// An estimate derived from some candidate.
#[derive(Clone, Copy)]
pub struct ChannelParameters {
    pub inherent_loss: f64,
    pub loss_limited_bandwidth: Bitrate,
}

// Nothing is sent yet: the Rust's ChannelParameters::new, whose rate is minus infinity.
impl Default for ChannelParameters {
    ghost is_default = { λ parameters. parameters ≡ initial };

    #[tactic(auto, using(float::proofs::Std::neg_infinity_is))]
    fn default() -> ChannelParameters {
        ChannelParameters {
            inherent_loss: config::INITIAL_INHERENT_LOSS_ESTIMATE,
            loss_limited_bandwidth: Bitrate::NEG_INFINITY,
        }
    }
}

// One observation as the likelihood sees it: its weight, its sizes in kB or its packets as floats,
// its rate.
#[derive(Clone, Copy)]
pub struct Row {
    pub is_initialized: bool,
    pub weight: f64,
    pub lost: f64,
    pub received: f64,
    pub total: f64,
    pub sending_rate: Bitrate,
}

impl Row {
    // That of a slot without an observation
    pub const EMPTY: Row = Row {
        is_initialized: false,
        weight: 0.0,
        lost: 0.0,
        received: 0.0,
        total: 0.0,
        sending_rate: Bitrate::ZERO,
    };
}

// The first two derivatives of the likelihood by the inherent loss.
#[derive(Clone, Copy)]
pub struct Derivatives {
    pub first: f64,
    pub second: f64,
}

// ---- feasible inherent loss

#[tactic(auto, unfolding(crate::specs::Feasible::upper_bound))]
pub fn get_inherent_loss_upper_bound(bandwidth: Bitrate) -> f64
    ensures { result ≡ upper_bound bandwidth }
{
    if bandwidth == Bitrate::ZERO {
        return 1.0;
    }
    let inherent_loss_upper_bound = config::INHERENT_LOSS_UPPER_BOUND_OFFSET
        + config::INHERENT_LOSS_UPPER_BOUND_BANDWIDTH_BALANCE.as_f64() / bandwidth.as_f64();
    float::min(inherent_loss_upper_bound, 1.0)
}

#[tactic(auto, unfolding(crate::specs::Feasible::feasible))]
pub fn get_feasible_inherent_loss(channel_parameters: ChannelParameters) -> f64
    ensures { result ≡ feasible channel_parameters }
{
    float::min(
        float::max(
            channel_parameters.inherent_loss,
            config::INHERENT_LOSS_LOWER_BOUND,
        ),
        get_inherent_loss_upper_bound(channel_parameters.loss_limited_bandwidth),
    )
}

// ---- loss probability

// Sending above the loss limited bandwidth loses the part above it, too. Kept off 0 and 1, so that
// both logarithms have an argument and no divisor is 0.
#[tactic(auto, using(crate::proofs::Probability::difference_taken, float::proofs::Std::partial_gt_is), unfolding(crate::specs::Probability::probability, crate::specs::Probability::congested))]
pub fn get_loss_probability(
    inherent_loss: f64,
    loss_limited_bandwidth: Bitrate,
    sending_rate: Bitrate,
) -> f64
    ensures { result ≡ probability inherent_loss loss_limited_bandwidth sending_rate }
{
    let inherent_loss = inherent_loss.clamp(0.0, 1.0);
    let mut loss_probability = inherent_loss;
    if sending_rate.is_valid()
        && loss_limited_bandwidth.is_valid()
        && sending_rate > loss_limited_bandwidth
    {
        let above = sending_rate.sub(loss_limited_bandwidth).unwrap();
        loss_probability += (1.0 - inherent_loss) * (above.as_f64() / sending_rate.as_f64());
    }
    loss_probability.clamp(1.0e-6, 1.0 - 1.0e-6)
}

impl ChannelParameters {
    fn loss_probability(self, row: &Row) -> f64
        ensures { result ≡ row_probability self row.now }
    {
        get_loss_probability(
            self.inherent_loss,
            self.loss_limited_bandwidth,
            row.sending_rate,
        )
    }
}

// ---- Newton's method

const SAFE_SECOND_DERIVATIVE: f64 = -1.0e-6;

// Floating-point edge cases would turn the Newton step round, or divide it by 0.
#[tactic(auto, unfolding(crate::specs::Newton::safe))]
fn safe_second_derivative(second: f64) -> f64
    ensures { result ≡ safe second }
{
    if !float::is_sign_negative(second) || second == 0.0 || second.is_nan() {
        return SAFE_SECOND_DERIVATIVE;
    }
    second
}

#[tactic(auto, unfolding(crate::specs::Newton::derivatives, crate::specs::Newton::add_derivatives))]
pub fn get_derivatives(rows: [Row; 15], channel_parameters: ChannelParameters) -> Derivatives
    ensures { result ≡ derivatives rows channel_parameters }
{
    let mut derivatives = Derivatives {
        first: 0.0,
        second: 0.0,
    };
    for row in &rows {
        if !row.is_initialized {
            continue;
        }
        let loss_probability = channel_parameters.loss_probability(row);
        derivatives.first += row.weight
            * ((row.lost / loss_probability) - (row.received / (1.0 - loss_probability)));
        derivatives.second -= row.weight
            * ((row.lost / logarithm::powi(loss_probability, 2))
                + (row.received / logarithm::powi(1.0 - loss_probability, 2)));
    }
    derivatives.second = safe_second_derivative(derivatives.second);
    derivatives
}

// One step. The Rust's early return for no observation is left out: this is called once one has
// completed.
#[tactic(auto, unfolding(crate::specs::Newton::newton))]
pub fn newtons_method_update(
    rows: [Row; 15],
    mut channel_parameters: ChannelParameters,
) -> ChannelParameters
    ensures { result ≡ newton rows channel_parameters }
{
    let derivatives = get_derivatives(rows, channel_parameters);
    channel_parameters.inherent_loss -= config::NEWTON_STEP_SIZE
        * (derivatives.first / derivatives.second);
    channel_parameters.inherent_loss = get_feasible_inherent_loss(channel_parameters);
    channel_parameters
}

// ---- bias

// Grouped as in libWebRTC, by request (Q-9); the Rust has bias_factor * (diff / smoothing + |diff|).
#[tactic(auto, using(float::proofs::Std::magnitude_is), unfolding(crate::specs::Bias::adjusted))]
pub fn adjust_bias_factor(loss_rate: f64, bias_factor: f64) -> f64
    ensures { result ≡ adjusted loss_rate bias_factor }
{
    let diff = config::THRESHOLD_OF_HIGH_BANDWIDTH_PREFERENCE - loss_rate;
    bias_factor * diff / (config::BANDWIDTH_PREFERENCE_SMOOTHING_FACTOR + diff.abs())
}

// Refused where 1.0 + bandwidth has no logarithm.
#[tactic(auto, unfolding(crate::specs::Bias::bias))]
pub fn get_high_bandwidth_bias(
    bandwidth: Bitrate,
    average_reported_loss_ratio: f64,
) -> Result<f64, Refusal>
    ensures { result ≡ bias_of bandwidth average_reported_loss_ratio }
{
    if !bandwidth.is_valid() {
        return Ok(0.0);
    }
    let ln = logarithm::ln(1.0 + bandwidth.as_f64())?;
    let linear = adjust_bias_factor(
        average_reported_loss_ratio,
        config::HIGHER_BANDWIDTH_BIAS_FACTOR,
    );
    let logarithmic = adjust_bias_factor(
        average_reported_loss_ratio,
        config::HIGHER_LOG_BANDWIDTH_BIAS_FACTOR,
    );
    Ok(linear * bandwidth.as_f64() + logarithmic * ln)
}

// ---- objective

// The profile is a parameter of the type, so that each has a loop of its own, in which the two
// logarithms of a row are worked out side by side.
#[tactic(auto, unfolding(crate::specs::Objective::objective, crate::specs::Objective::add_terms, crate::specs::Objective::terms, crate::specs::Objective::with_terms))]
fn objective_by<const BY_BYTES: bool>(
    rows: &[Row; 15],
    average_reported_loss_ratio: f64,
    candidate: ChannelParameters,
) -> Result<f64, Refusal>
    ensures { result ≡ objective BY_BYTES rows.now average_reported_loss_ratio candidate }
{
    let bandwidth = candidate.loss_limited_bandwidth;
    let high_bandwidth_bias = get_high_bandwidth_bias(bandwidth, average_reported_loss_ratio)?;
    let mut objective = 0.0;
    for row in rows {
        if !row.is_initialized {
            continue;
        }
        let loss_probability = candidate.loss_probability(row);
        let ln_lost = logarithm::ln(loss_probability)?;
        let ln_received = logarithm::ln(1.0 - loss_probability)?;
        if BY_BYTES {
            objective += row.weight
                * ((row.lost / 1000.0) * ln_lost + (row.received / 1000.0) * ln_received);
            objective += row.weight * high_bandwidth_bias * row.total / 1000.0;
        } else {
            objective += row.weight * (row.lost * ln_lost + row.received * ln_received);
            objective += row.weight * high_bandwidth_bias * row.total;
        }
    }
    Ok(objective)
}

// Refused where a logarithm has no argument.
pub fn get_objective(
    use_byte_loss_ratio: bool,
    rows: [Row; 15],
    average_reported_loss_ratio: f64,
    candidate: ChannelParameters,
) -> Result<f64, Refusal>
    ensures { result ≡ objective use_byte_loss_ratio rows average_reported_loss_ratio candidate }
{
    if use_byte_loss_ratio {
        objective_by::<true>(&rows, average_reported_loss_ratio, candidate)
    } else {
        objective_by::<false>(&rows, average_reported_loss_ratio, candidate)
    }
}
