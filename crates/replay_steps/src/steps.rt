// What each step answers.
use crate::print::Fields;
use likelihood::Row;
use loss_controller::LossController;
use std::io;

pub(crate) fn print_window(out: &impl Print, controller: LossController) -> io::Result<()> {
    let observations = controller.observations;
    let ratio = Fields(observations.average_reported_loss_ratio().unwrap_or(0.0));
    let calculated = Fields(observations.calculate_instant_upper_bound());
    let cached = Fields(observations.get_instant_upper_bound());
    print!(out; "{ratio} {calculated} {cached} ")
}

pub(crate) fn print_likelihood(out: &impl Print, controller: LossController) -> io::Result<()> {
    let observations = controller.observations;
    let current = controller.estimator.current_estimate;
    let rate = current.loss_limited_bandwidth;
    let inherent_loss = current.inherent_loss;
    let sending_rate = observations.observations[0].sending_rate;
    let rows = observations.rows().unwrap_or([Row::EMPTY; 15]);
    let ratio = observations.average_reported_loss_ratio().unwrap_or(0.0);
    let by_bytes = observations.use_byte_loss_ratio;
    let factor = config::HIGHER_BANDWIDTH_BIAS_FACTOR;
    let derivatives = likelihood::get_derivatives(rows, current);
    print!(out;
        "{} {} {} {} ",
        Fields(likelihood::get_inherent_loss_upper_bound(rate)),
        Fields(likelihood::get_feasible_inherent_loss(current)),
        Fields(likelihood::get_loss_probability(inherent_loss, rate, sending_rate)),
        Fields(likelihood::adjust_bias_factor(ratio, factor)),
    )?;
    print!(out;
        "{} {} {} {} {} ",
        Fields(derivatives.first),
        Fields(derivatives.second),
        Fields(likelihood::get_high_bandwidth_bias(rate, ratio)),
        Fields(likelihood::get_objective(by_bytes, rows, ratio, current)),
        Fields(likelihood::newtons_method_update(rows, current)),
    )
}

pub(crate) fn print_candidates(out: &impl Print, controller: LossController) -> io::Result<()> {
    let bounds = controller.bounds();
    let bound = Fields(candidates::get_candidate_bandwidth_upper_bound(bounds));
    let current = controller.estimator.current_estimate;
    let candidates = candidates::get_candidates(current, bounds);
    print!(out; "{bound} {:016x} ", candidates.len())?;
    // A place past the last has the current estimate.
    for candidate in candidates.iter().chain(std::iter::repeat(&current)).take(6) {
        print!(out; "{} ", Fields(*candidate))?;
    }
    Ok(())
}
