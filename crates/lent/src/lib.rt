// Thin forms of the report: over a lent controller, and over a slice of packet records. Each gives
// what the call by value over three columns gives.
#![tactic(auto)]

ghost use Rattle.std.specs.Prelude.{◌≡◌, Ok};
ghost use Rattle.std.specs.Result.{result_unwrap_or};
ghost use Rattle.refusal.specs.Outcome.{and_then};
ghost use Rattle.loss_controller.specs.Report.{update_bandwidth_estimate};
ghost use Rattle.lent.specs.Records.{update_records};

use bandwidth::Bitrate;
use loss_controller::LossController;
use packets::{PacketResult, PacketResultsSummary, PacketSize};
use refusal::Refusal;

// The report over three columns, on a controller that is lent. A refusal leaves it as it was.
pub fn update_lent(
    controller: &mut LossController,
    times: &[u64],
    sizes: &[PacketSize],
    flags: &[u8],
    delay_based_estimated: Bitrate,
) -> Result<(), Refusal>
    ensures answered { result
        ≡ and_then (update_bandwidth_estimate controller.old times.now sizes.now flags.now delay_based_estimated) (λ _. Ok tt) }
    ensures left { controller.new
        ≡ result_unwrap_or (update_bandwidth_estimate controller.old times.now sizes.now flags.now delay_based_estimated) controller.old }
{
    *controller = controller.update_bandwidth_estimate(times, sizes, flags, delay_based_estimated)?;
    Ok(())
}

// The report over packet records.
pub fn update_records(
    controller: LossController,
    records: &[PacketResult],
    delay_based_estimated: Bitrate,
) -> Result<LossController, Refusal>
    ensures { result ≡ update_records controller records.now delay_based_estimated }
{
    if records.len() > packets::MOST_PACKETS_IN_REPORT {
        return Err(Refusal::TooManyPackets);
    }
    loss_controller::check_rate(delay_based_estimated)?;
    let mut summary = PacketResultsSummary::EMPTY;
    for record in records {
        summary = summary.add(*record)?;
    }
    controller.update_with_summary(summary, delay_based_estimated)
}
