//! The executive in which the run of a plan begins.

ghost use Rattle.std.specs.Prelude.{◌≡◌, ℕ, ◌≤◌, List, length, IfOk};
ghost use Rattle.tp_bounds.specs.RunLimits.{greatest_limits};
ghost use Rattle.tp_bounds.specs.Setting.{event_count};
ghost use Rattle.tp_task.specs.declared.task.Task.{Task};
ghost use Rattle.tp_happen.specs.tp_plan_text.declared.plans.Step.{Step};
ghost use Rattle.tp_deorder.specs.Answers.{IsPlanNetOf};
ghost use Rattle.tp_exec.specs.FromPlan.{CameFrom};
ghost use Rattle.tp_exec_machine.specs.Machine.{IsFresh, plan_machine};
ghost use Rattle.tp_cli_bare.specs.Bare.{bare_failures, bare_read_failures};
ghost use Rattle.tp_cli_run.specs.Starts.{BeginsRun, IsNewRun};

use std::alloc::{AllocError, Global};
use tp_bounds::{Limits, PlanNet};
use tp_cli_bare::BareFault;
use tp_device::Source;
use tp_exec_machine::Executive;
use tp_repair::RepairNet;
use tp_script::{Lines, read_lags};

/// An executive over a network that is new but for lags, in which the bounds of a plan come into
/// force.
fn over(
    alloc: Global,
    network: &PlanNet,
    net: RepairNet,
) -> Result<Executive<RepairNet>, AllocError>
    requires fresh { IsFresh net.setting }
    requires events { event_count net.setting ≡ length network.now.events.items }
    requires until { net.setting.horizon ≡ network.now.horizon }
    requires bounds { length network.now.bounds.items ≤ 65535 }
    ensures machine { IfOk result (λ e. e ≡ plan_machine net.setting network.now.bounds.items
        (greatest_limits network.now.horizon)) }
    ensures came { IfOk result (λ e. (t : Task) (steps : List Step) → IsPlanNetOf t steps
        (greatest_limits network.now.horizon) network.now → CameFrom t steps e) }
{
    Executive::from_plan(alloc, network, Limits::greatest(network.horizon), net)
}

/// Reads the lags that stand at the beginning of a run, and makes the executive over the network of
/// its plan, under the greatest limits. It costs one addition to the network for each bound of the
/// plan.
///
/// # Errors
/// `Network` where memory is wanting; `Serving` with `Read` or `Head` of the lags.
pub fn start<I: Source>(
    alloc: Global,
    lines: &mut Lines<'_, I>,
    network: &PlanNet,
) -> Result<Executive<RepairNet>, BareFault>
    requires longest { lines.old.longest ≡ 256 }
    requires bounds { length network.now.bounds.items ≤ 65535 }
    ensures begins { BeginsRun network.now lines.old lines.new result }
    ensures new { IfOk result (IsNewRun network.now) }

    // It came from each plan that has this network.
    ensures came { IfOk result (λ e. (t : Task) (steps : List Step) → IsPlanNetOf t steps
        (greatest_limits network.now.horizon) network.now → CameFrom t steps e) }
    ensures longest { lines.new.longest ≡ lines.old.longest }
    ensures most { lines.new.most ≡ lines.old.most }
    ensures source { lines.new.source ≡ lines.old.source }
    ensures told { (n : ℕ) → bare_failures n result ≡ n }
    ensures read { lines.new.failures ≡ bare_read_failures lines.old.failures result }
{
    match RepairNet::new(alloc, network.events.len() as u16, network.horizon) {
        Ok(net) => {
            let mut net = net;
            match read_lags(lines, &mut net) {
                Ok(()) => match over(alloc, network, net) {
                    Ok(executive) => Ok(executive),
                    Err(_) => Err(BareFault::Network),
                },
                Err(fault) => Err(BareFault::Serving(fault)),
            }
        }
        Err(_) => Err(BareFault::Network),
    }
}
