//! The executive against which the journal of a plan's run is audited.

ghost use Rattle.std.specs.Prelude.{◌≡◌, ◌≤◌, List, length, IfOk, IsTrue, ◌↔◌};
ghost use Rattle.tp_bounds.specs.RunLimits.{greatest_limits};
ghost use Rattle.tp_task.specs.declared.task.Task.{Task};
ghost use Rattle.tp_happen.specs.tp_plan_text.declared.plans.Step.{Step};
ghost use Rattle.tp_deorder.specs.Answers.{IsPlanNetOf};
ghost use Rattle.tp_exec.specs.FromPlan.{CameFrom};
ghost use Rattle.tp_journal_pairs.specs.Writing.{IsNewExecutive};
ghost use Rattle.tp_cli_audit.specs.PlanAudits.{LagsFit, audit_machine};

use crate::bare::{lags_fit, set_lags};
use std::alloc::{AllocError, Global};
use tp_bounds::{Limits, PlanNet};
use tp_exec_machine::Executive;
use tp_journal::JournalHead;
use tp_repair::RepairNet;

/// Whether the lags that the head of a journal tells are of events of a plan's network, and in
/// range.
pub fn lags_suit(network: &PlanNet, head: &JournalHead) -> bool
    ensures { IsTrue result ↔ LagsFit network.now head.now }
{
    lags_fit(network.events.len() as u16, head.lags.as_slice())
}

/// The executive over the network of a plan, with the lags that the head of a journal tells, under
/// the greatest limits. It is new. It costs one addition to the network for each bound of the plan.
pub fn plan_start(
    alloc: Global,
    network: &PlanNet,
    head: &JournalHead,
) -> Result<Executive<RepairNet>, AllocError>
    requires bounds { length network.now.bounds.items ≤ 65535 }
    requires lags { LagsFit network.now head.now }
    ensures machine { IfOk result (λ m. m ≡ audit_machine network.now head.now) }
    ensures new { IfOk result IsNewExecutive }

    // It came from each plan that has this network.
    ensures came { IfOk result (λ e. (t : Task) (steps : List Step) → IsPlanNetOf t steps
        (greatest_limits network.now.horizon) network.now → CameFrom t steps e) }
{
    let mut net = RepairNet::new(alloc, network.events.len() as u16, network.horizon)?;
    set_lags(&mut net, head.lags.as_slice());
    Executive::from_plan(alloc, network, Limits::greatest(network.horizon), net)
}
