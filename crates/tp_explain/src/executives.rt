//! The executive of a journal's head, or of a plan's network.

ghost use Rattle.std.specs.Prelude.{◌≤◌, IfSome};

use crate::networks::network_in;
use std::alloc::Global;
use tp_bounds::{MOST_HORIZON, PlanNet};
use tp_cli_audit::{bare_start, is_bare, lags_suit, plan_start};
use tp_cli_files::Files;
use tp_cli_inputs::PlanWords;
use tp_exec_machine::Executive;
use tp_explain_faults::Call;
use tp_journal::JournalHead;
use tp_repair::RepairNet;

/// The executive of the head of a journal of `bare`.
pub fn bare_executive(alloc: Global, head: &JournalHead) -> Option<Executive<RepairNet>> {
    if is_bare(head) {
        bare_start(alloc, head).ok()
    } else {
        None
    }
}

/// The executive over the network of a plan, with the lags of the head of its journal.
pub fn plan_executive(
    alloc: Global,
    network: &PlanNet,
    head: &JournalHead,
) -> Option<Executive<RepairNet>> {
    if network.bounds.len() <= 65_535 && lags_suit(network, head) {
        plan_start(alloc, network, head).ok()
    } else {
        None
    }
}

/// The words of the plan of a call, where its horizon is one.
pub fn plan_words<'w>(call: &Call<'w>) -> Option<PlanWords<'w>>
    ensures { IfSome result (λ words. words.horizon ≤ 1000000000) }
{
    if call.horizon > MOST_HORIZON {
        return None;
    }
    Some(PlanWords {
        domain: call.domain,
        problem: call.problem,
        plan: call.plan,
        scale: call.scale,
        horizon: call.horizon,
    })
}

/// The network of the plan of a call.
pub fn plan_network<N: Files>(alloc: Global, files: &mut N, call: &Call<'_>) -> Option<PlanNet> {
    network_in(alloc, files, plan_words(call)?)
}
