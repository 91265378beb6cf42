//! The runs of all agents, joined.

ghost use Rattle.std.specs.Prelude.{◌≡◌, ◌↔◌, ℕ, ◌<◌, length, IsTrue, IfOk, IfSome, option_map};
ghost use Rattle.tp_bounds.specs.Certificates.{IsListedSchedule};
ghost use Rattle.tp_exec_machine.specs.declared.command.Report.{Report};
ghost use Rattle.tp_agents.specs.Owners.{agent_count, events_of, AreOwners};
ghost use Rattle.tp_agents.specs.Joined.{IsComplete, AreComplete, FitParts, AreJoined, Joins, KeepParts};

use crate::divided::Split;
use crate::owners::place;
use std::alloc::{AllocError, Global};
use tp_exec_machine::{Kind, Report};

/// Whether every event of a part is dispatched and all its own bounds are in force.
fn is_complete(report: &Report) -> bool
    ensures { IsTrue result ↔ IsComplete report.entry.now }
{
    report.done && report.kind == Kind::Kept
}

/// The moments of all events, each as its agent's report tells it.
fn joined(alloc: Global, owners: &[u16], reports: &[Report]) -> Result<Vec<u32>, AllocError>
    requires owners { AreOwners (length owners.now) owners.now }
    requires all { length reports.now ≡ agent_count owners.now }
    requires fit { FitParts owners.now reports.now }
    ensures { IfOk result (λ moments. AreJoined owners.now reports.now moments.items) }
{
    let mut moments = Vec::new(alloc);
    for (e, agent) in owners.iter().enumerate() {
        let report = &reports[*agent as usize];
        moments.push(report.moments[place(owners, e)].0)?;
    }
    Ok(moments)
}

/// The moments of all events of the setting that was split, where there is one report for each
/// agent and each tells of a run in which every event is dispatched and no bound of its part was
/// withdrawn; else none. Where each report's moments are a schedule of its part, as those of such a
/// run are, these are a schedule of the setting.
///
/// It goes over the events before each event.
pub fn join_runs(
    alloc: Global,
    split: &Split,
    reports: &[Report],
) -> Result<Option<Vec<u32>>, AllocError>
    requires { FitParts split.now.owners.items reports.now }
    ensures joined { IfOk result (λ o. Joins split.now.owners.items reports.now
        (option_map (λ moments. moments.items) o)) }
    ensures schedule { KeepParts split.now.setting split.now.owners.items
        split.now.intervals.items reports.now → IfOk result (λ o. IfSome o
        (λ moments. IsListedSchedule split.now.setting moments.items)) }
{
    // this call tells that the bounds in force suit the setting
    let _events = split.setting.events();
    if reports.len() != split.agents() as usize {
        return Ok(None);
    }
    for report in reports {
        if !is_complete(report) {
            return Ok(None);
        }
    }
    Ok(Some(joined(alloc, &split.owners, reports)?))
}
