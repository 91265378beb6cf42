//! A plan at the pointwise least schedule of its network: the same steps, none later than it has to
//! be.

ghost use Rattle.std.specs.Prelude.{◌≤◌, length};
ghost use Rattle.tp_solve.specs.Sought.{IsSought};

use std::alloc::{AllocError, Global};
use tp_bounds::{Limits, PlanNet};
use tp_deorder::{deorder, has_two};
use tp_exec_machine::Executive;
use tp_happen::Step;
use tp_net::Net;
use tp_repair::RepairNet;
use tp_search::certified;
use tp_task::Task;
use tp_validate::ValidPlan;

/// The most bounds of a network.
const MOST_BOUNDS: usize = 65_535;

/// The tick at which the last step ends, 0 where there is none.
pub fn makespan(steps: &[Step]) -> u32 {
    let mut last = 0;
    for step in steps {
        last = step.tick.saturating_add(step.duration).max(last);
    }
    last
}

/// The least moment of each event of a network, over all its schedules.
fn least_moments(alloc: Global, network: &PlanNet) -> Result<Vec<u32>, AllocError>
    requires { length network.now.bounds.items ≤ 65535 }
{
    let net = RepairNet::new(alloc, network.events.len() as u16, network.horizon)?;
    let limits = Limits::greatest(network.horizon);
    let executive = Executive::from_plan(alloc, network, limits, net)?;
    let mut moments = Vec::new(alloc);
    for e in 0..executive.net().events() {
        moments.push(executive.net().low(e))?;
    }
    Ok(moments)
}

fn moment_of(moments: &[u32], event: usize) -> u32 {
    moments.get(event).copied().unwrap_or(0)
}

/// The steps of a plan, each from the moment of its first event to that of its last one.
fn moved(
    alloc: Global,
    task: &Task,
    steps: &[Step],
    moments: &[u32],
) -> Result<Vec<Step>, AllocError> {
    let mut moved = Vec::new(alloc);
    let mut event = 0usize;
    for step in steps {
        let last = match has_two(task, step.action) {
            Some(true) => event.saturating_add(1),
            _ => event,
        };
        let tick = moment_of(moments, event);
        moved.push(Step {
            tick,
            action: step.action,
            duration: moment_of(moments, last).saturating_sub(tick),
        })?;
        event = last.saturating_add(1);
    }
    Ok(moved)
}

/// The steps of a plan at the least schedule of its network, None where it has no network within
/// the limits or no room for it.
fn least_steps(alloc: Global, plan: &ValidPlan<'_>) -> Option<Vec<Step>> {
    let task = plan.task();
    let network = deorder(alloc, plan, &task.limits).ok()?;
    if network.bounds.len() > MOST_BOUNDS {
        return None;
    }
    let moments = least_moments(alloc, &network).ok()?;
    moved(alloc, task, plan.plan().steps(), &moments).ok()
}

/// A plan at the least schedule of its network, where that is a valid plan that ends no later; else
/// the plan as it is.
pub(crate) fn tightened<'t>(
    alloc: Global,
    task: &'t Task,
    horizon: u32,
    plan: ValidPlan<'t>,
) -> ValidPlan<'t>
    requires { IsSought task.now horizon plan }
    ensures { IsSought task.now horizon result }
{
    let Some(steps) = least_steps(alloc, &plan) else {
        return plan;
    };
    match certified(alloc, task, horizon, steps) {
        Ok(Some(least)) => {
            if makespan(least.plan().steps()) <= makespan(plan.plan().steps()) {
                least
            } else {
                plan
            }
        }
        _ => plan,
    }
}
