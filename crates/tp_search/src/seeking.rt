//! The search: nodes are taken from a frontier and expanded, up to a budget.

ghost use Rattle.std.specs.Prelude.{◌≡◌, ◌≤◌, [], true, false, IfOk, IfSome};
ghost use Rattle.tp_task.specs.Reach as spec;
ghost use Rattle.tp_validate.specs.OfTask.{IsValidPlan};
ghost use Rattle.tp_task.specs.TaskReach.{GoalIs};
ghost use Rattle.tp_search.specs.Plans.{EndsBy};
ghost use Rattle.tp_search.specs.Answers.{IsAnswer};

use crate::at_once::{judge, plan_at_once};
use crate::certify::certified;
use crate::found::Found;
use crate::progress::tell;
use std::alloc::{AllocError, Global};
use std::io::{Write, sink};
use tp_happen::Step;
use tp_search_frontier::{Chosen, Frontier, SearchFault};
use tp_task::{Task, met, reach};
use tp_validate::ValidPlan;

fn step_of(chosen: &Chosen) -> Step {
    Step {
        tick: chosen.tick,
        action: chosen.action,
        duration: chosen.duration,
    }
}

fn steps_of(alloc: Global, chosen: &[Chosen]) -> Result<Vec<Step>, AllocError> {
    chosen.iter().map(step_of).collect(alloc)
}

// The plan of a node that lacks no conjunct and past whose tick nothing runs, if it is valid.
fn plan_at<'t>(
    alloc: Global,
    task: &'t Task,
    frontier: &mut Frontier,
    node: u32,
    horizon: u32,
) -> Result<Option<ValidPlan<'t>>, SearchFault>
    ensures { IfOk result (λ r. IfSome r
        (λ v. (v.task ≡ task.now) × EndsBy horizon v.steps × IsValidPlan task.now v.steps)) }
{
    if !frontier.nothing_runs(node)? {
        return Ok(None);
    }
    let chosen = frontier.steps(node)?;
    let steps = steps_of(alloc, &chosen)?;
    certified(alloc, task, horizon, steps)
}

// Takes nodes until one is a plan, the budget is spent or none is left.
fn seek<'t, B: Write>(
    alloc: Global,
    task: &'t Task,
    frontier: &mut Frontier,
    budget: u32,
    horizon: u32,
    progress: bool,
    board: &mut B,
) -> Result<Found<'t>, SearchFault>
    requires in_reach { GoalIs task.now true }
    requires not_empty { ¬ IsValidPlan task.now [] }
    ensures answer { IfOk result (IsAnswer task.now budget horizon) }
    ensures quiet { progress ≡ false → board.new ≡ board.old }
{
    let mut expanded = 0;
    let mut least = usize::MAX;
    while let Some((node, lacking)) = frontier.take() {
        least = least.min(lacking);
        if lacking == 0 {
            if let Some(plan) = plan_at(alloc, task, frontier, node, horizon)? {
                return Ok(Found::Plan(plan));
            }
        }
        if expanded >= budget {
            return Ok(Found::Spent(expanded));
        }
        frontier.expand(node)?;
        expanded += 1;
        tell(board, progress, frontier, expanded, least);
    }
    plan_at_once(alloc, task, budget, horizon)
}

// The search of a task whose goal is in relaxed reach, over what is in reach.
fn seek_in<'t, B: Write>(
    alloc: Global,
    task: &'t Task,
    reached: &[bool],
    budget: u32,
    horizon: u32,
    progress: bool,
    board: &mut B,
) -> Result<Found<'t>, SearchFault>
    requires { GoalIs task.now true }
    ensures answer { IfOk result (IsAnswer task.now budget horizon) }
    ensures quiet { progress ≡ false → board.new ≡ board.old }
{
    if let Some(plan) = judge(alloc, task, &[])? {
        return Ok(Found::Plan(plan));
    }
    let mut frontier = Frontier::new(alloc, task, reached, horizon)?;
    seek(alloc, task, &mut frontier, budget, horizon, progress, board)
}

/// The same as `search`; where progress is wished for, `board` is told after each 100,000
/// expansions how many there were, how many nodes wait, and the least number of goal conjuncts that
/// one lacked.
#[tactic(auto, using(crate::proofs::Unreachable::unreachable))]
pub fn search_with<'t, B: Write>(
    alloc: Global,
    task: &'t Task,
    budget: u32,
    horizon: u32,
    progress: bool,
    board: &mut B,
) -> Result<Found<'t>, SearchFault>
    ensures answer { IfOk result (IsAnswer task.now budget horizon) }
    ensures quiet { progress ≡ false → board.new ≡ board.old }
{
    let reached = reach(alloc, task)?;
    if met(&reached, true, &task.goal) {
        seek_in(alloc, task, &reached, budget, horizon, progress, board)
    } else {
        Ok(Found::Unreachable)
    }
}

/// Searches for a plan that ends by a horizon, with at most so many expansions. Nodes are taken by
/// the least number of goal conjuncts that they lack, and then in the order in which they were
/// made. It takes the time of the children looked at, the memory of those that the budget could
/// reach when they were made and of what can start at the waits of which a child starts something,
/// and what the relaxed reach takes; where no node is left, also a look at all sets of actions that
/// can happen at once at tick 0, at most as many as the budget.
pub fn search<'t>(
    alloc: Global,
    task: &'t Task,
    budget: u32,
    horizon: u32,
) -> Result<Found<'t>, SearchFault>
    ensures { IfOk result (IsAnswer task.now budget horizon) }
{
    search_with(alloc, task, budget, horizon, false, &mut sink())
}
