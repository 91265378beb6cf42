//! The plans that the guided search proposes: each is judged, and put at its least schedule.

ghost use Rattle.std.specs.Prelude.{◌≡◌, false, IfOk, IfSome};
ghost use Rattle.tp_solve.specs.Sought.{IsSought};

use crate::board::tell;
use crate::least::{makespan, tightened};
use std::alloc::Global;
use std::io::Write;
use tp_guided::{Guided, Proposal};
use tp_happen::Step;
use tp_search::{SearchFault, certified};
use tp_task::Task;
use tp_validate::ValidPlan;

/// What is sought: plans of a task that end by a horizon.
#[derive(Clone, Copy)]
pub(crate) struct Aim<'t> {
    pub(crate) alloc: Global,
    pub(crate) task: &'t Task,
    pub(crate) horizon: u32,
}

/// What a part of the guided search came to: a plan, if it proposed a valid one, how many nodes it
/// expanded, and whether there may be more.
#[derive(Drop)]
pub(crate) struct Outcome<'t> {
    pub(crate) plan: Option<ValidPlan<'t>>,
    pub(crate) spent: u32,
    pub(crate) more: bool,
}

/// The plan of some proposed steps, None where the validator takes them for none.
fn judged<'t>(aim: Aim<'t>, steps: Vec<Step>) -> Result<Option<ValidPlan<'t>>, SearchFault>
    ensures { IfOk result (λ r. IfSome r (IsSought aim.entry.task.now aim.entry.horizon)) }
{
    match certified(aim.alloc, aim.task, aim.horizon, steps) {
        Ok(Some(plan)) => Ok(Some(tightened(aim.alloc, aim.task, aim.horizon, plan))),
        Ok(None) => Ok(None),
        Err(SearchFault::Range) => Ok(None),
        Err(SearchFault::Memory) => Err(SearchFault::Memory),
    }
}

/// Lets the guided search go on until it proposes a plan or the budget is spent; where `before` is
/// given, a plan that ends before it.
pub(crate) fn sought<'t>(
    aim: Aim<'t>,
    guided: &mut Guided<'_>,
    budget: u32,
    before: Option<u32>,
) -> Result<Outcome<'t>, SearchFault>
    ensures { IfOk result (λ r. IfSome r.plan (IsSought aim.entry.task.now aim.entry.horizon)) }
{
    let Proposal {
        steps,
        spent,
        exhausted: _,
    } = guided.seek(budget, before)?;
    match steps {
        Some(steps) => Ok(Outcome {
            plan: judged(aim, steps)?,
            spent,
            more: true,
        }),
        None => Ok(Outcome {
            plan: None,
            spent,
            more: false,
        }),
    }
}

/// The same for a plan that ends before a tick. Where the search has no answer, there is no more.
fn better<'t>(aim: Aim<'t>, guided: &mut Guided<'_>, budget: u32, before: u32) -> Outcome<'t>
    ensures { IfSome result.plan (IsSought aim.entry.task.now aim.entry.horizon) }
{
    match sought(aim, guided, budget, Some(before)) {
        Ok(next) => next,
        Err(_) => Outcome {
            plan: None,
            spent: 0,
            more: false,
        },
    }
}

/// A plan, or another one that ends earlier, which is told as found after so many expansions.
fn earlier<'t, B: Write>(
    aim: Aim<'t>,
    best: ValidPlan<'t>,
    next: Option<ValidPlan<'t>>,
    spent: u32,
    progress: bool,
    board: &mut B,
) -> ValidPlan<'t>
    requires best { IsSought aim.task.now aim.horizon best }
    requires next { IfSome next (IsSought aim.task.now aim.horizon) }
    ensures plan { IsSought aim.entry.task.now aim.entry.horizon result }
    ensures quiet { progress ≡ false → board.new ≡ board.old }
{
    let Some(plan) = next else {
        return best;
    };
    let ends = makespan(plan.plan().steps());
    if ends < makespan(best.plan().steps()) {
        tell(board, progress, ends, spent);
        plan
    } else {
        best
    }
}

/// Lets the guided search go on from a plan, found after so many expansions, until the budget is
/// spent. Each better plan takes the place of the last. Where the search has no answer, as for want
/// of memory, the best so far stands.
pub(crate) fn bettered<'t, B: Write>(
    aim: Aim<'t>,
    guided: &mut Guided<'_>,
    budget: u32,
    expanded: u32,
    first: ValidPlan<'t>,
    progress: bool,
    board: &mut B,
) -> ValidPlan<'t>
    requires { IsSought aim.task.now aim.horizon first }
    ensures plan { IsSought aim.entry.task.now aim.entry.horizon result }
    ensures quiet { progress ≡ false → board.new ≡ board.old }
{
    let mut best = first;
    let mut spent = expanded;
    'rounds: for _ in expanded..budget {
        let ends = makespan(best.plan().steps());
        let next = better(aim, guided, budget.saturating_sub(spent), ends);
        spent = spent.saturating_add(next.spent);
        if !next.more {
            return best;
        }
        best = earlier(aim, best, next.plan, spent, progress, board);
    }
    best
}
