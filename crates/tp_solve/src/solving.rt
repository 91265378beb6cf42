//! A plan of a task, or why there is none: the guided search first, then the search by the count of
//! unmet goal conjuncts.

ghost use Rattle.std.specs.Prelude.{◌≡◌, true, false, IfOk, IfSome};
ghost use Rattle.tp_task.specs.TaskReach.{GoalIs};
ghost use Rattle.tp_search.specs.Answers.{IsAnswer};
ghost use Rattle.tp_solve.specs.Sought.{IsSought};

use crate::board::tell;
use crate::least::{makespan, tightened};
use crate::seeking::{Aim, Outcome, bettered, sought};
use std::alloc::Global;
use std::io::{Write, sink};
use tp_guided::Guided;
use tp_search::{Found, SearchFault, certified, judge, search, unreachable_has_no_plan};
use tp_task::{Task, goal_in_reach};
use tp_validate::ValidPlan;

/// What is wished for beside a plan: better ones, until the budget is spent; and that the makespan
/// of each is told as it is found.
#[derive(Clone, Copy, Debug, PartialEq, Eq)]
pub struct Wishes {
    pub improve: bool,
    pub progress: bool,
}

/// What the guided search came to by itself: a plan, if it proposed a valid one, and of how many
/// expansions it took.
#[derive(Drop)]
pub struct Proposed<'t> {
    pub plan: Option<ValidPlan<'t>>,
    pub spent: u32,
}

/// The search by the count of unmet goal conjuncts, with what is left of a budget, as far as the
/// task's limits let it go. Where that is spent, the whole budget is.
pub fn search_rest<'t>(
    alloc: Global,
    task: &'t Task,
    budget: u32,
    spent: u32,
    horizon: u32,
) -> Result<Found<'t>, SearchFault>
    ensures { IfOk result (IsAnswer task.now budget horizon) }
{
    let left = budget.saturating_sub(spent);
    let left = left.min(task.limits.expansions());
    match search(alloc, task, left, horizon) {
        Ok(Found::Plan(plan)) => Ok(Found::Plan(tightened(alloc, task, horizon, plan))),
        Ok(Found::Unreachable) => Ok(Found::Unreachable),
        Ok(Found::Exhausted) => Ok(Found::Exhausted),
        Ok(Found::Spent(_)) => Ok(Found::Spent(budget)),
        Err(fault) => Err(fault),
    }
}

/// The plan that the guided search proposes within three quarters of a budget, and with it, where
/// that is wished for, the best that it proposes within all of it.
fn guided_plan<'t, B: Write>(
    aim: Aim<'t>,
    budget: u32,
    wishes: Wishes,
    board: &mut B,
) -> Result<Outcome<'t>, SearchFault>
    ensures plan { IfOk result
        (λ r. IfSome r.plan (IsSought aim.entry.task.now aim.entry.horizon)) }
    ensures quiet { wishes.progress ≡ false → board.new ≡ board.old }
{
    let mut guided = Guided::new(aim.alloc, aim.task, aim.horizon)?;
    let first = sought(aim, &mut guided, budget - budget / 4, None)?;
    let spent = first.spent;
    let Some(plan) = first.plan else {
        return Ok(Outcome {
            plan: None,
            spent,
            more: false,
        });
    };
    let ends = makespan(plan.plan().steps());
    tell(board, wishes.progress, ends, spent);
    if wishes.improve {
        let best = bettered(
            aim,
            &mut guided,
            budget,
            spent,
            plan,
            wishes.progress,
            board,
        );
        Ok(Outcome {
            plan: Some(best),
            spent,
            more: false,
        })
    } else {
        Ok(Outcome {
            plan: Some(plan),
            spent,
            more: false,
        })
    }
}

/// A plan of a task whose goal is in relaxed reach, or why there is none.
fn solve_in<'t, B: Write>(
    aim: Aim<'t>,
    budget: u32,
    wishes: Wishes,
    board: &mut B,
) -> Result<Found<'t>, SearchFault>
    requires { GoalIs aim.task.now true }
    ensures answer { IfOk result (IsAnswer aim.entry.task.now budget aim.entry.horizon) }
    ensures quiet { wishes.progress ≡ false → board.new ≡ board.old }
{
    if let Some(plan) = judge(aim.alloc, aim.task, &[])? {
        return Ok(Found::Plan(plan));
    }
    let guided = guided_plan(aim, budget, wishes, board)?;
    match guided.plan {
        Some(plan) => Ok(Found::Plan(plan)),
        None => search_rest(aim.alloc, aim.task, budget, guided.spent, aim.horizon),
    }
}

// The same for the guided search alone, whose goal is in relaxed reach.
fn propose_in<'t, B: Write>(
    aim: Aim<'t>,
    budget: u32,
    wishes: Wishes,
    board: &mut B,
) -> Result<Proposed<'t>, SearchFault>
    ensures plan { IfOk result
        (λ r. IfSome r.plan (IsSought aim.entry.task.now aim.entry.horizon)) }
    ensures quiet { wishes.progress ≡ false → board.new ≡ board.old }
{
    if let Some(plan) = certified(aim.alloc, aim.task, aim.horizon, Vec::new(aim.alloc))? {
        return Ok(Proposed {
            plan: Some(plan),
            spent: 0,
        });
    }
    let guided = guided_plan(aim, budget, wishes, board)?;
    Ok(Proposed {
        plan: guided.plan,
        spent: guided.spent,
    })
}

/// A plan of a task that ends by a horizon, at its least schedule, if the guided search proposes
/// one within three quarters of a budget: it alone, so that nothing is told of a task without one.
/// What is wished for beside is as in `solve_with`.
pub fn propose_with<'t, B: Write>(
    alloc: Global,
    task: &'t Task,
    budget: u32,
    horizon: u32,
    wishes: Wishes,
    board: &mut B,
) -> Result<Proposed<'t>, SearchFault>
    ensures plan { IfOk result (λ r. IfSome r.plan (IsSought task.now horizon)) }
    ensures quiet { wishes.progress ≡ false → board.new ≡ board.old }
{
    let aim = Aim {
        alloc,
        task,
        horizon,
    };
    let in_reach = goal_in_reach(alloc, task)?;
    if in_reach {
        propose_in(aim, budget, wishes, board)
    } else {
        Ok(Proposed {
            plan: None,
            spent: 0,
        })
    }
}

/// The same as `solve`, with what is wished for beside: that better plans are sought until the
/// budget is spent, so that the best one is the answer, and that the makespan of each plan of the
/// guided search goes to `board` as it is found.
pub fn solve_with<'t, B: Write>(
    alloc: Global,
    task: &'t Task,
    budget: u32,
    horizon: u32,
    wishes: Wishes,
    board: &mut B,
) -> Result<Found<'t>, SearchFault>
    ensures answer { IfOk result (IsAnswer task.now budget horizon) }
    ensures quiet { wishes.progress ≡ false → board.new ≡ board.old }
{
    unreachable_has_no_plan();
    let aim = Aim {
        alloc,
        task,
        horizon,
    };
    if goal_in_reach(alloc, task)? {
        solve_in(aim, budget, wishes, board)
    } else {
        Ok(Found::Unreachable)
    }
}

/// A plan of a task that ends by a horizon, at its least schedule, or why there is none. The guided
/// search has three quarters of the budget; where it proposes no valid plan, the search by the
/// count of unmet goal conjuncts answers with what is left, up to as many expansions as the task's
/// limits allow.
pub fn solve<'t>(
    alloc: Global,
    task: &'t Task,
    budget: u32,
    horizon: u32,
) -> Result<Found<'t>, SearchFault>
    ensures { IfOk result (IsAnswer task.now budget horizon) }
{
    let wishes = Wishes {
        improve: false,
        progress: false,
    };
    solve_with(alloc, task, budget, horizon, wishes, &mut sink())
}
