//! What is found is judged: steps are a plan only if the validator says so.

ghost use Rattle.std.specs.Prelude.{◌≡◌, ◌≤◌, ◌&&◌, true, nat_le, length, IfOk, IfSome};
ghost use Rattle.std.specs.List.{list_all};
ghost use Rattle.tp_happen.specs.tp_plan_text.Steps.{IsPlan, ends_in_time};
ghost use Rattle.tp_happen.specs.tp_plan_text.TaskWords.{is_durative};
ghost use Rattle.tp_validate.specs.OfTask.{IsOfTask, IsValidPlan, is_step_of};
ghost use Rattle.tp_search.specs.Plans.{ends_by, is_step_within, EndsBy, is_plan_within};

use std::alloc::Global;
use tp_happen::{Plan, Step};
use tp_search_frontier::SearchFault;
use tp_task::{Body, MOST_STEPS, Task};
use tp_validate::{ValidPlan, ValidateFault, Verdict, validate};

// Whether a step ends by a tick.
fn ends_by(step: Step, tick: u32) -> bool
    ensures { result ≡ ends_by tick step }
{
    u64::from(step.tick) + u64::from(step.duration) <= u64::from(tick)
}

// Whether a step is of the task: its action is, and lasts or has no duration.
fn is_step_of(task: &Task, step: Step) -> bool
    ensures { result ≡ is_step_of task.now step }
{
    match task.actions.get(step.action.0 as usize) {
        Some(Body::Instant(_)) => step.duration == 0,
        Some(Body::Durative(_, _, _)) => true,
        None => false,
    }
}

fn is_step_within(task: &Task, step: Step, horizon: u32) -> bool
    ensures { result ≡ is_step_within task.now horizon step }
{
    is_step_of(task, step) && ends_by(step, horizon) && ends_by(step, 1_000_000_000)
}

fn all_within(task: &Task, steps: &[Step], horizon: u32) -> bool
    ensures { result ≡ list_all (is_step_within task.now horizon) steps.now }
{
    steps
        .iter()
        .all(|step| is_step_within(task, *step, horizon))
}

// Whether steps are a plan of the task that ends by a horizon.
fn is_plan_within(task: &Task, steps: &[Step], horizon: u32) -> bool
    ensures { result ≡ is_plan_within task.now horizon steps.now }
{
    steps.len() <= MOST_STEPS && all_within(task, steps, horizon)
}

// The validated plan, None where it is not valid.
fn judged<'t>(
    alloc: Global,
    task: &'t Task,
    plan: Plan,
) -> Result<Option<ValidPlan<'t>>, SearchFault>
    requires { IsOfTask task.now plan }
    ensures { IfOk result
        (λ r. IfSome r (λ v. (v.task ≡ task.now) × (v.steps ≡ plan) × IsValidPlan task.now plan)) }
{
    match validate(alloc, task, plan) {
        Ok(Verdict::Valid(valid)) => Ok(Some(valid)),
        Ok(Verdict::Invalid { .. }) => Ok(None),
        Err(ValidateFault::Memory(_)) => Err(SearchFault::Memory),
        Err(ValidateFault::Range(_)) => Err(SearchFault::Range),
    }
}

/// The validated plan of some steps, None where they are none that is valid and ends by a horizon.
pub fn certified<'t>(
    alloc: Global,
    task: &'t Task,
    horizon: u32,
    steps: Vec<Step>,
) -> Result<Option<ValidPlan<'t>>, SearchFault>
    ensures { IfOk result (λ r. IfSome r
        (λ v. (v.task ≡ task.now) × EndsBy horizon v.steps × IsValidPlan task.now v.steps)) }
{
    if is_plan_within(task, &steps, horizon) {
        judged(alloc, task, Plan::new(steps))
    } else {
        Ok(None)
    }
}
