//! Plans that are read, judged and looked for.

use crate::again::worlds::task_of;
use std::alloc::Global;
use std::test::Fail;
use tp_happen::read_plan;
use tp_search::{Found, search};
use tp_task::Task;
use tp_testkit::{CHARGES, FUSES, SWITCHES, TANKS, World};
use tp_validate::{ValidPlan, ValidateFault, Verdict, validate};

/// The valid plan of a text. Where memory is refused to the verdict, it is asked for once more, of
/// the plan that was handed back.
pub(crate) fn valid_plan<'t>(
    alloc: Global,
    task: &'t Task,
    text: &str,
) -> Result<ValidPlan<'t>, Fail> {
    let plan = again!(read_plan(alloc, text, task))?;
    let verdict = match validate(alloc, task, plan) {
        Err(ValidateFault::Memory(plan)) => validate(alloc, task, plan),
        verdict => verdict,
    };
    match verdict? {
        Verdict::Valid(valid) => Ok(valid),
        Verdict::Invalid {
            plan: _,
            tick: _,
            why: _,
        } => Err("the plan is not valid".into()),
    }
}

/// How many steps the plan has that is found with that budget, if one is.
fn steps_found(alloc: Global, task: &Task, budget: u32) -> Result<Option<usize>, Fail> {
    match again!(search(alloc, task, budget, 100))? {
        Found::Plan(plan) => Ok(Some(plan.plan().steps().len())),
        _ => Ok(None),
    }
}

fn finds(alloc: Global, world: World<'_>, budget: u32, steps: Option<usize>) -> Result<bool, Fail> {
    let task = task_of(alloc, world)?;
    Ok(steps_found(alloc, &task, budget)? == steps)
}

#[test]
fn plans_that_are_found(rt: HostRuntime) -> Result<(), Fail> {
    for (world, budget, steps) in [
        (FUSES, 7, Some(2)),
        (FUSES, 6, None),
        (SWITCHES, 1, Some(1)),
        (TANKS, 2, Some(2)),
        (CHARGES, 3, Some(1)),
    ] {
        let found = finds(rt.alloc(), world, budget, steps)?;
        assert!(rt; found, "{budget}");
    }
    Ok(())
}
