//! Relaxed plans, with and without running steps.

use crate::guided::kinds::task_for;
use std::alloc::{AllocError, Global};
use std::process::Abort;
use std::test::Fail;
use tp_guided_costs::{Heuristic, Relaxed, build};
use tp_search_compiled::{Running, State, Task};

// Of the actions, in their order: open, switch l1, switch l2, fill, drain, set, pay, burn l1, burn
// l2.
const SWITCH: u32 = 1;

const BURN: u32 = 7;

// The plan is to switch the first lamp on and to burn it.
fn burns(rt: &impl Abort, heuristic: &Heuristic<'_>) {
    let plan = heuristic.plan();
    let actions = (
        plan.get(0).map_or(0, |w| w.action),
        plan.get(1).map_or(0, |w| w.action),
    );
    assert!(rt; plan.len() == 2 && actions == (SWITCH, BURN), "{actions:?}");
    assert!(rt; heuristic.times(SWITCH) == 1 && heuristic.times(0) == 0);
    assert!(rt; heuristic.stands_on(1, 0) && !heuristic.stands_on(0, 1));
    assert!(rt; heuristic.span() == 5 && heuristic.needs(SWITCH).len() == 1);
}

fn relaxed_of(alloc: Global, task: &Task) -> Result<Relaxed, AllocError> {
    let state = State::initial(alloc, task)?;
    build(alloc, task, &state, None)
}

#[test]
fn a_plan_has_its_starts_in_order(rt: HostRuntime) -> Result<(), Fail> {
    let task = task_for(rt.alloc(), "(night)")?;
    let relaxed = relaxed_of(rt.alloc(), &task)?;
    let state = State::initial(rt.alloc(), &task)?;
    let mut heuristic = Heuristic::new(rt.alloc(), &task, &relaxed, false)?;
    let value = heuristic.evaluate(&state, &[], 0)?;
    assert!(rt; value == 3 && heuristic.is_reached(BURN), "{value}");
    burns(&rt, &heuristic);
    Ok(())
}

// Carries out the first event of an action.
fn start(state: &mut State, task: &Task, action: u32) -> Result<bool, AllocError> {
    match task.start_of(action) {
        Some(event) => state.apply(task, event, 5),
        None => Ok(false),
    }
}

// While the first lamp burns, its end alone is wanted.
#[test]
fn a_running_step_has_to_end(rt: HostRuntime) -> Result<(), Fail> {
    let task = task_for(rt.alloc(), "(on l1)")?;
    let relaxed = relaxed_of(rt.alloc(), &task)?;
    let mut state = State::initial(rt.alloc(), &task)?;
    let started = start(&mut state, &task, SWITCH)? && start(&mut state, &task, BURN)?;
    let running = [Running {
        action: BURN,
        duration: 5,
        left: 4,
    }];
    let mut heuristic = Heuristic::new(rt.alloc(), &task, &relaxed, false)?;
    let value = heuristic.evaluate(&state, &running, 0)?;
    assert!(rt; started && value == 1 && heuristic.span() == 4, "{value}");
    assert!(rt; heuristic.plan().is_empty());
    Ok(())
}
