//! The same answers of a task with all its actions, and with those alone that the relaxed reach
//! keeps.

use std::alloc::Global;
use std::process::Abort;
use std::test::Fail;
use tp_happen::Step;
use tp_search::{Found, search};
use tp_task::Task;
use tp_testkit::{MATCH, MATCHES, TOGGLE, TOGGLED, World, kept_of, task_of};
use tp_text::Scale;

const HORIZON: u32 = 1_000_000;

const MOST_BUDGET: u32 = 50;

fn push_step(text: &mut String, task: &Task, step: &Step) -> Result<(), Fail> {
    let action = task.action_text(step.action)?;
    let line = format!(in *text.allocator(); "{}: {} [{}]\n", step.tick, action, step.duration)?;
    text.push_str(&line)?;
    Ok(())
}

fn text_of(alloc: Global, task: &Task, steps: &[Step]) -> Result<String, Fail> {
    let mut text = String::new(alloc);
    for step in steps {
        push_step(&mut text, task, step)?;
    }
    Ok(text)
}

/// The text of an answer; durations stand behind instantaneous actions too, as 0.
fn told(alloc: Global, task: &Task, found: &Found<'_>) -> Result<String, Fail> {
    match found {
        Found::Plan(plan) => text_of(alloc, task, plan.plan().steps()),
        Found::Unreachable => Ok(String::from_str(alloc, "unreachable")?),
        Found::Exhausted => Ok(String::from_str(alloc, "exhausted")?),
        Found::Spent(expanded) => Ok(format!(in alloc; "spent {expanded}")?),
    }
}

fn answer(alloc: Global, task: &Task, budget: u32) -> Result<String, Fail> {
    let found = search(alloc, task, budget, HORIZON)?;
    told(alloc, task, &found)
}

fn is_the_same(alloc: Global, all: &Task, kept: &Task, budget: u32) -> Result<bool, Fail> {
    let first = answer(alloc, all, budget)?;
    let second = answer(alloc, kept, budget)?;
    Ok(first.as_str() == second.as_str())
}

fn are_the_same(rt: &impl Abort, alloc: Global, all: &Task, kept: &Task) -> Result<(), Fail> {
    for budget in 0..=MOST_BUDGET {
        assert!(rt; is_the_same(alloc, all, kept, budget)?, "budget {budget}");
    }
    Ok(())
}

/// A domain, a problem, and how many actions both tasks have.
type Row = (&'static str, &'static str, (usize, usize));

const ROWS: [Row; 3] = [
    (TOGGLE, TOGGLED, (4, 4)),
    // What needs a switch can't be reached before one is given, and no action gives it to what
    // needs it.
    (
        TOGGLE,
        "(define (problem p) (:domain toggle) (:init) (:goal (done)))",
        (4, 3),
    ),
    (MATCH, MATCHES, (2, 2)),
];

fn both_are_searched(rt: &impl Abort, alloc: Global, row: Row) -> Result<(), Fail> {
    let world = World {
        domain: row.0,
        problem: row.1,
        scale: Scale::One,
        horizon: HORIZON,
    };
    let all = task_of(alloc, world)?;
    let kept = kept_of(alloc, world)?;
    let found = (all.actions.len(), kept.actions.len());
    assert!(rt; found == row.2, "{found:?}");
    are_the_same(rt, alloc, &all, &kept)
}

#[test]
fn both_tasks_have_the_same_answers(rt: HostRuntime) -> Result<(), Fail> {
    for row in ROWS {
        both_are_searched(&rt, rt.alloc(), row)?;
    }
    Ok(())
}
