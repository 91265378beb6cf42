//! What is told of a task, and states.

ghost use Rattle.std.specs.Prelude.{◌≡◌, true, IfOk};
ghost use Rattle.tp_exec_tests.specs.OfTask.{has_event};

use crate::again::worlds::{kept_of, task_of};
use std::alloc::Global;
use std::test::Fail;
use tp_happen::{EventRef, Outcome, Part, State, apply, event};
use tp_task::{ActionId, AtomId, FluentId, Task};
use tp_testkit::{CHARGES, FUSES, SWITCHES, TANKS, World};

/// Whether the first action and the first atom of a task have these texts.
fn tells(task: &Task, action: &str, atom: &str) -> Result<bool, Fail> {
    let first = again!(task.action_text(ActionId(0)))?;
    let second = again!(task.atom_text(AtomId(0)))?;
    Ok(first.as_str() == action && second.as_str() == atom)
}

/// Whether they have these in the task of all actions and in that of those in reach.
fn tell_both(alloc: Global, world: World<'_>, action: &str, atom: &str) -> Result<bool, Fail> {
    let all = task_of(alloc, world)?;
    let kept = kept_of(alloc, world)?;
    Ok(tells(&all, action, atom)? && tells(&kept, action, atom)?)
}

#[test]
fn texts_of_actions_and_atoms(rt: HostRuntime) -> Result<(), Fail> {
    for (world, action, atom) in [
        (FUSES, "(light-match m1)", "(unused m1)"),
        (SWITCHES, "(need)", "(p)"),
        (CHARGES, "(charge)", "(full)"),
    ] {
        assert!(rt; tell_both(rt.alloc(), world, action, atom)?, "{action}");
    }
    Ok(())
}

/// An event of an action without objects, in a step of so many ticks.
fn event_of<'t>(task: &'t Task, name: &str, part: Part, ticks: u32) -> Result<EventRef<'t>, Fail>
    ensures { IfOk result (λ e. has_event task.now e.event ≡ true) }
{
    let action = task.action(name, &[]).ok_or("no such action")?;
    let one = event(task, action, part).ok_or("no such event")?;
    Ok(EventRef::new(one, ticks))
}

/// The value of the first fluent behind one event in the initial state, if that is possible.
fn value_after(
    alloc: Global,
    task: &Task,
    name: &str,
    part: Part,
    ticks: u32,
) -> Result<Option<i64>, Fail> {
    let state = again!(State::initial(alloc, task))?;
    let events = [event_of(task, name, part, ticks)?];
    match again!(apply(alloc, &state, &events))? {
        Outcome::Next(next) => Ok(next.number(FluentId(0))),
        Outcome::Fails(_, _) => Ok(None),
    }
}

fn gives(
    alloc: Global,
    world: World<'_>,
    name: &str,
    part: Part,
    ticks: u32,
) -> Result<Option<i64>, Fail> {
    let task = task_of(alloc, world)?;
    value_after(alloc, &task, name, part, ticks)
}

#[test]
fn happenings_of_one_event(rt: HostRuntime) -> Result<(), Fail> {
    for (world, name, part, ticks, value) in [
        (TANKS, "fill-b", Part::Only, 0, 2),
        (CHARGES, "charge", Part::End, 4, 8),
    ] {
        let found = gives(rt.alloc(), world, name, part, ticks)?;
        assert!(rt; found == Some(value), "{name}");
    }
    Ok(())
}
