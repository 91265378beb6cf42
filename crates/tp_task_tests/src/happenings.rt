//! What comes of events at one tick, and what is told of states and events.

ghost use Rattle.std.specs.Prelude.{◌≡◌, true, IfOk};
ghost use Rattle.std.specs.List.{list_all};
ghost use Rattle.tp_task_tests.specs.OfTask.{has_event};

use std::alloc::{AllocError, Global};
use std::process::Abort;
use std::test::Fail;
use tp_happen::{
    ApplyFault, Event, EventRef, Outcome, Part, State, Why, apply, event, holds, interferes, value,
};
use tp_task::{ActionId, AtomId, Expr, FluentId, Task};
use tp_testkit::{CHARGES, FUSES, SWITCHES, TANK, TANKS, World, task_of};
use tp_text::Scale;

/// An event of an action without objects: its name, which event it is, and the ticks of its step.
type Named = (&'static str, Part, u32);

/// What a happening comes to: the atoms that are true then, the value of the first fluent, the
/// first fault, or a number past the limit.
#[derive(Clone, Copy)]
enum Then {
    Atoms(&'static str),
    Number(i64),
    Fails(usize, Why),
    Range,
}

fn event_of<'t>(task: &'t Task, name: &str, part: Part) -> Result<Event<'t>, Fail>
    ensures { IfOk result (λ e. has_event task.now e ≡ true) }
{
    let action = task.action(name, &[]).ok_or("no such action")?;
    Ok(event(task, action, part).ok_or("no such event")?)
}

fn events_of<'t>(
    alloc: Global,
    task: &'t Task,
    happening: &[Named],
) -> Result<Vec<EventRef<'t>>, Fail>
    ensures { IfOk result (λ v. list_all (λ e. has_event task.now e.event) v.items ≡ true) }
{
    let mut events = Vec::new(alloc);
    for (name, part, ticks) in happening {
        events.push(EventRef::new(event_of(task, name, *part)?, *ticks))?;
    }
    Ok(events)
}

/// What a happening comes to in the initial state.
fn outcome_of(
    alloc: Global,
    task: &Task,
    happening: &[Named],
) -> Result<Result<Outcome, ApplyFault>, Fail> {
    let state = State::initial(alloc, task)?;
    let events = events_of(alloc, task, happening)?;
    Ok(apply(alloc, &state, &events))
}

/// The atoms that are true, of the first four, as texts one after another.
fn truths(alloc: Global, task: &Task, state: &State) -> Result<String, AllocError> {
    let mut text = String::new(alloc);
    for number in 0..4u32 {
        if state.has(AtomId(number)) {
            text.push_str(task.atom_text(AtomId(number))?.as_str())?;
        }
    }
    Ok(text)
}

fn is_then(
    alloc: Global,
    task: &Task,
    outcome: &Result<Outcome, ApplyFault>,
    then: Then,
) -> Result<bool, Fail> {
    match (outcome, then) {
        (Ok(Outcome::Next(state)), Then::Atoms(text)) => {
            Ok(truths(alloc, task, state)?.as_str() == text)
        }
        (Ok(Outcome::Next(state)), Then::Number(number)) => {
            Ok(state.number(FluentId(0)) == Some(number))
        }
        (Ok(Outcome::Fails(place, why)), Then::Fails(wanted, fault)) => {
            Ok(*place == wanted && *why == fault)
        }
        (Err(ApplyFault::Range), Then::Range) => Ok(true),
        _ => Ok(false),
    }
}

/// A world, events at one tick in its initial state, and what comes of them.
type Row = (World<'static>, &'static [Named], Then);

// A tank that is as full as a number may be.
const BRIMS: World<'static> = World {
    domain: TANK,
    problem: "(define (problem p) (:domain tank)
 (:init (= (level) 1000000000000000)) (:goal (>= (level) 3)))",
    scale: Scale::One,
    horizon: 100,
};

const THOUSANDTHS: World<'static> = World {
    scale: Scale::Thousand,
    ..CHARGES
};

const FILL_A: Named = ("fill-a", Part::Only, 0);

const FILL_B: Named = ("fill-b", Part::Only, 0);

const NEED: Named = ("need", Part::Only, 0);

const DROP: Named = ("drop", Part::Only, 0);

const GIVE: Named = ("give", Part::Only, 0);

const ROWS: [Row; 9] = [
    (TANKS, &[], Then::Number(0)),
    (TANKS, &[FILL_A, FILL_B], Then::Number(3)),
    (BRIMS, &[FILL_A], Then::Range),
    (SWITCHES, &[NEED], Then::Atoms("(p)(done)")),
    (SWITCHES, &[DROP, GIVE], Then::Atoms("(q)")),
    (SWITCHES, &[NEED, DROP], Then::Fails(0, Why::Interferes(1))),
    (CHARGES, &[("charge", Part::End, 4)], Then::Number(8)),
    (THOUSANDTHS, &[("charge", Part::End, 4000)], Then::Number(8)),
    (
        THOUSANDTHS,
        &[("charge", Part::End, 4500)],
        Then::Fails(0, Why::Undefined),
    ),
];

fn is_row(alloc: Global, row: &Row) -> Result<bool, Fail> {
    let task = task_of(alloc, row.0)?;
    let outcome = outcome_of(alloc, &task, row.1)?;
    is_then(alloc, &task, &outcome, row.2)
}

#[test]
fn events_at_one_tick(rt: HostRuntime) -> Result<(), Fail> {
    for (number, row) in ROWS.iter().enumerate() {
        assert!(rt; is_row(rt.alloc(), row)?, "row {number}");
    }
    Ok(())
}

/// The number of an action of toggle, a part, and whether it has that event.
const LENT: [(u32, Part, bool); 8] = [
    (0, Part::Only, true),
    (0, Part::Start, false),
    (0, Part::End, false),
    (3, Part::Only, false),
    (3, Part::Start, true),
    (3, Part::End, true),
    (4, Part::Only, false),
    (4, Part::Start, false),
];

fn lends(rt: &impl Abort, task: &Task) {
    for (action, part, lent) in LENT {
        let found = event(task, ActionId(action), part).is_some();
        assert!(rt; found == lent, "{action}");
    }
}

fn do_interfere(task: &Task, first: &str, second: &str) -> Result<bool, Fail> {
    let one = event_of(task, first, Part::Only)?;
    let other = event_of(task, second, Part::Only)?;
    Ok(interferes(&one, &other))
}

#[test]
fn events_of_toggle(rt: HostRuntime) -> Result<(), Fail> {
    let task = task_of(rt.alloc(), SWITCHES)?;
    lends(&rt, &task);
    assert!(rt; do_interfere(&task, "need", "drop")? && do_interfere(&task, "drop", "need")?);
    assert!(rt; !do_interfere(&task, "drop", "give")?);
    Ok(())
}

/// Whether the goal fails at first, expressions have their values, and so has a duration in units.
fn is_begin(task: &Task, state: &State) -> bool {
    holds(state, &task.goal) == Ok(false)
        && value(state, None, &Expr::Number(3)) == Ok(Some(3))
        && value(state, Some(4), &Expr::Duration) == Ok(Some(4))
        && value(state, None, &Expr::Duration) == Ok(None)
        && state.scale() == Scale::Thousand
        && (state.duration(4000), state.duration(4500)) == (Some(4), None)
        && (
            state.has(AtomId(0)),
            state.has(AtomId(1)),
            state.has(AtomId(3)),
        ) == (true, false, false)
        && state.number(FluentId(0)) == None
}

fn begins(alloc: Global, task: &Task) -> Result<bool, AllocError> {
    let state = State::initial(alloc, task)?;
    Ok(is_begin(task, &state))
}

#[test]
fn a_task_begins_as_its_problem_says(rt: HostRuntime) -> Result<(), Fail> {
    let world = World {
        scale: Scale::Thousand,
        ..FUSES
    };
    let task = task_of(rt.alloc(), world)?;
    assert!(rt; begins(rt.alloc(), &task)?);
    Ok(())
}
