//! The network of a validated plan.

ghost use Rattle.std.specs.Prelude.{◌≡◌, ◌+◌, ◌++◌, ◌≤◌, ◌<◌, ◌||◌, nat_lt, length, pos, ◌≤ℤ◌, IfOk, IfErr};
ghost use Rattle.std.specs.List.{All};
ghost use Rattle.tp_task.specs.Valid.{events};
ghost use Rattle.tp_task.specs.Verdict.{states, last_moment};
ghost use Rattle.tp_happen.specs.tp_plan_text.Steps.{IsPlan};
ghost use Rattle.tp_validate.specs.Verdict.{IsSound};
ghost use Rattle.tp_validate.specs.OfTask.{scale_of, begin, plan_of};
ghost use Rattle.tp_deorder.specs.Spans.{plan_ticks};
ghost use Rattle.tp_deorder.specs.Inequalities.{comes_before, steps_by, bound_count, event_count_of};
ghost use Rattle.tp_deorder.specs.Kept.{kept_orders, net_bounds, AreNumbered};
ghost use Rattle.tp_deorder.specs.Answers.{AreSound, OnTooMany, PassesLimits, IsNetOf, IsPlanNetOf, bounds_in};

use crate::DeorderFault;
use crate::event_texts::event_texts;
use crate::orders::note_orders;
use crate::steps::note_steps;
use crate::traces::traced;
use crate::walk::walk;
use std::alloc::Global;
use tp_bounds::{Bound, Limits, PlanNet};
use tp_happen::Step;
use tp_task::Task;
use tp_validate::{
    PlacedEvent, PlannedStep, Ticks, ValidPlan, agenda_of, placed_events, planned_steps,
};

/// The bounds of steps that may take these numbers of ticks. TooMany where they are more than
/// `most`.
fn note_all(
    alloc: Global,
    events: &[PlacedEvent<'_>],
    steps: &[PlannedStep<'_>],
    kept: &[Ticks],
    horizon: u32,
    most: u32,
) -> Result<Vec<Bound>, DeorderFault>
    requires few { length steps.now ≤ 512 }
    requires each { length kept.now ≡ length steps.now }
    requires least { All (λ w. pos 0 ≤ℤ w.least) kept.now }
    requires ends { All (λ p. p.moment + p.duration ≤ 1000000000) steps.now }
    requires numbered { AreNumbered 0 events.now }
    ensures ok { IfOk result (λ v. v.items ≡ kept_orders comes_before events.now events.now
        ++ steps_by horizon events.now 0 steps.now kept.now) }
    ensures few { IfOk result (λ v. length v.items ≤ most) }
    ensures err { IfErr result (λ e. OnTooMany e
        (most < length (kept_orders comes_before events.now events.now
        ++ steps_by horizon events.now 0 steps.now kept.now))) }
{
    let mut bounds = Vec::new(alloc);
    note_orders(alloc, &mut bounds, events, most)?;
    let traces = traced(alloc, events)?;
    note_steps(alloc, &mut bounds, &traces, steps, kept, horizon, most)?;
    if bounds.len() > most as usize {
        return Err(DeorderFault::TooMany);
    }
    Ok(bounds)
}

/// How many ticks each step of a valid plan may take.
fn ticks_of(
    alloc: Global,
    task: &Task,
    horizon: u32,
    steps: &[PlannedStep<'_>],
) -> Result<Vec<Ticks>, DeorderFault>
    requires { AreSound task.now steps.now }
    ensures ok { IfOk result (λ v. v.items ≡ plan_ticks horizon (scale_of task.now)
        (states (scale_of task.now) (begin task.now) (events steps.now)) steps.now) }
    ensures err { IfErr result (λ e. OnTooMany e ⊥) }
{
    let agenda = agenda_of(placed_events(alloc, steps)?)?;
    walk(alloc, task, horizon, steps, &agenda)
}

/// The bounds of a valid plan. TooMany where they are more than `most`.
fn bounds_of(
    alloc: Global,
    task: &Task,
    steps: &[PlannedStep<'_>],
    horizon: u32,
    most: u32,
) -> Result<Vec<Bound>, DeorderFault>
    requires { AreSound task.now steps.now }
    ensures ok { IfOk result (λ v. v.items ≡ net_bounds horizon (scale_of task.now)
        (states (scale_of task.now) (begin task.now) (events steps.now)) steps.now) }
    ensures few { IfOk result (λ v. length v.items ≤ most) }
    ensures err { IfErr result
        (λ e. OnTooMany e ((most < length (net_bounds horizon (scale_of task.now) (states
        (scale_of task.now) (begin task.now) (events steps.now)) steps.now))
        × (most < bound_count steps.now))) }
{
    let kept = ticks_of(alloc, task, horizon, steps)?;
    let events = placed_events(alloc, steps)?;
    note_all(alloc, &events, steps, &kept, horizon, most)
}

/// The last moment with an event, 0 if there is none.
fn last_tick(events: &[PlacedEvent<'_>]) -> u32
    ensures { result ≡ last_moment events.now }
{
    let mut last = 0;
    for event in events {
        last = event.moment().max(last);
    }
    last
}

/// Whether the events of a plan are too many for the limits, or end past their horizon.
fn passes(events: &[PlacedEvent<'_>], limits: &Limits) -> bool
    ensures { result ≡ (nat_lt limits.now.events (length events.now)
        || nat_lt limits.now.horizon (last_moment events.now)) }
{
    (limits.events() as usize) < events.len() || limits.horizon() < last_tick(events)
}

/// The bounds of a sound plan of a task, within limits.
fn bounds_within(
    alloc: Global,
    task: &Task,
    steps: &[Step],
    limits: &Limits,
) -> Result<Vec<Bound>, DeorderFault>
    requires plan { IsPlan steps.now }
    requires sound { IsSound task.now steps.now }
    ensures net { IfOk result (λ v. IsNetOf task.now steps.now limits.now.horizon v.items) }
    ensures bounds { IfOk result
        (λ v. v.items ≡ bounds_in task.now steps.now limits.now.horizon) }
    ensures events { IfOk result
        (λ _. event_count_of (plan_of task.now steps.now) ≤ limits.now.events) }
    ensures few { IfOk result (λ v. length v.items ≤ limits.now.bounds) }
    ensures err { IfErr result
        (λ e. OnTooMany e (PassesLimits limits.now task.now steps.now)) }
{
    let planned = planned_steps(alloc, task, steps)?;
    let events = placed_events(alloc, &planned)?;
    if passes(&events, limits) {
        return Err(DeorderFault::TooMany);
    }
    bounds_of(alloc, task, &planned, limits.horizon(), limits.bounds())
}

/// The network of a sound plan of a task, within limits.
fn net_within(
    alloc: Global,
    task: &Task,
    steps: &[Step],
    limits: &Limits,
) -> Result<PlanNet, DeorderFault>
    requires plan { IsPlan steps.now }
    requires sound { IsSound task.now steps.now }
    ensures net { IfOk result (IsPlanNetOf task.now steps.now limits.now) }
    ensures err { IfErr result
        (λ e. OnTooMany e (PassesLimits limits.now task.now steps.now)) }
{
    let bounds = bounds_within(alloc, task, steps, limits)?;
    let events = event_texts(alloc, task, steps)?;
    Ok(PlanNet {
        horizon: limits.horizon(),
        events,
        bounds,
    })
}

/// The network of a validated plan: its schedules are exactly the assignments that meet the bounds
/// of the plan, and the plan of a run at each of them is valid. TooMany exactly where the plan has
/// more events than the limits allow, ends past their horizon, or its network has more bounds than
/// they allow.
///
/// It compares each two events by their footprints, and each event with the invariant of each
/// durative step: a step for each atom and fluent that one of them changes. It leaves out the order
/// of two events where one between them interferes with both, since it follows from two others: for
/// each pair in order it looks through the later events up to one that stands between, at most the
/// cube of the events in looks at a table. Which bounds express the schedules is this function's
/// own choice, the same for a plan whenever it is asked.
pub fn deorder(
    alloc: Global,
    plan: &ValidPlan<'_>,
    limits: &Limits,
) -> Result<PlanNet, DeorderFault>
    ensures net { IfOk result (IsPlanNetOf plan.now.task plan.now.steps limits.now) }
    ensures err { IfErr result
        (λ e. OnTooMany e (PassesLimits limits.now plan.now.task plan.now.steps)) }
{
    net_within(alloc, plan.task(), plan.plan().steps(), limits)
}
