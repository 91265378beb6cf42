//! The steps of a plan with what their actions do, and their events in order.

ghost use Rattle.std.specs.Prelude.{◌≡◌, ℕ, ◌+◌, ◌*◌, ◌<◌, ◌≤◌, ◌++◌, true, nat_le, length, map, option_map, slice_get, slice_index_or, IfOk, OnOk};
ghost use Rattle.std.specs.List.{list_all};
ghost use Rattle.tp_task.specs.Valid.{events, events_of, count_of};
ghost use Rattle.tp_validate.specs.OfTask.{plan_of, step_of};
ghost use Rattle.tp_validate.specs.Places.{numbers};

use std::alloc::{AllocError, Global};
use std::marker::Model;
use tp_happen::{Event, EventRef, Step};
use tp_task::{Body, GroundEvent, Task};

/// A step of a plan with what its action does.
#[derive(Drop)]
pub struct PlannedStep<'t> {
    pub tick: u32,
    pub duration: u32,
    pub body: &'t Body,
}

impl<'t> Model for PlannedStep<'t> {
    ghost use Rattle.tp_task.specs.Valid.{Planned};
    ghost use Rattle.tp_task.specs.contracts.Body as ground_body;
    ghost use Rattle.std.specs.Coded.{codes};

    ghost Value = { Planned };

    ghost coded = { Prim.hlevel (codes, ground_body.the_row.coded) };

    ghost view = { λ s. record { moment = s.tick; duration = s.duration; body = s.body.now } };
}

/// An event of a plan: its number, the numbers of its step's first and last event, and the moment
/// at which it happens.
#[derive(Drop)]
pub struct PlacedEvent<'t> {
    number: u16,
    first: u16,
    last: u16,
    moment: u32,
    event: &'t GroundEvent,
    ticks: u32,
}

impl<'t> Model for PlacedEvent<'t> {
    ghost use Rattle.tp_task.specs.Valid.{Placed};
    ghost use Rattle.tp_task.specs.contracts.GroundEvent as ground_event;
    ghost use Rattle.std.specs.Coded.{codes};

    ghost Value = { Placed };

    ghost coded = { Prim.hlevel (codes, ground_event.the_row.coded) };

    ghost view = { λ e. record {
      number = e.number;
      first = e.first;
      last = e.last;
      moment = e.moment;
      timed = record { event = e.event.now; ticks = e.ticks };
    } };
}

impl<'t> PlacedEvent<'t> {
    /// The moment at which it happens.
    pub fn moment(&self) -> u32
        ensures { result ≡ self.now.moment }
    {
        self.moment
    }

    /// Its number among the events of the plan.
    pub fn number(&self) -> u16
        ensures { result ≡ self.now.number }
    {
        self.number
    }

    /// What happens.
    pub fn event(&self) -> Event<'t>
        ensures { result ≡ self.now.timed.event }
    {
        Event::new(self.event)
    }

    /// What happens, with the ticks of its step.
    pub fn timed(&self) -> EventRef<'t>
        ensures { result ≡ self.now.timed }
    {
        EventRef::new(self.event(), self.ticks)
    }

    /// The same event once more.
    pub fn again(&self) -> PlacedEvent<'t>
        ensures { result ≡ self.now }
    {
        PlacedEvent {
            number: self.number,
            first: self.first,
            last: self.last,
            moment: self.moment,
            event: self.event,
            ticks: self.ticks,
        }
    }
}

// A step with what its action does.
fn planned_step<'t>(step: Step, body: &'t Body) -> PlannedStep<'t>
    ensures { result ≡ step_of step body.now }
{
    PlannedStep {
        tick: step.tick,
        duration: step.duration,
        body,
    }
}

// What the action of a step does, if the task has that action.
fn body_of<'t>(task: &'t Task, step: Step) -> Option<&'t Body>
    ensures { option_map (λ b. b.now) result
        ≡ slice_get task.now.actions.items step.action.0 }
{
    task.actions.get(step.action.0 as usize)
}

/// The steps of a plan with what their actions do.
pub fn planned_steps<'t>(
    alloc: Global,
    task: &'t Task,
    steps: &[Step],
) -> Result<Vec<PlannedStep<'t>>, AllocError>
    ensures { IfOk result (λ v. v.items ≡ plan_of task.now steps.now) }
{
    let mut planned = Vec::new(alloc);
    for step in steps {
        if let Some(body) = body_of(task, *step) {
            planned.push(planned_step(*step, body))?;
        }
    }
    Ok(planned)
}

// The events of a step, numbered from `next`, and the number after them.
fn place<'t>(
    events: &mut Vec<PlacedEvent<'t>>,
    step: &PlannedStep<'t>,
    next: u16,
) -> Result<u16, AllocError>
    requires room { next ≤ 1022 }
    requires ends { step.now.moment + step.now.duration ≤ 1000000000 }
    ensures events { OnOk result
        (events.new.items ≡ events.old.items ++ events_of next step.now step.now.body) }
    ensures next { IfOk result (λ n. n ≡ next + count_of step.now.body) }
    ensures few { IfOk result (λ n. n ≤ next + 2) }
{
    let tick = step.tick;
    let ticks = step.duration;
    match step.body {
        Body::Instant(only) => {
            events.push(PlacedEvent {
                number: next,
                first: next,
                last: next,
                moment: tick,
                event: only,
                ticks: 0,
            })?;
            Ok(next + 1)
        }
        Body::Durative(start, end, _) => {
            let last = next + 1;
            events.push(PlacedEvent {
                number: next,
                first: next,
                last,
                moment: tick,
                event: start,
                ticks,
            })?;
            events.push(PlacedEvent {
                number: last,
                first: next,
                last,
                moment: tick + ticks,
                event: end,
                ticks,
            })?;
            Ok(next + 2)
        }
    }
}

/// The events of all steps, numbered from 0.
pub fn placed_events<'t>(
    alloc: Global,
    steps: &[PlannedStep<'t>],
) -> Result<Vec<PlacedEvent<'t>>, AllocError>
    requires few { length steps.now ≤ 512 }
    requires ends { list_all (λ p. nat_le (p.moment + p.duration) 1000000000) steps.now ≡ true }
    ensures { IfOk result (λ v. v.items ≡ events steps.now) }
{
    let mut events = Vec::new(alloc);
    let mut next = 0;
    for step in steps {
        next = place(&mut events, step, next)?;
    }
    Ok(events)
}

/// What happens at some events, in order.
pub fn event_refs<'t>(
    alloc: Global,
    events: &[PlacedEvent<'t>],
) -> Result<Vec<EventRef<'t>>, AllocError>
    ensures { IfOk result (λ v. v.items ≡ map (λ e. e.timed) events.now) }
{
    let mut refs = Vec::new(alloc);
    for event in events {
        refs.push(event.timed())?;
    }
    Ok(refs)
}

/// The number of the event at a place, 0 past the last.
pub fn number_at(events: &[PlacedEvent<'_>], place: usize) -> u16
    ensures { result ≡ slice_index_or (numbers events.now) place 0 }
{
    match events.get(place) {
        Some(event) => event.number,
        None => 0,
    }
}
