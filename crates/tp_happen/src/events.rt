//! Events as a task lends them.

ghost use Rattle.std.specs.Prelude.{◌≡◌};

use std::marker::Model;
use tp_task::GroundEvent;

/// Which event of an action: the start or the end of a durative one, or the only one of another.
#[derive(Clone, Copy, Debug, PartialEq, Eq)]
pub enum Part {
    Start,
    End,
    Only,
}

/// An event of a task.
#[derive(Drop)]
pub struct Event<'t> {
    pub(crate) body: &'t GroundEvent,
}

impl<'t> Model for Event<'t> {
    ghost use Rattle.tp_task.specs.contracts.GroundEvent as ground_event;
    ghost use Rattle.tp_task.specs.declared.events.GroundEvent.{GroundEvent as Body};
    ghost use Rattle.std.specs.Coded.{codes};

    ghost Value = { Body };

    ghost coded = { Prim.hlevel (codes, ground_event.the_row.coded) };

    ghost view = { λ e. e.body.now };
}

impl<'t> Event<'t> {
    /// What a task lends, as an event.
    pub fn new(body: &'t GroundEvent) -> Self
        ensures { result ≡ body.now }
    {
        Event { body }
    }
}

/// An event of a task, with the ticks of its step.
#[derive(Drop)]
pub struct EventRef<'t> {
    body: &'t GroundEvent,
    ticks: u32,
}

impl<'t> Model for EventRef<'t> {
    ghost use Rattle.tp_task.specs.Happens.{EventOfStep};
    ghost use Rattle.tp_task.specs.contracts.GroundEvent as ground_event;
    ghost use Rattle.std.specs.Coded.{codes};

    ghost Value = { EventOfStep };

    ghost coded = { Prim.hlevel (codes, ground_event.the_row.coded) };

    ghost view = { λ r. record { event = r.body.now; ticks = r.ticks } };
}

impl<'t> EventRef<'t> {
    /// An event of a step that lasts so many ticks, 0 for an instantaneous action.
    pub fn new(event: Event<'t>, ticks: u32) -> Self
        ensures event { result.event ≡ event.entry }
        ensures ticks { result.ticks ≡ ticks }
    {
        EventRef {
            body: event.body,
            ticks,
        }
    }

    /// What happens.
    pub fn event(&self) -> Event<'t>
        ensures { result ≡ self.now.event }
    {
        Event { body: self.body }
    }

    /// The ticks of its step.
    pub fn ticks(&self) -> u32
        ensures { result ≡ self.now.ticks }
    {
        self.ticks
    }

    pub(crate) fn body(&self) -> &'t GroundEvent
        ensures { result.now ≡ self.now.event }
    {
        self.body
    }
}
