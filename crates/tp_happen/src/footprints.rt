//! Events with what they read and write, by which they are compared.

ghost use Rattle.std.specs.Prelude.{◌≡◌, ◌||◌, IfOk};
ghost use Rattle.tp_task.specs.Event.{disturbs, interferes};
ghost use Rattle.tp_happen.specs.declared.meetings.Meeting.TheVariants.{ChangedAndAsked, WrittenAndRead};
ghost use Rattle.tp_happen.specs.Meetings.{done};

use crate::EventRef;
use crate::sides::{Sides, disturb, sides_of};
use std::alloc::{AllocError, Global};
use std::marker::Model;
use tp_task::GroundEvent;

/// An event of a step with the atoms and fluents that it reads and writes.
#[derive(Drop)]
pub struct Footprint<'t> {
    event: &'t GroundEvent,
    ticks: u32,
    sides: Sides,
}

impl<'t> Model for Footprint<'t> {
    ghost use Rattle.tp_task.specs.Happens.{EventOfStep};
    ghost use Rattle.tp_task.specs.contracts.GroundEvent as ground_event;
    ghost use Rattle.std.specs.Coded.{codes};
    ghost use Rattle.tp_happen.specs.Sides.{AreSides};

    ghost Value = { EventOfStep };

    ghost coded = { Prim.hlevel (codes, ground_event.the_row.coded) };

    ghost view = { λ f. record { event = f.event.now; ticks = f.ticks } };

    ghost invariant = { λ f. AreSides f.event.now f.sides };
}

impl<'t> Footprint<'t> {
    /// The footprint of an event. Takes the time of its mentions, and a bit for each atom and
    /// fluent.
    pub fn of(alloc: Global, event: &EventRef<'t>) -> Result<Footprint<'t>, AllocError>
        ensures { IfOk result (λ f. f ≡ event.now) }
    {
        let body = event.body();
        let sides = sides_of(alloc, body)?;
        Ok(Footprint {
            event: body,
            ticks: event.ticks(),
            sides,
        })
    }

    /// The atoms that it adds or deletes.
    pub fn changed(&self) -> &[u32]
        ensures { result.now ≡ done ChangedAndAsked self.now.event }
    {
        &self.sides.changed.done
    }

    /// The fluents that it writes.
    pub fn written(&self) -> &[u32]
        ensures { result.now ≡ done WrittenAndRead self.now.event }
    {
        &self.sides.written.done
    }

    fn disturbs(&self, other: &Footprint<'_>) -> bool
        ensures { result ≡ disturbs self.now.event other.now.event }
    {
        disturb(&self.sides, &other.sides)
    }

    /// Whether two events interfere, as `interferes` answers. Takes a step for each atom and fluent
    /// that one of them changes.
    pub fn interferes(&self, other: &Footprint<'_>) -> bool
        ensures { result ≡ interferes self.now.event other.now.event }
    {
        self.disturbs(other) || other.disturbs(self)
    }
}

/// The footprints of events, in order.
pub fn footprints_of<'t>(
    alloc: Global,
    events: &[EventRef<'t>],
) -> Result<Vec<Footprint<'t>>, AllocError>
    ensures { IfOk result (λ v. v.items ≡ events.now) }
{
    let mut footprints = Vec::with_capacity(alloc, events.len())?;
    for event in events {
        footprints.push(Footprint::of(alloc, event)?)?;
    }
    Ok(footprints)
}
