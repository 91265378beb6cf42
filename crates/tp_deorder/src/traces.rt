//! The events of a plan with what they read and write.

ghost use Rattle.std.specs.Prelude.{◌≡◌, IfOk};
ghost use Rattle.tp_happen.specs.declared.meetings.Meeting.TheVariants.{ChangedAndAsked, WrittenAndRead};
ghost use Rattle.tp_happen.specs.Meetings.{done};
ghost use Rattle.tp_deorder.specs.Inequalities as spec;

use std::alloc::{AllocError, Global};
use std::marker::Model;
use tp_happen::Footprint;
use tp_validate::PlacedEvent;

/// An event of a plan with its footprint.
#[derive(Drop)]
pub struct TracedEvent<'t> {
    event: PlacedEvent<'t>,
    footprint: Footprint<'t>,
}

impl<'t> Model for TracedEvent<'t> {
    ghost use Rattle.tp_task.specs.Valid.{Placed};
    ghost use Rattle.tp_task.specs.contracts.GroundEvent as ground_event;
    ghost use Rattle.std.specs.Coded.{codes};
    ghost use Rattle.std.specs.Prelude.{◌≡◌};

    ghost Value = { Placed };

    ghost coded = { Prim.hlevel (codes, ground_event.the_row.coded) };

    ghost view = { λ t. t.event };

    ghost invariant = { λ t. t.footprint ≡ t.event.timed };
}

impl<'t> TracedEvent<'t> {
    fn of(alloc: Global, event: &PlacedEvent<'t>) -> Result<TracedEvent<'t>, AllocError>
        ensures { IfOk result (λ t. t ≡ event.now) }
    {
        let footprint = Footprint::of(alloc, &event.timed())?;
        Ok(TracedEvent {
            event: event.again(),
            footprint,
        })
    }

    /// The event alone.
    pub fn placed(&self) -> PlacedEvent<'t>
        ensures { result ≡ self.now }
    {
        self.event.again()
    }

    /// Its number among the events of the plan.
    pub fn number(&self) -> u16
        ensures { result ≡ self.now.number }
    {
        self.event.number()
    }

    /// The atoms that it adds or deletes.
    pub fn changed(&self) -> &[u32]
        ensures { result.now ≡ done ChangedAndAsked self.now.timed.event }
    {
        self.footprint.changed()
    }

    /// The fluents that it writes.
    pub fn written(&self) -> &[u32]
        ensures { result.now ≡ done WrittenAndRead self.now.timed.event }
    {
        self.footprint.written()
    }

    /// Whether it comes before another event and interferes with it.
    pub fn comes_before(&self, other: &TracedEvent<'_>) -> bool
        ensures { result ≡ spec.comes_before self.now other.now }
    {
        self.event.moment() < other.event.moment() && self.footprint.interferes(&other.footprint)
    }
}

/// Events with their footprints, in order.
pub fn traced<'t>(
    alloc: Global,
    events: &[PlacedEvent<'t>],
) -> Result<Vec<TracedEvent<'t>>, AllocError>
    ensures { IfOk result (λ v. v.items ≡ events.now) }
{
    let mut found = Vec::with_capacity(alloc, events.len())?;
    for event in events {
        found.push(TracedEvent::of(alloc, event)?)?;
    }
    Ok(found)
}
