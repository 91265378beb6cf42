//! What an event does in each of the ways in which two events interfere, as lists and as sets.

ghost use Rattle.std.specs.Prelude.{◌≡◌, ◌||◌, IfOk};
ghost use Rattle.tp_happen.specs.Sides.{IsSide, AreSides, meets_by, disturbs_by};

use crate::Meeting;
use crate::meetings::{done, met};
use crate::sets::NumberSet;
use std::alloc::{AllocError, Global};
use tp_task::GroundEvent;

/// In one of these ways: what the event does as the first of the two, and what it does as the
/// other.
#[derive(Drop)]
pub(crate) struct Side {
    pub(crate) done: Vec<u32>,
    pub(crate) met: NumberSet,
}

/// The same in each of them.
#[derive(Drop)]
pub(crate) struct Sides {
    pub(crate) changed: Side,
    pub(crate) added: Side,
    pub(crate) written: Side,
    pub(crate) set: Side,
}

fn side_of(alloc: Global, way: Meeting, event: &GroundEvent) -> Result<Side, AllocError>
    ensures { IfOk result (IsSide way event.now) }
{
    let done = done(alloc, way, event)?;
    let met = met(alloc, way, event)?;
    Ok(Side {
        done,
        met: NumberSet::of(alloc, &met)?,
    })
}

/// The sides of an event.
pub(crate) fn sides_of(alloc: Global, event: &GroundEvent) -> Result<Sides, AllocError>
    ensures { IfOk result (AreSides event.now) }
{
    let changed = side_of(alloc, Meeting::ChangedAndAsked, event)?;
    let added = side_of(alloc, Meeting::AddedAndDeleted, event)?;
    let written = side_of(alloc, Meeting::WrittenAndRead, event)?;
    Ok(Sides {
        changed,
        added,
        written,
        set: side_of(alloc, Meeting::SetAndWritten, event)?,
    })
}

fn meet(a: &Side, b: &Side) -> bool
    ensures { result ≡ meets_by a.now b.now }
{
    b.met.has_any(&a.done)
}

/// Whether the event of the first sides disturbs that of the others.
pub(crate) fn disturb(a: &Sides, b: &Sides) -> bool
    ensures { result ≡ disturbs_by a.now b.now }
{
    meet(&a.changed, &b.changed)
        || (meet(&a.added, &b.added) || (meet(&a.written, &b.written) || meet(&a.set, &b.set)))
}
