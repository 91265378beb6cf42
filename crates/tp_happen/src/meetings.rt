//! The ways in which two events interfere, and what an event does in each of them.

ghost use Rattle.std.specs.Prelude.{◌≡◌, ◌++◌, IfOk, OnOk};
ghost use Rattle.tp_happen.specs.Meetings.{done, met};

use crate::Event;
use crate::mentions::{push_atoms, push_read, push_set, push_written};
use std::alloc::{AllocError, Global};
use tp_task::GroundEvent;

/// A way in which two events interfere: what one of them does to an atom or a fluent, and what the
/// other does with it.
#[derive(Clone, Copy)]
pub enum Meeting {
    ChangedAndAsked,
    AddedAndDeleted,
    WrittenAndRead,
    SetAndWritten,
}

fn push_done(way: Meeting, event: &GroundEvent, into: &mut Vec<u32>) -> Result<(), AllocError>
    ensures { OnOk result (into.new.items ≡ into.old.items ++ done way event.now) }
{
    match way {
        Meeting::ChangedAndAsked => {
            into.extend_from_slice(&event.adds)?;
            into.extend_from_slice(&event.deletes)
        }
        Meeting::AddedAndDeleted => into.extend_from_slice(&event.adds),
        Meeting::WrittenAndRead => push_written(&event.writes, into),
        Meeting::SetAndWritten => push_set(&event.writes, into),
    }
}

fn push_met(way: Meeting, event: &GroundEvent, into: &mut Vec<u32>) -> Result<(), AllocError>
    ensures { OnOk result (into.new.items ≡ into.old.items ++ met way event.now) }
{
    match way {
        Meeting::ChangedAndAsked => push_atoms(&event.condition, into),
        Meeting::AddedAndDeleted => into.extend_from_slice(&event.deletes),
        Meeting::WrittenAndRead => push_read(event, into),
        Meeting::SetAndWritten => push_written(&event.writes, into),
    }
}

/// What an event does.
pub(crate) fn done(alloc: Global, way: Meeting, event: &GroundEvent) -> Result<Vec<u32>, AllocError>
    ensures { IfOk result (λ v. v.items ≡ done way event.now) }
{
    let mut numbers = Vec::new(alloc);
    push_done(way, event, &mut numbers)?;
    Ok(numbers)
}

/// What an event does in the other's place.
pub(crate) fn met(alloc: Global, way: Meeting, event: &GroundEvent) -> Result<Vec<u32>, AllocError>
    ensures { IfOk result (λ v. v.items ≡ met way event.now) }
{
    let mut numbers = Vec::new(alloc);
    push_met(way, event, &mut numbers)?;
    Ok(numbers)
}

impl Event<'_> {
    /// The atoms or fluents to which it does what the first of two events does in that way.
    pub fn done(&self, alloc: Global, way: Meeting) -> Result<Vec<u32>, AllocError>
        ensures { IfOk result (λ v. v.items ≡ done way self.now) }
    {
        done(alloc, way, self.body)
    }

    /// The atoms or fluents with which it does what the other one does.
    pub fn met(&self, alloc: Global, way: Meeting) -> Result<Vec<u32>, AllocError>
        ensures { IfOk result (λ v. v.items ≡ met way self.now) }
    {
        met(alloc, way, self.body)
    }
}
