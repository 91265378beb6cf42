//! Actions whose events are kept as sets of atoms and fluents, so that another one is seen to
//! interfere in the time of what it mentions itself.

ghost use Rattle.std.specs.Prelude.{◌≡◌, ℕ, IfOk};
ghost use Rattle.tp_task.specs.declared.events.GroundEvent.{GroundEvent};
ghost use Rattle.tp_task.specs.Event.{has};
ghost use Rattle.tp_happen.specs.Meetings as meetings;
ghost use Rattle.tp_happen.specs.Sets.{has_number};
ghost use Rattle.tp_search.specs.Possible.{only_event, interfere};
ghost use Rattle.tp_search.specs.Sides.{IsSide, AreSides, AreSidesOf, meet_with};

use std::alloc::{AllocError, Global};
use tp_happen::{Event, Meeting, NumberSet, Part, event};
use tp_task::{ActionId, Task};

const WAYS: [Meeting; 4] = [
    Meeting::ChangedAndAsked,
    Meeting::AddedAndDeleted,
    Meeting::WrittenAndRead,
    Meeting::SetAndWritten,
];

/// Of an event, in one of the ways in which two interfere: where it does what the first one does,
/// and where what the other does.
#[derive(Drop)]
pub struct Side {
    way: Meeting,
    done: NumberSet,
    met: NumberSet,
}

fn done_set(alloc: Global, way: Meeting, event: &Event<'_>) -> Result<NumberSet, AllocError>
    ensures { IfOk result
        (λ s. (n : ℕ) → has_number s n ≡ has (meetings.done way event.now) n) }
{
    let done = event.done(alloc, way)?;
    NumberSet::of(alloc, &done)
}

fn met_set(alloc: Global, way: Meeting, event: &Event<'_>) -> Result<NumberSet, AllocError>
    ensures { IfOk result
        (λ s. (n : ℕ) → has_number s n ≡ has (meetings.met way event.now) n) }
{
    let met = event.met(alloc, way)?;
    NumberSet::of(alloc, &met)
}

fn side_of(alloc: Global, way: Meeting, event: &Event<'_>) -> Result<Side, AllocError>
    ensures way { IfOk result (λ s. s.way ≡ way) }
    ensures side { IfOk result (IsSide event.now) }
{
    let done = done_set(alloc, way, event)?;
    let met = met_set(alloc, way, event)?;
    Ok(Side { way, done, met })
}

// The sides of an event, one for each way.
fn sides_of_event(alloc: Global, event: &Event<'_>) -> Result<Vec<Side>, AllocError>
    ensures { IfOk result (λ v. AreSides event.now v.items) }
{
    let mut sides = Vec::new(alloc);
    for way in WAYS {
        sides.push(side_of(alloc, way, event)?)?;
    }
    Ok(sides)
}

/// The sides of an action that is one event, and none of another. They cost what the event
/// mentions, and a bit for each atom and fluent.
pub fn sides_of(alloc: Global, task: &Task, action: u32) -> Result<Vec<Side>, AllocError>
    ensures { IfOk result (λ v. AreSidesOf task.now action v.items) }
{
    match event(task, ActionId(action), Part::Only) {
        Some(only) => sides_of_event(alloc, &only),
        None => Ok(Vec::new(alloc)),
    }
}

// Whether two events interfere in that way.
fn meets(alloc: Global, side: &Side, other: &Event<'_>) -> Result<bool, AllocError>
    ensures { (e : GroundEvent) → IsSide e side.now
        → IfOk result (λ b. b ≡ meetings.meet side.now.way e other.now) }
{
    let met = other.met(alloc, side.way)?;
    if side.done.has_any(&met) {
        return Ok(true);
    }
    let done = other.done(alloc, side.way)?;
    Ok(side.met.has_any(&done))
}

// Whether the event with this side interferes in that way with the one that an action is, if it is
// one event.
fn meet_in(alloc: Global, task: &Task, side: &Side, other: u32) -> Result<bool, AllocError>
    ensures { (e : GroundEvent) → IsSide e side.now
        → IfOk result (λ b. b ≡ meet_with side.now.way e (only_event task.now other)) }
{
    match event(task, ActionId(other), Part::Only) {
        Some(only) => meets(alloc, side, &only),
        None => Ok(false),
    }
}

/// Whether an action with these sides interferes with another, both being one event each. It costs
/// what the other one's event mentions.
pub fn sides_meet(
    alloc: Global,
    task: &Task,
    sides: &[Side],
    other: u32,
) -> Result<bool, AllocError>
    ensures { (action : ℕ) → AreSidesOf task.now action sides.now
        → IfOk result (λ b. b ≡ interfere task.now action other) }
{
    for side in sides {
        if meet_in(alloc, task, side, other)? {
            return Ok(true);
        }
    }
    Ok(false)
}
