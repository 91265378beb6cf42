//! The first two events that interfere.

ghost use Rattle.std.specs.Prelude.{◌≡◌, ◌+◌, ◌≤◌, length, drop, IfOk};
ghost use Rattle.std.specs.List.{position_from};
ghost use Rattle.tp_task.specs.Event as event_spec;
ghost use Rattle.tp_happen.specs.Fault.{first_pair};

use crate::EventRef;
use crate::footprints::{Footprint, footprints_of};
use std::alloc::{AllocError, Global};

// The first event from a place on that interferes with this one.
fn first_met(event: &Footprint<'_>, events: &[Footprint<'_>], from: usize) -> Option<usize>
    requires { from ≤ length events.now }
    ensures { result ≡ position_from
        (λ u. event_spec.interferes event.now.event u.event) from (drop from events.now) }
{
    for j in from..events.len() {
        if event.interferes(&events[j]) {
            return Some(j);
        }
    }
    None
}

fn first_pair(events: &[Footprint<'_>]) -> Option<(usize, usize)>
    ensures { result ≡ first_pair 0 events.now }
{
    for (i, event) in events.iter().enumerate() {
        if let Some(j) = first_met(event, events, i + 1) {
            return Some((i, j));
        }
    }
    None
}

/// The first two events that interfere. Takes the time of their conditions and effects, and a step
/// for each pair of events and each effect of one of them.
#[tactic(auto, using(crate::proofs::FirstPair::few))]
pub(crate) fn first_interfering(
    alloc: Global,
    events: &[EventRef<'_>],
) -> Result<Option<(usize, usize)>, AllocError>
    ensures { IfOk result (λ r. r ≡ first_pair 0 events.now) }
{
    // One event alone interferes with none.
    if events.len() < 2 {
        return Ok(None);
    }
    let footprints = footprints_of(alloc, events)?;
    Ok(first_pair(&footprints))
}
