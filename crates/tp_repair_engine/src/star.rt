//! The edges of events with the origin, as a network begins.
ghost use Rattle.std.specs.Prelude.{◌≡◌, ◌≢◌, ℕ, ◌+◌, ◌*◌, ◌<◌, ◌≤◌, length, IfOk, None, []};
ghost use Rattle.slab.specs.Slab.{get};
ghost use Rattle.tp_bounds.specs.declared.Edge.TheVariants.{Now, End};
ghost use Rattle.tp_bounds.specs.Reasons.{at_least, at_most};
ghost use Rattle.tp_net.specs.Arcs.{arc_of};
ghost use Rattle.tp_repair_engine.specs.Star.{IsStar};

use crate::store::{Store, empty, insert};
use std::alloc::{AllocError, Global};
use tp_bounds::Edge;
use tp_net::edges::{start_arc, stop_arc};

/// The two edges of one more event.
fn grow(
    store: &mut Store,
    floors: &mut Vec<usize>,
    ends: &mut Vec<usize>,
    e: u16,
    horizon: u32,
) -> Result<(), AllocError>
    requires { (points : ℕ) × IsStar horizon points e floors.old.items ends.old.items store.old
        × (e + 1 < points) }
    ensures { IfOk result (λ _. (points : ℕ) → e + 1 < points
        → IsStar horizon points e floors.old.items ends.old.items store.old
        → IsStar horizon points (e + 1) floors.new.items ends.new.items store.new) }
{
    floors.push(insert(store, Edge::Now(e), start_arc(e, 0))?)?;
    ends.push(insert(store, Edge::End(e), stop_arc(e, horizon))?)?;
    Ok(())
}

/// The edges of so many events with the origin, and their keys: those of the floors, and those of
/// the ends.
pub fn star(
    alloc: Global,
    events: u16,
    horizon: u32,
) -> Result<(Store, Vec<usize>, Vec<usize>), AllocError>
    ensures { IfOk result (λ r. IsStar horizon (events + 1) events r.1.items r.2.items r.0) }
{
    let mut store = empty(alloc, events as usize + 1)?;
    let mut floors = Vec::new(alloc);
    let mut ends = Vec::new(alloc);
    for e in 0..events {
        grow(&mut store, &mut floors, &mut ends, e, horizon)?;
    }
    Ok((store, floors, ends))
}
