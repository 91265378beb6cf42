//! The bounds of a plan come into force.

ghost use Rattle.std.specs.Prelude.{◌≡◌, ◌<◌, ◌≤◌, ◌^◌, true, length, slice_get, None, IfOk, OnOk};
ghost use Rattle.std.specs.FinMap as map;
ghost use Rattle.tp_bounds.specs.Setting.{Setting, event_count, HasPoint, IsInRange};
ghost use Rattle.tp_bounds.specs.Schedule.{HasSchedule};
ghost use Rattle.tp_bounds.specs.Changes.{with_bound};
ghost use Rattle.tp_bounds.specs.OwnBounds.{with_bounds};
ghost use Rattle.tp_exec_machine.specs.Machine.{IsFresh};
ghost use Rattle.tp_exec_machine.specs.Partly.{IsPartly, Joins};

use crate::firsts::entry_order;
use std::alloc::{AllocError, Global};
use tp_bounds::{Bound, BoundId, PlanNet};
use tp_net::{Net, NetFault};

/// Brings a bound into force that leaves a schedule: it is refused only when out of memory.
fn bring<N: Net>(net: &mut N, id: BoundId, bound: Bound) -> Result<(), AllocError>
    requires between { N.takes_between ≡ true }
    requires from { HasPoint (N.seen net.old) bound.from }
    requires to { HasPoint (N.seen net.old) bound.to }
    requires weight { IsInRange bound.w }
    requires unused { map.get (N.seen net.old).bounds id.0 ≡ None }
    requires possible { ¬ (HasSchedule (with_bound (N.seen net.old) id.0 bound) → ⊥) }
    ensures { OnOk result (N.seen net.new ≡ with_bound (N.seen net.old) id.0 bound) }
{
    match net.add(id, bound) {
        Ok(()) => Ok(()),
        Err(NetFault::Memory) => Err(AllocError),
        Err(NetFault::Conflict(_)) => unreachable!(),
        Err(NetFault::Between) => unreachable!(),
    }
}

/// Brings the bound at a place of a plan's network into force, if it is not in force yet.
fn bring_at<N: Net>(net: &mut N, network: &PlanNet, place: usize) -> Result<(), AllocError>
    requires between { N.takes_between ≡ true }
    requires begun { (s : Setting) × IsFresh s
        × (event_count s ≡ length network.now.events.items) × (s.horizon ≡ network.now.horizon)
        × IsPartly s (N.seen net.old) (slice_get network.now.bounds.items) }
    requires ids { length network.now.bounds.items < 2 ^ 32 }
    requires place { place < length network.now.bounds.items }
    ensures { OnOk result
        (Joins (N.seen net.old) (N.seen net.new) (slice_get network.now.bounds.items) place) }
{
    let id = BoundId(place as u32);
    if net.bound(id).is_some() {
        return Ok(());
    }
    bring(net, id, network.bounds[place])
}

/// Brings the bounds of a plan's network into force, under identifiers from 0 on, and tells how
/// many they are: at most so many as there are identifiers. Those come first that hold moments in
/// the end, since a bound that moves points behind others is looked at with all that these join.
pub(crate) fn bring_own<N: Net>(
    alloc: Global,
    net: &mut N,
    network: &PlanNet,
    ids: u32,
) -> Result<u32, AllocError>
    requires between { N.takes_between ≡ true }
    requires fresh { IsFresh (N.seen net.old) }
    requires events { event_count (N.seen net.old) ≡ length network.now.events.items }
    requires horizon { (N.seen net.old).horizon ≡ network.now.horizon }
    requires ids { length network.now.bounds.items ≤ ids }
    ensures bounds { OnOk result
        (N.seen net.new ≡ with_bounds (N.seen net.old) 0 network.now.bounds.items) }
    ensures count { IfOk result (λ own. own ≡ length network.now.bounds.items) }
{
    let events = network.events.len();
    let order = entry_order(alloc, &network.bounds, events, network.horizon)?;
    for place in &order {
        bring_at(net, network, *place)?;
    }
    Ok(network.bounds.len() as u32)
}
