//! Changes of edges that are there: an edge leaves, an event is fixed, now is raised.
ghost use Rattle.std.specs.Prelude.{◌≡◌, ℕ, ◌+◌, ◌*◌, ◌<◌, ◌≤◌, length, OnOk, OnErr, Some, slice_index};
ghost use Rattle.slab.specs.Slab.{get};
ghost use Rattle.tp_net.specs.Arcs.{AllWait};
ghost use Rattle.tp_repair_engine.specs.declared.store.Node.{Node};
ghost use Rattle.tp_repair_engine.specs.Store.{AreHalves, SamePoints, keys_of};
ghost use Rattle.tp_repair_engine.specs.Engine.{IsWired, IsSolved, MayLeave, IsInWindow, AreFloorAndEnd, IsUntouched, IsChanged, IsLeft, AreMapped, IsLoose};
ghost use Rattle.tp_repair_engine.specs.Bringing.{AreMovedBy};
ghost use Rattle.tp_repair_engine.specs.Slots.{past_node, raised_node, AreOpenFloors, AreAtEarlier};
ghost use Rattle.tp_repair_engine.specs.Asked.{HaveMoments};
ghost use Rattle.tp_repair_engine.specs.Flow.{looks_at};
ghost use Rattle.tp_repair_engine.specs.declared.store.Direction.{Direction};
ghost use Rattle.tp_repair_engine.specs.declared.store.Direction.TheVariants.{Up, Down};

use crate::engine::Engine;
use crate::potential::Potential;
use crate::rising::rise_floors;
use crate::solve::{holds_high, holds_low, solve};
use crate::store::{Store, remove, set_edge};
use crate::tighten::{fall, move_down, move_up, rise};
use std::alloc::{AllocError, Global};
use tp_bounds::Edge;
use tp_net::edges::{floor, start_arc, stop_arc};

/// A weight at which no edge between moments that a network has is tight.
const NEVER_TIGHT: i64 = 1_000_000_000_000;

/// Takes an edge out, and works the moments out anew that it may have held. Where a growth is
/// refused, it is there as before.
fn renew(alloc: Global, engine: &mut Engine, key: usize, amount: u64) -> Result<(), AllocError>
    requires solved { IsSolved engine.old }
    requires may { MayLeave key amount engine.old }
    ensures ok { OnOk result (IsLeft key engine.old engine.new) }
    ensures err { OnErr result (IsUntouched engine.old engine.new) }
    ensures looks { (edges : ℕ) → IsWired (length engine.old.low.items) edges engine.old
        → OnOk result (engine.new.looks ≤ 8 * edges + 1) }
    ensures some { OnOk result (1 ≤ engine.new.looks) }
    ensures err_looks { OnErr result (engine.new.looks ≡ engine.old.looks) }
{
    let node = engine.store.nodes[key];
    set_edge(&mut engine.store, key, node.name, NEVER_TIGHT);
    if let Err(error) = solve(alloc, engine, node.arc, amount) {
        set_edge(&mut engine.store, key, node.name, node.arc.weight);
        return Err(error);
    }
    remove(&mut engine.store, key);
    Ok(())
}

/// Takes an edge out. One that holds no moment leaves all moments as they are, and costs a look;
/// else the moments are worked out anew. Where a growth is refused, it is there as before.
pub fn leave(alloc: Global, engine: &mut Engine, key: usize, amount: u64) -> Result<(), AllocError>
    requires solved { IsSolved engine.old }
    requires may { MayLeave key amount engine.old }
    ensures ok { OnOk result (IsLeft key engine.old engine.new) }
    ensures err { OnErr result (IsUntouched engine.old engine.new) }
    ensures looks { (edges : ℕ) → IsWired (length engine.old.low.items) edges engine.old
        → OnOk result (engine.new.looks ≤ 8 * edges + 1) }
    ensures some { OnOk result (1 ≤ engine.new.looks) }
    ensures err_looks { OnErr result (engine.new.looks ≡ engine.old.looks) }
    ensures loose { (n : Node) → get engine.old.store.nodes key ≡ Some n
        → IsLoose engine.old.low.items engine.old.high.items n.arc
        → OnOk result ((engine.new.looks ≡ 1) × (engine.new.low.items ≡ engine.old.low.items)
        × (engine.new.high.items ≡ engine.old.high.items)) }
{
    let node = engine.store.nodes[key];
    if holds_low(&engine.low, node.arc) || holds_high(&engine.high, node.arc) {
        renew(alloc, engine, key, amount)?;
        return Ok(());
    }
    engine.looks = 1;
    remove(&mut engine.store, key);
    Ok(())
}

/// Fixes an event: its floor and its end give way to its moment. The least moments rise and the
/// greatest fall from there on. Where a growth is refused, all is as before.
pub fn settle(
    alloc: Global,
    engine: &mut Engine,
    floor: usize,
    end: usize,
    e: u16,
    moment: u32,
) -> Result<(), AllocError>
    requires solved { IsSolved engine.old }
    requires looks { engine.old.looks ≡ 0 }
    requires window { IsInWindow e moment engine.old }
    requires keys { AreFloorAndEnd e moment floor end engine.old.store.nodes.slots }
    ensures ok { OnOk result (IsChanged (past_node e moment) engine.old engine.new) }
    ensures err { OnErr result (IsUntouched engine.old engine.new) }
    ensures looks { OnOk result (engine.new.looks ≡ (1 + looks_at (keys_of Up engine.old.store)
        (λ x. slice_index engine.new.up.amounts.items x) (length engine.old.low.items))
        + (1 + looks_at (keys_of Down engine.old.store) (λ x.
        slice_index engine.new.down.amounts.items x) (length engine.old.low.items))) }
    ensures moves { OnOk result (AreMovedBy engine.old engine.new) }
    ensures most { (edges : ℕ) → IsWired (length engine.old.low.items) edges engine.old
        → engine.new.looks ≤ 2 * (edges + 1) }
{
    let start = start_arc(e, moment);
    let stop = stop_arc(e, moment);
    let low = Potential {
        store: &engine.store,
        moments: &engine.low,
    };
    if let Some(_path) = rise(alloc, &low, &mut engine.up, start, &mut engine.looks)? {
        unreachable!();
    }
    let high = Potential {
        store: &engine.store,
        moments: &engine.high,
    };
    fall(&high, &mut engine.down, stop, &mut engine.looks)?;
    set_edge(&mut engine.store, floor, Edge::PastLow(e), start.weight);
    set_edge(&mut engine.store, end, Edge::PastHigh(e), stop.weight);
    move_up(&mut engine.low, &engine.up);
    move_down(&mut engine.high, &engine.down);
    Ok(())
}

/// Gives the floor of each event that is not fixed the weight that it has at a moment.
fn set_floors(store: &mut Store, floors: &[usize], fixed: &[Option<u32>], lags: &[u32], now: u32)
    requires floors { AreOpenFloors floors.now fixed.now store.old.nodes.slots }
    requires halves_in { AreHalves Up store.old.nodes.slots store.old.into.items }
    requires halves_out { AreHalves Down store.old.nodes.slots store.old.out.items }
    ensures points { SamePoints store.old store.new }
    ensures halves_in { AreHalves Up store.new.nodes.slots store.new.into.items }
    ensures halves_out { AreHalves Down store.new.nodes.slots store.new.out.items }
    ensures degrees { (d : Direction) (y : ℕ)
        → length (keys_of d store.new y) ≡ length (keys_of d store.old y) }
    ensures mapped { AreMapped
        (raised_node now lags.now) store.old.nodes.slots store.new.nodes.slots }
{
    for e in 0..fixed.len() {
        if fixed[e].is_none() {
            let event = e as u16;
            set_edge(
                store,
                floors[e],
                Edge::Now(event),
                start_arc(event, floor(lags, event, now)).weight,
            );
        }
    }
}

/// Raises the floors to a later moment. Only events whose floor passes their least moment begin to
/// move; the greatest moments stay. Where a growth is refused, all is as before.
pub fn raise(
    engine: &mut Engine,
    floors: &[usize],
    fixed: &[Option<u32>],
    lags: &[u32],
    now: u32,
) -> Result<(), AllocError>
    requires solved { IsSolved engine.old }
    requires looks { engine.old.looks ≡ 0 }
    requires events { HaveMoments fixed.now engine.old.low.items }
    requires floors { AreOpenFloors floors.now fixed.now engine.old.store.nodes.slots }
    requires before { AreAtEarlier now lags.now engine.old.store.nodes.slots }
    requires wait { AllWait fixed.now engine.old.high.items lags.now now }
    ensures ok { OnOk result (IsChanged (raised_node now lags.now) engine.old engine.new) }
    ensures err { OnErr result (IsUntouched engine.old engine.new) }
    ensures looks { OnOk result (engine.new.looks ≡ looks_at (keys_of Up engine.old.store) (λ x.
        slice_index engine.new.up.amounts.items x) (length engine.old.low.items)) }
    ensures moved { OnOk result ((x : ℕ) → x < length engine.old.low.items
        → slice_index engine.new.low.items x
        ≡ slice_index engine.old.low.items x + slice_index engine.new.up.amounts.items x) }
    ensures stays { OnOk result (engine.new.high.items ≡ engine.old.high.items) }
    ensures most { (edges : ℕ) → IsWired (length engine.old.low.items) edges engine.old
        → engine.new.looks ≤ edges }
    ensures err_looks { OnErr result (engine.new.looks ≡ 0) }
{
    let low = Potential {
        store: &engine.store,
        moments: &engine.low,
    };
    engine.looks = rise_floors(&low, &mut engine.up, fixed, lags, now)?;
    set_floors(&mut engine.store, floors, fixed, lags, now);
    move_up(&mut engine.low, &engine.up);
    Ok(())
}
