//! The arcs of a network with the moments that they leave, and what one more edge does to them.
ghost use Rattle.std.specs.Prelude.{◌≡◌, ◌≢◌, ℕ, List, ◌+◌, ◌*◌, ◌<◌, ◌≤◌, length, ◌++◌, ◌∷◌, [], IfOk, OnOk, OnErr, Some, None};
ghost use Rattle.std.specs.Ordering.{nat_cmp};
ghost use Rattle.std.specs.BTreeMap.{BTreeMap, get, btree_map_len};
ghost use Rattle.std.specs.FinMap as map;
ghost use Rattle.tp_bounds.specs.declared.Bound.{Bound};
ghost use Rattle.tp_bounds.specs.declared.Edge.TheVariants.{Own};
ghost use Rattle.tp_net.specs.Arcs.{arc_of, NamesCycle};
ghost use Rattle.tp_bounds.specs.Held.{held};
ghost use Rattle.tp_net.specs.Slacks.{JoinsPoints};
ghost use Rattle.tp_net.specs.Sizes.{IsSmallWeight};
ghost use Rattle.tp_net.specs.Graph.{HasNoSolution};
ghost use Rattle.tp_repair_engine.specs.Potential.{IsEdgeOf};
ghost use Rattle.tp_repair_engine.specs.Store.{arcs_of, names_of, kept_arcs, HasPoints, AreHalves, SamePoints, keys_of};
ghost use Rattle.tp_repair_engine.specs.Engine.{IsWired, IsSolved, AreSame, IsEntered, IsUntouched};
ghost use Rattle.tp_repair_engine.specs.Work.{AreCounted, AreThere, IsIdle, IsTightened};
ghost use Rattle.tp_repair_engine.specs.Bringing.{IsFree, IsBrought, IsUnbrought, IsRecorded, IsMore};
ghost use Rattle.tp_repair_engine.specs.declared.store.Direction.TheVariants.{Up, Down};

use crate::flow::Work;
use crate::potential::Potential;
use crate::store::{Store, insert, named, remove};
use crate::tighten::{fall, move_down, move_up, rise};
use std::alloc::{AllocError, Global};
use std::collections::BTreeMap;
use tp_bounds::{Bound, BoundId, Edge, Reason};
use tp_net::edges::arc;
use tp_net::slacks::Arc;

/// The arcs of a network under keys, the least and the greatest moments that they leave, room to
/// work them out, and how many edges the last command looked at.
#[derive(Drop)]
pub struct Engine {
    pub store: Store,
    pub low: Vec<u64>,
    pub high: Vec<u64>,
    pub up: Work,
    pub down: Work,
    pub looks: u64,
}

/// Puts a bound and the key of its edge under its identifier. Where a growth is refused, neither
/// stands there.
fn record(
    bounds: &mut BTreeMap<u32, Bound>,
    keys: &mut BTreeMap<u32, usize>,
    id: BoundId,
    bound: Bound,
    key: usize,
) -> Result<(), AllocError>
    requires free { IsFree id.0 bounds.old keys.old }
    ensures ok { OnOk result (IsRecorded id.0 bound key bounds.old bounds.new keys.old keys.new) }
    ensures err { OnErr result (bounds.new.entries ≡ bounds.old.entries) }
    ensures err_keys { OnErr result ((q : ℕ) → get nat_cmp keys.new q ≡ get nat_cmp keys.old q) }
{
    keys.insert(id.0, key)?;
    if let Err(error) = bounds.insert(id.0, bound) {
        let _key = keys.remove(&id.0);
        return Err(error.into());
    }
    Ok(())
}

/// Puts a bound, its key and its edge in. Where a growth is refused, none of them is there.
fn enter(
    store: &mut Store,
    bounds: &mut BTreeMap<u32, Bound>,
    keys: &mut BTreeMap<u32, usize>,
    id: BoundId,
    bound: Bound,
) -> Result<(), AllocError>
    requires free { IsFree id.0 bounds.old keys.old }
    requires points { HasPoints store.old (arc_of bound) }
    requires halves_in { AreHalves Up store.old.nodes.slots store.old.into.items }
    requires halves_out { AreHalves Down store.old.nodes.slots store.old.out.items }
    ensures points { SamePoints store.old store.new }
    ensures halves_in { AreHalves Up store.new.nodes.slots store.new.into.items }
    ensures halves_out { AreHalves Down store.new.nodes.slots store.new.out.items }
    ensures ok { OnOk result ((key : ℕ)
        × IsEntered (Own id) (arc_of bound) key store.old.nodes.slots store.new.nodes.slots
        × IsRecorded id.0 bound key bounds.old bounds.new keys.old keys.new) }
    ensures degrees { OnOk result (IsMore (arc_of bound) store.old store.new) }
    ensures err { OnErr result (bounds.new.entries ≡ bounds.old.entries) }
    ensures err_keys { OnErr result ((q : ℕ) → get nat_cmp keys.new q ≡ get nat_cmp keys.old q) }
    ensures err_edges { OnErr result (AreSame store.old.nodes.slots store.new.nodes.slots) }
    ensures err_up { OnErr result ((y : ℕ)
        → length (keys_of Up store.new y) ≡ length (keys_of Up store.old y)) }
    ensures err_down { OnErr result ((y : ℕ)
        → length (keys_of Down store.new y) ≡ length (keys_of Down store.old y)) }
{
    let key = insert(store, Edge::Own(id), arc(&bound))?;
    if let Err(error) = record(bounds, keys, id, bound, key) {
        remove(store, key);
        return Err(error);
    }
    Ok(())
}

/// What one more edge does in both directions. The moments stay, so that nothing has to be put back
/// where it can't be met, or where a growth is refused.
fn tighten(alloc: Global, engine: &mut Engine, new: Arc) -> Result<Option<Vec<usize>>, AllocError>
    requires solved { IsSolved engine.old }
    requires edge { IsEdgeOf (length engine.old.low.items) new }
    requires looks { engine.old.looks ≡ 0 }
    ensures store { engine.new.store ≡ engine.old.store }
    ensures low { engine.new.low ≡ engine.old.low }
    ensures high { engine.new.high ≡ engine.old.high }
    ensures idle_up { IsIdle (length engine.old.low.items) engine.new.up }
    ensures idle_down { IsIdle (length engine.old.low.items) engine.new.down }
    ensures there { IfOk result (λ r. AreThere engine.old.store.nodes.slots r) }
    ensures tightened { IfOk result (λ r. IsTightened (arcs_of engine.old.store.nodes.slots) new
        engine.old.low.items engine.old.high.items engine.new.up.amounts.items
        engine.new.down.amounts.items r) }
    ensures counted { IfOk result (λ r. AreCounted engine.old.store (length engine.old.low.items)
        engine.new.up.amounts.items engine.new.down.amounts.items 0 engine.new.looks r) }
    ensures looks { (edges : ℕ) → IsWired (length engine.old.low.items) edges engine.old
        → engine.new.looks ≤ 2 * (edges + 1) }
{
    let low = Potential {
        store: &engine.store,
        moments: &engine.low,
    };
    if let Some(path) = rise(alloc, &low, &mut engine.up, new, &mut engine.looks)? {
        return Ok(Some(path));
    }
    let high = Potential {
        store: &engine.store,
        moments: &engine.high,
    };
    fall(&high, &mut engine.down, new, &mut engine.looks)?;
    Ok(None)
}

/// Brings a bound in with the moments that it leaves, or tells the rest of a negative cycle that
/// begins with its edge. Where it can't be met, or a growth is refused, the edges and the moments
/// are as before. The edge and each other one are looked at once a direction at most.
pub fn bring(
    alloc: Global,
    engine: &mut Engine,
    bounds: &mut BTreeMap<u32, Bound>,
    keys: &mut BTreeMap<u32, usize>,
    id: BoundId,
    bound: Bound,
) -> Result<Option<Vec<usize>>, AllocError>
    requires solved { IsSolved engine.old }
    requires weight { IsSmallWeight bound.w }
    requires among { JoinsPoints (length engine.old.low.items) (arc_of bound) }
    requires looks { engine.old.looks ≡ 0 }
    requires free { IsFree id.0 bounds.old keys.old }
    ensures ok { IfOk result (λ r.
        IsBrought id bound engine.old engine.new bounds.old bounds.new keys.old keys.new r) }
    ensures err { OnErr result
        (IsUnbrought engine.old engine.new bounds.old bounds.new keys.old keys.new) }
    ensures counted { IfOk result (λ r. AreCounted engine.old.store (length engine.old.low.items)
        engine.new.up.amounts.items engine.new.down.amounts.items 0 engine.new.looks r) }
    ensures looks { (edges : ℕ) → IsWired (length engine.old.low.items) edges engine.old
        → engine.new.looks ≤ 2 * (edges + 1) }
{
    if let Some(path) = tighten(alloc, engine, arc(&bound))? {
        return Ok(Some(path));
    }
    enter(&mut engine.store, bounds, keys, id, bound)?;
    move_up(&mut engine.low, &engine.up);
    move_down(&mut engine.high, &engine.down);
    Ok(None)
}

/// A reason that begins with an edge which no solution meets. It changes nothing; each edge is
/// looked at once at most.
pub fn refute(
    alloc: Global,
    engine: &mut Engine,
    first: Edge,
    new: Arc,
) -> Result<Reason, AllocError>
    requires solved { IsSolved engine.old }
    requires weight { IsSmallWeight new.weight }
    requires among { JoinsPoints (length engine.old.low.items) new }
    requires none { HasNoSolution (arcs_of engine.old.store.nodes.slots ++ new ∷ []) }
    requires looks { engine.old.looks ≡ 0 }
    ensures reason { IfOk result (λ r. NamesCycle (names_of engine.old.store.nodes.slots)
        (kept_arcs engine.old.store.nodes.slots) first new r.edges.items) }
    ensures still { IsUntouched engine.old engine.new }
    ensures looks { (edges : ℕ) → IsWired (length engine.old.low.items) edges engine.old
        → engine.new.looks ≤ edges + 1 }
    ensures some { IfOk result (λ _. 1 ≤ engine.new.looks) }
{
    let low = Potential {
        store: &engine.store,
        moments: &engine.low,
    };
    match rise(alloc, &low, &mut engine.up, new, &mut engine.looks)? {
        Some(path) => Ok(named(alloc, &engine.store, first, &path)?),
        None => unreachable!(),
    }
}
