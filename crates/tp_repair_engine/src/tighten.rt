//! One more arc: how far the points move for it, or the way back that says why it can't be met.
ghost use Rattle.std.specs.Prelude.{◌≡◌, ◌≢◌, ℕ, ◌+◌, ◌-◌, ◌^◌, ◌∷◌, ◌++◌, [], pos, ◌<◌, ◌≤◌, length, All, IfOk, OnOk, slice_index};
ghost use Rattle.tp_net.specs.Graph.{IsLeast, IsGreatest, IsSolution, arc_at};
ghost use Rattle.tp_net.specs.Links.{IsSpread, IsTrace};
ghost use Rattle.tp_repair_engine.specs.Flow.{links_of, looks_at, sum_to};
ghost use Rattle.tp_repair_engine.specs.Potential.{IsEdgeOf};
ghost use Rattle.tp_repair_engine.specs.Store.{arcs_of, keys_of, HasNode};
ghost use Rattle.tp_repair_engine.specs.Work.{HasPlaces, IsClear, IsSetOut, IsIdle, IsOrder, Falls, WouldRise, IsCounted, AreThere, HaveParents};
ghost use Rattle.tp_repair_engine.specs.declared.store.Direction.TheVariants.{Up, Down};

use crate::flow::{Work, flow};
use crate::potential::Potential;
use crate::store::{Direction, Store};
use std::alloc::{AllocError, Global};
use tp_net::slacks::{Arc, gap};

/// Sets out an amount at a point.
fn set_out(work: &mut Work, points: usize, seed: usize, amount: u64) -> Result<(), AllocError>
    requires clear { IsClear points work.old }
    requires seed { seed < points }
    ensures places { HasPlaces points work.new }
    ensures set_out { OnOk result (IsSetOut points seed amount work.new) }
{
    work.queue.push((amount, seed))?;
    work.amounts[seed] = amount;
    Ok(())
}

/// Takes back what was worked out: only the points that were settled have something.
pub fn clear(work: &mut Work, points: usize)
    requires { IsIdle points work.old }
    ensures { IsClear points work.new }
{
    work.queue.clear();
    while let Some(point) = work.order.pop() {
        work.amounts[point] = 0;
        work.ranks[point] = 0;
    }
}

/// Takes back what was worked out in part, point by point.
pub fn wipe(work: &mut Work, points: usize)
    requires places { HasPlaces points work.old }
    ensures { IsClear points work.new }
{
    work.queue.clear();
    work.order.clear();
    for point in 0..points {
        work.amounts[point] = 0;
        work.ranks[point] = 0;
    }
}

/// How far each point has to move where one has to by an amount, from where nothing is worked out;
/// and how many edges were looked at. Where a growth is refused, work is left over.
fn try_spread(
    potential: &Potential<'_>,
    direction: Direction,
    work: &mut Work,
    seed: usize,
    amount: u64,
) -> Result<u64, AllocError>
    requires clear { IsClear (length potential.now.moments.now) work.old }
    requires seed { seed < length potential.now.moments.now }
    ensures places { HasPlaces (length potential.now.moments.now) work.new }
    ensures parents { OnOk result (HaveParents potential.now.store.now.nodes.slots seed work.new) }
    ensures spread { OnOk result (IsSpread (links_of direction (λ x.
        slice_index potential.now.moments.now x) (arcs_of potential.now.store.now.nodes.slots)) seed
        amount work.new.amounts.items work.new.ranks.items work.new.parents.items) }
    ensures order { OnOk result (IsOrder work.new.ranks.items work.new.order.items) }
    ensures looks { IfOk result (λ looks.
        looks ≡ looks_at (keys_of direction potential.now.store.now) (λ x.
        slice_index work.new.amounts.items x) (length potential.now.moments.now)) }
{
    set_out(work, potential.moments.len(), seed, amount)?;
    Ok(flow(potential, direction, work)?)
}

/// How far each point has to move where one has to by an amount; and how many edges were looked at.
pub fn spread_from(
    potential: &Potential<'_>,
    direction: Direction,
    work: &mut Work,
    seed: usize,
    amount: u64,
) -> Result<u64, AllocError>
    requires idle { IsIdle (length potential.now.moments.now) work.old }
    requires seed { seed < length potential.now.moments.now }
    ensures idle { IsIdle (length potential.now.moments.now) work.new }
    ensures parents { OnOk result (HaveParents potential.now.store.now.nodes.slots seed work.new) }
    ensures spread { OnOk result (IsSpread (links_of direction (λ x.
        slice_index potential.now.moments.now x) (arcs_of potential.now.store.now.nodes.slots)) seed
        amount work.new.amounts.items work.new.ranks.items work.new.parents.items) }
    ensures looks { IfOk result (λ looks.
        looks ≡ looks_at (keys_of direction potential.now.store.now) (λ x.
        slice_index work.new.amounts.items x) (length potential.now.moments.now)) }
{
    let points = potential.moments.len();
    clear(work, points);
    match try_spread(potential, direction, work, seed, amount) {
        Ok(looks) => Ok(looks),
        Err(error) => {
            wipe(work, points);
            Err(error)
        }
    }
}

/// The edges by which a point came to move, back to the point that moved first.
pub fn way_back(
    alloc: Global,
    potential: &Potential<'_>,
    work: &Work,
    seed: usize,
    target: usize,
) -> Result<Vec<usize>, AllocError>
    requires positive { 0 < slice_index work.now.amounts.items target }
    requires spread { IsSpread (links_of Up (λ x. slice_index potential.now.moments.now x) (arcs_of
        potential.now.store.now.nodes.slots)) seed (slice_index work.now.amounts.items seed)
        work.now.amounts.items work.now.ranks.items work.now.parents.items }
    requires parents { HaveParents potential.now.store.now.nodes.slots seed work.now }
    ensures there { IfOk result (λ path. All (HasNode potential.now.store.now.nodes.slots)
        path.items) }
    ensures trace { IfOk result (λ path. IsTrace (links_of Up (λ x. slice_index
        potential.now.moments.now x) (arcs_of potential.now.store.now.nodes.slots)) target seed
        (slice_index work.now.amounts.items seed) (slice_index work.now.amounts.items target)
        path.items) }
{
    let mut path = Vec::new(alloc);
    let mut point = target;
    while point != seed {
        let key = work.parents[point];
        path.push(key)?;
        point = end_of(potential.store, key);
    }
    Ok(path)
}

/// Where the arc under a key ends. A key that is free is at the origin.
fn end_of(store: &Store, key: usize) -> usize
    ensures { result ≡ (arc_at (arcs_of store.now.nodes.slots) key).to }
{
    match store.nodes.get(key) {
        Some(node) => node.arc.to,
        None => 0,
    }
}

/// How far the points rise for one more arc, if it can be met; else the rest of a negative cycle
/// that begins with it.
pub fn rise(
    alloc: Global,
    low: &Potential<'_>,
    work: &mut Work,
    new: Arc,
    looks: &mut u64,
) -> Result<Option<Vec<usize>>, AllocError>
    requires least { IsLeast (arcs_of low.now.store.now.nodes.slots) low.now.moments.now }
    requires edge { IsEdgeOf (length low.now.moments.now) new }
    requires counted { looks.old < 2 ^ 62 }
    requires idle { IsIdle (length low.now.moments.now) work.old }
    ensures idle { IsIdle (length low.now.moments.now) work.new }
    ensures there { IfOk result (λ r. AreThere low.now.store.now.nodes.slots r) }
    ensures rises { IfOk result (λ r. WouldRise (arcs_of low.now.store.now.nodes.slots) new
        low.now.moments.now work.new.amounts.items r) }
    ensures looks { IfOk result (λ r. IsCounted (keys_of Up low.now.store.now)
        (length low.now.moments.now) work.new.amounts.items looks.old looks.new r) }
    ensures most { looks.new ≤ looks.old + (1 + sum_to (λ y.
        length (keys_of Up low.now.store.now y)) (length low.now.moments.now)) }
{
    let amount = gap(low.moments[new.from], low.moments[new.to], new.weight);
    let more = spread_from(low, Direction::Up, work, new.from, amount)?;
    *looks += more + 1;
    if work.amounts[new.to] > 0 {
        let path = way_back(alloc, low, work, new.from, new.to)?;
        return Ok(Some(path));
    }
    Ok(None)
}

/// How far the points fall for one more arc, with which there is a solution.
pub fn fall(
    high: &Potential<'_>,
    work: &mut Work,
    new: Arc,
    looks: &mut u64,
) -> Result<(), AllocError>
    requires greatest { IsGreatest (arcs_of high.now.store.now.nodes.slots) high.now.moments.now }
    requires edge { IsEdgeOf (length high.now.moments.now) new }
    requires solution { (t : ℕ → ℕ)
        × IsSolution (arcs_of high.now.store.now.nodes.slots ++ new ∷ []) (λ x. pos (t x)) }
    requires counted { looks.old < 2 ^ 63 }
    requires idle { IsIdle (length high.now.moments.now) work.old }
    ensures idle { IsIdle (length high.now.moments.now) work.new }
    ensures falls { OnOk result (Falls (arcs_of high.now.store.now.nodes.slots) new
        high.now.moments.now work.new.amounts.items) }
    ensures looks { OnOk result (looks.new ≡ looks.old + (1 + looks_at
        (keys_of Down high.now.store.now) (λ x. slice_index work.new.amounts.items x)
        (length high.now.moments.now))) }
    ensures most { looks.new ≤ looks.old + (1 + sum_to (λ y.
        length (keys_of Down high.now.store.now y)) (length high.now.moments.now)) }
{
    let amount = gap(high.moments[new.from], high.moments[new.to], new.weight);
    let more = spread_from(high, Direction::Down, work, new.to, amount)?;
    *looks += more + 1;
    Ok(())
}

/// Moves the points that were settled up by what they have.
pub fn move_up(low: &mut Vec<u64>, work: &Work)
    requires idle { IsIdle (length low.old.items) work.now }
    requires fits { (x : ℕ) → x < length low.old.items
        → slice_index low.old.items x + slice_index work.now.amounts.items x < 2 ^ 64 }
    ensures len { length low.new.items ≡ length low.old.items }
    ensures each { (x : ℕ) → x < length low.old.items → slice_index low.new.items x
        ≡ slice_index low.old.items x + slice_index work.now.amounts.items x }
{
    for point in &work.order {
        low[*point] += work.amounts[*point];
    }
}

/// Moves the points that were settled down by what they have.
pub fn move_down(high: &mut Vec<u64>, work: &Work)
    requires idle { IsIdle (length high.old.items) work.now }
    ensures len { length high.new.items ≡ length high.old.items }
    ensures each { (x : ℕ) → x < length high.old.items → slice_index high.new.items x
        ≡ slice_index high.old.items x - slice_index work.now.amounts.items x }
{
    for point in &work.order {
        high[*point] = high[*point].saturating_sub(work.amounts[*point]);
    }
}
