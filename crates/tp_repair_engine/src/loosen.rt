//! Where moments go back to when an edge that held them leaves.
ghost use Rattle.std.specs.Prelude.{◌≡◌, ℕ, ◌+◌, ◌-◌, ◌^◌, ◌<◌, ◌≤◌, length, IfOk, OnOk, slice_index, slice_set};
ghost use Rattle.std.specs.BinaryHeap.{heap_items};
ghost use Rattle.tp_repair_engine.specs.Queue.{IsQueue};
ghost use Rattle.tp_repair_engine.specs.Flow.{link_of, sum_to};
ghost use Rattle.tp_repair_engine.specs.Store.{arcs_of, arc_along, halves_at, lists_of, keys_of};
ghost use Rattle.tp_repair_engine.specs.Potential.{IsAlong};
ghost use Rattle.tp_repair_engine.specs.Work.{HasPlaces, IsClear, IsIdle, IsOpenAt, IsOrder};
ghost use Rattle.tp_repair_engine.specs.Loosened.{turned, IsBest, IsBeginning, IsFreed};
ghost use Rattle.tp_repair_engine.specs.declared.store.Direction.TheVariants.{Up, Down};

use crate::flow::{Work, flow};
use crate::potential::Potential;
use crate::store::{Direction, Half};
use crate::tighten::{clear, wipe};
use std::alloc::AllocError;

/// Points that are marked, and the amount that each other point has.
#[derive(Clone, Copy)]
pub struct Marked<'a> {
    pub potential: Potential<'a>,
    pub marks: &'a [u64],
    pub amount: u64,
    ghost len: { length marks.now ≡ length potential.moments.now },
    ghost positive: { 0 < amount },
}

/// The other direction.
fn turn(direction: Direction) -> Direction
    ensures { result ≡ turned direction }
{
    match direction {
        Direction::Up => Direction::Down,
        Direction::Down => Direction::Up,
    }
}

/// What a point has by an edge from a point that is not marked, which has the amount; nothing by
/// one that is marked.
fn offered(
    marked: &Marked<'_>,
    direction: Direction,
    point: usize,
    half: &Half,
    looks: &mut u64,
) -> u64
    requires point { point < length marked.now.potential.moments.now }
    requires along { IsAlong marked.now.potential.moments.now direction point half.now }
    requires looks { looks.old < 2 ^ 63 }
    ensures free { slice_index marked.now.marks.now half.now.far ≡ 0 → result ≡ marked.now.amount -
        (link_of direction (λ x. slice_index marked.now.potential.moments.now x) (arc_along
        direction point half.now)).slack }
    ensures marked { 0 < result → slice_index marked.now.marks.now half.now.far ≡ 0 }
    ensures counted { looks.new ≡ looks.old + 1 }
{
    let slack = marked.potential.slack_along(direction, point, half, looks);
    if marked.marks[half.far] == 0 {
        return marked.amount.saturating_sub(slack);
    }
    0
}

/// The most that a point has by the edges in its list from points that are not marked, which have
/// the amount each; and how many edges were looked at.
fn best_of(marked: &Marked<'_>, direction: Direction, point: usize) -> (u64, u64)
    requires point { point < length marked.now.potential.moments.now }
    ensures best { IsBest direction (λ x. slice_index marked.now.potential.moments.now x) (λ x.
        slice_index marked.now.marks.now x) marked.now.amount point
        (halves_at (lists_of direction marked.now.potential.store.now) point) result.0 }
    ensures looks { result.1 ≡ length (keys_of direction marked.now.potential.store.now point) }
{
    let list = marked.potential.list(direction, point);
    let mut best = 0;
    let mut looks = 0;
    for half in list {
        let offered = offered(marked, direction, point, half, &mut looks);
        if best < offered {
            best = offered;
        }
    }
    (best, looks)
}

/// Settles a point that is not marked with the amount.
fn settle_point(work: &mut Work, points: usize, point: usize, amount: u64) -> Result<(), AllocError>
    requires { IsOpenAt points point work.old }
    ensures places { HasPlaces points work.new }
    ensures order { OnOk result (IsOrder work.new.ranks.items work.new.order.items) }
    ensures amounts { OnOk result (work.new.amounts.items
        ≡ slice_set work.old.amounts.items point amount) }
    ensures ranks { OnOk result (work.new.ranks.items
        ≡ slice_set work.old.ranks.items point (length work.old.order.items + 1)) }
    ensures queue { OnOk result (work.new.queue ≡ work.old.queue) }
{
    work.order.push(point)?;
    work.ranks[point] = work.order.len();
    work.amounts[point] = amount;
    Ok(())
}

/// Lets a point that is marked wait with an amount.
fn wait_point(work: &mut Work, points: usize, point: usize, amount: u64) -> Result<(), AllocError>
    requires { IsOpenAt points point work.old }
    ensures places { HasPlaces points work.new }
    ensures queue { OnOk result (IsQueue points (λ x. slice_index work.new.amounts.items x) (λ x.
        slice_index work.new.ranks.items x) (heap_items work.new.queue)) }
    ensures amounts { OnOk result (work.new.amounts.items
        ≡ slice_set work.old.amounts.items point amount) }
    ensures ranks { OnOk result (work.new.ranks.items ≡ work.old.ranks.items) }
    ensures order { OnOk result (work.new.order.items ≡ work.old.order.items) }
{
    work.queue.push((amount, point))?;
    work.amounts[point] = amount;
    Ok(())
}

/// Settles one more point with the amount, or, where it is marked, lets it wait with the most that
/// it has by points that are not; and tells how many edges it looked at.
fn begin_at(
    marked: &Marked<'_>,
    direction: Direction,
    work: &mut Work,
    point: usize,
) -> Result<u64, AllocError>
    requires point { point < length marked.now.potential.moments.now }
    requires beginning { IsBeginning direction marked.now.potential.store.now
        marked.now.potential.moments.now marked.now.marks.now marked.now.amount point work.old }
    ensures places { HasPlaces (length marked.now.potential.moments.now) work.new }
    ensures beginning { OnOk result (IsBeginning direction marked.now.potential.store.now
        marked.now.potential.moments.now marked.now.marks.now marked.now.amount (point + 1)
        work.new) }
    ensures looks { IfOk result (λ looks.
        looks ≤ length (keys_of direction marked.now.potential.store.now point)) }
{
    if marked.marks[point] == 0 {
        settle_point(work, marked.potential.moments.len(), point, marked.amount)?;
        return Ok(0);
    }
    let (best, looks) = best_of(marked, direction, point);
    wait_point(work, marked.potential.moments.len(), point, best)?;
    Ok(looks)
}

/// The same for all points, from where nothing is worked out.
fn begin(marked: &Marked<'_>, direction: Direction, work: &mut Work) -> Result<u64, AllocError>
    requires clear { IsClear (length marked.now.potential.moments.now) work.old }
    ensures places { HasPlaces (length marked.now.potential.moments.now) work.new }
    ensures beginning { OnOk result (IsBeginning direction marked.now.potential.store.now
        marked.now.potential.moments.now marked.now.marks.now marked.now.amount (length
        marked.now.potential.moments.now) work.new) }
    ensures looks { IfOk result (λ looks. looks ≤ sum_to (λ y. length (keys_of direction
        marked.now.potential.store.now y)) (length marked.now.potential.moments.now)) }
{
    let mut looks = 0;
    for point in 0..marked.potential.moments.len() {
        looks += begin_at(marked, direction, work, point)?;
    }
    Ok(looks)
}

/// The amounts of marked points, where all others have the amount; where a growth is refused, work
/// is left over.
fn try_free(marked: &Marked<'_>, direction: Direction, work: &mut Work) -> Result<u64, AllocError>
    requires origin { slice_index marked.now.marks.now 0 ≡ 0 }
    requires clear { IsClear (length marked.now.potential.moments.now) work.old }
    ensures places { HasPlaces (length marked.now.potential.moments.now) work.new }
    ensures freed { OnOk result (IsFreed direction (arcs_of
        marked.now.potential.store.now.nodes.slots) (length marked.now.potential.moments.now) (λ x.
        slice_index marked.now.potential.moments.now x) (λ x. slice_index marked.now.marks.now x)
        marked.now.amount (λ x. slice_index work.new.amounts.items x)) }
    ensures order { OnOk result (IsOrder work.new.ranks.items work.new.order.items) }
    ensures ended { OnOk result ((x : ℕ) → slice_index work.new.ranks.items x ≡ 0
        → slice_index work.new.amounts.items x ≡ 0) }
    ensures looks { IfOk result (λ looks. looks ≤ sum_to (λ y. length (keys_of Up
        marked.now.potential.store.now y)) (length marked.now.potential.moments.now) + sum_to (λ y.
        length (keys_of Down marked.now.potential.store.now y)) (length
        marked.now.potential.moments.now)) }
{
    let begun = begin(marked, turn(direction), work)?;
    let more = flow(&marked.potential, direction, work)?;
    Ok(begun + more)
}

/// By how much less than the amount each marked point goes back, where all others stay; and how
/// many edges were looked at: those at marked points.
pub fn free(marked: &Marked<'_>, direction: Direction, work: &mut Work) -> Result<u64, AllocError>
    requires origin { slice_index marked.now.marks.now 0 ≡ 0 }
    requires idle { IsIdle (length marked.now.potential.moments.now) work.old }
    ensures idle { IsIdle (length marked.now.potential.moments.now) work.new }
    ensures freed { OnOk result (IsFreed direction (arcs_of
        marked.now.potential.store.now.nodes.slots) (length marked.now.potential.moments.now) (λ x.
        slice_index marked.now.potential.moments.now x) (λ x. slice_index marked.now.marks.now x)
        marked.now.amount (λ x. slice_index work.new.amounts.items x)) }
    ensures looks { IfOk result (λ looks. looks ≤ sum_to (λ y. length (keys_of Up
        marked.now.potential.store.now y)) (length marked.now.potential.moments.now) + sum_to (λ y.
        length (keys_of Down marked.now.potential.store.now y)) (length
        marked.now.potential.moments.now)) }
{
    let points = marked.potential.moments.len();
    clear(work, points);
    match try_free(marked, direction, work) {
        Ok(looks) => Ok(looks),
        Err(error) => {
            wipe(work, points);
            Err(error)
        }
    }
}
