//! Dijkstra on reduced costs: how far each point has to move, and in which order that is found out.
ghost use Rattle.std.specs.Prelude.{◌≡◌, ℕ, ◌+◌, ◌<◌, ◌≤◌, length, IfOk, OnOk, slice_index};
ghost use Rattle.std.specs.BinaryHeap.{heap_items, heap_len};
ghost use Rattle.tp_repair_engine.specs.Flow.{Flowing, IsFlow, looks_at};
ghost use Rattle.tp_repair_engine.specs.Potential.{link_in};
ghost use Rattle.tp_repair_engine.specs.Store.{keys_of};
ghost use Rattle.tp_repair_engine.specs.Queue.{IsQueue};
ghost use Rattle.tp_repair_engine.specs.Work.{IsBegun, IsIdle, HasPlaces, IsOrder};

use crate::potential::Potential;
use crate::queue::next_point;
use crate::store::Direction;
use std::alloc::{AllocError, Global};
use std::collections::BinaryHeap;

/// Goes through the list of a point that has just been settled, and tells how many edges it looked
/// at.
fn relax(
    potential: &Potential<'_>,
    direction: Direction,
    point: usize,
    ranks: &[usize],
    amounts: &mut [u64],
    parents: &mut [usize],
    queue: &mut BinaryHeap<(u64, usize)>,
) -> Result<u64, AllocError>
    requires amounts { length amounts.old ≡ length potential.now.moments.now }
    requires ranks { length ranks.now ≡ length potential.now.moments.now }
    requires parents { length parents.old ≡ length potential.now.moments.now }
    requires point { point < length potential.now.moments.now }
    requires settled { 0 < slice_index ranks.now point }
    requires last { (x : ℕ) → 0 < slice_index ranks.now x
        → slice_index amounts.old point ≤ slice_index amounts.old x }
    requires queue { IsQueue (length potential.now.moments.now) (λ x.
        slice_index amounts.old x) (λ x. slice_index ranks.now x) (heap_items queue.old) }
    ensures looks { IfOk result (λ looks.
        looks ≡ length (keys_of direction potential.now.store.now point)) }
    ensures queue { OnOk result (IsQueue (length potential.now.moments.now) (λ x.
        slice_index amounts.new x) (λ x. slice_index ranks.now x) (heap_items queue.new)) }
    ensures flowing { OnOk result ((start : ℕ → ℕ) → Flowing
        (link_in direction potential.now.store.now potential.now.moments.now)
        (keys_of direction potential.now.store.now) start point 0 (λ x.
        slice_index amounts.old x) (λ x. slice_index ranks.now x) (λ x. slice_index parents.old x)
        → Flowing (link_in direction potential.now.store.now potential.now.moments.now)
        (keys_of direction potential.now.store.now) start point
        (length (keys_of direction potential.now.store.now point)) (λ x. slice_index amounts.new x)
        (λ x. slice_index ranks.now x) (λ x. slice_index parents.new x)) }
{
    let list = potential.list(direction, point);
    let mut looks = 0;
    for half in list {
        let slack = potential.slack_along(direction, point, half, &mut looks);
        let amount = amounts[point].saturating_sub(slack);
        if ranks[half.far] == 0 && amounts[half.far] < amount {
            queue.push((amount, half.far))?;
            amounts[half.far] = amount;
            parents[half.far] = half.key;
        }
    }
    Ok(looks)
}

/// What each point gains or loses, in which order they were settled (0: not), by which edge each
/// got it, and the points that may be settled next. It is kept from command to command, so that a
/// command takes memory only where the order or the queue outgrows its room.
#[derive(Drop)]
pub struct Work {
    pub amounts: Vec<u64>,
    pub ranks: Vec<usize>,
    pub parents: Vec<usize>,
    pub order: Vec<usize>,
    pub queue: BinaryHeap<(u64, usize)>,
}

impl Work {
    /// Room for so many points, in which nothing is worked out.
    pub fn new(alloc: Global, points: usize) -> Result<Work, AllocError>
        ensures { IfOk result (λ w. IsIdle points w) }
    {
        let amounts = vec![in alloc; 0u64; points]?;
        let ranks = vec![in alloc; 0usize; points]?;
        let parents = vec![in alloc; 0usize; points]?;
        Ok(Work {
            amounts,
            ranks,
            parents,
            order: Vec::new(alloc),
            queue: BinaryHeap::new(alloc),
        })
    }
}

/// Lets amounts flow from the points that have some to those that have to follow, and tells how
/// many edges it looked at: the lists of the points that it settles. Points may be settled already.
pub fn flow(
    potential: &Potential<'_>,
    direction: Direction,
    work: &mut Work,
) -> Result<u64, AllocError>
    requires begun { IsBegun (link_in direction potential.now.store.now potential.now.moments.now)
        (keys_of direction potential.now.store.now) (length potential.now.moments.now) work.old }
    ensures places { HasPlaces (length potential.now.moments.now) work.new }
    ensures flow { IfOk result (λ looks. IsFlow
        (link_in direction potential.now.store.now potential.now.moments.now)
        (keys_of direction potential.now.store.now) (λ x. slice_index work.old.amounts.items x)
        (length potential.now.moments.now) (looks_at (keys_of direction potential.now.store.now)
        (λ x. slice_index work.old.ranks.items x) (length potential.now.moments.now)
        + looks) work.new.amounts.items work.new.ranks.items work.new.parents.items) }
    ensures order { OnOk result (IsOrder work.new.ranks.items work.new.order.items) }
    ensures empty { OnOk result (heap_len work.new.queue ≡ 0) }
{
    let mut looks = 0;
    while let Some(point) = next_point(&work.amounts, &work.ranks, &mut work.queue) {
        work.order.push(point)?;
        work.ranks[point] = work.order.len();
        looks += relax(
            potential,
            direction,
            point,
            &work.ranks,
            &mut work.amounts,
            &mut work.parents,
            &mut work.queue,
        )?;
    }
    Ok(looks)
}
