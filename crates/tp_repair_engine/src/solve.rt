//! The least and the greatest moments when an edge leaves: those that it may have held are worked
//! out anew from the others.
ghost use Rattle.std.specs.Prelude.{◌≡◌, ◌≢◌, ◌⊎◌, ℕ, ◌+◌, ◌*◌, ◌-◌, ◌<◌, ◌≤◌, ◌^◌, ◌+ℤ◌, ◌<ℤ◌, All, length, IfOk, OnOk, OnErr, slice_index, true, false};
ghost use Rattle.tp_net.specs.Graph.{moment};
ghost use Rattle.tp_net.specs.Links.{MeetsLink};
ghost use Rattle.tp_net.specs.Sizes.{IsSmall};
ghost use Rattle.tp_repair_engine.specs.Flow.{sum_to};
ghost use Rattle.tp_repair_engine.specs.Store.{arcs_of, keys_of};
ghost use Rattle.tp_repair_engine.specs.Potential.{IsMetBy, link_in};
ghost use Rattle.tp_repair_engine.specs.Work.{IsIdle};
ghost use Rattle.tp_repair_engine.specs.Engine.{IsWired};
ghost use Rattle.tp_repair_engine.specs.Loosened.{HasLost, IsFreed, IsLowered, IsHeightened};
ghost use Rattle.tp_repair_engine.specs.declared.store.Direction.TheVariants.{Up, Down};

use crate::engine::Engine;
use crate::flow::Work;
use crate::loosen::{Marked, free};
use crate::potential::Potential;
use crate::store::Direction;
use crate::tighten::spread_from;
use std::alloc::{AllocError, Global};
use tp_net::slacks::{Arc, slack};

/// The least moments: where each point is above the known one less the amount.
fn lowest(low: &mut Vec<u64>, known: &[u64], amounts: &[u64], amount: u64)
    requires len { length low.old.items ≡ length known.now }
    requires amounts { length amounts.now ≡ length known.now }
    requires fits { (x : ℕ) → x < length known.now
        → slice_index known.now x + slice_index amounts.now x < 2 ^ 64 }
    ensures len { length low.new.items ≡ length known.now }
    ensures each { (x : ℕ) → x < length known.now → slice_index low.new.items x
        ≡ (slice_index known.now x + slice_index amounts.now x) - amount }
{
    for x in 0..known.len() {
        low[x] = (known[x] + amounts[x]).saturating_sub(amount);
    }
}

/// The greatest moments: where each point is below the known one and the amount more.
fn highest(high: &mut Vec<u64>, known: &[u64], amounts: &[u64], amount: u64)
    requires len { length high.old.items ≡ length known.now }
    requires amounts { length amounts.now ≡ length known.now }
    requires fits { (x : ℕ) → x < length known.now → slice_index known.now x + amount < 2 ^ 64 }
    ensures len { length high.new.items ≡ length known.now }
    ensures each { (x : ℕ) → x < length known.now → slice_index high.new.items x
        ≡ (slice_index known.now x + amount) - slice_index amounts.now x }
{
    for x in 0..known.len() {
        high[x] = (known[x] + amount).saturating_sub(amounts[x]);
    }
}

/// Whether an edge may hold the least moment of the point where it begins: it is tight there.
pub fn holds_low(low: &[u64], arc: Arc) -> bool
    requires small { All IsSmall low.now }
    requires met { IsMetBy low.now arc }
    ensures held { result ≡ true → (arc.from ≢ 0)
        × (moment low.now arc.to ≡ (moment low.now arc.from +ℤ arc.weight)) }
    ensures loose { result ≡ false → (arc.from ≡ 0)
        ⊎ (moment low.now arc.to <ℤ (moment low.now arc.from +ℤ arc.weight)) }
{
    if arc.from == 0 {
        return false;
    }
    slack(low[arc.from], low[arc.to], arc.weight) == 0
}

/// Whether an edge may hold the greatest moment of the point where it ends: it is tight there.
pub fn holds_high(high: &[u64], arc: Arc) -> bool
    requires small { All IsSmall high.now }
    requires met { IsMetBy high.now arc }
    ensures held { result ≡ true → (arc.to ≢ 0)
        × (moment high.now arc.to ≡ (moment high.now arc.from +ℤ arc.weight)) }
    ensures loose { result ≡ false → (arc.to ≡ 0)
        ⊎ (moment high.now arc.to <ℤ (moment high.now arc.from +ℤ arc.weight)) }
{
    if arc.to == 0 {
        return false;
    }
    slack(high[arc.from], high[arc.to], arc.weight) == 0
}

/// The amounts that meet the edges, where points that are not marked have the amount. Where the
/// origin is marked, it alone has.
fn free_marked(
    marked: &Marked<'_>,
    direction: Direction,
    work: &mut Work,
) -> Result<u64, AllocError>
    requires { IsIdle (length marked.now.potential.moments.now) work.old }
    ensures idle { IsIdle (length marked.now.potential.moments.now) work.new }
    ensures freed { OnOk result (IsFreed direction
        (arcs_of marked.now.potential.store.now.nodes.slots)
        (length marked.now.potential.moments.now) (λ x.
        slice_index marked.now.potential.moments.now x) (λ x. slice_index marked.now.marks.now x)
        marked.now.amount (λ x. slice_index work.new.amounts.items x)) }
    ensures looks { IfOk result (λ looks. looks ≤ sum_to (λ y.
        length (keys_of Up marked.now.potential.store.now y))
        (length marked.now.potential.moments.now)
        + sum_to (λ y. length (keys_of Down marked.now.potential.store.now y))
        (length marked.now.potential.moments.now)) }
{
    if marked.marks[0] == 0 {
        return Ok(free(marked, direction, work)?);
    }
    Ok(spread_from(&marked.potential, direction, work, 0, marked.amount)?)
}

/// Marks what follows a point by tight edges, and works out the amounts that marked points have by
/// the others.
fn held_back(
    potential: &Potential<'_>,
    direction: Direction,
    marks: &mut Work,
    work: &mut Work,
    seed: usize,
    amount: u64,
) -> Result<u64, AllocError>
    requires seed { seed < length potential.now.moments.now }
    requires positive { 0 < amount }
    requires idle_marks { IsIdle (length potential.now.moments.now) marks.old }
    requires idle { IsIdle (length potential.now.moments.now) work.old }
    ensures idle_marks { IsIdle (length potential.now.moments.now) marks.new }
    ensures idle { IsIdle (length potential.now.moments.now) work.new }
    ensures seeded { OnOk result (0 < slice_index marks.new.amounts.items seed) }
    ensures follows { OnOk result ((k : ℕ)
        → k < length (arcs_of potential.now.store.now.nodes.slots) → MeetsLink (λ x.
        slice_index marks.new.amounts.items x)
        (link_in direction potential.now.store.now potential.now.moments.now k)) }
    ensures freed { OnOk result (IsFreed direction (arcs_of potential.now.store.now.nodes.slots)
        (length potential.now.moments.now) (λ x. slice_index potential.now.moments.now x) (λ x.
        slice_index marks.new.amounts.items x) amount (λ x. slice_index work.new.amounts.items x)) }
    ensures looks { IfOk result (λ looks. looks ≤ 2 * (sum_to (λ y.
        length (keys_of Up potential.now.store.now y)) (length potential.now.moments.now)
        + sum_to (λ y. length (keys_of Down potential.now.store.now y))
        (length potential.now.moments.now))) }
{
    let marked = spread_from(potential, direction, marks, seed, 1)?;
    let marked_points = Marked {
        potential: *potential,
        marks: &marks.amounts,
        amount,
    };
    let freed = free_marked(&marked_points, direction, work)?;
    Ok(marked + freed)
}

/// The least moments without an edge that left, where it is known that they meet the others.
fn low_without(
    alloc: Global,
    low: &Potential<'_>,
    up: &mut Work,
    down: &mut Work,
    arc: Arc,
    amount: u64,
) -> Result<(Vec<u64>, u64), AllocError>
    requires lost { HasLost (arcs_of low.now.store.now.nodes.slots) low.now.moments.now arc amount }
    requires idle_up { IsIdle (length low.now.moments.now) up.old }
    requires idle_down { IsIdle (length low.now.moments.now) down.old }
    ensures idle_up { IsIdle (length low.now.moments.now) up.new }
    ensures idle_down { IsIdle (length low.now.moments.now) down.new }
    ensures lowered { IfOk result (λ r. IsLowered (arcs_of low.now.store.now.nodes.slots)
        low.now.moments.now arc r.0.items) }
    ensures looks { IfOk result (λ r. r.1 ≤ 2 * (sum_to (λ y.
        length (keys_of Up low.now.store.now y)) (length low.now.moments.now)
        + sum_to (λ y. length (keys_of Down low.now.store.now y))
        (length low.now.moments.now))) }
{
    if !holds_low(low.moments, arc) {
        return Ok((Vec::from_slice(alloc, low.moments)?, 0));
    }
    let looks = held_back(low, Direction::Up, up, down, arc.from, amount)?;
    let mut lowered = Vec::from_slice(alloc, low.moments)?;
    lowest(&mut lowered, low.moments, &down.amounts, amount);
    Ok((lowered, looks))
}

/// The greatest moments without an edge that left, where it is known that they meet the others.
fn high_without(
    alloc: Global,
    high: &Potential<'_>,
    up: &mut Work,
    down: &mut Work,
    arc: Arc,
    amount: u64,
) -> Result<(Vec<u64>, u64), AllocError>
    requires lost { HasLost (arcs_of high.now.store.now.nodes.slots)
        high.now.moments.now arc amount }
    requires idle_up { IsIdle (length high.now.moments.now) up.old }
    requires idle_down { IsIdle (length high.now.moments.now) down.old }
    ensures idle_up { IsIdle (length high.now.moments.now) up.new }
    ensures idle_down { IsIdle (length high.now.moments.now) down.new }
    ensures heightened { IfOk result (λ r. IsHeightened (arcs_of high.now.store.now.nodes.slots)
        high.now.moments.now arc r.0.items) }
    ensures looks { IfOk result (λ r. r.1 ≤ 2 * (sum_to (λ y.
        length (keys_of Up high.now.store.now y)) (length high.now.moments.now)
        + sum_to (λ y. length (keys_of Down high.now.store.now y))
        (length high.now.moments.now))) }
{
    if !holds_high(high.moments, arc) {
        return Ok((Vec::from_slice(alloc, high.moments)?, 0));
    }
    let looks = held_back(high, Direction::Down, down, up, arc.to, amount)?;
    let mut heightened = Vec::from_slice(alloc, high.moments)?;
    highest(&mut heightened, high.moments, &up.amounts, amount);
    Ok((heightened, looks))
}

/// Works the moments out anew that an edge held, which no solution has to meet any more. Where a
/// growth is refused, they stay.
pub fn solve(alloc: Global, engine: &mut Engine, arc: Arc, amount: u64) -> Result<(), AllocError>
    requires wired { (edges : ℕ) × IsWired (length engine.old.low.items) edges engine.old }
    requires lost_low { HasLost (arcs_of engine.old.store.nodes.slots) engine.old.low.items arc
        amount }
    requires lost_high { HasLost (arcs_of engine.old.store.nodes.slots) engine.old.high.items arc
        amount }
    ensures wired { (edges : ℕ) → IsWired (length engine.old.low.items) edges engine.old
        → IsWired (length engine.old.low.items) edges engine.new }
    ensures store { engine.new.store ≡ engine.old.store }
    ensures lowered { OnOk result (IsLowered
        (arcs_of engine.old.store.nodes.slots) engine.old.low.items arc engine.new.low.items) }
    ensures heightened { OnOk result (IsHeightened
        (arcs_of engine.old.store.nodes.slots) engine.old.high.items arc engine.new.high.items) }
    ensures err_low { OnErr result (engine.new.low.items ≡ engine.old.low.items) }
    ensures err_high { OnErr result (engine.new.high.items ≡ engine.old.high.items) }
    ensures looks { (edges : ℕ) → IsWired (length engine.old.low.items) edges engine.old
        → OnOk result (engine.new.looks ≤ 8 * edges + 1) }
    ensures some { OnOk result (1 ≤ engine.new.looks) }
    ensures err_looks { OnErr result (engine.new.looks ≡ engine.old.looks) }
{
    let low = Potential {
        store: &engine.store,
        moments: &engine.low,
    };
    let (low, more) = low_without(alloc, &low, &mut engine.up, &mut engine.down, arc, amount)?;
    let high = Potential {
        store: &engine.store,
        moments: &engine.high,
    };
    let (high, rest) = high_without(alloc, &high, &mut engine.up, &mut engine.down, arc, amount)?;
    engine.low = low;
    engine.high = high;
    engine.looks = 1 + more + rest;
    Ok(())
}
