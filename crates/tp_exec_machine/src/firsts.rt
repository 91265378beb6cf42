//! In which order many bounds come into force: first those that hold the least and the greatest
//! moments in the end, from the origin on. Each of them moves few points, and behind them no other
//! bound moves any. Which of them come first is a guess, of which nothing is promised: the order
//! has each of them once. There may be no schedule, so the moments are not those of `tp_net`, whose
//! rounds begin with one.

ghost use Rattle.std.specs.Prelude.{◌≡◌, ℕ, ◌<◌, length, IfOk, OnOk, true, false, slice_index_or};
ghost use Rattle.tp_exec_machine.specs.Orders.{AreAllPlaces, AreListed};

use std::alloc::{AllocError, Global};
use tp_bounds::{Bound, Point};

// That one point has a moment asks another one to come so many ticks behind it, or before it where
// ticks are counted backwards.
#[derive(Clone, Copy)]
struct Arrow {
    source: usize,
    target: usize,
    weight: i64,
}

// The number of a point: 0 for the origin.
fn number_of(point: Point) -> usize {
    match point {
        Point::Origin => 0,
        Point::Event(e) => usize::from(e).saturating_add(1),
    }
}

// What a bound asks for upwards, of least moments, or downwards, of greatest ones, which are
// counted below 0.
fn arrow_of(bound: &Bound, upwards: bool) -> Arrow {
    let from = number_of(bound.from);
    let to = number_of(bound.to);
    let weight = bound.w;
    if upwards {
        Arrow {
            source: to,
            target: from,
            weight,
        }
    } else {
        Arrow {
            source: from,
            target: to,
            weight,
        }
    }
}

// The moment that a point has to have at least for an arrow.
fn asked(moments: &[i64], arrow: Arrow) -> i64 {
    match moments.get(arrow.source) {
        Some(moment) => moment.saturating_sub(arrow.weight),
        None => i64::MIN,
    }
}

// Moves each point as far as the bounds ask for, one after another, and tells whether one moved.
fn move_once(bounds: &[Bound], upwards: bool, moments: &mut [i64]) -> bool {
    let mut moved = false;
    for bound in bounds {
        let arrow = arrow_of(bound, upwards);
        let least = asked(moments, arrow);
        if let Some(moment) = moments.get_mut(arrow.target) {
            if *moment < least {
                *moment = least;
                moved = true;
            }
        }
    }
    moved
}

// The moments of so many points that meet all bounds, from the first one on.
fn moments_of(
    alloc: Global,
    bounds: &[Bound],
    points: usize,
    upwards: bool,
    first: i64,
) -> Result<Vec<i64>, AllocError> {
    let mut moments = vec![in alloc; first; points]?;
    if let Some(origin) = moments.get_mut(0) {
        *origin = 0;
    }
    for _ in 0..points {
        if !move_once(bounds, upwards, &mut moments) {
            break;
        }
    }
    Ok(moments)
}

// Which points hold their moment without a bound.
fn settled_of(alloc: Global, moments: &[i64], first: i64) -> Result<Vec<bool>, AllocError> {
    let mut settled = Vec::with_capacity(alloc, moments.len())?;
    for moment in moments {
        settled.push(*moment == first)?;
    }
    if let Some(origin) = settled.get_mut(0) {
        *origin = true;
    }
    Ok(settled)
}

// Whether an arrow begins at a point that is settled, and holds the moment of one that isn't.
fn settles(moments: &[i64], settled: &[bool], arrow: Arrow) -> bool {
    settled.get(arrow.source).copied() == Some(true)
        && settled.get(arrow.target).copied() == Some(false)
        && moments.get(arrow.target).copied() == Some(asked(moments, arrow))
}

// Settles what bounds hold by points that are settled, and puts their places at the end of a list.
// Tells whether there were some.
fn settle_once(
    bounds: &[Bound],
    upwards: bool,
    moments: &[i64],
    settled: &mut [bool],
    order: &mut Vec<usize>,
) -> Result<bool, AllocError> {
    let before = order.len();
    for (place, bound) in bounds.iter().enumerate() {
        let arrow = arrow_of(bound, upwards);
        if settles(moments, settled, arrow) {
            if let Some(flag) = settled.get_mut(arrow.target) {
                *flag = true;
            }
            order.push(place)?;
        }
    }
    Ok(before < order.len())
}

// Puts the places of the bounds that hold the moments in one direction at the end of a list.
fn put_holding(
    alloc: Global,
    bounds: &[Bound],
    points: usize,
    upwards: bool,
    first: i64,
    order: &mut Vec<usize>,
) -> Result<(), AllocError> {
    let moments = moments_of(alloc, bounds, points, upwards, first)?;
    let mut settled = settled_of(alloc, &moments, first)?;
    for _ in 0..points {
        if !settle_once(bounds, upwards, &moments, &mut settled, order)? {
            break;
        }
    }
    Ok(())
}

// The places of the bounds that hold moments, from the origin on. A bound that holds some in both
// directions stands there twice.
fn holding(
    alloc: Global,
    bounds: &[Bound],
    events: usize,
    horizon: u32,
) -> Result<Vec<usize>, AllocError> {
    let points = events.saturating_add(1);
    let bottom = 0i64.saturating_sub(i64::from(horizon));
    let mut order = Vec::new(alloc);
    put_holding(alloc, bounds, points, true, 0, &mut order)?;
    put_holding(alloc, bounds, points, false, bottom, &mut order)?;
    Ok(order)
}

// Puts a place at the end of a list, if it is one and does not stand there yet.
fn put_once(order: &mut Vec<usize>, there: &mut Vec<bool>, place: usize) -> Result<(), AllocError>
    requires { AreListed there.old.items order.old.items }
    ensures listed { OnOk result (AreListed there.new.items order.new.items) }
    ensures len { length there.new.items ≡ length there.old.items }
    ensures here { OnOk result
        (place < length there.old.items → slice_index_or there.new.items place false ≡ true) }
    ensures stays { (p : ℕ) → slice_index_or there.old.items p false ≡ true
        → slice_index_or there.new.items p false ≡ true }
{
    if place < there.len() && !there[place] {
        order.push(place)?;
        there[place] = true;
    }
    Ok(())
}

// The places below a count, each once: those of a list before the others.
fn each_once(alloc: Global, first: &[usize], count: usize) -> Result<Vec<usize>, AllocError>
    ensures { IfOk result (λ order. AreAllPlaces count order.items) }
{
    let mut there = vec![in alloc; false; count]?;
    let mut order = Vec::with_capacity(alloc, count)?;
    for early in first {
        put_once(&mut order, &mut there, *early)?;
    }
    for place in 0..count {
        put_once(&mut order, &mut there, place)?;
    }
    Ok(order)
}

/// An order in which bounds between so many events, up to that horizon, come into force at little
/// cost: the place of each bound once. It goes over the bounds once for each point at most, four
/// times in all.
pub fn entry_order(
    alloc: Global,
    bounds: &[Bound],
    events: usize,
    horizon: u32,
) -> Result<Vec<usize>, AllocError>
    ensures { IfOk result (λ order. AreAllPlaces (length bounds.now) order.items) }
{
    let first = holding(alloc, bounds, events, horizon)?;
    each_once(alloc, &first, bounds.len())
}
