//! The edges of a setting, as two lists in one order: their names, and their arcs in the distance
//! graph.
ghost use Rattle.std.specs.Prelude.{◌≡◌, ℕ, ◌<◌, ◌≤◌, ◌++◌, ◌∷◌, [], All, length, map, IfOk};
ghost use Rattle.tp_bounds.specs.Setting.{Setting};
ghost use Rattle.tp_bounds.specs.Changes.{without_bound};
ghost use Rattle.tp_bounds.specs.Reasons.{at_least, at_most};
ghost use Rattle.tp_net.specs.Arcs.{number_of, arc_of, name_at, AreArcs, floor_at, raised_by, AreRaised, past_name, past_arc, AreNamesPast, AreArcsPast, IsContrary, NamesCycle};
ghost use Rattle.tp_net.specs.NewNet.{new_setting};

use crate::moments::contrary_cycle;
use crate::slacks::Arc;
use std::alloc::{AllocError, Global};
use tp_bounds::{Bound, BoundId, Edge, Point, Reason};

/// The number of a point among those of the arcs: 0 for the origin, one more than its own for an
/// event.
pub fn number(point: Point) -> usize
    ensures { result ≡ number_of point }
{
    match point {
        Point::Origin => 0,
        Point::Event(e) => usize::from(e) + 1,
    }
}

/// A bound as an arc.
pub fn arc(bound: &Bound) -> Arc
    ensures { result ≡ arc_of bound.now }
{
    Arc {
        from: number(bound.from),
        to: number(bound.to),
        weight: bound.w,
    }
}

/// The arc that keeps an event from happening before a moment.
pub fn start_arc(e: u16, moment: u32) -> Arc
    ensures { result ≡ arc_of (at_least e moment) }
{
    Arc {
        from: number(Point::Event(e)),
        to: 0,
        weight: -i64::from(moment),
    }
}

/// The arc that keeps an event from happening after a moment.
pub fn stop_arc(e: u16, moment: u32) -> Arc
    ensures { result ≡ arc_of (at_most e moment) }
{
    Arc {
        from: 0,
        to: number(Point::Event(e)),
        weight: i64::from(moment),
    }
}

/// The edges of a network with no bound, at 0, of which nothing is dispatched.
pub fn star(alloc: Global, events: u16, horizon: u32) -> Result<(Vec<Edge>, Vec<Arc>), AllocError>
    ensures { IfOk result (λ r. AreArcs (new_setting events horizon) r.0.items r.1.items) }
{
    let mut names = Vec::new(alloc);
    let mut arcs = Vec::new(alloc);
    for e in 0..events {
        names.push(Edge::Now(e))?;
        arcs.push(start_arc(e, 0))?;
        names.push(Edge::End(e))?;
        arcs.push(stop_arc(e, horizon))?;
    }
    Ok((names, arcs))
}

/// The edges but for that of one bound.
pub fn without(
    alloc: Global,
    names: &[Edge],
    arcs: &[Arc],
    id: BoundId,
) -> Result<(Vec<Edge>, Vec<Arc>), AllocError>
    requires { length names.now ≡ length arcs.now }
    ensures { IfOk result (λ r. (s : Setting)
        → AreArcs s names.now arcs.now → AreArcs (without_bound s id.0) r.0.items r.1.items) }
{
    let mut left_names = Vec::new(alloc);
    let mut left_arcs = Vec::new(alloc);
    for k in 0..names.len() {
        if names[k] != Edge::Own(id) {
            left_names.push(names[k])?;
            left_arcs.push(arcs[k])?;
        }
    }
    Ok((left_names, left_arcs))
}

/// The floor of an event at a moment, where these are the lags.
pub fn floor(lags: &[u32], e: u16, now: u32) -> u32
    ensures { result ≡ floor_at now lags.now e }
{
    let lag = lags.get(e as usize).copied().unwrap_or(0);
    now.saturating_sub(lag)
}

/// An arc when now is raised: that of a floor moves along.
fn raised_arc(name: Edge, arc: Arc, lags: &[u32], now: u32) -> Arc
    ensures { result ≡ raised_by now lags.now name arc }
{
    match name {
        Edge::Now(e) => Arc {
            from: arc.from,
            to: arc.to,
            weight: -i64::from(floor(lags, e, now)),
        },
        _ => arc,
    }
}

/// The arcs when now is raised. The names stay.
pub fn raised(
    alloc: Global,
    names: &[Edge],
    arcs: &[Arc],
    lags: &[u32],
    now: u32,
) -> Result<Vec<Arc>, AllocError>
    requires { length names.now ≡ length arcs.now }
    ensures { IfOk result (λ r. AreRaised now lags.now names.now arcs.now r.items) }
{
    let mut raised = Vec::new(alloc);
    for k in 0..names.len() {
        raised.push(raised_arc(names[k], arcs[k], lags, now))?;
    }
    Ok(raised)
}

/// The name of an edge when an event is dispatched: its floor and its end give way to its moment.
pub fn name_past(name: Edge, e: u16) -> Edge
    ensures { result ≡ past_name e name }
{
    match name {
        Edge::Now(k) if k == e => Edge::PastLow(k),
        Edge::End(k) if k == e => Edge::PastHigh(k),
        _ => name,
    }
}

/// The arc of an edge of this name when an event is dispatched at a moment.
fn arc_past(name: Edge, arc: Arc, e: u16, moment: u32) -> Arc
    ensures { result ≡ past_arc e moment name arc }
{
    let weight = match name {
        Edge::Now(k) if k == e => -i64::from(moment),
        Edge::End(k) if k == e => i64::from(moment),
        _ => arc.weight,
    };
    Arc {
        from: arc.from,
        to: arc.to,
        weight,
    }
}

/// The names of the edges when an event is dispatched.
pub fn names_past(alloc: Global, names: &[Edge], e: u16) -> Result<Vec<Edge>, AllocError>
    ensures { IfOk result (λ r. AreNamesPast e names.now r.items) }
{
    let mut past = Vec::new(alloc);
    for name in names {
        past.push(name_past(*name, e))?;
    }
    Ok(past)
}

/// The arcs of the edges of these names when an event is dispatched at a moment.
pub fn arcs_past(
    alloc: Global,
    names: &[Edge],
    arcs: &[Arc],
    e: u16,
    moment: u32,
) -> Result<Vec<Arc>, AllocError>
    requires { length names.now ≡ length arcs.now }
    ensures { IfOk result (λ r. AreArcsPast e moment names.now arcs.now r.items) }
{
    let mut past = Vec::new(alloc);
    for k in 0..names.len() {
        past.push(arc_past(names[k], arcs[k], e, moment))?;
    }
    Ok(past)
}

/// The name of this number, where one more comes after all names.
fn name_of(names: &[Edge], last: Edge, k: usize) -> Edge
    requires { k ≤ length names.now }
    ensures { result ≡ name_at (names.now ++ last ∷ []) k }
{
    if k < names.len() { names[k] } else { last }
}

/// A reason of the edges of these numbers, where one more edge comes after all names.
pub fn named(
    alloc: Global,
    names: &[Edge],
    last: Edge,
    cycle: &[usize],
) -> Result<Reason, AllocError>
    requires { All (λ k. k ≤ length names.now) cycle.now }
    ensures { IfOk result (λ r. r.edges.items ≡ map (name_at (names.now ++ last ∷ [])) cycle.now) }
{
    let mut edges = Vec::new(alloc);
    for k in cycle {
        edges.push(name_of(names, last, *k))?;
    }
    Ok(Reason { edges })
}

/// A reason that begins with an edge which no schedule meets.
pub fn refutation(
    alloc: Global,
    names: &[Edge],
    arcs: &[Arc],
    low: &[u64],
    first: Edge,
    new: Arc,
) -> Result<Reason, AllocError>
    requires { IsContrary names.now arcs.now low.now new }
    ensures { IfOk result (λ r. NamesCycle names.now arcs.now first new r.edges.items) }
{
    let cycle = contrary_cycle(alloc, arcs, low, new)?;
    Ok(named(alloc, names, first, &cycle)?)
}
