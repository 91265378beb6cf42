//! Checks of what others say of a setting: that no schedule remains, and why; or that these moments
//! are one.

ghost use Rattle.std.specs.Prelude.{◌≡◌, ◌≢◌, ◌↔◌, ℕ, ◌<◌, List, length, IsTrue, Some, MatchOption, OnOk, IfErr};
ghost use Rattle.std.specs.List.{AllByRecursion};
ghost use Rattle.std.specs.FinMap as map;
ghost use Rattle.tp_bounds.specs.declared.Point.{Point};
ghost use Rattle.tp_bounds.specs.declared.Bound.{Bound};
ghost use Rattle.tp_bounds.specs.Setting.{event_count, IsInRange};
ghost use Rattle.tp_bounds.specs.Schedule.{HasSchedule, Meets, moment_of};
ghost use Rattle.tp_bounds.specs.Reasons.{bound_of, BeginApart, weight_of, IsReason, AreBounds, IsClosed};
ghost use Rattle.tp_bounds.specs.Held.{held, AreInRange};
ghost use Rattle.tp_bounds.specs.Certificates.{bounds_of, IsChain, IsClosedChain, moments_of, MayHappen, AllMayHappen, IsMisplaced, MeetsAll, IsUnmet, IsListedSchedule, Breaks};

use crate::{Bound, BoundId, Edge, Point, Reason, Setting};
use std::collections::BTreeMap;
use thiserror::Error;

/// Where the chain of these edges leads from a point, if they are one.
fn chain_end(setting: &Setting, edges: &[Edge], start: Point) -> Option<Point>
    ensures { MatchOption result ((to : Point) → ¬ IsChain setting.now start edges.now to)
        (λ to. IsChain setting.now start edges.now to) }
{
    let mut point = start;
    for edge in edges {
        let bound = setting.bound(*edge)?;
        if bound.from != point {
            return None;
        }
        point = bound.to;
    }
    Some(point)
}

/// Whether the edges are a chain that ends where it begins.
fn is_closed(setting: &Setting, edges: &[Edge]) -> bool
    ensures { IsTrue result ↔ IsClosedChain setting.now edges.now }
{
    let Some(first) = edges.first() else {
        return false;
    };
    let Some(bound) = setting.bound(*first) else {
        return false;
    };
    match chain_end(setting, edges, bound.from) {
        Some(end) => end == bound.from,
        None => false,
    }
}

/// Whether none of those of the edges that exist begins at the point.
fn none_begins(setting: &Setting, edges: &[Edge], point: Point) -> bool
    ensures { IsTrue result
        ↔ AllByRecursion (λ b. point ≢ b.from) (bounds_of setting.now edges.now) }
{
    for edge in edges {
        let Some(bound) = setting.bound(*edge) else {
            continue;
        };
        if bound.from == point {
            return false;
        }
    }
    true
}

/// Whether no two of those of the edges that exist begin at one point.
fn begin_apart(setting: &Setting, edges: &[Edge]) -> bool
    ensures { IsTrue result ↔ BeginApart (bounds_of setting.now edges.now) }
{
    for (place, edge) in edges.iter().enumerate() {
        let Some(bound) = setting.bound(*edge) else {
            continue;
        };
        if !none_begins(setting, &edges[place + 1..], bound.from) {
            return false;
        }
    }
    true
}

/// The sum of the weights of those of the edges that exist.
fn weight(setting: &Setting, edges: &[Edge]) -> i128
    ensures { result ≡ weight_of (bounds_of setting.now edges.now) }
{
    let mut sum = 0i128;
    for edge in edges {
        let Some(bound) = setting.bound(*edge) else {
            continue;
        };
        sum += i128::from(bound.w);
    }
    sum
}

/// Whether the edges are a reason: they exist in the setting, each begins where the one before ends
/// and the first where the last ends, no two begin at one point, and their weights add up to less
/// than 0. Then no schedule remains.
pub fn check_reason(setting: &Setting, reason: &Reason) -> bool
    ensures exact { IsTrue result ↔ IsReason setting.now reason.now.edges.items }
    ensures refutes { IsTrue result → ¬ HasSchedule setting.now }
{
    let edges = reason.edges.as_slice();
    is_closed(setting, edges) && begin_apart(setting, edges) && weight(setting, edges) < 0
}

/// What moments break that are not a schedule.
#[derive(Clone, Copy, Debug, PartialEq, Eq, Error)]
pub enum Broken {
    #[error("there is not one moment for each event")]
    Length,
    #[error("the event can't happen then")]
    Event(u16),
    #[error("the bound in force is not met")]
    Bound(BoundId),
    #[error("the bound that is asked for is not met")]
    Proposed,
}

/// The moment that a list gives to a point: 0 to the origin, and to an event that it lacks.
fn moment(moments: &[u32], point: Point) -> u32
    ensures { result ≡ moment_of (moments_of moments.now) point }
{
    match point {
        Point::Origin => 0,
        Point::Event(e) => moments.get(e as usize).copied().unwrap_or(0),
    }
}

/// Whether the moments meet the bound.
fn meets(moments: &[u32], bound: &Bound) -> bool
    requires { IsInRange bound.now.w }
    ensures { IsTrue result ↔ Meets (moments_of moments.now) bound.now }
{
    i64::from(moment(moments, bound.to)) <= i64::from(moment(moments, bound.from)) + bound.w
}

/// Whether the event may happen at the moment, whatever the bounds say.
fn may_happen(setting: &Setting, e: u16, moment: u32) -> bool
    requires { e < event_count setting.now }
    ensures { IsTrue result ↔ MayHappen setting.now e moment }
{
    match setting.fixed(e) {
        Some(fixed) => moment == fixed,
        None => setting.floor(e) <= moment && moment <= setting.horizon(),
    }
}

/// An event that can't happen at its moment, if there is one.
fn misplaced(setting: &Setting, moments: &[u32]) -> Option<u16>
    requires { length moments.now ≡ event_count setting.now }
    ensures { MatchOption result
        (AllMayHappen setting.now moments.now) (IsMisplaced setting.now moments.now) }
{
    for e in 0..setting.events() {
        if !may_happen(setting, e, moments[e as usize]) {
            return Some(e);
        }
    }
    None
}

/// A bound that the moments don't meet, if there is one.
fn unmet(bounds: &BTreeMap<u32, Bound>, moments: &[u32]) -> Option<BoundId>
    requires { AreInRange (held bounds.now.entries) }
    ensures { MatchOption result (MeetsAll (held bounds.now.entries) moments.now)
        (λ id. IsUnmet (map.get (held bounds.now.entries) id.0) moments.now) }
{
    for (id, bound) in bounds.iter() {
        if !meets(moments, bound) {
            return Some(BoundId(*id));
        }
    }
    None
}

/// Whether the moments, one for each event, are a schedule that remains; else something that they
/// break.
pub fn check_schedule(setting: &Setting, moments: &[u32]) -> Result<(), Broken>
    ensures ok { OnOk result (IsListedSchedule setting.now moments.now) }
    ensures err { IfErr result (λ broken. Breaks setting.now moments.now broken
        × ¬ IsListedSchedule setting.now moments.now) }
{
    if moments.len() != setting.events() as usize {
        return Err(Broken::Length);
    }
    if let Some(e) = misplaced(setting, moments) {
        return Err(Broken::Event(e));
    }
    if let Some(id) = unmet(setting.in_force(), moments) {
        return Err(Broken::Bound(id));
    }
    match setting.proposed() {
        Some(bound) if !meets(moments, &bound) => Err(Broken::Proposed),
        _ => Ok(()),
    }
}
