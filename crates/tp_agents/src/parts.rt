//! What each agent gets.

ghost use Rattle.std.specs.Prelude.{◌≡◌, ℕ, ◌<◌, ◌≤◌, ◌++◌, length, map, slice_index_or, string_bytes, None, Option, IfOk, IfErr, OnOk};
ghost use Rattle.std.specs.List.{filter_map};
ghost use Rattle.std.specs.Map.{values_of};
ghost use Rattle.tp_bounds.specs.Nets.{IsPointOf};
ghost use Rattle.tp_agents.specs.Owners.{owner_of, agent_count, place_of, events_of, ArePlaces};
ghost use Rattle.tp_agents.specs.Parts.{own_point, bound_between, inner_of, inner_bounds, keeps_interval, keeps_intervals, event_line, IsPart, HasNoNet};

use crate::divided::Split;
use crate::fault::PartFault;
use crate::owners::{owner, place};
use std::alloc::{AllocError, Global};
use std::collections::BTreeMap;
use tp_bounds::{Bound, MOST_BOUNDS, PlanNet, Point, at_least, at_most};

/// For each event, how many events of its agent come before it. It goes over the events before
/// each.
fn places(alloc: Global, owners: &[u16]) -> Result<Vec<u16>, AllocError>
    requires { length owners.now ≤ 1_024 }
    ensures { IfOk result (λ v. ArePlaces owners.now v.items) }
{
    let mut places = Vec::new(alloc);
    for e in 0..owners.len() {
        places.push(place(owners, e) as u16)?;
    }
    Ok(places)
}

/// A point as an agent numbers it, if it is the origin or one of the agent's events.
fn own_point(owners: &[u16], places: &[u16], agent: u16, point: Point) -> Option<Point>
    requires places { ArePlaces owners.now places.now }
    requires there { IsPointOf (length owners.now) point }
    ensures { result ≡ own_point owners.now agent point }
{
    match point {
        Point::Origin => Some(Point::Origin),
        Point::Event(e) if owner(owners, e) == agent => Some(Point::Event(places[e as usize])),
        Point::Event(_) => None,
    }
}

/// A bound as an agent numbers its events, if both points are the origin or its own.
fn inner(owners: &[u16], places: &[u16], agent: u16, bound: Bound) -> Option<Bound>
    requires places { ArePlaces owners.now places.now }
    requires from { IsPointOf (length owners.now) bound.from }
    requires to { IsPointOf (length owners.now) bound.to }
    ensures { result ≡ inner_of owners.now agent bound }
{
    let from = own_point(owners, places, agent, bound.from)?;
    let to = own_point(owners, places, agent, bound.to)?;
    Some(Bound {
        from,
        to,
        w: bound.w,
    })
}

/// The inner bounds of an agent, by rising identifier.
fn inner_bounds(alloc: Global, split: &Split, agent: u16) -> Result<Vec<Bound>, AllocError>
    ensures { IfOk result
        (λ v. v.items ≡ inner_bounds split.now.setting split.now.owners.items agent) }
{
    let _events = split.setting.events();
    let places = places(alloc, &split.owners)?;
    let mut bounds = Vec::new(alloc);
    for bound in split.setting.in_force().values() {
        if let Some(own) = inner(&split.owners, &places, agent, *bound) {
            bounds.push(own)?;
        }
    }
    Ok(bounds)
}

/// Adds the two bounds by which an agent's event, as the agent numbers it, keeps its interval.
fn keep_interval(
    bounds: &mut Vec<Bound>,
    place: u16,
    interval: Option<(u32, u32)>,
) -> Result<(), AllocError>
    ensures { OnOk result (bounds.new.items ≡ bounds.old.items ++ keeps_interval place interval) }
{
    if let Some((low, high)) = interval {
        bounds.push(at_least(place, low))?;
        bounds.push(at_most(place, high))?;
    }
    Ok(())
}

/// Adds those of all events of an agent.
fn keep_intervals(bounds: &mut Vec<Bound>, split: &Split, agent: u16) -> Result<(), AllocError>
    ensures { OnOk result (bounds.new.items ≡ bounds.old.items
        ++ keeps_intervals split.now.intervals.items 0 (events_of split.now.owners.items agent)) }
{
    let mut place = 0;
    for e in 0..split.setting.events() {
        if owner(&split.owners, e) == agent {
            keep_interval(bounds, place, split.interval(e))?;
            place += 1;
        }
    }
    Ok(())
}

/// The texts of an agent's events.
fn texts(alloc: Global, owners: &[u16], agent: u16) -> Result<Vec<String>, AllocError>
    ensures { IfOk result
        (λ v. map string_bytes v.items ≡ map event_line (events_of owners.now agent)) }
{
    let mut texts = Vec::new(alloc);
    for (e, owner) in owners.iter().enumerate() {
        if *owner == agent {
            texts.push(format!(in alloc; "event {e}")?)?;
        }
    }
    Ok(texts)
}

/// The network of an agent's part, however many bounds it has.
fn network(alloc: Global, split: &Split, agent: u16) -> Result<PlanNet, AllocError>
    ensures { IfOk result (IsPart split.now.setting split.now.owners.items
        split.now.intervals.items agent) }
{
    let _events = split.setting.events();
    let mut bounds = inner_bounds(alloc, split, agent)?;
    keep_intervals(&mut bounds, split, agent)?;
    let events = texts(alloc, &split.owners, agent)?;
    Ok(PlanNet {
        horizon: split.setting.horizon(),
        events,
        bounds,
    })
}

/// The network of an agent's part: its events in order, numbered from 0, each under the text `event
/// E` with its number in the whole; the bounds that join no event of another agent, by rising
/// identifier; and for each of its events that has an interval, by rising number, the two bounds
/// that keep it there.
///
/// It goes over all bounds in force once, and over the events before each event.
///
/// # Errors
/// `TooMany` where these are more bounds than can be in force at one time: each event with an
/// interval has two in place of at least one bound of the whole. `Memory`.
pub fn part(alloc: Global, split: &Split, agent: u16) -> Result<PlanNet, PartFault>
    requires { agent < agent_count split.now.owners.items }
    ensures part { IfOk result (IsPart split.now.setting split.now.owners.items
        split.now.intervals.items agent) }
    ensures few { IfOk result (λ net. length net.bounds.items ≤ MOST_BOUNDS) }
    ensures err { IfErr result (HasNoNet split.now.setting split.now.owners.items
        split.now.intervals.items agent) }
{
    let net = network(alloc, split, agent)?;
    if net.bounds.len() > MOST_BOUNDS as usize {
        return Err(PartFault::TooMany);
    }
    Ok(net)
}
