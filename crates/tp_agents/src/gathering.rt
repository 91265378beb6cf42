//! The least schedule of a setting, by a network of its bounds.

ghost use Rattle.std.specs.Prelude.{◌≡◌, ℕ, true, None, map, OnOk, IfOk, IfErr};
ghost use Rattle.std.specs.FinMap as finite;
ghost use Rattle.tp_bounds.specs.Setting.{event_count, HasPoint, IsInRange};
ghost use Rattle.tp_bounds.specs.Schedule.{HasSchedule};
ghost use Rattle.tp_bounds.specs.Changes.{fresh, with_bound};
ghost use Rattle.tp_exec_machine.specs.Partly.{IsPartly, Joins};
ghost use Rattle.tp_agents.specs.Splits.{IsUnbegun, AreLeast};
ghost use Rattle.tp_agents.specs.Answers.{as_own, IsContradicted};

use crate::fault::SplitFault;
use std::alloc::{AllocError, Global};
use tp_bounds::{Bound, BoundId, Edge, Reason, Setting};
use tp_exec_machine::entry_order;
use tp_net::{Net, NetFault};
use tp_repair::RepairNet;

/// An edge of a network that is asked for a bound, where the bound is in force under an identifier.
fn owned(edge: Edge, id: BoundId) -> Edge
    ensures { result ≡ as_own id edge }
{
    match edge {
        Edge::New => Edge::Own(id),
        Edge::Own(_) | Edge::PastHigh(_) | Edge::PastLow(_) | Edge::Now(_) | Edge::End(_) => edge,
    }
}

/// The reason with all its edges named so.
fn named(mut reason: Reason, id: BoundId) -> Reason
    ensures { result.edges.items ≡ map (as_own id) reason.edges.items }
{
    for k in 0..reason.edges.len() {
        reason.edges[k] = owned(reason.edges[k], id);
    }
    reason
}

/// Brings a bound into force.
fn bring<N: Net>(net: &mut N, id: BoundId, bound: Bound) -> Result<(), SplitFault>
    requires between { N.takes_between ≡ true }
    requires from { HasPoint (N.seen net.old) bound.from }
    requires to { HasPoint (N.seen net.old) bound.to }
    requires weight { IsInRange bound.w }
    requires unused { finite.get (N.seen net.old).bounds id.0 ≡ None }
    requires unbegun { IsUnbegun (N.seen net.old) }
    ensures ok { OnOk result (N.seen net.new ≡ with_bound (N.seen net.old) id.0 bound) }
    ensures err { IfErr result (IsContradicted (with_bound (N.seen net.old) id.0 bound)) }
{
    match net.add(id, bound) {
        Ok(()) => Ok(()),
        Err(NetFault::Memory) => Err(SplitFault::Memory),
        Err(NetFault::Conflict(reason)) => Err(SplitFault::Conflict(named(reason, id))),
        Err(NetFault::Between) => unreachable!(),
    }
}

/// The bounds in force and their identifiers.
fn kept_bounds(alloc: Global, setting: &Setting) -> Result<(Vec<u32>, Vec<Bound>), AllocError> {
    let mut ids = Vec::new(alloc);
    let mut bounds = Vec::new(alloc);
    for (id, bound) in setting.in_force() {
        ids.push(*id)?;
        bounds.push(*bound)?;
    }
    Ok((ids, bounds))
}

/// The identifiers at some places.
fn ids_at(alloc: Global, ids: &[u32], places: &[usize]) -> Result<Vec<u32>, AllocError> {
    let mut found = Vec::new(alloc);
    for place in places {
        if let Some(id) = ids.get(*place) {
            found.push(*id)?;
        }
    }
    Ok(found)
}

/// The identifiers of the bounds that come first.
fn first_ids(alloc: Global, setting: &Setting) -> Result<Vec<u32>, AllocError> {
    let (ids, bounds) = kept_bounds(alloc, setting)?;
    let events = usize::from(setting.events());
    let order = entry_order(alloc, &bounds, events, setting.horizon())?;
    ids_at(alloc, &ids, &order)
}

/// Brings the bound of an identifier into force, if a setting has one under it that is not in force
/// yet.
fn gather_at<N: Net>(net: &mut N, setting: &Setting, id: u32) -> Result<(), SplitFault>
    requires between { N.takes_between ≡ true }
    requires unbegun { IsUnbegun setting.now }
    requires partly { IsPartly (fresh (event_count setting.now) setting.now.horizon)
        (N.seen net.old) (finite.get setting.now.bounds) }
    ensures ok { OnOk result
        (Joins (N.seen net.old) (N.seen net.new) (finite.get setting.now.bounds) id) }
    ensures err { IfErr result (IsContradicted setting.now) }
{
    let _events = setting.events();
    let Some(bound) = setting.in_force().get(&id).copied() else {
        return Ok(());
    };
    if net.bound(BoundId(id)).is_some() {
        return Ok(());
    }
    bring(net, BoundId(id), bound)
}

/// Brings all bounds of a setting into force in a new network, first those that hold moments in the
/// end.
fn gather<N: Net>(alloc: Global, net: &mut N, setting: &Setting) -> Result<(), SplitFault>
    requires between { N.takes_between ≡ true }
    requires new { N.seen net.old ≡ fresh (event_count setting.now) setting.now.horizon }
    requires unbegun { IsUnbegun setting.now }
    ensures ok { OnOk result
        (N.seen net.new ≡ record (N.seen net.old) { bounds = setting.now.bounds }) }
    ensures err { IfErr result (IsContradicted setting.now) }
{
    let first = first_ids(alloc, setting)?;
    for early in &first {
        gather_at(net, setting, *early)?;
    }
    for (id, _bound) in setting.in_force() {
        gather_at(net, setting, *id)?;
    }
    Ok(())
}

/// The least moments of the events.
fn lows<N: Net>(alloc: Global, net: &N) -> Result<Vec<u32>, AllocError>
    ensures { IfOk result (λ least. AreLeast (N.seen net.now) least.items) }
{
    let mut least = Vec::new(alloc);
    for e in 0..net.events() {
        least.push(net.low(e))?;
    }
    Ok(least)
}

/// The moments of the least schedule of a setting in which nothing has happened. It costs one `add`
/// of a network for each bound in force, of which those that hold moments in the end come first.
///
/// # Errors
/// `Conflict` where no schedule remains; `Memory`.
pub(crate) fn least_moments(alloc: Global, setting: &Setting) -> Result<Vec<u32>, SplitFault>
    requires { IsUnbegun setting.now }
    ensures ok { IfOk result (λ least. AreLeast setting.now least.items) }
    ensures err { IfErr result (IsContradicted setting.now) }
{
    let mut net = RepairNet::new(alloc, setting.events(), setting.horizon())?;
    gather(alloc, &mut net, setting)?;
    Ok(lows(alloc, &net)?)
}
