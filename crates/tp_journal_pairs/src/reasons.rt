//! Whether edges are a reason against a command: the setting that would be is looked at, edge by
//! edge, and never copied.

ghost use Rattle.std.specs.Prelude.{◌≡◌, ◌≢◌, ◌↔◌, ◌<◌, ℕ, true, false, IsTrue, MatchOption, slice_index_or};
ghost use Rattle.std.specs.List.{AllByRecursion};
ghost use Rattle.std.specs.FinMap as map;
ghost use Rattle.tp_bounds.specs.declared.Point.{Point};
ghost use Rattle.tp_bounds.specs.Setting.{fixed_at, event_count, floor_of};
ghost use Rattle.tp_bounds.specs.Reasons.{at_most, at_least, is_open, bound_of, BeginApart, weight_of, IsReason, BeginsWith};
ghost use Rattle.tp_bounds.specs.Certificates.{bounds_of, IsChain, IsClosedChain};
ghost use Rattle.tp_exec_machine.specs.Step.{asked, brings};
ghost use Rattle.tp_journal_pairs.specs.Reasons.{may_conflict, Marks};
ghost use Rattle.tp_journal_pairs.specs.Sound.{IsSound};

use tp_bounds::{Bound, BoundId, Edge, Point, at_least, at_most};
use tp_exec_machine::{Command, Executive};
use tp_net::Net;
use tp_net::edges::number;

/// Whether a command can be answered Conflict.
pub(crate) fn can_conflict(command: Command) -> bool
    ensures { result ≡ may_conflict command }
{
    matches!(
        command,
        Command::Advance(_) | Command::Add(_) | Command::Dispatch(_) | Command::Happened(_, _)
    )
}

/// Whether the edges begin with one that the command brings.
pub(crate) fn begins_with_brought(command: Command, edges: &[Edge]) -> bool
    ensures { IsTrue result ↔ BeginsWith (brings command) edges.now }
{
    let Some(first) = edges.first() else {
        return false;
    };
    match (command, *first) {
        (Command::Advance(_), Edge::Now(_)) => true,
        (Command::Add(_), Edge::New) => true,
        (Command::Dispatch(e), Edge::PastHigh(k)) => k == e,
        (Command::Dispatch(e), Edge::PastLow(k)) => k == e,
        (Command::Happened(e, _), Edge::PastHigh(k)) => k == e,
        (Command::Happened(e, _), Edge::PastLow(k)) => k == e,
        _ => false,
    }
}

/// The moment at which an event would be dispatched, if there is the event and it would.
fn fixed_then<N: Net>(executive: &Executive<N>, command: Command, k: u16) -> Option<u32>
    requires conflict { may_conflict command ≡ true }
    requires sound { IsSound executive.now }
    ensures { result ≡ fixed_at (asked executive.now command) k }
{
    let net = executive.net();
    if net.events() <= k {
        return None;
    }
    match command {
        Command::Dispatch(e) if e == k => Some(net.now()),
        Command::Happened(e, moment) if e == k => Some(moment),
        _ => net.fixed(k),
    }
}

/// The moment that would be now.
fn clock_then<N: Net>(executive: &Executive<N>, command: Command) -> u32
    requires conflict { may_conflict command ≡ true }
    requires sound { IsSound executive.now }
    ensures { result ≡ (asked executive.now command).clock }
{
    match command {
        Command::Advance(to) => to,
        _ => executive.net().now(),
    }
}

/// The bound that would be asked for.
fn proposed_then<N: Net>(executive: &Executive<N>, command: Command) -> Option<Bound>
    requires conflict { may_conflict command ≡ true }
    requires sound { IsSound executive.now }
    ensures { result ≡ (asked executive.now command).proposed }
{
    match command {
        Command::Add(bound) => Some(bound),
        _ => None,
    }
}

/// The bound that would be in force under an identifier.
fn bound_then<N: Net>(executive: &Executive<N>, command: Command, id: BoundId) -> Option<Bound>
    requires conflict { may_conflict command ≡ true }
    requires sound { IsSound executive.now }
    ensures { result ≡ map.get (asked executive.now command).bounds id.0 }
{
    executive.net().bound(id)
}

/// Whether there is the event and it would not be dispatched.
fn open_then<N: Net>(executive: &Executive<N>, command: Command, e: u16) -> bool
    requires conflict { may_conflict command ≡ true }
    requires sound { IsSound executive.now }
    ensures open { result ≡ is_open (asked executive.now command) e }
    ensures event { IsTrue result → e < event_count executive.now.setting }
{
    e < executive.net().events() && fixed_then(executive, command, e).is_none()
}

/// The floor that an event would have that is not dispatched.
fn floor_then<N: Net>(executive: &Executive<N>, command: Command, e: u16) -> u32
    requires conflict { may_conflict command ≡ true }
    requires sound { IsSound executive.now }
    requires event { e < event_count executive.now.setting }
    ensures { result ≡ floor_of (asked executive.now command) e }
{
    clock_then(executive, command).saturating_sub(executive.net().lag(e))
}

/// The bound that an edge would stand for, if there would be such an edge.
fn edge_then<N: Net>(executive: &Executive<N>, command: Command, edge: Edge) -> Option<Bound>
    requires conflict { may_conflict command ≡ true }
    requires sound { IsSound executive.now }
    ensures { result ≡ bound_of (asked executive.now command) edge }
{
    match edge {
        Edge::Own(id) => bound_then(executive, command, id),
        Edge::New => proposed_then(executive, command),
        Edge::PastHigh(e) => Some(at_most(e, fixed_then(executive, command, e)?)),
        Edge::PastLow(e) => Some(at_least(e, fixed_then(executive, command, e)?)),
        Edge::Now(e) if open_then(executive, command, e) => {
            Some(at_least(e, floor_then(executive, command, e)))
        }
        Edge::End(e) if open_then(executive, command, e) => {
            Some(at_most(e, executive.net().horizon()))
        }
        Edge::Now(_) | Edge::End(_) => None,
    }
}

/// Where the chain of these edges leads from a point, if they are one.
fn chain_end<N: Net>(
    executive: &Executive<N>,
    command: Command,
    edges: &[Edge],
    start: Point,
) -> Option<Point>
    requires conflict { may_conflict command ≡ true }
    requires sound { IsSound executive.now }
    ensures { MatchOption result ((to : Point) → ¬ IsChain (asked executive.now command) start
        edges.now to) (λ to. IsChain (asked executive.now command) start edges.now to) }
{
    let mut point = start;
    for edge in edges {
        let bound = edge_then(executive, command, *edge)?;
        if bound.from != point {
            return None;
        }
        point = bound.to;
    }
    Some(point)
}

/// Whether the edges are a chain that ends where it begins.
fn is_closed<N: Net>(executive: &Executive<N>, command: Command, edges: &[Edge]) -> bool
    requires conflict { may_conflict command ≡ true }
    requires sound { IsSound executive.now }
    ensures { IsTrue result ↔ IsClosedChain (asked executive.now command) edges.now }
{
    let Some(first) = edges.first() else {
        return false;
    };
    let Some(bound) = edge_then(executive, command, *first) else {
        return false;
    };
    match chain_end(executive, command, edges, bound.from) {
        Some(end) => end == bound.from,
        None => false,
    }
}

/// Whether none of those of the edges that exist begins at the point.
fn none_begins<N: Net>(
    executive: &Executive<N>,
    command: Command,
    edges: &[Edge],
    point: Point,
) -> bool
    requires conflict { may_conflict command ≡ true }
    requires sound { IsSound executive.now }
    ensures { IsTrue result
        ↔ AllByRecursion (λ b. point ≢ b.from) (bounds_of (asked executive.now command) edges.now) }
{
    for edge in edges {
        let Some(bound) = edge_then(executive, command, *edge) else {
            continue;
        };
        if bound.from == point {
            return false;
        }
    }
    true
}

/// No mark, for as many points as a network has at the most.
fn no_marks() -> [bool; 1_025]
    ensures { (k : ℕ) → slice_index_or result k false ≡ false }
{
    [false; 1_025]
}

/// Marks a point, if it has a place, and tells whether it was marked before.
fn mark(marks: &mut [bool], point: Point) -> Option<bool>
    ensures { Marks marks.old marks.new point result }
{
    let place = number(point);
    if marks.len() <= place {
        return None;
    }
    let was = marks[place];
    marks[place] = true;
    Some(was)
}

/// Whether no two of those of the edges that exist begin at one point. Each edge is looked at once,
/// from the last to the first, and the points at which the ones behind it begin are marked.
fn begin_apart<N: Net>(executive: &Executive<N>, command: Command, edges: &[Edge]) -> bool
    requires conflict { may_conflict command ≡ true }
    requires sound { IsSound executive.now }
    ensures { IsTrue result ↔ BeginApart (bounds_of (asked executive.now command) edges.now) }
{
    let mut marks = no_marks();
    let mut at = edges.len();
    while 0 < at {
        at -= 1;
        let Some(bound) = edge_then(executive, command, edges[at]) else {
            continue;
        };
        let apart = match mark(&mut marks, bound.from) {
            Some(was) => !was,
            None => none_begins(executive, command, &edges[at + 1..], bound.from),
        };
        if !apart {
            return false;
        }
    }
    true
}

/// The sum of the weights of those of the edges that exist.
fn weight<N: Net>(executive: &Executive<N>, command: Command, edges: &[Edge]) -> i128
    requires conflict { may_conflict command ≡ true }
    requires sound { IsSound executive.now }
    ensures { result ≡ weight_of (bounds_of (asked executive.now command) edges.now) }
{
    let mut sum = 0i128;
    for edge in edges {
        let Some(bound) = edge_then(executive, command, *edge) else {
            continue;
        };
        sum += i128::from(bound.w);
    }
    sum
}

/// Whether the edges are a reason in the setting that the command asks for.
pub(crate) fn is_reason<N: Net>(executive: &Executive<N>, command: Command, edges: &[Edge]) -> bool
    requires conflict { may_conflict command ≡ true }
    requires sound { IsSound executive.now }
    ensures { IsTrue result ↔ IsReason (asked executive.now command) edges.now }
{
    if !is_closed(executive, command, edges) {
        return false;
    }
    if !begin_apart(executive, command, edges) {
        return false;
    }
    weight(executive, command, edges) < 0
}
