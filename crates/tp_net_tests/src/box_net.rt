//! The network of bounds with the origin: its windows and its refusals.

use crate::asking::{may_go_on, may_happen, suits, window};
use std::test::Fail;
use tp_bounds::{Bound, BoundId, Edge, Point};
use tp_net::{BoxNet, Net, NetFault};

const ORIGIN: Point = Point::Origin;

const ZERO: Point = Point::Event(0);

const ONE: Point = Point::Event(1);

/// What a network answers; of the reason of a conflict the first edge.
#[derive(Clone, Copy, Debug, PartialEq, Eq)]
enum Answer {
    Unasked,
    Done,
    Memory,
    Between,
    Conflict(Option<Edge>),
}

fn answer_of(outcome: &Result<(), NetFault>) -> Answer {
    match outcome {
        Ok(()) => Answer::Done,
        Err(NetFault::Memory) => Answer::Memory,
        Err(NetFault::Between) => Answer::Between,
        Err(NetFault::Conflict(reason)) => Answer::Conflict(reason.edges.first().copied()),
    }
}

/// The answer to a bound, where it suits the network and its identifier is free.
fn add<N: Net>(net: &mut N, id: u32, from: Point, to: Point, w: i64) -> Answer {
    let bound = Bound { from, to, w };
    if !suits(net, bound) || net.bound(BoundId(id)).is_some() {
        return Answer::Unasked;
    }
    answer_of(&net.add(BoundId(id), bound))
}

fn remove<N: Net>(net: &mut N, id: u32) -> Answer {
    if net.bound(BoundId(id)).is_none() {
        return Answer::Unasked;
    }
    match net.remove(BoundId(id)) {
        Ok(()) => Answer::Done,
        Err(_) => Answer::Memory,
    }
}

fn raise<N: Net>(net: &mut N, now: u32) -> Answer {
    if !may_go_on(net, now) {
        return Answer::Unasked;
    }
    answer_of(&net.raise(now))
}

fn fix<N: Net>(net: &mut N, e: u16, moment: u32) -> Answer {
    if !may_happen(net, e, moment) {
        return Answer::Unasked;
    }
    answer_of(&net.fix(e, moment))
}

fn takes_bounds_of_the_origin(net: &mut BoxNet) -> bool {
    !net.between()
        && add(net, 0, ORIGIN, ZERO, 10) == Answer::Done
        && add(net, 1, ZERO, ORIGIN, -3) == Answer::Done
        && add(net, 2, ZERO, ONE, 3) == Answer::Between
        && add(net, 2, ZERO, ZERO, 0) == Answer::Done
        && add(net, 3, ZERO, ORIGIN, -11) == Answer::Conflict(Some(Edge::New))
        && window(net, 0) == Some((3, 10))
        && window(net, 1) == Some((0, 100))
}

fn dispatches_by_bounds_of_the_origin(net: &mut BoxNet) -> bool {
    raise(net, 11) == Answer::Conflict(Some(Edge::Now(0)))
        && raise(net, 4) == Answer::Done
        && fix(net, 0, 11) == Answer::Conflict(Some(Edge::PastLow(0)))
        && fix(net, 0, 5) == Answer::Done
        && window(net, 0) == Some((5, 5))
        && remove(net, 0) == Answer::Done
        && net.in_force() == 2
        && window(net, 1) == Some((4, 100))
}

#[test]
fn bounds_of_the_origin(rt: HostRuntime) -> Result<(), Fail> {
    let mut net = BoxNet::new(rt.alloc(), 2, 100)?;
    assert!(rt; takes_bounds_of_the_origin(&mut net));
    assert!(rt; dispatches_by_bounds_of_the_origin(&mut net));
    Ok(())
}
