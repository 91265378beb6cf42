//! How many edges a repair looks at.

use crate::asking::window;
use std::alloc::{AllocError, Global};
use std::test::Fail;
use tp_bounds::{BoundId, Edge, Limits, Point};
use tp_exec_machine::{Executive, Refusal};
use tp_repair::RepairNet;

const ORIGIN: Point = Point::Origin;

const ZERO: Point = Point::Event(0);

const ONE: Point = Point::Event(1);

/// An executive over two events up to the horizon of the limits.
fn two_events(alloc: Global, limits: Limits) -> Result<Executive<RepairNet>, AllocError> {
    let net = RepairNet::new(alloc, limits.events().min(2), limits.horizon())?;
    Ok(Executive::bare(alloc, limits, net))
}

/// How many edges were looked at for a bound that came into force.
fn looks_for(executive: &mut Executive<RepairNet>, from: Point, to: Point, w: i64) -> Option<u64> {
    match executive.add(from, to, w) {
        Ok(BoundId(_)) => Some(executive.net().looks()),
        Err(_) => None,
    }
}

/// The same for a bound that is refused by a chain of it and of the first bound.
fn looks_against(
    executive: &mut Executive<RepairNet>,
    from: Point,
    to: Point,
    w: i64,
) -> Option<u64> {
    match executive.add(from, to, w) {
        Err(Refusal::Conflict(reason)) if reason.edges.as_slice() == CHAIN.as_slice() => {
            Some(executive.net().looks())
        }
        _ => None,
    }
}

const CHAIN: [Edge; 2] = [Edge::New, Edge::Own(BoundId(0))];

/// Whether there were so many looks.
fn are(looks: Option<u64>, least: u64, most: u64) -> bool {
    looks.is_some_and(|looks| least <= looks && looks <= most)
}

/// A bound that narrows no window is looked at alone.
fn looks_at_what_narrows(executive: &mut Executive<RepairNet>) -> bool {
    are(looks_for(executive, ORIGIN, ZERO, 10), 1, 12)
        && are(looks_for(executive, ZERO, ONE, 5), 1, 12)
        && window(executive.net(), 1) == Some((0, 15))
        && are(looks_for(executive, ZERO, ONE, 90), 0, 2)
}

/// A loop that no schedule goes round is refused after few looks, however far the horizon is.
fn refuses_a_loop(executive: &mut Executive<RepairNet>) -> bool {
    are(looks_for(executive, ZERO, ONE, -1), 2, 32)
        && are(looks_against(executive, ONE, ZERO, 0), 1, 40)
        && window(executive.net(), 0) == Some((1, 1_000_000_000))
        && window(executive.net(), 1) == Some((0, 999_999_999))
}

#[test]
fn looks_are_few(rt: HostRuntime) -> Result<(), Fail> {
    let mut free = two_events(rt.alloc(), Limits::greatest(100))?;
    assert!(rt; are(looks_for(&mut free, ZERO, ONE, 5), 0, 2));
    let mut near = two_events(rt.alloc(), Limits::greatest(100))?;
    assert!(rt; looks_at_what_narrows(&mut near));
    let mut far = two_events(rt.alloc(), Limits::greatest(1_000_000_000))?;
    assert!(rt; refuses_a_loop(&mut far));
    Ok(())
}
