//! Bounds that join the events of two agents.

ghost use Rattle.std.specs.Prelude.{◌≡◌, IfOk};
ghost use Rattle.std.specs.List.{filter_map};
ghost use Rattle.std.specs.Map.{values_of};
ghost use Rattle.tp_agents.specs.Crosses.{cross_of, is_interface};

use crate::owners::owner;
use std::alloc::{AllocError, Global};
use std::collections::BTreeMap;
use tp_bounds::{Bound, Point};

/// Says that `to`, an event of one agent, comes no later than `w` ticks after `from`, an event of
/// another.
#[derive(Clone, Copy, Debug, PartialEq, Eq)]
pub struct CrossBound {
    pub from: u16,
    pub to: u16,
    pub w: i64,
}

/// A bound, where it joins events of two agents.
fn cross(owners: &[u16], bound: Bound) -> Option<CrossBound>
    ensures { result ≡ cross_of owners.now bound }
{
    let Point::Event(from) = bound.from else {
        return None;
    };
    let Point::Event(to) = bound.to else {
        return None;
    };
    if owner(owners, from) == owner(owners, to) {
        return None;
    }
    Some(CrossBound {
        from,
        to,
        w: bound.w,
    })
}

/// Those of the bounds that join events of two agents, by rising identifier.
pub(crate) fn cross_bounds(
    alloc: Global,
    bounds: &BTreeMap<u32, Bound>,
    owners: &[u16],
) -> Result<Vec<CrossBound>, AllocError>
    ensures { IfOk result
        (λ v. v.items ≡ filter_map (cross_of owners.now) (values_of bounds.now.entries)) }
{
    bounds
        .values()
        .filter_map(|bound| cross(owners, *bound))
        .collect(alloc)
}

/// Whether an event is one of a cross bound's.
pub(crate) fn is_interface(crosses: &[CrossBound], e: u16) -> bool
    ensures { result ≡ is_interface crosses.now e }
{
    crosses.iter().any(|bound| bound.from == e || bound.to == e)
}
