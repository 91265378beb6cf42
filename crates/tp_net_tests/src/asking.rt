//! What a network may be asked, and its windows.

ghost use Rattle.std.specs.Prelude.{◌≡◌, ◌<◌, ◌≤◌, None, IsTrue};
ghost use Rattle.tp_bounds.specs.Setting.{HasPoint, IsInRange, event_count, fixed_at, floor_of};

use tp_bounds::{Bound, Point};
use tp_net::Net;

/// The least and the greatest moment of an event, where there is such an event.
pub fn window<N: Net>(net: &N, e: u16) -> Option<(u32, u32)> {
    if e < net.events() {
        Some((net.low(e), net.high(e)))
    } else {
        None
    }
}

/// Whether a network has a point.
fn has_point<N: Net>(net: &N, point: Point) -> bool
    ensures { IsTrue result → HasPoint (N.seen net.now) point }
{
    match point {
        Point::Origin => true,
        Point::Event(e) => e < net.events(),
    }
}

/// Whether a bound may have that weight.
fn is_in_range(weight: i64) -> bool
    ensures { IsTrue result → IsInRange weight }
{
    -2_000_000_000 <= weight && weight <= 2_000_000_000
}

/// Whether a bound suits a network.
pub fn suits<N: Net>(net: &N, bound: Bound) -> bool
    ensures from { IsTrue result → HasPoint (N.seen net.now) bound.from }
    ensures to { IsTrue result → HasPoint (N.seen net.now) bound.to }
    ensures weight { IsTrue result → IsInRange bound.w }
{
    is_in_range(bound.w) && has_point(net, bound.from) && has_point(net, bound.to)
}

/// Whether time may go on to a moment.
pub fn may_go_on<N: Net>(net: &N, now: u32) -> bool
    ensures forward { IsTrue result → (N.seen net.now).clock ≤ now }
    ensures in_time { IsTrue result → now ≤ (N.seen net.now).horizon }
{
    net.now() <= now && now <= net.horizon()
}

/// Whether an event may be fixed at a moment.
pub fn may_happen<N: Net>(net: &N, e: u16, moment: u32) -> bool
    ensures event { IsTrue result → e < event_count (N.seen net.now) }
    ensures free { IsTrue result → fixed_at (N.seen net.now) e ≡ None }
    ensures floor { IsTrue result → floor_of (N.seen net.now) e ≤ moment }
    ensures in_time { IsTrue result → moment ≤ (N.seen net.now).horizon }
{
    e < net.events()
        && net.fixed(e).is_none()
        && net.now().saturating_sub(net.lag(e)) <= moment
        && moment <= net.horizon()
}
