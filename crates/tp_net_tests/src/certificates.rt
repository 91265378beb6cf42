//! Worked examples of settings, of what they leave, of reasons why nothing is left, and of limits.

ghost use Rattle.std.specs.Prelude.{◌≡◌, IfOk, negsuc};
ghost use Rattle.tp_bounds.specs.Changes.{fresh, with_bound};

use std::alloc::{AllocError, Global};
use std::test::Fail;
use tp_bounds::{
    Bound, BoundId, Broken, Edge, Limits, Point, Reason, Setting, check_reason, check_schedule,
};

/// Two events under a horizon of 10, the second at least 2 ticks after the first.
fn two_apart(alloc: Global) -> Result<Setting, AllocError>
    ensures { IfOk result (λ s. s ≡ with_bound (fresh 2 10) 0
        (record { from = Point.Event 1; to = Point.Event 0; w = negsuc 1 })) }
{
    let mut setting = Setting::new(alloc, 2, 10)?;
    let bound = Bound {
        from: Point::Event(1),
        to: Point::Event(0),
        w: -2,
    };
    setting.put(BoundId(0), bound)?;
    Ok(setting)
}

/// Two events under the greatest horizon, the second at least 1 tick before the first, which is
/// asked not to come after it.
fn before_each_other(alloc: Global) -> Result<Setting, AllocError> {
    let mut setting = Setting::new(alloc, 2, 1_000_000_000)?;
    let bound = Bound {
        from: Point::Event(0),
        to: Point::Event(1),
        w: -1,
    };
    setting.put(BoundId(0), bound)?;
    setting.propose(Some(Bound {
        from: Point::Event(1),
        to: Point::Event(0),
        w: 0,
    }));
    Ok(setting)
}

/// What the check of these edges says.
fn is_reason(alloc: Global, setting: &Setting, edges: &[Edge]) -> Result<bool, AllocError> {
    let edges = Vec::from_slice(alloc, edges)?;
    Ok(check_reason(setting, &Reason { edges }))
}

fn keeps_its_distance(setting: &Setting) -> bool {
    check_schedule(setting, &[0, 2]) == Ok(())
        && check_schedule(setting, &[0, 1]) == Err(Broken::Bound(BoundId(0)))
}

/// Whether the first event is known to have happened at 0, and the second not before 3.
fn keeps_the_past(setting: &Setting) -> bool {
    check_schedule(setting, &[0, 2]) == Err(Broken::Event(1))
        && check_schedule(setting, &[1, 3]) == Err(Broken::Event(0))
        && check_schedule(setting, &[0]) == Err(Broken::Length)
}

#[test]
fn two_events_after_their_bound_is_gone(rt: HostRuntime) -> Result<(), Fail> {
    let mut setting = two_apart(rt.alloc())?;
    setting.take(BoundId(0));
    assert!(rt; check_schedule(&setting, &[0, 1]) == Ok(()));
    setting.fix(0, 0);
    setting.raise(3);
    assert!(rt; setting.floor(1) == 3 && keeps_the_past(&setting));
    Ok(())
}

#[test]
fn an_event_that_is_reported_late(rt: HostRuntime) -> Result<(), Fail> {
    let mut setting = Setting::new(rt.alloc(), 2, 10)?;
    setting.set_lag(1, 2);
    setting.raise(5);
    assert!(rt; (setting.lag(1), setting.floor(1)) == (2, 3));
    assert!(rt; check_schedule(&setting, &[5, 3]) == Ok(()));
    assert!(rt; check_schedule(&setting, &[5, 2]) == Err(Broken::Event(1)));
    setting.fix(1, 3);
    assert!(rt; check_schedule(&setting, &[5, 3]) == Ok(()));
    Ok(())
}

const OWN: Edge = Edge::Own(BoundId(0));

/// Lists of edges, and whether they are a reason why neither event can be before the other.
const LISTS: [(&[Edge], bool); 7] = [
    (&[Edge::New, OWN], true),
    (&[OWN, Edge::New], true),
    (&[], false),
    (&[Edge::New], false),
    (&[OWN], false),
    (&[Edge::New, Edge::Own(BoundId(1))], false),
    (&[Edge::New, OWN, Edge::New, OWN], false),
];

#[test]
fn two_events_each_before_the_other(rt: HostRuntime) -> Result<(), Fail> {
    let setting = before_each_other(rt.alloc())?;
    for (edges, wanted) in LISTS {
        assert!(rt; is_reason(rt.alloc(), &setting, edges)? == wanted);
    }
    assert!(rt; check_schedule(&setting, &[5, 4]) == Err(Broken::Proposed));
    Ok(())
}

/// The one bound of two events apart, told by its place, and nothing behind it.
fn is_told_first(setting: &Setting) -> bool {
    let bound = Bound {
        from: Point::Event(1),
        to: Point::Event(0),
        w: -2,
    };
    (setting.events(), setting.horizon()) == (2, 10)
        && setting.nth(0) == Some((BoundId(0), bound))
        && setting.nth(1).is_none()
}

#[test]
fn two_events_keep_their_distance(rt: HostRuntime) -> Result<(), Fail> {
    let setting = two_apart(rt.alloc())?;
    assert!(rt; keeps_its_distance(&setting));
    assert!(rt; is_told_first(&setting));
    Ok(())
}

fn are_told(limits: &Limits) -> bool {
    (
        limits.events(),
        limits.bounds(),
        limits.ids(),
        limits.horizon(),
    ) == (1, 2, 3, 4)
        && (limits.atoms(), limits.actions(), limits.expansions()) == (5, 6, 7)
}

#[test]
fn limits_are_told(rt: HostRuntime) {
    assert!(rt; are_told(&Limits::new(1, 2, 3, 4, 5, 6, 7)));
    let greatest = Limits::new(1_024, 65_535, 1_048_576, 9, 65_535, 65_535, 1_000_000);
    assert!(rt; Limits::greatest(9) == greatest);
}
