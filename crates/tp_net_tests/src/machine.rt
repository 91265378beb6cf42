//! Limits of an executive, and copies of its setting.

use std::alloc::{AllocError, Global};
use std::test::Fail;
use tp_bounds::{Bound, BoundId, Broken, Limits, Point, Setting, check_schedule};
use tp_exec_machine::{Answer, Command, Executive, Kind, Refusal, perform_all};
use tp_net::{Net, ScratchNet};

/// An executive over a new network of so many events, as far as the limits allow them.
fn start(alloc: Global, limits: Limits, events: u16) -> Result<Executive<ScratchNet>, AllocError> {
    let net = ScratchNet::new(alloc, events.min(limits.events()), limits.horizon())?;
    Ok(Executive::bare(alloc, limits, net))
}

/// The first event comes no later than so many ticks after the origin.
fn at_most(w: i64) -> Command {
    Command::Add(Bound {
        from: Point::Origin,
        to: Point::Event(0),
        w,
    })
}

/// Whether the answers are those to a bound, one that is too many, the withdrawal of the first, and
/// the same once more behind the last identifier.
fn take_two_bounds(answers: &[Answer]) -> bool {
    match answers {
        [
            Answer::Named(first),
            Answer::Refused(Refusal::Full),
            Answer::Accepted,
            Answer::Named(second),
            Answer::Accepted,
            Answer::Refused(Refusal::Spent),
        ] => *first == BoundId(0) && *second == BoundId(1),
        _ => false,
    }
}

fn is_empty_after_two(executive: &Executive<ScratchNet>, limits: Limits) -> bool {
    executive.next() == 2
        && executive.kind() == Kind::Bare
        && executive.limits() == limits
        && executive.net().in_force() == 0
}

#[test]
fn one_bound_at_a_time_and_two_identifiers(rt: HostRuntime) -> Result<(), Fail> {
    let limits = Limits::new(1, 1, 2, 5, 0, 0, 0);
    let mut executive = start(rt.alloc(), limits, 1)?;
    let commands = [
        at_most(5),
        at_most(4),
        Command::Withdraw(BoundId(0)),
        at_most(4),
        Command::Withdraw(BoundId(1)),
        at_most(4),
    ];
    let answers = perform_all(rt.alloc(), &mut executive, &commands)?;
    assert!(rt; take_two_bounds(answers.as_slice()));
    assert!(rt; is_empty_after_two(&executive, limits));
    Ok(())
}

/// Whether the setting has the bound that keeps the events apart, and no past.
fn keeps_the_distance(setting: &Setting) -> bool {
    check_schedule(setting, &[0, 2]) == Ok(())
        && check_schedule(setting, &[0, 1]) == Err(Broken::Bound(BoundId(0)))
}

/// Whether the bound that was copied is all that keeps the events apart.
fn is_free_without_the_bound(executive: &Executive<ScratchNet>) -> bool {
    if executive.net().bound(BoundId(0)).is_none() {
        return false;
    }
    match executive.setting() {
        Ok(mut setting) => {
            setting.take(BoundId(0));
            check_schedule(&setting, &[0, 1]) == Ok(())
        }
        Err(_) => false,
    }
}

/// Whether the setting has the first event at 0, and the second waiting at 3.
fn keeps_the_past(setting: &Setting) -> bool {
    check_schedule(setting, &[0, 2]) == Err(Broken::Event(1))
        && check_schedule(setting, &[1, 3]) == Err(Broken::Event(0))
        && check_schedule(setting, &[0]) == Err(Broken::Length)
        && check_schedule(setting, &[0, 3]) == Ok(())
}

/// Time goes on to 3, the first event having happened at 0.
fn goes_on(executive: &mut Executive<ScratchNet>) -> bool {
    executive.dispatch(0).is_ok() && executive.advance(3).is_ok()
}

#[test]
fn a_copied_setting_tells_schedules_from_others(rt: HostRuntime) -> Result<(), Fail> {
    let mut executive = start(rt.alloc(), Limits::greatest(10), 2)?;
    executive.add(Point::Event(1), Point::Event(0), -2)?;
    assert!(rt; matches!(&executive.setting(), Ok(setting) if keeps_the_distance(setting)));
    assert!(rt; is_free_without_the_bound(&executive));
    assert!(rt; goes_on(&mut executive));
    assert!(rt; matches!(&executive.setting(), Ok(setting) if keeps_the_past(setting)));
    Ok(())
}
