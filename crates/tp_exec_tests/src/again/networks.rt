//! Settings, and executives over both networks for all bounds.

use std::alloc::{AllocError, Global};
use std::test::Fail;
use tp_bounds::{Bound, BoundId, Broken, Limits, Point, Setting, check_schedule};
use tp_exec_machine::{Answer, Command, Executive, Refusal, perform};
use tp_net::{Net, ScratchNet};
use tp_repair::RepairNet;

/// Two events, the second at least two ticks after the first.
fn two_apart(alloc: Global) -> Result<Setting, AllocError> {
    let mut setting = Setting::new(alloc, 2, 10)?;
    let bound = Bound {
        from: Point::Event(1),
        to: Point::Event(0),
        w: -2,
    };
    setting.put(BoundId(0), bound)?;
    Ok(setting)
}

#[test]
fn a_setting_of_two_events(rt: HostRuntime) -> Result<(), Fail> {
    let setting = again!(two_apart(rt.alloc()))?;
    assert!(rt; check_schedule(&setting, &[0, 2]) == Ok(()));
    assert!(rt; check_schedule(&setting, &[0, 1]) == Err(Broken::Bound(BoundId(0))));
    Ok(())
}

/// What an executive answers. Where memory is refused, nothing has changed, and it is asked once
/// more.
fn answer<N: Net>(executive: &mut Executive<N>, command: Command) -> Answer {
    match perform(executive, command) {
        Answer::Refused(Refusal::Memory) => perform(executive, command),
        answer => answer,
    }
}

/// Whether an executive carries out all these commands.
fn carries_out<N: Net>(executive: &mut Executive<N>, commands: &[Command]) -> bool {
    for command in commands {
        if matches!(answer(executive, *command), Answer::Refused(_)) {
            return false;
        }
    }
    true
}

/// An executive over a new network of two events up to 100, the first of which may be reported
/// late.
fn plain(alloc: Global) -> Result<Executive<ScratchNet>, AllocError> {
    let mut net = ScratchNet::new(alloc, 2, 100)?;
    net.set_lag(0, 3);
    Ok(Executive::bare(alloc, Limits::greatest(100), net))
}

fn repaired(alloc: Global) -> Result<Executive<RepairNet>, AllocError> {
    let mut net = RepairNet::new(alloc, 2, 100)?;
    net.set_lag(0, 3);
    Ok(Executive::bare(alloc, Limits::greatest(100), net))
}

const FIRST: [Command; 5] = [
    Command::Add(Bound {
        from: Point::Event(0),
        to: Point::Event(1),
        w: 5,
    }),
    Command::Add(Bound {
        from: Point::Event(1),
        to: Point::Event(0),
        w: -2,
    }),
    Command::Add(Bound {
        from: Point::Origin,
        to: Point::Event(0),
        w: 10,
    }),
    Command::Advance(4),
    Command::Happened(0, 3),
];

const LAST: [Command; 3] = [
    Command::Withdraw(BoundId(0)),
    Command::Advance(10),
    Command::Dispatch(1),
];

/// Whether now waits for a bound to be withdrawn.
fn waits<N: Net>(executive: &mut Executive<N>) -> bool {
    executive.net().events() == 2
        && executive.lag(0) == 3
        && carries_out(executive, &FIRST)
        && matches!(
            answer(executive, Command::Advance(10)),
            Answer::Refused(Refusal::Conflict(_))
        )
        && carries_out(executive, &LAST)
}

/// Whether a report tells that all is done, at these moments.
fn reports<N: Net>(executive: &mut Executive<N>, moments: &[(u32, bool)]) -> bool {
    match answer(executive, Command::Report) {
        Answer::Reported(report) => report.done && report.moments.as_slice() == moments,
        _ => false,
    }
}

/// Whether these moments are a schedule of the setting that is copied.
fn keeps<N: Net>(executive: &Executive<N>, moments: &[u32]) -> Result<bool, AllocError> {
    let setting = executive.setting()?;
    Ok(check_schedule(&setting, moments) == Ok(()))
}

/// Whether it does, and is done then with the first event at 3 and the second at 10.
fn is_done<N: Net>(executive: &mut Executive<N>) -> Result<bool, AllocError> {
    if !waits(executive) || !reports(executive, &[(3, true), (10, true)]) {
        return Ok(false);
    }
    again!(keeps(executive, &[3, 10]))
}

#[test]
fn now_waits_for_a_bound_to_be_withdrawn(rt: HostRuntime) -> Result<(), Fail> {
    let mut first = again!(plain(rt.alloc()))?;
    assert!(rt; is_done(&mut first)?);
    let mut second = again!(repaired(rt.alloc()))?;
    assert!(rt; is_done(&mut second)?);
    Ok(())
}
