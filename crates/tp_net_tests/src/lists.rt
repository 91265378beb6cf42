//! The same commands to executives over the network that is repaired and over the plain one. The
//! same are carried out, the windows are the same, and each conflict has a reason in the setting
//! that was asked for. That setting is a copy of the other executive's, with the change.

use crate::asking::{may_go_on, may_happen, suits, window};
use std::alloc::{AllocError, Global};
use std::test::Fail;
use tp_bounds::{Bound, BoundId, Edge, Limits, Point, check_reason};
use tp_exec_machine::{Answer, Command, Executive, Refusal, perform};
use tp_net::{Net, ScratchNet};
use tp_repair::RepairNet;

const LISTS: u64 = 1_000;

const COMMANDS: u64 = 100;

/// How many commands of each kind were carried out, and how many were refused for a conflict.
#[derive(Clone, Copy, Debug, PartialEq, Eq)]
struct Made {
    added: u64,
    withdrawn: u64,
    advanced: u64,
    happened: u64,
    conflicts: u64,
}

const NONE: Made = Made {
    added: 0,
    withdrawn: 0,
    advanced: 0,
    happened: 0,
    conflicts: 0,
};

/// What a plain program makes of the same lists, which looks for a schedule after each command.
const ALL: Made = Made {
    added: 42_527,
    withdrawn: 5_803,
    advanced: 5_556,
    happened: 2_971,
    conflicts: 17_439,
};

impl Made {
    fn count(&mut self, command: Command, outcome: Outcome) {
        match (command, outcome) {
            (_, Outcome::Conflict(_)) => self.conflicts = self.conflicts.wrapping_add(1),
            (Command::Add(_), Outcome::Named(_)) => self.added = self.added.wrapping_add(1),
            (Command::Withdraw(_), Outcome::Accepted) => {
                self.withdrawn = self.withdrawn.wrapping_add(1);
            }
            (Command::Advance(_), Outcome::Accepted) => {
                self.advanced = self.advanced.wrapping_add(1);
            }
            (Command::Dispatch(_) | Command::Happened(_, _), Outcome::Accepted) => {
                self.happened = self.happened.wrapping_add(1);
            }
            _ => {}
        }
    }
}

/// What an executive answers, but for the report and for which refusal it is that is no conflict.
/// Of a reason the first edge is kept.
#[derive(Clone, Copy, Debug, PartialEq, Eq)]
enum Outcome {
    Accepted,
    Named(BoundId),
    Told(u32, u32),
    Reported,
    Conflict(Option<Edge>),
    Refused,
}

fn outcome_of(answer: &Answer) -> Outcome {
    match answer {
        Answer::Accepted => Outcome::Accepted,
        Answer::Named(id) => Outcome::Named(*id),
        Answer::Told(low, high) => Outcome::Told(*low, *high),
        Answer::Reported(_) => Outcome::Reported,
        Answer::Refused(Refusal::Conflict(reason)) => {
            Outcome::Conflict(reason.edges.first().copied())
        }
        Answer::Refused(_) => Outcome::Refused,
    }
}

/// The next number of a sequence (Knuth's linear congruential generator).
fn next(seed: u64) -> u64 {
    seed.wrapping_mul(6_364_136_223_846_793_005)
        .wrapping_add(1_442_695_040_888_963_407)
}

/// A number below 64 of the bits from a place on.
fn pick(seed: u64, place: u32) -> u64 {
    (seed >> (place % 58)) & 63
}

fn point(n: u64) -> Point {
    let e = (n % 7) as u16;
    if e == 0 {
        Point::Origin
    } else {
        Point::Event(e - 1)
    }
}

fn command(seed: u64, now: u32) -> Command {
    let e = (pick(seed, 26) % 6) as u16;
    let small = pick(seed, 32);
    match pick(seed, 14) % 16 {
        0..=8 => Command::Add(Bound {
            from: point(pick(seed, 38)),
            to: point(pick(seed, 44)),
            w: (small % 64) as i64 - 20,
        }),
        9..=11 => Command::Withdraw(BoundId((pick(seed, 20) % 64) as u32)),
        12 => Command::Advance(now.saturating_add((small % 4) as u32)),
        13 => Command::Dispatch(e),
        14 => Command::Happened(e, now.saturating_sub((small % 8) as u32)),
        _ => Command::Window(e),
    }
}

/// An executive over a new network of 6 events up to 60, of which one may be reported late.
fn repaired(alloc: Global) -> Result<Executive<RepairNet>, AllocError> {
    let mut net = RepairNet::new(alloc, 6, 60)?;
    net.set_lag(3, 9);
    Ok(Executive::bare(alloc, Limits::greatest(60), net))
}

fn plain(alloc: Global) -> Result<Executive<ScratchNet>, AllocError> {
    let mut net = ScratchNet::new(alloc, 6, 60)?;
    net.set_lag(3, 9);
    Ok(Executive::bare(alloc, Limits::greatest(60), net))
}

/// Whether the reason of an answer, if it has one, is a reason in the setting that the command
/// asked for.
fn is_founded<N: Net>(
    executive: &Executive<N>,
    command: Command,
    answer: &Answer,
) -> Result<bool, AllocError> {
    let Answer::Refused(Refusal::Conflict(reason)) = answer else {
        return Ok(true);
    };
    let net = executive.net();
    let mut setting = executive.setting()?;
    match command {
        Command::Add(bound) if suits(net, bound) => setting.propose(Some(bound)),
        Command::Advance(to) if may_go_on(net, to) => setting.raise(to),
        Command::Dispatch(e) if may_happen(net, e, net.now()) => setting.fix(e, net.now()),
        Command::Happened(e, moment) if may_happen(net, e, moment) => setting.fix(e, moment),
        _ => return Ok(false),
    }
    Ok(check_reason(&setting, reason))
}

fn same_windows(a: &RepairNet, b: &ScratchNet) -> bool {
    for e in 0..6 {
        if window(a, e) != window(b, e) {
            return false;
        }
    }
    true
}

/// What both executives answer, where they answer the same, with reasons that hold for the other.
fn both(
    a: &mut Executive<RepairNet>,
    b: &mut Executive<ScratchNet>,
    command: Command,
) -> Result<Option<Outcome>, AllocError> {
    let first = perform(a, command);
    let second = perform(b, command);
    let outcome = outcome_of(&first);
    if outcome != outcome_of(&second) || !same_windows(a.net(), b.net()) {
        return Ok(None);
    }
    if is_founded(b, command, &first)? && is_founded(a, command, &second)? {
        Ok(Some(outcome))
    } else {
        Ok(None)
    }
}

/// Whether a list of commands does the same on both; what it does is counted.
fn agree(alloc: Global, seed: u64, made: &mut Made) -> Result<bool, AllocError> {
    let mut a = repaired(alloc)?;
    let mut b = plain(alloc)?;
    let mut seed = seed;
    for _ in 0..COMMANDS {
        seed = next(seed);
        let drawn = command(seed, a.net().now());
        let Some(outcome) = both(&mut a, &mut b, drawn)? else {
            return Ok(false);
        };
        made.count(drawn, outcome);
    }
    Ok(true)
}

#[test]
fn both_networks_agree_and_each_conflict_has_a_reason(rt: HostRuntime) -> Result<(), Fail> {
    let mut made = NONE;
    for n in 0..LISTS {
        assert!(rt; agree(rt.alloc(), next(n), &mut made)?, "list {n}");
    }
    assert!(rt; made == ALL, "{made:?}");
    Ok(())
}
