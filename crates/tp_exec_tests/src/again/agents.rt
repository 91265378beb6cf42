//! Owners, a setting that is split between two agents, and their parts, carried out apart and
//! joined.

ghost use Rattle.std.specs.Prelude.{◌≡◌, ◌≤◌, List, length, IfOk, IfSome};
ghost use Rattle.tp_bounds.specs.RunLimits.{RunLimits};
ghost use Rattle.tp_bounds.specs.Certificates.{moments_of, IsListedSchedule};
ghost use Rattle.tp_bounds.specs.declared.plan_nets.PlanNet.{PlanNet};
ghost use Rattle.tp_exec_machine.specs.declared.command.Answer.{Answer};
ghost use Rattle.tp_exec_machine.specs.Step.{IsReport};
ghost use Rattle.tp_exec_machine.specs.Run.{Run};
ghost use Rattle.tp_deorder.specs.tp_task.declared.task.Task.{Task};
ghost use Rattle.tp_deorder.specs.tp_happen.tp_plan_text.declared.plans.Step.{Step};
ghost use Rattle.tp_deorder.specs.Answers.{IsPlanNetOf};
ghost use Rattle.tp_agents.specs.Parts.{IsPart};
ghost use Rattle.tp_exec_laws.specs.PartRuns.{BeginsPart, IsPartReport, ArePartReports};
ghost use Rattle.tp_exec_laws.specs.NetsInForce.{HasInForce, MakesValidPlan};

use crate::wanting::had_memory;
use std::alloc::{AllocError, Global};
use std::test::Fail;
use tp_agents::{PartFault, Split, SplitFault, join_runs, part, perform_each, read_owners, split};
use tp_bounds::{Bound, BoundId, Limits, MOST_BOUNDS, PlanNet, Point, Setting, check_reason};
use tp_exec_laws::{joined_runs_make_valid_plans, part_runs_keep_parts};
use tp_exec_machine::Command::{Advance, Dispatch};
use tp_exec_machine::{Command, Executive, Report, perform_all};
use tp_repair::RepairNet;

/// An executive over the network of a part, under the greatest limits.
fn over(
    alloc: Global,
    split: &Split,
    agent: u16,
    network: &PlanNet,
) -> Result<Executive<RepairNet>, AllocError>
    requires part { IsPart split.now.setting split.now.owners.items
        split.now.intervals.items agent network.now }
    requires few { length network.now.bounds.items ≤ MOST_BOUNDS }
    ensures { IfOk result (BeginsPart split.now.setting split.now.owners.items
        split.now.intervals.items agent) }
{
    let net = RepairNet::new(alloc, network.events.len() as u16, network.horizon)?;
    let limits = Limits::greatest(network.horizon);
    Executive::from_plan(alloc, network, limits, net)
}

/// An executive over the part of an agent that there is.
fn start(
    alloc: Global,
    split: &Split,
    agent: u16,
) -> Result<Option<Executive<RepairNet>>, AllocError>
    ensures { IfOk result (λ o. IfSome o (BeginsPart split.now.setting split.now.owners.items
        split.now.intervals.items agent)) }
{
    if split.agents() <= agent {
        return Ok(None);
    }
    match part(alloc, split, agent) {
        Ok(network) => Ok(Some(over(alloc, split, agent, &network)?)),
        Err(PartFault::TooMany) => Ok(None),
        Err(PartFault::Memory) => Err(AllocError),
    }
}

/// What an executive reports.
fn report_of(executive: &Executive<RepairNet>) -> Result<Report, AllocError>
    ensures { IfOk result (IsReport executive.now) }
{
    match executive.report() {
        Ok(report) => Ok(report),
        Err(_) => Err(AllocError),
    }
}

/// What an executive reports after these commands. A run in which a command wanted memory counts as
/// one that was refused.
fn run_of(
    alloc: Global,
    executive: &mut Executive<RepairNet>,
    commands: &[Command],
) -> Result<Report, AllocError>
    ensures { IfOk result (λ r. (answers : List Answer)
        × Run executive.old commands.now answers executive.new × IsReport executive.new r) }
{
    let answers = perform_all(alloc, executive, commands)?;
    if !had_memory(&answers) {
        return Err(AllocError);
    }
    report_of(executive)
}

/// What the executive of an agent's part reports after these commands.
fn part_report(
    alloc: Global,
    split: &Split,
    agent: u16,
    commands: &[Command],
) -> Result<Option<Report>, AllocError>
    ensures { IfOk result (λ o. IfSome o (IsPartReport split.now.setting split.now.owners.items
        split.now.intervals.items agent)) }
{
    match start(alloc, split, agent)? {
        Some(mut executive) => Ok(Some(run_of(alloc, &mut executive, commands)?)),
        None => Ok(None),
    }
}

/// The moments of all events, where every run is complete.
fn joined(alloc: Global, split: &Split, reports: &[Report]) -> Result<Option<Vec<u32>>, AllocError>
    requires { ArePartReports split.now.setting split.now.owners.items
        split.now.intervals.items reports.now }
    ensures schedule { IfOk result (λ o. IfSome o
        (λ moments. IsListedSchedule split.now.setting moments.items)) }
    ensures valid { (t : Task) (steps : List Step) (l : RunLimits) (n : PlanNet)
        → IsPlanNetOf t steps l n → HasInForce split.now.setting n → IfOk result
        (λ o. IfSome o (λ moments. MakesValidPlan t steps (moments_of moments.items))) }
{
    part_runs_keep_parts(split);
    joined_runs_make_valid_plans(split);
    join_runs(alloc, split, reports)
}

/// What two agents come to, each after its own commands.
fn both(
    alloc: Global,
    split: &Split,
    first: &[Command],
    second: &[Command],
) -> Result<Option<Vec<u32>>, AllocError>
    ensures schedule { IfOk result (λ o. IfSome o
        (λ moments. IsListedSchedule split.now.setting moments.items)) }
    ensures valid { (t : Task) (steps : List Step) (l : RunLimits) (n : PlanNet)
        → IsPlanNetOf t steps l n → HasInForce split.now.setting n → IfOk result
        (λ o. IfSome o (λ moments. MakesValidPlan t steps (moments_of moments.items))) }
{
    let one = part_report(alloc, split, 0, first)?;
    let other = part_report(alloc, split, 1, second)?;
    match (one, other) {
        (Some(one), Some(other)) => joined(alloc, split, &[one, other]),
        _ => Ok(None),
    }
}

/// A text that spells the agents of events, and them.
const OWNERS: [(&str, &[u16]); 3] = [
    (" 0 1\t2\n", &[0, 1, 2]),
    ("", &[]),
    ("1023 1024 9999", &[1_023, 1_024, 9_999]),
];

fn spells(alloc: Global, text: &str, agents: &[u16]) -> Result<bool, SplitFault> {
    let owners = read_owners(alloc, text)?;
    Ok(owners.as_slice() == agents && owners.into_vec().as_slice() == agents)
}

#[test]
fn owners_are_read(rt: HostRuntime) -> Result<(), Fail> {
    for (text, agents) in OWNERS {
        let read = match spells(rt.alloc(), text, agents) {
            Err(SplitFault::Memory) => spells(rt.alloc(), text, agents),
            read => read,
        };
        assert!(rt; read?, "{text}");
    }
    Ok(())
}

/// The event of agent 1 comes 2 ticks after that of agent 0 or later, by tick 10.
fn split_by_hand(alloc: Global) -> Result<Split, SplitFault> {
    let mut setting = Setting::new(alloc, 2, 10)?;
    let bound = Bound {
        from: Point::Event(1),
        to: Point::Event(0),
        w: -2,
    };
    setting.put(BoundId(0), bound)?;
    let owners = read_owners(alloc, "0 1")?;
    split(alloc, &setting, &owners)
}

/// The same; where memory is refused, it is made anew.
fn split_in_two(alloc: Global) -> Result<Split, SplitFault> {
    match split_by_hand(alloc) {
        Err(SplitFault::Memory) => split_by_hand(alloc),
        made => made,
    }
}

/// Whether the two come to these moments, if to any.
fn come_to(
    alloc: Global,
    split: &Split,
    second: &[Command],
    wanted: Option<&[u32]>,
) -> Result<bool, AllocError> {
    match (again!(both(alloc, split, &[Dispatch(0)], second))?, wanted) {
        (Some(moments), Some(wanted)) => Ok(moments.as_slice() == wanted),
        (None, None) => Ok(true),
        _ => Ok(false),
    }
}

#[test]
fn runs_of_two_parts_are_joined(rt: HostRuntime) -> Result<(), Fail> {
    let split = split_in_two(rt.alloc())?;
    assert!(rt; split.agents() == 2 && split.interval(2) == None);
    assert!(rt; (split.interval(0), split.interval(1)) == (Some((0, 0)), Some((2, 10))));
    let late = [Advance(7), Dispatch(0)];
    assert!(rt; come_to(rt.alloc(), &split, &late, Some(&[0, 7]))?);
    // one is not done
    assert!(rt; come_to(rt.alloc(), &split, &late[..1], None)?);
    Ok(())
}

/// The commands of both agents, in each order.
const ORDERS: [[(u16, Command); 3]; 3] = [
    [(0, Dispatch(0)), (1, Advance(7)), (1, Dispatch(0))],
    [(1, Advance(7)), (0, Dispatch(0)), (1, Dispatch(0))],
    [(1, Advance(7)), (1, Dispatch(0)), (0, Dispatch(0))],
];

/// Whether the executive's one event has that window.
fn has_window(executive: &Executive<RepairNet>, low: u32, high: u32) -> bool {
    matches!(executive.window(0), Ok(window) if window == (low, high))
}

/// The same of executives, in turn.
fn have_windows(executives: &[Executive<RepairNet>], windows: &[(u32, u32)]) -> bool {
    executives.iter().zip(windows).all(|(executive, window)| has_window(
        executive, window.0, window.1,
    ))
}

/// Whether two executives begin within their intervals, and are done after these commands.
fn are_done(
    alloc: Global,
    first: Executive<RepairNet>,
    second: Executive<RepairNet>,
    commands: &[(u16, Command)],
) -> Result<bool, AllocError> {
    if !has_window(&first, 0, 0) || !has_window(&second, 2, 10) {
        return Ok(false);
    }
    let mut executives = [first, second];
    match perform_each(alloc, executives.as_mut_slice(), commands) {
        Ok(answers) if had_memory(&answers) => {
            Ok(have_windows(executives.as_slice(), &[(0, 0), (7, 7)]))
        }
        _ => Err(AllocError),
    }
}

fn are_done_in_order(
    alloc: Global,
    split: &Split,
    commands: &[(u16, Command)],
) -> Result<bool, AllocError> {
    match (start(alloc, split, 0)?, start(alloc, split, 1)?) {
        (Some(first), Some(second)) => are_done(alloc, first, second, commands),
        _ => Ok(false),
    }
}

#[test]
fn commands_come_to_both_agents_in_each_order(rt: HostRuntime) -> Result<(), Fail> {
    let split = split_in_two(rt.alloc())?;
    for commands in &ORDERS {
        assert!(rt; again!(are_done_in_order(rt.alloc(), &split, commands))?);
    }
    Ok(())
}

/// Whether a setting whose one event has to happen a tick before the origin is told to have no
/// schedule, for a reason that holds.
fn contradicts(alloc: Global) -> Result<bool, SplitFault> {
    let mut setting = Setting::new(alloc, 1, 5)?;
    let bound = Bound {
        from: Point::Origin,
        to: Point::Event(0),
        w: -1,
    };
    setting.put(BoundId(0), bound)?;
    let owners = read_owners(alloc, "0")?;
    match split(alloc, &setting, &owners) {
        Err(SplitFault::Conflict(reason)) => Ok(check_reason(&setting, &reason)),
        Err(fault) => Err(fault),
        Ok(_) => Ok(false),
    }
}

#[test]
fn a_setting_without_a_schedule_is_told_why(rt: HostRuntime) -> Result<(), Fail> {
    let told = match contradicts(rt.alloc()) {
        Err(SplitFault::Memory) => contradicts(rt.alloc()),
        told => told,
    };
    assert!(rt; told?);
    Ok(())
}

/// Whether a setting without events has an empty run.
fn is_empty(alloc: Global) -> Result<bool, SplitFault> {
    let setting = Setting::new(alloc, 0, 7)?;
    let owners = read_owners(alloc, "")?;
    let split = split(alloc, &setting, &owners)?;
    match join_runs(alloc, &split, &[])? {
        Some(moments) => Ok(moments.is_empty()),
        None => Ok(false),
    }
}

#[test]
fn without_events_there_is_an_empty_run(rt: HostRuntime) -> Result<(), Fail> {
    let empty = match is_empty(rt.alloc()) {
        Err(SplitFault::Memory) => is_empty(rt.alloc()),
        empty => empty,
    };
    assert!(rt; empty?);
    Ok(())
}
