//! Networks of plans, and the plans of completed runs.

ghost use Rattle.std.specs.Prelude.{IfOk, OnOk, IfSome};
ghost use Rattle.tp_deorder.specs.Answers.{IsPlanNetOf};
ghost use Rattle.tp_exec.specs.FromPlan.{CameFrom, TellsPlan};

use crate::again::plans::valid_plan;
use crate::again::worlds::task_of;
use crate::wanting::had_memory;
use std::alloc::{AllocError, Global};
use std::test::Fail;
use tp_bounds::{BoundId, Limits, MOST_BOUNDS, PlanNet};
use tp_deorder::{DeorderFault, deorder};
use tp_exec::{networks_come_from_their_plans, run_plan, runs_keep_the_plan};
use tp_exec_machine::{Command, Executive, perform_all};
use tp_happen::{Plan, Step};
use tp_repair::RepairNet;
use tp_task::Task;
use tp_testkit::{CHARGES, FUSES, SWITCHES, TANKS, World};
use tp_validate::ValidPlan;

/// An executive over the network of a plan, under the greatest limits.
fn over(
    alloc: Global,
    plan: &ValidPlan<'_>,
    limits: &Limits,
    network: &PlanNet,
) -> Result<Option<Executive<RepairNet>>, AllocError>
    requires { IsPlanNetOf plan.now.task plan.now.steps limits.now network.now }
    ensures { IfOk result (λ o. IfSome o (CameFrom plan.now.task plan.now.steps)) }
{
    networks_come_from_their_plans();
    if network.bounds.len() > MOST_BOUNDS as usize {
        return Ok(None);
    }
    let net = RepairNet::new(alloc, network.events.len() as u16, network.horizon)?;
    let most = Limits::greatest(network.horizon);
    Ok(Some(Executive::from_plan(alloc, network, most, net)?))
}

/// Carries these commands out, and tells whether none of them wanted memory.
fn carry_out(
    alloc: Global,
    plan: &ValidPlan<'_>,
    executive: &mut Executive<RepairNet>,
    commands: &[Command],
) -> Result<bool, AllocError>
    requires { CameFrom plan.now.task plan.now.steps executive.old }
    ensures { OnOk result (CameFrom plan.now.task plan.now.steps executive.new) }
{
    let _ = plan;
    runs_keep_the_plan();
    let answers = perform_all(alloc, executive, commands)?;
    Ok(had_memory(&answers))
}

/// The plan of the run of these commands; where memory is refused to that call, it is made once
/// more. A run in which a command wanted memory counts as one that was refused.
fn plan_of(
    alloc: Global,
    plan: &ValidPlan<'_>,
    executive: &mut Executive<RepairNet>,
    commands: &[Command],
) -> Result<Option<Plan>, AllocError>
    requires { CameFrom plan.now.task plan.now.steps executive.old }
    ensures { IfOk result (TellsPlan plan.now.task plan.now.steps executive.new) }
{
    if !carry_out(alloc, plan, executive, commands)? {
        return Err(AllocError);
    }
    again!(run_plan(executive, plan))
}

/// The same over the network of a plan.
fn plan_found(
    alloc: Global,
    plan: &ValidPlan<'_>,
    limits: &Limits,
    commands: &[Command],
) -> Result<Option<Plan>, DeorderFault> {
    let network = deorder(alloc, plan, limits)?;
    match over(alloc, plan, limits, &network)? {
        Some(mut executive) => Ok(plan_of(alloc, plan, &mut executive, commands)?),
        None => Ok(None),
    }
}

/// Whether the first event of a plan's network is called so.
fn begins_with(
    alloc: Global,
    plan: &ValidPlan<'_>,
    limits: &Limits,
    text: &str,
) -> Result<bool, DeorderFault> {
    let network = deorder(alloc, plan, limits)?;
    Ok(0 < network.events.len() && network.event_text(0) == text)
}

/// A plan, what its first event is called, commands of a run over its network, and the steps of the
/// plan of that run, if there is one: the tick, the number of the action and the duration of each.
#[derive(Clone, Copy)]
struct Run {
    world: World<'static>,
    plan: &'static str,
    first: &'static str,
    commands: &'static [Command],
    steps: Option<&'static [(u32, u32, u32)]>,
}

fn is_step(step: &Step, told: (u32, u32, u32)) -> bool {
    (step.tick, step.action.0, step.duration) == told
}

fn are_steps(steps: &[Step], told: &[(u32, u32, u32)]) -> bool {
    steps.len() == told.len()
        && steps
            .iter()
            .zip(told)
            .all(|(step, other)| is_step(step, *other))
}

/// Whether a plan has these steps; none stands for no plan.
fn has_steps(plan: &Option<Plan>, told: Option<&[(u32, u32, u32)]>) -> bool {
    match (plan, told) {
        (Some(plan), Some(told)) => are_steps(plan.steps(), told),
        (None, None) => true,
        _ => false,
    }
}

/// Whether the run over the network of a plan comes to that; where memory was refused, another one.
fn comes_to(alloc: Global, task: &Task, run: Run) -> Result<bool, Fail> {
    let plan = valid_plan(alloc, task, run.plan)?;
    if !again!(begins_with(alloc, &plan, &task.limits, run.first))? {
        return Ok(false);
    }
    let found = again!(plan_found(alloc, &plan, &task.limits, run.commands))?;
    Ok(has_steps(&found, run.steps))
}

fn comes_of(alloc: Global, run: Run) -> Result<bool, Fail> {
    let task = task_of(alloc, run.world)?;
    comes_to(alloc, &task, run)
}

const MENDED: &str = "0: (light-match m1) [8]\n0: (mend-fuse f1) [5]";

const RUNS: [Run; 5] = [
    // later than planned
    Run {
        world: FUSES,
        plan: MENDED,
        first: "start 0 (light-match m1)",
        commands: &[
            Command::Advance(2),
            Command::Dispatch(0),
            Command::Advance(4),
            Command::Dispatch(2),
            Command::Advance(9),
            Command::Dispatch(3),
            Command::Advance(10),
            Command::Dispatch(1),
        ],
        steps: Some(&[(2, 0, 8), (4, 1, 5)]),
    },
    // the match is still lit
    Run {
        world: FUSES,
        plan: MENDED,
        first: "start 0 (light-match m1)",
        commands: &[
            Command::Dispatch(0),
            Command::Dispatch(2),
            Command::Advance(5),
            Command::Dispatch(3),
        ],
        steps: None,
    },
    // one of the plan's bounds is withdrawn
    Run {
        world: CHARGES,
        plan: "0: (rest) [4]",
        first: "start 0 (rest)",
        commands: &[
            Command::Withdraw(BoundId(0)),
            Command::Dispatch(0),
            Command::Advance(1),
            Command::Dispatch(1),
        ],
        steps: None,
    },
    // give before drop, though no earlier than it
    Run {
        world: SWITCHES,
        plan: "0: (watch) [5]\n2: (give)\n3: (drop)",
        first: "start 0 (watch)",
        commands: &[
            Command::Dispatch(0),
            Command::Advance(1),
            Command::Dispatch(3),
            Command::Dispatch(2),
            Command::Advance(5),
            Command::Dispatch(1),
        ],
        steps: Some(&[(0, 3, 5), (1, 2, 0), (1, 1, 0)]),
    },
    // in the other order
    Run {
        world: TANKS,
        plan: "1: (fill-a)\n1: (fill-b)",
        first: "at 0 (fill-a)",
        commands: &[
            Command::Dispatch(1),
            Command::Advance(7),
            Command::Dispatch(0),
        ],
        steps: Some(&[(7, 0, 0), (0, 1, 0)]),
    },
];

#[test]
fn plans_of_completed_runs(rt: HostRuntime) -> Result<(), Fail> {
    for run in RUNS {
        let came = comes_of(rt.alloc(), run)?;
        assert!(rt; came, "{}", run.plan);
    }
    Ok(())
}
