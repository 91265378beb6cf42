//! The plan of a completed run, and what every run of a plan's network keeps.

ghost use Rattle.std.specs.Prelude.{◌≡◌, ℕ, ◌+◌, ◌++◌, ◌≤◌, List, length, slice_get, slice_index_or, option_map, IfOk, OnOk};
ghost use Rattle.std.specs.Option.{option_to_list};
ghost use Rattle.tp_bounds.specs.RunLimits.{RunLimits};
ghost use Rattle.tp_bounds.specs.Setting.{Setting, event_count};
ghost use Rattle.tp_bounds.specs.Schedule.{HasSchedule};
ghost use Rattle.tp_bounds.specs.Lawful.{IsLawful};
ghost use Rattle.tp_bounds.specs.declared.plan_nets.PlanNet.{PlanNet};
ghost use Rattle.tp_deorder.specs.tp_task.declared.task.Task.{Task};
ghost use Rattle.tp_deorder.specs.tp_happen.tp_plan_text.declared.plans.Step.{Step};
ghost use Rattle.tp_deorder.specs.tp_validate.OfTask.{IsValidPlan};
ghost use Rattle.tp_deorder.specs.tp_validate.Verdict.{IsSound};
ghost use Rattle.tp_deorder.specs.Answers.{IsPlanNetOf};
ghost use Rattle.tp_deorder.specs.RunPlans.{moved_step, count_or_none, run_steps};
ghost use Rattle.tp_exec_machine.specs.declared.command.Answer.{Answer};
ghost use Rattle.tp_exec_machine.specs.declared.command.Command.{Command};
ghost use Rattle.tp_exec_machine.specs.declared.command.Kind.TheVariants.{Kept};
ghost use Rattle.tp_exec_machine.specs.Machine.{Machine, IsFresh, plan_machine};
ghost use Rattle.tp_exec_machine.specs.Step as machine;
ghost use Rattle.tp_exec_machine.specs.Run.{Run};
ghost use Rattle.tp_exec_machine.specs.OwnBounds.{IsDone, dispatched_at, TellsMoments};
ghost use Rattle.tp_exec.specs.FromPlan.{CameFrom, TellsSteps, TellsPlan};

use std::alloc::{AllocError, Global};
use tp_deorder::has_two;
use tp_deorder::tp_happen::{Plan, Step};
use tp_deorder::tp_task::Task;
use tp_deorder::tp_validate::ValidPlan;
use tp_exec_machine::{Executive, Kind};
use tp_net::Net;

/// The moments at which the events were dispatched, if all were.
fn dispatched<N: Net>(alloc: Global, net: &N) -> Result<Option<Vec<u32>>, AllocError>
    ensures moments { IfOk result
        (λ moments. TellsMoments (N.seen net.now) (option_map (λ v. v.items) moments)) }
    ensures possible { HasSchedule (N.seen net.now) }
    ensures lawful { IsLawful (N.seen net.now) }
{
    let mut moments = Vec::new(alloc);
    for e in 0..net.events() {
        let Some(moment) = net.fixed(e) else {
            return Ok(None);
        };
        moments.push(moment)?;
    }
    Ok(Some(moments))
}

/// The moment of an event, 0 where there is none of that number.
fn moment_of(moments: &[u32], event: usize) -> u32
    ensures { result ≡ slice_index_or moments.now event 0 }
{
    match moments.get(event) {
        Some(moment) => *moment,
        None => 0,
    }
}

/// Adds a step at the moment of its first event, as long as to its last one, and tells the number
/// of the next step's first event.
fn put_moved(
    moved: &mut Vec<Step>,
    task: &Task,
    step: Step,
    moments: &[u32],
    event: usize,
) -> Result<usize, AllocError>
    requires few { event ≤ 1_024 }
    ensures steps { OnOk result (moved.new.items ≡ moved.old.items
        ++ option_to_list (option_map (moved_step (λ e. slice_index_or moments.now e 0) event step)
        (slice_get task.now.actions.items step.action.0))) }
    ensures next { IfOk result
        (λ next. next ≡ event + count_or_none (slice_get task.now.actions.items step.action.0)) }
{
    let tick = moment_of(moments, event);
    let action = step.action;
    match has_two(task, action) {
        None => Ok(event),
        Some(false) => {
            moved.push(Step {
                tick,
                action,
                duration: 0,
            })?;
            Ok(event + 1)
        }
        Some(true) => {
            let duration = moment_of(moments, event + 1).saturating_sub(tick);
            moved.push(Step {
                tick,
                action,
                duration,
            })?;
            Ok(event + 2)
        }
    }
}

/// The steps of a run whose events happened at these moments.
fn moved(
    alloc: Global,
    task: &Task,
    steps: &[Step],
    moments: &[u32],
) -> Result<Vec<Step>, AllocError>
    requires few { length steps.now ≤ 512 }
    ensures { IfOk result
        (λ v. v.items ≡ run_steps task.now (λ e. slice_index_or moments.now e 0) steps.now) }
{
    let mut moved = Vec::new(alloc);
    let mut event = 0;
    for step in steps {
        event = put_moved(&mut moved, task, *step, moments, event)?;
    }
    Ok(moved)
}

/// The plan of a run, if every event was dispatched.
fn plan_at<N: Net>(alloc: Global, net: &N, plan: &ValidPlan<'_>) -> Result<Option<Plan>, AllocError>
    ensures steps { IfOk result (TellsSteps plan.now.task plan.now.steps (N.seen net.now)) }
    ensures possible { HasSchedule (N.seen net.now) }
    ensures lawful { IsLawful (N.seen net.now) }
    ensures sound { IsSound plan.now.task plan.now.steps }
{
    let task = plan.task();
    let Some(moments) = dispatched(alloc, net)? else {
        return Ok(None);
    };
    let steps = moved(alloc, task, plan.plan().steps(), &moments)?;
    Ok(Some(Plan::new(steps)))
}

/// The plan of the run, where the network came from a validated plan: that plan's steps, each at
/// the moment of its first event and as long as to its last one. It is valid, and so it reaches the
/// goal. There is none until every event is dispatched, and none once a bound of the plan was
/// withdrawn.
///
/// It costs one look at each event and each step.
pub fn run_plan<N: Net>(
    executive: &Executive<N>,
    plan: &ValidPlan<'_>,
) -> Result<Option<Plan>, AllocError>
    requires { CameFrom plan.now.task plan.now.steps executive.now }
    ensures { IfOk result (TellsPlan plan.now.task plan.now.steps executive.now) }
{
    match executive.kind() {
        Kind::Bare => Ok(None),
        Kind::Kept => plan_at(executive.alloc(), executive.net(), plan),
        Kind::Altered => Ok(None),
    }
}

/// What an executive over the network of a plan begins with came from that plan.
pub fn networks_come_from_their_plans()
    ensures { (t : Task) (steps : List Step) (l limits : RunLimits) (n : PlanNet) (s : Setting)
        → IsPlanNetOf t steps l n → IsFresh s → event_count s ≡ length n.events.items
        → s.horizon ≡ n.horizon → CameFrom t steps (plan_machine s n.bounds.items limits) }
{}

/// Each step of the machine keeps that it came from a plan.
pub fn steps_keep_the_plan()
    ensures { (t : Task)
        (steps : List Step) (old new : Machine) (command : Command) (answer : Answer)
        → CameFrom t steps old → machine.Step old command answer new → CameFrom t steps new }
{}

/// So does each run.
pub fn runs_keep_the_plan()
    ensures { (t : Task)
        (steps : List Step) (old new : Machine) (commands : List Command) (answers : List Answer)
        → CameFrom t steps old → Run old commands answers new → CameFrom t steps new }
{}

/// Every completed run of a network that was built from a validated plan, none of its own bounds
/// withdrawn, is a valid plan, which reaches the goal: after any list of commands, where all events
/// are dispatched and the kind is `Kept`.
pub fn completed_runs_are_valid_plans()
    ensures { (t : Task) (steps : List Step) (l limits : RunLimits) (n : PlanNet)
        (s : Setting) (commands : List Command) (answers : List Answer) (new : Machine)
        → IsSound t steps → IsPlanNetOf t steps l n
        → IsFresh s → event_count s ≡ length n.events.items → s.horizon ≡ n.horizon
        → Run (plan_machine s n.bounds.items limits) commands answers new → IsDone new.setting
        → new.kind ≡ Kept → IsValidPlan t (run_steps t (dispatched_at new.setting) steps) }
{}
