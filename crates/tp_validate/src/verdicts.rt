//! The verdict on a plan, tick after tick.

ghost use Rattle.std.specs.Prelude.{◌≡◌, IfOk, IfErr, MatchOption};
ghost use Rattle.tp_task.specs.Valid.{events};
ghost use Rattle.tp_happen.specs.Fault.{OnRange};
ghost use Rattle.tp_happen.specs.tp_plan_text.Steps.{IsPlan};
ghost use Rattle.tp_validate.specs.OfTask.{AreSteps, IsOfTask, plan_of, IsValidPlan};
ghost use Rattle.tp_validate.specs.Verdict.{IsSound, PassesIn};
ghost use Rattle.tp_validate.specs.Agenda.{IsAgenda};
ghost use Rattle.tp_validate.specs.Reached.{IsRan, PassesBy};
ghost use Rattle.tp_validate.specs.Answers.{IsFirst, IsVerdict, IsFault};

use crate::agenda::{agenda_of, next_tick};
use crate::placing::{PlacedEvent, PlannedStep, placed_events, planned_steps};
use crate::ticks::{Fault, Judged, judge_tick};
use std::alloc::Global;
use std::marker::Model;
use thiserror::Error;
use tp_happen::{ApplyFault, Plan, State, Step, holds};
use tp_task::{Task, valid_without_fault};

/// A plan that is valid for its task, in whose run no number passes 10^15 in absolute value.
#[derive(Drop)]
pub struct ValidPlan<'t> {
    task: &'t Task,
    plan: Plan,
}

impl<'t> Model for ValidPlan<'t> {
    ghost use Rattle.tp_task.specs.contracts.task.Task as a_task;
    ghost use Rattle.tp_happen.specs.tp_plan_text.contracts.plans.Step as a_step;
    ghost use Rattle.std.specs.Coded.{codes};
    ghost use Rattle.tp_validate.specs.Validated.{Validated};

    ghost Value = { Validated };

    ghost coded = { Prim.hlevel (codes, a_task.the_row.coded, a_step.the_row.coded) };

    ghost use Rattle.tp_validate.specs.Verdict.{IsValidated};

    ghost view = { λ v. record { task = v.task.now; steps = v.plan } };

    ghost invariant = { λ v. IsValidated v.task.now v.plan };
}

impl<'t> ValidPlan<'t> {
    /// The plan.
    pub fn plan(&self) -> &Plan
        ensures plan { result.now ≡ self.now.steps }
        ensures of_task { IsOfTask self.now.task self.now.steps }
        ensures sound { IsSound self.now.task self.now.steps }
        ensures valid { IsValidPlan self.now.task self.now.steps }
    {
        valid_without_fault();
        &self.plan
    }

    /// Its task.
    pub fn task(&self) -> &'t Task
        ensures task { result.now ≡ self.now.task }
        ensures of_task { IsOfTask self.now.task self.now.steps }
        ensures sound { IsSound self.now.task self.now.steps }
    {
        self.task
    }
}

/// What is to be said of a plan: that it is valid, or the tick of its first fault and why.
#[derive(Drop)]
pub enum Verdict<'t> {
    Valid(ValidPlan<'t>),
    Invalid { plan: Plan, tick: u32, why: Fault },
}

/// What keeps a plan from being judged: out of memory, or a number past 10^15 in absolute value.
#[derive(Debug, Drop, Error)]
pub enum ValidateFault {
    #[error("out of memory")]
    Memory(Plan),
    #[error("a number passed 10^15")]
    Range(Plan),
}

/// How a run ends: with a fault at a moment, or with all events done before a moment.
#[derive(Drop)]
enum Ran {
    Faulty(u32, Fault),
    Done(u32, State),
}

// Carries out the events of a plan, up to the first fault or to the last of them.
fn run(
    alloc: Global,
    task: &Task,
    steps: &[PlannedStep<'_>],
    agenda: &[PlacedEvent<'_>],
) -> Result<Ran, ApplyFault>
    requires agenda { IsAgenda (events steps.now) 0 agenda.now }
    requires steps { AreSteps task.now steps.now }
    ensures ran { IfOk result (IsRan task.now steps.now) }
    ensures range { IfErr result (λ e. OnRange e (PassesBy task.now steps.now)) }
{
    let mut state = State::initial(alloc, task)?;
    let mut from = 0;
    let mut done = 0;
    while let Some(tick) = next_tick(&agenda[done..]) {
        let moment = tick.moment;
        match judge_tick(alloc, &state, steps, tick.there, moment)? {
            Judged::Faulty(why) => return Ok(Ran::Faulty(moment, why)),
            Judged::Next(next) => state = next,
        }
        from = moment + 1;
        done += tick.there.len();
    }
    Ok(Ran::Done(from, state))
}

// Carries out a plan, up to its first fault or to its last event.
fn carry_out(alloc: Global, task: &Task, steps: &[Step]) -> Result<Ran, ApplyFault>
    requires { IsPlan steps.now }
    ensures ran { IfOk result (IsRan task.now (plan_of task.now steps.now)) }
    ensures range { IfErr result (λ e. OnRange e (PassesBy task.now (plan_of task.now steps.now))) }
{
    let planned = planned_steps(alloc, task, steps)?;
    let agenda = agenda_of(placed_events(alloc, &planned)?)?;
    run(alloc, task, &planned, &agenda)
}

// The tick of the first fault and why, None for a plan that has none.
fn judge(alloc: Global, task: &Task, steps: &[Step]) -> Result<Option<(u32, Fault)>, ApplyFault>
    requires { IsPlan steps.now }
    ensures ok { IfOk result (λ r.
        MatchOption r (IsSound task.now steps.now) (λ f. IsFirst task.now steps.now f.0 f.1)) }
    ensures range { IfErr result (λ e. OnRange e (PassesIn task.now steps.now)) }
{
    match carry_out(alloc, task, steps)? {
        Ran::Faulty(tick, why) => Ok(Some((tick, why))),
        Ran::Done(from, state) => {
            if holds(&state, &task.goal)? {
                Ok(None)
            } else {
                Ok(Some((from.saturating_sub(1), Fault::Goal)))
            }
        }
    }
}

/// Judges a plan of a task: whether it is valid, or its first fault by tick, kind and number. Takes
/// the time of each mention of an event and of an invariant once, and at each tick that of a copy
/// of the state, and of the invariants of the steps that run past it.
pub fn validate<'t>(alloc: Global, task: &'t Task, plan: Plan) -> Result<Verdict<'t>, ValidateFault>
    requires { IsOfTask task.now plan }
    ensures verdict { IfOk result (IsVerdict task.now plan) }
    ensures fault { IfErr result (IsFault task.now plan) }
{
    valid_without_fault();
    match judge(alloc, task, plan.steps()) {
        Ok(None) => Ok(Verdict::Valid(ValidPlan { task, plan })),
        Ok(Some((tick, why))) => Ok(Verdict::Invalid { plan, tick, why }),
        Err(ApplyFault::Memory) => Err(ValidateFault::Memory(plan)),
        Err(ApplyFault::Range) => Err(ValidateFault::Range(plan)),
    }
}
