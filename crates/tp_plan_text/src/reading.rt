//! Plans as texts spell them.

ghost use Rattle.std.specs.Prelude.{◌≡◌, ◌∷◌, ◌<◌, ◌≤◌, ◌+◌, ◌==◌, ◌||◌, true, length, None, Some, IfOk, IfErr, OnOk, option_map};
ghost use Rattle.tp_text.specs.Scales.{scale_ticks};
ghost use Rattle.tp_plan_text.specs.Steps.{IsPlan};
ghost use Rattle.tp_plan_text.specs.PlanLexemes.{lexemes};
ghost use Rattle.tp_plan_text.specs.PlanForms.{form_view};
ghost use Rattle.tp_plan_text.specs.PlanTexts.{lines_of, timed, lasting, form_step, step_of, fault_at, LinesSpell, refusal, LinesAreRefused, is_known, AreKnown, SpellsPlan, IsAccepted, IsRefused};
ghost use Rattle.tp_plan_text.specs.TaskWords.{readable};

use crate::forms::{Form, is_well_formed, read_form};
use crate::plans::{Plan, Step};
use crate::task_words::{action_of, horizon, is_durative};
use crate::tokens::is_bare;
use std::alloc::{AllocError, Global};
use thiserror::Error;
use tp_bounds::MOST_STEPS;
use tp_task::{ActionId, Task};
use tp_text::{Scale, read_ticks};

/// Why a text is refused as a plan. Lines are numbered from 1.
#[derive(Clone, Copy, Debug, PartialEq, Eq, Error)]
pub enum PlanFault {
    #[error("out of memory")]
    Memory,
    #[error("line {0} is no step")]
    Line(usize),
    #[error("line {0} names no action of the task")]
    NoAction(usize),
    #[error("a time of line {0} is no number of ticks")]
    NotTicks(usize),
    #[error("more than 512 steps")]
    TooMany,
    #[error("line {0} lacks a duration")]
    NoDuration(usize),
    #[error("line {0} ends past the horizon")]
    Horizon(usize),
}

impl From<AllocError> for PlanFault {
    ghost use Rattle.std.specs.Prelude.{◌≡◌};
    ghost use Rattle.tp_plan_text.specs.declared.reading.PlanFault.TheVariants as faults;

    ghost from_gives = { λ _ e. e ≡ faults.Memory };

    fn from(_: AllocError) -> Self {
        PlanFault::Memory
    }
}

/// What is wrong with a line.
#[derive(Clone, Copy, Debug, PartialEq, Eq)]
pub(crate) enum Wrong {
    Form,
    Action,
    Duration,
    Ticks,
    Horizon,
}

fn fault_at(number: usize, wrong: Wrong) -> PlanFault
    ensures { result ≡ fault_at number wrong }
{
    match wrong {
        Wrong::Form => PlanFault::Line(number),
        Wrong::Action => PlanFault::NoAction(number),
        Wrong::Duration => PlanFault::NoDuration(number),
        Wrong::Ticks => PlanFault::NotTicks(number),
        Wrong::Horizon => PlanFault::Horizon(number),
    }
}

// The first line of bytes, and what follows its LF.
pub(crate) fn first_line(bytes: &[u8]) -> (&[u8], &[u8])
    requires { 0 < length bytes.now }
    ensures lines { lines_of bytes.now ≡ result.0.now ∷ lines_of result.1.now }
    ensures shorter { length result.1.now < length bytes.now }
{
    for (n, b) in bytes.iter().enumerate() {
        if *b == b'\n' {
            return (&bytes[..n], &bytes[n + 1..]);
        }
    }
    (bytes, &[])
}

fn timed(
    horizon: u32,
    action: ActionId,
    tick: Option<u32>,
    duration: Option<u32>,
) -> Result<Step, Wrong>
    ensures value { result ≡ timed horizon action tick duration }
    ensures ends { IfOk result (λ s. s.tick + s.duration ≤ horizon) }
    ensures action { IfOk result (λ s. s.action ≡ action) }
    ensures lasts { IfOk result (λ s. duration ≡ Some s.duration) }
{
    let Some(tick) = tick else {
        return Err(Wrong::Ticks);
    };
    let Some(duration) = duration else {
        return Err(Wrong::Ticks);
    };
    if u64::from(tick) + u64::from(duration) > u64::from(horizon) {
        return Err(Wrong::Horizon);
    }
    Ok(Step {
        tick,
        action,
        duration,
    })
}

fn lasting(
    scale: Scale,
    horizon: u32,
    form: &Form<'_>,
    action: ActionId,
    is_durative: bool,
) -> Result<Step, Wrong>
    ensures value { result ≡ lasting (scale_ticks scale) horizon
        (form_view form.now) action is_durative (form_view form.now).duration }
    ensures ends { IfOk result (λ s. s.tick + s.duration ≤ horizon) }
    ensures action { IfOk result (λ s. s.action ≡ action) }
    ensures lasts { IfOk result (λ s. (is_durative || s.duration == 0) ≡ true) }
{
    let tick = read_ticks(form.time, scale);
    if !is_durative {
        return timed(horizon, action, tick, Some(0));
    }
    match form.duration {
        None => Err(Wrong::Duration),
        Some(duration) => timed(horizon, action, tick, read_ticks(duration, scale)),
    }
}

// The step that a form spells.
fn form_step(task: &Task, form: &Form<'_>) -> Result<Step, Wrong>
    ensures value { result ≡ form_step (readable task.now) (form_view form.now) }
    ensures ends { IfOk result (λ s. s.tick + s.duration ≤ 1000000000) }
    ensures known { IfOk result (λ s. is_known (readable task.now) s ≡ true) }
{
    if !is_well_formed(form) {
        return Err(Wrong::Form);
    }
    let Some(action) = action_of(task, form.words.as_slice()) else {
        return Err(Wrong::Action);
    };
    let lasts = is_durative(task, action);
    lasting(task.scale, horizon(task), form, action, lasts)
}

// The step that a line spells.
fn read_step(alloc: Global, task: &Task, line: &[u8]) -> Result<Result<Step, Wrong>, AllocError>
    ensures value { IfOk result (λ r. r ≡ step_of (readable task.now) line.now) }
    ensures ends { IfOk result (λ r. IfOk r (λ s. s.tick + s.duration ≤ 1000000000)) }
    ensures known { IfOk result (λ r. IfOk r (λ s. is_known (readable task.now) s ≡ true)) }
{
    match read_form(alloc, line)? {
        None => Ok(Err(Wrong::Form)),
        Some(form) => Ok(form_step(task, &form)),
    }
}

// The steps that lines spell.
fn read_steps(alloc: Global, task: &Task, text: &[u8]) -> Result<Vec<Step>, PlanFault>
    ensures spelled { IfOk result
        (λ v. LinesSpell (readable task.now) (lines_of text.now) v.items) }
    ensures plan { IfOk result (λ v. IsPlan v.items) }
    ensures known { IfOk result (λ v. AreKnown (readable task.now) v.items) }
    ensures accepted { OnOk result (refusal (readable task.now) (lines_of text.now) ≡ None) }
    ensures refused { IfErr result (LinesAreRefused (readable task.now) (lines_of text.now)) }
{
    let mut steps = Vec::new(alloc);
    let mut rest = text;
    let mut number = 0usize;
    'lines: while !rest.is_empty() {
        let (line, after) = first_line(rest);
        rest = after;
        number += 1;
        if is_bare(line) {
            continue;
        }
        if steps.len() == MOST_STEPS {
            return Err(PlanFault::TooMany);
        }
        match read_step(alloc, task, line)? {
            Ok(step) => steps.push(step).map_err(AllocError::from)?,
            Err(wrong) => return Err(fault_at(number, wrong)),
        }
    }
    Ok(steps)
}

/// The plan of a task that a text spells.
pub fn read_plan(alloc: Global, text: &str, task: &Task) -> Result<Plan, PlanFault>
    ensures spelled { IfOk result (λ p. SpellsPlan (readable task.now) text.now p) }
    ensures known { IfOk result (λ p. AreKnown (readable task.now) p) }
    ensures accepted { OnOk result (IsAccepted (readable task.now) text.now) }
    ensures refused { IfErr result (IsRefused (readable task.now) text.now) }
{
    let lowered = text.to_ascii_lowercase(alloc)?;
    let steps = read_steps(alloc, task, lowered.as_bytes())?;
    Ok(Plan::new(steps))
}
