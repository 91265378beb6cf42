//! What can start in a state, and with which duration.

use crate::fault::SearchFault;
use crate::store::{Start, push_copy};
use std::alloc::{AllocError, Global};
use tp_search_compiled::{
    Action, Event, Form, GREATEST, Op, Rule, Running, State, Task, UNDEFINED, Watched, small, units,
};

/// Whether a condition holds.
pub fn holds(task: &Task, state: &State, form: &Form) -> Result<bool, SearchFault> {
    match state.judge(task, form) {
        Some(holds) => Ok(holds),
        None => Err(SearchFault::Range),
    }
}

/// Carries out an event that interferes with no other of its tick.
pub fn carry_out(
    task: &Task,
    state: &mut State,
    event: &Event,
    duration: u32,
) -> Result<(), SearchFault> {
    if state.apply(task, event, units(duration, task.scale))? {
        Ok(())
    } else {
        Err(SearchFault::Range)
    }
}

/// Carries out the ends that are due.
pub fn carry_out_ends(task: &Task, state: &mut State, runs: &[Running]) -> Result<(), SearchFault> {
    for run in runs {
        if let Some(event) = task.end_of(run.action) {
            if run.left == 0 {
                carry_out(task, state, event, run.duration)?;
            }
        }
    }
    Ok(())
}

/// The durations, in ticks, that constraints allow.
#[derive(Clone, Copy)]
struct Allowed {
    least: i64,
    greatest: i64,
}

impl Allowed {
    fn with(self, op: Op, ticks: i64) -> Allowed {
        let least = match op {
            Op::Eq | Op::Ge => self.least.max(ticks),
            Op::Gt => self.least.max(ticks.saturating_add(1)),
            Op::Lt | Op::Le | Op::Ne => self.least,
        };
        let greatest = match op {
            Op::Eq | Op::Le => self.greatest.min(ticks),
            Op::Lt => self.greatest.min(ticks.saturating_sub(1)),
            Op::Gt | Op::Ge | Op::Ne => self.greatest,
        };
        Allowed { least, greatest }
    }
}

// What a duration constraint allows, all fluents of which have values.
fn allowed_by(task: &Task, state: &State, rules: &[Rule]) -> Result<Allowed, SearchFault> {
    let mut allowed = Allowed {
        least: 1,
        greatest: i64::MAX,
    };
    for rule in rules {
        match state.value(task, rule.value, UNDEFINED) {
            Some(units) if units.saturating_abs() <= GREATEST => {
                let ticks = units.saturating_mul(i64::from(task.scale));
                allowed = allowed.with(rule.op, ticks);
            }
            _ => return Err(SearchFault::Range),
        }
    }
    Ok(allowed)
}

// The least multiple of a unit that is no less.
fn rounded(ticks: u32, unit: u32) -> u32 {
    match ticks.checked_rem(unit) {
        Some(0) | None => ticks,
        Some(over) => ticks.saturating_add(unit.saturating_sub(over)),
    }
}

// The least lawful duration of an action in ticks; a multiple of the unit where an effect mentions
// it. None where there is none, or only past 32 bits.
fn least_duration(task: &Task, state: &State, action: &Action) -> Result<Option<u32>, SearchFault> {
    let allowed = allowed_by(task, state, task.rule_of(action))?;
    let Ok(least) = u32::try_from(allowed.least) else {
        return Ok(None);
    };
    let ticks = if action.duration {
        rounded(least, task.scale)
    } else {
        least
    };
    if i64::from(ticks) <= allowed.greatest {
        Ok(Some(ticks))
    } else {
        Ok(None)
    }
}

// The duration with which an action can start at a tick, 0 for an instantaneous one.
fn duration_of(
    task: &Task,
    state: &State,
    action: &Action,
    tick: u32,
) -> Result<Option<u32>, SearchFault> {
    let Some(event) = task.event(action.event) else {
        return Ok(None);
    };
    if !holds(task, state, &event.cond)? || !state.defined(task.list(event.needs)) {
        return Ok(None);
    }
    let duration = if action.durative {
        least_duration(task, state, action)?
    } else {
        Some(0)
    };
    let Some(ticks) = duration else {
        return Ok(None);
    };
    if tick.saturating_add(ticks) <= task.horizon
        && !state.undefined(task, event, units(ticks, task.scale))
    {
        Ok(Some(ticks))
    } else {
        Ok(None)
    }
}

fn push_start(
    task: &Task,
    state: &State,
    number: u32,
    tick: u32,
    into: &mut Vec<Start>,
) -> Result<(), SearchFault> {
    if let Some(action) = task.action(number) {
        if let Some(duration) = duration_of(task, state, action, tick)? {
            let start = Start {
                action: number,
                duration,
            };
            push_copy(into, start)?;
        }
    }
    Ok(())
}

fn push_starts(
    task: &Task,
    state: &State,
    numbers: &[u32],
    tick: u32,
    into: &mut Vec<Start>,
) -> Result<(), SearchFault> {
    for number in numbers {
        push_start(task, state, *number, tick, into)?;
    }
    Ok(())
}

/// What can start at a tick, in the state before that tick's happening, by rising number.
pub fn starts_at(
    alloc: Global,
    task: &Task,
    watched: &Watched,
    state: &State,
    tick: u32,
) -> Result<Vec<Start>, SearchFault> {
    let mut starts = Vec::new(alloc);
    push_starts(task, state, &watched.always, tick, &mut starts)?;
    for atom in 0..small(watched.lists.count()) {
        if state.has(atom) {
            push_starts(task, state, watched.lists.of(atom), tick, &mut starts)?;
        }
    }
    starts.sort_unstable();
    Ok(starts)
}

/// Whether the end of a step can happen in a state.
pub fn end_can_happen(
    task: &Task,
    state: &State,
    action: u32,
    duration: u32,
) -> Result<bool, SearchFault> {
    let Some(event) = task.end_of(action) else {
        return Ok(false);
    };
    if event.clash || state.undefined(task, event, units(duration, task.scale)) {
        return Ok(false);
    }
    holds(task, state, &event.cond)
}

/// Of each action whether it is kept: whether the condition of its start is met in the relaxed
/// reach.
pub fn startable(
    alloc: Global,
    task: &tp_task::Task,
    reach: &[bool],
) -> Result<Vec<bool>, AllocError> {
    let mut flags = Vec::with_capacity(alloc, task.actions.len())?;
    for body in &task.actions {
        let start = match body {
            tp_task::Body::Instant(only) => only,
            tp_task::Body::Durative(start, _, _) => start,
        };
        flags.push(tp_task::met(reach, true, &start.condition))?;
    }
    Ok(flags)
}
