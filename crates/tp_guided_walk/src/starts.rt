//! The starts that are possible in a state.

use crate::store::Choice;
use std::alloc::AllocError;
use tp_search_compiled::{Action, GREATEST, NONE, Op, State, Task, UNDEFINED, Watched, units};

/// The tick of a start, the tick that no step ends past, and whether greatest durations are cut to
/// it.
#[derive(Clone, Copy)]
pub struct Frame {
    pub tick: u32,
    pub limit: u32,
    pub cut: bool,
}

fn rounded_down(ticks: i64, scale: i64) -> i64 {
    match ticks.checked_div(scale) {
        Some(units) => units.saturating_mul(scale),
        None => ticks,
    }
}

fn rounded_up(ticks: i64, scale: i64) -> i64 {
    rounded_down(ticks.saturating_add(scale).saturating_sub(1), scale)
}

// The least and the greatest number of ticks that the duration constraint of an action allows in a
// state, None where a number is out of range.
fn limits(task: &Task, state: &State, action: &Action) -> Option<(i64, i64)> {
    let mut low = 1;
    let mut high = i64::MAX;
    for rule in task.rule_of(action) {
        let value = state.value(task, rule.value, UNDEFINED)?;
        if !(-GREATEST <= value && value <= GREATEST) {
            return None;
        }
        let ticks = value.saturating_mul(i64::from(task.scale));
        if rule.op != Op::Le {
            low = ticks.max(low);
        }
        if rule.op != Op::Ge {
            high = ticks.min(high);
        }
    }
    Some((low, high))
}

fn small_ticks(ticks: i64) -> u32 {
    u32::try_from(ticks).unwrap_or(NONE)
}

/// The least and the greatest lawful duration of an action in a state, in ticks; without an upper
/// end the least twice.
pub fn durations(task: &Task, state: &State, action: &Action) -> Option<(u32, u32)> {
    let scale = i64::from(task.scale);
    let (mut low, high) = limits(task, state, action)?;
    if action.duration {
        low = rounded_up(low, scale);
    }
    if low > high {
        return None;
    }
    let mut most = if high == i64::MAX { low } else { high };
    if action.duration {
        most = rounded_down(most, scale);
    }
    let least = small_ticks(low);
    Some((least, small_ticks(most).max(least)))
}

// The greatest of an action's durations from the least one on that ends by the limit, if one does.
fn cut(task: &Task, frame: Frame, action: &Action, (least, most): (u32, u32)) -> u32 {
    let room = frame.limit.saturating_sub(frame.tick);
    let room = if action.duration {
        small_ticks(rounded_down(i64::from(room), i64::from(task.scale)))
    } else {
        room
    };
    most.min(room).max(least)
}

/// The least lawful duration of an action in a state, 0 where there is none.
pub fn least_duration(task: &Task, state: &State, number: u32) -> u32 {
    let (Some(action), Some(event)) = (task.action(number), task.start_of(number)) else {
        return 0;
    };
    if !action.durative || !state.defined(task.list(event.ruled)) {
        return 0;
    }
    match durations(task, state, action) {
        Some((least, _)) => least,
        None => 0,
    }
}

// The durations that a start of an action may have in a state.
fn lengths(task: &Task, state: &State, action: &Action) -> Option<(u32, u32)> {
    let event = task.event(action.event)?;
    if !state.holds(task, &event.cond) || !state.defined(task.list(event.needs)) {
        return None;
    }
    if action.durative {
        durations(task, state, action)
    } else {
        Some((0, 0))
    }
}

fn add_choice(
    task: &Task,
    state: &State,
    frame: Frame,
    choice: Choice,
    found: &mut Vec<Choice>,
) -> Result<(), AllocError> {
    let Some(event) = task.start_of(choice.action) else {
        return Ok(());
    };
    if frame.limit.saturating_sub(frame.tick) >= choice.duration
        && frame.tick <= frame.limit
        && !state.undefined(task, event, units(choice.duration, task.scale))
    {
        found.push(choice)?;
    }
    Ok(())
}

// Adds the starts of an action with its least and its greatest duration.
fn add_choices(
    task: &Task,
    state: &State,
    frame: Frame,
    number: u32,
    found: &mut Vec<Choice>,
) -> Result<(), AllocError> {
    let Some(action) = task.action(number) else {
        return Ok(());
    };
    let Some((least, most)) = lengths(task, state, action) else {
        return Ok(());
    };
    let most = if frame.cut {
        cut(task, frame, action, (least, most))
    } else {
        most
    };
    let choice = Choice {
        action: number,
        duration: least,
    };
    add_choice(task, state, frame, choice, found)?;
    if most > least {
        let choice = Choice {
            action: number,
            duration: most,
        };
        add_choice(task, state, frame, choice, found)?;
    }
    Ok(())
}

// Adds the starts of some actions.
fn add_all(
    task: &Task,
    state: &State,
    frame: Frame,
    actions: &[u32],
    found: &mut Vec<Choice>,
) -> Result<(), AllocError> {
    for action in actions {
        add_choices(task, state, frame, *action, found)?;
    }
    Ok(())
}

// Adds the starts of the actions that wait for an atom of a word.
fn add_of_word(
    task: &Task,
    state: &State,
    frame: Frame,
    watched: &Watched,
    number: u32,
    found: &mut Vec<Choice>,
) -> Result<(), AllocError> {
    let mut bits = state.bits.get(number as usize).copied().unwrap_or(0);
    for _ in 0..64 {
        if bits == 0 {
            break;
        }
        let atom = number
            .saturating_mul(64)
            .saturating_add(bits.trailing_zeros());
        bits &= bits.wrapping_sub(1);
        add_all(task, state, frame, watched.lists.of(atom), found)?;
    }
    Ok(())
}

/// The starts that are possible in a state, by action and then duration.
pub fn find_choices(
    task: &Task,
    state: &State,
    frame: Frame,
    watched: &Watched,
    found: &mut Vec<Choice>,
) -> Result<(), AllocError> {
    found.clear();
    add_all(task, state, frame, &watched.always, found)?;
    for number in 0..task.changing_atoms.div_ceil(64) {
        add_of_word(task, state, frame, watched, number, found)?;
    }
    found.sort_unstable();
    Ok(())
}
