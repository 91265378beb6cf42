//! What is wrong with the time and the duration of a step.

use crate::actions::{action_named, is_durative};
use crate::steps::{StepLine, Word};
use tp_explain_syntax::World;
use tp_explain_text::{Moment, Page, Source, Units, error_at, put};
use tp_text::{Scale, read_ticks};

/// The duration of a step of a durative action. That of another step is not looked at.
fn duration_of<'l>(world: &World<'_>, step: &StepLine<'l>) -> Option<Word<'l>> {
    let name = step.words.first()?;
    let action = action_named(world, name.text)?;
    if is_durative(action) {
        step.duration
    } else {
        None
    }
}

/// Puts that a step of a durative action has no duration.
pub fn put_no_duration(page: &mut Page, plan: Source<'_>, step: &StepLine<'_>) {
    if let Some(name) = step.words.first() {
        error_at!(page, plan, name.at; "`{}` is a durative action, and the step has no duration",
            name.text);
        page.put("help: write `[DURATION]` behind it, in units of time\n");
    }
}

/// The least scale that is greater and under which a time is so many ticks.
fn better_scale(word: &str, scale: Scale) -> Option<Scale> {
    for greater in [Scale::Ten, Scale::Hundred, Scale::Thousand] {
        if greater.ticks() > scale.ticks() && read_ticks(word, greater).is_some() {
            return Some(greater);
        }
    }
    None
}

/// Whether a time is too great, and not of a part of a tick.
fn is_too_great(word: &str, scale: Scale) -> bool {
    let decimals = match word.split_once('.') {
        Some((_, behind)) => behind.trim_end_matches('0').len(),
        None => 0,
    };
    match scale {
        Scale::One => decimals == 0,
        Scale::Ten => decimals <= 1,
        Scale::Hundred => decimals <= 2,
        Scale::Thousand => decimals <= 3,
    }
}

/// Puts that a time is no whole number of ticks.
fn put_no_ticks(page: &mut Page, plan: Source<'_>, word: &Word<'_>, scale: Scale) {
    let (text, ticks) = (word.text, scale.ticks());
    if is_too_great(text, scale) {
        error_at!(page, plan, word.at;
            "{text} is past 4294967295 ticks, the most that a time may have");
        return;
    }
    error_at!(page, plan, word.at; "{text} is no whole number of ticks under `--scale {ticks}`");
    match better_scale(text, scale) {
        Some(Scale::Thousand) => page.put("help: `--scale 1000`\n"),
        Some(better) => put!(page; "help: `--scale {}`, or a greater one\n", better.ticks()),
        None => page.put("note: 1000 ticks a unit is the greatest scale\n"),
    }
}

/// Puts which time of a step is no whole number of ticks.
pub fn put_not_ticks(
    page: &mut Page,
    world: &World<'_>,
    plan: Source<'_>,
    step: &StepLine<'_>,
    scale: Scale,
) {
    if read_ticks(step.time.text, scale).is_none() {
        put_no_ticks(page, plan, &step.time, scale);
        return;
    }
    if let Some(duration) = duration_of(world, step) {
        put_no_ticks(page, plan, &duration, scale);
    }
}

/// The greatest horizon.
const GREATEST_HORIZON: u64 = 1_000_000_000;

/// Puts that a step ends past the horizon.
pub fn put_horizon(
    page: &mut Page,
    world: &World<'_>,
    plan: Source<'_>,
    step: &StepLine<'_>,
    scale: Scale,
    horizon: u32,
) {
    let duration = duration_of(world, step);
    let lasts = duration
        .and_then(|word| read_ticks(word.text, scale))
        .unwrap_or(0);
    let begins = read_ticks(step.time.text, scale).unwrap_or(0);
    let end = u64::from(begins).saturating_add(u64::from(lasts));
    let at = duration.map_or(step.time.at, |word| word.at);
    let ticks = scale.ticks();
    let moment = Moment(ticks, end);
    if ticks > 1 {
        error_at!(page, plan, at; "the step ends at {moment}, past the horizon {horizon} ({})",
            Units(ticks, u64::from(horizon)));
        put!(page; "note: the horizon is in ticks, and a unit has {ticks} of them");
        put!(page; " under `--scale {ticks}`\n");
    } else {
        error_at!(page, plan, at; "the step ends at {moment}, past the horizon {horizon}");
    }
    if end < GREATEST_HORIZON {
        put!(page; "help: `--horizon {end}`, or a greater one\n");
    } else if end == GREATEST_HORIZON {
        put!(page; "help: `--horizon {end}`\n");
    } else {
        page.put("note: 1000000000 is the greatest horizon\n");
    }
}
