//! Durations that are not allowed, and what reads what has no value.

use crate::events::Event;
use crate::facts::Facts;
use crate::leaves::{Leaf, Moment};
use crate::mentions::{Mention, Scope};
use crate::story::Story;
use crate::texts::put_invalid;
use crate::values::{WIDEST, is_undefined, put_notes, put_values};
use std::alloc::AllocError;
use tp_explain_text::{Cut, Page, Units, put};

/// The most values that are told, and with a help behind them.
const MOST: usize = 3;

const MOST_BEFORE_HELP: usize = 2;

/// Whether a duration of so many ticks is as a constraint says. `value` is in units.
fn is_allowed(operator: &str, ticks: u32, scale: u32, value: i64) -> bool {
    let ticks = i128::from(ticks);
    let wanted = i128::from(value).saturating_mul(i128::from(scale));
    match operator {
        "<=" => ticks <= wanted,
        ">=" => ticks >= wanted,
        _ => ticks == wanted,
    }
}

/// The first constraint that a step's duration breaks, and its value.
fn broken<'a>(
    story: &Story<'a>,
    step: usize,
    ticks: u32,
    facts: &Facts,
) -> Result<Option<(Leaf<'a>, i64)>, AllocError> {
    for leaf in story.constraints(step)? {
        if let Some(value) = story.limit(&leaf, facts)? {
            if !is_allowed(leaf.head(), ticks, story.scale().ticks(), value) {
                return Ok(Some((leaf, value)));
            }
        }
    }
    Ok(None)
}

/// The ticks that a constraint asks for, where it asks for one number of them.
fn only_ticks(scale: u32, leaf: &Leaf<'_>, value: i64) -> Option<u64> {
    let ticks = u64::try_from(value).ok()?.checked_mul(u64::from(scale))?;
    if ticks == 0 || leaf.head() != "=" {
        None
    } else {
        Some(ticks)
    }
}

/// Puts the constraint that a duration breaks, and the values of what it mentions.
fn put_constraint<'a>(
    page: &mut Page,
    story: &Story<'a>,
    ticks: u32,
    leaf: &Leaf<'a>,
    value: i64,
    facts: &Facts,
) -> Result<(), AllocError> {
    let scale = story.scale().ticks();
    let text = story.text(leaf)?;
    put!(page; "{}note: it wants {}, which is {} {} {value}\n",
        story.texts().in_domain(leaf.place()), Cut(text.as_str(), WIDEST),
        Units(scale, u64::from(ticks)), leaf.head());
    match only_ticks(scale, leaf, value) {
        Some(wanted) => {
            put_values(page, story, leaf, facts, MOST_BEFORE_HELP)?;
            put!(page; "help: write `[{}]`\n", Units(scale, wanted));
            Ok(())
        }
        None => put_values(page, story, leaf, facts, MOST),
    }
}

/// Explains that a step may not last as long as it does.
pub(crate) fn tell_duration(
    page: &mut Page,
    story: &Story<'_>,
    step: usize,
    tick: u32,
) -> Result<(), AllocError> {
    let Some(it) = story.steps().get(step) else {
        return Ok(());
    };
    let (texts, place) = (story.texts(), it.duration_place);
    let ticks = texts.ticks(u64::from(it.duration));
    if it.duration == 0 {
        let why = "and a durative step lasts at least 1";
        put_invalid(
            page,
            texts,
            place,
            format_args!("step {step} lasts {ticks}, {why}"),
        );
        return Ok(());
    }
    let facts = story.facts(tick, false)?;
    let Some((leaf, value)) = broken(story, step, it.duration, &facts)? else {
        return Ok(());
    };
    let why = "which its duration constraint does not allow";
    put_invalid(
        page,
        texts,
        place,
        format_args!("step {step} lasts {ticks}, {why}"),
    );
    put_constraint(page, story, it.duration, &leaf, value, &facts)
}

/// Puts a part that reads what has no value, at its place, and the fluents in it that have none.
fn put_reading<'a>(
    page: &mut Page,
    story: &Story<'a>,
    leaf: &Leaf<'a>,
    mentions: &[Mention],
    facts: &Facts,
) -> Result<(), AllocError> {
    let text = story.text(leaf)?;
    let at = story.texts().in_domain(leaf.place());
    put!(page; "{at}note: it is {}\n", Cut(text.as_str(), WIDEST));
    let _more = put_notes(page, story, mentions, facts, MOST, true);
    Ok(())
}

/// Explains that a duration constraint reads a fluent without a value. Tells whether one does.
fn tell_constraint(
    page: &mut Page,
    story: &Story<'_>,
    event: Event,
    facts: &Facts,
) -> Result<bool, AllocError> {
    for leaf in &story.constraints(event.step)? {
        let mentions = story.mentions(leaf, Scope::Bound)?;
        if mentions.iter().any(|mention| is_undefined(mention, facts)) {
            let (step, tick) = (event.step, story.texts().moment(event.tick));
            let what = format_args!(
                "the duration constraint of step {step} reads a fluent without a value at {tick}"
            );
            put_invalid(page, story.texts(), story.duration_place(step), what);
            put_reading(page, story, leaf, &mentions, facts)?;
            return Ok(true);
        }
    }
    Ok(false)
}

/// Explains that an effect of an event, or its duration constraint, reads what has no value.
pub(crate) fn tell_undefined(
    page: &mut Page,
    story: &Story<'_>,
    event: Event,
) -> Result<(), AllocError> {
    let facts = story.facts(event.tick, false)?;
    if event.moment == Moment::Start && tell_constraint(page, story, event, &facts)? {
        return Ok(());
    }
    let (texts, step) = (story.texts(), event.step);
    let tick = texts.moment(event.tick);
    let is_whole = story.units(step).is_some();
    for doing in &story.doings(event)? {
        let reads = story.effect_reads(doing)?;
        if reads.iter().any(|mention| is_undefined(mention, &facts)) {
            let what = format_args!(
                "an effect of {event} reads a fluent without a value at {tick}"
            );
            put_invalid(page, texts, story.step_place(step), what);
            return put_reading(page, story, &doing.leaf, &reads, &facts);
        }
        if !is_whole && story.text(&doing.leaf)?.as_bytes().contains(&b'?') {
            let what = format_args!(
                "an effect of {event} reads ?duration at {tick}, and step {step} does not last whole units"
            );
            put_invalid(page, texts, story.duration_place(step), what);
            return put_reading(page, story, &doing.leaf, &[], &facts);
        }
    }
    Ok(())
}
