//! Conditions, invariants and goals that do not hold.

use crate::events::Event;
use crate::facts::Facts;
use crate::leaves::{Leaf, Moment};
use crate::story::Story;
use crate::texts::put_invalid;
use crate::values::{put_values, put_wanted};
use std::alloc::AllocError;
use tp_explain_text::{At, Page, put, put_mark};

/// The most values that are told.
const MOST: usize = 3;

/// The first part that does not hold.
fn failing<'a>(
    story: &Story<'a>,
    leaves: Vec<Leaf<'a>>,
    facts: &Facts,
) -> Result<Option<Leaf<'a>>, AllocError> {
    for leaf in leaves {
        if story.truth(&leaf, facts)? != Some(true) {
            return Ok(Some(leaf));
        }
    }
    Ok(None)
}

/// Puts what a part of a step wants, and the values of what it mentions.
fn put_part<'a>(
    page: &mut Page,
    story: &Story<'a>,
    leaf: &Leaf<'a>,
    event: Event,
    facts: &Facts,
) -> Result<(), AllocError> {
    page.put(story.texts().in_domain(leaf.place()));
    let own = story.own_bindings(event.step);
    put_wanted(page, story, leaf, event.moment, own, facts)?;
    put_values(page, story, leaf, facts, MOST)
}

/// Explains that the condition of an event does not hold.
pub(crate) fn tell_condition(
    page: &mut Page,
    story: &Story<'_>,
    event: Event,
) -> Result<(), AllocError> {
    let facts = story.facts(event.tick, false)?;
    let leaves = story.conditions(event.step, event.moment)?;
    let Some(leaf) = failing(story, leaves, &facts)? else {
        return Ok(());
    };
    let tick = story.texts().moment(event.tick);
    let text = format_args!("the condition of {event} does not hold at {tick}");
    put_invalid(page, story.texts(), story.step_place(event.step), text);
    put_part(page, story, &leaf, event, &facts)
}

/// Explains that the invariant of a step does not hold after a tick.
pub(crate) fn tell_invariant(
    page: &mut Page,
    story: &Story<'_>,
    step: usize,
    tick: u32,
) -> Result<(), AllocError> {
    let facts = story.facts(tick, true)?;
    let moment = Moment::All;
    let Some(leaf) = failing(story, story.conditions(step, moment)?, &facts)? else {
        return Ok(());
    };
    let after = story.texts().moment(tick);
    let text = format_args!("the invariant of step {step} does not hold after {after}");
    put_invalid(page, story.texts(), story.step_place(step), text);
    put_part(page, story, &leaf, Event { step, moment, tick }, &facts)
}

/// Explains that the goal does not hold after the last tick.
pub(crate) fn tell_goal(page: &mut Page, story: &Story<'_>, tick: u32) -> Result<(), AllocError> {
    let facts = story.facts(tick, true)?;
    let Some(leaf) = failing(story, story.goals()?, &facts)? else {
        return Ok(());
    };
    let texts = story.texts();
    put!(page; "{}invalid: the goal does not hold ", At(texts.problem, leaf.place()));
    if story.steps().is_empty() {
        page.put("in the first state\n");
    } else {
        put!(page; "at the end, after {}\n", texts.moment(tick));
    }
    put_mark(page, texts.problem, leaf.place());
    put_wanted(page, story, &leaf, Moment::Only, 0, &facts)?;
    put_values(page, story, &leaf, &facts, MOST)
}
