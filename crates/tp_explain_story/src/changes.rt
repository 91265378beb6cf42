//! Effects that clash, and events that interfere.

use crate::events::{Doing, Event, Verb};
use crate::interference::{Other, find_interference};
use crate::story::Story;
use crate::texts::{Deed, put_invalid};
use crate::values::WIDEST;
use std::alloc::AllocError;
use tp_explain_text::{Cut, Page, put};

/// Whether two effects of an event clash.
fn clashes(one: &Doing<'_>, other: &Doing<'_>) -> bool {
    let is_same = one.name.as_str() == other.name.as_str();
    let is_numeric = one.verb.is_numeric() && other.verb.is_numeric();
    is_same && is_numeric && (one.verb.is_absolute() || other.verb.is_absolute())
}

/// The first two effects that clash.
fn clashing<'d, 'a>(doings: &'d [Doing<'a>]) -> Option<(&'d Doing<'a>, &'d Doing<'a>)> {
    for (at, one) in doings.iter().enumerate() {
        for other in doings.iter().skip(at.saturating_add(1)) {
            if clashes(one, other) {
                return Some((one, other));
            }
        }
    }
    None
}

/// Puts an effect at its place.
fn put_effect<'a>(
    page: &mut Page,
    story: &Story<'a>,
    words: &str,
    doing: &Doing<'a>,
) -> Result<(), AllocError> {
    let text = story.text(&doing.leaf)?;
    let at = story.texts().in_domain(doing.leaf.place());
    put!(page; "{at}note: {words} {}\n", Cut(text.as_str(), WIDEST));
    Ok(())
}

/// Explains that an event changes a fluent twice.
pub(crate) fn tell_clash(
    page: &mut Page,
    story: &Story<'_>,
    event: Event,
) -> Result<(), AllocError> {
    let doings = story.doings(event)?;
    let Some((one, other)) = clashing(&doings) else {
        return Ok(());
    };
    let texts = story.texts();
    let (name, tick) = (one.name.as_str(), texts.moment(event.tick));
    let what = format_args!(
        "{event} changes {name} twice at {tick}, and not by increases and decreases alone"
    );
    put_invalid(page, texts, story.step_place(event.step), what);
    put_effect(page, story, "one effect is", one)?;
    put_effect(page, story, "another is", other)
}

/// What an effect does, in the third person.
fn does(verb: Verb) -> &'static str {
    match verb {
        Verb::Adds => "adds",
        Verb::Deletes => "deletes",
        Verb::Assigns => "assigns",
        Verb::Increases => "increases",
        Verb::Decreases => "decreases",
        Verb::Scales => "scales up",
    }
}

/// What an event that is interfered with does.
fn does_or_wants(other: Other) -> &'static str {
    match other {
        Other::Wants => "wants",
        Other::Reads => "reads",
        Other::Does(verb) => does(verb),
    }
}

/// Explains that two events interfere.
pub(crate) fn tell_interference(
    page: &mut Page,
    story: &Story<'_>,
    one: Event,
    other: Event,
) -> Result<(), AllocError> {
    let (Some(a), Some(b)) = (story.part(one)?, story.part(other)?) else {
        return Ok(());
    };
    let Some(found) = find_interference(story.alloc(), &a, &b)? else {
        return Ok(());
    };
    let (texts, name) = (story.texts(), found.name.as_str());
    let tick = texts.moment(one.tick);
    let what = format_args!("{one} and {other} interfere at {tick}");
    put_invalid(page, texts, story.step_place(one.step), what);
    let step = other.step;
    put!(page; "{}note: step {step} is {}\n", texts.in_plan(story.step_place(step)),
        Deed(story, step));
    let (doer, reader) = if found.first_does {
        (one, other)
    } else {
        (other, one)
    };
    put!(page; "{}note: {doer} {} {name}\n", texts.in_domain(found.place), does(found.verb));
    let deed = does_or_wants(found.other);
    put!(page; "{}note: {reader} {deed} {name}\n", texts.in_domain(found.other_place));
    put!(page; "help: put at least {} between them\n", texts.ticks(1));
    Ok(())
}
