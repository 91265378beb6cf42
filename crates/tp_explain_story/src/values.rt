//! What a condition wants, and the values of what it mentions.

use crate::events::Verb;
use crate::facts::{Fact, Facts, Origin};
use crate::leaves::{Leaf, Moment};
use crate::mentions::{Mention, Scope};
use crate::story::Story;
use crate::texts::Deed;
use crate::typed::Binding;
use std::alloc::AllocError;
use std::fmt;
use tp_explain_text::{At, Count, Cut, Page, put};

/// The most characters of a condition that are shown.
pub(crate) const WIDEST: usize = 100;

/// A condition with the moment at which it is wanted round it.
fn condition_text<'a>(
    story: &Story<'a>,
    leaf: &Leaf<'a>,
    moment: Moment,
) -> Result<String, AllocError> {
    let text = story.text(leaf)?;
    let before = match moment {
        Moment::Start => "at start",
        Moment::All => "over all",
        Moment::End => "at end",
        Moment::Only => return Ok(text),
    };
    format!(in story.alloc(); "({before} {text})")
}

/// Puts what a variable stands for, the first of them or one more.
fn put_binding(page: &mut Page, is_first: bool, binding: &Binding<'_>) {
    let before = if is_first { ", with " } else { ", " };
    put!(page; "{before}{} = {}", binding.variable, binding.object);
}

/// Puts what a condition of a step wants that does not hold. `own` is how many of its bindings are
/// those of the step.
pub(crate) fn put_wanted<'a>(
    page: &mut Page,
    story: &Story<'a>,
    leaf: &Leaf<'a>,
    moment: Moment,
    own: usize,
    facts: &Facts,
) -> Result<(), AllocError> {
    let text = condition_text(story, leaf, moment)?;
    put!(page; "note: it wants {}", Cut(text.as_str(), WIDEST));
    if let Some((a, b)) = story.compared(leaf, facts)? {
        put!(page; ", which is {a} {} {b}", leaf.head());
    }
    for (place, binding) in leaf.bindings.iter().skip(own).enumerate() {
        put_binding(page, place == 0, binding);
    }
    page.put("\n");
    Ok(())
}

/// An atom or a fluent, with its value.
#[derive(Clone, Copy)]
struct Valued<'m>(&'m Mention, i64);

impl fmt::Display for Valued<'_> {
    fn fmt<W: fmt::Write>(&self, f: &mut fmt::Formatter<W>) -> fmt::Result {
        let Valued(mention, value) = *self;
        let name = mention.name.as_str();
        if mention.is_fluent {
            write!(f, "{name} = {value}")
        } else {
            write!(f, "{name} is {}", value != 0)
        }
    }
}

/// Puts the value of an atom or a fluent, and who wrote it last.
fn put_fact(page: &mut Page, story: &Story<'_>, mention: &Mention, fact: Fact) {
    let texts = story.texts();
    let valued = Valued(mention, fact.value);
    match fact.origin {
        Origin::Init(place) => {
            put!(page; "{}note: {valued}, as in :init\n", At(texts.problem, place));
        }
        Origin::Event(number, verb) => {
            let Some(event) = story.events().get(number) else {
                return;
            };
            let done = match verb {
                Verb::Adds => "added",
                Verb::Deletes => "deleted",
                _ => "changed",
            };
            put!(page; "{}note: {valued}, last {done} by {event} {} at {}\n",
                texts.in_plan(story.step_place(event.step)), Deed(story, event.step),
                texts.moment(event.tick));
        }
    }
}

/// What is known of an atom or a fluent.
fn fact_of(facts: &Facts, mention: &Mention) -> Option<Fact> {
    if mention.is_fluent {
        facts.fluent(mention.name.as_str())
    } else {
        facts.atom(mention.name.as_str())
    }
}

/// Puts a note on a mention: its value and where that is from.
fn put_note(page: &mut Page, story: &Story<'_>, mention: &Mention, facts: &Facts) {
    let name = mention.name.as_str();
    match fact_of(facts, mention) {
        Some(fact) => put_fact(page, story, mention, fact),
        None if mention.is_fluent => {
            put!(page; "note: {name} has no value, as :init gives none\n");
        }
        None => put!(page; "note: {name} is false, as :init does not list it\n"),
    }
}

/// Whether a mention is that of one before it.
fn is_again(mentions: &[Mention], at: usize, mention: &Mention) -> bool {
    mentions.iter().take(at).any(|other| {
        other.is_fluent == mention.is_fluent && other.name.as_str() == mention.name.as_str()
    })
}

/// Whether a fluent that is mentioned has no value.
pub(crate) fn is_undefined(mention: &Mention, facts: &Facts) -> bool {
    mention.is_fluent && facts.fluent(mention.name.as_str()).is_none()
}

/// Puts notes on mentions, or on those of them that are fluents without a value, each once, at most
/// so many. Answers how many more there are.
pub(crate) fn put_notes(
    page: &mut Page,
    story: &Story<'_>,
    mentions: &[Mention],
    facts: &Facts,
    most: usize,
    undefined: bool,
) -> u64 {
    let mut count = 0usize;
    for (at, mention) in mentions.iter().enumerate() {
        if is_again(mentions, at, mention) || (undefined && !is_undefined(mention, facts)) {
            continue;
        }
        if count < most {
            put_note(page, story, mention, facts);
        }
        count = count.saturating_add(1);
    }
    count.saturating_sub(most) as u64
}

/// Puts the values of what a condition or a constraint mentions without a variable, at most so
/// many.
pub(crate) fn put_values<'a>(
    page: &mut Page,
    story: &Story<'a>,
    leaf: &Leaf<'a>,
    facts: &Facts,
    most: usize,
) -> Result<(), AllocError> {
    let mentions = story.mentions(leaf, Scope::Free)?;
    let more = put_notes(page, story, &mentions, facts, most, false);
    if more > 0 {
        put!(page; "note: {} in it\n",
            Count(more, "more atom or fluent stands", "more atoms and fluents stand"));
    }
    Ok(())
}
