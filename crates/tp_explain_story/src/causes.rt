//! What the events of a plan do, and the invariants of its steps.

use crate::events::{Event, Part};
use crate::interference::find_interference;
use crate::leaves::Moment;
use crate::mentions::{Mention, Scope};
use crate::story::Story;
use crate::texts::Deed;
use crate::values::WIDEST;
use std::alloc::AllocError;
use tp_explain_text::{Cut, Page, put};

/// A part of an invariant, as text, and what it mentions.
#[derive(Drop)]
struct Kept {
    text: String,
    mentions: Vec<Mention>,
}

/// What the events of a plan do, by number, and the invariants of its steps.
#[derive(Drop)]
pub struct Causes<'a> {
    parts: Vec<Part<'a>>,
    events: Vec<Event>,
    invariants: Vec<Vec<Kept>>,
}

/// The invariant of a step.
fn invariant_of(story: &Story<'_>, step: usize) -> Result<Vec<Kept>, AllocError> {
    let mut all = Vec::new(story.alloc());
    for leaf in &story.conditions(step, Moment::All)? {
        let text = story.text(leaf)?;
        let mentions = story.mentions(leaf, Scope::Bound)?;
        all.push(Kept { text, mentions })?;
    }
    Ok(all)
}

/// The invariants of all steps.
fn invariants_of(story: &Story<'_>) -> Result<Vec<Vec<Kept>>, AllocError> {
    let mut all = Vec::new(story.alloc());
    for step in 0..story.steps().len() {
        all.push(invariant_of(story, step)?)?;
    }
    Ok(all)
}

/// What all events do.
fn parts_of<'a>(story: &Story<'a>) -> Result<Vec<Part<'a>>, AllocError> {
    let mut parts = Vec::new(story.alloc());
    for event in story.events() {
        if let Some(part) = story.part(*event)? {
            parts.push(part)?;
        }
    }
    Ok(parts)
}

/// Whether an event writes what a part of an invariant mentions.
fn writes_into(part: &Part<'_>, kept: &Kept) -> bool {
    part.doings.iter().any(|doing| {
        let is_fluent = doing.verb.is_numeric();
        kept.mentions.iter().any(|mention| {
            mention.is_fluent == is_fluent && mention.name.as_str() == doing.name.as_str()
        })
    })
}

impl<'a> Causes<'a> {
    /// The causes of the bounds of a plan's network.
    pub fn new(story: &Story<'a>) -> Result<Causes<'a>, AllocError> {
        Ok(Causes {
            parts: parts_of(story)?,
            events: story.events().to_vec(story.alloc())?,
            invariants: invariants_of(story)?,
        })
    }

    /// The first part of a step's invariant into which one of two events writes.
    fn written(&self, step: usize, one: &Part<'a>, other: &Part<'a>) -> Option<&str> {
        let invariant = self.invariants.get(step)?;
        let kept = invariant.iter().find(|kept| writes_into(one, *kept)
            || writes_into(other, *kept))?;
        Some(kept.text.as_str())
    }

    /// Whether an event comes inside a step in the plan.
    fn is_inside(&self, step: usize, event: Event) -> bool {
        let mut is_behind = false;
        let mut is_before = false;
        for other in &self.events {
            if other.step == step && other.moment == Moment::Start {
                is_behind = other.tick < event.tick;
            }
            if other.step == step && other.moment == Moment::End {
                is_before = event.tick < other.tick;
            }
        }
        is_behind && is_before && event.step != step
    }

    /// The first step that has both events inside it, and into whose invariant one of them writes.
    fn around(&self, from: usize, to: usize) -> Option<(usize, &str)> {
        let one = self.parts.get(from)?;
        let other = self.parts.get(to)?;
        let a = *self.events.get(from)?;
        let b = *self.events.get(to)?;
        for step in 0..self.invariants.len() {
            if self.is_inside(step, a) && self.is_inside(step, b) {
                if let Some(text) = self.written(step, one, other) {
                    return Some((step, text));
                }
            }
        }
        None
    }

    /// What the invariant of an event's step wants into which another event writes. Where the event
    /// has the moment `inside`, the other one has to come inside the step.
    fn wanted_by(&self, own: usize, other: usize, inside: Moment) -> Option<(usize, &str)> {
        let event = *self.events.get(own)?;
        let writer = *self.events.get(other)?;
        if event.moment == inside && !self.is_inside(event.step, writer) {
            return None;
        }
        let part = self.parts.get(other)?;
        let text = self.written(event.step, part, part)?;
        Some((event.step, text))
    }

    /// The step whose invariant asks for the order of two events, and what it wants.
    fn wanted(&self, from: usize, to: usize) -> Option<(usize, &str)> {
        if let Some(found) = self.wanted_by(from, to, Moment::End) {
            return Some(found);
        }
        match self.wanted_by(to, from, Moment::Start) {
            Some(found) => Some(found),
            None => self.around(from, to),
        }
    }

    /// Puts over what two events interfere, the one of the lower number first.
    pub(crate) fn put_interference(
        &self,
        page: &mut Page,
        from: usize,
        to: usize,
    ) -> Result<(), AllocError> {
        let first = self.parts.get(from.min(to));
        let second = self.parts.get(from.max(to));
        let (Some(one), Some(other)) = (first, second) else {
            return Ok(());
        };
        if let Some(found) = find_interference(page.alloc(), one, other)? {
            put!(page; ", as they interfere over {}", found.name.as_str());
        }
        Ok(())
    }

    /// Puts which step's invariant asks for the order of two events.
    pub(crate) fn put_wanted(&self, page: &mut Page, story: &Story<'a>, from: usize, to: usize) {
        if let Some((step, text)) = self.wanted(from, to) {
            let text = Cut(text, WIDEST);
            put!(page; ", as step {step} {} wants (over all {text})", Deed(story, step));
        }
    }
}
