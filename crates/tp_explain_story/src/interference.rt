//! Why two events interfere.

use crate::events::{Doing, Part, Verb};
use crate::mentions::Mention;
use std::alloc::{AllocError, Global};

/// What an event does or wants that another one interferes with.
#[derive(Clone, Copy, Debug, PartialEq, Eq)]
pub enum Other {
    Wants,
    Reads,
    Does(Verb),
}

/// That one event does something to an atom or a fluent, and the other one wants, reads or changes
/// it.
#[derive(Drop)]
pub struct Interference {
    /// Whether the first of the two is the one that does it.
    pub first_does: bool,
    pub verb: Verb,
    pub name: String,
    pub place: usize,
    pub other: Other,
    pub other_place: usize,
}

/// Where a name is mentioned.
fn mentioned(mentions: &[Mention], name: &str, is_fluent: bool) -> Option<usize> {
    let found = mentions.iter().find(|mention| mention.is_fluent == is_fluent
        && mention.name.as_str() == name);
    Some(found?.place)
}

/// Whether two effects on the same atom or fluent interfere.
fn disagree(one: Verb, other: Verb) -> bool {
    match one {
        Verb::Adds => other == Verb::Deletes,
        Verb::Deletes => false,
        _ => one.is_absolute() && other.is_numeric(),
    }
}

/// What an effect interferes with in an event, and where that stands.
fn against(doing: &Doing, event: &Part) -> Option<(Other, usize)> {
    let name = doing.name.as_str();
    let is_fluent = doing.verb.is_numeric();
    if let Some(place) = mentioned(&event.wants, name, is_fluent) {
        return Some((Other::Wants, place));
    }
    if is_fluent {
        if let Some(place) = mentioned(&event.reads, name, true) {
            return Some((Other::Reads, place));
        }
    }
    let found = event.doings.iter().find(|other| disagree(doing.verb, other.verb)
        && other.name.as_str() == name)?;
    Some((Other::Does(found.verb), found.leaf.place()))
}

/// The first effect of one event that interferes with another event.
fn by_first(
    alloc: Global,
    one: &Part,
    other: &Part,
    first_does: bool,
) -> Result<Option<Interference>, AllocError> {
    for doing in &one.doings {
        if let Some((what, place)) = against(doing, other) {
            return Ok(Some(Interference {
                first_does,
                verb: doing.verb,
                name: String::from_str(alloc, doing.name.as_str())?,
                place: doing.leaf.place(),
                other: what,
                other_place: place,
            }));
        }
    }
    Ok(None)
}

/// Why two events interfere, if they do: the first effect of the one, or else of the other.
pub fn find_interference(
    alloc: Global,
    one: &Part,
    other: &Part,
) -> Result<Option<Interference>, AllocError> {
    match by_first(alloc, one, other, true)? {
        Some(found) => Ok(Some(found)),
        None => by_first(alloc, other, one, false),
    }
}
