//! The steps of a plan, with their places.

use crate::world::World;
use std::alloc::{AllocError, Global};
use tp_text::{Scale, read_ticks};

/// A step: its action by number, its words in lower case, its ticks, and where its time, its
/// action's name and its duration stand.
#[derive(Drop)]
pub struct Step<'a> {
    pub action: usize,
    pub words: Vec<&'a str>,
    pub tick: u32,
    pub duration: u32,
    pub name_place: usize,
    pub duration_place: usize,
}

/// A word of a line, and where it begins.
#[derive(Clone, Copy)]
struct Word<'a> {
    text: &'a str,
    place: usize,
}

/// Whether a letter stands between words.
fn is_between(letter: char) -> bool {
    letter <= ' ' || matches!(letter, ':' | '(' | ')' | '[' | ']')
}

/// The words of a line up to its comment. `start` is where it begins in its text.
fn words_of<'a>(alloc: Global, line: &'a str, start: usize) -> Result<Vec<Word<'a>>, AllocError> {
    let mut words = Vec::new(alloc);
    let (line, _) = line.split_once(';').unwrap_or((line, ""));
    let mut place = 0usize;
    for word in line.split(is_between) {
        if !word.is_empty() {
            let place = start.saturating_add(place);
            words.push(Word { text: word, place })?;
        }
        place = place.saturating_add(word.len()).saturating_add(1);
    }
    Ok(words)
}

/// The step that the words of a line spell, if they spell one: its time, its action with as many
/// objects as that has parameters, and behind them its duration.
fn read_step<'a>(
    world: &World<'a>,
    words: &[Word<'a>],
    scale: Scale,
) -> Result<Option<Step<'a>>, AllocError> {
    let [time, name, ..] = words else {
        return Ok(None);
    };
    let found = world
        .actions
        .iter()
        .position(|action| action.name == name.text);
    let Some(number) = found else {
        return Ok(None);
    };
    let (count, lasts) = match world.actions.get(number) {
        Some(action) => (action.parameters.len().saturating_add(1), action.lasts),
        None => (1, false),
    };
    let mut own = Vec::new(world.alloc);
    for word in words.iter().skip(1).take(count) {
        own.push(word.text)?;
    }
    let mut duration = 0;
    let mut duration_place = name.place;
    if lasts {
        if let Some(last) = words.get(count.saturating_add(1)) {
            duration = read_ticks(last.text, scale).unwrap_or(0);
            duration_place = last.place;
        }
    }
    Ok(Some(Step {
        action: number,
        words: own,
        tick: read_ticks(time.text, scale).unwrap_or(0),
        duration,
        name_place: name.place,
        duration_place,
    }))
}

/// The steps of a plan in lower case.
pub(crate) fn read_steps<'a>(
    world: &World<'a>,
    text: &'a str,
    scale: Scale,
) -> Result<Vec<Step<'a>>, AllocError> {
    let mut steps = Vec::new(world.alloc);
    let mut start = 0usize;
    for line in text.split('\n') {
        let words = words_of(world.alloc, line, start)?;
        if let Some(step) = read_step(world, &words, scale)? {
            steps.push(step)?;
        }
        start = start.saturating_add(line.len()).saturating_add(1);
    }
    Ok(steps)
}
