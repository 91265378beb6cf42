//! The events of a plan.

use crate::actions::{action_named, is_durative};
use crate::steps::{Word, next_piece, read_step, text_of};
use std::alloc::{AllocError, Global};
use std::fmt;
use tp_explain_syntax::World;
use tp_explain_text::Lower;

/// An event of a plan: its number, what it is of its step, the number of that, and its words.
#[derive(Drop)]
pub struct Event<'p> {
    number: u64,
    part: &'static str,
    step: u64,
    words: Vec<Word<'p>>,
}

/// As `event 4, the start of step 2 (fire jug)`.
impl fmt::Display for Event<'_> {
    fn fmt<W: fmt::Write>(&self, f: &mut fmt::Formatter<W>) -> fmt::Result {
        write!(
            f,
            "event {}, {}step {} (",
            self.number, self.part, self.step
        )?;
        for (number, word) in self.words.iter().enumerate() {
            write!(
                f,
                "{}{}",
                if number == 0 { "" } else { " " },
                Lower(word.text)
            )?;
        }
        write!(f, ")")
    }
}

/// The events of a plan that were counted, and the one that was wanted.
#[derive(Drop)]
pub struct Events<'p> {
    pub count: u64,
    pub found: Option<Event<'p>>,
}

/// What an event is whose number is so many past that of the first event of its step.
fn part_of(lasts: bool, past: u64) -> &'static str {
    match (lasts, past) {
        (false, _) => "",
        (true, 0) => "the start of ",
        (true, _) => "the end of ",
    }
}

/// How many events a plan has, and the one of a number.
pub fn events_of<'p>(
    alloc: Global,
    world: &World<'_>,
    text: &'p [u8],
    wanted: u64,
) -> Result<Events<'p>, AllocError> {
    let mut count = 0u64;
    let mut number = 0u64;
    let mut found = None;
    for line in text.split(|byte| *byte == b'\n') {
        if next_piece(line, 0).is_none() {
            continue;
        }
        let Some(step) = read_step(alloc, line, 0)? else {
            continue;
        };
        let action = action_named(world, text_of(step.words.first()));
        let lasts = action.map_or(false, |action| is_durative(action));
        let many = if lasts { 2 } else { 1 };
        let past = wanted.saturating_sub(count);
        if count <= wanted && past < many {
            found = Some(Event {
                number: wanted,
                part: part_of(lasts, past),
                step: number,
                words: step.words,
            });
        }
        count = count.saturating_add(many);
        number = number.saturating_add(1);
    }
    Ok(Events { count, found })
}
