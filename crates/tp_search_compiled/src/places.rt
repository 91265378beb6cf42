//! The places of atoms and fluents: those that some event changes come first.

use crate::spans::{NONE, small};
use std::alloc::{AllocError, Global};
use tp_task::{Body, GroundEvent};

/// The place of each of some numbers, and how many of them change.
#[derive(Drop)]
pub struct Places {
    pub places: Vec<u32>,
    pub changing: u32,
}

impl Places {
    /// The place of a number, none where there is no such number.
    pub fn of(&self, number: u32) -> u32 {
        self.places.get(number as usize).copied().unwrap_or(NONE)
    }
}

fn places_of(alloc: Global, changes: &[bool]) -> Result<Places, AllocError> {
    let changing = small(changes.iter().filter(|c| **c).count());
    let mut places = Vec::with_capacity(alloc, changes.len())?;
    let mut low: u32 = 0;
    let mut high = changing;
    for changed in changes {
        if *changed {
            places.push(low)?;
            low = low.saturating_add(1);
        } else {
            places.push(high)?;
            high = high.saturating_add(1);
        }
    }
    Ok(Places { places, changing })
}

fn mark(marks: &mut [bool], number: u32) {
    if let Some(at) = marks.get_mut(number as usize) {
        *at = true;
    }
}

fn mark_event(atoms: &mut [bool], fluents: &mut [bool], event: &GroundEvent) {
    for a in &event.adds {
        mark(atoms, *a);
    }
    for a in &event.deletes {
        mark(atoms, *a);
    }
    for w in &event.writes {
        mark(fluents, w.fluent);
    }
}

fn mark_body(atoms: &mut [bool], fluents: &mut [bool], body: &Body) {
    match body {
        Body::Instant(only) => mark_event(atoms, fluents, only),
        Body::Durative(start, end, _) => {
            mark_event(atoms, fluents, start);
            mark_event(atoms, fluents, end);
        }
    }
}

/// The places of a task's atoms and of its fluents, of which the actions that are kept change some.
pub fn all_places(
    alloc: Global,
    task: &tp_task::Task,
    kept: &[bool],
) -> Result<(Places, Places), AllocError> {
    let mut atoms = Vec::from_elem(alloc, false, task.initial_atoms.len())?;
    let mut fluents = Vec::from_elem(alloc, false, task.initial_numbers.len())?;
    for (body, keep) in task.actions.iter().zip(kept) {
        if *keep {
            mark_body(atoms.as_mut_slice(), fluents.as_mut_slice(), body);
        }
    }
    let atoms = places_of(alloc, &atoms)?;
    let fluents = places_of(alloc, &fluents)?;
    Ok((atoms, fluents))
}
