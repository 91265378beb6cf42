//! For each atom that changes the actions that wait for it.

use crate::lists::{Lists, lists_of};
use crate::spans::{NONE, small};
use crate::state::State;
use crate::task::Task;
use std::alloc::{AllocError, Global};

/// The actions that may start, each under the atom that is needed least often of those that it
/// needs and that some event changes, and those that need no such atom.
#[derive(Drop)]
pub struct Watched {
    pub lists: Lists,
    pub always: Vec<u32>,
}

// The atoms that the start of an action needs.
fn needs_of(task: &Task, action: u32) -> &[u32] {
    match task.start_of(action) {
        Some(event) => task.list(event.cond.wanted),
        None => &[],
    }
}

fn is_live(live: &[bool], action: u32) -> bool {
    live.get(action as usize).copied().unwrap_or(false)
}

fn raise(counts: &mut [u32], numbers: &[u32]) {
    for number in numbers {
        if let Some(count) = counts.get_mut(*number as usize) {
            *count = count.saturating_add(1);
        }
    }
}

// How many live actions need each atom that changes.
fn users_of(alloc: Global, task: &Task, live: &[bool]) -> Result<Vec<u32>, AllocError> {
    let mut users = Vec::from_elem(alloc, 0u32, task.changing_atoms as usize)?;
    for action in 0..small(task.actions.len()) {
        if is_live(live, action) {
            raise(users.as_mut_slice(), needs_of(task, action));
        }
    }
    Ok(users)
}

// Whether a start may happen as far as what never changes says.
fn may_start(task: &Task, start: &State, action: u32) -> bool {
    match task.start_of(action) {
        Some(event) => {
            !event.clash
                && task
                    .list(event.cond.wanted)
                    .iter()
                    .all(|a| *a < task.changing_atoms || start.has(*a))
        }
        None => false,
    }
}

// Of some atoms the one that changes and that has the fewest users, none where none changes.
fn rarest(users: &[u32], atoms: &[u32]) -> u32 {
    let mut least = u32::MAX;
    let mut found = NONE;
    for atom in atoms {
        if let Some(count) = users.get(*atom as usize) {
            if *count < least {
                least = *count;
                found = *atom;
            }
        }
    }
    found
}

impl Watched {
    /// The actions that wait for atoms, of those that are live, in a task that begins in a state.
    pub fn new(
        alloc: Global,
        task: &Task,
        start: &State,
        live: &[bool],
    ) -> Result<Watched, AllocError> {
        let users = users_of(alloc, task, live)?;
        let mut pairs = Vec::new(alloc);
        let mut always = Vec::new(alloc);
        for action in 0..small(task.actions.len()) {
            if is_live(live, action) && may_start(task, start, action) {
                let atom = rarest(&users, needs_of(task, action));
                if atom == NONE {
                    always.push(action)?;
                } else {
                    pairs.push((atom, action))?;
                }
            }
        }
        let lists = lists_of(alloc, task.changing_atoms as usize, &pairs)?;
        Ok(Watched { lists, always })
    }
}
