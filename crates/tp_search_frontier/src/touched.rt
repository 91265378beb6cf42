//! The conjuncts of the goal that an action may change.

use std::alloc::{AllocError, Global};
use tp_search_compiled::{Event, Lists, Task, lists_of, small};

/// For each atom and for each fluent the conjuncts that mention it.
#[derive(Drop)]
struct Mentions {
    atoms: Lists,
    fluents: Lists,
}

fn push_pairs(
    pairs: &mut Vec<(u32, u32)>,
    mentioned: &[u32],
    number: u32,
) -> Result<(), AllocError> {
    for what in mentioned {
        pairs.push((*what, number))?;
    }
    Ok(())
}

fn mentions_of(alloc: Global, task: &Task) -> Result<Mentions, AllocError> {
    let mut atoms = Vec::new(alloc);
    let mut fluents = Vec::new(alloc);
    let mut number: u32 = 0;
    for form in &task.conjuncts {
        push_pairs(&mut atoms, task.list(form.mentioned), number)?;
        push_pairs(&mut fluents, task.list(form.fluents), number)?;
        number = number.saturating_add(1);
    }
    Ok(Mentions {
        atoms: lists_of(alloc, task.atoms as usize, &atoms)?,
        fluents: lists_of(alloc, task.fluents as usize, &fluents)?,
    })
}

fn push_all(lists: &Lists, numbers: &[u32], into: &mut Vec<u32>) -> Result<(), AllocError> {
    for number in numbers {
        into.extend_from_slice(lists.of(*number))?;
    }
    Ok(())
}

// The conjuncts that mention what an event changes.
fn push_touched(
    mentions: &Mentions,
    task: &Task,
    event: &Event,
    into: &mut Vec<u32>,
) -> Result<(), AllocError> {
    push_all(&mentions.atoms, task.list(event.adds), into)?;
    push_all(&mentions.atoms, task.list(event.dels), into)?;
    for to in task.writes_of(event) {
        into.extend_from_slice(mentions.fluents.of(to.fluent))?;
    }
    Ok(())
}

/// For each action the conjuncts of the goal, by number, that its only event or its start may
/// change.
pub fn touched_by(alloc: Global, task: &Task) -> Result<Lists, AllocError> {
    let mentions = mentions_of(alloc, task)?;
    let mut lists = Lists::new(alloc);
    let mut found = Vec::new(alloc);
    for action in 0..small(task.actions.len()) {
        found.clear();
        if let Some(event) = task.start_of(action) {
            push_touched(&mentions, task, event, &mut found)?;
        }
        found.sort_unstable();
        found.dedup();
        lists.push(&found)?;
    }
    Ok(lists)
}
