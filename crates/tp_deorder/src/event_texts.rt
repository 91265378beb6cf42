//! The texts of a plan's events.

ghost use Rattle.std.specs.Prelude.{◌≡◌, List, ◌∷◌, [], ◌++◌, map, codes, IfOk, OnOk, slice_get, option_map, string_bytes};
ghost use Rattle.tp_task.specs.Tables.{words_at};
ghost use Rattle.tp_deorder.specs.EventTexts as spec;
ghost use Rattle.tp_deorder.specs.EventTexts.{event_lines, event_line, step_lines};

use std::alloc::{AllocError, Global};
use tp_happen::Step;
use tp_task::{ActionId, Body, Task};

/// A word, the number of a step, and its action.
fn event_text(
    alloc: Global,
    task: &Task,
    word: &str,
    k: usize,
    action: ActionId,
) -> Result<String, AllocError>
    ensures { IfOk result (λ s. string_bytes s
        ≡ event_line (word.now ++ codes " ") k (words_at task.now.numbering.actions action.0)) }
{
    let name = task.action_text(action)?;
    format!(in alloc; "{word} {k} {name}")
}

/// Adds the text of an event to others.
fn put_text(
    alloc: Global,
    texts: &mut Vec<String>,
    task: &Task,
    word: &str,
    k: usize,
    action: ActionId,
) -> Result<(), AllocError>
    ensures { OnOk result
        (map string_bytes texts.new.items ≡ map string_bytes texts.old.items ++ (event_line
        (word.now ++ codes " ") k (words_at task.now.numbering.actions action.0) ∷ [])) }
{
    texts.push(event_text(alloc, task, word, k, action)?)?;
    Ok(())
}

/// Whether an action of a task has a start and an end.
pub fn has_two(task: &Task, action: ActionId) -> Option<bool>
    ensures { result ≡ option_map spec.has_two (slice_get task.now.actions.items action.0) }
{
    let body = task.actions.get(action.0 as usize)?;
    Some(matches!(body, Body::Durative(_, _, _)))
}

/// Adds the texts of the events of a step, by its number.
fn put_step(
    alloc: Global,
    texts: &mut Vec<String>,
    task: &Task,
    k: usize,
    action: ActionId,
) -> Result<(), AllocError>
    ensures { OnOk result (map string_bytes texts.new.items ≡ map string_bytes texts.old.items
        ++ step_lines k (words_at task.now.numbering.actions action.0)
        (option_map spec.has_two (slice_get task.now.actions.items action.0))) }
{
    match has_two(task, action) {
        None => Ok(()),
        Some(false) => put_text(alloc, texts, task, "at", k, action),
        Some(true) => {
            put_text(alloc, texts, task, "start", k, action)?;
            put_text(alloc, texts, task, "end", k, action)
        }
    }
}

/// The texts of the events of steps of a task.
pub fn event_texts(alloc: Global, task: &Task, steps: &[Step]) -> Result<Vec<String>, AllocError>
    ensures { IfOk result (λ v. map string_bytes v.items ≡ event_lines task.now steps.now) }
{
    let mut texts = Vec::new(alloc);
    for (k, step) in steps.iter().enumerate() {
        put_step(alloc, &mut texts, task, k, step.action)?;
    }
    Ok(texts)
}
