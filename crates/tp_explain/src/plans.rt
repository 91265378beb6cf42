//! The answers of the searches for a plan.

use crate::executives::plan_words;
use crate::goals::{put_unmet, unmet_goal};
use std::alloc::{AllocError, Global};
use tp_cli_files::Files;
use tp_cli_plan::{inputs_in, joined_task, reached_task};
use tp_explain_faults::{Call, ReadText, read_text, text_of};
use tp_explain_syntax::section_of;
use tp_explain_text::{Moment, Page, put};
use tp_task::{Task, reach};

fn put_horizon(page: &mut Page, call: &Call<'_>) {
    let moment = Moment(call.scale.ticks(), u64::from(call.horizon));
    put!(page; "note: each step ends by the horizon, {moment}\n");
}

/// Puts that the budget of a search is spent.
pub fn put_spent(page: &mut Page, call: &Call<'_>, count: &str) {
    let nodes = if count == "1" {
        "node was"
    } else {
        "nodes were"
    };
    put!(page; "{}: no plan: {count} {nodes} expanded, as many as the budget allows\n",
        call.problem);
    put_horizon(page, call);
    page.put(if call.command == "solve" {
        "help: `--budget B`, at most 1000000000\n"
    } else {
        "help: `--budget B`, at most 1000000\n"
    });
}

/// Puts that no node is left to expand.
pub fn put_exhausted(page: &mut Page, call: &Call<'_>) {
    put!(page; "{}: no plan: no node is left to expand\n", call.problem);
    page.put("note: each step was given its least lawful duration, ");
    page.put("so a plan with longer steps may exist\n");
    put_horizon(page, call);
}

/// The task that a call searches: with the actions in reach, or of `solve` with those of use.
fn task_of<N: Files>(alloc: Global, files: &mut N, call: &Call<'_>) -> Option<Task> {
    let words = plan_words(call)?;
    let inputs = inputs_in(alloc, files, words).ok()?;
    if call.command == "solve" {
        match joined_task(alloc, words, &inputs) {
            Some(joined) if joined.is_whole => return Some(joined.task),
            _ => {}
        }
    }
    reached_task(alloc, words, &inputs).ok()
}

/// Puts which conjunct of the goal of a problem is out of reach.
fn put_goal(
    page: &mut Page,
    problem: &ReadText,
    task: &Task,
    atoms: &[bool],
) -> Result<(), AllocError> {
    let text = text_of(problem);
    match section_of(&text, ":goal").first() {
        Some(goal) => {
            let unmet = unmet_goal(goal, &task.goal, atoms);
            put_unmet(page, text.source, task, &unmet)
        }
        None => Ok(()),
    }
}

/// Puts which conjunct of the goal is out of reach.
pub fn put_unreachable<N: Files>(
    page: &mut Page,
    files: &mut N,
    call: &Call<'_>,
) -> Result<(), AllocError> {
    let Some(task) = task_of(page.alloc(), files, call) else {
        return Ok(());
    };
    let atoms = reach(page.alloc(), &task)?;
    match read_text(page.alloc(), files, call.problem) {
        Some(problem) => put_goal(page, &problem, &task, atoms.as_slice()),
        None => Ok(()),
    }
}
