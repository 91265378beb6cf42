//! Faults of tasks, plans, lags and the agents of events.

use crate::actions::put_no_action;
use crate::contents::bytes_of;
use crate::events::events_of;
use crate::fault_lines::{Line, number_of};
use crate::lines::{put_line, put_too_many_steps};
use crate::owners::put_owner;
use crate::scripts::put_lags;
use crate::steps::{StepLine, line_of, read_step};
use crate::tasks::{put_range, put_too_many};
use crate::times::{put_horizon, put_no_duration, put_not_ticks};
use std::alloc::AllocError;
use tp_cli_files::Files;
use tp_explain_syntax::World;
use tp_explain_text::{Page, Source};

/// Puts what is wrong with a step.
fn put_step(
    page: &mut Page,
    world: &World<'_>,
    plan: Source<'_>,
    step: &StepLine<'_>,
    line: &Line<'_>,
) -> Result<(), AllocError> {
    let call = &line.call;
    match line.word.as_bytes() {
        b"no-action" => return put_no_action(page, world, plan, step),
        b"not-ticks" => put_not_ticks(page, world, plan, step, call.scale),
        b"no-duration" => put_no_duration(page, plan, step),
        b"horizon" => put_horizon(page, world, plan, step, call.scale, call.horizon),
        _ => {}
    }
    Ok(())
}

/// Puts what is wrong with a line of a plan.
fn put_plan_fault(
    page: &mut Page,
    world: &World<'_>,
    plan: Source<'_>,
    line: &Line<'_>,
) -> Result<(), AllocError> {
    let number = number_of(line.rest).unwrap_or(0);
    match line.word.as_bytes() {
        b"too-many" => put_too_many_steps(page, plan),
        b"line" => put_line(page, plan, number),
        _ => {
            if let Some((bytes, begin)) = line_of(plan.text, number) {
                if let Some(step) = read_step(page.alloc(), bytes, begin)? {
                    return put_step(page, world, plan, &step, line);
                }
            }
        }
    }
    Ok(())
}

/// Puts what is wrong with the file of the agents, at its word of a number.
fn put_owner_fault<N: Files>(
    page: &mut Page,
    files: &mut N,
    world: &World<'_>,
    plan: &[u8],
    line: &Line<'_>,
) -> Result<(), AllocError> {
    let (name, number) = (line.call.owners, number_of(line.rest).unwrap_or(0));
    let owners = bytes_of(page.alloc(), files, name)?;
    let text = owners.as_slice();
    let events = events_of(page.alloc(), world, plan, number)?;
    let found = events.found.as_ref();
    put_owner(page, Source { name, text }, number, found, events.count);
    Ok(())
}

/// Puts what is wrong with a task, a plan, the lags of its run or its agents.
pub fn put_planned<N: Files>(
    page: &mut Page,
    files: &mut N,
    world: &World<'_>,
    line: &Line<'_>,
) -> Result<(), AllocError> {
    let name = line.call.plan;
    let plan = bytes_of(page.alloc(), files, name)?;
    let text = plan.as_slice();
    match (line.part.as_bytes(), line.word.as_bytes()) {
        (b"ground", b"range") => put_range(page, world),
        (b"ground", _) => return put_too_many(page, world, line.rest),
        (b"plan", _) => return put_plan_fault(page, world, Source { name, text }, line),
        (b"script", _) => {
            let events = events_of(page.alloc(), world, text, 0)?;
            return put_lags(page, line.input, 0, events.count);
        }
        _ => return put_owner_fault(page, files, world, text, line),
    }
    Ok(())
}
