//! What is to come, and why a run ends without a plan.

use crate::edges::put_held;
use crate::lines::InputLine;
use crate::names::Numbered;
use crate::picture::Picture;
use crate::refusals::Reasons;
use crate::windows::Windows;
use std::alloc::AllocError;
use tp_explain_text::{Count, Moment, Page, Ticks, put, put_mark_of_line, without_return};

/// The most events that are told one by one.
const MOST_EVENTS: usize = 6;

/// The events that have not happened, in their order, each behind its deadline.
fn events_left(picture: &Picture, windows: &Windows) -> Result<Vec<(u64, u16)>, AllocError> {
    let mut left = Vec::new(picture.alloc());
    for event in 0..picture.events() {
        if picture.fixed(event).is_none() {
            left.push((windows.high(event), event))?;
        }
    }
    Ok(left)
}

/// Puts the line of an event that is to come.
fn put_due(
    page: &mut Page,
    picture: &Picture,
    reasons: &Reasons<'_, '_>,
    event: u16,
    low: u64,
    high: u64,
) {
    let (scale, now) = (reasons.scale, u64::from(picture.now()));
    let distance = Ticks(scale, high.abs_diff(now));
    put!(page; "note: {} {}, ", if low == high { "at" } else { "by" }, Moment(scale, high));
    if high < now {
        put!(page; "{distance} ago");
    } else {
        put!(page; "in {distance}");
    }
    put!(page; ": {}", Numbered(reasons.names, event, ""));
    if low < high && low == now {
        page.put(", from now on");
    } else if low < high {
        put!(page; ", from {} on", Moment(scale, low));
    }
    page.put("\n");
}

/// Puts how many more events there are than are told.
fn put_more(page: &mut Page, count: usize) {
    let more = count.saturating_sub(MOST_EVENTS);
    if more > 0 {
        put!(page; "note: and {}\n", Count(more as u64, "more event", "more events"));
    }
}

/// Puts the explanation of a report.
pub fn tell_report(
    page: &mut Page,
    picture: &Picture,
    reasons: &Reasons<'_, '_>,
    line: &InputLine,
) -> Result<(), AllocError> {
    let windows = Windows::of(picture)?;
    let mut left = events_left(picture, &windows)?;
    left.sort_unstable();
    let now = reasons.moment(picture.now());
    put!(page; "stdin:{}:{}: report: now is {now}, and ", line.number, line.column());
    if left.is_empty() {
        page.put("no event is to come\n");
        return Ok(());
    }
    let count = Count(picture.left(), "event is", "events are");
    put!(page; "{count} to come, the next deadline first\n");
    for (high, event) in left.iter().take(MOST_EVENTS) {
        put_due(page, picture, reasons, *event, windows.low(*event), *high);
    }
    put_more(page, left.len());
    Ok(())
}

/// Puts how many events have not happened.
fn put_left(page: &mut Page, picture: &Picture) {
    let all = Count(u64::from(picture.events()), "event has", "events have");
    put!(page; "{} of {all} not happened\n", picture.left());
}

/// Puts that events have not happened, and when they may.
fn tell_left(
    page: &mut Page,
    picture: &Picture,
    reasons: &Reasons<'_, '_>,
) -> Result<(), AllocError> {
    let windows = Windows::of(picture)?;
    let left = events_left(picture, &windows)?;
    page.put("stdin: no plan: ");
    put_left(page, picture);
    for (high, event) in left.iter().take(MOST_EVENTS) {
        let named = Numbered(reasons.names, *event, ",");
        let low = windows.low(*event);
        let first = Moment(reasons.scale, low);
        if low == *high {
            put!(page; "note: {named} may happen at {first}\n");
        } else {
            put!(page; "note: {named} may happen from {first} to {}\n",
                Moment(reasons.scale, *high));
        }
    }
    put_more(page, left.len());
    Ok(())
}

/// Puts that a bound of the plan was withdrawn, and by which command.
fn tell_withdrawn(
    page: &mut Page,
    picture: &Picture,
    reasons: &Reasons<'_, '_>,
    line: &InputLine,
    id: u32,
) -> Result<(), AllocError> {
    let (number, column) = (line.number, line.column());
    put!(page; "stdin:{number}:{column}: no plan: bound {id} of the plan was withdrawn\n");
    put_mark_of_line(page, without_return(line.bytes.as_slice()), line.from);
    put!(page; "note: b{id}: ");
    put_held(page, picture, reasons, id)?;
    page.put("\nnote: an equal bound that is added does not bring the plan back\n");
    if picture.left() > 0 {
        page.put("note: and ");
        put_left(page, picture);
    }
    Ok(())
}

/// Puts why a run ended without a plan.
pub fn tell_end(
    page: &mut Page,
    picture: &Picture,
    reasons: &Reasons<'_, '_>,
) -> Result<(), AllocError> {
    if let Some(withdrawn) = picture.withdrawn() {
        return tell_withdrawn(page, picture, reasons, &withdrawn.line, withdrawn.id);
    }
    if picture.left() > 0 {
        return tell_left(page, picture, reasons);
    }
    Ok(())
}
