//! The edges of a conflict.

use crate::bounds::{Said, put_own_bound};
use crate::names::Named;
use crate::picture::Picture;
use crate::refusals::Reasons;
use std::alloc::AllocError;
use std::fmt;
use tp_bounds::Bound;
use tp_explain_text::{Page, put};
use tp_script::Command;

/// An edge of a conflict.
#[derive(Clone, Copy)]
pub(crate) enum Edge {
    /// The bound of an identifier.
    Own(u32),
    /// The bound of the command.
    New(Bound),
    /// An event happened, no later than its moment or no earlier.
    Past(u16, u32, bool),
    /// An event has not happened: its earliest moment, and its lag.
    Now(u16, u32, u32),
    /// An event has not happened, and is to happen by the horizon.
    End(u16),
}

/// The moment of an event that happened, or that the command would let happen.
fn happened(picture: &Picture, command: Command, event: u16) -> Option<u32> {
    match command {
        Command::Dispatch(e) if e == event => Some(picture.now()),
        Command::Happened(e, moment) if e == event => Some(moment),
        _ => picture.fixed(event),
    }
}

/// The earliest moment of an event once the command is carried out.
fn floor(picture: &Picture, command: Command, event: u16) -> u32 {
    match command {
        Command::Advance(to) => to.saturating_sub(picture.lag(event)),
        _ => picture.floor(event),
    }
}

/// An event by the word of an edge, behind the beginning of that word.
fn event_of(digits: &str) -> Option<u16> {
    digits.parse::<u16>().ok()
}

/// The edge of a word.
pub(crate) fn edge_of(picture: &Picture, command: Command, word: &str) -> Option<Edge> {
    if word == "new" {
        return match command {
            Command::Add(bound) => Some(Edge::New(bound)),
            _ => None,
        };
    }
    if let Some(rest) = word.strip_prefix("past") {
        let is_high = rest.strip_suffix('+').is_some();
        let digits = rest.strip_suffix('+').or(rest.strip_suffix('-'))?;
        let event = event_of(digits)?;
        let moment = happened(picture, command, event)?;
        return Some(Edge::Past(event, moment, is_high));
    }
    if let Some(digits) = word.strip_prefix("now") {
        let event = event_of(digits)?;
        let moment = floor(picture, command, event);
        return Some(Edge::Now(event, moment, picture.lag(event)));
    }
    if let Some(digits) = word.strip_prefix("end") {
        return Some(Edge::End(event_of(digits)?));
    }
    let id = word.strip_prefix('b')?.parse::<u32>().ok()?;
    let _held = picture.bound(id)?;
    Some(Edge::Own(id))
}

/// The weight of an edge.
pub(crate) fn weight(picture: &Picture, edge: Edge) -> i64 {
    match edge {
        Edge::Own(id) => match picture.bound(id) {
            Some(held) => held.bound.w,
            None => 0,
        },
        Edge::New(bound) => bound.w,
        Edge::Past(_, moment, true) => i64::from(moment),
        Edge::Past(_, moment, false) => i64::from(moment).saturating_neg(),
        Edge::Now(_, moment, _) => i64::from(moment).saturating_neg(),
        Edge::End(_) => i64::from(picture.horizon()),
    }
}

/// Whether a line of a conflict names a bound of a plan's own.
pub fn names_own_bound(picture: &Picture, answer: &str) -> bool {
    answer.split(' ').any(|word| {
        let Some(digits) = word.strip_prefix('b') else {
            return false;
        };
        match digits.parse::<u32>() {
            Ok(id) => id < picture.own(),
            Err(_) => false,
        }
    })
}

/// Puts what a bound of an identifier says, and why it is there where it is the plan's own.
pub(crate) fn put_held(
    page: &mut Page,
    picture: &Picture,
    reasons: &Reasons<'_, '_>,
    id: u32,
) -> Result<(), AllocError> {
    let Some(held) = picture.bound(id) else {
        return Ok(());
    };
    match (reasons.story, reasons.causes) {
        (Some(story), Some(causes)) if id < picture.own() => {
            put_own_bound(page, reasons.names, story, causes, held.bound)
        }
        _ => {
            page.put(Said(reasons.names, reasons.scale, held.bound));
            Ok(())
        }
    }
}

/// Puts the line of an edge that stands under a word.
pub(crate) fn put_edge(
    page: &mut Page,
    picture: &Picture,
    reasons: &Reasons<'_, '_>,
    word: &str,
    edge: Edge,
) -> Result<(), AllocError> {
    if let Edge::Own(id) = edge {
        if let Some((line, column)) = picture.bound(id).and_then(|held| held.place) {
            put!(page; "stdin:{line}:{column}: ");
        }
    }
    put!(page; "note: {word}: ");
    let names = reasons.names;
    match edge {
        Edge::Own(id) => put_held(page, picture, reasons, id)?,
        Edge::New(bound) => page.put(Said(names, reasons.scale, bound)),
        Edge::Past(event, moment, _) => {
            put!(page; "{} happened at {}", Named(names, event), reasons.moment(moment));
        }
        Edge::Now(event, moment, lag) => {
            let moment = reasons.moment(moment);
            let behind = Lag(lag);
            put!(page; "{} has not happened, and comes at {moment} or later{behind}",
                Named(names, event));
        }
        Edge::End(event) => {
            let horizon = reasons.moment(picture.horizon());
            put!(page; "{} comes by the horizon, {horizon}", Named(names, event));
        }
    }
    page.put("\n");
    Ok(())
}

/// That a lag counts, if there is one.
#[derive(Clone, Copy)]
pub(crate) struct Lag(pub(crate) u32);

impl fmt::Display for Lag {
    fn fmt<W: fmt::Write>(&self, f: &mut fmt::Formatter<W>) -> fmt::Result {
        if self.0 == 0 {
            return Ok(());
        }
        write!(f, ", now less its lag {}", self.0)
    }
}
