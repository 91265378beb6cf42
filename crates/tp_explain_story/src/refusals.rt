//! Commands that were refused.

use crate::causes::Causes;
use crate::commands::put_no_command;
use crate::edges::{Lag, edge_of, put_edge, weight};
use crate::lines::InputLine;
use crate::names::{Names, Numbered};
use crate::picture::Picture;
use crate::story::Story;
use std::alloc::AllocError;
use tp_bounds::{Bound, Point};
use tp_explain_text::{Moment, Page, Ticks, put, put_shown};
use tp_script::{Command, read_command};

/// What explanations of a run know of its plan: nothing of it where the network was given by hand.
#[derive(Clone, Copy)]
pub struct Reasons<'r, 'a> {
    pub names: Names<'r>,
    pub scale: u32,
    pub story: Option<&'r Story<'a>>,
    pub causes: Option<&'r Causes<'a>>,
}

impl Reasons<'_, '_> {
    /// A moment.
    pub(crate) fn moment(&self, tick: u32) -> Moment {
        Moment(self.scale, u64::from(tick))
    }
}

/// The most characters of a command that are shown, and the most edges.
const WIDEST: usize = 60;

const MOST_EDGES: usize = 6;

/// Puts the place of a line, and the command on it, cut past 60 characters.
fn put_head(page: &mut Page, line: &InputLine) {
    let words = line.words();
    let count = str::from_utf8(words).map_or(words.len(), |text| text.chars().count());
    put!(page; "stdin:{}:{}: refused: `", line.number, line.column());
    if count > WIDEST {
        put_shown(page, words, WIDEST.saturating_sub(3));
        page.put("...`: ");
    } else {
        put_shown(page, words, WIDEST);
        page.put("`: ");
    }
}

/// Puts that there is nothing of a number, of so many that there are.
fn put_none(page: &mut Page, what: &str, number: u32, count: usize) {
    if count == 0 {
        put!(page; "there is no {what} {number}, and no other\n");
    } else {
        put!(page; "there is no {what} {number}, only 0 to {}\n", count.saturating_sub(1));
    }
}

/// The first point of a bound that there is not.
fn missing(picture: &Picture, bound: Bound) -> u16 {
    if let Point::Event(from) = bound.from {
        if picture.events() <= from {
            return from;
        }
    }
    match bound.to {
        Point::Event(to) => to,
        Point::Origin => 0,
    }
}

/// Puts what is so instead of what a command about an event asked for.
fn put_event(
    page: &mut Page,
    picture: &Picture,
    reasons: &Reasons<'_, '_>,
    event: u16,
    word: &str,
) {
    let named = Numbered(reasons.names, event, ",");
    let (floor, now) = (
        reasons.moment(picture.floor(event)),
        reasons.moment(picture.now()),
    );
    match word {
        "event" => put_none(
            page,
            "event",
            u32::from(event),
            usize::from(picture.events()),
        ),
        "done" => {
            let moment = reasons.moment(picture.fixed(event).unwrap_or(0));
            put!(page; "{named} happened at {moment}\n");
        }
        "back" => put!(page; "{named} comes at {floor} or later{}\n", Lag(picture.lag(event))),
        "moment" => put!(page; "now is {now}\n"),
        _ => page.put("it changes nothing\n"),
    }
}

/// Puts what is so instead of what a command asked for.
fn put_instead(
    page: &mut Page,
    picture: &Picture,
    reasons: &Reasons<'_, '_>,
    command: Command,
    word: &str,
) {
    match (word, command) {
        ("full", _) => page.put("65535 bounds are in force\n"),
        ("spent", _) => page.put("1048576 identifiers were assigned\n"),
        ("event", Command::Add(bound)) => {
            put_event(page, picture, reasons, missing(picture, bound), word);
        }
        (_, Command::Window(event) | Command::Dispatch(event) | Command::Happened(event, _)) => {
            put_event(page, picture, reasons, event, word);
        }
        ("bound", Command::Withdraw(id)) if picture.bound(id.0).is_some() => {
            put!(page; "bound {} was withdrawn\n", id.0);
        }
        ("bound", Command::Withdraw(id)) => {
            put_none(page, "bound", id.0, picture.bounds().len());
        }
        ("weight", Command::Add(Bound { w, .. })) if w < 0 => {
            put!(page; "{w} is past -2000000000, the least weight\n");
        }
        ("weight", Command::Add(Bound { w, .. })) => {
            put!(page; "{w} is past 2000000000, the greatest weight\n");
        }
        ("back", Command::Advance(_)) => {
            put!(page; "now is {} already\n", reasons.moment(picture.now()));
        }
        ("moment", Command::Advance(_)) => {
            put!(page; "the horizon is {}\n", reasons.moment(picture.horizon()));
        }
        _ => page.put("it changes nothing\n"),
    }
}

/// How many ticks more the edges of a conflict ask for than there is. None where the picture does
/// not know one of them, or they ask for no more.
fn excess(picture: &Picture, command: Command, answer: &str) -> Option<u64> {
    let mut sum = 0i64;
    for word in answer.split(' ').skip(2) {
        let edge = edge_of(picture, command, word)?;
        sum = sum.saturating_add(weight(picture, edge));
    }
    if sum < 0 {
        Some(sum.unsigned_abs())
    } else {
        None
    }
}

/// Puts a line for each edge of a conflict, or for the first of many.
fn put_edges(
    page: &mut Page,
    picture: &Picture,
    reasons: &Reasons<'_, '_>,
    command: Command,
    answer: &str,
) -> Result<(), AllocError> {
    let count = answer.split(' ').count().saturating_sub(2);
    let shown = if count > MOST_EDGES {
        MOST_EDGES.saturating_sub(1)
    } else {
        count
    };
    for word in answer.split(' ').skip(2).take(shown) {
        if let Some(edge) = edge_of(picture, command, word) {
            put_edge(page, picture, reasons, word, edge)?;
        }
    }
    if shown < count {
        put!(page; "note: and {} more:", count.saturating_sub(shown));
        for word in answer.split(' ').skip(shown.saturating_add(2)) {
            put!(page; " {word}");
        }
        page.put("\n");
    }
    Ok(())
}

/// Puts the explanation of an answer that refuses a line: of a conflict a line for each edge, and
/// what they ask for together.
pub fn tell_refusal(
    page: &mut Page,
    picture: &Picture,
    reasons: &Reasons<'_, '_>,
    line: &InputLine,
    answer: &str,
) -> Result<(), AllocError> {
    let word = answer.split(' ').nth(1).unwrap_or("");
    if word == "line" {
        put_head(page, line);
        put_no_command(page, line);
        return Ok(());
    }
    let Some(command) = read_command(line.words()) else {
        return Ok(());
    };
    if word == "conflict" {
        let Some(excess) = excess(picture, command, answer) else {
            return Ok(());
        };
        put_head(page, line);
        page.put("no schedule would remain\n");
        put_edges(page, picture, reasons, command, answer)?;
        let ticks = Ticks(reasons.scale, excess);
        put!(page; "note: together they ask for {ticks} more than there is\n");
    } else if word != "memory" {
        put_head(page, line);
        put_instead(page, picture, reasons, command, word);
    }
    Ok(())
}
