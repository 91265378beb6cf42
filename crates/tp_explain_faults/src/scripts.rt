//! The head of commands: `network N H` and lags.

use std::alloc::AllocError;
use std::str::from_utf8;
use tp_explain_text::{Page, Source, error_at, put};
use tp_script::{next_word, read_number};

/// The most bytes of a line, events, ticks of the horizon, and ticks of a lag.
const LONGEST: usize = 256;

const MOST_EVENTS: u64 = 1024;

const GREATEST_HORIZON: u64 = 1_000_000_000;

const GREATEST_LAG: u64 = 1_000_000_000;

/// A word of a line, and where it stands in the input.
#[derive(Clone, Copy)]
struct Word<'i> {
    text: &'i str,
    at: usize,
}

/// The words of a line that begins at a place: the first four of them, and how many there are.
#[derive(Clone, Copy)]
struct Words<'i> {
    first: [Option<Word<'i>>; 4],
    end: usize,
}

/// The first word of what is left of a line that ends at a place, and what is behind it.
fn word_at(rest: &[u8], end: usize) -> (Option<Word<'_>>, &[u8]) {
    let (word, behind) = next_word(rest);
    if word.is_empty() {
        return (None, behind);
    }
    let found = Word {
        text: from_utf8(word).unwrap_or("?"),
        at: end.saturating_sub(behind.len()).saturating_sub(word.len()),
    };
    (Some(found), behind)
}

fn words_of(line: &[u8], begin: usize) -> Words<'_> {
    let end = begin.saturating_add(line.len());
    let (name, behind_name) = word_at(line, end);
    let (second, behind_second) = word_at(behind_name, end);
    let (third, behind_third) = word_at(behind_second, end);
    let (fourth, _) = word_at(behind_third, end);
    Words {
        first: [name, second, third, fourth],
        end,
    }
}

/// The number that a word spells.
fn number_of(word: Option<Word<'_>>) -> Option<u64> {
    read_number(word?.text.as_bytes())
}

fn put_note(page: &mut Page) {
    page.put("note: N is the number of events, at most 1024; H the horizon, at most 1000000000\n");
}

/// Puts that the head is not of its form: what was found where it goes wrong.
fn put_no_head(page: &mut Page, source: Source<'_>, at: usize, found: Option<&str>) {
    match found {
        Some(word) => error_at!(page, source, at; "expected `network N H`, found `{word}`"),
        None if source.text.is_empty() => {
            error_at!(page, source, at; "expected `network N H`, found the end of the input");
        }
        None => error_at!(page, source, at; "expected `network N H`, found the end of the line"),
    }
    put_note(page);
}

/// The first word that is not as in `network N H`.
fn first_misfit<'i>(words: &Words<'i>) -> Option<(usize, Option<&'i str>)> {
    let [name, events, horizon, more] = words.first;
    let is_network = name.map_or(false, |word| word.text == "network");
    let checks = [
        (name, is_network),
        (events, number_of(events).is_some()),
        (horizon, number_of(horizon).is_some()),
    ];
    for (word, fits) in checks {
        if !fits {
            return Some(match word {
                Some(word) => (word.at, Some(word.text)),
                None => (words.end, None),
            });
        }
    }
    let more = more?;
    Some((more.at, Some(more.text)))
}

/// Puts which number of a head is too great. Answers whether one is.
fn put_too_great(page: &mut Page, source: Source<'_>, words: &Words<'_>) -> bool {
    let [_, events, horizon, _] = words.first;
    let many = number_of(events).unwrap_or(0);
    let late = number_of(horizon).unwrap_or(0);
    if many > MOST_EVENTS {
        let at = events.map_or(words.end, |word| word.at);
        error_at!(page, source, at; "{many} events are more than 1024");
    } else if late > GREATEST_HORIZON {
        let at = horizon.map_or(words.end, |word| word.at);
        error_at!(page, source, at; "{late} is past 1000000000, the greatest horizon");
    }
    many > MOST_EVENTS || late > GREATEST_HORIZON
}

/// The first line of bytes, and what is behind its end.
fn first_line(bytes: &[u8]) -> (&[u8], &[u8]) {
    let end = bytes
        .iter()
        .position(|byte| *byte == b'\n')
        .unwrap_or(bytes.len());
    let behind = bytes.get(end.saturating_add(1)..).unwrap_or(&[]);
    (bytes.get(..end).unwrap_or(bytes), behind)
}

/// Puts what is wrong with the head of the commands of `bare`, or with the lags behind it.
pub fn put_head(page: &mut Page, input: &[u8]) -> Result<(), AllocError> {
    let source = Source {
        name: "stdin",
        text: input,
    };
    let (line, behind) = first_line(input);
    if line.len() > LONGEST {
        error_at!(page, source, 0; "the line has more than 256 bytes");
        put_note(page);
        return Ok(());
    }
    let words = words_of(line, 0);
    if let Some((at, found)) = first_misfit(&words) {
        put_no_head(page, source, at, found);
        return Ok(());
    }
    if put_too_great(page, source, &words) {
        return Ok(());
    }
    let [_, events, _, _] = words.first;
    let begin = input.len().saturating_sub(behind.len());
    put_lags(page, input, begin, number_of(events).unwrap_or(0))
}

/// A lag that was set.
#[derive(Clone, Copy)]
struct Lag {
    event: u64,
    ticks: u64,
}

/// The lag of a line, if it is `lag E L`.
fn lag_of(words: &Words<'_>) -> Option<Lag> {
    let [name, event, ticks, more] = words.first;
    if name?.text != "lag" || more.is_some() {
        return None;
    }
    let event = number_of(event)?;
    let ticks = number_of(ticks)?;
    if event > 65_535 || ticks > u64::from(u32::MAX) {
        return None;
    }
    Some(Lag { event, ticks })
}

/// Puts what is wrong with the first lag that does not fit, of those that stand in the commands of
/// a network of so many events from a place on.
pub fn put_lags(
    page: &mut Page,
    input: &[u8],
    begin: usize,
    events: u64,
) -> Result<(), AllocError> {
    let source = Source {
        name: "stdin",
        text: input,
    };
    let mut lags = Vec::new(page.alloc());
    let mut rest = input.get(begin..).unwrap_or(&[]);
    for _ in 0..input.len() {
        let (line, behind) = first_line(rest);
        let words = words_of(line, input.len().saturating_sub(rest.len()));
        let Some(lag) = lag_of(&words) else {
            break;
        };
        if put_lag(page, source, &words, lag, lags.as_slice(), events) {
            break;
        }
        if lag.ticks != 0 {
            lags.push(lag)?;
        }
        rest = behind;
    }
    Ok(())
}

/// Puts what is wrong with a lag, if something is.
fn put_lag(
    page: &mut Page,
    source: Source<'_>,
    words: &Words<'_>,
    lag: Lag,
    before: &[Lag],
    events: u64,
) -> bool {
    let [_, event_word, ticks_word, _] = words.first;
    let Lag { event, ticks } = lag;
    let at = event_word.map_or(words.end, |word| word.at);
    if event >= events {
        put_no_event(page, source, at, event, events);
        return true;
    }
    if ticks > GREATEST_LAG {
        let at = ticks_word.map_or(words.end, |word| word.at);
        error_at!(page, source, at; "{ticks} is past 1000000000, the greatest lag");
        return true;
    }
    let Some(first) = before.iter().find(|first| first.event == event) else {
        return false;
    };
    error_at!(page, source, at; "event {event} has the lag {} already", first.ticks);
    true
}

/// Puts that there is no event of a number.
fn put_no_event(page: &mut Page, source: Source<'_>, at: usize, event: u64, events: u64) {
    error_at!(page, source, at; "there is no event {event}");
    match events {
        0 => page.put("note: there are no events\n"),
        1 => page.put("note: the only event is 0\n"),
        _ => put!(page; "note: the events are 0 to {}\n", events.saturating_sub(1)),
    }
}
