//! The agents of events.

use crate::events::Event;
use std::str::from_utf8;
use tp_explain_text::{Count, Page, Source, error_at, put};

/// The greatest number of an agent.
const GREATEST: u32 = 1023;

fn is_blank(byte: u8) -> bool {
    byte == b' ' || (9 <= byte && byte <= 13)
}

/// A word of the file, and where it stands.
#[derive(Clone, Copy)]
struct Word<'o> {
    text: &'o [u8],
    at: usize,
}

/// The word of a number, from 0, and how many words there are.
fn word_at(text: &[u8], wanted: u64) -> (Option<Word<'_>>, u64) {
    let mut found = None;
    let mut count = 0u64;
    let mut begin = None;
    for (at, byte) in text.iter().enumerate() {
        match (is_blank(*byte), begin) {
            (false, None) => {
                begin = Some(at);
                count = count.saturating_add(1);
            }
            (true, Some(from)) => {
                if count.checked_sub(1) == Some(wanted) {
                    found = text.get(from..at).map(|word| Word {
                        text: word,
                        at: from,
                    });
                }
                begin = None;
            }
            _ => {}
        }
    }
    if let Some(from) = begin {
        if count.checked_sub(1) == Some(wanted) {
            found = text.get(from..).map(|word| Word {
                text: word,
                at: from,
            });
        }
    }
    (found, count)
}

/// Whether a word is a number of one to four digits.
fn number_of(word: &[u8]) -> Option<u32> {
    if word.len() > 4 || !word.iter().all(|byte| byte.is_ascii_digit()) {
        return None;
    }
    from_utf8(word).ok()?.parse::<u32>().ok()
}

fn put_counts(page: &mut Page, words: u64, events: u64) {
    let words = Count(words, "number", "numbers");
    put!(page; "note: the file has {words}, the network {}\n", Count(events, "event", "events"));
}

/// Puts what is wrong with the number of an agent.
fn put_number(page: &mut Page, source: Source<'_>, word: &Word<'_>, event: Option<&Event<'_>>) {
    match number_of(word.text) {
        Some(number) if number > GREATEST => {
            error_at!(page, source, word.at; "agent {number} is past 1023, the greatest");
        }
        _ => error_at!(page, source, word.at;
            "expected a number of one to four digits, found `{}`",
            from_utf8(word.text).unwrap_or("?")),
    }
    if let Some(event) = event {
        put!(page; "note: it is for {event}\n");
    }
}

/// Puts what is wrong with the word of a number of the file of the agents: `event` is the event
/// that it is for, if there is one, and `events` tells how many there are.
pub fn put_owner(
    page: &mut Page,
    source: Source<'_>,
    number: u64,
    event: Option<&Event<'_>>,
    events: u64,
) {
    let (word, words) = word_at(source.text, number);
    match (word, event) {
        (None, Some(event)) => {
            put!(page; "{}: error: {event}, has no agent\n", source.name);
            put_counts(page, words, events);
        }
        (Some(word), None) if number_of(word.text).is_some() => {
            error_at!(page, source, word.at; "there is no event {number}");
            put_counts(page, words, events);
        }
        (Some(word), event) => put_number(page, source, &word, event),
        (None, None) => {}
    }
}
