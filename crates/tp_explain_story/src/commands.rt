//! Lines that are no command.

use crate::lines::InputLine;
use tp_explain_text::{Count, Nearest, Page, put};
use tp_script::{next_word, read_event, read_moment, read_number};

/// The words of commands, each with its form and how many words stand behind it.
const FORMS: [(&str, &str, u64); 7] = [
    ("advance", "advance T", 1),
    ("add", "add F T W", 3),
    ("withdraw", "withdraw ID", 1),
    ("window", "window E", 1),
    ("dispatch", "dispatch E", 1),
    ("happened", "happened E M", 2),
    ("report", "report", 0),
];

/// The most bytes of a line.
const LONGEST: usize = 256;

/// A word as text. A word of bytes that are no text is none.
fn text_of(word: &[u8]) -> &str {
    str::from_utf8(word).unwrap_or("?")
}

/// How many words a line has.
fn count_words(line: &[u8]) -> u64 {
    let mut count = 0u64;
    let mut rest = line;
    for _ in 0..line.len() {
        let (word, behind) = next_word(rest);
        if word.is_empty() {
            return count;
        }
        count = count.saturating_add(1);
        rest = behind;
    }
    count
}

/// Whether a word is an event or the origin.
fn is_point(word: &[u8]) -> bool {
    word == b"o".as_slice() || read_event(word).is_some()
}

/// Whether a word is a weight.
fn is_weight(word: &[u8]) -> bool {
    match word {
        [b'-', digits @ ..] => read_number(digits).is_some(),
        _ => read_number(word).is_some(),
    }
}

/// Whether a word may stand behind a command's word at a place.
fn fits(command: &str, place: usize, word: &[u8]) -> bool {
    match (command, place) {
        ("add", 0 | 1) => is_point(word),
        ("add", _) => is_weight(word),
        ("window" | "dispatch", _) | ("happened", 0) => read_event(word).is_some(),
        _ => read_moment(word).is_some(),
    }
}

/// The first word behind a command's word that does not fit.
fn first_misfit<'l>(command: &str, line: &'l [u8]) -> &'l [u8] {
    let mut rest = line;
    for place in 0..3 {
        let (word, behind) = next_word(rest);
        if word.is_empty() || !fits(command, place, word) {
            return word;
        }
        rest = behind;
    }
    &[]
}

/// Puts what was wanted in place of a line, and what was found.
fn put_expected(page: &mut Page, command: &str, form: &str, wanted: u64, line: &[u8]) {
    put!(page; "expected `{form}`, found ");
    let found = count_words(line);
    if found == wanted {
        put!(page; "`{}`\n", text_of(first_misfit(command, line)));
    } else if found == 0 {
        put!(page; "nothing behind `{command}`\n");
    } else {
        put!(page; "{} behind `{command}`\n", Count(found, "word", "words"));
    }
}

/// Puts that no command has this name, and the nearest that there is.
fn put_unknown(page: &mut Page, word: &str) {
    put!(page; "no command is named `{word}`\n");
    let mut nearest = Nearest::to(page.alloc(), word);
    let mut found = None;
    for (name, _, _) in &FORMS {
        if nearest.finds(name) {
            found = Some(*name);
        }
    }
    if let Some(name) = found {
        put!(page; "help: did you mean `{name}`?\n");
    }
}

/// Puts why a line is no command.
pub(crate) fn put_no_command(page: &mut Page, line: &InputLine) {
    let length = line.bytes.len();
    if LONGEST < length {
        put!(page; "the line has {length} bytes, and at most 256 are read\n");
        return;
    }
    let (word, rest) = next_word(line.words());
    let known = FORMS.iter().find(|form| form.0.as_bytes() == word);
    if let Some((command, form, wanted)) = known.copied() {
        put_expected(page, command, form, wanted, rest);
    } else if word == b"lag".as_slice() {
        page.put("lags stand before the first command\n");
    } else {
        put_unknown(page, text_of(word));
    }
}
