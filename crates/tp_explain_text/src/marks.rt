//! The source line of a place, and the line with the caret under it.

use crate::chars::{after_chars, count_chars, first_char};
use crate::page::Page;
use crate::places::{Source, line_at};

/// The most characters of a source line that are shown, and how many of them stand before the
/// caret.
const WIDEST: usize = 100;

const BEFORE: usize = 60;

/// How many bytes at the front may be in a word of a text.
fn word_len(bytes: &[u8]) -> usize {
    let end = bytes.iter().position(|byte| match *byte {
        b'(' | b')' | b'[' | b']' | b';' => true,
        byte => byte < b'!' || b'~' < byte,
    });
    end.unwrap_or(bytes.len())
}

/// How many characters are marked of what begins at a place: those of the word there, or the word
/// right behind a parenthesis; one, if there is none.
fn marked(bytes: &[u8]) -> usize {
    match bytes {
        [b'(', rest @ ..] => word_len(rest).saturating_add(1),
        _ => word_len(bytes).max(1),
    }
}

/// The part of a line that is shown: its bytes from its first character on, how many characters of
/// them, before which one the caret stands, and whether some are left out.
#[derive(Clone, Copy)]
struct Shown<'t> {
    bytes: &'t [u8],
    count: usize,
    caret: usize,
    is_cut_before: bool,
    is_cut_behind: bool,
}

/// The part of a line that is shown around the character of a number.
fn part_around(line: &[u8], caret: usize) -> Shown<'_> {
    let count = count_chars(line);
    let first = if count > WIDEST {
        caret.saturating_sub(BEFORE)
    } else {
        0
    };
    let left = count.saturating_sub(first);
    Shown {
        bytes: after_chars(line, first),
        count: left.min(WIDEST),
        caret: caret.saturating_sub(first),
        is_cut_before: first > 0,
        is_cut_behind: left > WIDEST,
    }
}

/// Puts at most so many characters; those that can't be shown are `?`.
pub fn put_shown(page: &mut Page, bytes: &[u8], count: usize) {
    let mut rest = bytes;
    for _ in 0..count {
        let Some(first) = first_char(rest) else {
            return;
        };
        rest = first.rest;
        match first.found {
            Some(found) if found == '\t' || (!found.is_control() && found != '\u{feff}') => {
                page.put(found);
            }
            _ => page.put("?"),
        }
    }
}

/// Puts the caret under its character, and tildes as far as the mark goes on.
fn put_caret(page: &mut Page, part: &Shown<'_>, length: usize) {
    let mut rest = part.bytes;
    for _ in 0..part.caret {
        page.put(if rest.first() == Some(&b'\t') {
            "\t"
        } else {
            " "
        });
        rest = after_chars(rest, 1);
    }
    page.put("^");
    for _ in 1..length.min(part.count.saturating_sub(part.caret)) {
        page.put("~");
    }
}

/// Puts a line without its end, and the caret under a place in it. Blanks at the end of the line
/// are left out.
pub fn put_mark_of_line(page: &mut Page, line: &[u8], at: usize) {
    let before = line.get(..at).unwrap_or(line);
    let behind = line.get(at..).unwrap_or(&[]);
    let last = line
        .iter()
        .rposition(|byte| *byte != b' ' && *byte != b'\t');
    let end = last.map_or(0, |last| last.saturating_add(1));
    let part = part_around(line.get(..end).unwrap_or(line), count_chars(before));
    page.put(if part.is_cut_before {
        "    ..."
    } else {
        "    "
    });
    put_shown(page, part.bytes, part.count);
    page.put(if part.is_cut_behind { "...\n" } else { "\n" });
    page.put(if part.is_cut_before {
        "       "
    } else {
        "    "
    });
    put_caret(page, &part, marked(behind));
    page.put("\n");
}

/// Puts the line of a place in a file, and the caret under the place. There is no line where the
/// file ends behind an end of a line.
pub fn put_mark(page: &mut Page, source: Source<'_>, place: usize) {
    let line = line_at(source.text, place);
    if place < source.text.len() || !line.bytes.is_empty() {
        put_mark_of_line(page, line.bytes, line.at);
    }
}
