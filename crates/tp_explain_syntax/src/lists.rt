//! What is wrong with the lists of a text.

use crate::indentation::{Reading, Rules, Suspect, read};
use std::alloc::AllocError;
use tp_explain_text::{At, Count, Page, Source, error_at, put};

/// The first list that should have ended before something behind it, if the text is one list with
/// it closed.
fn suspect_of(reading: Reading) -> Option<Suspect> {
    if reading.is_one { reading.first } else { None }
}

/// Puts that a list is not closed, before its witness.
fn put_suspect(page: &mut Page, source: Source<'_>, suspect: Suspect) {
    error_at!(page, source, suspect.list; "the list that begins here is not closed");
    put!(page; "{}note: a {}\n", At(source, suspect.witness), if suspect.is_field {
        "field begins here that cannot stand in it"
    } else {
        "list begins here that cannot stand in it, by its indentation"
    });
    page.put("help: write a `)` before that\n");
}

/// Puts that the outermost list is not closed, and how many are not.
fn put_outermost(page: &mut Page, source: Source<'_>, at: usize, open: usize) {
    error_at!(page, source, at; "the list that begins here is not closed");
    put!(page; "note: {} open at the end of the file\n", Count(open as u64, "list is", "lists are"));
    page.put("help: write `");
    for _ in 0..open.min(64) {
        page.put(")");
    }
    page.put("` there\n");
}

/// Puts which list of a text is not closed. The outermost one that is not begins at a place.
pub fn put_unclosed(page: &mut Page, name: &str, text: &str, at: usize) -> Result<(), AllocError> {
    let alloc = page.alloc();
    let source = Source {
        name,
        text: text.as_bytes(),
    };
    for rules in [Rules::All, Rules::Fields] {
        if let Some(suspect) = suspect_of(read(alloc, text, rules)?) {
            put_suspect(page, source, suspect);
            return Ok(());
        }
    }
    let reading = read(alloc, text, Rules::Nothing)?;
    put_outermost(page, source, at, reading.open);
    Ok(())
}

/// Where the first list of a text ends: at its last parenthesis.
fn end_of_first(text: &[u8]) -> Option<usize> {
    let mut depth = 0usize;
    let mut in_comment = false;
    for (at, byte) in text.iter().enumerate() {
        match *byte {
            b'\n' => in_comment = false,
            b';' => in_comment = true,
            _ if in_comment => {}
            b'(' => depth = depth.saturating_add(1),
            b')' => {
                depth = depth.checked_sub(1)?;
                if depth == 0 {
                    return Some(at);
                }
            }
            b'!'..=b'~' if depth == 0 => return None,
            _ => {}
        }
    }
    None
}

/// Puts that something follows the list that is the file.
pub fn put_extra(page: &mut Page, source: Source<'_>, at: usize) {
    let Some(end) = end_of_first(source.text) else {
        error_at!(page, source, at; "the file is not one list");
        return;
    };
    error_at!(page, source, at; "something follows the list that is the file");
    put!(page; "{}note: that list ends here\n", At(source, end));
    page.put("help: a `)` too many stands there or before\n");
}

/// Puts that a list stands inside too many others.
pub fn put_depth(page: &mut Page, source: Source<'_>, at: usize) {
    error_at!(page, source, at; "a list stands inside 64 others");
    page.put("help: write `(and A B C)` for `(and A (and B C))`\n");
}

/// Puts that a text has nothing but blanks and comments.
pub fn put_empty(page: &mut Page, name: &str, in_problem: bool) {
    put!(page; "{name}: error: the file has nothing but blanks and comments\n");
    page.put(if in_problem {
        "note: a problem is one list, `(define (problem NAME) (:domain NAME) ..)`\n"
    } else {
        "note: a domain is one list, `(define (domain NAME) ..)`\n"
    });
}

/// Puts that a text is too long.
pub fn put_text_too_long(page: &mut Page, name: &str, help: &str) {
    put!(page; "{name}: error: the file has more than 1048576 bytes\nhelp: {help}\n");
}
