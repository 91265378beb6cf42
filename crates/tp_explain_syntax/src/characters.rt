//! Characters that may not stand in a text outside comments.

use std::str::from_utf8;
use tp_explain_text::{Page, Source, error_at, first_char, put};

/// What a character is, and what to do about it, at the beginning of a file or elsewhere.
fn words_of(found: char, first: bool) -> (&'static str, &'static str) {
    match found {
        '\u{2010}'..='\u{2015}' | '\u{2212}' => ("a dash", "write `-`"),
        '\u{a0}' | '\u{2007}' | '\u{202f}' => ("a no-break space", "write a blank"),
        '\u{2000}'..='\u{200a}' | '\u{3000}' => ("a space past ASCII", "write a blank"),
        '\u{2018}'..='\u{201f}' | '\u{ab}' | '\u{bb}' => ("a quotation mark", "take it out"),
        '\u{feff}' if first => (
            "a byte order mark",
            "save the file as UTF-8 without a byte order mark",
        ),
        '\u{feff}' => ("a byte order mark", "take it out"),
        other if other.is_control() => ("a control character", "take it out"),
        _ => ("a character past ASCII", "write it in ASCII"),
    }
}

/// Puts what is wrong with the character at a place, which may not stand there.
pub fn put_bad_byte(page: &mut Page, source: Source<'_>, at: usize) {
    let rest = source.text.get(at..).unwrap_or(&[]);
    let Some(found) = first_char(rest).and_then(|first| first.found) else {
        return;
    };
    let (name, help) = words_of(found, at == 0);
    let code = u32::from(found);
    error_at!(page, source, at; "U+{code:04X}, {name}, stands outside a comment");
    put!(page; "help: {help}\n");
}

/// Puts what is wrong with a file that is not UTF-8.
pub fn put_no_utf8(page: &mut Page, source: Source<'_>) {
    if let Err(error) = from_utf8(source.text) {
        error_at!(page, source, error.valid_up_to(); "the file is not UTF-8 here");
        page.put("help: save the file as UTF-8\n");
    }
}
