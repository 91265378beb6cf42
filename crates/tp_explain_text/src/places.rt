//! Lines and columns of places in files, and what stands before a headline or a note.

use crate::chars::count_chars;
use crate::marks::put_mark;
use crate::page::Page;
use std::fmt;

/// A file of the call: its name there, or `stdin` for the commands, and what it holds.
#[derive(Clone, Copy)]
pub struct Source<'t> {
    pub name: &'t str,
    pub text: &'t [u8],
}

/// The line of a place: its number from 1, the bytes of it without its end, and the place in it.
#[derive(Clone, Copy)]
pub struct LineAt<'t> {
    pub number: u64,
    pub bytes: &'t [u8],
    pub at: usize,
}

/// A line without a carriage return at its end.
pub fn without_return(line: &[u8]) -> &[u8] {
    line.strip_suffix(b"\r").unwrap_or(line)
}

/// The line of a place in a text. A place behind the text is that at its end.
pub(crate) fn line_at(text: &[u8], place: usize) -> LineAt<'_> {
    let mut number = 1u64;
    let mut begin = 0usize;
    let mut end = text.len();
    for (at, byte) in text.iter().enumerate() {
        if *byte == b'\n' {
            if at >= place {
                end = at;
                break;
            }
            number = number.saturating_add(1);
            begin = at.saturating_add(1);
        }
    }
    LineAt {
        number,
        bytes: without_return(text.get(begin..end).unwrap_or(&[])),
        at: place.min(end).saturating_sub(begin),
    }
}

/// A place in a file before what follows, as `plan:3:14: `. Columns count characters, and bytes
/// that are none.
#[derive(Clone, Copy)]
pub struct At<'t>(pub Source<'t>, pub usize);

impl fmt::Display for At<'_> {
    fn fmt<W: fmt::Write>(&self, f: &mut fmt::Formatter<W>) -> fmt::Result {
        let At(source, place) = *self;
        let line = line_at(source.text, place);
        let before = line.bytes.get(..line.at).unwrap_or(line.bytes);
        let column = count_chars(before).saturating_add(1);
        write!(f, "{}:{}:{column}: ", source.name, line.number)
    }
}

/// Puts the headline of an error at a place, and marks the place.
pub fn put_error<D: fmt::Display + Drop>(page: &mut Page, source: Source<'_>, at: usize, text: D) {
    page.put(At(source, at));
    page.put("error: ");
    page.put(text);
    page.put("\n");
    put_mark(page, source, at);
}

/// Puts the headline of an error at a place, a format, and marks the place.
#[macro_export]
macro_rules! error_at {
    ($page:expr, $source:expr, $at:expr; $($format:tt)*) => {
        $crate::put_error($page, $source, $at, format_args!($($format)*))
    };
}
