//! What is wrong with a line of a plan that is no step.

use crate::steps::{Piece, line_of, next_piece, next_place};
use std::str::from_utf8;
use tp_explain_text::{Page, Source, error_at, put, without_return};
use tp_syntax_ast::is_name;
use tp_text::has_time_form;

/// What a line wants next.
#[derive(Clone, Copy, PartialEq, Eq)]
enum Wanted {
    Time,
    Colon,
    Opening,
    Name,
    NameOrClosing,
    BracketOrEnd,
    Duration,
    Bracket,
    End,
}

impl Wanted {
    /// How it is told.
    fn words(self, found_word: bool) -> &'static str {
        match self {
            Wanted::Time => "a time",
            Wanted::Colon => "`:` behind the time",
            Wanted::Opening => "`(`",
            Wanted::Name => "a name",
            Wanted::NameOrClosing if found_word => "a name",
            Wanted::NameOrClosing => "`)`",
            Wanted::Duration => "a duration behind `[`",
            Wanted::Bracket => "`]`",
            Wanted::BracketOrEnd | Wanted::End => "the end of the line",
        }
    }

    /// What is wanted behind a word.
    fn behind_word(self, word: &str) -> Option<Wanted> {
        match self {
            Wanted::Time if has_time_form(word) => Some(Wanted::Colon),
            Wanted::Name | Wanted::NameOrClosing if is_name(word.as_bytes()) => {
                Some(Wanted::NameOrClosing)
            }
            Wanted::Duration if has_time_form(word) => Some(Wanted::Bracket),
            _ => None,
        }
    }

    /// What is wanted behind a sign.
    fn behind_sign(self, sign: &[u8]) -> Option<Wanted> {
        match (self, sign) {
            (Wanted::Colon, b":") => Some(Wanted::Opening),
            (Wanted::Opening, b"(") => Some(Wanted::Name),
            (Wanted::NameOrClosing, b")") => Some(Wanted::BracketOrEnd),
            (Wanted::BracketOrEnd, b"[") => Some(Wanted::Duration),
            (Wanted::Bracket, b"]") => Some(Wanted::End),
            _ => None,
        }
    }

    /// What is wanted behind a piece, if it is what was wanted.
    fn behind(self, piece: &Piece<'_>) -> Option<Wanted> {
        if piece.is_word {
            self.behind_word(from_utf8(piece.text).unwrap_or(""))
        } else {
            self.behind_sign(piece.text)
        }
    }
}

/// The first thing in a line that does not fit, and what was wanted there. At the end of the line
/// there is no piece.
#[derive(Clone, Copy)]
struct Misfit<'l> {
    wanted: Wanted,
    at: usize,
    piece: Option<Piece<'l>>,
}

fn first_misfit(line: &[u8]) -> Misfit<'_> {
    let mut wanted = Wanted::Time;
    let mut from = 0usize;
    for _ in 0..line.len() {
        let Some(piece) = next_piece(line, from) else {
            break;
        };
        match wanted.behind(&piece) {
            Some(next) => wanted = next,
            None => {
                return Misfit {
                    wanted,
                    at: piece.at,
                    piece: Some(piece),
                };
            }
        }
        from = piece.end();
    }
    Misfit {
        wanted,
        at: next_place(line, from),
        piece: None,
    }
}

/// The word at the front up to a blank, a parenthesis, a bracket or a comment.
fn shown(bytes: &[u8]) -> &str {
    let end = bytes.iter().position(|byte| match *byte {
        b'(' | b')' | b'[' | b']' | b';' => true,
        byte => byte < b'!' || b'~' < byte,
    });
    text_in(bytes.get(..end.unwrap_or(bytes.len())).unwrap_or(bytes))
}

/// A part of a line as text.
fn text_in(bytes: &[u8]) -> &str {
    from_utf8(bytes).unwrap_or("?")
}

/// The list that begins at a place of a line: its head, and what stands behind that.
fn brief(line: &[u8], at: usize) -> (&str, &'static str) {
    match next_piece(line, at.saturating_add(1)) {
        Some(head) if head.is_word => match next_piece(line, head.end()) {
            Some(next) if next.is_sign(b')') => (text_in(head.text), ")"),
            _ => (text_in(head.text), " ..)"),
        },
        Some(head) if head.is_sign(b')') => ("", ")"),
        _ => ("", "..)"),
    }
}

/// Puts what was wanted at a place, and what stands there.
fn put_expected(page: &mut Page, plan: Source<'_>, at: usize, line: &[u8], misfit: &Misfit<'_>) {
    let Some(piece) = misfit.piece else {
        let wanted = misfit.wanted.words(false);
        error_at!(page, plan, at; "expected {wanted}, found the end of the line");
        return;
    };
    let wanted = misfit.wanted.words(piece.is_word);
    if piece.is_sign(b'(') {
        let (head, behind) = brief(line, piece.at);
        error_at!(page, plan, at; "expected {wanted}, found `({head}{behind}`");
    } else if piece.is_word {
        let word = shown(line.get(piece.at..).unwrap_or(&[]));
        let word = word.strip_suffix(':').unwrap_or(word);
        error_at!(page, plan, at; "expected {wanted}, found `{word}`");
    } else {
        error_at!(page, plan, at; "expected {wanted}, found `{}`", text_in(piece.text));
    }
}

/// Puts what can be written instead, where there is no time.
fn put_time_help(page: &mut Page, line: &[u8], piece: &Piece<'_>) {
    let begins_number = match piece.text {
        [first, ..] => first.is_ascii_digit() || *first == b'-' || *first == b'.',
        [] => false,
    };
    if piece.is_sign(b'(') {
        let (head, behind) = brief(line, piece.at);
        put!(page; "help: write a time before it, as in `0: ({head}{behind}`\n");
    } else if piece.is_word && !begins_number {
        page.put("help: begin a comment with `;`\n");
    }
}

/// Puts what is wrong with the line of a number of a plan, which is no step.
pub fn put_line(page: &mut Page, plan: Source<'_>, number: u64) {
    let Some((whole, begin)) = line_of(plan.text, number) else {
        return;
    };
    let line = without_return(whole);
    let misfit = first_misfit(line);
    put_expected(page, plan, begin.saturating_add(misfit.at), line, &misfit);
    page.put("note: a step is `TIME: (NAME ARG ..) [DURATION]`\n");
    if let (Wanted::Time, Some(piece)) = (misfit.wanted, misfit.piece) {
        put_time_help(page, line, &piece);
    }
}

/// The most steps of a plan.
const MOST_STEPS: u64 = 512;

/// Puts that a plan has too many steps, at the first of those.
pub fn put_too_many_steps(page: &mut Page, plan: Source<'_>) {
    let mut begin = 0usize;
    let mut count = 0u64;
    for line in plan.text.split(|byte| *byte == b'\n') {
        if let Some(piece) = next_piece(line, 0) {
            count = count.saturating_add(1);
            if count > MOST_STEPS {
                let at = begin.saturating_add(piece.at);
                error_at!(page, plan, at; "the plan has more than 512 steps");
                return;
            }
        }
        begin = begin.saturating_add(line.len()).saturating_add(1);
    }
}
