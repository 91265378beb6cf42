//! The parts of a fault line.

use crate::calls::Call;

/// A fault line: its part, its word, and what stands behind it; and the call that it ended, with
/// what was read of standard input.
#[derive(Clone, Copy)]
pub struct Line<'l> {
    pub part: &'l str,
    pub word: &'l str,
    pub rest: &'l str,
    pub call: Call<'l>,
    pub input: &'l [u8],
}

/// The first word of a text, and what stands behind the space that follows it.
pub fn cut_word(text: &str) -> (&str, &str) {
    match text.split_once(' ') {
        Some((word, rest)) => (word, rest),
        None => (text, ""),
    }
}

/// A number and a word at the front of a text, and what stands behind them: the last two.
pub fn cut_fault(text: &str) -> (&str, &str) {
    let (_, behind) = cut_word(text);
    cut_word(behind)
}

/// The parts of a line, if it is one of a fault.
pub fn line_of<'l>(text: &'l str, call: Call<'l>, input: &'l [u8]) -> Option<Line<'l>> {
    let (fault, behind) = cut_word(text);
    if fault != "fault" {
        return None;
    }
    let (part, behind) = cut_word(behind);
    let (word, rest) = cut_fault(behind);
    Some(Line {
        part,
        word,
        rest,
        call,
        input,
    })
}

/// The number at the front of a text.
pub fn number_of(text: &str) -> Option<u64> {
    cut_word(text).0.parse::<u64>().ok()
}

/// The place at the front of a text.
pub fn place_of(text: &str) -> Option<usize> {
    cut_word(text).0.parse::<usize>().ok()
}
