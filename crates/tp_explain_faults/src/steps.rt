//! The parts of a line of a plan.

use std::alloc::{AllocError, Global};
use std::str::from_utf8;
use tp_explain_text::first_char;

/// A word or a sign of a line, and where it stands in it.
#[derive(Clone, Copy)]
pub struct Piece<'l> {
    pub text: &'l [u8],
    pub at: usize,
    pub is_word: bool,
}

impl<'l> Piece<'l> {
    /// Whether it is this sign.
    pub fn is_sign(&self, sign: u8) -> bool {
        !self.is_word && self.text == [sign].as_slice()
    }

    /// Where it ends.
    pub fn end(&self) -> usize {
        self.at.saturating_add(self.text.len())
    }
}

fn is_blank(byte: u8) -> bool {
    byte == b' ' || (9 <= byte && byte <= 13)
}

/// Whether a word of a plan may have a byte.
fn is_letter(byte: u8) -> bool {
    match byte {
        b':' | b'(' | b')' | b'[' | b']' | b';' => false,
        _ => b'!' <= byte && byte <= b'~',
    }
}

/// How many bytes at the front are as they should be.
fn front_len(bytes: &[u8], blanks: bool) -> usize {
    for (count, byte) in bytes.iter().enumerate() {
        if (blanks && !is_blank(*byte)) || (!blanks && !is_letter(*byte)) {
            return count;
        }
    }
    bytes.len()
}

/// Where the first piece from a place on begins, or the comment or the end of the line.
pub fn next_place(line: &[u8], from: usize) -> usize {
    let rest = line.get(from..).unwrap_or(&[]);
    from.saturating_add(front_len(rest, true))
}

/// The first piece from a place on. A comment has none.
pub fn next_piece(line: &[u8], from: usize) -> Option<Piece<'_>> {
    let at = next_place(line, from);
    let rest = line.get(at..)?;
    if rest.first() == Some(&b';') {
        return None;
    }
    let length = front_len(rest, false);
    if length > 0 {
        return Some(Piece {
            text: rest.get(..length)?,
            at,
            is_word: true,
        });
    }
    Some(Piece {
        text: first_char(rest)?.bytes,
        at,
        is_word: false,
    })
}

/// A word of a step, and where it stands in the file.
#[derive(Clone, Copy)]
pub struct Word<'l> {
    pub text: &'l str,
    pub at: usize,
}

/// A line of a plan that has the form of a step: the time, the words in parentheses, and the
/// duration.
#[derive(Drop)]
pub struct StepLine<'l> {
    pub time: Word<'l>,
    pub words: Vec<Word<'l>>,
    pub duration: Option<Word<'l>>,
}

/// The line of a number, from 1, of a text: its bytes without its end, and where it begins.
pub fn line_of(text: &[u8], number: u64) -> Option<(&[u8], usize)> {
    let mut begin = 0usize;
    let mut left = number.checked_sub(1)?;
    for (at, byte) in text.iter().enumerate() {
        if *byte != b'\n' {
            continue;
        }
        if left == 0 {
            return Some((text.get(begin..at)?, begin));
        }
        left = left.saturating_sub(1);
        begin = at.saturating_add(1);
    }
    if left == 0 {
        return Some((text.get(begin..)?, begin));
    }
    None
}

/// The text of a word, or one that is empty.
pub fn text_of<'l>(word: Option<&Word<'l>>) -> &'l str {
    match word {
        Some(word) => word.text,
        None => "",
    }
}

fn word_at<'l>(piece: &Piece<'l>, begin: usize) -> Word<'l> {
    Word {
        text: from_utf8(piece.text).unwrap_or(""),
        at: begin.saturating_add(piece.at),
    }
}

/// The words of a line that begins at a place of its file.
fn words_of<'l>(alloc: Global, line: &'l [u8], begin: usize) -> Result<Vec<Word<'l>>, AllocError> {
    let mut words = Vec::new(alloc);
    let mut from = 0usize;
    for _ in 0..line.len() {
        let Some(piece) = next_piece(line, from) else {
            break;
        };
        from = piece.end();
        if piece.is_word {
            words.push(word_at(&piece, begin))?;
        }
    }
    Ok(words)
}

/// Whether a line has a bracket, before a comment.
fn has_bracket(line: &[u8]) -> bool {
    let mut from = 0usize;
    for _ in 0..line.len() {
        let Some(piece) = next_piece(line, from) else {
            return false;
        };
        if piece.is_sign(b'[') {
            return true;
        }
        from = piece.end();
    }
    false
}

/// The parts of a line that has the form of a step and begins at a place of its file.
pub fn read_step<'l>(
    alloc: Global,
    line: &'l [u8],
    begin: usize,
) -> Result<Option<StepLine<'l>>, AllocError> {
    let mut words = words_of(alloc, line, begin)?;
    let duration = if has_bracket(line) { words.pop() } else { None };
    if words.is_empty() {
        return Ok(None);
    }
    let time = words.remove(0);
    Ok(Some(StepLine {
        time,
        words,
        duration,
    }))
}
