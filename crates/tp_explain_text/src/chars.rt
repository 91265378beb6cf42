//! The characters of bytes that may be no text.

use std::str::from_utf8;

/// What stands first, and what follows it.
#[derive(Clone, Copy)]
pub struct FirstChar<'t> {
    /// The character, or `None` for a byte that begins none.
    pub found: Option<char>,
    pub bytes: &'t [u8],
    pub rest: &'t [u8],
}

/// The character that so many bytes at the front are, if they are one.
fn char_of(bytes: &[u8], count: usize) -> Option<FirstChar<'_>> {
    let front = bytes.get(..count)?;
    Some(FirstChar {
        found: Some(from_utf8(front).ok()?.chars().next()?),
        bytes: front,
        rest: bytes.get(count..)?,
    })
}

/// What stands first among bytes, if there are any: a character (a Unicode scalar value), or a byte
/// that begins none.
pub fn first_char(bytes: &[u8]) -> Option<FirstChar<'_>> {
    let count = match bytes.first()? {
        0..=127 => 1,
        192..=223 => 2,
        224..=239 => 3,
        _ => 4,
    };
    let byte = FirstChar {
        found: None,
        bytes: bytes.get(..1)?,
        rest: bytes.get(1..)?,
    };
    Some(char_of(bytes, count).unwrap_or(byte))
}

/// How many characters there are.
pub(crate) fn count_chars(bytes: &[u8]) -> usize {
    let mut rest = bytes;
    for count in 0..bytes.len() {
        match first_char(rest) {
            Some(first) => rest = first.rest,
            None => return count,
        }
    }
    bytes.len()
}

/// What follows so many characters.
pub(crate) fn after_chars(bytes: &[u8], count: usize) -> &[u8] {
    let mut rest = bytes;
    for _ in 0..count {
        match first_char(rest) {
            Some(first) => rest = first.rest,
            None => return rest,
        }
    }
    rest
}
