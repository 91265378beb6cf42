//! How wide texts are, in the letters of Helvetica, and as much of a text as there is room for.

use crate::picture::lengths::Length;
use std::alloc::{AllocError, Global};

/// The size of most letters, and of those of lanes and the axis, in pixels.
pub const SMALL: u64 = 11;

pub const PLAIN: u64 = 12;

/// What stands where letters were taken off.
const DOTS: &str = "..";

/// How wide a letter is, in thousandths of its size.
fn ems(letter: char) -> u64 {
    match letter {
        'i' | 'j' | 'l' => 222,
        'f' | 't' | '.' | ',' | ':' | ' ' => 278,
        'r' | '-' | '(' | ')' => 333,
        'c' | 'k' | 's' | 'v' | 'x' | 'y' | 'z' => 500,
        'w' => 722,
        'm' => 833,
        _ => 556,
    }
}

/// A width of so many thousandths of letters of a size.
fn scaled(thousandths: u64, size: u64) -> Length {
    Length::of(thousandths.saturating_mul(size).saturating_add(99) / 100)
}

/// How wide a text is in letters of a size.
pub fn width(text: &str, size: u64) -> Length {
    let mut sum = 0u64;
    for letter in text.chars() {
        sum = sum.saturating_add(ems(letter));
    }
    scaled(sum, size)
}

/// How many of a text's first letters there is room for with the dots behind them.
fn letters_before_dots(text: &str, room: Length) -> usize {
    let mut sum = 0u64;
    for dot in DOTS.chars() {
        sum = sum.saturating_add(ems(dot));
    }
    let mut count = 0usize;
    for letter in text.chars() {
        sum = sum.saturating_add(ems(letter));
        if scaled(sum, SMALL) > room {
            return count;
        }
        count = count.saturating_add(1);
    }
    count
}

/// As much of a text as there is room for in small letters: where not all of it is, it ends in two
/// dots, and where not one letter is, it is empty.
pub fn cut(alloc: Global, text: &str, room: Length) -> Result<String, AllocError> {
    if width(text, SMALL) <= room {
        return String::from_str(alloc, text);
    }
    let count = letters_before_dots(text, room);
    let mut shown = String::new(alloc);
    if count == 0 {
        return Ok(shown);
    }
    for letter in text.chars().take(count) {
        shown.push(letter)?;
    }
    shown.push_str(DOTS)?;
    Ok(shown)
}
