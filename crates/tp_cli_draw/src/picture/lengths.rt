//! Lengths on the page.

use std::fmt;
use std::ops::{Add, Sub};

/// A length on the page, in tenths of a pixel. Sums and differences stop at the ends of its range,
/// which no page comes near.
#[derive(Clone, Copy, Debug, PartialEq, Eq, PartialOrd, Ord)]
pub struct Length(pub i32);

impl Add for Length {
    type Output = Length;

    fn add(self, other: Length) -> Length {
        Length(self.0.saturating_add(other.0))
    }
}

impl Sub for Length {
    type Output = Length;

    fn sub(self, other: Length) -> Length {
        Length(self.0.saturating_sub(other.0))
    }
}

impl fmt::Display for Length {
    /// In pixels, with a decimal where it needs one.
    fn fmt<W: fmt::Write>(&self, f: &mut fmt::Formatter<W>) -> fmt::Result {
        let sign = if self.0 < 0 { "-" } else { "" };
        let tenths = self.0.unsigned_abs();
        let pixels = tenths / 10;
        match tenths % 10 {
            0 => write!(f, "{sign}{pixels}"),
            tenth => write!(f, "{sign}{pixels}.{tenth}"),
        }
    }
}

impl Length {
    /// A count of tenths, or the longest length where there is none so long.
    pub fn of(tenths: u64) -> Length {
        match i32::try_from(tenths) {
            Ok(tenths) => Length(tenths),
            Err(_) => Length(i32::MAX),
        }
    }

    /// So many times the length.
    pub fn times(self, count: usize) -> Length {
        match i32::try_from(count) {
            Ok(count) => Length(self.0.saturating_mul(count)),
            Err(_) => Length(i32::MAX),
        }
    }

    /// Half of it, rounded down.
    pub fn half(self) -> Length {
        Length(self.0 >> 1)
    }
}
