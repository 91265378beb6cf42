//! Runs of a vector's items.

/// What stands for no number.
pub const NONE: u32 = u32::MAX;

/// Some neighbouring items of a vector.
#[derive(Clone, Copy, Debug, PartialEq, Eq)]
pub struct Span {
    pub at: u32,
    pub count: u32,
}

impl Span {
    /// No items.
    pub const EMPTY: Span = Span { at: 0, count: 0 };

    /// The items from one place to another.
    pub fn between(from: usize, to: usize) -> Span {
        Span {
            at: small(from),
            count: small(to.saturating_sub(from)),
        }
    }
}

/// A count, as large as a number of 32 bits may get.
pub fn small(count: usize) -> u32 {
    u32::try_from(count).unwrap_or(u32::MAX)
}

/// The items of a span, none where it goes past the last.
pub fn part<T>(items: &[T], span: Span) -> &[T] {
    let at = span.at as usize;
    match items.get(at..at.saturating_add(span.count as usize)) {
        Some(part) => part,
        None => &[],
    }
}
