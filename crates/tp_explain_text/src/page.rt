//! The lines of explanations as they are put together.

use std::alloc::Global;
use std::fmt;

/// The lines of explanations. Where memory is refused, it takes no more, and only whole lines
/// count.
#[derive(Drop)]
pub struct Page {
    alloc: Global,
    bytes: Vec<u8>,
    full: bool,
}

impl Page {
    /// A page without lines. It takes no memory yet.
    pub fn new(alloc: Global) -> Page {
        Page {
            alloc,
            bytes: Vec::new(alloc),
            full: false,
        }
    }

    /// Where memory comes from.
    pub fn alloc(&self) -> Global {
        self.alloc
    }

    /// Puts bytes of a text as they are.
    pub fn put_bytes(&mut self, text: &[u8]) {
        if !self.full && self.bytes.extend_from_slice(text).is_err() {
            self.full = true;
        }
    }

    /// Puts what something prints.
    pub fn put<D: fmt::Display + Drop>(&mut self, text: D) {
        let _ = fmt::Write::write(self, text);
    }

    /// The whole lines.
    pub fn as_bytes(&self) -> &[u8] {
        match self.bytes.iter().rposition(|byte| *byte == b'\n') {
            Some(last) => self.bytes.get(..=last).unwrap_or(&[]),
            None => &[],
        }
    }

    /// Drops all lines. What was refused stays so.
    pub fn clear(&mut self) {
        self.bytes.clear();
    }
}

impl fmt::Write for Page {
    fn write_str(&mut self, text: &str) -> fmt::Result {
        self.put_bytes(text.as_bytes());
        Ok(())
    }
}

/// Puts a format on a page.
#[macro_export]
macro_rules! put {
    ($page:expr; $($format:tt)*) => {
        $page.put(format_args!($($format)*))
    };
}

/// A text of which at most so many characters are shown: a longer one ends in three dots.
#[derive(Clone, Copy)]
pub struct Cut<'t>(pub &'t str, pub usize);

impl fmt::Display for Cut<'_> {
    fn fmt<W: fmt::Write>(&self, f: &mut fmt::Formatter<W>) -> fmt::Result {
        let Cut(text, most) = *self;
        if text.chars().nth(most).is_none() {
            return write!(f, "{text}");
        }
        for letter in text.chars().take(most.saturating_sub(3)) {
            write!(f, "{letter}")?;
        }
        write!(f, "...")
    }
}

/// A text whose capital letters are small.
#[derive(Clone, Copy)]
pub struct Lower<'t>(pub &'t str);

impl fmt::Display for Lower<'_> {
    fn fmt<W: fmt::Write>(&self, f: &mut fmt::Formatter<W>) -> fmt::Result {
        for letter in self.0.chars() {
            write!(f, "{}", letter.to_ascii_lowercase())?;
        }
        Ok(())
    }
}

/// A number, and the word for one or for more.
#[derive(Clone, Copy)]
pub struct Count<'t>(pub u64, pub &'t str, pub &'t str);

impl fmt::Display for Count<'_> {
    fn fmt<W: fmt::Write>(&self, f: &mut fmt::Formatter<W>) -> fmt::Result {
        let Count(number, one, more) = *self;
        write!(f, "{number} {}", if number == 1 { one } else { more })
    }
}
