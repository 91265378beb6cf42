//! Bytes that are written to memory, and lines of a journal.

ghost use Rattle.std.specs.Prelude.{None, if◌then◌else◌};

use std::alloc::{AllocError, Global};
use std::str::from_utf8;
use tp_device::{Failed, Sink, Source as Reader};
use tp_explain_text::Cut;
use tp_script::{Lines, Next};

/// The most bytes of a line of a journal.
pub const LONGEST: usize = 16_384;

/// Bytes that are written to memory. Where memory is refused, it has failed, and takes no more.
#[derive(Drop)]
pub struct Taken {
    bytes: Vec<u8>,
    failed: bool,
}

impl Taken {
    /// No bytes yet.
    pub fn new(alloc: Global) -> Taken {
        Taken {
            bytes: Vec::new(alloc),
            failed: false,
        }
    }

    /// The bytes that were written.
    pub fn into_bytes(self) -> Vec<u8> {
        let Taken { bytes, .. } = self;
        bytes
    }
}

impl Sink for Taken {
    ghost held = { λ _. None };

    ghost failures = { λ s. if s.failed then 1 else 0 };

    fn push(&mut self, bytes: &[u8]) -> Result<usize, Failed> {
        if self.failed {
            return Ok(bytes.len());
        }
        if self.bytes.extend_from_slice(bytes).is_err() {
            self.failed = true;
            return Err(Failed);
        }
        Ok(bytes.len())
    }
}

/// The next line of a journal, without its end.
pub fn next_of<S: Reader + Drop>(
    alloc: Global,
    lines: &mut Lines<'_, S>,
) -> Result<Option<Vec<u8>>, AllocError> {
    match lines.next_line() {
        Ok(Next::Line) => Ok(Some(Vec::from_slice(alloc, lines.line())?)),
        _ => Ok(None),
    }
}

/// A line of ASCII, at most 100 characters of it.
pub fn shown(bytes: &[u8]) -> Cut<'_> {
    let line = bytes.strip_suffix(b"\n").unwrap_or(bytes);
    Cut(from_utf8(line).unwrap_or("?"), 100)
}
