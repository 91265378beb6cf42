//! A text that is gathered before it is written. Nothing here takes memory.

ghost use Rattle.std.specs.Prelude.{◌≡◌, ℕ, ◌+◌, ◌-◌, ◌<◌, ◌≤◌, List, [], ◌++◌, length, take, Some};

use std::marker::Model;
use tp_device::{Failed, Sink, Tally};

/// At most 16,896 bytes: a line of an answer, of which a journal has none of more than 16,384, and
/// the line of its command.
#[derive(Drop)]
struct Sheet {
    bytes: [u8; 16_896],
    len: usize,
}

impl Model for Sheet {
    ghost Value = { List ℕ };

    ghost view = { λ s. take s.len s.bytes };

    ghost invariant = { λ s. s.len ≤ 16_896 };
}

impl Sheet {
    /// Nothing yet.
    fn new() -> Sheet
        ensures { result ≡ [] }
    {
        Sheet {
            bytes: [0; 16_896],
            len: 0,
        }
    }

    /// How many bytes may follow.
    fn room(&self) -> usize
        ensures { length self.now + result ≡ 16_896 }
    {
        16_896 - self.len
    }

    /// Puts more at the end.
    fn put(&mut self, more: &[u8])
        requires { length self.old + length more.now ≤ 16_896 }
        ensures { self.new ≡ self.old ++ more.now }
    {
        let end = self.len + more.len();
        self.bytes[self.len..end].copy_from_slice(more);
        self.len = end;
    }

    /// Its bytes.
    fn as_slice(&self) -> &[u8]
        ensures { result.now ≡ self.now }
    {
        &self.bytes[..self.len]
    }
}

/// A sink that keeps what it is given until it is asked for. A push of more than there is room for
/// fails.
#[derive(Drop)]
pub(crate) struct Gathered {
    sheet: Sheet,
    failed: Tally,
}

impl Gathered {
    /// Nothing is gathered yet.
    pub(crate) fn new() -> Self
        ensures { result.sheet ≡ [] }
    {
        Gathered {
            sheet: Sheet::new(),
            failed: Tally::new(),
        }
    }

    /// What is gathered.
    pub(crate) fn as_slice(&self) -> &[u8]
        ensures { result.now ≡ self.now.sheet }
    {
        self.sheet.as_slice()
    }
}

impl Sink for Gathered {
    ghost held = { λ s. Some s.sheet };

    ghost failures = { λ s. s.failed.count };

    fn push(&mut self, bytes: &[u8]) -> Result<usize, Failed> {
        if bytes.len() > self.sheet.room() {
            self.failed.tick();
            return Err(Failed);
        }
        self.sheet.put(bytes);
        Ok(bytes.len())
    }
}
