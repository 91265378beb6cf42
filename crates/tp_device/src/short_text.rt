//! Short texts that are put together before they are written.

ghost use Rattle.std.specs.Prelude.{◌≡◌, ℕ, ◌+◌, ◌≤◌, List, ◌++◌, length, take, decimal};
ghost use Rattle.std.specs.Fmt.{signed_decimal};

use itoa::Buffer;
use std::marker::Model;

/// At most 64 bytes. Nothing here takes memory.
#[derive(Drop)]
pub struct Text {
    bytes: [u8; 64],
    len: usize,
}

impl Model for Text {
    ghost Value = { List ℕ };

    ghost view = { λ t. take t.len t.bytes };

    ghost invariant = { λ t. t.len ≤ 64 };
}

impl Text {
    /// A text of its own.
    pub fn new(first: &[u8]) -> Text
        requires { length first.now ≤ 64 }
        ensures { result ≡ first.now }
    {
        let mut bytes = [0; 64];
        bytes[..first.len()].copy_from_slice(first);
        Text {
            bytes,
            len: first.len(),
        }
    }

    /// Puts more at the end.
    pub fn put(&mut self, more: &[u8])
        requires { length self.old + length more.now ≤ 64 }
        ensures { self.new ≡ self.old ++ more.now }
    {
        let end = self.len + more.len();
        self.bytes[self.len..end].copy_from_slice(more);
        self.len = end;
    }

    /// Puts a number at the end.
    pub fn put_number(&mut self, n: u32)
        requires { length self.old + 10 ≤ 64 }
        ensures text { self.new ≡ self.old ++ decimal n }
        ensures short { length self.new ≤ length self.old + 10 }
    {
        let mut buffer = Buffer::new();
        self.put(buffer.format(n).as_bytes());
    }

    /// Puts a signed number at the end.
    pub fn put_signed(&mut self, n: i64)
        requires { length self.old + 20 ≤ 64 }
        ensures text { self.new ≡ self.old ++ signed_decimal n }
        ensures short { length self.new ≤ length self.old + 20 }
    {
        let mut buffer = Buffer::new();
        self.put(buffer.format(n).as_bytes());
    }

    /// Its bytes.
    pub fn as_slice(&self) -> &[u8]
        ensures { result.now ≡ self.now }
    {
        &self.bytes[..self.len]
    }
}
