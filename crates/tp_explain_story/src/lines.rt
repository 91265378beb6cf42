//! The lines of a run that go in, with their places.

use std::alloc::{AllocError, Global};

/// What was read of the input and not taken yet.
#[derive(Drop)]
pub struct Input {
    alloc: Global,
    bytes: Vec<u8>,
    line: u64,
}

/// A line of the input: its bytes, its number, and from where to
/// where it has words.
#[derive(Drop)]
pub struct InputLine {
    pub bytes: Vec<u8>,
    pub number: u64,
    pub from: usize,
    pub until: usize,
}

impl InputLine {
    /// Its bytes from its first word to its last.
    pub fn words(&self) -> &[u8] {
        self.bytes.get(self.from..self.until).unwrap_or(&[])
    }

    /// The column of its first word.
    pub fn column(&self) -> u64 {
        u64::try_from(self.from).unwrap_or(0).saturating_add(1)
    }
}

/// Whether a byte stands between words.
fn is_blank(byte: u8) -> bool {
    byte == b' ' || byte == b'\t' || byte == b'\r'
}

/// How many blanks bytes begin with.
fn blanks(bytes: &[u8]) -> usize {
    let count = bytes.iter().position(|byte| !is_blank(*byte));
    count.unwrap_or(bytes.len())
}

/// Where the last word of bytes ends.
fn end_of_words(bytes: &[u8]) -> usize {
    match bytes.iter().rposition(|byte| !is_blank(*byte)) {
        Some(last) => last.saturating_add(1),
        None => 0,
    }
}

impl Input {
    /// Nothing was read.
    pub fn new(alloc: Global) -> Input {
        Input {
            alloc,
            bytes: Vec::new(alloc),
            line: 0,
        }
    }

    /// Takes bytes that were read.
    pub fn take(&mut self, bytes: &[u8]) -> Result<(), AllocError> {
        self.bytes.extend_from_slice(bytes)
    }

    /// How many bytes the next line has without its end, and with it. None where nothing is left.
    fn next_length(&self) -> Option<(usize, usize)> {
        if self.bytes.is_empty() {
            return None;
        }
        match self.bytes.iter().position(|byte| *byte == b'\n') {
            Some(length) => Some((length, length.saturating_add(1))),
            None => Some((self.bytes.len(), self.bytes.len())),
        }
    }

    /// The next line, which is left.
    pub fn look(&self) -> Result<Option<InputLine>, AllocError> {
        let Some((length, _)) = self.next_length() else {
            return Ok(None);
        };
        let line = self.bytes.get(..length).unwrap_or(&[]);
        Ok(Some(InputLine {
            bytes: line.to_vec(self.alloc)?,
            number: self.line.saturating_add(1),
            from: blanks(line),
            until: end_of_words(line),
        }))
    }

    /// Drops the next line.
    pub fn skip(&mut self) -> Result<(), AllocError> {
        let Some((_, whole)) = self.next_length() else {
            return Ok(());
        };
        let rest = self.bytes.get(whole..).unwrap_or(&[]);
        let rest = rest.to_vec(self.alloc)?;
        self.bytes = rest;
        self.line = self.line.saturating_add(1);
        Ok(())
    }

    /// The next line that has words, which is taken with those before it.
    pub fn next_with_words(&mut self) -> Result<Option<InputLine>, AllocError> {
        for _ in 0..=self.bytes.len() {
            let Some(line) = self.look()? else {
                return Ok(None);
            };
            self.skip()?;
            if !line.words().is_empty() {
                return Ok(Some(line));
            }
        }
        Ok(None)
    }
}
