//! Readers, writers and files in memory.

ghost use Rattle.std.specs.Prelude.{◌≡◌, ◌+◌, refl, [], Some, option_map};
ghost use Rattle.std.specs.String.{string_bytes};

use std::alloc::Global;
use std::io;
use std::io::{ErrorKind, Read};
use tp_cli_files::Logs;
use tp_device::{Failed, Sink, Tally};

/// Bytes that come at most so many a call. Behind them is the end, or where it is broken an error.
#[derive(Clone, Copy)]
pub struct Feed<'a> {
    pub bytes: &'a [u8],
    pub most: usize,
    pub broken: bool,
}

impl<'a> Read for Feed<'a> {
    fn read(&mut self, buf: &mut [u8]) -> io::Result<usize> {
        let count = self.bytes.len().min(buf.len()).min(self.most);
        if count == 0 && self.broken {
            return Err(io::Error::from(ErrorKind::Other));
        }
        let (first, rest) = self.bytes.split_at(count);
        buf[..count].copy_from_slice(first);
        self.bytes = rest;
        Ok(count)
    }
}

/// A text with room for so many bytes. A push takes as many as there is room for; where there is
/// none, it fails.
#[derive(Drop)]
pub(crate) struct Sheet {
    text: Vec<u8>,
    room: usize,
    failures: Tally,
}

impl Sheet {
    /// An empty sheet.
    pub(crate) fn new(alloc: Global, room: usize) -> Self
        ensures text { result.text.items ≡ [] }
        ensures failures { result.failures.count ≡ 0 }
    {
        Sheet {
            text: Vec::new(alloc),
            room,
            failures: Tally::new(),
        }
    }

    /// What was written.
    pub(crate) fn into_text(self) -> Vec<u8> {
        self.text
    }
}

impl Sink for Sheet {
    ghost held = { λ s. Some s.text.items };

    ghost failures = { λ s. s.failures.count };

    fn push(&mut self, bytes: &[u8]) -> Result<usize, Failed> {
        let count = bytes.len().min(self.room);
        let full = count == 0 && !bytes.is_empty();
        if full || self.text.extend_from_slice(&bytes[..count]).is_err() {
            self.failures.tick();
            return Err(Failed);
        }
        self.room -= count;
        Ok(count)
    }
}

/// Room for one file that is made and written, if there is any. How many files were asked for, and
/// how many calls failed, is counted.
#[derive(Drop)]
pub(crate) struct CountedLogs {
    alloc: Global,
    room: Option<usize>,
    name: Option<String>,
    last: Option<Sheet>,
    asked: Tally,
    failures: Tally,
}

impl CountedLogs {
    /// Room for so many bytes, if a file can be made.
    pub(crate) fn new(alloc: Global, room: Option<usize>) -> Self {
        CountedLogs {
            alloc,
            room,
            name: None,
            last: None,
            asked: Tally::new(),
            failures: Tally::new(),
        }
    }

    /// What the file that was kept holds, if one was.
    pub(crate) fn into_text(self) -> Option<Vec<u8>> {
        let CountedLogs {
            alloc: _,
            room: _,
            name: _,
            last,
            asked: _,
            failures: _,
        } = self;
        match last {
            Some(sheet) => Some(sheet.into_text()),
            None => None,
        }
    }

    /// Notes that a file was asked for, and could not be made.
    fn fail(&mut self) -> Failed
        ensures failures { self.new.failures.count ≡ self.old.failures.count + 1 }
        ensures asked { self.new.asked.count ≡ self.old.asked.count }
    {
        self.failures.tick();
        Failed
    }
}

impl Logs for CountedLogs {
    type Log = Sheet;

    ghost asked = { λ d. Some d.asked.count };

    ghost named = { λ d. option_map string_bytes d.name };

    ghost kept = { λ d. option_map (λ s. s.text.items) d.last };

    ghost failures = { λ d. d.failures.count };

    ghost blank = { Some [] };

    ghost is_blank = { refl };

    fn make(&mut self, name: &str) -> Result<Sheet, Failed> {
        self.asked.tick();
        let Ok(name) = String::from_str(self.alloc, name) else {
            return Err(self.fail());
        };
        match self.room.take() {
            Some(room) => {
                self.name = Some(name);
                Ok(Sheet::new(self.alloc, room))
            }
            None => Err(self.fail()),
        }
    }

    fn keep(&mut self, log: Sheet) {
        self.failures.add(&log.failures);
        self.last = Some(log);
    }
}
