//! Readers and writers of std as devices.

ghost use Rattle.std.specs.Prelude.{◌≡◌};

use crate::failures::Tally;
use crate::{Failed, Sink, Source};
use std::io::{Read, Write};

/// A reader of std as a source. Each error of the reader is a failure, also an interruption.
#[derive(Drop)]
pub struct FromRead<R: Read> {
    reader: R,
    failed: Tally,
}

impl<R: Read> FromRead<R> {
    /// The source of what the reader has left.
    pub fn new(reader: R) -> Self
        ensures left { ⟦<FromRead<R> as Source>⟧.left result ≡ R.remaining reader }
        ensures failures { ⟦<FromRead<R> as Source>⟧.failures result ≡ 0 }
    {
        FromRead {
            reader,
            failed: Tally::new(),
        }
    }
}

impl<R: Read> Source for FromRead<R> {
    ghost left = { λ s. R.remaining s.reader };

    ghost failures = { λ s. s.failed.count };

    fn pull(&mut self, buffer: &mut [u8]) -> Result<usize, Failed> {
        match self.reader.read(buffer) {
            Ok(n) => Ok(n),
            Err(_) => {
                self.failed.tick();
                Err(Failed)
            }
        }
    }
}

/// A writer of std as a sink. Each error of the writer is a failure, also an interruption, and so
/// is a call that takes none of some bytes. It keeps nothing back: what a push took was handed to
/// the writer.
#[derive(Drop)]
pub struct ToWrite<W: Write> {
    writer: W,
    failed: Tally,
}

impl<W: Write> ToWrite<W> {
    /// The sink that hands its bytes to the writer.
    pub fn new(writer: W) -> Self
        ensures held { ⟦<ToWrite<W> as Sink>⟧.held result ≡ W.contents writer }
        ensures failures { ⟦<ToWrite<W> as Sink>⟧.failures result ≡ 0 }
    {
        ToWrite {
            writer,
            failed: Tally::new(),
        }
    }

    /// The writer, with what it holds.
    pub fn into_writer(self) -> W
        ensures { W.contents result ≡ ⟦<ToWrite<W> as Sink>⟧.held self }
    {
        self.writer
    }
}

impl<W: Write> Sink for ToWrite<W> {
    ghost held = { λ s. W.contents s.writer };

    ghost failures = { λ s. s.failed.count };

    fn push(&mut self, bytes: &[u8]) -> Result<usize, Failed> {
        match self.writer.write(bytes) {
            Ok(n) if n != 0 || bytes.is_empty() => Ok(n),
            _ => {
                self.failed.tick();
                Err(Failed)
            }
        }
    }
}
