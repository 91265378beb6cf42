//! Bytes that are read.

ghost use Rattle.std.specs.Prelude.{◌≡◌, ◌<◌, ◌≤◌, length, max, Some, None, IfOk, MatchResult};
ghost use Rattle.std.specs.Io.KnownBytes.{ReadConsumes};
ghost use Rattle.tp_device.specs.Bytes.{failures_after};
ghost use Rattle.tp_testkit.specs.Stopping.{Giving, room_of, share_of, stop_after, passed};

use crate::stops::Stop;
use std::marker::Model;
use tp_device::{Failed, Source, Tally};

/// Bytes of which a call gives at most so many, and which stop there.
#[derive(Drop)]
pub struct StopSource<'a> {
    bytes: &'a [u8],
    most: usize,
    stop: Stop,
    failed: Tally,
}

impl<'a> Model for StopSource<'a> {
    ghost use Rattle.std.specs.Prelude.{◌<◌};
    ghost use Rattle.tp_testkit.specs.Stopping.{Giving};

    ghost Value = { Giving };

    ghost view = { λ s. record {
      left = s.bytes.now;
      most = s.most;
      stop = s.stop;
      failures = s.failed.count;
    } };

    ghost invariant = { λ s. 0 < s.most };
}

impl<'a> StopSource<'a> {
    /// These bytes, of which a call gives at most `most`, or one where that is 0.
    pub fn new(bytes: &'a [u8], most: usize, stop: Stop) -> Self
        ensures { result
            ≡ record { left = bytes.now; most = max most 1; stop = stop; failures = 0 } }
    {
        StopSource {
            bytes,
            most: most.max(1),
            stop,
            failed: Tally::new(),
        }
    }
}

impl Source for StopSource<'_> {
    ghost left = { λ s. Some s.left };

    ghost failures = { λ s. s.failures };

    /// Gives as many bytes as there is room for, up to its most and up to where it stops. It fails
    /// there, also if no byte is left.
    ///
    /// # Errors
    /// `Failed` where it stops.
    fn pull(&mut self, buffer: &mut [u8]) -> Result<usize, Failed>
        ensures within { IfOk result (λ n. n ≤ length buffer.old) }
        ensures bytes { ReadConsumes (Some self.old.left) (Some self.new.left) result buffer.new }
        ensures cause { self.new.failures ≡ failures_after self.old.failures result }
        ensures share { MatchResult result
            (λ n. share_of self.old.stop (room_of self.old (length buffer.old)) ≡ Some n)
            (λ _. share_of self.old.stop (room_of self.old (length buffer.old)) ≡ None) }
        ensures stop { self.new.stop ≡ stop_after self.old.stop (passed result) }
        ensures most { self.new.most ≡ self.old.most }
    {
        let count = self.most.min(buffer.len()).min(self.bytes.len());
        match self.stop.share(count) {
            Some(count) => {
                self.stop = self.stop.after(count);
                let (first, rest) = self.bytes.split_at(count);
                buffer[..count].copy_from_slice(first);
                self.bytes = rest;
                Ok(count)
            }
            None => {
                self.stop = self.stop.after(0);
                self.failed.tick();
                Err(Failed)
            }
        }
    }
}
