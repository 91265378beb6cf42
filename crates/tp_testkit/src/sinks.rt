//! Bytes that are written.

ghost use Rattle.std.specs.Prelude.{◌≡◌, ◌<◌, ◌≤◌, length, max, min, Some, None, IfOk, MatchResult};
ghost use Rattle.std.specs.Io.KnownBytes.{WriteAppends};
ghost use Rattle.tp_device.specs.Bytes.{failures_after};
ghost use Rattle.tp_testkit.specs.Stopping.{Taking, share_of, stop_after, passed};

use crate::stops::Stop;
use std::marker::Model;
use tp_device::{Failed, Sink, Tally};

/// A text behind which bytes are put, of which a call takes at most so many, and which stop there.
#[derive(Drop)]
pub struct StopSink {
    text: Vec<u8>,
    most: usize,
    stop: Stop,
    failed: Tally,
}

impl Model for StopSink {
    ghost use Rattle.std.specs.Prelude.{◌<◌};
    ghost use Rattle.tp_testkit.specs.Stopping.{Taking};

    ghost Value = { Taking };

    ghost view = { λ s. record {
      held = s.text.items;
      most = s.most;
      stop = s.stop;
      failures = s.failed.count;
    } };

    ghost invariant = { λ s. 0 < s.most };
}

impl StopSink {
    /// The text, behind which a call takes at most `most` bytes, or one where that is 0.
    pub fn new(text: Vec<u8>, most: usize, stop: Stop) -> Self
        ensures { result
            ≡ record { held = text.items; most = max most 1; stop = stop; failures = 0 } }
    {
        StopSink {
            text,
            most: most.max(1),
            stop,
            failed: Tally::new(),
        }
    }

    /// The text as it is now.
    pub fn into_text(self) -> Vec<u8>
        ensures { result.items ≡ self.held }
    {
        self.text
    }
}

impl Sink for StopSink {
    ghost held = { λ s. Some s.held };

    ghost failures = { λ s. s.failures };

    /// Takes bytes from the front, up to its most and up to where it stops. Memory is asked for
    /// where the text grows past its capacity.
    ///
    /// # Errors
    /// `Failed` where it stops, and where memory is refused.
    fn push(&mut self, bytes: &[u8]) -> Result<usize, Failed>
        ensures within { IfOk result (λ n. n ≤ length bytes.now) }
        ensures some { 0 < length bytes.now → IfOk result (λ n. 0 < n) }
        ensures bytes { WriteAppends (Some self.old.held) (Some self.new.held) result bytes.now }
        ensures cause { self.new.failures ≡ failures_after self.old.failures result }
        ensures share { IfOk result
            (λ n. share_of self.old.stop (min self.old.most (length bytes.now)) ≡ Some n) }
        ensures stop { self.new.stop ≡ stop_after self.old.stop (passed result) }
        ensures most { self.new.most ≡ self.old.most }
    {
        let share = self.stop.share(self.most.min(bytes.len()));
        match share {
            Some(count) if self.text.extend_from_slice(&bytes[..count]).is_ok() => {
                self.stop = self.stop.after(count);
                Ok(count)
            }
            _ => {
                self.stop = self.stop.after(0);
                self.failed.tick();
                Err(Failed)
            }
        }
    }
}
