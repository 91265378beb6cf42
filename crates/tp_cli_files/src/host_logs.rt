//! Journal files of the host.

ghost use Rattle.std.specs.Prelude.{◌≡◌, ◌<◌, ◌≤◌, None, length, IfOk};
ghost use Rattle.std.specs.Io.KnownBytes.{WriteAppends};
ghost use Rattle.tp_device.specs.Bytes.{failures_after};

use crate::logs::Logs;
use std::fs;
use std::io::Write;
use std::rt::Files as HostFileSystem;
use tp_device::{Failed, Sink, Tally};

/// A file of the host that is written. Each push is a write of the host's, and none is kept back.
/// A write that fails, or takes none of some bytes, counts as a failure. What the file holds is
/// told by a clause of `push` and not by the sink, since a file of the host tells nothing as it is
/// made.
#[derive(Drop)]
pub struct HostLog<W: Write> {
    writer: W,
    failures: Tally,
}

impl<W: Write> HostLog<W> {
    /// What is written goes to the writer.
    pub fn new(writer: W) -> Self
        ensures failures { result.failures.count ≡ 0 }
    {
        HostLog {
            writer,
            failures: Tally::new(),
        }
    }
}

impl<W: Write> Sink for HostLog<W> {
    // It is not told for good: see `written` below.
    ghost held = { λ _. None };

    ghost failures = { λ s. s.failures.count };

    fn push(&mut self, bytes: &[u8]) -> Result<usize, Failed>
        ensures within { IfOk result (λ n. n ≤ length bytes.now) }
        ensures some { 0 < length bytes.now → IfOk result (λ n. 0 < n) }
        ensures bytes { WriteAppends None None result bytes.now }
        ensures cause { self.new.failures.count ≡ failures_after self.old.failures.count result }
        // Each push is a write.
        ensures written { WriteAppends
            (W.contents self.old.writer) (W.contents self.new.writer) result bytes.now }
    {
        match self.writer.write(bytes) {
            Ok(count) if count != 0 || bytes.is_empty() => Ok(count),
            _ => {
                self.failures.tick();
                Err(Failed)
            }
        }
    }
}

/// The journal files of the host, under their paths.
#[derive(Drop)]
pub struct HostLogs<'r, R: HostFileSystem> {
    rt: &'r R,
    failures: Tally,
}

impl<'r, R: HostFileSystem> HostLogs<'r, R> {
    /// The files that the runtime reaches.
    pub fn new(rt: &'r R) -> Self {
        HostLogs {
            rt,
            failures: Tally::new(),
        }
    }
}

impl<R: HostFileSystem> Logs for HostLogs<'_, R> {
    type Log = HostLog<R::File>;

    ghost asked = { λ _. None };

    ghost named = { λ _. None };

    ghost kept = { λ _. None };

    ghost failures = { λ s. s.failures.count };

    ghost blank = { None };

    ghost is_blank = { tt };

    fn make(&mut self, name: &str) -> Result<Self::Log, Failed> {
        match fs::create(self.rt, name) {
            Ok(writer) => Ok(HostLog::new(writer)),
            Err(_) => {
                self.failures.tick();
                Err(Failed)
            }
        }
    }

    fn keep(&mut self, log: Self::Log) {
        self.failures.add(&log.failures);
    }
}
