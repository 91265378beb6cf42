//! Why commands whose journal is kept were not answered to their end, and the lines that tell it.

ghost use Rattle.std.specs.Prelude.{◌≡◌};
ghost use Rattle.tp_cli_files.specs.FaultLines.{fault_text};
ghost use Rattle.tp_cli_bare.specs.JournalLines.{journal_status, journal_text, stop_status, stop_text};

use crate::{BareFault, bare_line};
use tp_cli_files::{Fault, FaultLine};
use tp_journal_pairs::JournalFault;

/// Why commands whose journal is kept were not answered to their end.
#[derive(Clone, Copy)]
pub enum JournalStop {
    /// The journal file can't be made.
    Making,
    /// The head or the lags were at fault or not read, or there was no memory.
    Beginning(BareFault),
    /// A device failed behind the lags, or there are too many bytes.
    Journaling(JournalFault),
}

/// The line of commands whose answers or journal came to an early end.
pub fn journal_line(fault: JournalFault) -> FaultLine<'static>
    ensures status { result.status ≡ journal_status fault }
    ensures text { fault_text result ≡ journal_text fault }
{
    match fault {
        JournalFault::Read => Fault::ScriptRead.line(),
        JournalFault::Write => Fault::ScriptWrite.line(),
        JournalFault::Log => Fault::ScriptLog.line(),
        JournalFault::TooLong => Fault::ScriptTooLong.line(),
    }
}

/// The line of commands whose journal is kept.
pub fn journal_stop_line(stop: JournalStop) -> FaultLine<'static>
    ensures status { result.status ≡ stop_status stop }
    ensures text { fault_text result ≡ stop_text stop }
{
    match stop {
        JournalStop::Making => Fault::ScriptLog.line(),
        JournalStop::Beginning(fault) => bare_line(fault),
        JournalStop::Journaling(fault) => journal_line(fault),
    }
}
