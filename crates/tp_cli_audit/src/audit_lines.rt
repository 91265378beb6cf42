//! What hinders an audit, and the lines that tell it.

ghost use Rattle.std.specs.Prelude.{◌≡◌};
ghost use Rattle.tp_cli_files.specs.FaultLines.{fault_text};
ghost use Rattle.tp_cli_audit.specs.AuditLines.{stop_status, stop_text};

use tp_cli_files::{Detail, Fault, FaultLine, FileFault, Part};

/// What hinders an audit.
#[derive(Clone, Copy)]
pub enum AuditStop {
    /// The file can't be opened.
    Open,
    /// There is no memory for the network or the executive.
    Network,
    /// There is no memory for the audit.
    Memory,
    /// The file can't be read.
    Read,
    /// This line breaks the format of journals. The first is 1.
    Line(u64),
    /// The head is that of another executive.
    Head,
    /// The output can't be written.
    Write,
}

/// The line of an audit of the file of a name that was hindered.
pub fn audit_stop_line<'w>(stop: AuditStop, log: &'w str) -> FaultLine<'w>
    ensures status { result.status ≡ stop_status stop }
    ensures text { fault_text result ≡ stop_text log.entry.now stop }
{
    match stop {
        AuditStop::Open => FaultLine::of_file(Part::Journal, FileFault::Read, log),
        AuditStop::Network => Fault::Memory(Part::Run).line(),
        AuditStop::Memory => Fault::Memory(Part::Journal).line(),
        AuditStop::Read => Fault::JournalRead.line(),
        AuditStop::Line(n) => Fault::JournalLine.with(Detail::Line(n as usize)),
        AuditStop::Head => Fault::JournalHead.line(),
        AuditStop::Write => Fault::ScriptWrite.line(),
    }
}
