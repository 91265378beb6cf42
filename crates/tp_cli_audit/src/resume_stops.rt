//! Why a run did not go on to its end, and the line of it.

ghost use Rattle.std.specs.Prelude.{◌≡◌};
ghost use Rattle.tp_cli_files.specs.FaultLines.{fault_text};
ghost use Rattle.tp_cli_audit.specs.ResumeStops.{resume_status, resume_text};

use crate::audit_lines::{AuditStop, audit_stop_line};
use tp_cli_bare::journal_line;
use tp_cli_files::{Fault, FaultLine};
use tp_journal_pairs::JournalFault;

/// Why a run did not go on to its end.
#[derive(Clone, Copy)]
pub enum ResumeStop {
    /// The journal that it goes on from was not audited to its end, or what was found not written.
    Auditing(AuditStop),
    /// There is no memory for the lines of the input.
    Lines,
    /// The new journal can't be made.
    Making,
    /// A device failed behind that, or there are too many bytes.
    Journaling(JournalFault),
}

/// The line of a run that did not go on to its end, from the journal in the file of a name.
pub(crate) fn resume_line<'w>(stop: ResumeStop, old: &'w str) -> FaultLine<'w>
    ensures status { result.status ≡ resume_status stop }
    ensures text { fault_text result ≡ resume_text old.entry.now stop }
{
    match stop {
        ResumeStop::Auditing(stop) => audit_stop_line(stop, old),
        ResumeStop::Lines => Fault::ScriptMemory.line(),
        ResumeStop::Making => Fault::ScriptLog.line(),
        ResumeStop::Journaling(fault) => journal_line(fault),
    }
}
