//! The lines of faults of commands.

ghost use Rattle.std.specs.Prelude.{◌≡◌};
ghost use Rattle.tp_cli_files.specs.FaultLines.{fault_text};
ghost use Rattle.tp_cli_bare.specs.ServeLines.{bare_status, bare_text, serve_status, serve_text};

use crate::bare::BareFault;
use tp_cli_files::{Fault, FaultLine, Part};
use tp_script::ServeFault;

/// The line of commands that could not be read or answered.
pub fn serve_line(fault: ServeFault) -> FaultLine<'static>
    ensures status { result.status ≡ serve_status fault }
    ensures text { fault_text result ≡ serve_text fault }
{
    match fault {
        ServeFault::Read => Fault::ScriptRead.line(),
        ServeFault::Write => Fault::ScriptWrite.line(),
        ServeFault::Memory => Fault::ScriptMemory.line(),
        ServeFault::TooLong => Fault::ScriptTooLong.line(),
        ServeFault::Head => Fault::ScriptHead.line(),
    }
}

/// The line of commands on a network that were not answered to their end.
pub fn bare_line(fault: BareFault) -> FaultLine<'static>
    ensures status { result.status ≡ bare_status fault }
    ensures text { fault_text result ≡ bare_text fault }
{
    match fault {
        BareFault::Network => Fault::Memory(Part::Run).line(),
        BareFault::Serving(fault) => serve_line(fault),
    }
}
