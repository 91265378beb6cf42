//! Why the run of a plan stopped, and its line.

ghost use Rattle.std.specs.Prelude.{◌≡◌};
ghost use Rattle.tp_cli_files.specs.FaultLines.{fault_text};
ghost use Rattle.tp_cli_run.specs.RunLines.{network_status, network_text, run_status, run_text};

use tp_cli_bare::{BareFault, bare_line};
use tp_cli_files::{Fault, FaultLine, Part};
use tp_cli_inputs::{JudgeFault, PlanWords, judge_line};
use tp_deorder::DeorderFault;

/// Why the run of a plan stopped.
#[derive(Clone, Copy)]
pub enum RunStop {
    /// The files gave no verdict.
    Judging(JudgeFault),
    /// The plan has no network.
    Network(DeorderFault),
    /// The commands were not answered to their end, or there was no memory for the network or for
    /// the plan of the run.
    Answering(BareFault),
    /// The line of a plan that is not valid, or the plan of the run, can't be written.
    Write,
}

/// The line of a plan that has no network.
pub fn network_line(fault: DeorderFault) -> FaultLine<'static>
    ensures status { result.status ≡ network_status fault }
    ensures text { fault_text result ≡ network_text fault }
{
    match fault {
        DeorderFault::Memory => Fault::Memory(Part::Net).line(),
        DeorderFault::TooMany => Fault::NetTooMany.line(),
    }
}

/// The line of a run that stopped.
pub fn run_line<'w>(stop: RunStop, words: PlanWords<'w>) -> FaultLine<'w>
    ensures status { result.status ≡ run_status stop }
    ensures text { fault_text result ≡ run_text words.entry stop }
{
    match stop {
        RunStop::Judging(fault) => judge_line(fault, words),
        RunStop::Network(fault) => network_line(fault),
        RunStop::Answering(fault) => bare_line(fault),
        RunStop::Write => Fault::ScriptWrite.line(),
    }
}
