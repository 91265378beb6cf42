//! Why a command on a plan in files stopped.

ghost use Rattle.std.specs.Prelude.{◌≡◌};
ghost use Rattle.tp_cli_files.specs.FaultLines.{fault_text};
ghost use Rattle.tp_cli.specs.Stops.{stop_status, stop_text};

use tp_cli_files::{Fault, FaultLine};
use tp_cli_inputs::{JudgeFault, PlanWords, judge_line};
use tp_cli_run::network_line;
use tp_deorder::DeorderFault;

/// Why a command on a plan in files stopped.
#[derive(Clone, Copy, Debug, PartialEq, Eq)]
pub enum PlanStop {
    /// The files gave no verdict.
    Judging(JudgeFault),
    /// The plan has no network.
    Network(DeorderFault),
    /// The output can't be written.
    Write,
}

/// The line of a command on a plan that stopped.
pub fn stop_line<'w>(stop: PlanStop, words: PlanWords<'w>) -> FaultLine<'w>
    ensures status { result.status ≡ stop_status stop }
    ensures text { fault_text result ≡ stop_text words.entry stop }
{
    match stop {
        PlanStop::Judging(fault) => judge_line(fault, words),
        PlanStop::Network(fault) => network_line(fault),
        PlanStop::Write => Fault::ScriptWrite.line(),
    }
}
