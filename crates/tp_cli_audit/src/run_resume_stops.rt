//! Why a run of a plan did not go on to its end, and the line of it.

ghost use Rattle.std.specs.Prelude.{◌≡◌};
ghost use Rattle.tp_cli_files.specs.FaultLines.{fault_text};
ghost use Rattle.tp_cli_audit.specs.RunResumeStops.{run_resume_status, run_resume_text};

use crate::resume_stops::{ResumeStop, resume_line};
use tp_cli_files::{Fault, FaultLine, Part};
use tp_cli_inputs::{JudgeFault, PlanWords, judge_line};
use tp_cli_run::network_line;
use tp_deorder::DeorderFault;

/// Why a run of a plan did not go on to its end.
#[derive(Clone, Copy)]
pub enum RunResumeStop {
    /// The files gave no verdict.
    Judging(JudgeFault),
    /// The plan has no network.
    Network(DeorderFault),
    /// The journal is none, or the commands were not answered to their end.
    Resuming(ResumeStop),
    /// There is no memory for the plan of the run.
    Telling,
    /// The line of a plan that is not valid, or the plan of the run, can't be written.
    Write,
}

/// The line of a run of a plan that did not go on to its end.
pub(crate) fn run_resume_line<'w>(
    stop: RunResumeStop,
    words: PlanWords<'w>,
    old: &'w str,
) -> FaultLine<'w>
    ensures status { result.status ≡ run_resume_status stop }
    ensures text { fault_text result ≡ run_resume_text words.entry old.entry.now stop }
{
    match stop {
        RunResumeStop::Judging(fault) => judge_line(fault, words),
        RunResumeStop::Network(fault) => network_line(fault),
        RunResumeStop::Resuming(stop) => resume_line(stop, old),
        RunResumeStop::Telling => Fault::Memory(Part::Run).line(),
        RunResumeStop::Write => Fault::ScriptWrite.line(),
    }
}
