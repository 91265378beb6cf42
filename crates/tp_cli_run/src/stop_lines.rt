//! Why the run of a plan whose journal is kept stopped, and its line.

ghost use Rattle.std.specs.Prelude.{◌≡◌};
ghost use Rattle.tp_cli_files.specs.FaultLines.{fault_text};
ghost use Rattle.tp_cli_run.specs.StopLines.{run_stop_status, run_stop_text};

use crate::network_line;
use tp_cli_bare::{JournalStop, journal_stop_line};
use tp_cli_files::{Fault, FaultLine, Part};
use tp_cli_inputs::{JudgeFault, PlanWords, judge_line};
use tp_deorder::DeorderFault;

/// Why the run of a plan whose journal is kept stopped.
#[derive(Clone, Copy)]
pub enum RunJournalStop {
    /// The files gave no verdict.
    Judging(JudgeFault),
    /// The plan has no network.
    Network(DeorderFault),
    /// The journal file can't be made, or the commands were not answered to their end with their
    /// journal.
    Journal(JournalStop),
    /// There is no memory for the plan of the run.
    Telling,
    /// The line of a plan that is not valid, or the plan of the run, can't be written.
    Write,
}

/// The line of a run that stopped.
pub fn run_stop_line<'w>(stop: RunJournalStop, words: PlanWords<'w>) -> FaultLine<'w>
    ensures status { result.status ≡ run_stop_status stop }
    ensures text { fault_text result ≡ run_stop_text words.entry stop }
{
    match stop {
        RunJournalStop::Judging(fault) => judge_line(fault, words),
        RunJournalStop::Network(fault) => network_line(fault),
        RunJournalStop::Journal(stop) => journal_stop_line(stop),
        RunJournalStop::Telling => Fault::Memory(Part::Run).line(),
        RunJournalStop::Write => Fault::ScriptWrite.line(),
    }
}
