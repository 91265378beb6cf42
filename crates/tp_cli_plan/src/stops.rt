//! Why there is no answer, and the line of it.

ghost use Rattle.std.specs.Prelude.{◌≡◌};
ghost use Rattle.tp_cli_files.specs.FaultLines.{fault_text};
ghost use Rattle.tp_cli_plan.specs.SearchStops.{search_status, search_text, stop_status, stop_text};

use crate::search_words::SearchWords;
use tp_cli_files::{Fault, FaultLine, Part};
use tp_cli_inputs::{JudgeFault, judge_line};
use tp_search::SearchFault;

/// Why the search for a plan of the problem in a file has no answer.
#[derive(Clone, Copy, Debug, PartialEq, Eq)]
pub enum SearchStop {
    /// The files gave no task.
    Files(JudgeFault),
    /// The search has no answer.
    Searching(SearchFault),
    /// The output can't be written.
    Write,
}

/// The line of a search that has no answer.
fn search_line(fault: SearchFault) -> FaultLine<'static>
    ensures status { result.status ≡ search_status fault }
    ensures text { fault_text result ≡ search_text fault }
{
    match fault {
        SearchFault::Memory => Fault::Memory(Part::Search).line(),
        SearchFault::Range => Fault::SearchRange.line(),
    }
}

/// The line of why there is no answer.
pub(crate) fn stop_line<'w>(stop: SearchStop, words: SearchWords<'w>) -> FaultLine<'w>
    ensures status { result.status ≡ stop_status stop }
    ensures text { fault_text result ≡ stop_text words.entry stop }
{
    match stop {
        SearchStop::Files(fault) => judge_line(fault, words.task_words()),
        SearchStop::Searching(fault) => search_line(fault),
        SearchStop::Write => Fault::ScriptWrite.line(),
    }
}
