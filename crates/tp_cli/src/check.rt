//! The judging of the plan in a file.

ghost use Rattle.std.specs.Prelude.{◌≡◌, ◌≢◌, ◌≤◌, ℕ, [], IfOk, IfErr};
ghost use Rattle.tp_cli_files.specs.FaultLines.{TellsFault};
ghost use Rattle.tp_cli_run.specs.Invalid.{SaysInvalid};
ghost use Rattle.tp_cli.specs.Checks.{EndsCheck, Says, SaysPart, SaysValid, StopsCheck, StopsLine, TellsJudgement};
ghost use Rattle.tp_cli.specs.Stops.{stop_failures, stop_unread};
ghost use Rattle.tp_cli_files.specs.Causes.{counted};

use crate::judgements::{Judgement, write_judgement};
use crate::judging::judge_in;
use crate::stops::{PlanStop, stop_line};
use std::alloc::Global;
use tp_cli_files::{Files, OUT_OF_ORDER, REFUSED, complain};
use tp_cli_inputs::PlanWords;
use tp_device::Sink;

/// Writes the line of a judgement. Answers whether the plan is valid.
fn tell<O: Sink>(judgement: Judgement, output: &mut O) -> Result<bool, PlanStop>
    ensures said { IfOk result (TellsJudgement judgement (O.held output.old) (O.held output.new)) }
    ensures cause { IfErr result (StopsLine judgement (O.held output.old) (O.held output.new)) }
    ensures failures { O.failures output.new ≡ stop_failures (O.failures output.old) result }
    ensures opened { (n : ℕ) → counted stop_unread n result ≡ n }
{
    match write_judgement(output, judgement) {
        Ok(()) => Ok(matches!(judgement, Judgement::Valid)),
        Err(_) => Err(PlanStop::Write),
    }
}

/// Judges the plan that the words name, and writes the verdict. Answers whether the plan is valid.
/// A file is opened only when what stands before it is done.
fn check<N: Files, O: Sink>(
    alloc: Global,
    files: &mut N,
    words: PlanWords<'_>,
    output: &mut O,
) -> Result<bool, PlanStop>
    requires { words.horizon ≤ 1000000000 }
    ensures said { IfOk result
        (Says (N.held files.old) words.entry (O.held output.old) (O.held output.new)) }
    ensures cause { IfErr result
        (StopsCheck (N.held files.old) words.entry (O.held output.old) (O.held output.new)) }
    ensures failures { O.failures output.new ≡ stop_failures (O.failures output.old) result }
    ensures opened { N.failures files.new ≡ counted stop_unread (N.failures files.old) result }
{
    match judge_in(alloc, files, words) {
        Ok(judgement) => tell(judgement, output),
        Err(fault) => Err(PlanStop::Judging(fault)),
    }
}

/// Writes the verdict on the plan that the words name. Answers the exit status: 0 for a valid plan,
/// 1 for another, and for another writes one fault line.
pub fn run_check<N: Files, O: Sink, F: Sink>(
    alloc: Global,
    files: &mut N,
    words: PlanWords<'_>,
    output: &mut O,
    faults: &mut F,
) -> u8
    requires { words.horizon ≤ 1000000000 }
    ensures valid { result ≡ 0
        → SaysValid (N.held files.old) words.entry (O.held output.old) (O.held output.new) }
    ensures invalid { result ≡ 1
        → SaysInvalid (N.held files.old) words.entry (O.held output.old) (O.held output.new) }

    // What stopped it is told, and is as it is told.
    ensures stopped { 2 ≤ result → EndsCheck (N.held files.old) words.entry result
        (O.held output.old) (O.held output.new) (N.failures files.old) (N.failures files.new)
        (O.failures output.old) (O.failures output.new)
        (F.failures faults.old) (F.held faults.old) (F.failures faults.new) (F.held faults.new) }

    // Nothing is written for input that is refused, and of the true verdict at most a first part
    // where memory or a device is wanting; a write that failed is always told.
    ensures kept { result ≡ REFUSED → O.held output.new ≡ O.held output.old }
    ensures part { result ≡ OUT_OF_ORDER
        → SaysPart (N.held files.old) words.entry (O.held output.old) (O.held output.new) }
    ensures told { result ≢ OUT_OF_ORDER → O.failures output.new ≡ O.failures output.old }

    // A fault line goes with each fault, and with nothing else.
    ensures within { result ≤ 3 }
    ensures silent { result ≤ 1 → faults.new ≡ faults.old }
    ensures fault { 2 ≤ result → TellsFault [] (F.failures faults.old) (F.held faults.old)
        (F.failures faults.new) (F.held faults.new) }
{
    match check(alloc, files, words, output) {
        Ok(true) => 0,
        Ok(false) => 1,
        Err(stop) => complain(faults, stop_line(stop, words)),
    }
}
