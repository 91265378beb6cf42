//! The split of the network of the plan that words name.

ghost use Rattle.std.specs.Prelude.{◌≡◌, ◌≢◌, ◌≤◌, ℕ, List, [], Option, IfOk, IfErr, OnOk};
ghost use Rattle.tp_cli_files.specs.FaultLines.{TellsFault};
ghost use Rattle.tp_cli_inputs.specs.Named.{IsNamedPlan};
ghost use Rattle.tp_validate.specs.OfTask.{IsOfTask};
ghost use Rattle.tp_cli_run.specs.Invalid.{SaysInvalid};
ghost use Rattle.tp_cli_split.specs.Splits.{EndsSplit, Splits, SplitsPart, StopsSplit, StopsTelling, StopsWriting, TellsSplit, WritesPlan, WritesSplit};
ghost use Rattle.tp_cli_files.specs.Causes.{counted};
ghost use Rattle.tp_cli_split.specs.Stops.{split_failures, split_unread};

use crate::dividing::lines_of_plan;
use crate::stops::{SplitStop, split_line};
use std::alloc::Global;
use tp_cli_files::{Files, OUT_OF_ORDER, REFUSED, complain};
use tp_cli_inputs::{NamedPlan, PlanWords, plan_in, verdict_of, write_invalid};
use tp_device::{Sink, push_all};
use tp_happen::Plan;
use tp_task::Task;
use tp_validate::{ValidPlan, Verdict};

/// Writes the lines of the intervals of a valid plan's events.
fn write_lines<N: Files, O: Sink>(
    alloc: Global,
    files: &mut N,
    owners: &str,
    plan: &ValidPlan<'_>,
    horizon: u32,
    agent: Option<u32>,
    output: &mut O,
) -> Result<(), SplitStop>
    requires { horizon ≤ 1000000000 }
    ensures written { OnOk result (WritesPlan agent plan.now.task plan.now.steps horizon
        (N.held files.old owners.now) (O.held output.old) (O.held output.new)) }
    ensures cause { IfErr result (StopsWriting agent plan.now.task plan.now.steps horizon
        (N.held files.old owners.now) (O.held output.old) (O.held output.new)) }
    ensures failures { O.failures output.new ≡ split_failures (O.failures output.old) result }
    ensures opened { N.failures files.new ≡ counted split_unread (N.failures files.old) result }
{
    match lines_of_plan(alloc, files, owners, plan, horizon, agent) {
        Ok(text) => match push_all(output, text.as_bytes()) {
            Ok(()) => Ok(()),
            Err(_) => Err(SplitStop::Write),
        },
        Err(stop) => Err(stop),
    }
}

/// Writes the lines of the intervals of a plan's events, or its first fault. Answers whether the
/// plan is valid.
fn tell<N: Files, O: Sink>(
    alloc: Global,
    files: &mut N,
    owners: &str,
    verdict: &Verdict<'_>,
    horizon: u32,
    agent: Option<u32>,
    output: &mut O,
) -> Result<bool, SplitStop>
    requires { horizon ≤ 1000000000 }
    ensures said { IfOk result (TellsSplit agent verdict.now horizon (N.held files.old owners.now)
        (O.held output.old) (O.held output.new)) }
    ensures cause { IfErr result (StopsTelling agent verdict.now horizon
        (N.held files.old owners.now) (O.held output.old) (O.held output.new)) }
    ensures failures { O.failures output.new ≡ split_failures (O.failures output.old) result }
    ensures opened { N.failures files.new ≡ counted split_unread (N.failures files.old) result }
{
    match verdict {
        Verdict::Valid(plan) => match write_lines(
            alloc, files, owners, plan, horizon, agent, output,
        ) {
            Ok(()) => Ok(true),
            Err(stop) => Err(stop),
        },
        Verdict::Invalid { plan: _, tick, why } => match write_invalid(output, *tick, *why) {
            Ok(()) => Ok(false),
            Err(_) => Err(SplitStop::Write),
        },
    }
}

/// The same of the plan that the words name, of its task.
fn split_of<N: Files, O: Sink>(
    alloc: Global,
    files: &mut N,
    words: PlanWords<'_>,
    owners: &str,
    agent: Option<u32>,
    task: &Task,
    plan: Plan,
    output: &mut O,
) -> Result<bool, SplitStop>
    requires limit { words.horizon ≤ 1000000000 }
    requires of_task { IsOfTask task.now plan }
    ensures said { (held : List ℕ → Option (List ℕ))
        → N.held files.old owners.now ≡ held owners.now
        → IsNamedPlan held words.entry task.now plan → IfOk result
        (Splits agent held words.entry owners.now (O.held output.old) (O.held output.new)) }
    ensures cause { (held : List ℕ → Option (List ℕ))
        → N.held files.old owners.now ≡ held owners.now
        → IsNamedPlan held words.entry task.now plan → IfErr result
        (StopsSplit agent held words.entry owners.now (O.held output.old) (O.held output.new)) }
    ensures failures { O.failures output.new ≡ split_failures (O.failures output.old) result }
    ensures opened { N.failures files.new ≡ counted split_unread (N.failures files.old) result }
{
    match verdict_of(alloc, task, plan) {
        Ok(verdict) => tell(alloc, files, owners, &verdict, words.horizon, agent, output),
        Err(fault) => Err(SplitStop::Judging(fault)),
    }
}

/// The same with the files read. A file is opened only when what stands before it is done.
fn split_named<N: Files, O: Sink>(
    alloc: Global,
    files: &mut N,
    words: PlanWords<'_>,
    owners: &str,
    agent: Option<u32>,
    output: &mut O,
) -> Result<bool, SplitStop>
    requires { words.horizon ≤ 1000000000 }
    ensures said { IfOk result (Splits agent
        (N.held files.old) words.entry owners.now (O.held output.old) (O.held output.new)) }
    ensures cause { IfErr result (StopsSplit agent
        (N.held files.old) words.entry owners.now (O.held output.old) (O.held output.new)) }
    ensures failures { O.failures output.new ≡ split_failures (O.failures output.old) result }
    ensures opened { N.failures files.new ≡ counted split_unread (N.failures files.old) result }
{
    match plan_in(alloc, files, words) {
        Ok(named) => {
            let NamedPlan { task, plan } = named;
            split_of(alloc, files, words, owners, agent, &task, plan, output)
        }
        Err(fault) => Err(SplitStop::Judging(fault)),
    }
}

/// Splits the network of the plan that the words name among the agents that the file of a name
/// tells: whole numbers of one to four digits between blanks, the agent of each event. Writes the
/// line `interval E LO HI` for each event that a bound joins with an event of another agent.
/// Answers the exit status: 0 where they were written; 1 for a plan that is not valid, whose first
/// fault was written; and for another writes one fault line.
///
/// The cost is that of `check` and of the network, two additions to a network for each of its
/// bounds, and three passes over the bounds between agents for each event.
pub fn run_split<N: Files, O: Sink, F: Sink>(
    alloc: Global,
    files: &mut N,
    words: PlanWords<'_>,
    owners: &str,
    agent: Option<u32>,
    output: &mut O,
    faults: &mut F,
) -> u8
    requires { words.horizon ≤ 1000000000 }
    ensures split { result ≡ 0 → WritesSplit agent
        (N.held files.old) words.entry owners.now (O.held output.old) (O.held output.new) }
    ensures invalid { result ≡ 1
        → SaysInvalid (N.held files.old) words.entry (O.held output.old) (O.held output.new) }

    // What stopped it is told, and is as it is told.
    ensures stopped { 2 ≤ result → EndsSplit agent (N.held files.old) words.entry owners.now result
        (O.held output.old) (O.held output.new) (N.failures files.old) (N.failures files.new)
        (O.failures output.old) (O.failures output.new)
        (F.failures faults.old) (F.held faults.old) (F.failures faults.new) (F.held faults.new) }

    // Nothing is written for input that is refused, and of the true text at most a first part where
    // memory or a device is wanting; a write that failed is always told.
    ensures kept { result ≡ REFUSED → O.held output.new ≡ O.held output.old }
    ensures part { result ≡ OUT_OF_ORDER → SplitsPart agent
        (N.held files.old) words.entry owners.now (O.held output.old) (O.held output.new) }
    ensures told { result ≢ OUT_OF_ORDER → O.failures output.new ≡ O.failures output.old }

    // A fault line goes with each fault, and with nothing else.
    ensures within { result ≤ 3 }
    ensures silent { result ≤ 1 → faults.new ≡ faults.old }
    ensures fault { 2 ≤ result → TellsFault [] (F.failures faults.old) (F.held faults.old)
        (F.failures faults.new) (F.held faults.new) }
{
    match split_named(alloc, files, words, owners, agent, output) {
        Ok(true) => 0,
        Ok(false) => 1,
        Err(stop) => complain(faults, split_line(stop, words, owners)),
    }
}
