//! The run of the plan that words name.

ghost use Rattle.std.specs.Prelude.{◌≡◌, ◌≢◌, ◌≤◌, ◌⊎◌, ℕ, List, [], Option, IfOk, IfErr};
ghost use Rattle.tp_bounds.specs.RunLimits.{greatest_limits};
ghost use Rattle.tp_deorder.specs.Answers.{IsPlanNetOf};
ghost use Rattle.tp_cli_files.specs.FaultLines.{TellsFault};
ghost use Rattle.tp_cli_inputs.specs.Named.{IsNamedPlan};
ghost use Rattle.tp_validate.specs.OfTask.{IsOfTask};
ghost use Rattle.tp_cli_run.specs.Answered.{IsLong};
ghost use Rattle.tp_cli_run.specs.Ends.{RunsSteps, RunsVerdict, StopsSteps, StopsVerdict};
ghost use Rattle.tp_cli_files.specs.Causes.{counted};
ghost use Rattle.tp_cli_run.specs.RunLines.{run_failures, run_reads, run_unread};
ghost use Rattle.tp_cli_run.specs.Runs.{EndsRun, Runs, RunsPart, RunsToNone, RunsToPlan, StopsRun};

use crate::answering::answer;
use crate::plan_of_run::tell_run;
use crate::run_lines::{RunStop, run_line};
use std::alloc::Global;
use tp_bounds::{Limits, PlanNet};
use tp_cli_files::{Files, OUT_OF_ORDER, REFUSED, complain};
use tp_cli_inputs::{NamedPlan, PlanWords, plan_in, verdict_of, write_invalid};
use tp_deorder::deorder;
use tp_device::{Sink, Source};
use tp_happen::Plan;
use tp_task::Task;
use tp_validate::{ValidPlan, Verdict};

/// Answers the commands of the input on the network of a plan, and writes the plan of the run.
/// Answers whether there is one.
fn run_on<I: Source, O: Sink>(
    alloc: Global,
    plan: &ValidPlan<'_>,
    network: &PlanNet,
    input: &mut I,
    output: &mut O,
) -> Result<bool, RunStop>
    requires { IsPlanNetOf plan.now.task plan.now.steps
        (greatest_limits network.now.horizon) network.now }
    ensures said { IfOk result (RunsSteps plan.now.task plan.now.steps network.now.horizon
        (I.left input.old) (O.held output.old) (O.held output.new)) }
    ensures cause { IfErr result (StopsSteps plan.now.task plan.now.steps network.now.horizon
        (I.left input.old) (O.held output.old) (O.held output.new)) }
    ensures failures { O.failures output.new ≡ run_failures (O.failures output.old) result }
    ensures read { I.failures input.new ≡ run_reads (I.failures input.old) result }
    ensures opened { (n : ℕ) → counted run_unread n result ≡ n }
{
    match answer(alloc, input, network, output) {
        Ok(executive) => tell_run(&executive, plan, output),
        Err(fault) => Err(RunStop::Answering(fault)),
    }
}

/// The same on the network of a validated plan.
fn run_valid<I: Source, O: Sink>(
    alloc: Global,
    plan: &ValidPlan<'_>,
    horizon: u32,
    input: &mut I,
    output: &mut O,
) -> Result<bool, RunStop>
    requires { horizon ≤ 1000000000 }
    ensures said { IfOk result (RunsSteps plan.now.task plan.now.steps horizon (I.left input.old)
        (O.held output.old) (O.held output.new)) }
    ensures cause { IfErr result (StopsSteps plan.now.task plan.now.steps horizon (I.left input.old)
        (O.held output.old) (O.held output.new)) }
    ensures failures { O.failures output.new ≡ run_failures (O.failures output.old) result }
    ensures read { I.failures input.new ≡ run_reads (I.failures input.old) result }
    ensures opened { (n : ℕ) → counted run_unread n result ≡ n }
{
    match deorder(alloc, plan, &Limits::greatest(horizon)) {
        Ok(network) => run_on(alloc, plan, &network, input, output),
        Err(fault) => Err(RunStop::Network(fault)),
    }
}

/// The same of a plan that is valid; of another, writes its first fault.
fn run_verdict<I: Source, O: Sink>(
    alloc: Global,
    verdict: &Verdict<'_>,
    horizon: u32,
    input: &mut I,
    output: &mut O,
) -> Result<bool, RunStop>
    requires { horizon ≤ 1000000000 }
    ensures said { IfOk result
        (RunsVerdict verdict.now horizon (I.left input.old) (O.held output.old)
        (O.held output.new)) }
    ensures cause { IfErr result
        (StopsVerdict verdict.now horizon (I.left input.old) (O.held output.old)
        (O.held output.new)) }
    ensures failures { O.failures output.new ≡ run_failures (O.failures output.old) result }
    ensures read { I.failures input.new ≡ run_reads (I.failures input.old) result }
    ensures opened { (n : ℕ) → counted run_unread n result ≡ n }
{
    match verdict {
        Verdict::Valid(plan) => run_valid(alloc, plan, horizon, input, output),
        Verdict::Invalid { plan: _, tick, why } => match write_invalid(output, *tick, *why) {
            Ok(()) => Ok(false),
            Err(_) => Err(RunStop::Write),
        },
    }
}

/// The same of the plan that the words name, of its task.
fn run_of<I: Source, O: Sink>(
    alloc: Global,
    words: PlanWords<'_>,
    task: &Task,
    plan: Plan,
    input: &mut I,
    output: &mut O,
) -> Result<bool, RunStop>
    requires limit { words.horizon ≤ 1000000000 }
    requires of_task { IsOfTask task.now plan }
    ensures said { (held : List ℕ → Option (List ℕ))
        → IsNamedPlan held words.entry task.now plan → IfOk result
        (Runs held words.entry (I.left input.old) (O.held output.old) (O.held output.new)) }
    ensures cause { (held : List ℕ → Option (List ℕ))
        → IsNamedPlan held words.entry task.now plan → IfErr result
        (StopsRun held words.entry (I.left input.old) (O.held output.old) (O.held output.new)) }
    ensures failures { O.failures output.new ≡ run_failures (O.failures output.old) result }
    ensures read { I.failures input.new ≡ run_reads (I.failures input.old) result }
    ensures opened { (n : ℕ) → counted run_unread n result ≡ n }
{
    match verdict_of(alloc, task, plan) {
        Ok(verdict) => run_verdict(alloc, &verdict, words.horizon, input, output),
        Err(fault) => Err(RunStop::Judging(fault)),
    }
}

/// The same with the files read. A file is opened only when what stands before it is done.
fn run<N: Files, I: Source, O: Sink>(
    alloc: Global,
    files: &mut N,
    words: PlanWords<'_>,
    input: &mut I,
    output: &mut O,
) -> Result<bool, RunStop>
    requires { words.horizon ≤ 1000000000 }
    ensures said { IfOk result (Runs (N.held files.old) words.entry (I.left input.old)
        (O.held output.old) (O.held output.new)) }
    ensures cause { IfErr result (StopsRun (N.held files.old) words.entry (I.left input.old)
        (O.held output.old) (O.held output.new)) }
    ensures failures { O.failures output.new ≡ run_failures (O.failures output.old) result }
    ensures read { I.failures input.new ≡ run_reads (I.failures input.old) result }
    ensures opened { N.failures files.new ≡ counted run_unread (N.failures files.old) result }
{
    match plan_in(alloc, files, words) {
        Ok(named) => {
            let NamedPlan { task, plan } = named;
            run_of(alloc, words, &task, plan, input, output)
        }
        Err(fault) => Err(RunStop::Judging(fault)),
    }
}

/// Runs the plan that the words name: answers the commands of the input on its network, and writes
/// the plan of the run behind the answers. Answers the exit status: 0 where that plan was written;
/// 1 where there is none, or the plan that the words name is not valid, and its first fault was
/// written; and for another writes one fault line. The cost is that of `check` and of the network,
/// and then of the executive for each command.
pub fn run_run<N: Files, I: Source, O: Sink, F: Sink>(
    alloc: Global,
    files: &mut N,
    words: PlanWords<'_>,
    input: &mut I,
    output: &mut O,
    faults: &mut F,
) -> u8
    requires { words.horizon ≤ 1000000000 }
    ensures ran { result ≡ 0 → RunsToPlan (N.held files.old) words.entry (I.left input.old)
        (O.held output.old) (O.held output.new) }
    ensures none { result ≡ 1 → RunsToNone (N.held files.old) words.entry (I.left input.old)
        (O.held output.old) (O.held output.new) }

    // What stopped it is told, and is as it is told.
    ensures stopped { 2 ≤ result → EndsRun (N.held files.old) words.entry result (I.left input.old)
        (I.failures input.old) (I.failures input.new) (O.held output.old) (O.held output.new)
        (N.failures files.old) (N.failures files.new)
        (O.failures output.old) (O.failures output.new) (F.failures faults.old) (F.held faults.old)
        (F.failures faults.new) (F.held faults.new) }

    // For input that is refused nothing is written, unless it is refused for its length alone;
    // where memory or a device is wanting, a first part of what is to be written is; a read of the
    // input or a write that failed is always told.
    ensures kept { result ≡ REFUSED → (O.held output.new ≡ O.held output.old)
        ⊎ IsLong (I.left input.old) }
    ensures part { result ≡ OUT_OF_ORDER → RunsPart (N.held files.old) words.entry
        (I.left input.old)
        (O.held output.old) (O.held output.new) }
    ensures heard { result ≢ OUT_OF_ORDER → I.failures input.new ≡ I.failures input.old }
    ensures told { result ≢ OUT_OF_ORDER → O.failures output.new ≡ O.failures output.old }

    // A fault line goes with each fault, and with nothing else.
    ensures within { result ≤ 3 }
    ensures silent { result ≤ 1 → faults.new ≡ faults.old }
    ensures fault { 2 ≤ result → TellsFault [] (F.failures faults.old) (F.held faults.old)
        (F.failures faults.new) (F.held faults.new) }
{
    match run(alloc, files, words, input, output) {
        Ok(true) => 0,
        Ok(false) => 1,
        Err(stop) => complain(faults, run_line(stop, words)),
    }
}
