//! The run of the plan that words name, with the journal file of a name.

ghost use Rattle.std.specs.Prelude.{◌≡◌, ◌≢◌, ◌≤◌, ◌⊎◌, ℕ, suc, List, [], length, Option, option_map, IfOk, IfErr, IfSome};
ghost use Rattle.tp_bounds.specs.RunLimits.{greatest_limits};
ghost use Rattle.tp_task.specs.declared.task.Task.{Task};
ghost use Rattle.tp_happen.specs.tp_plan_text.declared.plans.Step.{Step};
ghost use Rattle.tp_deorder.specs.Answers.{IsPlanNetOf};
ghost use Rattle.tp_exec.specs.FromPlan.{CameFrom};
ghost use Rattle.tp_cli_files.specs.FaultLines.{TellsFault};
ghost use Rattle.tp_cli_bare.specs.Logged.{input_failures, output_failures};
ghost use Rattle.tp_cli_inputs.specs.Named.{IsNamedPlan};
ghost use Rattle.tp_validate.specs.OfTask.{IsOfTask};
ghost use Rattle.tp_cli_run.specs.Answered.{IsLong};
ghost use Rattle.tp_cli_run.specs.Runs.{RunsPart};
ghost use Rattle.tp_cli_run.specs.JournaledEnds.{LogsSteps, LogsVerdict, StopsSteps, StopsVerdict, told_result};
ghost use Rattle.tp_cli_run.specs.LogFile.{log_file};
ghost use Rattle.tp_cli_run.specs.Logged.{LogsWhole};
ghost use Rattle.tp_cli_run.specs.RunJournals.{EndsRunLog, LogsTo, LogsToNone, LogsToPlan, StopsInFile, StopsRunLog};
ghost use Rattle.tp_cli_run.specs.StopLines.{run_stop_failures, run_stop_reads, run_stop_unlogged, run_stop_unread};
ghost use Rattle.tp_cli_files.specs.Causes.{counted};
ghost use Rattle.tp_cli_bare.specs.JournalLines.{stop_unlogged};

use crate::journaling::log_run;
use crate::stop_lines::{RunJournalStop, run_stop_line};
use crate::{RunStop, tell_run};
use std::alloc::Global;
use tp_bounds::{Limits, PlanNet};
use tp_cli_bare::JournalStop;
use tp_cli_files::{Files, Logs, OUT_OF_ORDER, REFUSED, complain};
use tp_cli_inputs::{NamedPlan, PlanWords, plan_in, verdict_of, write_invalid};
use tp_deorder::deorder;
use tp_device::{Sink, Source};
use tp_exec_machine::Executive;
use tp_happen::Plan;
use tp_repair::RepairNet;
use tp_task::Task;
use tp_validate::{ValidPlan, Verdict};

/// Answers the commands of the input on the network of a plan, with their journal in the file of a
/// name.
fn journaled<L: Logs, I: Source, O: Sink>(
    alloc: Global,
    logs: &mut L,
    name: &str,
    network: &PlanNet,
    input: &mut I,
    output: &mut O,
) -> Result<Executive<RepairNet>, JournalStop>
    requires { length network.now.bounds.items ≤ 65535 }
    ensures whole { IfOk result (LogsWhole network.now (I.left input.old) (O.held output.old)
        (O.held output.new) L.blank (L.kept logs.new)) }
    ensures asked { L.asked logs.new ≡ option_map suc (L.asked logs.old) }
    ensures named { IfOk result (λ _. IfSome (L.named logs.new) (λ n. n ≡ name.now)) }
    ensures cause { IfErr result (StopsInFile network.now (I.left input.old) (O.held output.old)
        (O.held output.new) (log_file name.now (L.asked logs.old) (L.asked logs.new)
        (L.named logs.new) L.blank (L.kept logs.new))) }
    ensures came { IfOk result (λ e. (t : Task) (steps : List Step) → IsPlanNetOf t steps
        (greatest_limits network.now.horizon) network.now → CameFrom t steps e) }
    ensures told { O.failures output.new ≡ output_failures (O.failures output.old) result }
    ensures read { I.failures input.new ≡ input_failures (I.failures input.old) result }
    ensures log { L.failures logs.new ≡ counted stop_unlogged (L.failures logs.old) result }
{
    match logs.make(name) {
        Ok(log) => {
            let mut log = log;
            let ran = log_run(alloc, input, network, output, &mut log);
            logs.keep(log);
            ran
        }
        Err(_) => Err(JournalStop::Making),
    }
}

/// What came of the telling of the plan of a run.
fn of_telling(told: Result<bool, RunStop>) -> Result<bool, RunJournalStop>
    ensures { result ≡ told_result told }
{
    match told {
        Ok(done) => Ok(done),
        Err(RunStop::Write) => Err(RunJournalStop::Write),
        Err(_) => Err(RunJournalStop::Telling),
    }
}

/// Answers the commands of the input on the network of a plan, with their journal in the file of a
/// name, and writes the plan of the run. Answers whether there is one.
fn run_on<L: Logs, I: Source, O: Sink>(
    alloc: Global,
    logs: &mut L,
    name: &str,
    plan: &ValidPlan<'_>,
    network: &PlanNet,
    input: &mut I,
    output: &mut O,
) -> Result<bool, RunJournalStop>
    requires { IsPlanNetOf plan.now.task plan.now.steps
        (greatest_limits network.now.horizon) network.now }
    ensures said { IfOk result (LogsSteps plan.now.task plan.now.steps network.now.horizon
        (I.left input.old) (O.held output.old) (O.held output.new)
        (log_file name.now (L.asked logs.old) (L.asked logs.new)
        (L.named logs.new) L.blank (L.kept logs.new))) }
    ensures cause { IfErr result (StopsSteps plan.now.task plan.now.steps network.now.horizon
        (I.left input.old) (O.held output.old) (O.held output.new)
        (log_file name.now (L.asked logs.old) (L.asked logs.new)
        (L.named logs.new) L.blank (L.kept logs.new))) }
    ensures failures { O.failures output.new ≡ run_stop_failures (O.failures output.old) result }
    ensures read { I.failures input.new ≡ run_stop_reads (I.failures input.old) result }
    ensures opened { (n : ℕ) → counted run_stop_unread n result ≡ n }
    ensures log { L.failures logs.new ≡ counted run_stop_unlogged (L.failures logs.old) result }
{
    match journaled(alloc, logs, name, network, input, output) {
        Ok(executive) => of_telling(tell_run(&executive, plan, output)),
        Err(stop) => Err(RunJournalStop::Journal(stop)),
    }
}

/// The same on the network of a validated plan.
fn run_valid<L: Logs, I: Source, O: Sink>(
    alloc: Global,
    logs: &mut L,
    name: &str,
    plan: &ValidPlan<'_>,
    horizon: u32,
    input: &mut I,
    output: &mut O,
) -> Result<bool, RunJournalStop>
    requires { horizon ≤ 1000000000 }
    ensures said { IfOk result (LogsSteps plan.now.task plan.now.steps horizon (I.left input.old)
        (O.held output.old) (O.held output.new)
        (log_file name.now (L.asked logs.old) (L.asked logs.new)
        (L.named logs.new) L.blank (L.kept logs.new))) }
    ensures cause { IfErr result (StopsSteps plan.now.task plan.now.steps horizon (I.left input.old)
        (O.held output.old) (O.held output.new)
        (log_file name.now (L.asked logs.old) (L.asked logs.new)
        (L.named logs.new) L.blank (L.kept logs.new))) }
    ensures failures { O.failures output.new ≡ run_stop_failures (O.failures output.old) result }
    ensures read { I.failures input.new ≡ run_stop_reads (I.failures input.old) result }
    ensures opened { (n : ℕ) → counted run_stop_unread n result ≡ n }
    ensures log { L.failures logs.new ≡ counted run_stop_unlogged (L.failures logs.old) result }
{
    match deorder(alloc, plan, &Limits::greatest(horizon)) {
        Ok(network) => run_on(alloc, logs, name, plan, &network, input, output),
        Err(fault) => Err(RunJournalStop::Network(fault)),
    }
}

/// The same of a plan that is valid; of another, writes its first fault, and makes no file.
fn run_verdict<L: Logs, I: Source, O: Sink>(
    alloc: Global,
    logs: &mut L,
    name: &str,
    verdict: &Verdict<'_>,
    horizon: u32,
    input: &mut I,
    output: &mut O,
) -> Result<bool, RunJournalStop>
    requires { horizon ≤ 1000000000 }
    ensures said { IfOk result (LogsVerdict verdict.now horizon (I.left input.old)
        (O.held output.old) (O.held output.new)
        (log_file name.now (L.asked logs.old) (L.asked logs.new)
        (L.named logs.new) L.blank (L.kept logs.new))) }
    ensures cause { IfErr result (StopsVerdict verdict.now horizon (I.left input.old)
        (O.held output.old) (O.held output.new)
        (log_file name.now (L.asked logs.old) (L.asked logs.new)
        (L.named logs.new) L.blank (L.kept logs.new))) }
    ensures failures { O.failures output.new ≡ run_stop_failures (O.failures output.old) result }
    ensures read { I.failures input.new ≡ run_stop_reads (I.failures input.old) result }
    ensures opened { (n : ℕ) → counted run_stop_unread n result ≡ n }
    ensures log { L.failures logs.new ≡ counted run_stop_unlogged (L.failures logs.old) result }
{
    match verdict {
        Verdict::Valid(plan) => run_valid(alloc, logs, name, plan, horizon, input, output),
        Verdict::Invalid { plan: _, tick, why } => match write_invalid(output, *tick, *why) {
            Ok(()) => Ok(false),
            Err(_) => Err(RunJournalStop::Write),
        },
    }
}

/// The same of the plan that the words name, of its task.
fn run_of<L: Logs, I: Source, O: Sink>(
    alloc: Global,
    logs: &mut L,
    words: PlanWords<'_>,
    name: &str,
    task: &Task,
    plan: Plan,
    input: &mut I,
    output: &mut O,
) -> Result<bool, RunJournalStop>
    requires limit { words.horizon ≤ 1000000000 }
    requires of_task { IsOfTask task.now plan }
    ensures said { (held : List ℕ → Option (List ℕ))
        → IsNamedPlan held words.entry task.now plan
        → IfOk result (LogsTo held words.entry
        (I.left input.old) (O.held output.old) (O.held output.new)
        (log_file name.now (L.asked logs.old) (L.asked logs.new)
        (L.named logs.new) L.blank (L.kept logs.new))) }
    ensures cause { (held : List ℕ → Option (List ℕ))
        → IsNamedPlan held words.entry task.now plan
        → IfErr result (StopsRunLog held words.entry (I.left input.old) (O.held output.old)
        (O.held output.new)
        (log_file name.now (L.asked logs.old) (L.asked logs.new)
        (L.named logs.new) L.blank (L.kept logs.new))) }
    ensures failures { O.failures output.new ≡ run_stop_failures (O.failures output.old) result }
    ensures read { I.failures input.new ≡ run_stop_reads (I.failures input.old) result }
    ensures opened { (n : ℕ) → counted run_stop_unread n result ≡ n }
    ensures log { L.failures logs.new ≡ counted run_stop_unlogged (L.failures logs.old) result }
{
    match verdict_of(alloc, task, plan) {
        Ok(verdict) => run_verdict(alloc, logs, name, &verdict, words.horizon, input, output),
        Err(fault) => Err(RunJournalStop::Judging(fault)),
    }
}

/// The same with the files read. A file is opened, and the journal file made, only when what stands
/// before it is done.
fn run<N: Files, L: Logs, I: Source, O: Sink>(
    alloc: Global,
    files: &mut N,
    logs: &mut L,
    words: PlanWords<'_>,
    name: &str,
    input: &mut I,
    output: &mut O,
) -> Result<bool, RunJournalStop>
    requires { words.horizon ≤ 1000000000 }
    ensures said { IfOk result (LogsTo (N.held files.old) words.entry (I.left input.old)
        (O.held output.old) (O.held output.new)
        (log_file name.now (L.asked logs.old) (L.asked logs.new)
        (L.named logs.new) L.blank (L.kept logs.new))) }
    ensures cause { IfErr result (StopsRunLog (N.held files.old) words.entry (I.left input.old)
        (O.held output.old) (O.held output.new)
        (log_file name.now (L.asked logs.old) (L.asked logs.new)
        (L.named logs.new) L.blank (L.kept logs.new))) }
    ensures failures { O.failures output.new ≡ run_stop_failures (O.failures output.old) result }
    ensures read { I.failures input.new ≡ run_stop_reads (I.failures input.old) result }
    ensures opened { N.failures files.new ≡ counted run_stop_unread (N.failures files.old) result }
    ensures log { L.failures logs.new ≡ counted run_stop_unlogged (L.failures logs.old) result }
{
    match plan_in(alloc, files, words) {
        Ok(named) => {
            let NamedPlan { task, plan } = named;
            run_of(alloc, logs, words, name, &task, plan, input, output)
        }
        Err(fault) => Err(RunJournalStop::Judging(fault)),
    }
}

/// Runs the plan that the words name, with its journal in the file of a name: answers the commands
/// of the input on its network, writes the head and for each line that has an answer its pair to
/// the file, which holds the pair before the answer goes out, and writes the plan of the run behind
/// the answers. Answers the exit status: 0 where that plan was written; 1 where there is none, or
/// the plan that the words name is not valid, and its first fault was written; and for another
/// writes one fault line. The file is made once the plan has its network. The cost is that of
/// `run_run`, and each answer is written twice.
pub fn run_run_journal<N: Files, L: Logs, I: Source, O: Sink, F: Sink>(
    alloc: Global,
    files: &mut N,
    logs: &mut L,
    words: PlanWords<'_>,
    name: &str,
    input: &mut I,
    output: &mut O,
    faults: &mut F,
) -> u8
    requires { words.horizon ≤ 1000000000 }
    ensures ran { result ≡ 0 → LogsToPlan (N.held files.old) words.entry (I.left input.old)
        (O.held output.old) (O.held output.new)
        (log_file name.now (L.asked logs.old) (L.asked logs.new)
        (L.named logs.new) L.blank (L.kept logs.new)) }
    ensures none { result ≡ 1 → LogsToNone (N.held files.old) words.entry (I.left input.old)
        (O.held output.old) (O.held output.new)
        (log_file name.now (L.asked logs.old) (L.asked logs.new)
        (L.named logs.new) L.blank (L.kept logs.new)) }

    // What stopped it is told, and is as it is told.
    ensures stopped { 2 ≤ result → EndsRunLog (N.held files.old) words.entry result
        (I.left input.old)
        (I.failures input.old) (I.failures input.new) (O.held output.old) (O.held output.new)
        (log_file name.now (L.asked logs.old) (L.asked logs.new)
        (L.named logs.new) L.blank (L.kept logs.new))
        (N.failures files.old) (N.failures files.new) (L.failures logs.old) (L.failures logs.new)
        (O.failures output.old) (O.failures output.new)
        (F.failures faults.old) (F.held faults.old) (F.failures faults.new) (F.held faults.new) }

    // For input that is refused nothing is written to the output, unless it is refused for its
    // length alone; where memory or a device is wanting, a first part of what is to be written is;
    // a read of the input or a write that failed is always told.
    ensures kept { result ≡ REFUSED → (O.held output.new ≡ O.held output.old)
        ⊎ IsLong (I.left input.old) }
    ensures part { result ≡ OUT_OF_ORDER → RunsPart (N.held files.old) words.entry
        (I.left input.old)
        (O.held output.old) (O.held output.new) }
    ensures heard { result ≢ OUT_OF_ORDER → I.failures input.new ≡ I.failures input.old }
    ensures told { result ≢ OUT_OF_ORDER → O.failures output.new ≡ O.failures output.old }

    // A fault line goes with each fault, and with nothing else.
    ensures within { result ≤ 3 }
    ensures silent { result ≤ 1 → faults.new ≡ faults.old }
    ensures fault { 2 ≤ result → TellsFault [] (F.failures faults.old) (F.held faults.old)
        (F.failures faults.new) (F.held faults.new) }
{
    match run(alloc, files, logs, words, name, input, output) {
        Ok(true) => 0,
        Ok(false) => 1,
        Err(stop) => complain(faults, run_stop_line(stop, words)),
    }
}
