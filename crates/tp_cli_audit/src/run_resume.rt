//! A run on the network of a plan that goes on.

ghost use Rattle.std.specs.Prelude.{◌≡◌, ◌≢◌, ◌≤◌, ℕ, List, [], Option, length, true, false, IfOk, IfErr};
ghost use Rattle.tp_bounds.specs.RunLimits.{greatest_limits};
ghost use Rattle.tp_deorder.specs.Answers.{IsPlanNetOf};
ghost use Rattle.tp_exec.specs.FromPlan.{CameFrom};
ghost use Rattle.tp_validate.specs.OfTask.{IsOfTask};
ghost use Rattle.std.specs.Io.KnownBytes.{Appends};
ghost use Rattle.tp_device.specs.Bytes.{AppendsPart};
ghost use Rattle.tp_cli_audit.specs.Audits.{found_line};
ghost use Rattle.tp_cli_files.specs.FaultLines.{TellsFault};
ghost use Rattle.tp_cli_inputs.specs.Named.{IsNamedPlan};
ghost use Rattle.tp_cli_inputs.specs.VerdictLines.{invalid_line};
ghost use Rattle.tp_cli_audit.specs.Old.{IsQuiet};
ghost use Rattle.tp_cli_run.specs.LogFile.{log_file};
ghost use Rattle.tp_cli_audit.specs.RunResume.{ComesFrom, EndsOn, EndsRunResumed, GoesOfPlan, GoesSteps, GoesVerdict, HasStopped, IsTakenNet, ResumesRun, StopsEarly, told_on};
ghost use Rattle.tp_cli_audit.specs.RunResumeStops.{run_resume_failures, run_resume_reads, run_resume_unlogged, run_resume_unread};
ghost use Rattle.tp_cli_audit.specs.AuditLines.{stop_unread};
ghost use Rattle.tp_cli_files.specs.Causes.{counted};

use crate::audit_lines::AuditStop;
use crate::auditing::{Found, head_of};
use crate::going::go_on;
use crate::old::{Bytes, Run, Taken, kept_in, take_up};
use crate::resume_stops::ResumeStop;
use crate::run_resume_stops::{RunResumeStop, run_resume_line};
use crate::starting::{lags_suit, plan_start};
use crate::verdicts::say;
use std::alloc::Global;
use tp_bounds::{Limits, PlanNet};
use tp_cli_files::{Files, Logs, OUT_OF_ORDER, complain};
use tp_cli_inputs::{NamedPlan, PlanWords, plan_in, verdict_of, write_invalid};
use tp_cli_run::{RunStop, tell_run};
use tp_deorder::deorder;
use tp_device::{Sink, Source};
use tp_happen::Plan;
use tp_journal::JournalHead;
use tp_task::Task;
use tp_validate::{Fault, ValidPlan, Verdict};

/// Audits a kept journal with that head against the executive over the network of a plan.
fn take_net(
    alloc: Global,
    network: &PlanNet,
    head: &JournalHead,
    kept: Vec<u8>,
) -> Result<Taken, AuditStop>
    requires { length network.now.bounds.items ≤ 65535 }
    ensures taken { IfOk result (IsTakenNet network.now head.now kept.items) }
    ensures came { IfOk result (ComesFrom network.now) }
    ensures quiet { IfErr result IsQuiet }
    ensures opened { (n : ℕ) → counted stop_unread n result ≡ n }
{
    if !lags_suit(network, head) {
        return Err(AuditStop::Head);
    }
    match plan_start(alloc, network, head) {
        Ok(executive) => take_up(alloc, kept, executive),
        Err(_) => Err(AuditStop::Network),
    }
}

/// What came of the telling of the plan of a run.
fn of_telling(told: Result<bool, RunStop>) -> Result<bool, RunResumeStop>
    ensures { result ≡ told_on told }
{
    match told {
        Ok(done) => Ok(done),
        Err(RunStop::Write) => Err(RunResumeStop::Write),
        Err(_) => Err(RunResumeStop::Telling),
    }
}

/// Goes on with a run of a plan, and writes the plan of the run. Answers whether there is one.
fn go_to_end<L: Logs, I: Source, O: Sink>(
    alloc: Global,
    logs: &mut L,
    name: &str,
    plan: &ValidPlan<'_>,
    run: Run,
    input: &mut I,
    output: &mut O,
) -> Result<bool, RunResumeStop>
    requires { CameFrom plan.now.task plan.now.steps run.executive }
    ensures said { IfOk result (EndsOn plan.now.task plan.now.steps run.executive run.kept.items
        (I.left input.old) (O.held output.old) (O.held output.new)
        (log_file name.now (L.asked logs.old) (L.asked logs.new)
        (L.named logs.new) L.blank (L.kept logs.new))) }
    ensures cause { IfErr result (HasStopped (O.held output.old) (O.held output.new)
        (log_file name.now (L.asked logs.old) (L.asked logs.new)
        (L.named logs.new) L.blank (L.kept logs.new))) }
    ensures failures { O.failures output.new ≡ run_resume_failures (O.failures output.old) result }
    ensures read { I.failures input.new ≡ run_resume_reads (I.failures input.old) result }
    ensures opened { (n : ℕ) → counted run_resume_unread n result ≡ n }
    ensures log { L.failures logs.new ≡ counted run_resume_unlogged (L.failures logs.old) result }
{
    match go_on(alloc, logs, name, run, input, output) {
        Ok(executive) => of_telling(tell_run(&executive, plan, output)),
        Err(stop) => Err(RunResumeStop::Resuming(stop)),
    }
}

/// Writes that an answer in a journal is not allowed. Answers that the run does not go on.
fn say_wrong<O: Sink>(output: &mut O, line: u64) -> Result<bool, RunResumeStop>
    ensures said { IfOk result (λ went. (went ≡ false)
        × Appends (O.held output.old) (O.held output.new) (found_line (Found.Wrong line))) }
    ensures cause { IfErr result (λ stop. (stop ≡ RunResumeStop.Resuming
        (ResumeStop.Auditing AuditStop.Write)) × AppendsPart (O.held output.old)
        (O.held output.new) (found_line (Found.Wrong line))) }
    ensures failures { O.failures output.new ≡ run_resume_failures (O.failures output.old) result }
    ensures unread { (n : ℕ) → run_resume_reads n result ≡ n }
    ensures opened { (n : ℕ) → counted run_resume_unread n result ≡ n }
    ensures unlogged { (n : ℕ) → counted run_resume_unlogged n result ≡ n }
{
    match say(output, Found::Wrong(line)) {
        Ok(_) => Ok(false),
        Err(_) => Err(RunResumeStop::Resuming(ResumeStop::Auditing(AuditStop::Write))),
    }
}

/// Writes the first fault of a plan that is not valid. Answers that the run does not go on.
fn say_invalid<O: Sink>(output: &mut O, tick: u32, why: Fault) -> Result<bool, RunResumeStop>
    ensures said { IfOk result (λ went. (went ≡ false)
        × Appends (O.held output.old) (O.held output.new) (invalid_line tick why)) }
    ensures cause { IfErr result (λ stop. (stop ≡ RunResumeStop.Write)
        × AppendsPart (O.held output.old) (O.held output.new) (invalid_line tick why)) }
    ensures failures { O.failures output.new ≡ run_resume_failures (O.failures output.old) result }
    ensures unread { (n : ℕ) → run_resume_reads n result ≡ n }
    ensures opened { (n : ℕ) → counted run_resume_unread n result ≡ n }
    ensures unlogged { (n : ℕ) → counted run_resume_unlogged n result ≡ n }
{
    match write_invalid(output, tick, why) {
        Ok(()) => Ok(false),
        Err(_) => Err(RunResumeStop::Write),
    }
}

/// Goes on from a journal that was kept, with that head, on the network of a plan.
fn run_on<L: Logs, I: Source, O: Sink>(
    alloc: Global,
    logs: &mut L,
    name: &str,
    plan: &ValidPlan<'_>,
    network: &PlanNet,
    head: &JournalHead,
    kept: Vec<u8>,
    input: &mut I,
    output: &mut O,
) -> Result<bool, RunResumeStop>
    requires { IsPlanNetOf plan.now.task plan.now.steps
        (greatest_limits network.now.horizon) network.now }
    ensures said { IfOk result (GoesSteps plan.now.task plan.now.steps network.now.horizon
        kept.items (I.left input.old) (O.held output.old) (O.held output.new)
        (log_file name.now (L.asked logs.old) (L.asked logs.new)
        (L.named logs.new) L.blank (L.kept logs.new))) }
    ensures cause { IfErr result (HasStopped (O.held output.old) (O.held output.new)
        (log_file name.now (L.asked logs.old) (L.asked logs.new)
        (L.named logs.new) L.blank (L.kept logs.new))) }
    ensures failures { O.failures output.new ≡ run_resume_failures (O.failures output.old) result }
    ensures read { I.failures input.new ≡ run_resume_reads (I.failures input.old) result }
    ensures opened { (n : ℕ) → counted run_resume_unread n result ≡ n }
    ensures log { L.failures logs.new ≡ counted run_resume_unlogged (L.failures logs.old) result }
{
    match take_net(alloc, network, head, kept) {
        Ok(Taken::Goes(run)) => go_to_end(alloc, logs, name, plan, run, input, output),
        Ok(Taken::Wrong(line)) => say_wrong(output, line),
        Err(stop) => Err(RunResumeStop::Resuming(ResumeStop::Auditing(stop))),
    }
}

/// The same on the network of a validated plan.
fn run_valid<L: Logs, I: Source, O: Sink>(
    alloc: Global,
    logs: &mut L,
    name: &str,
    plan: &ValidPlan<'_>,
    horizon: u32,
    head: &JournalHead,
    kept: Vec<u8>,
    input: &mut I,
    output: &mut O,
) -> Result<bool, RunResumeStop>
    requires { horizon ≤ 1000000000 }
    ensures said { IfOk result (GoesSteps plan.now.task plan.now.steps horizon kept.items
        (I.left input.old) (O.held output.old) (O.held output.new)
        (log_file name.now (L.asked logs.old) (L.asked logs.new)
        (L.named logs.new) L.blank (L.kept logs.new))) }
    ensures cause { IfErr result (HasStopped (O.held output.old) (O.held output.new)
        (log_file name.now (L.asked logs.old) (L.asked logs.new)
        (L.named logs.new) L.blank (L.kept logs.new))) }
    ensures failures { O.failures output.new ≡ run_resume_failures (O.failures output.old) result }
    ensures read { I.failures input.new ≡ run_resume_reads (I.failures input.old) result }
    ensures opened { (n : ℕ) → counted run_resume_unread n result ≡ n }
    ensures log { L.failures logs.new ≡ counted run_resume_unlogged (L.failures logs.old) result }
{
    match deorder(alloc, plan, &Limits::greatest(horizon)) {
        Ok(network) => run_on(alloc, logs, name, plan, &network, head, kept, input, output),
        Err(fault) => Err(RunResumeStop::Network(fault)),
    }
}

/// The same of a plan that is valid; of another, writes its first fault.
fn run_verdict<L: Logs, I: Source, O: Sink>(
    alloc: Global,
    logs: &mut L,
    name: &str,
    verdict: &Verdict<'_>,
    horizon: u32,
    head: &JournalHead,
    kept: Vec<u8>,
    input: &mut I,
    output: &mut O,
) -> Result<bool, RunResumeStop>
    requires { horizon ≤ 1000000000 }
    ensures said { IfOk result (GoesVerdict verdict.now horizon kept.items (I.left input.old)
        (O.held output.old) (O.held output.new)
        (log_file name.now (L.asked logs.old) (L.asked logs.new)
        (L.named logs.new) L.blank (L.kept logs.new))) }
    ensures cause { IfErr result (HasStopped (O.held output.old) (O.held output.new)
        (log_file name.now (L.asked logs.old) (L.asked logs.new)
        (L.named logs.new) L.blank (L.kept logs.new))) }
    ensures failures { O.failures output.new ≡ run_resume_failures (O.failures output.old) result }
    ensures read { I.failures input.new ≡ run_resume_reads (I.failures input.old) result }
    ensures opened { (n : ℕ) → counted run_resume_unread n result ≡ n }
    ensures log { L.failures logs.new ≡ counted run_resume_unlogged (L.failures logs.old) result }
{
    match verdict {
        Verdict::Valid(plan) => {
            run_valid(alloc, logs, name, plan, horizon, head, kept, input, output)
        }
        Verdict::Invalid { plan: _, tick, why } => say_invalid(output, *tick, *why),
    }
}

/// The same of the plan that the words name, of its task.
fn run_of<L: Logs, I: Source, O: Sink>(
    alloc: Global,
    logs: &mut L,
    words: PlanWords<'_>,
    name: &str,
    task: &Task,
    plan: Plan,
    head: &JournalHead,
    kept: Vec<u8>,
    input: &mut I,
    output: &mut O,
) -> Result<bool, RunResumeStop>
    requires limit { words.horizon ≤ 1000000000 }
    requires of_task { IsOfTask task.now plan }
    ensures said { (held : List ℕ → Option (List ℕ))
        → IsNamedPlan held words.entry task.now plan
        → IfOk result (GoesOfPlan held words.entry kept.items (I.left input.old)
        (O.held output.old) (O.held output.new)
        (log_file name.now (L.asked logs.old) (L.asked logs.new)
        (L.named logs.new) L.blank (L.kept logs.new))) }
    ensures cause { IfErr result (HasStopped (O.held output.old) (O.held output.new)
        (log_file name.now (L.asked logs.old) (L.asked logs.new)
        (L.named logs.new) L.blank (L.kept logs.new))) }
    ensures failures { O.failures output.new ≡ run_resume_failures (O.failures output.old) result }
    ensures read { I.failures input.new ≡ run_resume_reads (I.failures input.old) result }
    ensures opened { (n : ℕ) → counted run_resume_unread n result ≡ n }
    ensures log { L.failures logs.new ≡ counted run_resume_unlogged (L.failures logs.old) result }
{
    match verdict_of(alloc, task, plan) {
        Ok(verdict) => {
            run_verdict(
                alloc,
                logs,
                name,
                &verdict,
                words.horizon,
                head,
                kept,
                input,
                output,
            )
        }
        Err(fault) => Err(RunResumeStop::Judging(fault)),
    }
}

/// The same with the plan's files read. A file is opened, and the journal file made, only when what
/// stands before it is done.
fn run_named<N: Files, L: Logs, I: Source, O: Sink>(
    alloc: Global,
    files: &mut N,
    logs: &mut L,
    words: PlanWords<'_>,
    name: &str,
    head: &JournalHead,
    kept: Vec<u8>,
    input: &mut I,
    output: &mut O,
) -> Result<bool, RunResumeStop>
    requires { words.horizon ≤ 1000000000 }
    ensures said { IfOk result
        (GoesOfPlan (N.held files.old) words.entry kept.items (I.left input.old)
        (O.held output.old) (O.held output.new)
        (log_file name.now (L.asked logs.old) (L.asked logs.new)
        (L.named logs.new) L.blank (L.kept logs.new))) }
    ensures cause { IfErr result (HasStopped (O.held output.old) (O.held output.new)
        (log_file name.now (L.asked logs.old) (L.asked logs.new)
        (L.named logs.new) L.blank (L.kept logs.new))) }
    ensures failures { O.failures output.new ≡ run_resume_failures (O.failures output.old) result }
    ensures read { I.failures input.new ≡ run_resume_reads (I.failures input.old) result }
    ensures opened { N.failures files.new ≡
        counted run_resume_unread (N.failures files.old) result }
    ensures log { L.failures logs.new ≡ counted run_resume_unlogged (L.failures logs.old) result }
{
    match plan_in(alloc, files, words) {
        Ok(named) => {
            let NamedPlan { task, plan } = named;
            run_of(
                alloc, logs, words, name, &task, plan, head, kept, input, output,
            )
        }
        Err(fault) => Err(RunResumeStop::Judging(fault)),
    }
}

/// The same with the head of the journal read first.
fn run_kept<N: Files, L: Logs, I: Source, O: Sink>(
    alloc: Global,
    files: &mut N,
    logs: &mut L,
    words: PlanWords<'_>,
    name: &str,
    kept: Vec<u8>,
    input: &mut I,
    output: &mut O,
) -> Result<bool, RunResumeStop>
    requires { words.horizon ≤ 1000000000 }
    ensures said { IfOk result
        (GoesOfPlan (N.held files.old) words.entry kept.items (I.left input.old)
        (O.held output.old) (O.held output.new)
        (log_file name.now (L.asked logs.old) (L.asked logs.new)
        (L.named logs.new) L.blank (L.kept logs.new))) }
    ensures cause { IfErr result (HasStopped (O.held output.old) (O.held output.new)
        (log_file name.now (L.asked logs.old) (L.asked logs.new)
        (L.named logs.new) L.blank (L.kept logs.new))) }
    ensures failures { O.failures output.new ≡ run_resume_failures (O.failures output.old) result }
    ensures read { I.failures input.new ≡ run_resume_reads (I.failures input.old) result }
    ensures opened { N.failures files.new ≡
        counted run_resume_unread (N.failures files.old) result }
    ensures log { L.failures logs.new ≡ counted run_resume_unlogged (L.failures logs.old) result }
{
    let mut bytes = Bytes {
        left: kept.as_slice(),
    };
    match head_of(alloc, &mut bytes) {
        Ok(head) => run_named(alloc, files, logs, words, name, &head, kept, input, output),
        Err(stop) => Err(RunResumeStop::Resuming(ResumeStop::Auditing(stop))),
    }
}

/// The same of the journal in the file of a name.
fn run_old<N: Files, L: Logs, I: Source, O: Sink>(
    alloc: Global,
    files: &mut N,
    logs: &mut L,
    words: PlanWords<'_>,
    old: &str,
    name: &str,
    input: &mut I,
    output: &mut O,
) -> Result<bool, RunResumeStop>
    requires { words.horizon ≤ 1000000000 }
    ensures said { IfOk result (ResumesRun (N.held files.old) words.entry old.now (I.left input.old)
        (O.held output.old) (O.held output.new)
        (log_file name.now (L.asked logs.old) (L.asked logs.new)
        (L.named logs.new) L.blank (L.kept logs.new))) }
    ensures cause { IfErr result (HasStopped (O.held output.old) (O.held output.new)
        (log_file name.now (L.asked logs.old) (L.asked logs.new)
        (L.named logs.new) L.blank (L.kept logs.new))) }
    ensures failures { O.failures output.new ≡ run_resume_failures (O.failures output.old) result }
    ensures read { I.failures input.new ≡ run_resume_reads (I.failures input.old) result }
    ensures opened { N.failures files.new ≡
        counted run_resume_unread (N.failures files.old) result }
    ensures log { L.failures logs.new ≡ counted run_resume_unlogged (L.failures logs.old) result }
{
    match kept_in(alloc, files, old) {
        Ok(kept) => run_kept(alloc, files, logs, words, name, kept, input, output),
        Err(stop) => Err(RunResumeStop::Resuming(ResumeStop::Auditing(stop))),
    }
}

/// Continues the run whose journal is in the first file, on the network of the plan that the words
/// name: the journal is audited, but for a last pair that was cut off; then its head and its pairs
/// go to the second file, the commands of the input are answered, each once its pair is there, and
/// the plan of the run is written after the answers. Returns the exit status: 0 where that plan was
/// written; 1 where there is none, where an answer of the journal is not allowed, and the line
/// `wrong N` was written, or where the plan is not valid, and its first fault was; and for another
/// writes one fault line. The head of the journal is read first, then the plan, then the pairs; the
/// second file is made once the journal is audited.
pub fn run_run_resume<N: Files, L: Logs, I: Source, O: Sink, F: Sink>(
    alloc: Global,
    files: &mut N,
    logs: &mut L,
    words: PlanWords<'_>,
    old: &str,
    name: &str,
    input: &mut I,
    output: &mut O,
    faults: &mut F,
) -> u8
    requires { words.horizon ≤ 1000000000 }
    ensures resumed { result ≡ 0 → ResumesRun (N.held files.old) words.entry old.now
        (I.left input.old)
        (O.held output.old) (O.held output.new)
        (log_file name.now (L.asked logs.old) (L.asked logs.new)
        (L.named logs.new) L.blank (L.kept logs.new)) true }
    ensures no { result ≡ 1 → ResumesRun (N.held files.old) words.entry old.now (I.left input.old)
        (O.held output.old) (O.held output.new)
        (log_file name.now (L.asked logs.old) (L.asked logs.new)
        (L.named logs.new) L.blank (L.kept logs.new)) false }

    // What stopped it is told.
    ensures stopped { 2 ≤ result → EndsRunResumed words.entry old.now result
        (I.failures input.old) (I.failures input.new) (O.held output.old) (O.held output.new)
        (log_file name.now (L.asked logs.old) (L.asked logs.new)
        (L.named logs.new) L.blank (L.kept logs.new))
        (N.failures files.old) (N.failures files.new) (L.failures logs.old) (L.failures logs.new)
        (O.failures output.old) (O.failures output.new)
        (F.failures faults.old) (F.held faults.old) (F.failures faults.new) (F.held faults.new) }
    ensures part { result ≡ OUT_OF_ORDER
        → StopsEarly (O.held output.old) (O.held output.new) }
    ensures heard { result ≢ OUT_OF_ORDER → I.failures input.new ≡ I.failures input.old }
    ensures told { result ≢ OUT_OF_ORDER → O.failures output.new ≡ O.failures output.old }

    // A fault line goes with each fault, and with nothing else.
    ensures within { result ≤ 3 }
    ensures silent { result ≤ 1 → faults.new ≡ faults.old }
    ensures fault { 2 ≤ result → TellsFault [] (F.failures faults.old) (F.held faults.old)
        (F.failures faults.new) (F.held faults.new) }
{
    match run_old(alloc, files, logs, words, old, name, input, output) {
        Ok(true) => 0,
        Ok(false) => 1,
        Err(stop) => complain(faults, run_resume_line(stop, words, old)),
    }
}
