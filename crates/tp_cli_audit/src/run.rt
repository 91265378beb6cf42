//! The audit of the journal in a file against the plan that words name.

ghost use Rattle.std.specs.Prelude.{◌≡◌, ◌≢◌, ◌+◌, ◌≤◌, ℕ, List, [], Option, IfOk, IfErr};
ghost use Rattle.tp_cli_files.specs.FaultLines.{TellsFault};
ghost use Rattle.tp_cli_files.specs.Causes.{counted};
ghost use Rattle.tp_cli_audit.specs.AuditStops.{plan_stop_failures, plan_stop_unread};
ghost use Rattle.tp_cli_audit.specs.Ends.{SaysHeaded, StopsHeaded};
ghost use Rattle.tp_cli_audit.specs.PlanAudits.{EndsPlanAudit, SaysPlan, SaysPlanJournal, SaysPlanNo, StopsPlanAudit, WritesAuditPart};
ghost use Rattle.tp_cli_inputs.specs.Named.{IsNamedPlan};
ghost use Rattle.tp_validate.specs.OfTask.{IsOfTask};

use crate::audit_lines::AuditStop;
use crate::auditing::head_in;
use crate::plan_auditing::audit_verdict;
use crate::stop_lines::{PlanAuditStop, plan_stop_line};
use std::alloc::Global;
use tp_cli_files::{Files, OUT_OF_ORDER, REFUSED, complain};
use tp_cli_inputs::{NamedPlan, PlanWords, plan_in, verdict_of};
use tp_device::{Sink, Source};
use tp_happen::Plan;
use tp_journal::JournalHead;
use tp_task::Task;

/// Audits what a source has left, a journal with that head, against the plan that the words name,
/// of its task, and writes what was found. Answers whether the plan is valid and it is a journal.
fn audit_task<S: Source, O: Sink>(
    alloc: Global,
    words: PlanWords<'_>,
    task: &Task,
    plan: Plan,
    head: &JournalHead,
    source: &mut S,
    output: &mut O,
) -> Result<bool, PlanAuditStop>
    requires limit { words.horizon ≤ 1000000000 }
    requires of_task { IsOfTask task.now plan }
    ensures said { (held : List ℕ → Option (List ℕ))
        → IsNamedPlan held words.entry task.now plan → IfOk result (SaysHeaded held
        words.entry head.now (S.left source.old) (O.held output.old) (O.held output.new)) }
    ensures cause { (held : List ℕ → Option (List ℕ))
        → IsNamedPlan held words.entry task.now plan → IfErr result (StopsHeaded held
        words.entry head.now (S.left source.old) (O.held output.old) (O.held output.new)) }
    ensures failures { O.failures output.new ≡ plan_stop_failures (O.failures output.old) result }
    ensures opened { S.failures source.new ≡
        counted plan_stop_unread (S.failures source.old) result }
{
    match verdict_of(alloc, task, plan) {
        Ok(verdict) => audit_verdict(alloc, &verdict, words.horizon, head, source, output),
        Err(fault) => Err(PlanAuditStop::Judging(fault)),
    }
}

/// The same with the files read. A file is opened only when what stands before it is done.
fn audit_words<N: Files, S: Source, O: Sink>(
    alloc: Global,
    files: &mut N,
    words: PlanWords<'_>,
    head: &JournalHead,
    source: &mut S,
    output: &mut O,
) -> Result<bool, PlanAuditStop>
    requires { words.horizon ≤ 1000000000 }
    ensures said { IfOk result (SaysHeaded (N.held files.old) words.entry head.now
        (S.left source.old) (O.held output.old) (O.held output.new)) }
    ensures cause { IfErr result (StopsHeaded (N.held files.old) words.entry head.now
        (S.left source.old) (O.held output.old) (O.held output.new)) }
    ensures failures { O.failures output.new ≡ plan_stop_failures (O.failures output.old) result }
    ensures opened { N.failures files.new + S.failures source.new ≡ counted plan_stop_unread
        (N.failures files.old + S.failures source.old) result }
{
    match plan_in(alloc, files, words) {
        Ok(named) => {
            let NamedPlan { task, plan } = named;
            audit_task(alloc, words, &task, plan, head, source, output)
        }
        Err(fault) => Err(PlanAuditStop::Judging(fault)),
    }
}

/// The same of the journal in the file of a name, whose head is known: the file is opened before
/// the others.
fn audit_opened<N: Files, O: Sink>(
    alloc: Global,
    files: &mut N,
    log: &str,
    words: PlanWords<'_>,
    head: &JournalHead,
    output: &mut O,
) -> Result<bool, PlanAuditStop>
    requires { words.horizon ≤ 1000000000 }
    ensures said { IfOk result (SaysHeaded (N.held files.old) words.entry head.now
        (N.held files.old log.now) (O.held output.old) (O.held output.new)) }
    ensures cause { IfErr result (StopsHeaded (N.held files.old) words.entry head.now
        (N.held files.old log.now) (O.held output.old) (O.held output.new)) }
    ensures failures { O.failures output.new ≡ plan_stop_failures (O.failures output.old) result }
    ensures opened { N.failures files.new ≡ counted plan_stop_unread (N.failures files.old) result }
{
    match files.open(log) {
        Ok(source) => {
            let mut source = source;
            let audited = audit_words(alloc, files, words, head, &mut source, output);
            files.close(source);
            audited
        }
        Err(_) => Err(PlanAuditStop::Auditing(AuditStop::Open)),
    }
}

/// The same, with the head read first.
fn audit_log<N: Files, O: Sink>(
    alloc: Global,
    files: &mut N,
    log: &str,
    words: PlanWords<'_>,
    output: &mut O,
) -> Result<bool, PlanAuditStop>
    requires { words.horizon ≤ 1000000000 }
    ensures said { IfOk result (SaysPlan (N.held files.old) words.entry
        (N.held files.old log.now) (O.held output.old) (O.held output.new)) }
    ensures cause { IfErr result (StopsPlanAudit (N.held files.old) words.entry
        (N.held files.old log.now) (O.held output.old) (O.held output.new)) }
    ensures failures { O.failures output.new ≡ plan_stop_failures (O.failures output.old) result }
    ensures opened { N.failures files.new ≡ counted plan_stop_unread (N.failures files.old) result }
{
    match head_in(alloc, files, log) {
        Ok(head) => audit_opened(alloc, files, log, words, &head, output),
        Err(stop) => Err(PlanAuditStop::Auditing(stop)),
    }
}

/// Audits the journal in the file of a name, which is to be that of a run of the plan that the
/// words name: the executive is the one over that plan's network, with the lags that the journal's
/// head tells. Answers the exit status: 0 where it is such a journal, and the line `audit ok N`
/// with the number of its pairs was written; 1 where an answer is not allowed, and the line `wrong
/// N` with the number of its line was, or where the plan is not valid, and its first fault was; and
/// for another writes one fault line. The head of the journal is read first, then the plan, and
/// then all of the journal; its file is opened twice. The cost is that of `check` and of the
/// network, and then little more than that of the run.
pub fn run_plan_audit<N: Files, O: Sink, F: Sink>(
    alloc: Global,
    files: &mut N,
    log: &str,
    words: PlanWords<'_>,
    output: &mut O,
    faults: &mut F,
) -> u8
    requires { words.horizon ≤ 1000000000 }
    ensures yes { result ≡ 0 → SaysPlanJournal (N.held files.old) words.entry
        (N.held files.old log.now) (O.held output.old) (O.held output.new) }
    ensures no { result ≡ 1 → SaysPlanNo (N.held files.old) words.entry
        (N.held files.old log.now) (O.held output.old) (O.held output.new) }

    // What hindered it is told, and is as it is told.
    ensures stopped { 2 ≤ result → EndsPlanAudit (N.held files.old) words.entry log.now result
        (N.held files.old log.now) (O.held output.old) (O.held output.new)
        (N.failures files.old) (N.failures files.new)
        (O.failures output.old) (O.failures output.new)
        (F.failures faults.old) (F.held faults.old) (F.failures faults.new) (F.held faults.new) }
    ensures kept { result ≡ REFUSED → O.held output.new ≡ O.held output.old }
    ensures part { result ≡ OUT_OF_ORDER → WritesAuditPart (N.held files.old) words.entry
        (N.held files.old log.now) (O.held output.old) (O.held output.new) }
    ensures told { result ≢ OUT_OF_ORDER → O.failures output.new ≡ O.failures output.old }

    // A fault line goes with each fault, and with nothing else.
    ensures within { result ≤ 3 }
    ensures silent { result ≤ 1 → faults.new ≡ faults.old }
    ensures fault { 2 ≤ result → TellsFault [] (F.failures faults.old) (F.held faults.old)
        (F.failures faults.new) (F.held faults.new) }
{
    match audit_log(alloc, files, log, words, output) {
        Ok(true) => 0,
        Ok(false) => 1,
        Err(stop) => complain(faults, plan_stop_line(stop, log, words)),
    }
}
