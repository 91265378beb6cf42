//! A run on a network of bounds alone that goes on.

ghost use Rattle.std.specs.Prelude.{◌≡◌, ◌≢◌, ◌≤◌, ℕ, [], Some, true, false, IfOk, IfErr};
ghost use Rattle.std.specs.Io.KnownBytes.{Appends};
ghost use Rattle.tp_device.specs.Bytes.{AppendsPart};
ghost use Rattle.tp_cli_audit.specs.Audits.{found_line};
ghost use Rattle.tp_cli_audit.specs.Bare.{HindersBare, HindersTold};
ghost use Rattle.tp_cli_audit.specs.AuditLines.{stop_unread};
ghost use Rattle.tp_cli_files.specs.Causes.{counted};
ghost use Rattle.tp_cli_files.specs.FaultLines.{TellsFault};
ghost use Rattle.tp_cli_audit.specs.BareResume.{EndsResumed, HindersOld, IsTakenBare, IsTakenHead, ResumesPart, SaysOld, StopsResumed, WentBare, ran_result};
ghost use Rattle.tp_cli_audit.specs.ResumeStops.{resume_failures, resume_reads, resume_unlogged, resume_unread};
ghost use Rattle.tp_cli_run.specs.LogFile.{log_file};

use crate::audit_lines::AuditStop;
use crate::auditing::{Found, head_of};
use crate::bare::{bare_start, is_bare};
use crate::going::go_on;
use crate::old::{Bytes, Taken, kept_in, take_up};
use crate::resume_stops::{ResumeStop, resume_line};
use crate::verdicts::say;
use std::alloc::Global;
use tp_cli_files::{Files, Logs, OUT_OF_ORDER, complain};
use tp_device::{Sink, Source};
use tp_exec_machine::Executive;
use tp_journal::JournalHead;
use tp_repair::RepairNet;

/// Audits a journal that was kept, with that head, against the executive that the head tells.
fn take_headed(alloc: Global, kept: Vec<u8>, head: &JournalHead) -> Result<Taken, AuditStop>
    ensures taken { IfOk result (IsTakenHead head.now kept.items) }
    ensures cause { IfErr result (HindersTold head.now (Some kept.items)) }
    ensures opened { (n : ℕ) → counted stop_unread n result ≡ n }
{
    if !is_bare(head) {
        return Err(AuditStop::Head);
    }
    match bare_start(alloc, head) {
        Ok(executive) => take_up(alloc, kept, executive),
        Err(_) => Err(AuditStop::Network),
    }
}

/// The same with the head that it begins with.
fn take_kept(alloc: Global, kept: Vec<u8>) -> Result<Taken, AuditStop>
    ensures taken { IfOk result (IsTakenBare kept.items) }
    ensures cause { IfErr result (HindersBare (Some kept.items)) }
    ensures opened { (n : ℕ) → counted stop_unread n result ≡ n }
{
    let mut bytes = Bytes {
        left: kept.as_slice(),
    };
    match head_of(alloc, &mut bytes) {
        Ok(head) => take_headed(alloc, kept, &head),
        Err(stop) => Err(stop),
    }
}

/// The same of the journal in the file of a name.
fn take_old<N: Files>(alloc: Global, files: &mut N, old: &str) -> Result<Taken, AuditStop>
    ensures taken { IfOk result (WentBare (N.held files.old old.now)) }
    ensures cause { IfErr result (HindersOld (N.held files.old old.now)) }
    ensures opened { N.failures files.new ≡ counted stop_unread (N.failures files.old) result }
{
    match kept_in(alloc, files, old) {
        Ok(kept) => take_kept(alloc, kept),
        Err(stop) => Err(stop),
    }
}

/// Writes that an answer in a journal is not allowed. Answers that the run does not go on.
fn say_wrong<O: Sink>(output: &mut O, line: u64) -> Result<bool, ResumeStop>
    ensures said { IfOk result (λ went. (went ≡ false)
        × Appends (O.held output.old) (O.held output.new) (found_line (Found.Wrong line))) }
    ensures cause { IfErr result (λ stop. (stop ≡ ResumeStop.Auditing AuditStop.Write)
        × AppendsPart (O.held output.old) (O.held output.new) (found_line (Found.Wrong line))) }
    ensures told { O.failures output.new ≡ resume_failures (O.failures output.old) result }
    ensures unread { (n : ℕ) → resume_reads n result ≡ n }
    ensures opened { (n : ℕ) → counted resume_unread n result ≡ n }
    ensures unlogged { (n : ℕ) → counted resume_unlogged n result ≡ n }
{
    match say(output, Found::Wrong(line)) {
        Ok(_) => Ok(false),
        Err(_) => Err(ResumeStop::Auditing(AuditStop::Write)),
    }
}

/// Answers that the run went on, where it did.
fn ran_on(went: Result<Executive<RepairNet>, ResumeStop>) -> Result<bool, ResumeStop>
    ensures { result ≡ ran_result went }
{
    match went {
        Ok(_) => Ok(true),
        Err(stop) => Err(stop),
    }
}

/// Goes on from the journal in the file of a name. Answers whether that is one.
fn resume<N: Files, L: Logs, I: Source, O: Sink>(
    alloc: Global,
    files: &mut N,
    logs: &mut L,
    old: &str,
    name: &str,
    input: &mut I,
    output: &mut O,
) -> Result<bool, ResumeStop>
    ensures went { IfOk result (SaysOld (N.held files.old old.now) (I.left input.old)
        (O.held output.old) (O.held output.new)
        (log_file name.now (L.asked logs.old) (L.asked logs.new)
        (L.named logs.new) L.blank (L.kept logs.new))) }
    ensures cause { IfErr result (StopsResumed (N.held files.old old.now) (I.left input.old)
        (O.held output.old) (O.held output.new)
        (log_file name.now (L.asked logs.old) (L.asked logs.new)
        (L.named logs.new) L.blank (L.kept logs.new))) }
    ensures told { O.failures output.new ≡ resume_failures (O.failures output.old) result }
    ensures read { I.failures input.new ≡ resume_reads (I.failures input.old) result }
    ensures opened { N.failures files.new ≡ counted resume_unread (N.failures files.old) result }
    ensures log { L.failures logs.new ≡ counted resume_unlogged (L.failures logs.old) result }
{
    match take_old(alloc, files, old) {
        Ok(Taken::Goes(run)) => ran_on(go_on(alloc, logs, name, run, input, output)),
        Ok(Taken::Wrong(line)) => say_wrong(output, line),
        Err(stop) => Err(ResumeStop::Auditing(stop)),
    }
}

/// Continues the run whose journal is in the first file, on a network of bounds alone: the journal
/// is audited, but for a last pair that was cut off; then its head and its pairs go to the second
/// file, and the commands of the input are answered, each once its pair is there. Returns the exit
/// status: 0 where all were answered; 1 where an answer of the journal is not allowed, and the line
/// `wrong N` was written; and for another writes one fault line. The second file is made once the
/// journal is audited. It takes memory for the journal, and costs what its audit costs and the
/// commands do.
pub fn run_bare_resume<N: Files, L: Logs, I: Source, O: Sink, F: Sink>(
    alloc: Global,
    files: &mut N,
    logs: &mut L,
    old: &str,
    name: &str,
    input: &mut I,
    output: &mut O,
    faults: &mut F,
) -> u8
    ensures resumed { result ≡ 0 → SaysOld (N.held files.old old.now) (I.left input.old)
        (O.held output.old) (O.held output.new)
        (log_file name.now (L.asked logs.old) (L.asked logs.new)
        (L.named logs.new) L.blank (L.kept logs.new)) true }
    ensures wrong { result ≡ 1 → SaysOld (N.held files.old old.now) (I.left input.old)
        (O.held output.old) (O.held output.new)
        (log_file name.now (L.asked logs.old) (L.asked logs.new)
        (L.named logs.new) L.blank (L.kept logs.new)) false }

    // What stopped it is told, and is as it is told.
    ensures stopped { 2 ≤ result → EndsResumed (N.held files.old old.now) old.now result
        (I.left input.old) (I.failures input.old) (I.failures input.new)
        (O.held output.old) (O.held output.new)
        (log_file name.now (L.asked logs.old) (L.asked logs.new)
        (L.named logs.new) L.blank (L.kept logs.new))
        (N.failures files.old) (N.failures files.new) (L.failures logs.old) (L.failures logs.new)
        (O.failures output.old) (O.failures output.new)
        (F.failures faults.old) (F.held faults.old) (F.failures faults.new) (F.held faults.new) }
    ensures part { result ≡ OUT_OF_ORDER → ResumesPart (N.held files.old old.now) (I.left input.old)
        (O.held output.old) (O.held output.new) }
    ensures heard { result ≢ OUT_OF_ORDER → I.failures input.new ≡ I.failures input.old }
    ensures told { result ≢ OUT_OF_ORDER → O.failures output.new ≡ O.failures output.old }

    // A fault line goes with each fault, and with nothing else.
    ensures within { result ≤ 3 }
    ensures silent { result ≤ 1 → faults.new ≡ faults.old }
    ensures fault { 2 ≤ result → TellsFault [] (F.failures faults.old) (F.held faults.old)
        (F.failures faults.new) (F.held faults.new) }
{
    match resume(alloc, files, logs, old, name, input, output) {
        Ok(true) => 0,
        Ok(false) => 1,
        Err(stop) => complain(faults, resume_line(stop, old)),
    }
}
