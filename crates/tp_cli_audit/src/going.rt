//! A run goes on: its journal goes to a new file, and the commands of the input are answered.

ghost use Rattle.std.specs.Prelude.{◌≡◌, ℕ, drop, Ok, Err, IfOk, IfErr};
ghost use Rattle.tp_device.specs.Bytes.{Writes, failures_after};
ghost use Rattle.tp_exec_machine.specs.Machine.{Machine};
ghost use Rattle.tp_script.specs.declared.serving.Served.{Served};
ghost use Rattle.tp_journal_pairs.specs.GoingOn.{GoesOn};
ghost use Rattle.tp_journal_pairs.specs.Writing.{read_failures, write_failures};
ghost use Rattle.tp_cli_run.specs.LogFile.{IsNamed, log_file};
ghost use Rattle.tp_cli_audit.specs.Going.{GoesTo, StopsGoing, StopsIn, begin_text, went_result};
ghost use Rattle.tp_cli_audit.specs.ResumeStops.{resume_failures, resume_reads, resume_unlogged, resume_unread};
ghost use Rattle.tp_cli_bare.specs.JournalLines.{journal_unlogged};
ghost use Rattle.tp_cli_files.specs.Causes.{counted};

use crate::old::Run;
use crate::resume_stops::ResumeStop;
use std::alloc::Global;
use tp_cli_files::Logs;
use tp_device::{Failed, Sink, Source, push_all};
use tp_exec_machine::Executive;
use tp_journal_pairs::{JournalFault, journal_on};
use tp_repair::RepairNet;
use tp_script::{LONGEST_LINE, LineBuffers, Lines};

/// The bytes of a journal behind the first line's word and version.
#[tactic(auto, using(std::proofs::lemmas::List::drop_min))]
fn behind_version(kept: &[u8]) -> &[u8]
    ensures { result.now ≡ drop 9 kept.now }
{
    &kept[9usize.min(kept.len())..]
}

/// Writes a journal that was kept, as one of version 2.
fn write_beginning<V: Sink>(log: &mut V, kept: &[u8]) -> Result<(), Failed>
    ensures bytes { Writes (V.held log.old) (V.held log.new) (begin_text kept.now) result }
    ensures cause { V.failures log.new ≡ failures_after (V.failures log.old) result }
{
    push_all(log, b"journal 2")?;
    push_all(log, behind_version(kept))
}

/// Answers the commands of the lines, whose pairs follow in the log. The executive is as they leave
/// it.
fn go_on_behind<I: Source, O: Sink, V: Sink>(
    executive: Executive<RepairNet>,
    lines: &mut Lines<'_, I>,
    output: &mut O,
    log: &mut V,
) -> Result<Executive<RepairNet>, JournalFault>
    requires { lines.old.longest ≡ 256 }
    ensures goes { IfOk result (λ last. (served : Served) × GoesOn executive last lines.old
        lines.new (O.held output.old) (O.held output.new) (V.held log.old) (V.held log.new)
        (Ok served)) }
    ensures cause { IfErr result (λ fault. (last : Machine) × GoesOn executive last lines.old
        lines.new (O.held output.old) (O.held output.new) (V.held log.old) (V.held log.new)
        (Err fault)) }
    ensures told { O.failures output.new ≡ write_failures (O.failures output.old) result }
    ensures source { lines.new.source ≡ lines.old.source }
    ensures read { lines.new.failures ≡ read_failures lines.old.failures result }
    ensures log { V.failures log.new ≡ counted journal_unlogged (V.failures log.old) result }
{
    let mut executive = executive;
    match journal_on(&mut executive, lines, output, log) {
        Ok(_) => Ok(executive),
        Err(fault) => Err(fault),
    }
}

/// Writes the journal of a run to a log, and answers the commands of the lines, whose pairs follow.
fn go_on_in<I: Source, O: Sink, V: Sink>(
    run: Run,
    lines: &mut Lines<'_, I>,
    output: &mut O,
    log: &mut V,
) -> Result<Executive<RepairNet>, JournalFault>
    requires { lines.old.longest ≡ 256 }
    ensures goes { IfOk result (GoesTo run.executive run.kept.items lines.old.rest
        (O.held output.old) (O.held output.new) (V.held log.old) (V.held log.new)) }
    ensures cause { IfErr result (StopsIn run.executive run.kept.items lines.old.rest
        (O.held output.old) (O.held output.new) (V.held log.old) (V.held log.new)) }
    ensures told { O.failures output.new ≡ write_failures (O.failures output.old) result }
    ensures source { lines.new.source ≡ lines.old.source }
    ensures read { lines.new.failures ≡ read_failures lines.old.failures result }
    ensures log { V.failures log.new ≡ counted journal_unlogged (V.failures log.old) result }
{
    let Run { executive, kept } = run;
    match write_beginning(log, kept.as_slice()) {
        Ok(()) => go_on_behind(executive, lines, output, log),
        Err(_) => Err(JournalFault::Log),
    }
}

/// What came of the commands behind the journal.
fn of_journal(
    went: Result<Executive<RepairNet>, JournalFault>,
) -> Result<Executive<RepairNet>, ResumeStop>
    ensures { result ≡ went_result went }
{
    match went {
        Ok(executive) => Ok(executive),
        Err(fault) => Err(ResumeStop::Journaling(fault)),
    }
}

/// Makes the file of a name for the journal of a run, and answers the commands of the lines, whose
/// pairs follow there.
fn go_on_lines<L: Logs, I: Source, O: Sink>(
    logs: &mut L,
    name: &str,
    run: Run,
    lines: &mut Lines<'_, I>,
    output: &mut O,
) -> Result<Executive<RepairNet>, ResumeStop>
    requires { lines.old.longest ≡ 256 }
    ensures goes { IfOk result (GoesTo run.executive run.kept.items lines.old.rest
        (O.held output.old) (O.held output.new) L.blank (L.kept logs.new)) }
    ensures cause { IfErr result (StopsGoing run.executive run.kept.items lines.old.rest
        (O.held output.old) (O.held output.new)
        (log_file name.now (L.asked logs.old) (L.asked logs.new)
        (L.named logs.new) L.blank (L.kept logs.new))) }
    ensures named { IfOk result (λ _. IsNamed (log_file name.now (L.asked logs.old)
        (L.asked logs.new) (L.named logs.new) L.blank (L.kept logs.new))) }
    ensures told { O.failures output.new ≡ resume_failures (O.failures output.old) result }
    ensures source { lines.new.source ≡ lines.old.source }
    ensures read { lines.new.failures ≡ resume_reads lines.old.failures result }
    ensures opened { (n : ℕ) → counted resume_unread n result ≡ n }
    ensures log { L.failures logs.new ≡ counted resume_unlogged (L.failures logs.old) result }
{
    match logs.make(name) {
        Ok(log) => {
            let mut log = log;
            let went = go_on_in(run, lines, output, &mut log);
            logs.keep(log);
            of_journal(went)
        }
        Err(_) => Err(ResumeStop::Making),
    }
}

/// Makes the file of a name for the journal of a run, and goes on with the commands of the input.
/// The executive is as they leave it.
pub(crate) fn go_on<L: Logs, I: Source, O: Sink>(
    alloc: Global,
    logs: &mut L,
    name: &str,
    run: Run,
    input: &mut I,
    output: &mut O,
) -> Result<Executive<RepairNet>, ResumeStop>
    ensures goes { IfOk result (GoesTo run.executive run.kept.items (I.left input.old)
        (O.held output.old) (O.held output.new) L.blank (L.kept logs.new)) }
    ensures cause { IfErr result (StopsGoing run.executive run.kept.items (I.left input.old)
        (O.held output.old) (O.held output.new)
        (log_file name.now (L.asked logs.old) (L.asked logs.new)
        (L.named logs.new) L.blank (L.kept logs.new))) }
    ensures named { IfOk result (λ _. IsNamed (log_file name.now (L.asked logs.old)
        (L.asked logs.new) (L.named logs.new) L.blank (L.kept logs.new))) }
    ensures told { O.failures output.new ≡ resume_failures (O.failures output.old) result }
    ensures read { I.failures input.new ≡ resume_reads (I.failures input.old) result }
    ensures opened { (n : ℕ) → counted resume_unread n result ≡ n }
    ensures log { L.failures logs.new ≡ counted resume_unlogged (L.failures logs.old) result }
{
    match LineBuffers::new(alloc, LONGEST_LINE) {
        Ok(buffers) => {
            let mut lines = Lines::new(buffers, input);
            let went = go_on_lines(logs, name, run, &mut lines, output);
            let _input = lines.into_source();
            went
        }
        Err(_) => Err(ResumeStop::Lines),
    }
}
