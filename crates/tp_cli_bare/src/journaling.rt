//! Commands on a network of bounds alone, with their journal.

ghost use Rattle.std.specs.Prelude.{◌≡◌, ℕ, ◌≤◌, IfErr, OnOk};
ghost use Rattle.tp_cli_bare.specs.Logged.{LogsAll, LogsFrom, StopsLogged, input_failures, logged_result, output_failures};
ghost use Rattle.tp_cli_bare.specs.JournalLines.{stop_unlogged};
ghost use Rattle.tp_cli_files.specs.Causes.{counted};

use crate::journal_lines::JournalStop;
use crate::{BareFault, begin};
use std::alloc::Global;
use tp_device::{Sink, Source};
use tp_journal_pairs::{JournalFault, journal};
use tp_script::{LONGEST_LINE, LineBuffers, Lines, ServeFault, Served, read_head};

impl From<ServeFault> for JournalStop {
    ghost use Rattle.std.specs.Prelude.{◌≡◌};
    ghost use Rattle.tp_cli_bare.specs.declared.bare.BareFault.TheVariants.{Serving};
    ghost use Rattle.tp_cli_bare.specs.declared.journal_lines.JournalStop.TheVariants.{Beginning};

    ghost from_gives = { λ fault e. e ≡ Beginning (Serving fault) };

    fn from(fault: ServeFault) -> JournalStop {
        JournalStop::Beginning(BareFault::Serving(fault))
    }
}

/// What came of the commands behind the lags.
fn of_journal(served: Result<Served, JournalFault>) -> Result<Served, JournalStop>
    ensures { result ≡ logged_result served }
{
    match served {
        Ok(served) => Ok(served),
        Err(fault) => Err(JournalStop::Journaling(fault)),
    }
}

/// Answers the commands of the lines behind the lags, on a new network, and writes their journal to
/// the log.
fn answer<I: Source, O: Sink, L: Sink>(
    alloc: Global,
    lines: &mut Lines<'_, I>,
    events: u16,
    horizon: u32,
    output: &mut O,
    log: &mut L,
) -> Result<Served, JournalStop>
    requires longest { lines.old.longest ≡ 256 }
    requires events { events ≤ 1024 }
    requires horizon { horizon ≤ 1000000000 }
    ensures logs { LogsFrom (events, horizon) lines.old lines.new (O.held output.old)
        (O.held output.new) (L.held log.old) (L.held log.new) result }
    ensures most { lines.new.most ≡ lines.old.most }
    ensures source { lines.new.source ≡ lines.old.source }
    ensures told { O.failures output.new ≡ output_failures (O.failures output.old) result }
    ensures log { L.failures log.new ≡ counted stop_unlogged (L.failures log.old) result }
    ensures read { lines.new.failures ≡ input_failures lines.old.failures result }
{
    match begin(alloc, lines, events, horizon) {
        Ok(executive) => {
            let mut executive = executive;
            of_journal(journal(&mut executive, lines, output, log))
        }
        Err(fault) => Err(JournalStop::Beginning(fault)),
    }
}

/// Reads the head of a network and the lags of its events, answers the commands that follow, and
/// writes their journal to the log.
fn log_all<I: Source, O: Sink, L: Sink>(
    alloc: Global,
    lines: &mut Lines<'_, I>,
    output: &mut O,
    log: &mut L,
) -> Result<Served, JournalStop>
    requires longest { lines.old.longest ≡ 256 }
    requires none { lines.old.taken ≡ 0 }
    requires most { lines.old.most ≡ 4_294_967_296 }
    ensures all { OnOk result (LogsAll lines.old.rest (O.held output.old) (O.held output.new)
        (L.held log.old) (L.held log.new)) }
    ensures cause { IfErr result (StopsLogged lines.old.rest (O.held output.old)
        (O.held output.new) (L.held log.old) (L.held log.new)) }
    ensures source { lines.new.source ≡ lines.old.source }
    ensures told { O.failures output.new ≡ output_failures (O.failures output.old) result }
    ensures log { L.failures log.new ≡ counted stop_unlogged (L.failures log.old) result }
    ensures read { lines.new.failures ≡ input_failures lines.old.failures result }
{
    let (events, horizon) = read_head(lines)?;
    answer(alloc, lines, events, horizon, output, log)
}

/// The same of the input.
pub(crate) fn log_bare<I: Source, O: Sink, L: Sink>(
    alloc: Global,
    input: &mut I,
    output: &mut O,
    log: &mut L,
) -> Result<Served, JournalStop>
    ensures all { OnOk result (LogsAll (I.left input.old) (O.held output.old) (O.held output.new)
        (L.held log.old) (L.held log.new)) }
    ensures cause { IfErr result (StopsLogged (I.left input.old) (O.held output.old)
        (O.held output.new) (L.held log.old) (L.held log.new)) }
    ensures told { O.failures output.new ≡ output_failures (O.failures output.old) result }
    ensures log { L.failures log.new ≡ counted stop_unlogged (L.failures log.old) result }
    ensures read { I.failures input.new ≡ input_failures (I.failures input.old) result }
{
    let buffers = LineBuffers::new(alloc, LONGEST_LINE)?;
    let mut lines = Lines::new(buffers, input);
    let served = log_all(alloc, &mut lines, output, log);
    let _input = lines.into_source();
    served
}
