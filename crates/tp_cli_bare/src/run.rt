//! The commands of the input, with the journal file of a name.

ghost use Rattle.std.specs.Prelude.{◌≡◌, ◌≢◌, ◌≤◌, suc, [], option_map, OnOk, IfErr, IfSome};
ghost use Rattle.tp_cli_files.specs.Causes.{counted};
ghost use Rattle.tp_cli_files.specs.FaultLines.{TellsFault};
ghost use Rattle.tp_cli_bare.specs.Bare.{IsRefused};
ghost use Rattle.tp_cli_bare.specs.JournalLines.{stop_unlogged};
ghost use Rattle.tp_cli_bare.specs.Logged.{EndsJournaled, LogsAll, LogsPart, NamesFile, StopsLogged, input_failures, output_failures};

use crate::journal_lines::{JournalStop, journal_stop_line};
use crate::journaling::log_bare;
use std::alloc::Global;
use tp_cli_files::{Logs, OUT_OF_ORDER, REFUSED, complain};
use tp_device::{Sink, Source};
use tp_script::Served;

/// Answers the commands of the input, with their journal in the file of a name.
fn journaled<N: Logs, I: Source, O: Sink>(
    alloc: Global,
    files: &mut N,
    name: &str,
    input: &mut I,
    output: &mut O,
) -> Result<Served, JournalStop>
    ensures all { OnOk result (LogsAll (I.left input.old) (O.held output.old)
        (O.held output.new) N.blank (N.kept files.new)) }
    ensures cause { IfErr result (StopsLogged (I.left input.old) (O.held output.old)
        (O.held output.new) N.blank (N.kept files.new)) }
    ensures asked { N.asked files.new ≡ option_map suc (N.asked files.old) }
    ensures named { OnOk result (IfSome (N.named files.new) (λ n. n ≡ name.now)) }
    ensures names { IfErr result (NamesFile name.now (N.named files.new)) }
    ensures told { O.failures output.new ≡ output_failures (O.failures output.old) result }
    ensures read { I.failures input.new ≡ input_failures (I.failures input.old) result }
    ensures log { N.failures files.new ≡ counted stop_unlogged (N.failures files.old) result }
{
    match files.make(name) {
        Ok(log) => {
            let mut log = log;
            let served = log_bare(alloc, input, output, &mut log);
            files.keep(log);
            served
        }
        Err(_) => Err(JournalStop::Making),
    }
}

/// Answers the commands of the input, and writes their journal to the file of a name: the head, and
/// then for each line that has an answer its pair, which is in the file before the answer goes out.
/// Answers the exit status, and for another than 0 writes one fault line. It costs what the
/// commands cost, and writes each answer twice. A pair is four writes of the file; a report and a
/// conflict take one more for each moment or edge and one for the line's end, and the pair of a
/// line that is no command is one write.
pub fn run_bare_journal<N: Logs, I: Source, O: Sink, F: Sink>(
    alloc: Global,
    files: &mut N,
    name: &str,
    input: &mut I,
    output: &mut O,
    faults: &mut F,
) -> u8
    ensures all { result ≡ 0 →
        LogsAll (I.left input.old) (O.held output.old) (O.held output.new) N.blank
        (N.kept files.new) }
    ensures part { result ≢ 0 →
        LogsPart (I.left input.old) (O.held output.old) (O.held output.new) N.blank
        (N.kept files.new) }
    ensures refused { result ≡ REFUSED → IsRefused (I.left input.old) }

    // Just one file is asked for. Where it is made, its name is the one that was asked for: so
    // `ends` says it of each fault.
    ensures asked { N.asked files.new ≡ option_map suc (N.asked files.old) }
    ensures named { result ≡ 0 → IfSome (N.named files.new) (λ n. n ≡ name.now) }

    // No status says no, a read of the input or a write that failed is always told, and a fault
    // line goes with each fault and with nothing else.
    ensures no { result ≢ 1 }
    ensures within { result ≤ 3 }
    ensures heard { result ≢ OUT_OF_ORDER → I.failures input.new ≡ I.failures input.old }
    ensures told { result ≢ OUT_OF_ORDER → O.failures output.new ≡ O.failures output.old }
    ensures silent { result ≡ 0 → faults.new ≡ faults.old }
    ensures line { result ≢ 0 → TellsFault [] (F.failures faults.old) (F.held faults.old)
        (F.failures faults.new) (F.held faults.new) }
    ensures ends { result ≢ 0 → EndsJournaled result (I.left input.old) (I.failures input.old)
        (I.failures input.new) (O.held output.old) (O.held output.new) N.blank (N.kept files.new)
        name.now (N.named files.new) (N.failures files.old) (N.failures files.new)
        (O.failures output.old) (O.failures output.new)
        (F.failures faults.old) (F.held faults.old) (F.failures faults.new) (F.held faults.new) }
{
    match journaled(alloc, files, name, input, output) {
        Ok(_) => 0,
        Err(stop) => complain(faults, journal_stop_line(stop)),
    }
}
