//! A network of bounds alone: its head, the lags of its events, and the commands on it.

ghost use Rattle.std.specs.Prelude.{◌≡◌, ◌≢◌, ℕ, ◌≤◌, [], IfOk, IfErr, OnOk, OnErr};
ghost use Rattle.tp_script.specs.Machine.{IsFresh};
ghost use Rattle.tp_cli_files.specs.FaultLines.{TellsFault};
ghost use Rattle.tp_cli_bare.specs.Bare.{AnswersAll, AnswersLines, AnswersPart, BareStops, BeginsLines, IsRefused, StopsBare, bare_failures, bare_read_failures, bare_result};

use crate::serve_lines::bare_line;
use std::alloc::Global;
use tp_bounds::Limits;
use tp_cli_files::{OUT_OF_ORDER, REFUSED, complain};
use tp_device::{Sink, Source};
use tp_repair::RepairNet;
use tp_script::{
    Executive, LONGEST_LINE, LineBuffers, Lines, ServeFault, Served, read_head, read_lags, serve,
};

/// Why the commands on a network were not answered to their end.
#[derive(Clone, Copy)]
pub enum BareFault {
    /// There is no memory for the network.
    Network,
    /// They could not be read or answered.
    Serving(ServeFault),
}

impl From<ServeFault> for BareFault {
    ghost use Rattle.std.specs.Prelude.{◌≡◌};
    ghost use Rattle.tp_cli_bare.specs.declared.bare.BareFault.TheVariants.{Serving};

    ghost from_gives = { λ fault e. e ≡ Serving fault };

    fn from(fault: ServeFault) -> BareFault {
        BareFault::Serving(fault)
    }
}

/// What came of the commands on a network that there was memory for.
fn of_network(served: Result<Served, ServeFault>) -> Result<Served, BareFault>
    ensures { result ≡ bare_result served }
{
    match served {
        Ok(served) => Ok(served),
        Err(fault) => Err(BareFault::Serving(fault)),
    }
}

/// Reads the lags of a new network, and makes an executive over it under the greatest limits. The
/// executive is new. It takes memory for the network alone.
pub fn begin<I: Source>(
    alloc: Global,
    lines: &mut Lines<'_, I>,
    events: u16,
    horizon: u32,
) -> Result<Executive<RepairNet>, BareFault>
    requires longest { lines.old.longest ≡ 256 }
    requires events { events ≤ 1024 }
    requires horizon { horizon ≤ 1000000000 }
    ensures begins { BeginsLines (events, horizon) lines.old lines.new result }
    ensures fresh { IfOk result (λ m. IsFresh m.setting) }
    ensures longest { lines.new.longest ≡ lines.old.longest }
    ensures most { lines.new.most ≡ lines.old.most }
    ensures source { lines.new.source ≡ lines.old.source }
    ensures told { (n : ℕ) → bare_failures n result ≡ n }
    ensures read { lines.new.failures ≡ bare_read_failures lines.old.failures result }
{
    match RepairNet::new(alloc, events, horizon) {
        Ok(net) => {
            let mut net = net;
            match read_lags(lines, &mut net) {
                Ok(()) => Ok(Executive::bare(alloc, Limits::greatest(horizon), net)),
                Err(fault) => Err(BareFault::Serving(fault)),
            }
        }
        Err(_) => Err(BareFault::Network),
    }
}

/// Answers the commands of the lines behind the lags, on a new network.
fn answer<I: Source, O: Sink>(
    alloc: Global,
    lines: &mut Lines<'_, I>,
    events: u16,
    horizon: u32,
    output: &mut O,
) -> Result<Served, BareFault>
    requires longest { lines.old.longest ≡ 256 }
    requires events { events ≤ 1024 }
    requires horizon { horizon ≤ 1000000000 }
    ensures answers { AnswersLines (events, horizon) lines.old lines.new (O.held output.old)
        (O.held output.new) result }
    ensures most { lines.new.most ≡ lines.old.most }
    ensures source { lines.new.source ≡ lines.old.source }
    ensures told { O.failures output.new ≡ bare_failures (O.failures output.old) result }
    ensures read { lines.new.failures ≡ bare_read_failures lines.old.failures result }
{
    match begin(alloc, lines, events, horizon) {
        Ok(executive) => {
            let mut executive = executive;
            of_network(serve(&mut executive, lines, output))
        }
        Err(fault) => Err(fault),
    }
}

/// Reads the head of a network and the lags of its events, and answers the commands that follow.
fn answer_all<I: Source, O: Sink>(
    alloc: Global,
    lines: &mut Lines<'_, I>,
    output: &mut O,
) -> Result<Served, BareFault>
    requires longest { lines.old.longest ≡ 256 }
    requires none { lines.old.taken ≡ 0 }
    requires most { lines.old.most ≡ 4_294_967_296 }
    ensures all { OnOk result
        (AnswersAll lines.old.rest (O.held output.old) (O.held output.new)) }
    ensures part { OnErr result
        (AnswersPart lines.old.rest (O.held output.old) (O.held output.new)) }
    ensures cause { IfErr result
        (BareStops lines.old.rest (O.held output.old) (O.held output.new)) }
    ensures source { lines.new.source ≡ lines.old.source }
    ensures told { O.failures output.new ≡ bare_failures (O.failures output.old) result }
    ensures read { lines.new.failures ≡ bare_read_failures lines.old.failures result }
{
    let (events, horizon) = read_head(lines)?;
    answer(alloc, lines, events, horizon, output)
}

/// The same of the input.
fn bare<I: Source, O: Sink>(
    alloc: Global,
    input: &mut I,
    output: &mut O,
) -> Result<Served, BareFault>
    ensures all { OnOk result
        (AnswersAll (I.left input.old) (O.held output.old) (O.held output.new)) }
    ensures part { OnErr result
        (AnswersPart (I.left input.old) (O.held output.old) (O.held output.new)) }
    ensures cause { IfErr result
        (BareStops (I.left input.old) (O.held output.old) (O.held output.new)) }
    ensures told { O.failures output.new ≡ bare_failures (O.failures output.old) result }
    ensures read { I.failures input.new ≡ bare_read_failures (I.failures input.old) result }
{
    let buffers = LineBuffers::new(alloc, LONGEST_LINE)?;
    let mut lines = Lines::new(buffers, input);
    let served = answer_all(alloc, &mut lines, output);
    let _input = lines.into_source();
    served
}

/// Answers the commands of the input. Answers the exit status, and for another than 0 writes one
/// fault line.
pub fn run_bare<I: Source, O: Sink, F: Sink>(
    alloc: Global,
    input: &mut I,
    output: &mut O,
    faults: &mut F,
) -> u8
    ensures all { result ≡ 0
        → AnswersAll (I.left input.old) (O.held output.old) (O.held output.new) }
    ensures part { result ≢ 0
        → AnswersPart (I.left input.old) (O.held output.old) (O.held output.new) }
    ensures refused { result ≡ REFUSED → IsRefused (I.left input.old) }

    // No status says no, a read or a write that failed is always told, and a fault line goes with
    // each fault and with nothing else.
    ensures no { result ≢ 1 }
    ensures heard { result ≢ OUT_OF_ORDER → I.failures input.new ≡ I.failures input.old }
    ensures told { result ≢ OUT_OF_ORDER → O.failures output.new ≡ O.failures output.old }
    ensures silent { result ≡ 0 → faults.new ≡ faults.old }
    ensures line { result ≢ 0 → TellsFault [] (F.failures faults.old) (F.held faults.old)
        (F.failures faults.new) (F.held faults.new) }
    ensures ends { result ≢ 0 → StopsBare result (I.left input.old) (I.failures input.old)
        (I.failures input.new) (O.held output.old) (O.held output.new) (O.failures output.old)
        (O.failures output.new) (F.failures faults.old) (F.held faults.old)
        (F.failures faults.new) (F.held faults.new) }
{
    match bare(alloc, input, output) {
        Ok(_) => 0,
        Err(fault) => complain(faults, bare_line(fault)),
    }
}
