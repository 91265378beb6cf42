//! The answers to all commands of a reader on the network of a plan, with their journal.

ghost use Rattle.std.specs.Prelude.{◌≡◌, ◌≤◌, List, length, IfOk, IfErr};
ghost use Rattle.tp_bounds.specs.RunLimits.{greatest_limits};
ghost use Rattle.tp_task.specs.declared.task.Task.{Task};
ghost use Rattle.tp_happen.specs.tp_plan_text.declared.plans.Step.{Step};
ghost use Rattle.tp_deorder.specs.Answers.{IsPlanNetOf};
ghost use Rattle.tp_exec.specs.FromPlan.{CameFrom};
ghost use Rattle.tp_cli_files.specs.Causes.{counted};
ghost use Rattle.tp_cli_bare.specs.JournalLines.{stop_unlogged};
ghost use Rattle.tp_cli_bare.specs.Logged.{input_failures, output_failures};
ghost use Rattle.tp_cli_run.specs.Logged.{LogsRun, LogsWhole, StopsLogged};

use crate::start;
use std::alloc::Global;
use tp_bounds::PlanNet;
use tp_cli_bare::JournalStop;
use tp_device::{Sink, Source};
use tp_exec_machine::Executive;
use tp_journal_pairs::journal;
use tp_repair::RepairNet;
use tp_script::{LONGEST_LINE, LineBuffers, Lines};

/// Answers the commands of the lines behind the lags, writes their journal to the log, and hands
/// the executive on.
fn log_lines<I: Source, O: Sink, L: Sink>(
    alloc: Global,
    lines: &mut Lines<'_, I>,
    network: &PlanNet,
    output: &mut O,
    log: &mut L,
) -> Result<Executive<RepairNet>, JournalStop>
    requires longest { lines.old.longest ≡ 256 }
    requires bounds { length network.now.bounds.items ≤ 65535 }
    ensures logs { LogsRun network.now lines.old lines.new (O.held output.old)
        (O.held output.new) (L.held log.old) (L.held log.new) result }
    ensures came { IfOk result (λ e. (t : Task) (steps : List Step) → IsPlanNetOf t steps
        (greatest_limits network.now.horizon) network.now → CameFrom t steps e) }
    ensures most { lines.new.most ≡ lines.old.most }
    ensures source { lines.new.source ≡ lines.old.source }
    ensures told { O.failures output.new ≡ output_failures (O.failures output.old) result }
    ensures read { lines.new.failures ≡ input_failures lines.old.failures result }
    ensures log { L.failures log.new ≡ counted stop_unlogged (L.failures log.old) result }
{
    match start(alloc, lines, network) {
        Ok(executive) => {
            let mut executive = executive;
            match journal(&mut executive, lines, output, log) {
                Ok(_) => Ok(executive),
                Err(fault) => Err(JournalStop::Journaling(fault)),
            }
        }
        Err(fault) => Err(JournalStop::Beginning(fault)),
    }
}

/// Reads the lags at the beginning of the input, answers the commands behind them on the network of
/// a plan, writes their journal to the log, and hands the executive on.
pub(crate) fn log_run<I: Source, O: Sink, L: Sink>(
    alloc: Global,
    input: &mut I,
    network: &PlanNet,
    output: &mut O,
    log: &mut L,
) -> Result<Executive<RepairNet>, JournalStop>
    requires { length network.now.bounds.items ≤ 65535 }
    ensures whole { IfOk result (LogsWhole network.now (I.left input.old) (O.held output.old)
        (O.held output.new) (L.held log.old) (L.held log.new)) }
    ensures cause { IfErr result (StopsLogged network.now (I.left input.old) (O.held output.old)
        (O.held output.new) (L.held log.old) (L.held log.new)) }
    ensures came { IfOk result (λ e. (t : Task) (steps : List Step) → IsPlanNetOf t steps
        (greatest_limits network.now.horizon) network.now → CameFrom t steps e) }
    ensures told { O.failures output.new ≡ output_failures (O.failures output.old) result }
    ensures read { I.failures input.new ≡ input_failures (I.failures input.old) result }
    ensures log { L.failures log.new ≡ counted stop_unlogged (L.failures log.old) result }
{
    let buffers = LineBuffers::new(alloc, LONGEST_LINE)?;
    let mut lines = Lines::new(buffers, input);
    let logged = log_lines(alloc, &mut lines, network, output, log);
    let _input = lines.into_source();
    logged
}
