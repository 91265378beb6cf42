//! The answers to all commands of a reader on the network of a plan.

ghost use Rattle.std.specs.Prelude.{◌≡◌, ℕ, ◌≤◌, List, length, IfOk, IfErr};
ghost use Rattle.tp_bounds.specs.RunLimits.{greatest_limits};
ghost use Rattle.tp_task.specs.declared.task.Task.{Task};
ghost use Rattle.tp_happen.specs.tp_plan_text.declared.plans.Step.{Step};
ghost use Rattle.tp_deorder.specs.Answers.{IsPlanNetOf};
ghost use Rattle.tp_exec.specs.FromPlan.{CameFrom};
ghost use Rattle.tp_cli_bare.specs.Bare.{bare_failures, bare_read_failures};
ghost use Rattle.tp_cli_run.specs.Starts.{AnswersRun};
ghost use Rattle.tp_cli_run.specs.Answered.{AnswersWhole, StopsAnswers};

use crate::starting::start;
use std::alloc::Global;
use tp_bounds::PlanNet;
use tp_cli_bare::BareFault;
use tp_device::{Sink, Source};
use tp_exec_machine::Executive;
use tp_repair::RepairNet;
use tp_script::{LONGEST_LINE, LineBuffers, Lines, serve};

/// Answers the commands of the lines behind the lags, and hands the executive on.
fn answer_lines<I: Source, O: Sink>(
    alloc: Global,
    lines: &mut Lines<'_, I>,
    network: &PlanNet,
    output: &mut O,
) -> Result<Executive<RepairNet>, BareFault>
    requires longest { lines.old.longest ≡ 256 }
    requires bounds { length network.now.bounds.items ≤ 65535 }
    ensures answers { AnswersRun network.now lines.old lines.new (O.held output.old)
        (O.held output.new) result }
    ensures came { IfOk result (λ e. (t : Task) (steps : List Step) → IsPlanNetOf t steps
        (greatest_limits network.now.horizon) network.now → CameFrom t steps e) }
    ensures most { lines.new.most ≡ lines.old.most }
    ensures source { lines.new.source ≡ lines.old.source }
    ensures told { O.failures output.new ≡ bare_failures (O.failures output.old) result }
    ensures read { lines.new.failures ≡ bare_read_failures lines.old.failures result }
{
    match start(alloc, lines, network) {
        Ok(executive) => {
            let mut executive = executive;
            match serve(&mut executive, lines, output) {
                Ok(_) => Ok(executive),
                Err(fault) => Err(BareFault::Serving(fault)),
            }
        }
        Err(fault) => Err(fault),
    }
}

/// Reads the lags at the beginning of the input, answers the commands behind them on the network of
/// a plan, and hands the executive on.
pub(crate) fn answer<I: Source, O: Sink>(
    alloc: Global,
    input: &mut I,
    network: &PlanNet,
    output: &mut O,
) -> Result<Executive<RepairNet>, BareFault>
    requires { length network.now.bounds.items ≤ 65535 }
    ensures whole { IfOk result
        (AnswersWhole network.now (I.left input.old) (O.held output.old) (O.held output.new)) }
    ensures cause { IfErr result
        (StopsAnswers network.now (I.left input.old) (O.held output.old) (O.held output.new)) }
    ensures came { IfOk result (λ e. (t : Task) (steps : List Step) → IsPlanNetOf t steps
        (greatest_limits network.now.horizon) network.now → CameFrom t steps e) }
    ensures told { O.failures output.new ≡ bare_failures (O.failures output.old) result }
    ensures read { I.failures input.new ≡ bare_read_failures (I.failures input.old) result }
{
    let buffers = LineBuffers::new(alloc, LONGEST_LINE)?;
    let mut lines = Lines::new(buffers, input);
    let answered = answer_lines(alloc, &mut lines, network, output);
    let _input = lines.into_source();
    answered
}
