//! The plan of a run, behind the answers.

ghost use Rattle.std.specs.Prelude.{◌≡◌, ◌≤◌, ℕ, IfOk, IfErr};
ghost use Rattle.tp_device.specs.Bytes.{Writes, failures_after};
ghost use Rattle.tp_bounds.specs.RunLimits.{greatest_limits};
ghost use Rattle.tp_deorder.specs.Answers.{IsPlanNetOf};
ghost use Rattle.tp_exec.specs.FromPlan.{CameFrom};
ghost use Rattle.tp_cli_run.specs.Ends.{StopsTelling, TellsRun};
ghost use Rattle.tp_cli_files.specs.Causes.{counted};
ghost use Rattle.tp_cli_run.specs.RunLines.{run_failures, run_unread};
ghost use Rattle.tp_cli_run.specs.Runs.{run_lines};

use crate::run_lines::RunStop;
use tp_cli_bare::BareFault;
use tp_device::{Failed, Sink, push_all};
use tp_exec::run_plan;
use tp_exec_machine::Executive;
use tp_happen::{Plan, print_plan};
use tp_repair::RepairNet;
use tp_task::Task;
use tp_validate::ValidPlan;

/// Writes the lines of the plan of a run.
fn write_lines<O: Sink>(run: &Plan, task: &Task, output: &mut O) -> Result<(), Failed>
    ensures bytes { Writes (O.held output.old) (O.held output.new)
        (run_lines task.now run.now) result }
    ensures cause { O.failures output.new ≡ failures_after (O.failures output.old) result }
{
    push_all(output, b"plan\n")?;
    print_plan(run, task, output)
}

/// Writes the plan of a run, if there is one, behind the line `plan`. Answers whether there is. It
/// costs one look at each event and each step.
///
/// # Errors
/// `Answering(Network)` where memory is wanting; `Write` where the writer fails.
pub fn tell_run<O: Sink>(
    executive: &Executive<RepairNet>,
    plan: &ValidPlan<'_>,
    output: &mut O,
) -> Result<bool, RunStop>
    requires { CameFrom plan.now.task plan.now.steps executive.now }
    ensures said { IfOk result (TellsRun plan.now.task plan.now.steps executive.now
        (O.held output.old) (O.held output.new)) }
    ensures cause { IfErr result (StopsTelling plan.now.task plan.now.steps executive.now
        (O.held output.old) (O.held output.new)) }
    ensures failures { O.failures output.new ≡ run_failures (O.failures output.old) result }
    ensures opened { (n : ℕ) → counted run_unread n result ≡ n }
{
    match run_plan(executive, plan) {
        Ok(None) => Ok(false),
        Ok(Some(run)) => match write_lines(&run, plan.task(), output) {
            Ok(()) => Ok(true),
            Err(_) => Err(RunStop::Write),
        },
        Err(_) => Err(RunStop::Answering(BareFault::Network)),
    }
}
