//! The judging of the plan in a file.

ghost use Rattle.std.specs.Prelude.{◌≡◌, ◌≤◌, ℕ, IfOk, IfErr};
ghost use Rattle.tp_validate.specs.OfTask.{IsOfTask};
ghost use Rattle.tp_cli_files.specs.Causes.{counted};
ghost use Rattle.tp_cli_inputs.specs.Causes.{Explains, IsUnjudged};
ghost use Rattle.tp_cli_inputs.specs.JudgeLines.{judge_unread};
ghost use Rattle.tp_cli.specs.Files.{IsJudged};
ghost use Rattle.tp_cli.specs.Judgements.{IsJudgement};

use crate::judgements::Judgement;
use std::alloc::Global;
use std::mem::forget;
use tp_cli_files::Files;
use tp_cli_inputs::{JudgeFault, NamedPlan, PlanWords, plan_in, verdict_of};
use tp_happen::Plan;
use tp_task::Task;
use tp_validate::Verdict;

/// Judges a plan of a task.
fn judge(alloc: Global, task: &Task, plan: Plan) -> Result<Judgement, JudgeFault>
    requires { IsOfTask task.now plan }
    ensures judged { IfOk result (IsJudgement task.now plan) }
    ensures fault { IfErr result (IsUnjudged task.now plan) }
    ensures opened { (n : ℕ) → counted judge_unread n result ≡ n }
{
    match verdict_of(alloc, task, plan) {
        Ok(Verdict::Valid(_)) => Ok(Judgement::Valid),
        Ok(Verdict::Invalid { plan: _, tick, why }) => Ok(Judgement::Invalid { tick, why }),
        Err(fault) => Err(fault),
    }
}

/// Judges the plan that the words name. A file is opened only when what stands before it is done,
/// and read once. The cost is that of reading the three texts, of writing out the ground actions
/// that the plan names, and of validating it. The task is not freed: a call is made once in a run
/// of the program, whose end frees all at once.
///
/// # Errors
/// A fault of a file, of its text, of the task, of memory or of the run of the plan.
pub fn judge_in<N: Files>(
    alloc: Global,
    files: &mut N,
    words: PlanWords<'_>,
) -> Result<Judgement, JudgeFault>
    requires { words.horizon ≤ 1000000000 }
    ensures judged { IfOk result (IsJudged (N.held files.old) words.entry) }
    ensures cause { IfErr result (Explains (N.held files.old) words.entry) }
    ensures opened { N.failures files.new ≡ counted judge_unread (N.failures files.old) result }
{
    match plan_in(alloc, files, words) {
        Ok(named) => {
            let NamedPlan { task, plan } = named;
            let judged = judge(alloc, &task, plan);
            // To free it piece by piece takes long, and the end of the program does it at once.
            forget(task);
            judged
        }
        Err(fault) => Err(fault),
    }
}
