//! The domain and the problem in two files, and tasks of them: of the actions that the relaxed
//! reach keeps, and of those that joins of static conditions leave.

ghost use Rattle.std.specs.Prelude.{◌≡◌, ◌≤◌, ℕ, true, List, Option, IfOk, IfErr, IfSome};
ghost use Rattle.tp_bounds.specs.RunLimits.{greatest_limits};
ghost use Rattle.tp_syntax.specs.DomainViews.{domain_view, problem_view};
ghost use Rattle.tp_syntax.specs.Domains.{SpellsDomain};
ghost use Rattle.tp_ground.specs.Reached.{IsReachedTask};
ghost use Rattle.tp_ground_joins.specs.Joined.{IsJoinedTask};
ghost use Rattle.tp_ground_laws.specs.WholeTasks.{IsWholeTask};
ghost use Rattle.tp_cli_files.specs.Causes.{counted};
ghost use Rattle.tp_cli_inputs.specs.JudgeLines.{judge_unread};
ghost use Rattle.tp_cli_inputs.specs.Named.{AreNamed, IsIn};
ghost use Rattle.tp_cli_plan.specs.SearchTasks.{ExplainsTask};

use std::alloc::Global;
use tp_bounds::Limits;
use tp_cli_files::Files;
use tp_cli_inputs::{JudgeFault, PlanWords, domain_in, problem_in};
use tp_ground::ground_reached;
use tp_ground_joins::{JoinedTask, ground_joined};
use tp_ground_named::begin;
use tp_syntax::{Domain, Problem};
use tp_task::Task;

/// A domain, and a problem of it.
#[derive(Drop)]
pub struct Inputs {
    pub domain: Domain,
    pub problem: Problem,
}

/// A domain with the problem that the words name.
fn inputs_of<N: Files>(
    alloc: Global,
    files: &mut N,
    words: PlanWords<'_>,
    domain: Domain,
) -> Result<Inputs, JudgeFault>
    ensures named { IsIn (N.held files.old words.entry.domain.now)
        (λ text. SpellsDomain text (domain_view domain)) → IfOk result (λ i.
        AreNamed (N.held files.old) words.entry (domain_view i.domain) (problem_view i.problem)) }
    ensures cause { IsIn (N.held files.old words.entry.domain.now) (λ text. SpellsDomain text
        (domain_view domain)) → IfErr result (ExplainsTask (N.held files.old) words.entry) }
    ensures opened { N.failures files.new ≡ counted judge_unread (N.failures files.old) result }
{
    let problem = problem_in(alloc, files, words, &domain)?;
    Ok(Inputs { domain, problem })
}

/// The domain and the problem that the words name. A file is opened only when what stands before it
/// is done.
pub fn inputs_in<N: Files>(
    alloc: Global,
    files: &mut N,
    words: PlanWords<'_>,
) -> Result<Inputs, JudgeFault>
    ensures named { IfOk result (λ i.
        AreNamed (N.held files.old) words.entry (domain_view i.domain) (problem_view i.problem)) }
    ensures cause { IfErr result (ExplainsTask (N.held files.old) words.entry) }
    ensures opened { N.failures files.new ≡ counted judge_unread (N.failures files.old) result }
{
    let domain = domain_in(alloc, files, words)?;
    inputs_of(alloc, files, words, domain)
}

/// The task of the actions that the relaxed reach keeps.
pub fn reached_task(
    alloc: Global,
    words: PlanWords<'_>,
    inputs: &Inputs,
) -> Result<Task, JudgeFault>
    requires { words.horizon ≤ 1000000000 }
    ensures task { IfOk result (IsReachedTask (greatest_limits words.entry.horizon)
        words.entry.scale (domain_view inputs.now.domain) (problem_view inputs.now.problem)) }
    ensures cause { (held : List ℕ → Option (List ℕ)) → AreNamed held words.entry
        (domain_view inputs.now.domain) (problem_view inputs.now.problem)
        → IfErr result (ExplainsTask held words.entry) }
    ensures opened { (n : ℕ) → counted judge_unread n result ≡ n }
{
    let limits = Limits::greatest(words.horizon);
    match ground_reached(alloc, &inputs.domain, &inputs.problem, &limits, words.scale) {
        Ok(task) => Ok(task),
        Err(fault) => Err(JudgeFault::Task(fault)),
    }
}

/// The task of the actions that joins leave, None where it has none within the limits.
pub fn joined_task(alloc: Global, words: PlanWords<'_>, inputs: &Inputs) -> Option<JoinedTask>
    requires { words.horizon ≤ 1000000000 }
    ensures some { IfSome result (λ j. IsJoinedTask (greatest_limits words.entry.horizon)
        words.entry.scale (domain_view inputs.now.domain) (problem_view inputs.now.problem)
        j.task) }
    ensures whole { IfSome result (λ j. j.is_whole ≡ true → IsWholeTask (greatest_limits
        words.entry.horizon) words.entry.scale (domain_view inputs.now.domain)
        (problem_view inputs.now.problem) j.task) }
{
    let limits = Limits::greatest(words.horizon);
    let domain = &inputs.domain;
    let problem = &inputs.problem;
    match begin(alloc, domain, problem, &limits) {
        Ok(begun) => {
            match ground_joined(alloc, domain, problem, begun, &limits, words.scale) {
                Ok(joined) => Some(joined),
                Err(_) => None,
            }
        }
        Err(_) => None,
    }
}
