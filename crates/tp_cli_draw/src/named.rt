//! The plan that words name, with the names of its domain and its problem.

ghost use Rattle.std.specs.Prelude.{◌≡◌, ◌≤◌, ℕ, List, IfErr, IfOk};
ghost use Rattle.tp_cli_files.specs.Causes.{counted};
ghost use Rattle.tp_cli_inputs.specs.Causes.{Explains};
ghost use Rattle.tp_cli_inputs.specs.JudgeLines.{judge_unread};
ghost use Rattle.tp_cli_inputs.specs.Named.{IsIn, IsNamedPlan};
ghost use Rattle.tp_syntax.specs.DomainViews.{domain_view};
ghost use Rattle.tp_syntax.specs.Domains.{SpellsDomain};
ghost use Rattle.tp_validate.specs.OfTask.{IsOfTask};

use std::alloc::{AllocError, Global};
use std::mem::forget;
use tp_cli_files::Files;
use tp_cli_inputs::{JudgeFault, NamedPlan, PlanWords, domain_in, plan_with, problem_in};
use tp_syntax::Domain;

/// The names of a domain and of a problem.
#[derive(Drop)]
pub(crate) struct Names {
    pub(crate) domain: String,
    pub(crate) problem: String,
}

/// Copies of two names.
fn copied(domain: &String, problem: &String) -> Result<Names, AllocError> {
    let domain = domain.clone()?;
    let problem = problem.clone()?;
    Ok(Names { domain, problem })
}

/// Copies of two names, where there is memory for them.
fn names_of(domain: &String, problem: &String) -> Option<Names> {
    copied(domain, problem).ok()
}

/// The plan that the words name, of a domain, and the names, where there is memory for them.
fn plan_of_domain<N: Files>(
    alloc: Global,
    files: &mut N,
    words: PlanWords<'_>,
    domain: &Domain,
    names: &mut Option<Names>,
) -> Result<NamedPlan, JudgeFault>
    requires { words.horizon ≤ 1000000000 }
    ensures named { IsIn (N.held files.old words.entry.domain.now) (λ text. SpellsDomain text
        (domain_view domain.now)) → IfOk result (λ n.
        IsNamedPlan (N.held files.old) words.entry n.task n.plan) }
    ensures of_task { IfOk result (λ n. IsOfTask n.task n.plan) }
    ensures cause { IsIn (N.held files.old words.entry.domain.now) (λ text. SpellsDomain text
        (domain_view domain.now)) → IfErr result (Explains (N.held files.old) words.entry) }
    ensures same { (other : List ℕ) → N.held files.new other ≡ N.held files.old other }
    ensures opened { N.failures files.new ≡ counted judge_unread (N.failures files.old) result }
{
    let problem = problem_in(alloc, files, words, domain)?;
    *names = names_of(&domain.name, &problem.name);
    let plan = plan_with(alloc, files, words, domain, &problem);
    // To free it piece by piece takes long, and the end of the program does it at once.
    forget(problem);
    plan
}

/// The plan that the words name, and the names of its domain and its problem, where there is memory
/// for them. A file is opened only when what stands before it is done, and read once.
///
/// # Errors
/// The first fault of the domain, the problem, the task and the plan, and of their files.
pub(crate) fn plan_and_names<N: Files>(
    alloc: Global,
    files: &mut N,
    words: PlanWords<'_>,
    names: &mut Option<Names>,
) -> Result<NamedPlan, JudgeFault>
    requires { words.horizon ≤ 1000000000 }
    ensures named { IfOk result (λ n.
        IsNamedPlan (N.held files.old) words.entry n.task n.plan) }
    ensures of_task { IfOk result (λ n. IsOfTask n.task n.plan) }
    ensures cause { IfErr result (Explains (N.held files.old) words.entry) }
    ensures same { (other : List ℕ) → N.held files.new other ≡ N.held files.old other }
    ensures opened { N.failures files.new ≡ counted judge_unread (N.failures files.old) result }
{
    let domain = domain_in(alloc, files, words)?;
    let plan = plan_of_domain(alloc, files, words, &domain, names);
    // As the problem in `plan_of_domain`.
    forget(domain);
    plan
}
