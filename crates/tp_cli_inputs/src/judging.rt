//! The task and the verdict that files hold.

ghost use Rattle.std.specs.Prelude.{◌≡◌, ◌≤◌, ℕ, List, IfOk, IfErr};
ghost use Rattle.tp_syntax.specs.DomainViews.{domain_view, problem_view};
ghost use Rattle.tp_syntax.specs.Domains.{SpellsDomain};
ghost use Rattle.tp_syntax.specs.Problems.{SpellsProblem};
ghost use Rattle.tp_happen.specs.tp_plan_text.PlanTexts.{SpellsPlan};
ghost use Rattle.tp_happen.specs.tp_plan_text.TaskWords.{readable};
ghost use Rattle.tp_validate.specs.Answers.{IsVerdict};
ghost use Rattle.tp_validate.specs.OfTask.{IsOfTask};
ghost use Rattle.tp_bounds.specs.RunLimits.{greatest_limits};
ghost use Rattle.tp_ground_named.specs.Named.{chosen, IsBegun, HasNoTaskOf};
ghost use Rattle.tp_happen.specs.tp_plan_text.PlanNames.{plan_names};
ghost use Rattle.tp_cli_files.specs.Causes.{counted};
ghost use Rattle.tp_cli_inputs.specs.Causes.{Explains, IsRefusedBy, IsStopped, IsTextFault, IsUnjudged};
ghost use Rattle.tp_cli_inputs.specs.JudgeLines.{judge_unread};
ghost use Rattle.tp_cli_inputs.specs.Named.{AreNamed, IsIn, IsNamedPlan, IsTaskFor};

use crate::plan_words::PlanWords;
use std::alloc::Global;
use std::mem::forget;
use tp_bounds::Limits;
use tp_cli_files::{FileFault, Files, open_text};
use tp_ground_named::{Begun, begin, ground_named};
use tp_happen::{Plan, PlanFault, read_plan};
use tp_plan_text::names_in;
use tp_syntax::{Domain, Problem, SyntaxFault, read_domain, read_problem};
use tp_task::{GroundFault, Task};
use tp_validate::{ValidateFault, Verdict, validate};

/// Why the files of a plan gave no verdict.
#[derive(Clone, Copy, Debug, PartialEq, Eq)]
pub enum JudgeFault {
    /// The file of the domain gave no text.
    DomainFile(FileFault),
    /// The text is no domain.
    Domain(SyntaxFault),
    /// The file of the problem gave no text.
    ProblemFile(FileFault),
    /// The text is no problem of the domain.
    Problem(SyntaxFault),
    /// The problem has no task.
    Task(GroundFault),
    /// The file of the plan gave no text.
    PlanFile(FileFault),
    /// The text is no plan of the task.
    Plan(PlanFault),
    /// There is no memory for the verdict.
    Memory,
    /// A number passed 10^15 in the run of the plan.
    Range,
}

/// A plan, and the task of the ground actions that its text names.
#[derive(Drop)]
pub struct NamedPlan {
    pub task: Task,
    pub plan: Plan,
}

/// The domain in the file that the words name. The cost is that of reading the text.
///
/// # Errors
/// The first fault of the file and its text.
pub fn domain_in<N: Files>(
    alloc: Global,
    files: &mut N,
    words: PlanWords<'_>,
) -> Result<Domain, JudgeFault>
    ensures spelled { IfOk result (λ d. IsIn (N.held files.old words.entry.domain.now) (λ text.
        SpellsDomain text (domain_view d))) }
    ensures kind { IfErr result IsTextFault }
    ensures cause { IfErr result (Explains (N.held files.old) words.entry) }
    ensures same { (other : List ℕ) → N.held files.new other ≡ N.held files.old other }
    ensures opened { N.failures files.new ≡ counted judge_unread (N.failures files.old) result }
{
    match open_text(alloc, files, words.domain) {
        Ok(text) => match read_domain(alloc, text.as_str()) {
            Ok(domain) => Ok(domain),
            Err(fault) => Err(JudgeFault::Domain(fault)),
        },
        Err(fault) => Err(JudgeFault::DomainFile(fault)),
    }
}

/// The problem of a domain in the file that the words name. The cost is that of reading the text.
///
/// # Errors
/// The first fault of the file and its text.
pub fn problem_in<N: Files>(
    alloc: Global,
    files: &mut N,
    words: PlanWords<'_>,
    domain: &Domain,
) -> Result<Problem, JudgeFault>
    ensures spelled { IfOk result (λ p. IsIn (N.held files.old words.entry.problem.now) (λ text.
        SpellsProblem (domain_view domain.now) text (problem_view p))) }
    ensures kind { IfErr result IsTextFault }
    ensures cause { IsIn (N.held files.old words.entry.domain.now) (λ text. SpellsDomain text
        (domain_view domain.now)) → IfErr result (Explains (N.held files.old) words.entry) }
    ensures same { (other : List ℕ) → N.held files.new other ≡ N.held files.old other }
    ensures opened { N.failures files.new ≡ counted judge_unread (N.failures files.old) result }
{
    match open_text(alloc, files, words.problem) {
        Ok(text) => match read_problem(alloc, text.as_str(), domain) {
            Ok(problem) => Ok(problem),
            Err(fault) => Err(JudgeFault::Problem(fault)),
        },
        Err(fault) => Err(JudgeFault::ProblemFile(fault)),
    }
}

/// The plan of a task that a text spells, with the task.
fn plan_for(alloc: Global, task: Task, text: &str) -> Result<NamedPlan, JudgeFault>
    ensures plan { IfOk result
        (λ n. (n.task ≡ task) × SpellsPlan (readable n.task) text.now n.plan) }
    ensures of_task { IfOk result (λ n. IsOfTask n.task n.plan) }
    ensures cause { IfErr result (IsRefusedBy task text.now) }
    ensures opened { (n : ℕ) → counted judge_unread n result ≡ n }
{
    match read_plan(alloc, text, &task) {
        Ok(plan) => Ok(NamedPlan { task, plan }),
        Err(fault) => Err(JudgeFault::Plan(fault)),
    }
}

/// The task of the ground actions that a plan's text names.
fn task_for<'a>(
    alloc: Global,
    words: PlanWords<'_>,
    domain: &'a Domain,
    problem: &'a Problem,
    begun: Begun<'a>,
    text: &str,
) -> Result<Task, GroundFault>
    requires limit { words.horizon ≤ 1000000000 }
    requires begun { IsBegun (greatest_limits words.horizon) (domain_view domain.now)
        (problem_view problem.now) begun }
    ensures task { IfOk result (IsTaskFor words.entry (domain_view domain.now)
        (problem_view problem.now) text.now) }
    ensures cause { IfErr result (HasNoTaskOf (greatest_limits words.entry.horizon)
        (domain_view domain.now) (problem_view problem.now) (chosen (domain_view domain.now)
        (problem_view problem.now) (plan_names text.now))) }
{
    let limits = Limits::greatest(words.horizon);
    let lowered = text.to_ascii_lowercase(alloc)?;
    let names = names_in(alloc, lowered.as_str())?;
    let asked = names.as_slice();
    ground_named(alloc, domain, problem, begun, asked, &limits, words.scale)
}

/// The plan that a text spells, with the task of the ground actions that it names.
fn plan_of<'a>(
    alloc: Global,
    words: PlanWords<'_>,
    domain: &'a Domain,
    problem: &'a Problem,
    begun: Begun<'a>,
    text: &str,
) -> Result<NamedPlan, JudgeFault>
    requires limit { words.horizon ≤ 1000000000 }
    requires begun { IsBegun (greatest_limits words.horizon) (domain_view domain.now)
        (problem_view problem.now) begun }
    ensures plan { IfOk result (λ n. IsTaskFor words.entry (domain_view domain.now)
        (problem_view problem.now) text.now n.task
        × SpellsPlan (readable n.task) text.now n.plan) }
    ensures of_task { IfOk result (λ n. IsOfTask n.task n.plan) }
    ensures cause { IfErr result (IsStopped words.entry (domain_view domain.now)
        (problem_view problem.now) text.now) }
    ensures opened { (n : ℕ) → counted judge_unread n result ≡ n }
{
    match task_for(alloc, words, domain, problem, begun, text) {
        Ok(task) => plan_for(alloc, task, text),
        Err(fault) => Err(JudgeFault::Task(fault)),
    }
}

/// The plan that the words name, of a problem that is begun, with its task.
fn plan_from<'a, N: Files>(
    alloc: Global,
    files: &mut N,
    words: PlanWords<'_>,
    domain: &'a Domain,
    problem: &'a Problem,
    begun: Begun<'a>,
) -> Result<NamedPlan, JudgeFault>
    requires limit { words.horizon ≤ 1000000000 }
    requires begun { IsBegun (greatest_limits words.horizon) (domain_view domain.now)
        (problem_view problem.now) begun }
    ensures named { AreNamed (N.held files.old) words.entry (domain_view domain.now)
        (problem_view problem.now) → IfOk result (λ n.
        IsNamedPlan (N.held files.old) words.entry n.task n.plan) }
    ensures of_task { IfOk result (λ n. IsOfTask n.task n.plan) }
    ensures cause { AreNamed (N.held files.old) words.entry (domain_view domain.now)
        (problem_view problem.now) → IfErr result (Explains (N.held files.old) words.entry) }
    ensures same { (other : List ℕ) → N.held files.new other ≡ N.held files.old other }
    ensures opened { N.failures files.new ≡ counted judge_unread (N.failures files.old) result }
{
    match open_text(alloc, files, words.plan) {
        Ok(text) => plan_of(alloc, words, domain, problem, begun, text.as_str()),
        Err(fault) => Err(JudgeFault::PlanFile(fault)),
    }
}

/// The same of a problem.
///
/// # Errors
/// The first fault of the task and the plan, and of the plan's file.
pub fn plan_with<N: Files>(
    alloc: Global,
    files: &mut N,
    words: PlanWords<'_>,
    domain: &Domain,
    problem: &Problem,
) -> Result<NamedPlan, JudgeFault>
    requires { words.horizon ≤ 1000000000 }
    ensures named { AreNamed (N.held files.old) words.entry (domain_view domain.now)
        (problem_view problem.now) → IfOk result (λ n.
        IsNamedPlan (N.held files.old) words.entry n.task n.plan) }
    ensures of_task { IfOk result (λ n. IsOfTask n.task n.plan) }
    ensures cause { AreNamed (N.held files.old) words.entry (domain_view domain.now)
        (problem_view problem.now) → IfErr result (Explains (N.held files.old) words.entry) }
    ensures same { (other : List ℕ) → N.held files.new other ≡ N.held files.old other }
    ensures opened { N.failures files.new ≡ counted judge_unread (N.failures files.old) result }
{
    match begin(alloc, domain, problem, &Limits::greatest(words.horizon)) {
        Ok(begun) => plan_from(alloc, files, words, domain, problem, begun),
        Err(fault) => Err(JudgeFault::Task(fault)),
    }
}

/// The same of the problem that the words name.
fn plan_over<N: Files>(
    alloc: Global,
    files: &mut N,
    words: PlanWords<'_>,
    domain: &Domain,
) -> Result<NamedPlan, JudgeFault>
    requires { words.horizon ≤ 1000000000 }
    ensures named { IsIn (N.held files.old words.entry.domain.now) (λ text. SpellsDomain text
        (domain_view domain.now)) → IfOk result (λ n.
        IsNamedPlan (N.held files.old) words.entry n.task n.plan) }
    ensures of_task { IfOk result (λ n. IsOfTask n.task n.plan) }
    ensures cause { IsIn (N.held files.old words.entry.domain.now) (λ text. SpellsDomain text
        (domain_view domain.now)) → IfErr result (Explains (N.held files.old) words.entry) }
    ensures same { (other : List ℕ) → N.held files.new other ≡ N.held files.old other }
    ensures opened { N.failures files.new ≡ counted judge_unread (N.failures files.old) result }
{
    let problem = problem_in(alloc, files, words, domain)?;
    let plan = plan_with(alloc, files, words, domain, &problem);
    // To free it piece by piece takes long, and the end of the program does it at once.
    forget(problem);
    plan
}

/// The plan that the words name, with its task: the ground actions that its text names, of all
/// type-correct bindings of the domain and the problem that the words name. A file is opened only
/// when what stands before it is done, and read once. The cost is that of reading the three texts,
/// and of writing out `:init`, the goal and the actions that are named: other bindings are not
/// looked at. What the texts of the domain and the problem spell is not freed: a call is made once
/// in a run of the program, whose end frees all at once.
///
/// # Errors
/// The first fault of the domain, the problem, the task and the plan, and of their files.
pub fn plan_in<N: Files>(
    alloc: Global,
    files: &mut N,
    words: PlanWords<'_>,
) -> Result<NamedPlan, JudgeFault>
    requires { words.horizon ≤ 1000000000 }
    ensures named { IfOk result (λ n.
        IsNamedPlan (N.held files.old) words.entry n.task n.plan) }
    ensures of_task { IfOk result (λ n. IsOfTask n.task n.plan) }
    ensures cause { IfErr result (Explains (N.held files.old) words.entry) }
    ensures same { (other : List ℕ) → N.held files.new other ≡ N.held files.old other }
    ensures opened { N.failures files.new ≡ counted judge_unread (N.failures files.old) result }
{
    let domain = domain_in(alloc, files, words)?;
    let plan = plan_over(alloc, files, words, &domain);
    // As the problem in `plan_over`.
    forget(domain);
    plan
}

/// The verdict on a plan of a task. The cost is that of validating it.
///
/// # Errors
/// Out of memory, or a number past 10^15 in the run of the plan.
pub fn verdict_of<'t>(alloc: Global, task: &'t Task, plan: Plan) -> Result<Verdict<'t>, JudgeFault>
    requires { IsOfTask task.now plan }
    ensures verdict { IfOk result (IsVerdict task.now plan) }
    ensures cause { IfErr result (IsUnjudged task.now plan) }
    ensures opened { (n : ℕ) → counted judge_unread n result ≡ n }
{
    match validate(alloc, task, plan) {
        Ok(verdict) => Ok(verdict),
        Err(ValidateFault::Memory(_)) => Err(JudgeFault::Memory),
        Err(ValidateFault::Range(_)) => Err(JudgeFault::Range),
    }
}
