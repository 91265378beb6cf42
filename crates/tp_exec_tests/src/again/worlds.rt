//! The tasks of the small domains.

use std::alloc::Global;
use std::test::Fail;
use tp_bounds::Limits;
use tp_ground::{ground, ground_reached};
use tp_syntax::{Domain, Problem, SyntaxFault, read_domain, read_problem};
use tp_task::{GroundFault, Task};
use tp_testkit::World;
use tp_text::Scale;

fn domain_of(alloc: Global, text: &str) -> Result<Domain, SyntaxFault> {
    again!(read_domain(alloc, text))
}

fn problem_of(alloc: Global, domain: &Domain, text: &str) -> Result<Problem, SyntaxFault> {
    again!(read_problem(alloc, text, domain))
}

/// The task, up to 100 ticks.
fn grounded(alloc: Global, domain: &Domain, problem: &Problem) -> Result<Task, GroundFault> {
    let limits = Limits::greatest(100);
    again!(ground(alloc, domain, problem, &limits, Scale::One))
}

/// The same with the actions in reach alone.
fn kept(alloc: Global, domain: &Domain, problem: &Problem) -> Result<Task, GroundFault> {
    let limits = Limits::greatest(100);
    again!(ground_reached(alloc, domain, problem, &limits, Scale::One))
}

fn task_in(alloc: Global, domain: &Domain, problem: &str) -> Result<Task, Fail> {
    let problem = problem_of(alloc, domain, problem)?;
    Ok(grounded(alloc, domain, &problem)?)
}

/// The task of a world, up to 100 ticks.
pub(crate) fn task_of(alloc: Global, world: World<'_>) -> Result<Task, Fail> {
    let domain = domain_of(alloc, world.domain)?;
    task_in(alloc, &domain, world.problem)
}

fn kept_in(alloc: Global, domain: &Domain, problem: &str) -> Result<Task, Fail> {
    let problem = problem_of(alloc, domain, problem)?;
    Ok(kept(alloc, domain, &problem)?)
}

/// The same with the actions in reach alone.
pub(crate) fn kept_of(alloc: Global, world: World<'_>) -> Result<Task, Fail> {
    let domain = domain_of(alloc, world.domain)?;
    kept_in(alloc, &domain, world.problem)
}
