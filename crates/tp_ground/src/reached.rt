//! The task of the ground actions that can be met at all: those with an event whose condition is
//! met in the relaxed reach.

ghost use Rattle.std.specs.Prelude.{◌≡◌, ◌≤◌, ◌++◌, true, false, map, length, nat_lt, IfOk, IfErr, OnOk};
ghost use Rattle.std.specs.List.{list_all};
ghost use Rattle.tp_syntax_ast.specs.DomainViews.{domain_view, problem_view};
ghost use Rattle.tp_task.specs.Rounds.{set_of, adds_fit};
ghost use Rattle.tp_ground_bindings.specs.Views.{universe_view};
ghost use Rattle.tp_ground.specs.Great.{has_great_number};
ghost use Rattle.tp_ground.specs.Initially.{initial_in};
ghost use Rattle.tp_ground_bodies.specs.Lowered.{IsLowered};
ghost use Rattle.tp_ground_bindings.specs.Bindings.{universe_of};
ghost use Rattle.tp_ground.specs.WrittenTasks.{named_task};
ghost use Rattle.tp_ground.specs.Reached.{AreKept, IsReachedTask, HasNoReachedTask};
ghost use Rattle.tp_ground.specs.Instances.{instance_view, written_with, of_task_with, has_met, AreMet, AreReached, AreFlags};

use crate::beginning::truths;
use crate::grounder::check;
use crate::instances::{Instance, all_instances, flagged};
use crate::tasks::{LoweredTask, lower_problem, task_with};
use std::alloc::{AllocError, Global};
use tp_bounds::Limits;
use tp_ground_bindings::{Universe, universe_of};
use tp_syntax_ast::{Domain, Problem};
use tp_task::{Body, GroundFault, Numbering, Task, TooManyKind, met, saturate};
use tp_text::Scale;

// ---- which are kept

// Whether an action has an event whose condition is met.
fn is_met(reach: &[bool], body: &Body) -> bool
    ensures { result ≡ has_met (set_of reach.now) body.now }
{
    match body {
        Body::Instant(only) => met(reach, true, &only.condition),
        Body::Durative(start, end, _) => {
            met(reach, true, &start.condition) || met(reach, true, &end.condition)
        }
    }
}

fn are_met(alloc: Global, reach: &[bool], bodies: &[Body]) -> Result<Vec<bool>, AllocError>
    ensures { IfOk result (λ v. v.items ≡ map (has_met (set_of reach.now)) bodies.now) }
{
    let mut flags = Vec::with_capacity(alloc, bodies.len())?;
    for body in bodies {
        flags.push(is_met(reach, body))?;
    }
    Ok(flags)
}

// Which bodies have an event whose condition is met in what their events can add to some atoms.
fn are_met_from(alloc: Global, reach: &mut [bool], bodies: &[Body]) -> Result<Vec<bool>, AllocError>
    requires { list_all (adds_fit (length reach.old)) bodies.now ≡ true }
    ensures { IfOk result (λ v. AreMet reach.old bodies.now v.items) }
{
    saturate(alloc, reach, bodies)?;
    are_met(alloc, reach, bodies)
}

fn are_reached(alloc: Global, count: usize, lowered: &LoweredTask) -> Result<Vec<bool>, AllocError>
    requires { list_all (adds_fit count) lowered.now.actions.items ≡ true }
    ensures { IfOk result (λ v. AreReached count lowered.now v.items) }
{
    let mut reach = truths(alloc, count, &lowered.entries)?;
    are_met_from(alloc, reach.as_mut_slice(), &lowered.actions)
}

// What some instances do, by number, with as many numbers as it takes.
fn lower_freely<'a>(
    alloc: Global,
    universe: &Universe<'a>,
    numbering: &mut Numbering,
    problem: &'a Problem,
    some: &[Instance<'a>],
) -> Result<LoweredTask, AllocError>
    ensures { IfOk result (λ l. IsLowered named_task numbering.old numbering.new l
        (written_with (universe_view universe.now) (problem_view problem.now).initial
        (problem_view problem.now).goal (map instance_view some.now))
        (of_task_with (universe_view universe.now) (problem_view problem.now).initial
        (problem_view problem.now).goal (map instance_view some.now))) }
{
    match lower_problem(alloc, universe, numbering, problem, some) {
        Ok(lowered) => Ok(lowered),
        Err(_) => Err(AllocError),
    }
}

// Which of some instances have an event whose condition is met in their relaxed reach.
fn flags_of<'a>(
    alloc: Global,
    universe: &Universe<'a>,
    problem: &'a Problem,
    some: &[Instance<'a>],
) -> Result<Vec<bool>, AllocError>
    ensures { IfOk result (λ v. AreFlags (universe_view universe.now)
        (map initial_in (problem_view problem.now).initial) (map instance_view some.now) v.items) }
{
    let mut numbering = Numbering::new(alloc, u32::MAX);
    let lowered = lower_freely(alloc, universe, &mut numbering, problem, some)?;
    are_reached(alloc, numbering.atom_count(), &lowered)
}

// The instances of some actions that their relaxed reach keeps.
fn kept_instances<'a>(
    alloc: Global,
    universe: &Universe<'a>,
    domain: &'a Domain,
    problem: &'a Problem,
) -> Result<Vec<Instance<'a>>, AllocError>
    requires { universe_view universe.now
        ≡ universe_of (domain_view domain.now) (problem_view problem.now) }
    ensures { IfOk result (λ v. AreKept (domain_view domain.now) (problem_view problem.now)
        (map instance_view v.items)) }
{
    let all = all_instances(alloc, universe, &domain.actions)?;
    let flags = flags_of(alloc, universe, problem, &all)?;
    flagged(alloc, &all, &flags)
}

// ---- the task

// The task of the instances that the relaxed reach keeps, if they are no more than there may be.
fn kept_task<'a>(
    alloc: Global,
    universe: &Universe<'a>,
    domain: &'a Domain,
    problem: &'a Problem,
    kept: &[Instance<'a>],
    limits: &Limits,
    scale: Scale,
) -> Result<Task, GroundFault>
    requires of_problem { universe_view universe.now
        ≡ universe_of (domain_view domain.now) (problem_view problem.now) }
    requires kept { AreKept (domain_view domain.now) (problem_view problem.now)
        (map instance_view kept.now) }
    ensures ok { IfOk result
        (IsReachedTask limits.now scale (domain_view domain.now) (problem_view problem.now)) }
    ensures atoms { IfOk result (λ t. length t.numbering.atoms ≤ limits.now.atoms) }
    ensures fluents { IfOk result (λ t. length t.numbering.fluents ≤ limits.now.atoms) }
    ensures few { IfOk result (λ t. length t.numbering.actions ≤ limits.now.actions) }
    ensures err { IfErr result
        (HasNoReachedTask limits.now (domain_view domain.now) (problem_view problem.now)) }
{
    if kept.len() > limits.actions() as usize {
        return Err(GroundFault::TooMany(TooManyKind::Actions));
    }
    task_with(alloc, universe, domain, problem, kept, limits, scale)
}

// The task of a problem whose numbers and objects are in range.
fn reached_within<'a>(
    alloc: Global,
    domain: &'a Domain,
    problem: &'a Problem,
    limits: &Limits,
    scale: Scale,
) -> Result<Task, GroundFault>
    ensures ok { IfOk result
        (IsReachedTask limits.now scale (domain_view domain.now) (problem_view problem.now)) }
    ensures atoms { IfOk result (λ t. length t.numbering.atoms ≤ limits.now.atoms) }
    ensures fluents { IfOk result (λ t. length t.numbering.fluents ≤ limits.now.atoms) }
    ensures few { IfOk result (λ t. length t.numbering.actions ≤ limits.now.actions) }
    ensures err { IfErr result
        (HasNoReachedTask limits.now (domain_view domain.now) (problem_view problem.now)) }
{
    let universe = universe_of(alloc, domain, problem)?;
    let kept = kept_instances(alloc, &universe, domain, problem)?;
    kept_task(alloc, &universe, domain, problem, &kept, limits, scale)
}

/// The task of a problem of a domain, as `ground` gives it, but with only the ground actions that
/// can ever be of use: those with an event whose condition is met in the relaxed reach (the delete
/// relaxation of Bonet and Geffner 2001), in the same order. Atoms, fluents and actions are counted
/// as far as what is kept mentions them. All type-correct bindings are written out once to find
/// these, whatever the limits, so it takes time and memory in what all of them write out.
pub fn ground_reached(
    alloc: Global,
    domain: &Domain,
    problem: &Problem,
    limits: &Limits,
    scale: Scale,
) -> Result<Task, GroundFault>
    ensures ok { IfOk result
        (IsReachedTask limits.now scale (domain_view domain.now) (problem_view problem.now)) }
    ensures atoms { IfOk result (λ t. length t.numbering.atoms ≤ limits.now.atoms) }
    ensures fluents { IfOk result (λ t. length t.numbering.fluents ≤ limits.now.atoms) }
    ensures few { IfOk result (λ t. length t.numbering.actions ≤ limits.now.actions) }
    ensures numbers { OnOk result
        (has_great_number (domain_view domain.now) (problem_view problem.now) ≡ false) }
    ensures objects { OnOk result (nat_lt 65_535 (length
        ((domain_view domain.now).constants ++ (problem_view problem.now).objects)) ≡ false) }
    ensures err { IfErr result
        (HasNoReachedTask limits.now (domain_view domain.now) (problem_view problem.now)) }
{
    check(domain, problem)?;
    reached_within(alloc, domain, problem, limits, scale)
}
