//! The task of a problem.

ghost use Rattle.std.specs.Prelude.{◌≡◌, ◌≤◌, ◌++◌, map, length, nat_lt, false, IfOk, IfErr, OnOk};
ghost use Rattle.tp_syntax_ast.specs.Symbols.{typed_view};
ghost use Rattle.tp_syntax_ast.specs.DomainViews.{domain_view, problem_view};
ghost use Rattle.tp_bounds.specs.RunLimits.{RunLimits};
ghost use Rattle.tp_task.specs.Words.{firsts};
ghost use Rattle.tp_ground_bindings.specs.Bindings.{universe_of};
ghost use Rattle.tp_ground_bindings.specs.Views.{universe_view};
ghost use Rattle.tp_ground.specs.Great.{has_great_number};
ghost use Rattle.tp_ground.specs.Grounding.{ground_actions, mentioned, IsTask, HasNoTask};

use crate::grounding::actions_fit;
use crate::instances::all_instances;
use crate::numbers::has_great_number;
use crate::tasks::task_with;
use std::alloc::Global;
use tp_bounds::Limits;
use tp_ground_bindings::{Universe, universe_of};
use tp_syntax_ast::{Domain, Problem, Typed};
use tp_task::{GroundFault, Task, TooManyKind};
use tp_text::Scale;

/// The most objects that a problem may have.
const MOST_OBJECTS: usize = 65_535;

fn has_too_many_objects(constants: &[Typed], objects: &[Typed]) -> bool
    ensures { result
        ≡ nat_lt 65_535 (length (map typed_view constants.now ++ map typed_view objects.now)) }
{
    constants.len() + objects.len() > MOST_OBJECTS
}

/// What can be told before the types are looked at, whatever the limits.
pub fn check(domain: &Domain, problem: &Problem) -> Result<(), GroundFault>
    ensures numbers { OnOk result
        (has_great_number (domain_view domain.now) (problem_view problem.now) ≡ false) }
    ensures objects { OnOk result (nat_lt 65_535 (length
        ((domain_view domain.now).constants ++ (problem_view problem.now).objects)) ≡ false) }
    ensures err { IfErr result (λ e. (limits : RunLimits)
        → HasNoTask limits (domain_view domain.now) (problem_view problem.now) e) }
{
    if has_great_number(domain, problem) {
        return Err(GroundFault::Range);
    }
    if has_too_many_objects(&domain.constants, &problem.objects) {
        return Err(GroundFault::TooMany(TooManyKind::Objects));
    }
    Ok(())
}

// Whether there are no more ground actions than there may be.
fn check_actions<'a>(
    alloc: Global,
    universe: &Universe<'a>,
    domain: &'a Domain,
    problem: &'a Problem,
    limits: &Limits,
) -> Result<(), GroundFault>
    requires { universe_view universe.now
        ≡ universe_of (domain_view domain.now) (problem_view problem.now) }
    ensures most { limits.now.actions ≤ 65_535 }
    ensures few { OnOk result (length (ground_actions (universe_of (domain_view domain.now)
        (problem_view problem.now)) (domain_view domain.now).actions) ≤ limits.now.actions) }
    ensures err { IfErr result
        (HasNoTask limits.now (domain_view domain.now) (problem_view problem.now)) }
{
    let _ = problem;
    if !actions_fit(alloc, universe, &domain.actions, limits.actions())? {
        return Err(GroundFault::TooMany(TooManyKind::Actions));
    }
    Ok(())
}

/// The types and objects of a problem with few enough ground actions.
pub fn universe_within<'a>(
    alloc: Global,
    domain: &'a Domain,
    problem: &'a Problem,
    limits: &Limits,
) -> Result<Universe<'a>, GroundFault>
    ensures ok { IfOk result
        (λ u. universe_view u ≡ universe_of (domain_view domain.now) (problem_view problem.now)) }
    ensures most { OnOk result (limits.now.actions ≤ 65_535) }
    ensures few { OnOk result (length (ground_actions (universe_of (domain_view domain.now)
        (problem_view problem.now)) (domain_view domain.now).actions) ≤ limits.now.actions) }
    ensures err { IfErr result
        (HasNoTask limits.now (domain_view domain.now) (problem_view problem.now)) }
{
    let universe = universe_of(alloc, domain, problem)?;
    check_actions(alloc, &universe, domain, problem, limits)?;
    Ok(universe)
}

// The task of a problem whose numbers and objects are in range.
fn within<'a>(
    alloc: Global,
    domain: &'a Domain,
    problem: &'a Problem,
    limits: &Limits,
    scale: Scale,
) -> Result<Task, GroundFault>
    ensures ok { IfOk result
        (IsTask limits.now scale (domain_view domain.now) (problem_view problem.now)) }
    ensures atoms { OnOk result
        (length (firsts (mentioned (domain_view domain.now) (problem_view problem.now)).atoms)
        ≤ limits.now.atoms) }
    ensures fluents { OnOk result
        (length (firsts (mentioned (domain_view domain.now) (problem_view problem.now)).fluents)
        ≤ limits.now.atoms) }
    ensures few { OnOk result (length (ground_actions (universe_of (domain_view domain.now)
        (problem_view problem.now)) (domain_view domain.now).actions) ≤ limits.now.actions) }
    ensures err { IfErr result
        (HasNoTask limits.now (domain_view domain.now) (problem_view problem.now)) }
{
    let universe = universe_within(alloc, domain, problem, limits)?;
    let all = all_instances(alloc, &universe, &domain.actions)?;
    task_with(alloc, &universe, domain, problem, &all, limits, scale)
}

/// The task of a problem of a domain: its actions written out over its objects, atoms and fluents
/// numbered in the order in which `:init`, the goal and the ground actions mention them. Takes time
/// and memory in what is written out: a step for each variable of each binding and for each part of
/// what stands under it.
pub fn ground(
    alloc: Global,
    domain: &Domain,
    problem: &Problem,
    limits: &Limits,
    scale: Scale,
) -> Result<Task, GroundFault>
    ensures ok { IfOk result
        (IsTask limits.now scale (domain_view domain.now) (problem_view problem.now)) }
    ensures atoms { OnOk result
        (length (firsts (mentioned (domain_view domain.now) (problem_view problem.now)).atoms)
        ≤ limits.now.atoms) }
    ensures fluents { OnOk result
        (length (firsts (mentioned (domain_view domain.now) (problem_view problem.now)).fluents)
        ≤ limits.now.atoms) }
    ensures numbers { OnOk result
        (has_great_number (domain_view domain.now) (problem_view problem.now) ≡ false) }
    ensures objects { OnOk result (nat_lt 65_535 (length
        ((domain_view domain.now).constants ++ (problem_view problem.now).objects)) ≡ false) }
    ensures few { OnOk result (length (ground_actions (universe_of (domain_view domain.now)
        (problem_view problem.now)) (domain_view domain.now).actions) ≤ limits.now.actions) }
    ensures err { IfErr result
        (HasNoTask limits.now (domain_view domain.now) (problem_view problem.now)) }
{
    check(domain, problem)?;
    within(alloc, domain, problem, limits, scale)
}
