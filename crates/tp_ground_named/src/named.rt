//! The task of the ground actions for which names and objects ask: no other binding is looked at.

ghost use Rattle.std.specs.Prelude.{◌≡◌, ◌≤◌, ◌++◌, ◌∷◌, [], false, map, length, nat_lt, IfOk, IfErr, OnOk};
ghost use Rattle.tp_syntax_ast.specs.CondViews.{cond_view};
ghost use Rattle.tp_syntax_ast.specs.DomainViews.{initial_view, domain_view, problem_view};
ghost use Rattle.tp_task.specs.Tables.{with_actions};
ghost use Rattle.tp_ground_bindings.specs.Bindings.{universe_of};
ghost use Rattle.tp_ground_bindings.specs.Rows.{names_of};
ghost use Rattle.tp_ground_bindings.specs.Views.{universe_view};
ghost use Rattle.tp_ground_bodies.specs.Lowered.{Lowers};
ghost use Rattle.tp_ground_bodies.specs.Mentions.{of_each};
ghost use Rattle.tp_ground_bodies.specs.ReadBack.{named_body};
ghost use Rattle.tp_ground.specs.Great.{has_great_number};
ghost use Rattle.tp_ground.specs.Reached.{IsTaskOf, action_of, of_instance};
ghost use Rattle.tp_ground.specs.Instances.{instance_view};
ghost use Rattle.tp_ground_named.specs.Named.{chosen, named_ends, written_ends, of_ends, IsBegun, HasNoTaskOf};

use crate::instances::named_instances;
use std::alloc::Global;
use tp_bounds::Limits;
use tp_ground::beginning::{NumberedInitial, entries};
use tp_ground::{Instance, LoweredTask, check, lower_instances, name_instances, task_of};
use tp_ground_bindings::{Universe, universe_of};
use tp_ground_bodies::closed_condition;
use tp_syntax_ast::{Domain, Initial, Problem};
use tp_task::{Body, Cond, GroundFault, Numbering, Task, TooManyKind};
use tp_text::Scale;

/// What `:init` and the goal say, by number.
#[derive(Drop)]
struct Ends {
    entries: Vec<NumberedInitial>,
    goal: Cond,
}

/// A problem of a domain whose `:init` and goal are numbered.
#[derive(Drop)]
pub struct Begun<'a> {
    universe: Universe<'a>,
    numbering: Numbering,
    ends: Ends,
}

// What `:init` and the goal say, by number.
fn lower_ends<'a>(
    alloc: Global,
    universe: &Universe<'a>,
    numbering: &mut Numbering,
    initial: &'a [Initial],
    goal: &'a tp_syntax_ast::Cond,
) -> Result<Ends, GroundFault>
    ensures { Lowers named_ends numbering.old result numbering.new
        (written_ends (universe_view universe.now) (map initial_view initial.now)
        (cond_view goal.now)) (of_ends (universe_view universe.now)
        (map initial_view initial.now) (cond_view goal.now)) }
{
    let entries = entries(alloc, numbering, initial)?;
    let goal = closed_condition(alloc, universe, numbering, goal)?;
    Ok(Ends { entries, goal })
}

// The same of a problem.
fn lower_problem<'a>(
    alloc: Global,
    universe: &Universe<'a>,
    numbering: &mut Numbering,
    problem: &'a Problem,
) -> Result<Ends, GroundFault>
    ensures { Lowers named_ends numbering.old result numbering.new
        (written_ends (universe_view universe.now) (problem_view problem.now).initial
        (problem_view problem.now).goal) (of_ends (universe_view universe.now)
        (problem_view problem.now).initial (problem_view problem.now).goal) }
{
    lower_ends(alloc, universe, numbering, &problem.initial, &problem.goal)
}

// The tasks of a problem over its types and objects.
fn begun_over<'a>(
    alloc: Global,
    domain: &'a Domain,
    problem: &'a Problem,
    limits: &Limits,
    universe: Universe<'a>,
) -> Result<Begun<'a>, GroundFault>
    requires { universe_view universe
        ≡ universe_of (domain_view domain.now) (problem_view problem.now) }
    ensures ok { IfOk result
        (IsBegun limits.now (domain_view domain.now) (problem_view problem.now)) }
    ensures err { IfErr result
        (HasNoTaskOf limits.now (domain_view domain.now) (problem_view problem.now) []) }
{
    let _ = domain;
    let mut numbering = Numbering::new(alloc, limits.atoms());
    let ends = lower_problem(alloc, &universe, &mut numbering, problem)?;
    Ok(Begun {
        universe,
        numbering,
        ends,
    })
}

/// Begins the tasks of a problem: numbers what `:init` and the goal mention. Takes time and memory
/// in what they write out.
///
/// # Errors A number past 10^15, too many objects, or too many atoms or fluents for the limits; or
/// out of memory.
pub fn begin<'a>(
    alloc: Global,
    domain: &'a Domain,
    problem: &'a Problem,
    limits: &Limits,
) -> Result<Begun<'a>, GroundFault>
    ensures ok { IfOk result
        (IsBegun limits.now (domain_view domain.now) (problem_view problem.now)) }
    ensures numbers { OnOk result
        (has_great_number (domain_view domain.now) (problem_view problem.now) ≡ false) }
    ensures objects { OnOk result (nat_lt 65_535 (length
        ((domain_view domain.now).constants ++ (problem_view problem.now).objects)) ≡ false) }
    ensures err { IfErr result
        (HasNoTaskOf limits.now (domain_view domain.now) (problem_view problem.now) []) }
{
    check(domain, problem)?;
    let universe = universe_of(alloc, domain, problem)?;
    begun_over(alloc, domain, problem, limits, universe)
}

// What some instances do, by number, and then their words.
fn prepare<'a>(
    alloc: Global,
    universe: &Universe<'a>,
    numbering: &mut Numbering,
    some: &[Instance<'a>],
) -> Result<Vec<Body>, GroundFault>
    ensures lowered { Lowers (λ t v. map (named_body t) v.items) numbering.old result
        (with_actions numbering.new numbering.old.actions)
        (map (λ i. (action_of (universe_view universe.now) i).body) (map instance_view some.now))
        (of_each (of_instance (universe_view universe.now)) (map instance_view some.now)) }
    ensures names { OnOk result (numbering.new.actions ≡ numbering.old.actions
        ++ map (λ i. i.action.name ∷ i.objects) (map instance_view some.now)) }
{
    let bodies = lower_instances(alloc, universe, numbering, some)?;
    name_instances(alloc, numbering, some)?;
    Ok(bodies)
}

// The task of some instances.
fn task_of_some<'a>(
    alloc: Global,
    domain: &'a Domain,
    problem: &'a Problem,
    begun: Begun<'a>,
    some: &[Instance<'a>],
    limits: &Limits,
    scale: Scale,
) -> Result<Task, GroundFault>
    requires begun { IsBegun limits.now (domain_view domain.now) (problem_view problem.now) begun }
    requires few { length some.now ≤ 65_535 }
    ensures ok { IfOk result (IsTaskOf limits.now scale (domain_view domain.now)
        (problem_view problem.now) (map instance_view some.now)) }
    ensures err { IfErr result (HasNoTaskOf limits.now (domain_view domain.now)
        (problem_view problem.now) (map instance_view some.now)) }
{
    let _ = domain;
    let _ = problem;
    let Begun {
        universe,
        mut numbering,
        ends,
    } = begun;
    let actions = prepare(alloc, &universe, &mut numbering, some)?;
    let lowered = LoweredTask {
        entries: ends.entries,
        goal: ends.goal,
        actions,
    };
    Ok(task_of(alloc, *limits, scale, numbering, lowered)?)
}

// The task of some instances, if they are no more than there may be.
fn task_within<'a>(
    alloc: Global,
    domain: &'a Domain,
    problem: &'a Problem,
    begun: Begun<'a>,
    some: &[Instance<'a>],
    limits: &Limits,
    scale: Scale,
) -> Result<Task, GroundFault>
    requires { IsBegun limits.now (domain_view domain.now) (problem_view problem.now) begun }
    ensures ok { IfOk result (IsTaskOf limits.now scale (domain_view domain.now)
        (problem_view problem.now) (map instance_view some.now)) }
    ensures err { IfErr result (HasNoTaskOf limits.now (domain_view domain.now)
        (problem_view problem.now) (map instance_view some.now)) }
{
    let most = limits.actions() as usize;
    if some.len() > most {
        return Err(GroundFault::TooMany(TooManyKind::Actions));
    }
    task_of_some(alloc, domain, problem, begun, some, limits, scale)
}

/// The task of a problem of a domain with the ground actions that lists of names ask for, each by
/// the name of an action and its objects. A list that is no type-correct binding asks for nothing.
/// Actions stand in the order of all bindings; atoms and fluents are those that `:init`, the goal
/// or one of these actions mention. Takes time and memory in the actions of the domain, in what is
/// asked for with the objects of its parameters, and in what the chosen actions write out: no other
/// binding is looked at, however many there are.
///
/// # Errors
/// Too many atoms, fluents or chosen actions for the limits; or out of memory.
pub fn ground_named<'a>(
    alloc: Global,
    domain: &'a Domain,
    problem: &'a Problem,
    begun: Begun<'a>,
    asked: &[Vec<&str>],
    limits: &Limits,
    scale: Scale,
) -> Result<Task, GroundFault>
    requires { IsBegun limits.now (domain_view domain.now) (problem_view problem.now) begun }
    ensures ok { IfOk result (IsTaskOf limits.now scale (domain_view domain.now)
        (problem_view problem.now) (chosen (domain_view domain.now) (problem_view problem.now)
        (map names_of asked.now))) }
    ensures err { IfErr result (HasNoTaskOf limits.now (domain_view domain.now)
        (problem_view problem.now) (chosen (domain_view domain.now) (problem_view problem.now)
        (map names_of asked.now))) }
{
    let actions = domain.actions.as_slice();
    let some = named_instances(alloc, &begun.universe, actions, asked)?;
    let lent = some.as_slice();
    task_within(alloc, domain, problem, begun, lent, limits, scale)
}
