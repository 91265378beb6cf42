//! The task of some ground actions.

ghost use Rattle.std.specs.Prelude.{◌≡◌, ◌≤◌, ◌<◌, ◌++◌, ◌∷◌, ℕ, true, false, None, map, length, slice_index_or, IfOk, IfErr, OnOk};
ghost use Rattle.std.specs.List.{list_all};
ghost use Rattle.tp_syntax_ast.specs.CondViews.{cond_view};
ghost use Rattle.tp_syntax_ast.specs.DomainViews.{initial_view, domain_view, problem_view};
ghost use Rattle.tp_task.specs.Fits.{body_fits};
ghost use Rattle.tp_task.specs.Tables.{CannotNumber, with_actions};
ghost use Rattle.tp_task.specs.Words.{firsts};
ghost use Rattle.tp_ground_bindings.specs.Bindings.{universe_of};
ghost use Rattle.tp_ground_bindings.specs.Views.{universe_view};
ghost use Rattle.tp_ground_bodies.specs.Lowered.{Lowers};
ghost use Rattle.tp_ground.specs.Initially.{true_at, value_at};
ghost use Rattle.tp_ground.specs.WrittenTasks.{named_task, IsMade};
ghost use Rattle.tp_ground.specs.Reached.{IsTaskOf, mentioned_of};
ghost use Rattle.tp_ground.specs.Instances.{instance_view, written_with, of_task_with};

use crate::beginning::{NumberedInitial, entries, numbers, truths};
use crate::instances::{Instance, lower_instances, name_instances};
use std::alloc::{AllocError, Global};
use tp_bounds::Limits;
use tp_ground_bindings::Universe;
use tp_ground_bodies::closed_condition;
use tp_syntax_ast::{Domain, Initial, Problem};
use tp_task::{Body, Cond, GroundFault, Numbering, Task};
use tp_text::Scale;

/// What stands in `:init`, the goal and the bodies of the ground actions, by number.
#[derive(Drop)]
pub struct LoweredTask {
    pub entries: Vec<NumberedInitial>,
    pub goal: Cond,
    pub actions: Vec<Body>,
}

// What there is at first, by number.
#[derive(Drop)]
struct Beginning {
    truths: Vec<bool>,
    numbers: Vec<Option<i64>>,
}

fn lower_with<'a>(
    alloc: Global,
    universe: &Universe<'a>,
    numbering: &mut Numbering,
    initial: &'a [Initial],
    goal: &'a tp_syntax_ast::Cond,
    some: &[Instance<'a>],
) -> Result<LoweredTask, GroundFault>
    ensures { Lowers named_task numbering.old result numbering.new
        (written_with (universe_view universe.now) (map initial_view initial.now)
        (cond_view goal.now) (map instance_view some.now))
        (of_task_with (universe_view universe.now) (map initial_view initial.now)
        (cond_view goal.now) (map instance_view some.now)) }
{
    let entries = entries(alloc, numbering, initial)?;
    let goal = closed_condition(alloc, universe, numbering, goal)?;
    let actions = lower_instances(alloc, universe, numbering, some)?;
    Ok(LoweredTask {
        entries,
        goal,
        actions,
    })
}

/// What stands in `:init`, the goal and the bodies of some instances, by number.
pub fn lower_problem<'a>(
    alloc: Global,
    universe: &Universe<'a>,
    numbering: &mut Numbering,
    problem: &'a Problem,
    some: &[Instance<'a>],
) -> Result<LoweredTask, GroundFault>
    ensures { Lowers named_task numbering.old result numbering.new
        (written_with (universe_view universe.now) (problem_view problem.now).initial
        (problem_view problem.now).goal (map instance_view some.now))
        (of_task_with (universe_view universe.now) (problem_view problem.now).initial
        (problem_view problem.now).goal (map instance_view some.now)) }
{
    lower_with(
        alloc,
        universe,
        numbering,
        &problem.initial,
        &problem.goal,
        some,
    )
}

// All that is mentioned by number, and then the words of some instances.
fn prepare_with<'a>(
    alloc: Global,
    universe: &Universe<'a>,
    numbering: &mut Numbering,
    problem: &'a Problem,
    some: &[Instance<'a>],
) -> Result<LoweredTask, GroundFault>
    ensures lowered { Lowers named_task numbering.old result
        (with_actions numbering.new numbering.old.actions)
        (written_with (universe_view universe.now) (problem_view problem.now).initial
        (problem_view problem.now).goal (map instance_view some.now))
        (of_task_with (universe_view universe.now) (problem_view problem.now).initial
        (problem_view problem.now).goal (map instance_view some.now)) }
    ensures names { OnOk result (numbering.new.actions ≡ numbering.old.actions
        ++ map (λ i. i.action.name ∷ i.objects) (map instance_view some.now)) }
{
    let lowered = lower_problem(alloc, universe, numbering, problem, some)?;
    name_instances(alloc, numbering, some)?;
    Ok(lowered)
}

// What is true at first, and which values there are.
fn beginning_of(
    alloc: Global,
    numbering: &Numbering,
    entries: &[NumberedInitial],
) -> Result<Beginning, AllocError>
    ensures atom_count { IfOk result (λ b. length b.truths.items ≡ length numbering.now.atoms) }
    ensures atoms { IfOk result (λ b. (j : ℕ) → j < length numbering.now.atoms
        → slice_index_or b.truths.items j false ≡ true_at entries.now j) }
    ensures fluent_count { IfOk result
        (λ b. length b.numbers.items ≡ length numbering.now.fluents) }
    ensures numbers { IfOk result (λ b. (j : ℕ) → j < length numbering.now.fluents
        → slice_index_or b.numbers.items j None ≡ value_at entries.now j) }
    ensures few_atoms { OnOk result (length numbering.now.atoms ≤ numbering.now.most) }
    ensures few_fluents { OnOk result (length numbering.now.fluents ≤ numbering.now.most) }
{
    let truths = truths(alloc, numbering.atom_count(), entries)?;
    let numbers = numbers(alloc, numbering.fluent_count(), entries)?;
    Ok(Beginning { truths, numbers })
}

/// The task of what is lowered.
pub fn task_of(
    alloc: Global,
    limits: Limits,
    scale: Scale,
    numbering: Numbering,
    lowered: LoweredTask,
) -> Result<Task, AllocError>
    requires few { length lowered.actions.items ≤ 65_535 }
    requires fits { list_all (body_fits (length numbering.atoms) (length numbering.fluents))
        lowered.actions.items ≡ true }
    requires all_named { length numbering.actions ≡ length lowered.actions.items }
    ensures made { IfOk result (IsMade limits scale numbering lowered) }
    ensures atoms { OnOk result (length numbering.atoms ≤ numbering.most) }
    ensures fluents { OnOk result (length numbering.fluents ≤ numbering.most) }
{
    let beginning = beginning_of(alloc, &numbering, &lowered.entries)?;
    Ok(Task {
        limits,
        scale,
        numbering,
        actions: lowered.actions,
        initial_atoms: beginning.truths,
        initial_numbers: beginning.numbers,
        goal: lowered.goal,
    })
}

/// The task of some instances.
pub fn task_with<'a>(
    alloc: Global,
    universe: &Universe<'a>,
    domain: &'a Domain,
    problem: &'a Problem,
    some: &[Instance<'a>],
    limits: &Limits,
    scale: Scale,
) -> Result<Task, GroundFault>
    requires of_problem { universe_view universe.now
        ≡ universe_of (domain_view domain.now) (problem_view problem.now) }
    requires few { length some.now ≤ 65_535 }
    ensures ok { IfOk result (IsTaskOf limits.now scale (domain_view domain.now)
        (problem_view problem.now) (map instance_view some.now)) }
    ensures atoms { IfOk result (λ t. length t.numbering.atoms ≤ limits.now.atoms) }
    ensures fluents { IfOk result (λ t. length t.numbering.fluents ≤ limits.now.atoms) }
    ensures err { IfErr result (CannotNumber limits.now.atoms
        (firsts (mentioned_of (domain_view domain.now) (problem_view problem.now)
        (map instance_view some.now)).atoms)
        (firsts (mentioned_of (domain_view domain.now) (problem_view problem.now)
        (map instance_view some.now)).fluents)) }
{
    let mut numbering = Numbering::new(alloc, limits.atoms());
    let lowered = prepare_with(alloc, universe, &mut numbering, problem, some)?;
    Ok(task_of(alloc, *limits, scale, numbering, lowered)?)
}
