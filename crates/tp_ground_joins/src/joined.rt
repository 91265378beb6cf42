//! The task of the ground actions that joins of static conditions and the delete relaxation leave.

ghost use Rattle.std.specs.Prelude.{◌≡◌, true, false, map, slice_index_or, IfOk};
ghost use Rattle.tp_syntax_ast.specs.DomainViews.{action_view, initial_view, domain_view, problem_view};
ghost use Rattle.tp_task.specs.Words.{has_words};
ghost use Rattle.tp_ground_bindings.specs.Rows.{names_of};
ghost use Rattle.tp_ground_bindings.specs.Views.{universe_view};
ghost use Rattle.tp_ground_named.specs.Named.{IsBegun, words_of};
ghost use Rattle.tp_ground_laws.specs.WholeTasks.{HasUseful, IsWholeTask};
ghost use Rattle.tp_ground_joins.specs.Joined.{IsJoinedTask, AreUseful, picked, words_seen};

use crate::candidates::candidates;
use crate::marks::mark_whole;
use std::alloc::{AllocError, Global};
use tp_bounds::Limits;
use tp_ground::{GroundFault, Instance, Task};
use tp_ground_bindings::{Universe, refill, universe_of};
use tp_ground_named::{Begun, ground_named};
use tp_syntax_ast::{Action, Domain, Initial, Problem};
use tp_text::Scale;

/// A task of some ground actions, and whether these are all that a valid plan may have.
#[derive(Drop)]
pub struct JoinedTask {
    pub task: Task,
    pub is_whole: bool,
}

// The words of some bindings, and whether these are all that a valid plan may have.
#[derive(Drop)]
struct Useful<'a> {
    words: Vec<Vec<&'a str>>,
    are_all: bool,
}

// The words of a binding.
fn spoken<'a>(alloc: Global, instance: &Instance<'a>) -> Result<Vec<&'a str>, AllocError>
    ensures { IfOk result (λ v. names_of v ≡ words_seen instance.now) }
{
    let mut words = Vec::new(alloc);
    refill(&mut words, instance.action.name.as_str(), &instance.objects)?;
    Ok(words)
}

fn is_marked(marks: &[bool], place: usize) -> bool
    ensures { result ≡ slice_index_or marks.now place false }
{
    marks.get(place).copied().unwrap_or(false)
}

// The words of the bindings that are marked.
fn marked_words<'a>(
    alloc: Global,
    some: &[Instance<'a>],
    marks: &[bool],
) -> Result<Vec<Vec<&'a str>>, AllocError>
    ensures { IfOk result
        (λ v. map names_of v.items ≡ picked words_seen marks.now some.now) }
{
    let mut words = Vec::new(alloc);
    for place in 0..some.len() {
        if is_marked(marks, place) {
            words.push(spoken(alloc, &some[place])?)?;
        }
    }
    Ok(words)
}

// The words of the bindings of actions that joins and the delete relaxation leave.
fn useful_among<'a>(
    alloc: Global,
    universe: &Universe<'a>,
    actions: &'a [Action],
    initial: &'a [Initial],
    most: usize,
) -> Result<Useful<'a>, GroundFault>
    ensures { IfOk result (λ w. w.are_all ≡ true → AreUseful (universe_view universe.now)
        (map action_view actions.now) (map initial_view initial.now) (map names_of w.words.items)) }
{
    let found = candidates(alloc, universe, actions, initial)?;
    let some = found.as_slice();
    let marked = mark_whole(alloc, universe, initial, some, most)?;
    let marks = marked.marks.as_slice();
    let words = marked_words(alloc, some, marks)?;
    Ok(Useful {
        words,
        are_all: marked.are_all,
    })
}

// The words of the bindings that joins and the delete relaxation leave.
fn useful_words<'a>(
    alloc: Global,
    domain: &'a Domain,
    problem: &'a Problem,
    most: usize,
) -> Result<Useful<'a>, GroundFault>
    ensures { IfOk result (λ w. w.are_all ≡ true → HasUseful (domain_view domain.now)
        (problem_view problem.now) (λ i. has_words (map names_of w.words.items) (words_of i))) }
{
    let universe = universe_of(alloc, domain, problem)?;
    useful_among(alloc, &universe, &domain.actions, &problem.initial, most)
}

/// The task of those ground actions of a problem that can be of use: the static conditions of each
/// hold at first (joins find these, and make no list of all bindings), and in the delete relaxation
/// it can start, its invariant holds, and it can end. A valid plan has no other action. Where these
/// are more than the limits allow, the task has some of them, by which all atoms are still reached,
/// and is not whole.
///
/// # Errors
/// More bindings that static conditions allow than `MOST_CANDIDATES`, or more objects tried than
/// the joins may; too many atoms or fluents for the limits, or more actions that reach an atom
/// first; or out of memory.
pub fn ground_joined<'a>(
    alloc: Global,
    domain: &'a Domain,
    problem: &'a Problem,
    begun: Begun<'a>,
    limits: &Limits,
    scale: Scale,
) -> Result<JoinedTask, GroundFault>
    requires { IsBegun limits.now (domain_view domain.now) (problem_view problem.now) begun }
    ensures some { IfOk result (λ j. IsJoinedTask limits.now scale (domain_view domain.now)
        (problem_view problem.now) j.task) }
    ensures whole { IfOk result (λ j. j.is_whole ≡ true → IsWholeTask limits.now scale
        (domain_view domain.now) (problem_view problem.now) j.task) }
{
    let useful = useful_words(alloc, domain, problem, limits.actions() as usize)?;
    let asked = useful.words.as_slice();
    let task = ground_named(alloc, domain, problem, begun, asked, limits, scale)?;
    Ok(JoinedTask {
        task,
        is_whole: useful.are_all,
    })
}
