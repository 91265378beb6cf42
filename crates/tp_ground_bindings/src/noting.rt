//! The objects for all variables of a domain and a problem, looked for once for each list of types.

ghost use Rattle.std.specs.Prelude.{◌≡◌, IfOk};
ghost use Rattle.tp_syntax_ast.specs.DomainViews.{domain_view, problem_view};
ghost use Rattle.tp_ground_bindings.specs.Bindings.{universe_of};
ghost use Rattle.tp_ground_bindings.specs.Views.{universe_view};

use crate::universe::{Universe, note, plain_universe};
use std::alloc::{AllocError, Global};
use tp_syntax_ast::{
    Action, Body, Cond, Domain, Effect, Joined, Problem, SimpleEffect, Timed, Typed,
};

fn note_variables<'a>(
    alloc: Global,
    universe: &mut Universe<'a>,
    variables: &'a [Typed],
) -> Result<(), AllocError>
    ensures { universe_view universe.new ≡ universe_view universe.old }
{
    for variable in variables {
        note(alloc, universe, variable)?;
    }
    Ok(())
}

#[cycle(note_condition)]
fn note_conditions<'a>(
    alloc: Global,
    universe: &mut Universe<'a>,
    conds: &'a [Cond],
) -> Result<(), AllocError>
    ensures { universe_view universe.new ≡ universe_view universe.old }
{
    for cond in conds {
        note_condition(alloc, universe, cond)?;
    }
    Ok(())
}

// Notes the variables of a condition's quantifiers.
#[cycle(note_condition)]
fn note_condition<'a>(
    alloc: Global,
    universe: &mut Universe<'a>,
    cond: &'a Cond,
) -> Result<(), AllocError>
    ensures { universe_view universe.new ≡ universe_view universe.old }
{
    match cond {
        Cond::And(conds) | Cond::Or(conds) => note_conditions(alloc, universe, conds),
        Cond::Not(inner) => note_condition(alloc, universe, inner),
        Cond::Imply(a, b) => {
            note_condition(alloc, universe, a)?;
            note_condition(alloc, universe, b)
        }
        Cond::Forall(variables, inner) | Cond::Exists(variables, inner) => {
            note_variables(alloc, universe, variables.as_slice())?;
            note_condition(alloc, universe, inner)
        }
        Cond::Atom(_) | Cond::Same(_, _) | Cond::Compare(_, _, _) => Ok(()),
    }
}

// What may be joined, with quantifiers in it.
trait Noted: Drop {
    fn note<'a>(&'a self, alloc: Global, universe: &mut Universe<'a>) -> Result<(), AllocError>
        ensures { universe_view universe.new ≡ universe_view universe.old };
}

#[cycle(note_part)]
fn note_parts<'a, P: Noted>(
    alloc: Global,
    universe: &mut Universe<'a>,
    parts: &'a [Joined<P>],
) -> Result<(), AllocError>
    ensures { universe_view universe.new ≡ universe_view universe.old }
{
    for part in parts {
        note_part(alloc, universe, part)?;
    }
    Ok(())
}

#[cycle(note_part)]
fn note_part<'a, P: Noted>(
    alloc: Global,
    universe: &mut Universe<'a>,
    part: &'a Joined<P>,
) -> Result<(), AllocError>
    ensures { universe_view universe.new ≡ universe_view universe.old }
{
    match part {
        Joined::And(parts) => note_parts(alloc, universe, parts),
        Joined::Forall(variables, inner) => {
            note_variables(alloc, universe, variables.as_slice())?;
            note_part(alloc, universe, inner)
        }
        Joined::One(one) => one.note(alloc, universe),
    }
}

impl Noted for SimpleEffect {
    fn note<'a>(&'a self, _alloc: Global, _universe: &mut Universe<'a>) -> Result<(), AllocError> {
        Ok(())
    }
}

impl Noted for Timed<Cond> {
    fn note<'a>(&'a self, alloc: Global, universe: &mut Universe<'a>) -> Result<(), AllocError> {
        note_condition(alloc, universe, &self.what)
    }
}

impl Noted for Timed<Effect> {
    fn note<'a>(&'a self, alloc: Global, universe: &mut Universe<'a>) -> Result<(), AllocError> {
        note_part(alloc, universe, &self.what)
    }
}

fn note_body<'a>(
    alloc: Global,
    universe: &mut Universe<'a>,
    body: &'a Body,
) -> Result<(), AllocError>
    ensures { universe_view universe.new ≡ universe_view universe.old }
{
    match body {
        Body::Instant {
            precondition,
            effect,
        } => {
            note_condition(alloc, universe, precondition)?;
            note_part(alloc, universe, effect)
        }
        Body::Durative {
            duration: _,
            condition,
            effect,
        } => {
            note_part(alloc, universe, condition)?;
            note_part(alloc, universe, effect)
        }
    }
}

fn note_actions<'a>(
    alloc: Global,
    universe: &mut Universe<'a>,
    actions: &'a [Action],
) -> Result<(), AllocError>
    ensures { universe_view universe.new ≡ universe_view universe.old }
{
    for action in actions {
        note_variables(alloc, universe, action.parameters.as_slice())?;
        note_body(alloc, universe, &action.body)?;
    }
    Ok(())
}

/// The types and objects of a problem, with the objects for all its variables looked for.
pub fn universe_of<'a>(
    alloc: Global,
    domain: &'a Domain,
    problem: &'a Problem,
) -> Result<Universe<'a>, AllocError>
    ensures { IfOk result
        (λ u. universe_view u ≡ universe_of (domain_view domain.now) (problem_view problem.now)) }
{
    let mut universe = plain_universe(alloc, domain, problem)?;
    note_actions(alloc, &mut universe, &domain.actions)?;
    note_condition(alloc, &mut universe, &problem.goal)?;
    Ok(universe)
}
