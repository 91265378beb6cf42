//! Conditions.

ghost use Rattle.std.specs.Prelude.{◌≡◌, [], map, IfOk};
ghost use Rattle.tp_syntax_ast.specs.Terms.{atom_view, term_view};
ghost use Rattle.tp_syntax_ast.specs.Symbols.{typed_view};
ghost use Rattle.tp_syntax_ast.specs.ExprViews.{expr_view};
ghost use Rattle.tp_syntax_ast.specs.CondViews.{cond_view};
ghost use Rattle.tp_ground_bindings.specs.Bindings.{words_in};
ghost use Rattle.tp_ground_bindings.specs.Views.{env_view, universe_view};
ghost use Rattle.tp_task.specs.Tables.{Tables};
ghost use Rattle.tp_ground_bodies.specs.Written.{condition_in, same_in, compared_in, either, negation, inner, all_of, any_of, conditions_from};
ghost use Rattle.tp_ground_bodies.specs.Written.{atom as cond_atom};
ghost use Rattle.tp_ground_bodies.specs.Mentions.{an_atom, of_condition, of_each};
ghost use Rattle.tp_ground_bodies.specs.ReadBack.{named_condition};
ghost use Rattle.tp_ground_bodies.specs.Lowered.{Lowers};

use crate::expressions::{comparison_of, operand};
use crate::numbers::atom;
use std::alloc::{AllocError, Global};
use tp_ground_bindings::{Env, Universe, object_for, rows_of};
use tp_syntax_ast::{Atom, Comparison, Expr, Term, Typed};
use tp_task::{Cond, GroundFault, Numbering};

fn fact<'a>(
    alloc: Global,
    env: &Env<'_, 'a>,
    numbering: &mut Numbering,
    fact: &'a Atom,
) -> Result<Cond, GroundFault>
    ensures { Lowers named_condition numbering.old result numbering.new
        (cond_atom (words_in (env_view env.now) (atom_view fact.now)))
        (an_atom (words_in (env_view env.now) (atom_view fact.now))) }
{
    let number = atom(alloc, env, numbering, fact)?;
    Ok(Cond::Atom(number))
}

// An equality of objects: the empty conjunction holds, the empty disjunction doesn't.
fn same<'a>(alloc: Global, env: &Env<'_, 'a>, left: &'a Term, right: &'a Term) -> Cond
    ensures { (t : Tables) → named_condition t result
        ≡ same_in (env_view env.now) (term_view left.now) (term_view right.now) }
{
    if object_for(env, left) == object_for(env, right) {
        Cond::And(Vec::new(alloc))
    } else {
        Cond::Or(Vec::new(alloc))
    }
}

fn compared<'a>(
    alloc: Global,
    env: &Env<'_, 'a>,
    numbering: &mut Numbering,
    comparison: Comparison,
    left: &'a Expr,
    right: &'a Expr,
) -> Result<Cond, GroundFault>
    ensures { Lowers named_condition numbering.old result numbering.new (compared_in
        (env_view env.now) comparison (expr_view left.now) (expr_view right.now)) (of_condition
        (compared_in (env_view env.now) comparison (expr_view left.now) (expr_view right.now))) }
{
    let x = operand(alloc, env, numbering, left)?;
    let y = operand(alloc, env, numbering, right)?;
    Ok(Cond::Compare(comparison_of(comparison), x, y))
}

// One of two.
fn either(alloc: Global, first: Cond, second: Cond) -> Result<Cond, AllocError>
    ensures { IfOk result (λ c. (t : Tables)
        → named_condition t c ≡ either (named_condition t first) (named_condition t second)) }
{
    let mut conds = Vec::with_capacity(alloc, 2)?;
    conds.push(first)?;
    conds.push(second)?;
    Ok(Cond::Or(conds))
}

#[cycle(condition)]
fn conditions<'a>(
    alloc: Global,
    universe: &Universe<'a>,
    env: &Env<'_, 'a>,
    numbering: &mut Numbering,
    conds: &'a [tp_syntax_ast::Cond],
) -> Result<Vec<Cond>, GroundFault>
    ensures { Lowers (λ t v. map (named_condition t) v.items) numbering.old result numbering.new
        (map (λ c. condition_in (universe_view universe.now) (env_view env.now) (cond_view c))
        conds.now) (of_each of_condition (map (λ c.
        condition_in (universe_view universe.now) (env_view env.now) (cond_view c)) conds.now)) }
{
    let mut lowered = Vec::with_capacity(alloc, conds.len())?;
    for cond in conds {
        lowered.push(condition(alloc, universe, env, numbering, cond)?)?;
    }
    Ok(lowered)
}

// A condition under each binding of variables.
#[cycle(condition)]
fn under_each<'a>(
    alloc: Global,
    universe: &Universe<'a>,
    env: &Env<'_, 'a>,
    numbering: &mut Numbering,
    variables: &'a [Typed],
    cond: &'a tp_syntax_ast::Cond,
) -> Result<Vec<Cond>, GroundFault>
    ensures { Lowers (λ t v. map (named_condition t) v.items) numbering.old result numbering.new
        (map (λ e. condition_in (universe_view universe.now) e (cond_view cond.now))
        (inner (universe_view universe.now) (env_view env.now) (map typed_view variables.now)))
        (of_each of_condition
        (map (λ e. condition_in (universe_view universe.now) e (cond_view cond.now))
        (inner (universe_view universe.now) (env_view env.now) (map typed_view variables.now)))) }
{
    let mut rows = rows_of(alloc, universe, variables)?;
    let mut lowered = Vec::with_capacity(alloc, rows.count())?;
    'rows: while rows.advance() {
        let inner = Env::Inner(variables, &rows.row, env);
        lowered.push(condition(alloc, universe, &inner, numbering, cond)?)?;
    }
    Ok(lowered)
}

#[cycle(condition)]
fn negated<'a>(
    alloc: Global,
    universe: &Universe<'a>,
    env: &Env<'_, 'a>,
    numbering: &mut Numbering,
    cond: &'a tp_syntax_ast::Cond,
) -> Result<Cond, GroundFault>
    ensures { Lowers named_condition numbering.old result numbering.new (negation (condition_in
        (universe_view universe.now) (env_view env.now) (cond_view cond.now))) (of_condition
        (condition_in (universe_view universe.now) (env_view env.now) (cond_view cond.now))) }
{
    let lowered = condition(alloc, universe, env, numbering, cond)?;
    Ok(Cond::Not(Box::new(alloc, lowered)?))
}

#[cycle(condition)]
fn conjunction<'a>(
    alloc: Global,
    universe: &Universe<'a>,
    env: &Env<'_, 'a>,
    numbering: &mut Numbering,
    conds: &'a [tp_syntax_ast::Cond],
) -> Result<Cond, GroundFault>
    ensures { Lowers named_condition numbering.old result numbering.new
        (all_of (conditions_from (map (λ c.
        condition_in (universe_view universe.now) (env_view env.now) (cond_view c)) conds.now)))
        (of_condition (all_of (conditions_from (map (λ c.
        condition_in (universe_view universe.now) (env_view env.now) (cond_view c)) conds.now)))) }
{
    Ok(Cond::And(conditions(alloc, universe, env, numbering, conds)?))
}

#[cycle(condition)]
fn disjunction<'a>(
    alloc: Global,
    universe: &Universe<'a>,
    env: &Env<'_, 'a>,
    numbering: &mut Numbering,
    conds: &'a [tp_syntax_ast::Cond],
) -> Result<Cond, GroundFault>
    ensures { Lowers named_condition numbering.old result numbering.new
        (any_of (conditions_from (map (λ c.
        condition_in (universe_view universe.now) (env_view env.now) (cond_view c)) conds.now)))
        (of_condition (any_of (conditions_from (map (λ c.
        condition_in (universe_view universe.now) (env_view env.now) (cond_view c)) conds.now)))) }
{
    Ok(Cond::Or(conditions(alloc, universe, env, numbering, conds)?))
}

#[cycle(condition)]
fn for_all<'a>(
    alloc: Global,
    universe: &Universe<'a>,
    env: &Env<'_, 'a>,
    numbering: &mut Numbering,
    variables: &'a [Typed],
    cond: &'a tp_syntax_ast::Cond,
) -> Result<Cond, GroundFault>
    ensures { Lowers named_condition numbering.old result numbering.new (all_of (conditions_from
        (map (λ e. condition_in (universe_view universe.now) e (cond_view cond.now))
        (inner (universe_view universe.now) (env_view env.now) (map typed_view variables.now)))))
        (of_condition (all_of (conditions_from
        (map (λ e. condition_in (universe_view universe.now) e (cond_view cond.now))
        (inner (universe_view universe.now) (env_view env.now)
        (map typed_view variables.now)))))) }
{
    Ok(Cond::And(under_each(alloc, universe, env, numbering, variables, cond)?))
}

#[cycle(condition)]
fn for_some<'a>(
    alloc: Global,
    universe: &Universe<'a>,
    env: &Env<'_, 'a>,
    numbering: &mut Numbering,
    variables: &'a [Typed],
    cond: &'a tp_syntax_ast::Cond,
) -> Result<Cond, GroundFault>
    ensures { Lowers named_condition numbering.old result numbering.new (any_of (conditions_from
        (map (λ e. condition_in (universe_view universe.now) e (cond_view cond.now))
        (inner (universe_view universe.now) (env_view env.now) (map typed_view variables.now)))))
        (of_condition (any_of (conditions_from
        (map (λ e. condition_in (universe_view universe.now) e (cond_view cond.now))
        (inner (universe_view universe.now) (env_view env.now)
        (map typed_view variables.now)))))) }
{
    Ok(Cond::Or(under_each(alloc, universe, env, numbering, variables, cond)?))
}

/// The condition over numbers, its quantifiers written out.
#[cycle(condition)]
pub fn condition<'a>(
    alloc: Global,
    universe: &Universe<'a>,
    env: &Env<'_, 'a>,
    numbering: &mut Numbering,
    cond: &'a tp_syntax_ast::Cond,
) -> Result<Cond, GroundFault>
    ensures { Lowers named_condition numbering.old result numbering.new (condition_in
        (universe_view universe.now) (env_view env.now) (cond_view cond.now)) (of_condition
        (condition_in (universe_view universe.now) (env_view env.now) (cond_view cond.now))) }
{
    match cond {
        tp_syntax_ast::Cond::And(conds) => conjunction(alloc, universe, env, numbering, conds),
        tp_syntax_ast::Cond::Or(conds) => disjunction(alloc, universe, env, numbering, conds),
        tp_syntax_ast::Cond::Not(inner) => negated(alloc, universe, env, numbering, inner),
        tp_syntax_ast::Cond::Imply(a, b) => {
            let first = negated(alloc, universe, env, numbering, a)?;
            let second = condition(alloc, universe, env, numbering, b)?;
            Ok(either(alloc, first, second)?)
        }
        tp_syntax_ast::Cond::Forall(variables, inner) => {
            for_all(alloc, universe, env, numbering, variables.as_slice(), inner)
        }
        tp_syntax_ast::Cond::Exists(variables, inner) => {
            for_some(alloc, universe, env, numbering, variables.as_slice(), inner)
        }
        tp_syntax_ast::Cond::Atom(a) => fact(alloc, env, numbering, a),
        tp_syntax_ast::Cond::Same(a, b) => Ok(same(alloc, env, a, b)),
        tp_syntax_ast::Cond::Compare(comparison, a, b) => {
            compared(alloc, env, numbering, *comparison, a, b)
        }
    }
}

/// A condition with no variables from outside, as a goal is, over numbers.
pub fn closed_condition<'a>(
    alloc: Global,
    universe: &Universe<'a>,
    numbering: &mut Numbering,
    cond: &'a tp_syntax_ast::Cond,
) -> Result<Cond, GroundFault>
    ensures { Lowers named_condition numbering.old result numbering.new
        (condition_in (universe_view universe.now) [] (cond_view cond.now)) (of_condition
        (condition_in (universe_view universe.now) [] (cond_view cond.now))) }
{
    condition(alloc, universe, &Env::Empty, numbering, cond)
}
