//! From a tree to an action.

ghost use Rattle.std.specs.Prelude.{◌≡◌, [], map, true, false};
ghost use Rattle.tp_syntax_ast.specs.Actions.{field, or_missing, body_of, action_of};
ghost use Rattle.tp_syntax_ast.specs.Conditions.{all_of, no_conditions, condition_of};
ghost use Rattle.tp_syntax_ast.specs.Parts.{all_parts, no_parts};
ghost use Rattle.tp_syntax_ast.specs.Effects.{effect_of, timed_condition_of, timed_effect_of};
ghost use Rattle.tp_syntax_ast.specs.TypedLists.{parameters_at};
ghost use Rattle.tp_syntax_ast.specs.CondViews.{cond_view};
ghost use Rattle.tp_syntax_ast.specs.ConstraintViews.{constraint_view};
ghost use Rattle.tp_syntax_ast.specs.EffectViews.{effect_view, timed_condition_view, timed_effect_view};
ghost use Rattle.tp_syntax_ast.specs.DomainViews.{body_view, action_view};
ghost use Rattle.tp_syntax.specs.Fields.{field_view, duration_field};
ghost use Rattle.tp_syntax_ast.specs.Terms.{shapes};
ghost use Rattle.tp_syntax_ast.specs.Symbols.{typed_view};
ghost use Rattle.tp_syntax_types.specs.TypeViews.{types_view};
ghost use Rattle.tp_syntax_scope.specs.SymbolViews.{symbols_view};
ghost use Rattle.tp_syntax_scope.specs.ScopeViews.{scope_view, symbols_of};
ghost use Rattle.tp_syntax_ast.specs.Gives.{Gives};
ghost use Rattle.tp_syntax_ast.specs.declared.words.Key.TheVariants as keys;

use crate::fields::{Field, find_field, read_fields};
use std::alloc::Global;
use tp_syntax_ast::{
    Action, Body, Cond, DurationRule, Effect, Joined, Key, SyntaxFault, TimedCond, TimedEffect,
    TypedList,
};
use tp_syntax_bodies::{
    read_cond, read_constraint, read_effect, read_timed_cond, read_timed_effect,
};
use tp_syntax_scope::{Scope, Symbols, Variables, name_of, parameters_at};
use tp_syntax_types::types::Types;
use tp_text::Tree;

fn parameters(
    alloc: Global,
    types: &Types,
    fields: &[Field],
    at: u32,
) -> Result<TypedList, SyntaxFault>
    ensures { Gives (λ v. map typed_view v.items) result (or_missing [] (parameters_at
        (types_view types.now)) (field keys.Parameters (map field_view fields.now))) }
{
    match find_field(Key::Parameters, fields) {
        Some(list) => parameters_at(alloc, types, list.body, at),
        None => Ok(TypedList::unmarked(alloc, Vec::new(alloc))),
    }
}

fn precondition(
    alloc: Global,
    scope: &Scope,
    fields: &[Field],
    at: u32,
) -> Result<Cond, SyntaxFault>
    ensures { Gives cond_view result
        (or_missing (all_of no_conditions) (condition_of (symbols_of scope.now)
        (scope_view scope.now)) (field keys.Precondition (map field_view fields.now))) }
{
    match find_field(Key::Precondition, fields) {
        Some(cond) => read_cond(alloc, cond.body, scope, at),
        None => Ok(Cond::And(Vec::new(alloc))),
    }
}

fn effect(alloc: Global, scope: &Scope, fields: &[Field], at: u32) -> Result<Effect, SyntaxFault>
    ensures { Gives effect_view result
        (or_missing (all_parts no_parts) (effect_of (symbols_of scope.now) false
        (scope_view scope.now)) (field keys.Effect (map field_view fields.now))) }
{
    match find_field(Key::Effect, fields) {
        Some(effect) => read_effect(alloc, effect.body, scope, at),
        None => Ok(Joined::And(Vec::new(alloc))),
    }
}

// The fault of a missing duration constraint is at the action.
fn duration(
    alloc: Global,
    scope: &Scope,
    fields: &[Field],
    at: u32,
) -> Result<DurationRule, SyntaxFault>
    ensures { Gives constraint_view result (duration_field
        (symbols_of scope.now) (scope_view scope.now) (map field_view fields.now)) }
{
    match find_field(Key::Duration, fields) {
        Some(constraint) => read_constraint(alloc, constraint.body, scope, at),
        None => Err(SyntaxFault::Shape(at)),
    }
}

fn timed_condition(
    alloc: Global,
    scope: &Scope,
    fields: &[Field],
    at: u32,
) -> Result<TimedCond, SyntaxFault>
    ensures { Gives timed_condition_view result
        (or_missing (all_parts no_parts) (timed_condition_of (symbols_of scope.now)
        (scope_view scope.now)) (field keys.Condition (map field_view fields.now))) }
{
    match find_field(Key::Condition, fields) {
        Some(cond) => read_timed_cond(alloc, cond.body, scope, at),
        None => Ok(Joined::And(Vec::new(alloc))),
    }
}

fn timed_effect(
    alloc: Global,
    scope: &Scope,
    fields: &[Field],
    at: u32,
) -> Result<TimedEffect, SyntaxFault>
    ensures { Gives timed_effect_view result
        (or_missing (all_parts no_parts) (timed_effect_of (symbols_of scope.now)
        (scope_view scope.now)) (field keys.Effect (map field_view fields.now))) }
{
    match find_field(Key::Effect, fields) {
        Some(effect) => read_timed_effect(alloc, effect.body, scope, at),
        None => Ok(Joined::And(Vec::new(alloc))),
    }
}

fn instant(alloc: Global, scope: &Scope, fields: &[Field], at: u32) -> Result<Body, SyntaxFault>
    ensures { Gives body_view result (body_of
        (symbols_of scope.now) false (scope_view scope.now) (map field_view fields.now)) }
{
    let precondition = precondition(alloc, scope, fields, at)?;
    let effect = effect(alloc, scope, fields, at)?;
    Ok(Body::Instant {
        precondition,
        effect,
    })
}

fn durative(alloc: Global, scope: &Scope, fields: &[Field], at: u32) -> Result<Body, SyntaxFault>
    ensures { Gives body_view result (body_of
        (symbols_of scope.now) true (scope_view scope.now) (map field_view fields.now)) }
{
    let duration = duration(alloc, scope, fields, at)?;
    let condition = timed_condition(alloc, scope, fields, at)?;
    let effect = timed_effect(alloc, scope, fields, at)?;
    Ok(Body::Durative {
        duration,
        condition,
        effect,
    })
}

fn body(
    alloc: Global,
    lasts: bool,
    parameters: &Variables,
    fields: &[Field],
    at: u32,
) -> Result<Body, SyntaxFault>
    ensures { Gives body_view result (body_of parameters.now.symbols lasts
        (map typed_view parameters.now.items) (map field_view fields.now)) }
{
    let none = Scope::of(parameters.symbols());
    let scope = none.inside(parameters);
    if lasts {
        durative(alloc, &scope, fields, at)
    } else {
        instant(alloc, &scope, fields, at)
    }
}

/// The action, or the durative one, in the list at `at`: what stands behind its first word.
pub fn read_action(
    alloc: Global,
    lasts: bool,
    trees: &[Tree],
    symbols: &Symbols,
    at: u32,
) -> Result<Action, SyntaxFault>
    ensures { Gives action_view result
        (action_of (symbols_view symbols.now) lasts (shapes trees.now)) }
{
    let [first, rest @ ..] = trees else {
        return Err(SyntaxFault::Shape(at));
    };
    let Tree::Word(word) = first else {
        return Err(SyntaxFault::Shape(at));
    };
    let name = name_of(alloc, word.text, at)?;
    let fields = read_fields(alloc, lasts, rest, at)?;
    let parameters = parameters(alloc, &symbols.types, &fields, at)?;
    let none = Scope::of(symbols);
    let known = Variables::new(alloc, &none, parameters)?;
    let body = body(alloc, lasts, &known, &fields, at)?;
    Ok(Action {
        name,
        parameters: known.into_items(),
        body,
    })
}
