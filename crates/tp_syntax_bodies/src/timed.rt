//! Conditions and effects at the time specifiers of a durative action.

ghost use Rattle.std.specs.Prelude.{◌≡◌, map, option_map};
ghost use Rattle.tp_text.specs.Trees.{shape_of};
ghost use Rattle.tp_syntax_ast.specs.Terms.{shapes};
ghost use Rattle.tp_syntax_scope.specs.ScopeViews.{scope_view, symbols_of};
ghost use Rattle.tp_syntax_ast.specs.Conditions.{Condition, condition_of};
ghost use Rattle.tp_syntax_ast.specs.CondViews.{cond_view};
ghost use Rattle.tp_syntax_ast.specs.Effects.{specifier_at, specified_tree, specified, effect_at, timed_condition_of, timed_effect_of};
ghost use Rattle.tp_syntax_ast.specs.EffectViews.{effect_view, timed_view, timed_condition_view, timed_effect_view};
ghost use Rattle.tp_syntax_ast.specs.Gives.{Gives};

use crate::cond::read_cond;
use crate::joined::{Inner, read_joined};
use std::alloc::Global;
use tp_syntax_ast::{
    Cond, Effect, Joined, LeftOutPart, SimpleEffect, SyntaxFault, TimeSpecifier, Timed, TimedCond,
    TimedEffect, is_word, specifier_of,
};
use tp_syntax_scope::{Scope, both};
use tp_text::{Token, Tree};

#[tactic(auto, unfolding(tp_syntax_ast::specs::Effects::specifier_at))]
fn specifier_at(word: &Token, tree: &Tree) -> Option<TimeSpecifier>
    ensures { result ≡ specifier_at word.now.text.now (shape_of tree.now) }
{
    match tree {
        Tree::Word(token) => specifier_of(word.text, token.text),
        Tree::List { .. } => None,
    }
}

// The specifier and the tree behind it.
#[tactic(auto, unfolding(tp_syntax_ast::specs::Effects::specified_tree))]
fn specified_tree<'t, 'a>(
    word: &Token,
    args: &'t [Tree<'a>],
) -> Option<(TimeSpecifier, &'t Tree<'a>)>
    ensures { option_map (λ p. (p.0, shape_of p.1.now)) result
        ≡ specified_tree word.now.text.now (shapes args.now) }
{
    let (moment, tree) = both(args)?;
    let specifier = specifier_at(word, moment)?;
    Some((specifier, tree))
}

// The innermost list that names the time that runs on.
fn continuous_place(tree: &Tree) -> Option<u32> {
    let Tree::List { items, span } = tree else {
        return None;
    };
    for item in items {
        match item {
            Tree::Word(token) => {
                if is_word(token.text, "#t") {
                    return Some(span.start);
                }
            }
            Tree::List { .. } => {
                if let Some(place) = continuous_place(item) {
                    return Some(place);
                }
            }
        }
    }
    None
}

// Whether a tree is the word for the time that runs on.
fn is_time(tree: &Tree) -> bool {
    match tree {
        Tree::Word(token) => is_word(token.text, "#t"),
        Tree::List { .. } => false,
    }
}

// What is wrong with the list at `at` that begins with the word and has no specifier.
fn unspecified_fault(word: &Token, args: &[Tree], at: u32) -> SyntaxFault {
    if is_word(word.text, "preference") {
        return SyntaxFault::LeftOut(at, LeftOutPart::Preference);
    }
    if is_word(word.text, "when") {
        return SyntaxFault::LeftOut(at, LeftOutPart::When);
    }
    for tree in args {
        if is_time(tree) {
            return SyntaxFault::LeftOut(at, LeftOutPart::Continuous);
        }
        if let Some(place) = continuous_place(tree) {
            return SyntaxFault::LeftOut(place, LeftOutPart::Continuous);
        }
    }
    SyntaxFault::Shape(at)
}

impl Inner for Timed<Cond> {
    ghost Seen = { Rattle.tp_syntax_ast.specs.Effects.Timed Condition };

    ghost seen = { timed_view cond_view };

    ghost spelled = { λ σ duration within. specified (λ m. condition_of σ within) };

    #[tactic(auto, unfolding(tp_syntax_ast::specs::Effects::specified))]
    fn read(
        alloc: Global,
        _duration: bool,
        scope: &Scope,
        word: &Token,
        args: &[Tree],
        at: u32,
    ) -> Result<Timed<Cond>, SyntaxFault> {
        let Some((specifier, tree)) = specified_tree(word, args) else {
            return Err(unspecified_fault(word, args, at));
        };
        let what = read_cond(alloc, tree, scope, at)?;
        Ok(Timed { specifier, what })
    }
}

// An effect has a start and an end alone.
fn effect_at(
    alloc: Global,
    scope: &Scope,
    specifier: TimeSpecifier,
    tree: &Tree,
    at: u32,
) -> Result<Effect, SyntaxFault>
    ensures { Gives effect_view result
        (effect_at (symbols_of scope.now) (scope_view scope.now) specifier
        (shape_of tree.now)) }
{
    match specifier {
        TimeSpecifier::OverAll => Err(SyntaxFault::Shape(at)),
        TimeSpecifier::AtStart | TimeSpecifier::AtEnd => read_joined(alloc, tree, true, scope, at),
    }
}

impl Inner for Timed<Effect> {
    ghost Seen = { Rattle.tp_syntax_ast.specs.Effects.Timed Rattle.tp_syntax_ast.specs.Effects.Effect };

    ghost seen = { timed_view effect_view };

    ghost spelled = { λ σ duration within. specified (effect_at σ within) };

    #[tactic(auto, unfolding(tp_syntax_ast::specs::Effects::specified))]
    fn read(
        alloc: Global,
        _duration: bool,
        scope: &Scope,
        word: &Token,
        args: &[Tree],
        at: u32,
    ) -> Result<Timed<Effect>, SyntaxFault> {
        let Some((specifier, tree)) = specified_tree(word, args) else {
            return Err(unspecified_fault(word, args, at));
        };
        let what = effect_at(alloc, scope, specifier, tree, at)?;
        Ok(Timed { specifier, what })
    }
}

/// The condition of a durative action that a member of the list at `at` spells.
pub fn read_timed_cond(
    alloc: Global,
    tree: &Tree,
    scope: &Scope,
    at: u32,
) -> Result<TimedCond, SyntaxFault>
    ensures { Gives timed_condition_view result
        (timed_condition_of (symbols_of scope.now) (scope_view scope.now) (shape_of tree.now)) }
{
    read_joined(alloc, tree, false, scope, at)
}

/// The effect of a durative action that a member of the list at `at` spells.
pub fn read_timed_effect(
    alloc: Global,
    tree: &Tree,
    scope: &Scope,
    at: u32,
) -> Result<TimedEffect, SyntaxFault>
    ensures { Gives timed_effect_view result
        (timed_effect_of (symbols_of scope.now) (scope_view scope.now) (shape_of tree.now)) }
{
    read_joined(alloc, tree, true, scope, at)
}
