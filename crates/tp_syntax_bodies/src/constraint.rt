//! Duration constraints.

ghost use Rattle.std.specs.Prelude.{◌≡◌, map};
ghost use Rattle.tp_text.specs.Trees.{shape_of};
ghost use Rattle.tp_syntax_ast.specs.Terms.{shapes};
ghost use Rattle.tp_syntax_scope.specs.ScopeViews.{scope_view, symbols_of};
ghost use Rattle.tp_syntax_ast.specs.Effects.{is_duration, is_start, limited, constraint_of, constraints_of, start_constraint};
ghost use Rattle.tp_syntax_ast.specs.ConstraintViews.{constraint_view};
ghost use Rattle.tp_syntax_ast.specs.Gives.{Gives};
ghost use Rattle.tp_syntax_ast.specs.Words.{duration_comparison};

use crate::expr::read_value;
use std::alloc::Global;
use tp_syntax_ast::{
    Comparison, CondWord, ConstraintForm, DurationRule, Expr, LeftOutPart, SyntaxFault,
    cond_word_of, constraint_form_of, is_word,
};
use tp_syntax_scope::{Scope, both};
use tp_text::{Token, Tree};

fn duration_comparison(head: CondWord) -> Option<Comparison>
    ensures { result ≡ duration_comparison head }
{
    match head {
        CondWord::AtMost => Some(Comparison::AtMost),
        CondWord::Equal => Some(Comparison::Equal),
        CondWord::AtLeast => Some(Comparison::AtLeast),
        _ => None,
    }
}

#[tactic(auto, unfolding(tp_syntax_ast::specs::Effects::is_duration))]
fn is_duration(tree: &Tree) -> bool
    ensures { result ≡ is_duration (shape_of tree.now) }
{
    match tree {
        Tree::Word(token) => is_word(token.text, "?duration"),
        Tree::List { .. } => false,
    }
}

#[tactic(auto, unfolding(tp_syntax_ast::specs::Effects::is_start))]
fn is_start(tree: &Tree) -> bool
    ensures { result ≡ is_start (shape_of tree.now) }
{
    match tree {
        Tree::Word(token) => is_word(token.text, "start"),
        Tree::List { .. } => false,
    }
}

#[tactic(auto, unfolding(tp_syntax_ast::specs::Effects::limited))]
fn limited(
    alloc: Global,
    scope: &Scope,
    word: &Token,
    args: &[Tree],
    at: u32,
) -> Result<DurationRule, SyntaxFault>
    ensures { Gives constraint_view result (limited
        (symbols_of scope.now) (scope_view scope.now) word.now.text.now (shapes args.now)) }
{
    let Some(comparison) = duration_comparison(cond_word_of(word.text)) else {
        return Err(SyntaxFault::Shape(at));
    };
    let Some((subject, value)) = both(args) else {
        return Err(SyntaxFault::Shape(at));
    };
    if !is_duration(subject) {
        return Err(SyntaxFault::Shape(at));
    }
    let value = read_value(alloc, value, scope, false, at)?;
    Ok(DurationRule::Limit(comparison, value))
}

// A duration constraint behind the word `at`: `start`, and one more, which is kept alone.
#[cycle(constraint)]
fn read_start(
    alloc: Global,
    args: &[Tree],
    scope: &Scope,
    at: u32,
) -> Result<DurationRule, SyntaxFault>
    ensures { Gives constraint_view result
        (start_constraint (symbols_of scope.now) (scope_view scope.now) (shapes args.now)) }
{
    let [moment, body @ ..] = args else {
        return Err(SyntaxFault::Shape(at));
    };
    if !is_start(moment) {
        return Err(specifier_fault(moment, at));
    }
    let [tree, more @ ..] = body else {
        return Err(SyntaxFault::Shape(at));
    };
    if !more.is_empty() {
        return Err(SyntaxFault::Shape(at));
    }
    read_constraint(alloc, tree, scope, at)
}

// What is wrong with the word behind `at`, where it is not `start`.
fn specifier_fault(moment: &Tree, at: u32) -> SyntaxFault {
    match moment {
        Tree::Word(token) if is_word(token.text, "end") => {
            SyntaxFault::LeftOut(at, LeftOutPart::AtEndDuration)
        }
        _ => SyntaxFault::Shape(at),
    }
}

#[cycle(constraint)]
fn read_constraints(
    alloc: Global,
    trees: &[Tree],
    scope: &Scope,
    at: u32,
) -> Result<Vec<DurationRule>, SyntaxFault>
    ensures { Gives (λ v. map constraint_view v.items) result
        (constraints_of (symbols_of scope.now) (scope_view scope.now) (shapes trees.now)) }
{
    let mut constraints = Vec::new(alloc);
    for tree in trees {
        constraints.push(read_constraint(alloc, tree, scope, at)?)?;
    }
    Ok(constraints)
}

/// The duration constraint that a member of the list at `at` spells.
#[cycle(constraint)]
pub fn read_constraint(
    alloc: Global,
    tree: &Tree,
    scope: &Scope,
    at: u32,
) -> Result<DurationRule, SyntaxFault>
    ensures { Gives constraint_view result
        (constraint_of (symbols_of scope.now) (scope_view scope.now) (shape_of tree.now)) }
{
    let (items, at) = match tree {
        Tree::Word(_) => return Err(SyntaxFault::Shape(at)),
        Tree::List { items, span } => (items.as_slice(), span.start),
    };
    let [first, args @ ..] = items else {
        return Ok(DurationRule::And(Vec::new(alloc)));
    };
    let Tree::Word(word) = first else {
        return Err(SyntaxFault::Shape(at));
    };
    match constraint_form_of(word.text) {
        ConstraintForm::And => {
            let constraints = read_constraints(alloc, args, scope, at)?;
            Ok(DurationRule::And(constraints))
        }
        ConstraintForm::At => read_start(alloc, args, scope, at),
        ConstraintForm::Limit => limited(alloc, scope, word, args, at),
    }
}
