//! Effects.

ghost use Rattle.std.specs.Prelude.{◌≡◌, false};
ghost use Rattle.tp_text.specs.Trees.{shape_of};
ghost use Rattle.tp_syntax_ast.specs.Terms.{shapes, atom_view};
ghost use Rattle.tp_syntax_scope.specs.Fits.{signatures_of};
ghost use Rattle.tp_syntax_scope.specs.ScopeViews.{scope_view, symbols_of};
ghost use Rattle.tp_syntax_ast.specs.Expressions.{terms_for};
ghost use Rattle.tp_syntax_ast.specs.Effects.{SimpleEffect, atom_at, deleted, written, changed, simple_effect_of, effect_of};
ghost use Rattle.tp_syntax_ast.specs.EffectViews.{simple_effect_view, effect_view};
ghost use Rattle.tp_syntax_ast.specs.Gives.{Gives};

use crate::expr::read_value;
use crate::joined::{Inner, read_joined};
use std::alloc::Global;
use tp_syntax_ast::{
    Atom, Effect, EffectWord, Expr, Joined, LeftOutPart, SimpleEffect, SyntaxFault, Writing,
    effect_word_of,
};
use tp_syntax_scope::{Kind, Scope, atom_in, both, only};
use tp_text::{Token, Tree};

/// The atom that a member of the list at `at` spells, its name one of these.
pub fn atom_at(
    alloc: Global,
    scope: &Scope,
    kind: Kind,
    tree: &Tree,
    at: u32,
) -> Result<Atom, SyntaxFault>
    ensures { Gives atom_view result (atom_at (symbols_of scope.now)
        (signatures_of kind (symbols_of scope.now)) (scope_view scope.now) (shape_of tree.now)) }
{
    let (items, at) = match tree {
        Tree::Word(_) => return Err(SyntaxFault::Shape(at)),
        Tree::List { items, span } => (items.as_slice(), span.start),
    };
    let [first, args @ ..] = items else {
        return Err(SyntaxFault::Shape(at));
    };
    let Tree::Word(word) = first else {
        return Err(SyntaxFault::Shape(at));
    };
    atom_in(alloc, scope, kind, word, args, at)
}

#[tactic(auto, unfolding(tp_syntax_ast::specs::Effects::deleted))]
fn deleted(
    alloc: Global,
    scope: &Scope,
    args: &[Tree],
    at: u32,
) -> Result<SimpleEffect, SyntaxFault>
    ensures { Gives simple_effect_view result
        (deleted (symbols_of scope.now) (scope_view scope.now) (shapes args.now)) }
{
    let Some(tree) = only(args) else {
        return Err(SyntaxFault::Shape(at));
    };
    let atom = atom_at(alloc, scope, Kind::Predicate, tree, at)?;
    Ok(SimpleEffect::Delete(atom))
}

#[tactic(auto, unfolding(tp_syntax_ast::specs::Effects::written))]
fn written(
    alloc: Global,
    duration: bool,
    scope: &Scope,
    writing: Writing,
    args: &[Tree],
    at: u32,
) -> Result<SimpleEffect, SyntaxFault>
    ensures { Gives simple_effect_view result (written (symbols_of scope.now)
        (terms_for (scope_view scope.now) duration) writing (shapes args.now)) }
{
    let Some((fluent, value)) = both(args) else {
        return Err(SyntaxFault::Shape(at));
    };
    let atom = atom_at(alloc, scope, Kind::Function, fluent, at)?;
    let value = read_value(alloc, value, scope, duration, at)?;
    Ok(SimpleEffect::Write(writing, atom, value))
}

#[tactic(auto, unfolding(tp_syntax_ast::specs::Effects::changed))]
fn changed(
    alloc: Global,
    change: EffectWord,
    duration: bool,
    scope: &Scope,
    word: &Token,
    args: &[Tree],
    at: u32,
) -> Result<SimpleEffect, SyntaxFault>
    ensures { Gives simple_effect_view result (changed change (symbols_of scope.now) duration
        (scope_view scope.now) word.now.text.now (shapes args.now)) }
{
    let writing = match change {
        EffectWord::Other => {
            let atom = atom_in(alloc, scope, Kind::Predicate, word, args, at)?;
            return Ok(SimpleEffect::Add(atom));
        }
        EffectWord::Not => return deleted(alloc, scope, args, at),
        EffectWord::When => return Err(SyntaxFault::LeftOut(at, LeftOutPart::When)),
        EffectWord::ScaleDown => return Err(SyntaxFault::LeftOut(at, LeftOutPart::ScaleDown)),
        EffectWord::Assign => Writing::Assign,
        EffectWord::Increase => Writing::Increase,
        EffectWord::Decrease => Writing::Decrease,
        EffectWord::ScaleUp => Writing::ScaleUp,
    };
    written(alloc, duration, scope, writing, args, at)
}

impl Inner for SimpleEffect {
    ghost Seen = { Rattle.tp_syntax_ast.specs.Effects.SimpleEffect };

    ghost seen = { simple_effect_view };

    ghost spelled = { simple_effect_of };

    #[tactic(auto, unfolding(tp_syntax_ast::specs::Effects::simple_effect_of))]
    fn read(
        alloc: Global,
        duration: bool,
        scope: &Scope,
        word: &Token,
        args: &[Tree],
        at: u32,
    ) -> Result<SimpleEffect, SyntaxFault> {
        changed(
            alloc,
            effect_word_of(word.text),
            duration,
            scope,
            word,
            args,
            at,
        )
    }
}

/// The effect that a member of the list at `at` spells.
pub fn read_effect(
    alloc: Global,
    tree: &Tree,
    scope: &Scope,
    at: u32,
) -> Result<Effect, SyntaxFault>
    ensures { Gives effect_view result
        (effect_of (symbols_of scope.now) false (scope_view scope.now) (shape_of tree.now)) }
{
    read_joined(alloc, tree, false, scope, at)
}
