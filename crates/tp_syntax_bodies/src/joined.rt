//! What is joined by `and` and `forall`.

ghost use Rattle.std.specs.Prelude.{◌≡◌, ℕ, List, Bool, Option, map};
ghost use Rattle.tp_text.specs.Shapes.{Shapes};
ghost use Rattle.tp_text.specs.Trees.{shape_of};
ghost use Rattle.tp_syntax_ast.specs.Terms.{shapes};
ghost use Rattle.tp_syntax_ast.specs.Symbols.{Declared, Symbols};
ghost use Rattle.tp_syntax_scope.specs.ScopeViews.{scope_view, symbols_of};
ghost use Rattle.tp_syntax_ast.specs.Parts.{joined_of, parts_of, bound_parts};
ghost use Rattle.tp_syntax_ast.specs.PartViews.{joined_view};
ghost use Rattle.tp_syntax_ast.specs.Gives.{Gives};

use std::alloc::Global;
use tp_syntax_ast::{Joined, Joint, SyntaxFault, Typed, joint_of};
use tp_syntax_scope::{Scope, Variables, parameters_at};
use tp_text::{Token, Tree};

/// What may stand inside: a list that begins with another word than `and` and `forall`.
pub trait Inner: Drop {
    /// What it shows.
    ghost Seen: { Type 0 };

    ghost seen: { Self → Seen };

    /// What the grammar has for the list.
    ghost spelled: { Symbols → Bool → List Declared → List ℕ → Shapes → Option Seen };

    /// Reads the list at `at` that begins with the word. An effect may name `?duration` or not.
    fn read(
        alloc: Global,
        duration: bool,
        scope: &Scope,
        word: &Token,
        args: &[Tree],
        at: u32,
    ) -> Result<Self, SyntaxFault>
        ensures { Gives seen result (spelled (symbols_of scope.now) duration
            (scope_view scope.now) word.now.text.now (shapes args.now)) };
}

#[cycle(joined)]
fn read_parts<P: Inner>(
    alloc: Global,
    trees: &[Tree],
    duration: bool,
    scope: &Scope,
    at: u32,
) -> Result<Vec<Joined<P>>, SyntaxFault>
    ensures { Gives
        (λ v. map (joined_view P.seen) v.items) result (parts_of (symbols_of scope.now).types
        (P.spelled (symbols_of scope.now) duration) (scope_view scope.now) (shapes trees.now)) }
{
    let mut parts = Vec::new(alloc);
    for tree in trees {
        parts.push(read_joined(alloc, tree, duration, scope, at)?)?;
    }
    Ok(parts)
}

// Variables, and parts in which they may be named.
#[cycle(joined)]
fn read_bound<P: Inner>(
    alloc: Global,
    args: &[Tree],
    duration: bool,
    scope: &Scope,
    at: u32,
) -> Result<Joined<P>, SyntaxFault>
    ensures { Gives (joined_view P.seen) result (bound_parts (symbols_of scope.now).types
        (P.spelled (symbols_of scope.now) duration) (scope_view scope.now) (shapes args.now)) }
{
    let [list, body @ ..] = args else {
        return Err(SyntaxFault::Shape(at));
    };
    let vars = parameters_at(alloc, &scope.symbols.types, list, at)?;
    let [tree, more @ ..] = body else {
        return Err(SyntaxFault::Shape(at));
    };
    if !more.is_empty() {
        return Err(SyntaxFault::Shape(at));
    }
    let known = Variables::new(alloc, scope, vars)?;
    let wider = Scope::inside(&*scope, &known);
    let inner = read_joined(alloc, tree, duration, &wider, at)?;
    Ok(Joined::Forall(known.into_items(), Box::new(alloc, inner)?))
}

/// The parts that a member of the list at `at` spells.
#[cycle(joined)]
pub fn read_joined<P: Inner>(
    alloc: Global,
    tree: &Tree,
    duration: bool,
    scope: &Scope,
    at: u32,
) -> Result<Joined<P>, SyntaxFault>
    ensures { Gives (joined_view P.seen) result
        (joined_of (symbols_of scope.now).types (P.spelled (symbols_of scope.now) duration)
        (scope_view scope.now) (shape_of tree.now)) }
{
    let (items, at) = match tree {
        Tree::Word(_) => return Err(SyntaxFault::Shape(at)),
        Tree::List { items, span } => (items.as_slice(), span.start),
    };
    let [first, args @ ..] = items else {
        return Ok(Joined::And(Vec::new(alloc)));
    };
    let Tree::Word(word) = first else {
        return Err(SyntaxFault::Shape(at));
    };
    match joint_of(word.text) {
        Joint::And => {
            let parts = read_parts(alloc, args, duration, scope, at)?;
            Ok(Joined::And(parts))
        }
        Joint::Forall => read_bound(alloc, args, duration, scope, at),
        Joint::One => Ok(Joined::One(P::read(alloc, duration, scope, word, args, at)?)),
    }
}
