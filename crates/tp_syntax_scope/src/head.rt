//! What stands at the head of a domain or a problem: its name, and what it asks for.

ghost use Rattle.std.specs.Prelude.{◌≡◌, ◌∷◌, map, option_map, string_bytes};
ghost use Rattle.tp_text.specs.Trees.{shape_of};
ghost use Rattle.tp_syntax_ast.specs.Words.{IsLower};
ghost use Rattle.tp_syntax_ast.specs.Terms.{shapes};
ghost use Rattle.tp_syntax_ast.specs.Domains.{defined, named, kind_and_name, requirement_at, requirements_in};
ghost use Rattle.tp_syntax_ast.specs.Gives.{Gives};

use crate::lists::{both, first_of};
use crate::term::{lowered, name_of};
use crate::typed::place;
use std::alloc::Global;
use tp_syntax_ast::{SyntaxFault, is_word};
use tp_text::Tree;

#[tactic(auto, unfolding(tp_syntax_ast::specs::Domains::kind_and_name))]
fn kind_and_name(
    alloc: Global,
    kind: &str,
    first: &Tree,
    second: &Tree,
    at: u32,
) -> Result<String, SyntaxFault>
    requires { IsLower kind.now }
    ensures { Gives (λ s. string_bytes s) result
        (kind_and_name kind.now (shape_of first.now) (shape_of second.now)) }
{
    let Tree::Word(word) = first else {
        return Err(SyntaxFault::Shape(at));
    };
    let Tree::Word(name) = second else {
        return Err(SyntaxFault::Shape(at));
    };
    if !is_word(word.text, kind) {
        return Err(SyntaxFault::Shape(at));
    }
    name_of(alloc, name.text, at)
}

/// The name in `(KIND NAME)`, which stands in the list at `at`.
#[tactic(auto, unfolding(tp_syntax_ast::specs::Domains::named))]
pub fn named(alloc: Global, kind: &str, tree: &Tree, at: u32) -> Result<String, SyntaxFault>
    requires { IsLower kind.now }
    ensures { Gives (λ s. string_bytes s) result (named kind.now (shape_of tree.now)) }
{
    let Tree::List { items, span } = tree else {
        return Err(SyntaxFault::Shape(at));
    };
    let Some((first, second)) = both(items) else {
        return Err(SyntaxFault::Shape(span.start));
    };
    kind_and_name(alloc, kind, first, second, span.start)
}

/// Where the name stands in `(KIND NAME)`.
pub fn name_place(tree: &Tree) -> u32 {
    match tree {
        Tree::Word(token) => token.span.start,
        Tree::List { items, span } => match items.as_slice() {
            [_, name, ..] => place(name),
            _ => span.start,
        },
    }
}

// A word that begins with ':'.
#[tactic(auto, unfolding(tp_syntax_ast::specs::Domains::requirement_at))]
fn requirement_at(alloc: Global, tree: &Tree, at: u32) -> Result<String, SyntaxFault>
    ensures { Gives (λ s. string_bytes s) result (requirement_at (shape_of tree.now)) }
{
    let Tree::Word(token) = tree else {
        return Err(SyntaxFault::Shape(at));
    };
    let [first, ..] = token.text.as_bytes() else {
        return Err(SyntaxFault::Shape(at));
    };
    if *first != b':' {
        return Err(SyntaxFault::Shape(at));
    }
    Ok(lowered(alloc, token.text)?)
}

/// The words of `:requirements`, a section at `at`.
pub fn requirements_in(alloc: Global, trees: &[Tree], at: u32) -> Result<Vec<String>, SyntaxFault>
    ensures { Gives (λ v. map string_bytes v.items) result (requirements_in (shapes trees.now)) }
{
    let mut words = Vec::new(alloc);
    for tree in trees {
        words.push(requirement_at(alloc, tree, at)?)?;
    }
    Ok(words)
}

/// What stands behind `define`: the first tree of it, and the rest.
#[tactic(auto, unfolding(tp_syntax_ast::specs::Domains::defined))]
pub fn defined<'t, 'a>(tree: &'t Tree<'a>) -> Option<(&'t Tree<'a>, &'t [Tree<'a>])>
    ensures { option_map (λ p. (shape_of p.0.now, shapes p.1.now)) result
        ≡ defined (shape_of tree.now) }
{
    let Tree::List { items, .. } = tree else {
        return None;
    };
    let [first, more @ ..] = items.as_slice() else {
        return None;
    };
    let Tree::Word(word) = first else {
        return None;
    };
    if !is_word(word.text, "define") {
        return None;
    }
    first_of(more)
}
