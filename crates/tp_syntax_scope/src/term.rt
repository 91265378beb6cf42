//! Names, variables and terms.

ghost use Rattle.std.specs.Prelude.{◌≡◌, string_bytes, map, IfOk};
ghost use Rattle.std.specs.List.{list_all};
ghost use Rattle.tp_syntax_ast.specs.Words.{lower};
ghost use Rattle.tp_syntax_ast.specs.Terms.{is_name, is_inner, name_of, is_variable, variable_of, term_of, term_at, terms_of, shapes, term_view};
ghost use Rattle.tp_text.specs.Trees.{shape_of};
ghost use Rattle.tp_syntax_ast.specs.Gives.{Gives};

use std::alloc::{AllocError, Global};
use tp_syntax_ast::{Atom, SyntaxFault, Term, is_name};
use tp_text::Tree;

/// The word in lower case.
pub fn lowered(alloc: Global, word: &str) -> Result<String, AllocError>
    ensures { IfOk result (λ s. string_bytes s ≡ lower word.now) }
{
    let mut name = String::from_str(alloc, word)?;
    name.make_ascii_lowercase();
    Ok(name)
}

/// The name that a word is, in lower case. A word that is none is at fault at `at`.
#[tactic(auto, unfolding(tp_syntax_ast::specs::Terms::name_of))]
pub fn name_of(alloc: Global, word: &str, at: u32) -> Result<String, SyntaxFault>
    ensures { Gives (λ s. string_bytes s) result (name_of word.now) }
{
    if !is_name(word.as_bytes()) {
        return Err(SyntaxFault::Shape(at));
    }
    Ok(lowered(alloc, word)?)
}

pub fn is_variable(word: &[u8]) -> bool
    ensures { result ≡ is_variable word.now }
{
    match word {
        [] => false,
        [first, rest @ ..] => *first == b'?' && is_name(rest),
    }
}

/// The variable that a word is, in lower case and with its '?'.
#[tactic(auto, unfolding(tp_syntax_ast::specs::Terms::variable_of))]
pub fn variable_of(alloc: Global, word: &str, at: u32) -> Result<String, SyntaxFault>
    ensures { Gives (λ s. string_bytes s) result (variable_of word.now) }
{
    if !is_variable(word.as_bytes()) {
        return Err(SyntaxFault::Shape(at));
    }
    Ok(lowered(alloc, word)?)
}

// The term that a word is.
#[tactic(auto, unfolding(tp_syntax_ast::specs::Terms::term_of))]
fn term_of(alloc: Global, word: &str, at: u32) -> Result<Term, SyntaxFault>
    ensures { Gives term_view result (term_of word.now) }
{
    if is_variable(word.as_bytes()) {
        return Ok(Term::Variable(lowered(alloc, word)?));
    }
    Ok(Term::Object(name_of(alloc, word, at)?))
}

#[tactic(auto, unfolding(tp_syntax_ast::specs::Terms::term_at))]
fn term_at(alloc: Global, tree: &Tree, at: u32) -> Result<Term, SyntaxFault>
    ensures { Gives term_view result (term_at (shape_of tree.now)) }
{
    match tree {
        Tree::Word(token) => term_of(alloc, token.text, at),
        Tree::List { .. } => Err(SyntaxFault::Shape(at)),
    }
}

/// The terms that the members of the list at `at` are.
pub fn terms_of(alloc: Global, trees: &[Tree], at: u32) -> Result<Vec<Term>, SyntaxFault>
    ensures { Gives (λ v. map term_view v.items) result (terms_of (shapes trees.now)) }
{
    let mut terms = Vec::with_capacity(alloc, trees.len())?;
    for tree in trees {
        terms.push(term_at(alloc, tree, at)?)?;
    }
    Ok(terms)
}
