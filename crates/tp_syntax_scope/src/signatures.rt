//! Predicates and functions as a domain declares them.

ghost use Rattle.std.specs.Prelude.{◌≡◌, ◌&&◌, map, false, string_bytes};
ghost use Rattle.tp_syntax_ast.specs.TypedLists.{is_dash};
ghost use Rattle.tp_text.specs.Trees.{shape_of};
ghost use Rattle.tp_syntax_ast.specs.Domains.{signature_at, signatures_of, is_number, numeric_signatures, named_once};
ghost use Rattle.tp_syntax_scope.specs.SignatureViews.{predicates_in, functions_in};
ghost use Rattle.tp_syntax_ast.specs.Symbols.{signature_view};
ghost use Rattle.tp_syntax_types.specs.TypeViews.{types_view};
ghost use Rattle.tp_syntax_ast.specs.Terms.{shapes};
ghost use Rattle.tp_syntax_ast.specs.Gives.{Gives};

use crate::term::name_of;
use crate::typed::{is_dash, parameters_of, place};
use std::alloc::Global;
use tp_syntax_ast::{LeftOutPart, Signature, SyntaxFault, is_word};
use tp_syntax_types::table::second_named;
use tp_syntax_types::types::Types;
use tp_text::Tree;

// A signature in the section at `above`.
fn signature_at(
    alloc: Global,
    types: &Types,
    tree: &Tree,
    above: u32,
) -> Result<Signature, SyntaxFault>
    ensures { Gives signature_view result
        (signature_at (types_view types.now) (shape_of tree.now)) }
{
    let (items, at) = match tree {
        Tree::Word(_) => return Err(SyntaxFault::Shape(above)),
        Tree::List { items, span } => (items.as_slice(), span.start),
    };
    let [first, vars @ ..] = items else {
        return Err(SyntaxFault::Shape(at));
    };
    let Tree::Word(word) = first else {
        return Err(SyntaxFault::Shape(at));
    };
    let name = name_of(alloc, word.text, at)?;
    let parameters = parameters_of(alloc, types, vars, at)?;
    Ok(Signature { name, parameters })
}

fn signatures_of(
    alloc: Global,
    types: &Types,
    trees: &[Tree],
    at: u32,
) -> Result<Vec<Signature>, SyntaxFault>
    ensures { Gives
        (λ v. map signature_view v.items) result
        (signatures_of (types_view types.now) (shapes trees.now)) }
{
    let mut signatures = Vec::new(alloc);
    for tree in trees {
        signatures.push(signature_at(alloc, types, tree, at)?)?;
    }
    Ok(signatures)
}

fn is_number(tree: &Tree) -> bool
    ensures { result ≡ is_number (shape_of tree.now) }
{
    match tree {
        Tree::Word(token) => is_word(token.text, "number"),
        Tree::List { .. } => false,
    }
}

// Whether the type of a run begins.
fn ends_run(may_end: bool, tree: &Tree) -> bool
    ensures { result ≡ (may_end && is_dash (shape_of tree.now)) }
{
    may_end && is_dash(tree)
}

// Signatures, of which runs may end in `- number`.
fn numeric_signatures(
    alloc: Global,
    types: &Types,
    trees: &[Tree],
    at: u32,
) -> Result<Vec<Signature>, SyntaxFault>
    ensures { Gives (λ v. map signature_view v.items) result
        (numeric_signatures (types_view types.now) false (shapes trees.now)) }
{
    let mut signatures = Vec::new(alloc);
    let mut rest = trees;
    let mut may_end = false;
    'signatures: while let [first, others @ ..] = rest {
        if ends_run(may_end, first) {
            let [kind, more @ ..] = others else {
                return Err(SyntaxFault::Shape(at));
            };
            if !is_number(kind) {
                return Err(SyntaxFault::LeftOut(at, LeftOutPart::ObjectFluent));
            }
            may_end = false;
            rest = more;
        } else {
            signatures.push(signature_at(alloc, types, first, at)?)?;
            may_end = true;
            rest = others;
        }
    }
    Ok(signatures)
}

// Where the name of a signature stands, by its number.
fn name_place(trees: &[Tree], number: usize, at: u32) -> u32 {
    let mut left = number;
    for tree in trees {
        if let Tree::List { items, .. } = tree {
            if left == 0 {
                return items.first().map_or(at, |name| place(name));
            }
            left -= 1;
        }
    }
    at
}

// Signatures that were read from these trees, each named once.
fn named_once(
    alloc: Global,
    signatures: Vec<Signature>,
    trees: &[Tree],
    at: u32,
) -> Result<Vec<Signature>, SyntaxFault>
    ensures { Gives (λ v. map signature_view v.items) result
        (named_once (map signature_view signatures.items)) }
{
    if let Some(number) = second_named(alloc, &signatures)? {
        return Err(SyntaxFault::Twice(name_place(trees, number, at)));
    }
    Ok(signatures)
}

/// Predicates, each once: the members of the section at `at`.
pub fn predicates_in(
    alloc: Global,
    types: &Types,
    trees: &[Tree],
    at: u32,
) -> Result<Vec<Signature>, SyntaxFault>
    ensures { Gives (λ v. map signature_view v.items) result
        (predicates_in (types_view types.now) (shapes trees.now)) }
{
    let signatures = signatures_of(alloc, types, trees, at)?;
    named_once(alloc, signatures, trees, at)
}

/// Functions, each once: the members of the section at `at`.
pub fn functions_in(
    alloc: Global,
    types: &Types,
    trees: &[Tree],
    at: u32,
) -> Result<Vec<Signature>, SyntaxFault>
    ensures { Gives (λ v. map signature_view v.items) result
        (functions_in (types_view types.now) (shapes trees.now)) }
{
    let signatures = numeric_signatures(alloc, types, trees, at)?;
    named_once(alloc, signatures, trees, at)
}
