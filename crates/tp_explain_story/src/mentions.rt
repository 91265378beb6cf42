//! The atoms and fluents that a condition mentions.

use crate::forms::{Head, head_of_word, is_term};
use crate::printing::text_of;
use crate::typed::Binding;
use crate::world::World;
use std::alloc::AllocError;
use tp_explain_text::Tree;

/// An atom or a fluent, and where it stands in its text.
#[derive(Drop)]
pub struct Mention {
    pub name: String,
    pub place: usize,
    pub is_fluent: bool,
}

/// What of quantifiers counts as mentioned.
#[derive(Clone, Copy, Debug, PartialEq, Eq)]
pub enum Scope {
    /// What has no variable of a quantifier in it.
    Free,
    /// Also what they mention under each binding of their variables.
    Bound,
}

/// How a list is read.
#[derive(Clone, Copy, PartialEq, Eq)]
pub(crate) enum Sort {
    Condition,
    Expression,
}

/// What a list of a sort is.
enum Shape {
    /// A name and its terms.
    Name,
    /// Variables, and a condition.
    Quantifier,
    /// Members of a sort.
    Joined(Sort),
    /// An equality of objects.
    Same,
}

/// Whether all are objects or variables.
fn are_terms<'a>(items: &'a [Tree]) -> bool {
    for item in items {
        if !is_term(item) {
            return false;
        }
    }
    true
}

/// What a list is that begins with this word, and goes on like that.
fn shape_of<'a>(sort: Sort, head: Head, rest: &'a [Tree]) -> Shape {
    match (sort, head) {
        (Sort::Expression, Head::Plus | Head::Minus | Head::Times) => {
            Shape::Joined(Sort::Expression)
        }
        (Sort::Expression, _) => Shape::Name,
        (Sort::Condition, Head::And | Head::Or | Head::Not | Head::Imply) => {
            Shape::Joined(Sort::Condition)
        }
        (Sort::Condition, Head::Forall | Head::Exists) => Shape::Quantifier,
        (Sort::Condition, Head::Equal) if are_terms(rest) => Shape::Same,
        (
            Sort::Condition,
            Head::Equal | Head::Less | Head::AtMost | Head::AtLeast | Head::Greater,
        ) => Shape::Joined(Sort::Expression),
        _ => Shape::Name,
    }
}

/// Puts an atom or a fluent behind others, unless it has a variable in it.
fn put_name<'a>(
    tree: &'a Tree,
    world: &World<'a>,
    sort: Sort,
    bindings: &[Binding<'a>],
    mentions: &mut Vec<Mention>,
) -> Result<(), AllocError> {
    let name = text_of(tree, world, bindings)?;
    if name.as_bytes().contains(&b'?') {
        return Ok(());
    }
    let place = tree.place();
    let is_fluent = sort == Sort::Expression;
    mentions.push(Mention {
        name,
        place,
        is_fluent,
    })?;
    Ok(())
}

/// Puts what a condition or an expression mentions behind others, in the order of the text.
pub(crate) fn put_mentions<'a>(
    tree: &'a Tree,
    world: &World<'a>,
    sort: Sort,
    scope: Scope,
    bindings: &[Binding<'a>],
    mentions: &mut Vec<Mention>,
) -> Result<(), AllocError> {
    let Tree::List { items, .. } = tree else {
        return Ok(());
    };
    let [first, rest @ ..] = items.as_slice() else {
        return Ok(());
    };
    match shape_of(sort, head_of_word(first.word()), rest) {
        Shape::Same => Ok(()),
        Shape::Name => put_name(tree, world, sort, bindings, mentions),
        Shape::Joined(inside) => {
            for part in rest {
                put_mentions(part, world, inside, scope, bindings, mentions)?;
            }
            Ok(())
        }
        Shape::Quantifier => {
            let [variables, part, ..] = rest else {
                return Ok(());
            };
            let combos = combos_of(world, scope, bindings, variables.items())?;
            for combo in &combos {
                put_mentions(part, world, sort, scope, combo, mentions)?;
            }
            Ok(())
        }
    }
}

/// The bindings under which a quantifier's condition counts.
fn combos_of<'a>(
    world: &World<'a>,
    scope: Scope,
    bindings: &[Binding<'a>],
    variables: &'a [Tree],
) -> Result<Vec<Vec<Binding<'a>>>, AllocError> {
    match scope {
        Scope::Bound => world.each_binding(bindings, variables),
        Scope::Free => {
            let mut combos = Vec::new(world.alloc);
            combos.push(world.hidden(bindings, variables)?)?;
            Ok(combos)
        }
    }
}
