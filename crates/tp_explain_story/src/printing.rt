//! Conditions, effects and atoms as text, with objects filled in.

use crate::forms::{Head, head_of_word};
use crate::typed::Binding;
use crate::world::World;
use std::alloc::AllocError;
use tp_explain_text::Tree;

/// The object that is bound to a word, or the word.
pub(crate) fn filled_in<'a>(word: &'a str, bindings: &[Binding<'a>]) -> &'a str {
    match bindings.iter().rev().find(|b| b.variable == word) {
        Some(binding) => binding.object,
        None => word,
    }
}

/// Puts members of a list behind a text, with a space between, and the parenthesis that ends them.
#[cycle(printing)]
fn put_items<'a>(
    items: &'a [Tree],
    world: &World<'a>,
    bindings: &[Binding<'a>],
    text: &mut String,
) -> Result<(), AllocError> {
    let mut is_first = true;
    for item in items {
        if !is_first {
            text.push_str(" ")?;
        }
        is_first = false;
        put_tree(item, world, bindings, text)?;
    }
    text.push_str(")")
}

/// Puts a tree behind a text, with objects in place of variables, but of those of quantifiers
/// inside it.
#[cycle(printing)]
pub(crate) fn put_tree<'a>(
    tree: &'a Tree,
    world: &World<'a>,
    bindings: &[Binding<'a>],
    text: &mut String,
) -> Result<(), AllocError> {
    let items = match tree {
        Tree::Word { .. } => return text.push_str(filled_in(tree.word(), bindings)),
        Tree::List { items, .. } => items.as_slice(),
    };
    text.push_str("(")?;
    if let [first, variables, ..] = items {
        if let Head::Forall | Head::Exists = head_of_word(first.word()) {
            let hidden = world.hidden(bindings, variables.items())?;
            return put_items(items, world, &hidden, text);
        }
    }
    put_items(items, world, bindings, text)
}

/// A tree as text.
pub(crate) fn text_of<'a>(
    tree: &'a Tree,
    world: &World<'a>,
    bindings: &[Binding<'a>],
) -> Result<String, AllocError> {
    let mut text = String::new(world.alloc);
    put_tree(tree, world, bindings, &mut text)?;
    Ok(text)
}
