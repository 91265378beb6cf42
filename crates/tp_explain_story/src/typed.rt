//! Typed lists, types and objects.

use std::alloc::{AllocError, Global};
use tp_explain_text::Tree;

/// A name of a typed list, with its type or types, if these are written.
#[derive(Clone, Copy)]
pub struct Typed<'a> {
    pub(crate) name: &'a str,
    pub(crate) kind: Option<&'a Tree>,
}

/// A variable, and the object that stands for it, or itself where it stays a variable.
#[derive(Clone, Copy)]
pub struct Binding<'a> {
    pub variable: &'a str,
    pub object: &'a str,
}

/// Gives a type to all names from a place on.
fn set_kind<'a>(names: &mut [Typed<'a>], from: usize, kind: &'a Tree) {
    for typed in names.iter_mut().skip(from) {
        typed.kind = Some(kind);
    }
}

/// The names of a typed list.
pub(crate) fn read_typed<'a>(
    alloc: Global,
    items: &'a [Tree],
) -> Result<Vec<Typed<'a>>, AllocError> {
    let mut names = Vec::new(alloc);
    let mut from = 0usize;
    let mut is_kind = false;
    for item in items {
        if is_kind {
            set_kind(&mut names, from, item);
            from = names.len();
            is_kind = false;
        } else if item.word() == "-" {
            is_kind = true;
        } else {
            let name = item.word();
            names.push(Typed { name, kind: None })?;
        }
    }
    Ok(names)
}

/// Whether a type is another one, or below it.
pub(crate) fn is_below(types: &[Typed], kind: &str, wanted: &str) -> bool {
    if wanted == "object" {
        return true;
    }
    let mut at = kind;
    for _ in 0..=types.len() {
        if at == wanted {
            return true;
        }
        match types.iter().find(|typed| typed.name == at) {
            Some(typed) => match typed.kind {
                Some(parent) => at = parent.word(),
                None => return false,
            },
            None => return false,
        }
    }
    false
}

/// Whether an object has one of the types that a variable may have.
pub(crate) fn fits<'a>(types: &[Typed<'a>], object: Typed<'a>, wanted: Option<&'a Tree>) -> bool {
    let Some(wanted) = wanted else {
        return true;
    };
    let kind = match object.kind {
        Some(kind) => kind.word(),
        None => "object",
    };
    if wanted.items().is_empty() {
        return is_below(types, kind, wanted.word());
    }
    for choice in wanted.rest() {
        if is_below(types, kind, choice.word()) {
            return true;
        }
    }
    false
}
