//! Types of terms, and which of them fit.

use crate::declarations::{Declared, Kind, World, declarations_of, find_named};
use std::alloc::{AllocError, Global};
use std::fmt;
use tp_explain_text::{Tree, Words};

/// The types that a domain declares.
#[derive(Drop)]
pub struct Types<'t> {
    pub declared: Vec<Declared<'t>>,
}

impl<'t> Types<'t> {
    /// Those of a domain.
    pub fn new(alloc: Global, world: &World<'t>) -> Result<Types<'t>, AllocError> {
        Ok(Types {
            declared: declarations_of(alloc, world, Kind::Type)?,
        })
    }

    /// The type above a type; `object` where none is named.
    pub fn parent(&self, name: &str) -> Option<&'t str> {
        let item = find_named(self.declared.as_slice(), name)?;
        Some(first_type(item.types))
    }

    /// Whether a type is another one, or below it.
    pub fn is_below(&self, below: &str, above: &str) -> bool {
        let mut current = below;
        for _ in 0..=self.declared.len() {
            if current.eq_ignore_ascii_case(above) {
                return true;
            }
            let Some(parent) = self.parent(current) else {
                return false;
            };
            current = parent;
        }
        false
    }
}

/// The types that stand behind `-`: one word, or those of `(either TYPE ..)`.
fn type_trees<'t>(types: Option<&'t Tree>) -> &'t [Tree] {
    match types {
        Some(tree) => tree.rest(),
        None => &[],
    }
}

/// The type of one word that stands behind `-`, or `object`.
fn first_type<'t>(types: Option<&'t Tree>) -> &'t str {
    match types {
        Some(tree @ Tree::Word { .. }) => tree.word(),
        _ => "object",
    }
}

/// Whether a type is one of some, or below one.
fn is_below_one<'t>(types: &Types<'_>, below: &str, above: Option<&'t Tree>) -> bool {
    let several = type_trees(above);
    if several.is_empty() {
        return types.is_below(below, first_type(above));
    }
    for tree in several {
        if types.is_below(below, tree.word()) {
            return true;
        }
    }
    false
}

/// Whether something of some types may stand for a parameter of others: each of its types is one of
/// those, or below one.
pub fn fits<'t>(
    types: &Types<'_>,
    argument: Option<&'t Tree>,
    parameter: Option<&'t Tree>,
) -> bool {
    let several = type_trees(argument);
    if several.is_empty() {
        return is_below_one(types, first_type(argument), parameter);
    }
    for tree in several {
        if !is_below_one(types, tree.word(), parameter) {
            return false;
        }
    }
    true
}

/// Types as they are written behind `-`, between backticks.
#[derive(Clone, Copy)]
pub struct Typed<'t>(pub Option<&'t Tree>);

impl fmt::Display for Typed<'_> {
    fn fmt<W: fmt::Write>(&self, f: &mut fmt::Formatter<W>) -> fmt::Result {
        match self.0 {
            Some(tree @ Tree::List { .. }) => write!(f, "`{}`", Words(tree.items())),
            types => write!(f, "`{}`", first_type(types)),
        }
    }
}
