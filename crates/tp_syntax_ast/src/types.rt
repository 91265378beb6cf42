//! Types and those above them.

use std::rc::Rc;

/// A type and the one above it, whose name types that were declared together share.
#[derive(Debug, PartialEq, Drop)]
pub struct TypeName {
    pub name: String,
    pub parent: Rc<String>,
}
