//! Effects.

use crate::expr::Expr;
use crate::joined::Joined;
use crate::term::Atom;
use crate::words::Writing;

/// One change: an atom that holds or does not hold afterwards, or a fluent with a new value.
#[derive(Debug, PartialEq, Drop)]
pub enum SimpleEffect {
    Add(Atom),
    Delete(Atom),
    Write(Writing, Atom, Expr),
}

/// What an event changes.
pub type Effect = Joined<SimpleEffect>;
