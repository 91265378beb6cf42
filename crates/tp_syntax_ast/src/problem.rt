//! Problems of a domain.

use crate::cond::Cond;
use crate::symbols::Typed;
use crate::term::Atom;

/// What a problem says of its initial state.
#[derive(Debug, PartialEq, Drop)]
pub enum Initial {
    Holds(Atom),
    Fails(Atom),
    HasValue(Atom, i64),
}

/// A problem. All names are in lower case.
#[derive(Debug, PartialEq, Drop)]
pub struct Problem {
    pub name: String,
    pub objects: Vec<Typed>,
    pub initial: Vec<Initial>,
    pub goal: Cond,
}
