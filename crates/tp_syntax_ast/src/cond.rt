//! Conditions.

use crate::expr::Expr;
use crate::term::{Atom, Term};
use crate::typed_list::TypedList;
use crate::words::Comparison;

/// A condition. The empty conjunction always holds.
#[derive(Debug, PartialEq, Drop)]
pub enum Cond {
    And(Vec<Cond>),
    Or(Vec<Cond>),
    Not(Box<Cond>),
    Imply(Box<Cond>, Box<Cond>),
    Forall(TypedList, Box<Cond>),
    Exists(TypedList, Box<Cond>),
    Atom(Atom),
    Same(Term, Term),
    Compare(Comparison, Expr, Expr),
}
