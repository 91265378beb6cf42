//! Expressions.

use crate::term::Atom;

/// An expression. `Duration` is that of the step whose effect names it.
#[derive(Debug, PartialEq, Drop)]
pub enum Expr {
    Number(i64),
    Fluent(Atom),
    Sum(Box<Expr>, Box<Expr>),
    Negated(Box<Expr>),
    Difference(Box<Expr>, Box<Expr>),
    Product(Box<Expr>, Box<Expr>),
    Duration,
}
