//! Conditions, expressions, effects and events as data.

/// The greatest magnitude of a number, 10^15.
pub const GREATEST_NUMBER: u64 = 1_000_000_000_000_000;

/// How two numbers are compared.
#[derive(Clone, Copy)]
pub enum Comparison {
    Less,
    AtMost,
    Equal,
    AtLeast,
    Greater,
}

/// A number in terms of a state.
#[derive(Drop)]
pub enum Expr {
    Number(i64),
    Fluent(u32),
    Duration,
    Negated(Box<Expr>),
    Sum(Box<Expr>, Box<Expr>),
    Difference(Box<Expr>, Box<Expr>),
    Product(Box<Expr>, Box<Expr>),
}

/// What is asked of a state.
#[derive(Drop)]
pub enum Cond {
    Atom(u32),
    Compare(Comparison, Box<Expr>, Box<Expr>),
    Not(Box<Cond>),
    And(Vec<Cond>),
    Or(Vec<Cond>),
}

/// The assignment operator of a numeric effect.
#[derive(Clone, Copy)]
pub enum Change {
    Assign,
    ScaleUp,
    Increase,
    Decrease,
}

/// One numeric effect.
#[derive(Drop)]
pub struct NumericEffect {
    pub fluent: u32,
    pub change: Change,
    pub value: Expr,
}

/// One comparison of a duration constraint.
#[derive(Drop)]
pub struct Limit {
    pub how: Comparison,
    pub value: Expr,
}

/// What happens at one moment of an action.
#[derive(Drop)]
pub struct GroundEvent {
    pub condition: Cond,
    pub adds: Vec<u32>,
    pub deletes: Vec<u32>,
    pub writes: Vec<NumericEffect>,
    /// For a start, the action's duration constraint, else empty.
    pub constraint: Vec<Limit>,
}

/// What an action does: one event, or a start and an end with an invariant between them.
#[derive(Drop)]
pub enum Body {
    Instant(GroundEvent),
    Durative(GroundEvent, GroundEvent, Cond),
}
