//! Duration constraints.

use crate::expr::Expr;
use crate::words::Comparison;

/// What the duration of a step must be. The empty conjunction allows each.
#[derive(Debug, PartialEq, Drop)]
pub enum DurationRule {
    And(Vec<DurationRule>),
    /// The duration compared with a value: `AtMost` is at most the value.
    Limit(Comparison, Expr),
}
