//! The grounding of conditions, effects and bodies: quantifiers expanded over the objects, what
//! `and` and `forall` join instantiated, atoms and fluents by number.
//!
//! - `numbers`: the numbers of atoms and fluents by their words
//! - `expressions`, `conditions`: expressions and conditions under a binding
//! - `changes`, `parts`, `effects`, `constraints`, `bodies`: effects and bodies under a binding
#![tactic(auto)]

mod bodies;
mod changes;
mod conditions;
mod constraints;
mod effects;
mod expressions;
mod numbers;
mod parts;

pub use bodies::body;
pub use conditions::closed_condition;
pub use numbers::{atom, fluent};
