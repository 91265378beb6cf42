//! Readers of expressions, conditions, duration constraints and effects, the parts of an action's
//! body.
//!
//! - `expr`, `cond`: expressions, and conditions over them
//! - `constraint`: duration constraints
//! - `joined`: what `and` and `forall` join; `effect` and `timed` are read by it: effects, and
//!   conditions and effects at time specifiers
#![tactic(auto)]

mod cond;
mod constraint;
mod effect;
mod expr;
mod joined;
mod timed;

pub use cond::read_cond;
pub use constraint::read_constraint;
pub use effect::{atom_at, read_effect};
pub use expr::{begins_number, number_fault, outside_conditions};
pub use timed::{read_timed_cond, read_timed_effect};
