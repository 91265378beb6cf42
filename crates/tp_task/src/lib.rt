//! Ground tasks of the planner, and what plans of them are.
//!
//! - `events`, `task`: conditions, expressions, effects, events and tasks as data; `laws`: what
//!   holds of their plans
//! - `truth`: whether parts of a condition hold, where they have a truth; whether effects mention
//!   the duration
//! - `labels`, `lookup`, `numbering`: names, atoms, fluents and actions by number
//! - `counting`, `rounds`: the delete-relaxed reach, the atoms that can be added if negated atoms
//!   and comparisons count as met: `reach`, `saturate`
//! - `fault`: why a problem has no task
#![tactic(auto)]

mod counting;
mod events;
mod fault;
mod labels;
mod laws;
mod lookup;
mod numbering;
mod rounds;
mod task;
pub mod truth;

pub use events::{
    Body, Change, Comparison, Cond, Expr, GREATEST_NUMBER, GroundEvent, Limit, NumericEffect,
};
pub use fault::{GroundFault, TooManyKind};
pub use laws::{schedules_are_valid, unreachable_has_no_plan, valid_without_fault};
pub use numbering::Numbering;
pub use rounds::{goal_in_reach, met, reach, saturate};
pub use task::{ActionId, AtomId, FluentId, Task};
pub use tp_bounds::MOST_STEPS;
pub use truth::{compared, compares};
