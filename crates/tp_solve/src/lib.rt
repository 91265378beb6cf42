//! Guided planning: what the guided search proposes is judged, scheduled and perhaps bettered;
//! where it proposes no valid plan, the search by the count of unmet goal conjuncts answers with
//! what is left of the budget.
//!
//! - `least`: a plan at the least schedule of its network
//! - `board`: what is told of a plan as it is found
//! - `seeking`: the plans that the guided search proposes, first and better ones
//! - `solving`: all of it, `solve`
#![tactic(auto)]

mod board;
mod least;
mod seeking;
mod solving;

pub use least::makespan;
pub use solving::{Proposed, Wishes, propose_with, search_rest, solve, solve_with};
pub use tp_search::{Found, SearchFault};
