//! Search for plans, by rising number of goal conjuncts that are missing, up to a budget of
//! expanded nodes. Where no node is left, plans of instantaneous steps at tick 0 are looked at.
//!
//! - `seeking`: nodes taken from a frontier and expanded, `search`
//! - `progress`: how far it is, told as it goes on
//! - `certify`: what is found is judged by the validator
//! - `found`: what a search answers
//! - `at_once`, `arena`: the sets of instantaneous actions that can happen at once, and the plans
//!   that they are
//! - `rows`, `sides`: which actions interfere
//! - `laws`: what is known of plans, whatever the search does
#![tactic(auto)]

mod arena;
mod at_once;
mod certify;
mod found;
mod laws;
mod progress;
mod rows;
mod seeking;
mod sides;

pub use at_once::judge;
pub use certify::certified;
pub use found::Found;
pub use laws::{plans_at_once_are_met, unreachable_has_no_plan};
pub use seeking::{search, search_with};
pub use tp_search_frontier::SearchFault;
