//! Tests of what searches for plans, on examples worked by hand.
//!
//! - `search`: the same answers of tasks of all actions and of those in reach
//! - `guided`: relaxed plans, and plans that the guided search finds
#![tactic(auto)]

#[cfg(test)]
mod guided;
#[cfg(test)]
mod search;
