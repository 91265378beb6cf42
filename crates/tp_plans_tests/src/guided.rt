//! Values and relaxed plans of small tasks, worked out by hand.
//!
//! - `kinds`: a domain with a proposition of each kind, and values of its goals
//! - `plans`: relaxed plans, with and without running steps
//! - `seeking`: plans that the guided search finds, and in how many expansions

mod kinds;
mod plans;
mod seeking;
