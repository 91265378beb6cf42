//! What a state of the guided search costs: how many events a relaxed plan from it has, and that
//! plan. In the relaxed task propositions never become false again; operators add them.
//!
//! - `interval`: ranges of numbers, expressions over them, and comparisons of them
//! - `relaxed`: propositions and operators
//! - `comparing`: comparisons as propositions, and how a change of a fluent may help them
//! - `conjuncts`: what conditions need; `events`: the operators of events; `making`, `linking`: all
//!   of the relaxed task
//! - `costs`: what propositions and operators cost, by the sum or the greatest of what is needed;
//!   `numbers`: what operators do to ranges of fluents, and which comparisons that helps
//! - `chosen`: the operators of the relaxed plan; `wanted`, `counted`: what it wants, its starts
//!   and its value
//! - `standing`: which start needs which, and how long the plan takes
//! - `heuristic`: all of it
#![tactic(auto)]

mod chosen;
mod comparing;
mod conjuncts;
mod costs;
mod counted;
mod events;
mod heuristic;
mod interval;
mod linking;
mod making;
mod numbers;
mod relaxed;
mod standing;
mod wanted;

pub use costs::DEAD;
pub use counted::Wanted;
pub use heuristic::Heuristic;
pub use interval::{INF, Interval, value};
pub use making::build;
pub use relaxed::{Compared, Relaxed};
