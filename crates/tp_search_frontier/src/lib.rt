//! The frontier of a search for plans: its nodes, their order and their children. What it finds is
//! not proved to be a plan: its caller has each plan judged.
//!
//! - `fault`: what keeps a search from an answer
//! - `store`: nodes, moments, states
//! - `waits`: the moments that waits made, by hash
//! - `queues`: the nodes that are still to be taken
//! - `starts`: what can start in a state, and with which duration
//! - `touched`: the conjuncts of the goal that an action may change
//! - `current`: the node that is expanded
//! - `frontier`: taking and expanding
#![tactic(auto)]

mod current;
mod fault;
mod frontier;
mod queues;
mod starts;
mod store;
mod touched;
mod waits;

pub use fault::SearchFault;
pub use frontier::Frontier;
pub use store::Chosen;
