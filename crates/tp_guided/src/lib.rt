//! The guided search for a plan, in rounds that go on from call to call.
//!
//! - `search`: one round: two queues of nodes, and chains of walks
//! - `deadlines`: whether what running steps need at their ends can come before them
//! - `rounds`: what changes from round to round
//! - `ready`: a task as the rounds search it
//! - `guided`: the rounds of a task
#![tactic(auto)]

mod deadlines;
mod guided;
mod ready;
mod rounds;
mod search;

pub use guided::{Guided, Proposal};
