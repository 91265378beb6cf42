//! The space of a guided search, of moments and nodes, and the walk in it: it carries out a relaxed
//! plan from the loaded node as far as that goes, starting what can start, else waiting.
//!
//! All nodes of one tick that come from one wait share a moment: the state before the tick's
//! happening, the steps that run into it, and the starts that are possible in it. A node is a
//! moment and a set of starts. One node at a time is loaded: its own state, its events and the
//! steps that run past its tick.
//!
//! - `store`: all moments and nodes, by number
//! - `starts`: the starts that are possible at a moment
//! - `space`: the loaded node, and its children
//! - `pending`: the starts that are still to do, what they need and what they take
//! - `due`: the steps that run, by the ticks that they have left
//! - `walk`: the walk; `starting`: one start of it; `lengths`: the durations that it tries
#![tactic(auto)]

mod due;
mod lengths;
mod pending;
mod space;
mod starting;
mod starts;
mod store;
mod walk;

pub use lengths::Lengths;
pub use space::{Child, Space};
pub use store::{Choice, Chosen};
pub use walk::Walk;
