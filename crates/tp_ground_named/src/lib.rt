//! The tasks of the ground actions for which names and objects ask.
//!
//! - `groups`: rows of names by their first names
//! - `picks`: rows of names that are picked out of all
//! - `instances`: the type-correct bindings for which names and objects ask
//! - `named`: the task of them
//! - `laws`: what holds of such tasks
#![tactic(auto)]

mod groups;
mod instances;
mod laws;
mod named;
mod picks;

pub use laws::chosen_actions_are_readable;
pub use named::{Begun, begin, ground_named};
