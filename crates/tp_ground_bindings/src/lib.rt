//! What variables may stand for, and their bindings, one after another.
//!
//! - `objects`, `universe`, `noting`: the types and objects of a problem, and the objects that fit
//!   lists of types
//! - `odometer`, `rows`: the bindings of variables
//! - `environment`: what variables stand for under a binding
#![tactic(auto)]

mod environment;
mod noting;
mod objects;
mod odometer;
mod rows;
mod universe;

pub use environment::{Env, object_for, words_in};
pub use noting::universe_of;
pub use rows::{Rows, lists_of, rows_of};
pub use universe::{Universe, choices, copied, refill};
