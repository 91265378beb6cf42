//! The task of those ground actions that can be of use, found by joins of static conditions: no
//! list of all bindings is made.
//!
//! - `keyed`, `keys`, `checks`: names with their keys, and tables of keys
//! - `rows`: all rows of names, one out of each of some lists, that the checks allow; no row is
//!   looked at beyond its first names that a table refuses
//! - `needed`, `facts`: the atoms that an action needs, the names that effects add, and `:init`
//! - `levels`, `candidates`: the bindings under which the static conditions are true at first
//! - `numbered`, `strong`, `closed`, `marks`: which of them can happen whole, in the delete
//!   relaxation
//! - `joined`: all of it
#![tactic(auto)]

mod candidates;
mod checks;
mod closed;
mod facts;
mod joined;
mod keyed;
mod keys;
mod levels;
mod marks;
mod needed;
mod numbered;
mod rows;
mod strong;

pub use candidates::MOST_CANDIDATES;
pub use joined::{JoinedTask, ground_joined};
