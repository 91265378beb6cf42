//! A ground task as the guided search reads it: conditions, effects and durations as flat lists,
//! numbered for the search.
//!
//! - `spans`, `lists`, `queue`, `mixing`: runs of a vector, lists by number, a queue by whole keys,
//!   and a hash
//! - `values`: numbers in terms of a state, and comparisons of them
//! - `task`: conditions, events, actions and the task; `writing`, `conditions`, `events`,
//!   `compiled`: how it is made
//! - `places`: how atoms and fluents are numbered
//! - `state`, `holding`: a state, what events do to it, and whether conditions hold in it
//! - `marks`: whether events interfere
//! - `watched`: for each atom the actions that wait for it
#![tactic(auto)]

mod compiled;
mod conditions;
mod events;
mod holding;
mod lists;
mod marks;
mod mixing;
mod places;
mod queue;
mod spans;
mod state;
mod task;
mod values;
mod watched;
mod writing;

pub use lists::{Lists, lists_of};
pub use marks::Marks;
pub use mixing::{Mixer, mix_pair};
pub use queue::Buckets;
pub use spans::{NONE, Span, part, small};
pub use state::{State, units};
pub use task::{Action, Event, Form, Rule, Running, Task, Word, Write, WriteTo};
pub use values::{Compare, GREATEST, Ins, Op, UNDEFINED, Value};
pub use watched::Watched;
