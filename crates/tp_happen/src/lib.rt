//! Happenings of a ground task: what events do to a state when they happen at once.
//!
//! - `sets`: sets of numbers, a bit for each number up to the greatest
//! - `states`: a state, as the truth of atoms and the numbers of fluents
//! - `values`: what an expression is worth in a state
//! - `conditions`: whether a condition holds
//! - `events`, `lending`: events, and how a task lends them
//! - `interfere`: when two events interfere
//! - `faults`, `clashes`: the first fault of a happening
//! - `mentions`, `meetings`: what events mention, and the ways in which two of them interfere
//! - `sides`, `footprints`, `pairs`: what events read and write, and the first two that interfere
//! - `writes`: the effects of events, written one after another
//! - `happening`: all of it together, `apply`
//!
//! Offers plans and their texts (`tp_plan_text`) again.
#![tactic(auto)]

mod clashes;
mod conditions;
mod events;
mod faults;
mod footprints;
mod happening;
mod interfere;
mod lending;
mod meetings;
mod mentions;
mod pairs;
mod sets;
mod sides;
mod states;
mod values;
mod writes;

pub use conditions::holds;
pub use events::{Event, EventRef, Part};
pub use faults::{Outcome, Why, constraint_defined};
pub use footprints::{Footprint, footprints_of};
pub use happening::{ApplyFault, apply};
pub use interfere::{interferes, uses_duration};
pub use lending::event;
pub use meetings::Meeting;
pub use mentions::{atoms_of, fluents_of};
pub use sets::NumberSet;
pub use states::State;
pub use tp_plan_text::{
    Plan, PlanFault, Step, forms_are_written, plans_are_read, print_plan, read_plan,
};
pub use tp_task::compares;
pub use values::{Range, value};
