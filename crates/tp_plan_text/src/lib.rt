//! Plans of a ground task, and their texts.
//!
//! - `plans`: plans and their steps
//! - `tokens`, `forms`, `task_words`, `reading`, `printing`: plans as texts
//! - `names`: the names and objects for which a text asks
#![tactic(auto)]

mod forms;
mod names;
mod plans;
mod printing;
mod reading;
mod task_words;
mod tokens;

pub use forms::forms_are_written;
pub use names::names_in;
pub use plans::{Plan, Step};
pub use printing::{plans_are_read, print_plan};
pub use reading::{PlanFault, read_plan};
