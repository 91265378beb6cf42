//! An executive: a network that takes commands, as one machine. Each of its calls is one step of
//! that machine (`specs/Step.antt`), and a list of commands is a run of it (`specs/Run.antt`).
//!
//! - `command`: what an executive is asked, and what it answers.
//! - `refusal`: why a command changes nothing.
//! - `executive`: the executive itself, over any network that takes bounds between events.
//! - `own_bounds`: how the bounds of a plan come into force.
//! - `firsts`: in which order many bounds come into force.
//! - `copying`: what a network holds, as a setting.
//! - `running`: whole commands, and lists of them.
#![tactic(auto)]

mod command;
mod copying;
mod executive;
mod firsts;
mod own_bounds;
mod refusal;
mod running;

pub use command::{Answer, Command, Kind, Report};
pub use executive::{Executive, GREATEST_WEIGHT, is_point};
pub use firsts::entry_order;
pub use refusal::Refusal;
pub use running::{perform, perform_all, runs_tell_the_truth};
