//! The split of the network of the plan in a file among the agents in another: the intervals of the
//! events that bounds join with events of other agents.
//!
//! - `interval_lines`: the lines of intervals
//! - `part_lines`: the lines by which an agent's part is made from nothing
//! - `plan_settings`: the setting of a plan's network
//! - `dividing`: the lines of the intervals of a plan's events
//! - `splitting`: all of it, of the files that words name
//! - `stops`: why a split stopped, and the line of it
#![tactic(auto)]

mod dividing;
mod interval_lines;
mod part_lines;
mod plan_settings;
mod splitting;
mod stops;

pub use interval_lines::intervals_text;
pub use splitting::run_split;
pub use stops::{SplitStop, split_line};
