//! The search for a plan of the problem in a file: the plan that was found, or the line that says
//! why there is none.
//!
//! - `search_words`: the names of the files, how time is measured, the budget and the order
//! - `found_text`: the text of what a search came to
//! - `tasks`: the task of the domain and the problem in files
//! - `stops`: why there is no answer, and the line of it
//! - `planning`: all of it, of the files that words name
#![tactic(auto)]

mod found_text;
mod planning;
mod search_words;
mod stops;
mod tasks;

pub use planning::run_plan;
pub use search_words::{Order, SearchWords};
pub use tasks::{Inputs, inputs_in, joined_task, reached_task};
pub use tp_solve::Wishes;
