//! What stands behind a fault line with `--explain`.
//!
//! - `arguments`: words that are those of no command, where nothing else is said of them
//! - `scripts`: the head of commands
//! - `journals`: lines that are no journal's
//! - `steps`, `lines`: the parts of a line of a plan, and what is wrong with one that is no step
//! - `actions`, `times`: what is wrong with the words of a step, its time and its duration
//! - `events`, `owners`: the events of a plan, and their agents
//! - `tasks`: tasks that are too large
//! - `calls`, `contents`: the command of a call and its files; what these hold
//! - `fault_lines`: the parts of a fault line
//! - `worlds`: the domain and the problem of a call, as far as they can be read
//! - `texts`, `plans`: faults of domains and problems; of tasks, plans and the agents of events
//! - `explain`: all of it
#![tactic(auto)]

mod actions;
mod arguments;
mod calls;
mod contents;
mod events;
mod explain;
mod fault_lines;
mod journals;
mod lines;
mod owners;
mod plans;
mod scripts;
mod steps;
mod tasks;
mod texts;
mod times;
mod worlds;

pub use calls::{Call, call_of};
pub use contents::{ReadText, read_text, text_of};
pub use explain::put_fault_line;
