//! `run`: the network of a valid plan takes the commands of a reader, and the plan of the run is
//! written after the answers; without and with a journal.
//!
//! - `starting`: the executive over a plan's network, with the lags of its events
//! - `answering`: the answers to all commands of a reader
//! - `plan_of_run`: the plan of a run, after the answers
//! - `run`: all of it, of the plan that arguments name
//! - `run_lines`: the lines of what stops a run
//! - `journaling`: the answers to all commands, with their journal
//! - `journaled_run`: all of it, with the journal file of a name and the exit status
//! - `stop_lines`: the lines of what stops such a run
#![tactic(auto)]

mod answering;
mod journaled_run;
mod journaling;
mod plan_of_run;
mod run;
mod run_lines;
mod starting;
mod stop_lines;

pub use journaled_run::run_run_journal;
pub use plan_of_run::tell_run;
pub use run::run_run;
pub use run_lines::{RunStop, network_line, run_line};
pub use starting::start;
pub use stop_lines::{RunJournalStop, run_stop_line};
