//! `bare`: commands on a network of bounds alone, without and with a journal.
//!
//! - `bare`: the head, the lags of the events, and the answers to the commands after them
//! - `serve_lines`: the lines of what ends it early
//! - `journaling`: the same with a log, which gets each pair before its answer is written
//! - `run`: the same with the journal file of a name, its exit status and its fault line
//! - `journal_lines`: the lines of what ends it early
#![tactic(auto)]

mod bare;
mod journal_lines;
mod journaling;
mod run;
mod serve_lines;

pub use bare::{BareFault, begin, run_bare};
pub use journal_lines::{JournalStop, journal_line, journal_stop_line};
pub use run::run_bare_journal;
pub use serve_lines::{bare_line, serve_line};
