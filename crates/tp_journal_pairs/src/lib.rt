//! Journals of executives: how they are written, and whether an answer is one that may stand there.
//!
//! - `writing`: lines of commands answered, with their journal.
//! - `going_on`: further lines answered, whose pairs follow those of a journal.
//! - `gathered`: a text that is gathered before it is written.
//! - `faults`: what ends that early.
//! - `refusals`: the first refusal that applies to a command, without the command.
//! - `edges`: the edges of a reason, read from its words.
//! - `reasons`: whether edges are a reason against a command, in three walks.
//! - `page`: bytes that are written to be compared.
//! - `judging`: whether an answer is one that the machine allows.
#![tactic(auto)]

mod edges;
mod faults;
mod gathered;
mod going_on;
mod judging;
mod page;
mod reasons;
mod refusals;
mod writing;

pub use edges::{begins_with, read_edge};
pub use faults::JournalFault;
pub use going_on::journal_on;
pub use judging::{Finding, judge};
pub use page::{head_text, is_text_of_command};
pub use writing::journal;
