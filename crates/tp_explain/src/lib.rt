//! The run of a call with `--explain`: what it writes without, and behind a fault, a verdict or a
//! refusal the lines that explain it, on standard error.
//!
//! - `asked`: whether words ask for explanations
//! - `heard`, `listening`: readers and writers that are listened to; a call over them
//! - `session`: what was heard of a call, and the lines that explain it
//! - `explained`: the run of a call whose streams are heard
//! - `narrator`: what is told of verdicts, answers to commands, the end of a run, networks
//! - `sources`, `networks`: the files of a plan, read once more; its network, made once more
//! - `explain`: what explains an answer that is no
//! - `plans`, `goals`: the answers of the searches; the conjunct of a goal that is out of reach
//! - `executives`, `journals`: the executive of a journal; the answer that is allowed on its line
//! - `heads`: the head of a journal that is not that of its network
//! - `taken`: bytes that are written to memory, lines of a journal
#![tactic(auto)]

mod asked;
mod executives;
mod explain;
mod explained;
mod goals;
mod heads;
mod heard;
mod journals;
mod listening;
mod narrator;
mod networks;
mod plans;
mod session;
mod sources;
mod taken;

pub use asked::explains;
pub use explained::{Streams, run_explained};
