//! `draw`: the plan in a file as a picture, or its run up to the end of a journal.
//!
//! - `draw_words`: the plan and the horizon that a call names
//! - `stops`: why nothing is drawn, and the line of it
//! - `beginning`: the executive over a plan's network, before anything happened
//! - `replaying`: the run of a journal, carried out anew
//! - `picture`: pictures, their layout and their text
//! - `scenes`: the scene of a plan, with what an executive tells
//! - `answers`: what is written: a picture, or why there is none
//! - `named`: the plan that words name, with the names of its domain and its problem
//! - `drawing`: the picture of a plan, and that of a journal's run
//! - `run`: all of it, of the files that words name, with the exit status
#![tactic(auto)]

mod answers;
mod beginning;
mod draw_words;
mod drawing;
mod named;
mod picture;
mod replaying;
mod run;
mod scenes;
mod stops;

pub use answers::Drawn;
pub use run::run_draw;
pub use stops::{DrawStop, draw_line};
