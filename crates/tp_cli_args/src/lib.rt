//! The words of a call of `tempo`: the commands that it has, and what words ask for.
//!
//! - `commands`: the commands of the program, their words and their help, as `clap` is told of them
//! - `requests`: what a call may ask for
//! - `arguments`: what the words of a call ask for, `read_words`, and laws about it
//!
//! No file is opened here: words name files, as `PlanWords` of `tp_cli_inputs` and `SearchWords` of
//! `tp_cli_plan` hold them.
#![tactic(auto)]

mod arguments;
mod commands;
mod requests;

pub use arguments::{
    NoRequest, audit_calls, bare_calls, bare_log_calls, bare_resume_calls, check_calls, draw_calls,
    help_calls, net_calls, part_calls, plan_audit_calls, plan_calls, plan_progress_calls,
    read_words, requests_are_distinct, run_calls, run_log_calls, run_resume_calls, solve_calls,
    split_calls,
};
pub use requests::Request;
