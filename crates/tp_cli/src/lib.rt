//! The program `tempo`: a network of events and bounds, and commands on it, come in as lines, and
//! the answers go out as lines; or the plan in a file is judged, and the verdict goes out, or the
//! network of all its schedules, or a drawing of it, or commands on that network are answered, and
//! the plan of the run goes out; or a plan is searched for; or the journal in a file is audited, or
//! the run goes on where it ends; or the plan's network is split among agents, and their intervals
//! go out, or the network of one.
//!
//! - `words`: the doing of what the words of a call ask for, over any files, reader and writers
//! - `desk`: the files of a call
//! - `check`, `judging`, `judgements`: the judging of the plan in a file, and what is told of it
//! - `net`: the network of the plan in a file
//! - `stops`: why a command on a plan stopped, and its line
//! - `streams`: a run over readers and writers of std
//!
//! The words of a call are read by `tp_cli_args`. Commands on a network of bounds alone are those
//! of `tp_cli_bare`, files and fault lines those of `tp_cli_files`, tasks and verdicts of files
//! those of `tp_cli_inputs`, runs of plans those of `tp_cli_run`, audits and runs that go on those
//! of `tp_cli_audit`, searches those of `tp_cli_plan`, splits those of `tp_cli_split`, drawings
//! those of `tp_cli_draw`.
#![tactic(auto)]

mod check;
mod desk;
mod judgements;
mod judging;
mod net;
mod stops;
mod streams;
mod words;

pub use desk::Desk;
pub use stops::{PlanStop, stop_line};
pub use streams::{Ended, Refused, refuse_streams, run_streams};
pub use tp_cli_args::{
    NoRequest, Request, audit_calls, bare_calls, bare_log_calls, bare_resume_calls, check_calls,
    draw_calls, net_calls, part_calls, plan_audit_calls, plan_calls, read_words,
    requests_are_distinct, run_calls, run_log_calls, run_resume_calls, solve_calls, split_calls,
};
pub use words::run_words;
