//! `audit`: a journal in a file, judged against the executive of its head, or against that of a
//! plan's network. With `--resume` all of an audited journal goes to a new one, and the commands of
//! the input are answered where it ends.
//!
//! - `audit_lines`: what hinders an audit, and its lines
//! - `auditing`: the head of a journal in a file, and its audit against an executive
//! - `verdicts`: the lines of what was found
//! - `bare`: the executive that a head describes, the audit of its journal, and the exit status
//! - `starting`: the executive over a plan's network with the lags of a journal's head
//! - `plan_auditing`: the audit against that executive, and what is written of it
//! - `run`: all of it, of the files that arguments name, with the exit status
//! - `stop_lines`: the lines of what hinders it
//! - `old`: the bytes of the journal in a file, up to its last whole pair, and its audit
//! - `going`: the new journal, and the answers to the commands of the input
//! - `resume_stops`: why a run did not go on to its end, and the line of it
//! - `bare_resume`: all of a run that goes on, on a network of bounds alone
//! - `run_resume_stops`, `run_resume`: the same on the network of a plan
#![tactic(auto)]

mod audit_lines;
mod auditing;
mod bare;
mod bare_resume;
mod going;
mod old;
mod plan_auditing;
mod resume_stops;
mod run;
mod run_resume;
mod run_resume_stops;
mod starting;
mod stop_lines;
mod verdicts;

pub use audit_lines::{AuditStop, audit_stop_line};
pub use auditing::{Found, audit_in, head_in};
pub use bare::{bare_start, is_bare, run_bare_audit};
pub use bare_resume::run_bare_resume;
pub use run::run_plan_audit;
pub use run_resume::run_run_resume;
pub use starting::{lags_suit, plan_start};
pub use verdicts::say;
