//! Files and streams of the host, journal files, and fault lines.
//!
//! - `files`: files under names, and the texts that they hold
//! - `faults`: the table of faults
//! - `fault_lines`: fault lines, with their exit statuses
//! - `host`: the files of the host, and the arguments of its call
//! - `logs`: the trait of what creates and keeps journal files
//! - `host_logs`: the journal files of the host
#![tactic(auto)]

mod fault_lines;
mod faults;
mod files;
mod host;
mod host_logs;
mod logs;

pub use fault_lines::{Detail, FaultLine, complain, complain_more};
pub use faults::{Fault, OUT_OF_ORDER, Part, REFUSED};
pub use files::{FileFault, Files, open_text, read_text};
pub use host::{
    CallFault, HostFile, HostFiles, HostReader, OpenInput, STANDARD_INPUT, StandardInput,
    refuse_call, words_of_call,
};
pub use host_logs::{HostLog, HostLogs};
pub use logs::Logs;
