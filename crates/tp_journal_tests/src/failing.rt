//! Tests of what stops a session and a journal, over devices that stop at each byte and at each
//! call.
//!
//! - `sessions`: the session that is stopped, and what is left behind it
//! - `serving`: sessions that a reader, a writer or the limit of bytes stops
//! - `journals`: sessions whose journal is kept

mod journals;
mod serving;
mod sessions;
