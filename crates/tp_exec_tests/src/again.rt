//! Tests of the calls that may want memory: where a growth is refused, the same call is made once
//! more, and answers as one that nothing preceded. `scripts/refused-memory` lets each request of a
//! test fail in turn; with ample memory the tests show that each call has an answer.
//!
//! - `worlds`: the tasks of the small domains
//! - `texts`: words and trees
//! - `tasks`: what is told of a task, and happenings
//! - `plans`: plans that are read, judged and looked for
//! - `plans_of_runs`: networks of plans, and the plans of completed runs
//! - `networks`: settings, and executives over both networks for all bounds
//! - `journals`: heads of journals, and audits
//! - `agents`: owners, splits, parts, and runs of parts that are joined

mod agents;
mod journals;
mod networks;
mod plans;
mod plans_of_runs;
mod tasks;
mod texts;
mod worlds;
