//! The plan in a file: the task of the domain and the problem in two other files, its verdict, and
//! the lines of what is at fault in the three.
//!
//! - `plan_words`: the names of the files, and how the plan's time is measured
//! - `draw_words`: the same of a picture, with the file of a journal
//! - `judging`: the task, and the verdict on the plan
//! - `judge_lines`: the lines of faults of texts, tasks and plans
//! - `verdict_lines`: the line of a plan that is not valid
//! - `laws`: that a plan is read as it was written
#![tactic(auto)]

mod draw_words;
mod judge_lines;
mod judging;
mod laws;
mod plan_words;
mod verdict_lines;

pub use draw_words::DrawWords;
pub use judge_lines::{file_line, judge_line, plan_line, syntax_line, task_line};
pub use judging::{JudgeFault, NamedPlan, domain_in, plan_in, plan_with, problem_in, verdict_of};
pub use laws::task_plans_are_read;
pub use plan_words::PlanWords;
pub use verdict_lines::write_invalid;
