//! How ground tasks are made of domains and problems.
//!
//! - `numbers`: whether a number of a domain or a problem passes the limit
//! - `beginning`: the initial state
//! - `grounding`: whether ground actions are few enough, and the body of one
//! - `instances`, `tasks`: actions with objects for their parameters, and the task of some of them
//! - `grounder`: the task of all
//! - `reached`: the task of those that the relaxed reach keeps
//! - `laws`: what holds of the tasks that are made
#![tactic(auto)]

pub mod beginning;
mod grounder;
pub mod grounding;
mod instances;
mod laws;
pub mod numbers;
mod reached;
mod tasks;

pub use grounder::{check, ground, universe_within};
pub use instances::{Instance, lower_instances, name_instances};
pub use laws::{actions_are_readable, reached_actions_are_readable};
pub use numbers::has_great_number;
pub use reached::ground_reached;
pub use tasks::{LoweredTask, task_of};
pub use tp_task::{GroundFault, Task, TooManyKind};
