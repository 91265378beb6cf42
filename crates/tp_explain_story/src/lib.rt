//! The story that a domain, a problem and a plan tell: which events come when, what each does and
//! wants, and what holds at a tick. All of it is read from the parse trees, so that each part has
//! its place in its text and the names that stand there. By it the explanations of verdicts, bounds
//! and runs.
//!
//! - `forms`: what lists begin with, sections and fields
//! - `typed`, `world`: typed lists, types and objects; what a domain and a problem declare
//! - `leaves`: the single conditions, effects and constraints of a composite one, under each
//!   binding of its variables
//! - `printing`: conditions and atoms with objects filled in
//! - `mentions`: the atoms and fluents that a condition mentions
//! - `facts`, `truth`: what holds, and who wrote it last; values of expressions and conditions
//! - `plan`, `events`: the steps of a plan; what each of their events does, wants and reads
//! - `interference`: why two events interfere
//! - `story`: all of it, and the facts before and after a tick
//!
//! Why a plan is not valid:
//!
//! - `texts`: the texts of a plan, and how events and steps are named
//! - `values`: what a condition wants, and the values of what it mentions
//! - `conditions`: conditions, invariants and goals that do not hold
//! - `durations`: durations that are not allowed, and what reads what has no value
//! - `changes`: effects that clash, and events that interfere
//! - `verdict`: the line of a verdict, and its explanation
//!
//! Bounds in words, and the answers of a run, by a picture of the network that is kept from the
//! lines that go in and come out:
//!
//! - `names`: events, by the texts that a network has of them
//! - `causes`, `bounds`: why the network of a plan has a bound; bounds in words
//! - `picture`, `windows`: events, bounds, lags, and what happened; least and greatest moments
//! - `watch`: a run that is watched, answer by answer
//! - `lines`: the lines that go in
//! - `commands`, `edges`, `refusals`: lines that are no command; conflicts; commands refused
//! - `reports`: what is to come, and why a run ends without a plan
#![tactic(auto)]

mod bounds;
mod causes;
mod changes;
mod commands;
mod conditions;
mod durations;
mod edges;
mod events;
mod facts;
mod forms;
mod interference;
mod leaves;
mod lines;
mod mentions;
mod names;
mod picture;
mod plan;
mod printing;
mod refusals;
mod reports;
mod story;
mod texts;
mod truth;
mod typed;
mod values;
mod verdict;
mod watch;
mod windows;
mod world;

pub use bounds::tell_network;
pub use names::{Names, Numbered};
pub use story::Story;
pub use texts::Texts;
pub use verdict::explain_verdict;
pub use watch::{RunPlan, Watch};
