//! The validator: whether a plan is valid for a task, and its first fault where it is not.
//!
//! - `placing`: the steps of a plan with what their actions do, and their events
//! - `agenda`: the events in the order of their moments, tick after tick
//! - `durations`: how many ticks a duration constraint allows, whether a step's duration is lawful
//! - `ticks`: what happens at one tick, or the first fault there
//! - `verdicts`: tick after tick, `validate`
#![tactic(auto)]

mod agenda;
mod durations;
mod placing;
mod ticks;
mod verdicts;

pub use agenda::{Tick, agenda_of, next_tick};
pub use durations::{Ticks, lawful_ticks};
pub use placing::{PlacedEvent, PlannedStep, event_refs, placed_events, planned_steps};
pub use ticks::Fault;
pub use verdicts::{ValidPlan, ValidateFault, Verdict, validate};
