//! Commands and their answers.

use crate::refusal::Refusal;
use tp_bounds::{Bound, BoundId};

/// Where the bounds of an executive come from.
#[derive(Clone, Copy, Debug, PartialEq, Eq)]
pub enum Kind {
    /// Each was added by a command.
    Bare,
    /// The first ones, its own, are those of a plan, and all of these are in force.
    Kept,
    /// The same, but some bound of the plan was withdrawn, even if an equal one was added again.
    Altered,
}

/// What an executive is asked. Moments are in ticks.
#[derive(Clone, Copy, Debug, PartialEq, Eq)]
pub enum Command {
    /// Go on to this moment.
    Advance(u32),
    /// Bring this bound into force.
    Add(Bound),
    /// Take the bound of this identifier out of force.
    Withdraw(BoundId),
    /// Tell the least and the greatest moment of this event.
    Window(u16),
    /// Fix this event at the moment that is now.
    Dispatch(u16),
    /// This event happened at this moment, as was observed.
    Happened(u16, u32),
    /// Tell the state of the run.
    Report,
}

/// The state of a run.
#[derive(Debug, Drop)]
pub struct Report {
    /// The moment that is now, in ticks.
    pub now: u32,
    /// Where the bounds come from.
    pub kind: Kind,
    /// For each event its moment, dispatched or that of the pointwise least schedule, and whether
    /// it is dispatched.
    pub moments: Vec<(u32, bool)>,
    /// Whether every event is dispatched.
    pub done: bool,
}

/// What an executive answers.
#[derive(Debug, Drop)]
pub enum Answer {
    /// The command was carried out.
    Accepted,
    /// The bound is in force under this identifier.
    Named(BoundId),
    /// The least and the greatest moment of the event.
    Told(u32, u32),
    /// The state of the run.
    Reported(Report),
    /// Nothing was changed, for this reason.
    Refused(Refusal),
}
