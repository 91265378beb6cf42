//! A temporal network split among agents that never speak to each other: temporal decoupling
//! (Hunsberger 2002). Each agent gets its own events with the bounds among them, and an interval
//! for each event that a bound joins with another agent's; whatever the agents choose within, the
//! bounds between them are met, and their runs join into one of the whole.
//!
//! - `owners`: which agent each event is for; `reading`: the same from a text.
//! - `fault`: what keeps a setting from being split, an agent from its part, and commands from
//!   being carried out.
//! - `crosses`: bounds that join the events of two agents.
//! - `gathering`: the least schedule of a setting.
//! - `intervals`: the interval of each event, from the least schedule.
//! - `divided`: a setting that is split; `splitting`: how it is.
//! - `parts`: the network of each agent.
//! - `interleaving`: commands that come to the executives of all agents, in whatever order.
//! - `joining`: the runs of all agents, joined.
#![tactic(auto)]

ghost use Rattle.tp_agents.specs.Decoupled.{Decouples, IsWide, HasPartSchedules};

mod crosses;
mod divided;
mod fault;
mod gathering;
mod interleaving;
mod intervals;
mod joining;
mod owners;
mod parts;
mod reading;
mod splitting;

pub use divided::Split;
pub use fault::{CommandFault, PartFault, SplitFault};
pub use interleaving::{executives_keep_apart, perform_each};
pub use joining::join_runs;
pub use owners::{MOST_AGENT, Owners};
pub use parts::part;
pub use reading::read_owners;
pub use splitting::split;

/// What the intervals of a split are good for: every choice of moments inside them meets every
/// bound between agents; none can be made wider by one tick at either end, the others as they are;
/// and each agent's part has a schedule.
pub fn intervals_decouple(split: &Split)
    ensures decouples { Decouples split.now.setting split.now.owners.items
        split.now.intervals.items }
    ensures wide { IsWide split.now.setting split.now.owners.items split.now.intervals.items }
    ensures possible { HasPartSchedules split.now.setting split.now.owners.items
        split.now.intervals.items }
{
    // this call tells that the bounds in force suit the setting
    let _events = split.setting.events();
}
