//! A setting that is split among agents.

ghost use Rattle.std.specs.Prelude.{◌≡◌, ◌↔◌, slice_index_or, None, IsSome, IsTrue};
ghost use Rattle.tp_agents.specs.Owners.{agent_count};
ghost use Rattle.tp_agents.specs.Crosses.{crosses_of, is_interface};
ghost use Rattle.tp_agents.specs.Splits.{IsSplit};

use crate::owners::agents;
use tp_bounds::Setting;

/// A setting in which nothing has happened, the agents of its events, the moments of its least
/// schedule, and the interval of each event that has a bound with an event of another agent.
#[derive(Drop)]
pub struct Split {
    pub setting: Setting,
    pub owners: Vec<u16>,
    pub least: Vec<u32>,
    pub intervals: Vec<Option<(u32, u32)>>,
    pub ghost split: { IsSplit setting owners.items least.items intervals.items },
}

impl Split {
    /// The first and the last moment that the agent of an event may choose for it, where a bound
    /// joins the event with one of another agent. It takes no memory.
    pub fn interval(&self, e: u16) -> Option<(u32, u32)>
        ensures interval { result ≡ slice_index_or self.now.intervals.items e None }
        ensures interface { IsSome result
            ↔ IsTrue (is_interface (crosses_of self.now.setting self.now.owners.items) e) }
    {
        let _events = self.setting.events();
        self.intervals.get(e as usize).copied().flatten()
    }

    /// How many agents there are: they are numbered from 0 to the greatest number among the owners.
    /// It takes no memory.
    pub fn agents(&self) -> u16
        ensures { result ≡ agent_count self.now.owners.items }
    {
        agents(&self.owners)
    }
}
