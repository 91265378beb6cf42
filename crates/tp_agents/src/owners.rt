//! Which agent each event is for.

ghost use Rattle.std.specs.Prelude.{◌≡◌, ◌<◌, ◌≤◌, length, IfOk, IfErr, MatchOption};
ghost use Rattle.tp_agents.specs.Owners.{owner_of, agent_count, place_of, has_agent, AreOwners, IsFirstMisowned};

use std::marker::Model;

/// The greatest number of an agent.
pub const MOST_AGENT: u16 = 1_023;

/// The number of the agent of each event, by event.
#[derive(Drop)]
pub struct Owners {
    agents: Vec<u16>,
}

impl Model for Owners {
    ghost use Rattle.std.specs.Prelude.{List, ℕ};
    ghost use Rattle.std.specs.Coded.{coded_list, coded_ℕ};

    ghost Value = { List ℕ };

    ghost coded = { coded_list coded_ℕ };

    ghost view = { λ a. a.agents.items };
}

impl Owners {
    /// The agents of events, by event.
    pub fn new(agents: Vec<u16>) -> Owners
        ensures { result ≡ agents.items }
    {
        Owners { agents }
    }

    /// They by event.
    pub fn as_slice(&self) -> &[u16]
        ensures { result.now ≡ self.now }
    {
        &self.agents
    }

    /// They by event, given back.
    pub fn into_vec(self) -> Vec<u16>
        ensures { result.items ≡ self }
    {
        self.agents
    }
}

/// The agent of an event.
pub(crate) fn owner(owners: &[u16], e: u16) -> u16
    ensures { result ≡ owner_of owners.now e }
{
    owners.get(e as usize).copied().unwrap_or(0)
}

/// How many agents there are: one more than the greatest number.
pub(crate) fn agents(owners: &[u16]) -> u16
    requires { AreOwners (length owners.now) owners.now }
    ensures { result ≡ agent_count owners.now }
{
    let mut count = 0;
    for agent in owners {
        count = (*agent + 1).max(count);
    }
    count
}

/// How many events of its agent come before an event.
pub(crate) fn place(owners: &[u16], e: usize) -> usize
    requires { e < length owners.now }
    ensures { result ≡ place_of owners.now e }
{
    let agent = owners[e];
    owners[..e].iter().filter(|other| **other == agent).count()
}

/// Whether an event has a number, at most 1,023.
fn has_agent(owners: &[u16], e: u16) -> bool
    ensures { result ≡ has_agent owners.now e }
{
    match owners.get(e as usize) {
        Some(agent) => *agent <= MOST_AGENT,
        None => false,
    }
}

/// The first event that has no number, or one over 1,023; or else the number of events, if there
/// are more numbers.
pub(crate) fn misowned(events: u16, owners: &[u16]) -> Option<u32>
    ensures { MatchOption result
        (AreOwners events owners.now) (IsFirstMisowned events owners.now) }
{
    for e in 0..events {
        if !has_agent(owners, e) {
            return Some(u32::from(e));
        }
    }
    if owners.len() > events as usize {
        return Some(u32::from(events));
    }
    None
}
