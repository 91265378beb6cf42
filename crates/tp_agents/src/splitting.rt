//! A setting is split.

ghost use Rattle.std.specs.Prelude.{◌≡◌, IfOk};
ghost use Rattle.tp_bounds.specs.Setting.{event_count};
ghost use Rattle.tp_agents.specs.Owners.{AreOwners};
ghost use Rattle.tp_agents.specs.Splits.{IsUnbegun, AreLeast};
ghost use Rattle.tp_agents.specs.Answers.{IsSplitOf, AnswersSplit};

use crate::crosses::cross_bounds;
use crate::divided::Split;
use crate::fault::SplitFault;
use crate::gathering::least_moments;
use crate::intervals::intervals;
use crate::owners::{Owners, misowned};
use std::alloc::{AllocError, Global};
use tp_bounds::Setting;

/// A setting that is split among owners, by its least schedule.
fn split_by(
    alloc: Global,
    setting: &Setting,
    owners: &[u16],
    least: Vec<u32>,
) -> Result<Split, AllocError>
    requires unbegun { IsUnbegun setting.now }
    requires owners { AreOwners (event_count setting.now) owners.now }
    requires least { AreLeast setting.now least.items }
    ensures { IfOk result (IsSplitOf setting.now owners.now) }
{
    let _events = setting.events();
    let crosses = cross_bounds(alloc, setting.in_force(), owners)?;
    let intervals = intervals(alloc, setting.horizon(), &crosses, &least)?;
    Ok(Split {
        setting: setting.copy()?,
        owners: Vec::from_slice(alloc, owners)?,
        least,
        intervals,
    })
}

/// Splits a setting in which nothing has happened among the agents of its events, so that each may
/// carry its own part out without a word to the others: each event that has a bound with an event
/// of another agent gets an interval, which its agent keeps.
///
/// It costs one `add` of a network for each bound in force, and at most three passes over the
/// bounds between agents for each event.
///
/// # Errors `Owner` of the first event that has no agent, or one whose number is over 1,023, or
/// that there is not; then `Conflict` where no schedule remains, by a reason that `check_reason`
/// accepts of the setting; `Memory`.
pub fn split(alloc: Global, setting: &Setting, owners: &Owners) -> Result<Split, SplitFault>
    requires { IsUnbegun setting.now }
    ensures { AnswersSplit setting.now owners.now result }
{
    let agents = owners.as_slice();
    if let Some(e) = misowned(setting.events(), agents) {
        return Err(SplitFault::Owner(e));
    }
    let least = least_moments(alloc, setting)?;
    Ok(split_by(alloc, setting, agents, least)?)
}
