//! The durations that a walk tries.

use crate::pending::Item;
use crate::space::Space;
use crate::starting::is_pending_on;
use crate::store::Choice;
use crate::walk::Walk;
use std::alloc::AllocError;
use tp_guided_costs::Heuristic;
use tp_search_compiled::{NONE, Task};

/// Which durations a walk tries of a step that may last longer or less long.
#[derive(Clone, Copy, Debug, PartialEq, Eq)]
pub enum Lengths {
    /// The least and the greatest.
    Ends,
    /// Of an envelope first one as long as all that stands on it, one after the other.
    Stretched,
    /// First one as long as all that needs what the end takes, one after the other.
    InTurn,
    /// First one as long as the longest of that.
    AtOnce,
}

impl Lengths {
    /// Whether the durations in between are for what needs what the end takes.
    pub fn outlasts(self) -> bool {
        self == Lengths::InTurn || self == Lengths::AtOnce
    }
}

// The ticks of a sum, in whole units.
fn whole_units(ticks: u64, scale: u64) -> u64 {
    match ticks
        .saturating_add(scale)
        .saturating_sub(1)
        .checked_div(scale)
    {
        Some(units) => units.saturating_mul(scale),
        None => ticks,
    }
}

// Whether the number of units that an action lasts counts.
fn has_units(task: &Task, action: u32) -> bool {
    match task.action(action) {
        Some(action) => action.duration,
        None => false,
    }
}

impl Walk {
    // The starts of an item that are tried, in order: the least duration first, but the greatest
    // for an envelope and where its length counts; before both of them one in between.
    pub(crate) fn list_tries(
        &mut self,
        space: &mut Space<'_>,
        value: &Heuristic<'_>,
        item: &Item,
        place: u32,
    ) -> Result<(), AllocError> {
        self.tries.clear();
        let least = space.choices_of(item.action);
        if least.count < 2 {
            self.tries.push(least.at)?;
            return Ok(());
        }
        let ticks = self.ticks_between(space, value, item, place);
        self.push_between(space, least.at, ticks)?;
        let most = least.at.saturating_add(1);
        if self.is_long(space.task(), item) {
            self.tries.push(most)?;
            self.tries.push(least.at)?;
        } else {
            self.tries.push(least.at)?;
            self.tries.push(most)?;
        }
        Ok(())
    }

    // Whether an item is an envelope of pending ones, or its length counts.
    fn is_long(&self, task: &Task, item: &Item) -> bool {
        (has_units(task, item.action) && item.times > 1) || self.pending.is_envelope(item)
    }

    // The start with so many ticks, if they are between the least and the greatest duration.
    fn push_between(
        &mut self,
        space: &mut Space<'_>,
        least: u32,
        ticks: u64,
    ) -> Result<(), AllocError> {
        let (Some(low), Some(high)) = (space.choice(least), space.choice(least.saturating_add(1)))
        else {
            return Ok(());
        };
        let ticks = u32::try_from(ticks).unwrap_or(NONE);
        if low.duration < ticks && ticks < high.duration {
            let number = space.add_choice(Choice {
                action: low.action,
                duration: ticks,
            })?;
            self.tries.push(number)?;
        }
        Ok(())
    }

    // How long an item is to last that is tried between the least and the greatest duration, 0 for
    // none.
    fn ticks_between(
        &self,
        space: &Space<'_>,
        value: &Heuristic<'_>,
        item: &Item,
        place: u32,
    ) -> u64 {
        let scale = u64::from(space.task().scale);
        match self.lengths {
            Lengths::Ends => 0,
            Lengths::Stretched => {
                if self.is_long(space.task(), item) {
                    whole_units(self.ticks_on(space, value, place), scale)
                } else {
                    0
                }
            }
            Lengths::InTurn | Lengths::AtOnce => {
                let ticks = self.ticks_needed(space, value, item, place);
                if has_units(space.task(), item.action) {
                    whole_units(ticks, scale)
                } else {
                    ticks
                }
            }
        }
    }

    // How long the pending starts that stand on an item take, one after the other.
    fn ticks_on(&self, space: &Space<'_>, value: &Heuristic<'_>, envelope: u32) -> u64 {
        let mut sum: u64 = 1;
        let mut place: u32 = 0;
        for item in self.pending.items() {
            if is_pending_on(value, item, place, envelope) {
                let ticks = u64::from(space.least_duration(item.action));
                sum = sum.saturating_add(ticks).saturating_add(1);
            }
            place = place.saturating_add(1);
        }
        sum
    }

    // How long the running steps and the pending starts take that need what the end of an item
    // takes: as long as the longest of them, or one after the other, a tick apart.
    fn ticks_needed(
        &self,
        space: &Space<'_>,
        value: &Heuristic<'_>,
        item: &Item,
        envelope: u32,
    ) -> u64 {
        let at_once = self.lengths == Lengths::AtOnce;
        let mut ticks = self.ticks_left(space, value, item);
        if !at_once {
            ticks = ticks.saturating_add(1);
        }
        let mut place: u32 = 0;
        for other in self.pending.items() {
            if other.times > 0 && place != envelope && self.pending.takes_need(item, other) {
                let more = u64::from(space.least_duration(other.action));
                ticks = if at_once {
                    ticks.max(more)
                } else {
                    ticks.saturating_add(more).saturating_add(1)
                };
            }
            place = place.saturating_add(1);
        }
        ticks
    }

    // The most ticks that a running step has left that needs what the end of an item takes.
    fn ticks_left(&self, space: &Space<'_>, value: &Heuristic<'_>, item: &Item) -> u64 {
        let mut most: u32 = 0;
        for run in space.running() {
            let needs = value.end_needs(run.action);
            if self.pending.last(item).iter().any(|l| needs.contains(l)) {
                most = most.max(run.left);
            }
        }
        u64::from(most)
    }
}
