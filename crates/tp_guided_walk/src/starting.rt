//! One start of a walk.

use crate::due::{Due, group_end, list_dues};
use crate::pending::{Item, Pending, holds, is_true, lacks};
use crate::space::Space;
use crate::store::Choice;
use crate::walk::Walk;
use std::alloc::AllocError;
use tp_guided_costs::Heuristic;
use tp_search_compiled::{Event, NONE, Task};

// Whether an item is still to do, and can start at this tick.
fn is_possible(space: &Space<'_>, item: &Item) -> bool {
    item.times > 0 && item.open && space.joins(item.action)
}

pub(crate) fn is_pending_on(value: &Heuristic<'_>, item: &Item, place: u32, envelope: u32) -> bool {
    item.times > 0 && value.stands_on(place, envelope)
}

fn push_brought(task: &Task, event: Option<&Event>, into: &mut Vec<u32>) -> Result<(), AllocError> {
    if let Some(event) = event {
        for atom in task.list(event.adds) {
            into.push(holds(*atom))?;
        }
        for atom in task.list(event.dels) {
            into.push(lacks(*atom))?;
        }
    }
    Ok(())
}

// Whether an item takes, as far as it is true now, what another one needs.
fn takes_from(space: &Space<'_>, pending: &Pending, item: &Item, other: &Item) -> bool {
    let needs = pending.needs(other);
    let state = space.state();
    pending
        .first(item)
        .iter()
        .any(|l| is_true(state, *l) && needs.contains(l))
        || pending
            .last(item)
            .iter()
            .any(|l| is_true(state, *l) && needs.contains(l))
}

// Whether an item goes before another one that it takes from and that takes from it.
fn goes_first(item: &Item, place: u32, other: &Item, other_place: u32) -> bool {
    item.benefit < other.benefit || (item.benefit == other.benefit && place < other_place)
}

impl Walk {
    // Starts an item, if it can start and should.
    pub(crate) fn start_item(
        &mut self,
        space: &mut Space<'_>,
        value: &Heuristic<'_>,
        place: u32,
        forced: bool,
    ) -> Result<bool, AllocError> {
        let Some(item) = self.pending.item(place) else {
            return Ok(false);
        };
        if !is_possible(space, &item) || self.is_early(space, value, &item, place)? {
            return Ok(false);
        }
        if self.threatens(space, value, &item, place, forced) {
            return Ok(false);
        }
        self.start(space, value, &item, place)
    }

    // Whether an item takes what another pending one needs that does not stand on it. By force only
    // those count that can start now or soon, and of two that take from each other one goes.
    fn threatens(
        &self,
        space: &Space<'_>,
        value: &Heuristic<'_>,
        item: &Item,
        place: u32,
        forced: bool,
    ) -> bool {
        for literal in self.pending.first(item) {
            if self.is_threat(space, value, *literal, place, forced) {
                return true;
            }
        }
        for literal in self.pending.last(item) {
            if self.is_threat(space, value, *literal, place, forced) {
                return true;
            }
        }
        false
    }

    // Whether taking a literal threatens a pending item that needs it.
    fn is_threat(
        &self,
        space: &Space<'_>,
        value: &Heuristic<'_>,
        literal: u32,
        place: u32,
        forced: bool,
    ) -> bool {
        if !is_true(space.state(), literal) || !self.pending.is_needed(literal) {
            return false;
        }
        let mut at = self.pending.first_user(literal);
        for _ in 0..self.pending.len() {
            let Some(user) = self.pending.user(at) else {
                break;
            };
            if user.item != place
                && !value.stands_on(user.item, place)
                && self.counts(space, place, user.item, forced)
            {
                return true;
            }
            at = user.next;
        }
        false
    }

    // Whether another item that an item threatens counts.
    fn counts(&self, space: &Space<'_>, place: u32, other_place: u32, forced: bool) -> bool {
        let (Some(item), Some(other)) = (self.pending.item(place), self.pending.item(other_place))
        else {
            return false;
        };
        if other.times == 0 {
            return false;
        }
        if !forced {
            return true;
        }
        let ready = other.soon || (other.open && self.pending.has_needs(space.state(), &other));
        ready
            && !(goes_first(&item, place, &other, other_place)
                && takes_from(space, &self.pending, &other, &item))
    }

    // Whether an item is an envelope that had better start later: none of the starts that stand on
    // it can join it now, but one can when the running steps have gone on.
    fn is_early(
        &mut self,
        space: &mut Space<'_>,
        value: &Heuristic<'_>,
        item: &Item,
        place: u32,
    ) -> Result<bool, AllocError> {
        let calm = !space.has_events() && space.running().is_empty();
        if calm || !self.pending.is_envelope(item) {
            return Ok(false);
        }
        self.find_brought(space)?;
        if self.any_joins(space, value, place, true) {
            return Ok(false);
        }
        if space.has_events() && self.any_joins(space, value, place, false) {
            return Ok(true);
        }
        list_dues(space.running(), &mut self.dues)?;
        let mut later = false;
        for at in 0..self.dues.len() {
            if let Some(due) = self.dues.get(at).copied() {
                space.apply_defined_end(due.action, due.duration)?;
                later = later || self.any_joins(space, value, place, false);
            }
        }
        space.undo();
        Ok(later)
    }

    // What the pending starts bring that can start at this tick.
    fn find_brought(&mut self, space: &Space<'_>) -> Result<(), AllocError> {
        let task = space.task();
        self.brought.clear();
        for item in self.pending.items() {
            if item.times > 0 && item.open {
                push_brought(task, task.start_of(item.action), &mut self.brought)?;
            }
        }
        self.brought.sort_unstable();
        Ok(())
    }

    // Whether a pending start that stands on an item has what it needs in the loaded state, or it
    // is brought at this tick; and, if asked for, it can start.
    fn any_joins(
        &self,
        space: &Space<'_>,
        value: &Heuristic<'_>,
        envelope: u32,
        now: bool,
    ) -> bool {
        let mut place: u32 = 0;
        for item in self.pending.items() {
            if (item.open || !now)
                && is_pending_on(value, item, place, envelope)
                && self.is_there(space, item)
            {
                return true;
            }
            place = place.saturating_add(1);
        }
        false
    }

    fn is_there(&self, space: &Space<'_>, item: &Item) -> bool {
        for literal in self.pending.needs(item) {
            if !is_true(space.state(), *literal) && self.brought.binary_search(literal).is_err() {
                return false;
            }
        }
        true
    }

    // Starts an item if one of its durations fits.
    fn start(
        &mut self,
        space: &mut Space<'_>,
        value: &Heuristic<'_>,
        item: &Item,
        place: u32,
    ) -> Result<bool, AllocError> {
        self.list_tries(space, value, item, place)?;
        for at in 0..self.tries.len() {
            let number = self.tries.get(at).copied().unwrap_or(NONE);
            if self.fits(space, number)? {
                let child = space.go_start(number)?;
                self.note(space, child)?;
                return Ok(true);
            }
        }
        Ok(false)
    }

    /// Whether a start keeps the invariants of the running steps and its own, now and, as all of
    /// them run out, at each tick.
    pub fn fits(&mut self, space: &mut Space<'_>, number: u32) -> Result<bool, AllocError> {
        let Some(choice) = space.choice(number) else {
            return Ok(false);
        };
        let fits = self.fits_now(space, choice)? && self.fits_later(space, choice)?;
        space.undo();
        Ok(fits)
    }

    /// Whether a start keeps the invariants of the running steps and its own at its tick.
    pub fn joins_now(&mut self, space: &mut Space<'_>, number: u32) -> Result<bool, AllocError> {
        let Some(choice) = space.choice(number) else {
            return Ok(false);
        };
        let fits = self.fits_now(space, choice)?;
        space.undo();
        Ok(fits)
    }

    // The start is carried out.
    fn fits_now(&mut self, space: &mut Space<'_>, choice: Choice) -> Result<bool, AllocError> {
        Ok(space.apply_start(choice)? && space.invariants() && space.invariant(choice.action))
    }

    // Runs all steps out after a start.
    fn fits_later(&mut self, space: &mut Space<'_>, choice: Choice) -> Result<bool, AllocError> {
        list_dues(space.running(), &mut self.dues)?;
        if choice.duration > 0 {
            self.dues.push(Due {
                left: choice.duration,
                action: choice.action,
                duration: choice.duration,
            })?;
            self.dues.sort_unstable();
        }
        let mut from = 0;
        for _ in 0..self.dues.len() {
            if from >= self.dues.len() {
                break;
            }
            let to = group_end(&self.dues, from);
            if !self.group_fits(space, from, to)? {
                return Ok(false);
            }
            from = to;
        }
        Ok(true)
    }

    // Carries out the ends of one tick; whether they do not interfere, stay in range and keep the
    // invariants of the steps that still run.
    fn group_fits(
        &mut self,
        space: &mut Space<'_>,
        from: usize,
        to: usize,
    ) -> Result<bool, AllocError> {
        let mut fits = true;
        for place in from..to {
            if let Some(due) = self.dues.get(place).copied() {
                fits = self.end_fits(space, due)? && fits;
            }
        }
        self.wipe_ends(space.task(), from, to);
        Ok(fits && self.others_hold(space, to))
    }

    // Carries out one end; whether it does not interfere with the other ends of its tick and stays
    // in range.
    fn end_fits(&mut self, space: &mut Space<'_>, due: Due) -> Result<bool, AllocError> {
        let Some(event) = space.task().end_of(due.action) else {
            return Ok(true);
        };
        let apart = !self.ends.interferes(space.task(), event);
        self.ends.put(space.task(), event);
        Ok(space.apply_defined_end(due.action, due.duration)? && apart)
    }

    fn wipe_ends(&mut self, task: &Task, from: usize, to: usize) {
        for place in from..to {
            if let Some(due) = self.dues.get(place) {
                if let Some(event) = task.end_of(due.action) {
                    self.ends.wipe(task, event);
                }
            }
        }
    }

    // Whether the invariants hold of the steps from a place on.
    fn others_hold(&self, space: &Space<'_>, from: usize) -> bool {
        for place in from..self.dues.len() {
            if let Some(due) = self.dues.get(place) {
                if !space.invariant(due.action) {
                    return false;
                }
            }
        }
        true
    }
}
