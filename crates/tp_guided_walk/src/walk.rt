//! The walk.

use crate::due::{Due, group_end, list_dues};
use crate::lengths::Lengths;
use crate::pending::{Pending, holds, is_true, lacks};
use crate::space::{Child, Space};
use std::alloc::{AllocError, Global};
use tp_guided_costs::Heuristic;
use tp_search_compiled::{Event, Marks, Task};

/// What is ahead in the states in which the running steps run out.
#[derive(Clone, Copy)]
pub struct Ahead {
    /// Whether a pending start is possible in one of them.
    any: bool,
    /// Whether before the first such state an end takes what a pending start needs.
    crosses: bool,
}

/// A walk, and what it keeps for the next one.
#[derive(Drop)]
pub struct Walk {
    pub(crate) pending: Pending,
    pub(crate) dues: Vec<Due>,
    pub(crate) ends: Marks,
    pub(crate) brought: Vec<u32>,
    pub(crate) tries: Vec<u32>,
    pub(crate) lengths: Lengths,
    made: Vec<u32>,
    last: Option<u32>,
    moved: bool,
}

// More waits than any walk has.
const MOST_WAITS: u32 = 65_536;

impl Walk {
    /// The walks of a task.
    pub fn new(alloc: Global, task: &Task, lengths: Lengths) -> Result<Self, AllocError> {
        let pending = Pending::new(alloc, task)?;
        let ends = Marks::new(alloc, task)?;
        Ok(Walk {
            pending,
            dues: Vec::new(alloc),
            ends,
            brought: Vec::new(alloc),
            tries: Vec::new(alloc),
            lengths,
            made: Vec::new(alloc),
            last: None,
            moved: false,
        })
    }

    /// The nodes that the last walk made.
    pub fn made(&self) -> &[u32] {
        &self.made
    }

    /// Walks from the loaded node by the relaxed plan of its evaluation, and answers the node that
    /// the walk comes to, unless that was expanded.
    pub fn go(
        &mut self,
        space: &mut Space<'_>,
        value: &Heuristic<'_>,
    ) -> Result<Option<u32>, AllocError> {
        self.pending.fill(space.task(), value)?;
        self.made.clear();
        self.last = None;
        self.moved = false;
        let only_waits = self.pending.items().is_empty();
        for _ in 0..MOST_WAITS {
            if !self.goes_on(space, value, only_waits)? {
                break;
            }
        }
        Ok(self.last)
    }

    // Starts what can start, and waits; whether the walk goes on from there.
    fn goes_on(
        &mut self,
        space: &mut Space<'_>,
        value: &Heuristic<'_>,
        only_waits: bool,
    ) -> Result<bool, AllocError> {
        self.start_all(space, value)?;
        if space.is_goal() {
            return Ok(false);
        }
        let pending = self.pending.is_pending();
        if (!pending && !only_waits) || !space.invariants() {
            return Ok(false);
        }
        if pending {
            let ahead = self.look(space)?;
            if self.moved && (!ahead.any || ahead.crosses) {
                return Ok(false);
            }
        }
        self.wait(space, pending)
    }

    fn wait(&mut self, space: &mut Space<'_>, pending: bool) -> Result<bool, AllocError> {
        let Some(ticks) = next_wait(space, pending) else {
            return Ok(false);
        };
        let Some(child) = space.wait_child(ticks)? else {
            return Ok(false);
        };
        self.moved = true;
        self.note(space, child)?;
        space.load(child.node)?;
        Ok(true)
    }

    // The walk comes to a node.
    pub(crate) fn note(&mut self, space: &Space<'_>, child: Child) -> Result<(), AllocError> {
        self.last = if space.is_expanded(child.node) {
            None
        } else {
            Some(child.node)
        };
        if child.new {
            self.made.push(child.node)?;
        }
        Ok(())
    }

    // Starts what can start at this tick: first what threatens no other start at all, then also
    // what threatens none that is possible soon.
    fn start_all(
        &mut self,
        space: &mut Space<'_>,
        value: &Heuristic<'_>,
    ) -> Result<(), AllocError> {
        self.mark_open(space);
        space.mark_events();
        self.start_some(space, value, false)?;
        self.start_some(space, value, true)?;
        space.wipe_events();
        Ok(())
    }

    // Marks the items that can start in the state before the tick's happening.
    fn mark_open(&mut self, space: &Space<'_>) {
        for place in 0..self.pending.len() {
            if let Some(item) = self.pending.item(place) {
                let open = item.times > 0 && space.choices_of(item.action).count > 0;
                self.pending.set_open(place, open);
            }
        }
    }

    fn start_some(
        &mut self,
        space: &mut Space<'_>,
        value: &Heuristic<'_>,
        forced: bool,
    ) -> Result<(), AllocError> {
        self.look(space)?;
        for place in 0..self.pending.len() {
            if self.start_item(space, value, place, forced)? {
                self.moved = true;
                self.pending.use_once(place);
                if forced {
                    self.look(space)?;
                }
            }
        }
        Ok(())
    }

    // Looks at the states in which the running steps run out, and marks the items that are possible
    // in one of them.
    fn look(&mut self, space: &mut Space<'_>) -> Result<Ahead, AllocError> {
        self.pending.forget_soon();
        list_dues(space.running(), &mut self.dues)?;
        let mut ahead = Ahead {
            any: false,
            crosses: false,
        };
        if space.has_events() {
            ahead.any = self.pending.mark_soon(space.task(), space.state());
        }
        let mut from = 0;
        for _ in 0..self.dues.len() {
            if from >= self.dues.len() {
                break;
            }
            let to = group_end(&self.dues, from);
            ahead = self.look_at(space, ahead, from, to)?;
            from = to;
        }
        space.undo();
        Ok(ahead)
    }

    // Looks at the state after the next ends.
    fn look_at(
        &mut self,
        space: &mut Space<'_>,
        ahead: Ahead,
        from: usize,
        to: usize,
    ) -> Result<Ahead, AllocError> {
        let mut crosses = ahead.crosses;
        for place in from..to {
            if let Some(due) = self.dues.get(place).copied() {
                crosses = crosses || (!ahead.any && self.crosses(space, due.action));
                space.apply_defined_end(due.action, due.duration)?;
            }
        }
        let any = self.pending.mark_soon(space.task(), space.state());
        Ok(Ahead {
            any: ahead.any || any,
            crosses,
        })
    }

    // Whether the end of an action takes what a pending start needs.
    fn crosses(&self, space: &Space<'_>, action: u32) -> bool {
        match space.task().end_of(action) {
            Some(event) => self.takes_needed(space, event),
            None => false,
        }
    }

    fn takes_needed(&self, space: &Space<'_>, event: &Event) -> bool {
        let task = space.task();
        task.list(event.dels)
            .iter()
            .any(|a| self.is_taken(space, holds(*a)))
            || task
                .list(event.adds)
                .iter()
                .any(|a| self.is_taken(space, lacks(*a)))
    }

    // Whether a literal is true and a pending start needs it.
    fn is_taken(&self, space: &Space<'_>, literal: u32) -> bool {
        is_true(space.state(), literal) && self.pending.is_needed(literal)
    }
}

// How long to wait: one tick after events, else until the next step ends; without pending starts
// until then anyway.
fn next_wait(space: &Space<'_>, pending: bool) -> Option<u32> {
    if space.has_events() && pending {
        return Some(1);
    }
    match space.least_left() {
        Some(least) => Some(least),
        None if space.has_events() => Some(1),
        None => None,
    }
}
