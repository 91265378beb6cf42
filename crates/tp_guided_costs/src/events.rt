//! The operators of events.

use crate::comparing::mention_of;
use crate::conjuncts::Builder;
use std::alloc::AllocError;
use tp_search_compiled::{Action, Compare, Event, Form, NONE, Span};

/// The operators of an action, and its proposition "it runs".
#[derive(Clone, Copy)]
pub struct Ops {
    pub start: u32,
    pub end: u32,
    pub running: u32,
}

/// Those of an action that can never happen.
pub const NO_OPS: Ops = Ops {
    start: NONE,
    end: NONE,
    running: NONE,
};

impl Builder<'_> {
    /// The operators of an action.
    pub fn ops_of(&mut self, number: u32, action: &Action) -> Result<Ops, AllocError> {
        if action.durative {
            return self.durative(number, action);
        }
        let mut pre = Vec::new(self.alloc);
        let start = self.happen(action.event, number, &mut pre, NONE)?;
        Ok(Ops { start, ..NO_OPS })
    }

    fn durative(&mut self, number: u32, action: &Action) -> Result<Ops, AllocError> {
        let task = self.task;
        let running = self.prop();
        let Some(invariant) = task.invariants.get(action.invariant as usize) else {
            return Ok(NO_OPS);
        };
        let end = self.end(number, action, invariant, running)?;
        if end == NONE {
            return Ok(NO_OPS);
        }
        let start = self.start(number, action, invariant, running)?;
        if start == NONE {
            return Ok(NO_OPS);
        }
        Ok(Ops {
            start,
            end,
            running,
        })
    }

    // The operator of an end, which needs that its action runs, and the invariant.
    fn end(
        &mut self,
        number: u32,
        action: &Action,
        invariant: &Form,
        running: u32,
    ) -> Result<u32, AllocError> {
        let mut pre = Vec::new(self.alloc);
        pre.push(running)?;
        if !self.conjuncts(invariant, &mut pre)? {
            return Ok(NONE);
        }
        self.happen(action.event.saturating_add(1), number, &mut pre, NONE)
    }

    // The operator of a start, which needs what it does not bring about of the invariant.
    fn start(
        &mut self,
        number: u32,
        action: &Action,
        invariant: &Form,
        running: u32,
    ) -> Result<u32, AllocError> {
        let task = self.task;
        let Some(event) = task.event(action.event) else {
            return Ok(NONE);
        };
        let mut pre = Vec::new(self.alloc);
        if !self.before(invariant, event, &mut pre)? {
            return Ok(NONE);
        }
        self.happen(action.event, number, &mut pre, running)
    }

    // Adds the parts of an invariant that a start does not bring about itself; false if one never
    // holds.
    fn before(
        &mut self,
        invariant: &Form,
        event: &Event,
        out: &mut Vec<u32>,
    ) -> Result<bool, AllocError> {
        let task = self.task;
        let adds = task.list(event.adds);
        let dels = task.list(event.dels);
        if !self.literals(task.list(invariant.wanted), true, adds, out)?
            || !self.literals(task.list(invariant.unwanted), false, dels, out)?
        {
            return Ok(false);
        }
        if !self.unwritten(invariant, event, out)? {
            return Ok(false);
        }
        self.untouched(invariant, event, out)
    }

    fn writes_to(&self, event: &Event, compare: &Compare) -> bool {
        let task = self.task;
        task.writes_of(event)
            .iter()
            .any(|w| mention_of(task, compare, w.fluent).at_all)
    }

    // Adds the comparisons of an invariant that a start does not write to.
    fn unwritten(
        &mut self,
        invariant: &Form,
        event: &Event,
        out: &mut Vec<u32>,
    ) -> Result<bool, AllocError> {
        let task = self.task;
        for compare in task.compares_in(invariant.conjuncts) {
            if !self.writes_to(event, compare) && !self.comparison(compare, out)? {
                return Ok(false);
            }
        }
        Ok(true)
    }

    // Whether an event changes an atom of an invariant's disjunctions, or a fluent of its
    // comparisons.
    fn touches(&self, invariant: &Form, event: &Event) -> bool {
        let task = self.task;
        let plain = invariant
            .wanted
            .count
            .saturating_add(invariant.unwanted.count);
        let others = Span {
            at: invariant.mentioned.at.saturating_add(plain),
            count: invariant.mentioned.count.saturating_sub(plain),
        };
        let adds = task.list(event.adds);
        let dels = task.list(event.dels);
        let fluents = task.list(invariant.fluents);
        task.list(others)
            .iter()
            .any(|a| adds.contains(a) || dels.contains(a))
            || task
                .writes_of(event)
                .iter()
                .any(|w| fluents.contains(&w.fluent))
    }

    // Adds the disjunctions of an invariant if a start changes nothing that they mention.
    fn untouched(
        &mut self,
        invariant: &Form,
        event: &Event,
        out: &mut Vec<u32>,
    ) -> Result<bool, AllocError> {
        if self.touches(invariant, event) {
            return Ok(true);
        }
        self.disjunctions(invariant, out)
    }

    // The operator of an event that needs some propositions, too, and adds one more; none if it can
    // never happen.
    fn happen(
        &mut self,
        number: u32,
        action: u32,
        pre: &mut Vec<u32>,
        also: u32,
    ) -> Result<u32, AllocError> {
        let task = self.task;
        let Some(event) = task.event(number) else {
            return Ok(NONE);
        };
        if event.clash || !self.conjuncts(&event.cond, pre)? {
            return Ok(NONE);
        }
        if !self.defined(task.list(event.needs), pre)? {
            return Ok(NONE);
        }
        pre.sort_unstable();
        pre.dedup();
        let adds = self.adds_of(event, also)?;
        self.op(pre, &adds, number, action)
    }

    // What an event adds: what it makes true, what it makes false, and one more.
    fn adds_of(&self, event: &Event, also: u32) -> Result<Vec<u32>, AllocError> {
        let adds = self.task.list(event.adds);
        let mut added = Vec::new(self.alloc);
        let mut out = Vec::new(self.alloc);
        for atom in adds {
            added.push(*atom)?;
            out.push(atom.saturating_mul(2))?;
        }
        added.sort_unstable();
        for atom in self.task.list(event.dels) {
            if added.binary_search(atom).is_err() {
                out.push(atom.saturating_mul(2).saturating_add(1))?;
            }
        }
        if also != NONE {
            out.push(also)?;
        }
        Ok(out)
    }
}
