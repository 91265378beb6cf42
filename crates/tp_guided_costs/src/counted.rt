//! The starts of a relaxed plan, and how many events it has.

use crate::chosen::Chosen;
use crate::costs::{Costs, DEAD};
use crate::wanted::Wants;
use std::alloc::{AllocError, Global};
use tp_search_compiled::{NONE, Running, Task};

/// A start of a relaxed plan: its cost, the cost of the cheapest start or helper that wants what
/// its action brings, its action, and how often it is to start.
#[derive(Clone, Copy, Debug, PartialEq, Eq, PartialOrd, Ord)]
pub struct Wanted {
    pub cost: u32,
    pub benefit: u32,
    pub action: u32,
    pub times: u32,
}

/// What is running of each action: how many steps, and the ticks left of the last one to end.
#[derive(Clone, Copy)]
struct Ran {
    steps: u32,
    left: u32,
}

const IDLE: Ran = Ran { steps: 0, left: 0 };

/// The starts of a relaxed plan, cheapest first.
#[derive(Drop)]
pub struct Starts {
    pub plan: Vec<Wanted>,
    /// Of each action: its starts, and its place in the plan.
    times: Vec<u32>,
    places: Vec<u32>,
    ran: Vec<Ran>,
}

impl Starts {
    pub fn new(alloc: Global, task: &Task) -> Result<Self, AllocError> {
        let count = task.actions.len();
        Ok(Starts {
            plan: Vec::new(alloc),
            times: Vec::from_elem(alloc, 0u32, count)?,
            places: Vec::from_elem(alloc, 0u32, count)?,
            ran: Vec::from_elem(alloc, IDLE, count)?,
        })
    }

    /// How often an action starts in the plan.
    pub fn times(&self, action: u32) -> u32 {
        self.times.get(action as usize).copied().unwrap_or(0)
    }

    /// The place in the plan of an action that starts in it.
    pub fn place(&self, action: u32) -> u32 {
        self.places.get(action as usize).copied().unwrap_or(0)
    }

    /// The ticks left of an action's last running step.
    pub fn left(&self, action: u32) -> u32 {
        match self.ran.get(action as usize) {
            Some(ran) => ran.left,
            None => 0,
        }
    }

    /// Forgets the plan.
    pub fn clear(&mut self) {
        for wanted in &self.plan {
            if let Some(at) = self.times.get_mut(wanted.action as usize) {
                *at = 0;
            }
        }
        self.plan.clear();
    }

    /// Counts the running steps.
    pub fn count_running(&mut self, running: &[Running]) {
        for step in running {
            if let Some(ran) = self.ran.get_mut(step.action as usize) {
                ran.left = if ran.steps == 0 {
                    step.left
                } else {
                    ran.left.max(step.left)
                };
                ran.steps = ran.steps.saturating_add(1);
            }
        }
    }

    /// Forgets the running steps.
    pub fn forget_running(&mut self, running: &[Running]) {
        for step in running {
            if let Some(ran) = self.ran.get_mut(step.action as usize) {
                ran.steps = 0;
            }
        }
    }

    fn running_of(&self, action: u32) -> u32 {
        match self.ran.get(action as usize) {
            Some(ran) => ran.steps,
            None => 0,
        }
    }

    fn push(&mut self, wanted: Wanted) -> Result<(), AllocError> {
        if let Some(at) = self.times.get_mut(wanted.action as usize) {
            *at = wanted.times;
        }
        self.plan.push(wanted)?;
        Ok(())
    }

    // Counts the events of a chosen operator's action, unless that is done with its start.
    fn count_one(
        &mut self,
        costs: &Costs<'_>,
        chosen: &Chosen,
        wants: &Wants,
        op: u32,
    ) -> Result<u32, AllocError> {
        let action = costs.relaxed.action_of(op);
        let start = costs.relaxed.start_of(action);
        let end = costs.relaxed.end_of(action);
        if action == NONE || (op == end && chosen.mark_of(start) > 0) {
            return Ok(0);
        }
        let ran = self.running_of(action);
        let ends = if end == NONE { 0 } else { chosen.mark_of(end) };
        let times = chosen.mark_of(start).max(ends.saturating_sub(ran));
        if times > 0 && costs.reached(start) {
            self.push(Wanted {
                cost: costs.total(start),
                benefit: wants.benefit(action),
                action,
                times,
            })?;
        }
        let over = if end == NONE {
            0
        } else {
            times.saturating_add(ran)
        };
        Ok(times.saturating_add(over))
    }

    /// Makes the plan of the chosen operators; how many events it has.
    pub fn count(
        &mut self,
        costs: &Costs<'_>,
        chosen: &Chosen,
        wants: &Wants,
    ) -> Result<u32, AllocError> {
        let mut events: u32 = 0;
        for op in &chosen.ops {
            let more = self.count_one(costs, chosen, wants, *op)?;
            events = events.saturating_add(more);
        }
        self.plan.sort_unstable();
        self.find_places();
        Ok(events)
    }

    fn find_places(&mut self) {
        let mut place: u32 = 0;
        for wanted in &self.plan {
            if let Some(at) = self.places.get_mut(wanted.action as usize) {
                *at = place;
            }
            place = place.saturating_add(1);
        }
    }
}

/// Takes the marks of the chosen operators away, and who wants what their actions bring.
pub fn forget(costs: &Costs<'_>, chosen: &mut Chosen, wants: &mut Wants) {
    for op in &chosen.ops {
        let action = costs.relaxed.action_of(*op);
        wants.set_benefit(action, DEAD);
    }
    chosen.unmark();
}
