//! The value of a state and its relaxed plan.

use crate::chosen::Chosen;
use crate::costs::{Costs, DEAD};
use crate::counted::{Starts, Wanted, forget};
use crate::relaxed::Relaxed;
use crate::standing::Standing;
use crate::wanted::{Wants, extract};
use std::alloc::{AllocError, Global};
use tp_search_compiled::{NONE, Running, State, Task};

/// The value of the state that was evaluated last, and its relaxed plan. All room is kept from one
/// state to the next.
#[derive(Drop)]
pub struct Heuristic<'a> {
    costs: Costs<'a>,
    chosen: Chosen,
    wants: Wants,
    starts: Starts,
    standing: Standing,
    /// Of each action: the literals that its start needs are so many of its needs, the first ones.
    literals: Vec<u32>,
}

// How many of some propositions, by rising number, are literals.
fn count_literals(props: &[u32], atoms: u32) -> u32 {
    let mut count: u32 = 0;
    for prop in props {
        if *prop < atoms.saturating_mul(2) {
            count = count.saturating_add(1);
        }
    }
    count
}

fn literals_of(alloc: Global, relaxed: &Relaxed) -> Result<Vec<u32>, AllocError> {
    let mut literals = Vec::with_capacity(alloc, relaxed.start_op.len())?;
    for op in &relaxed.start_op {
        literals.push(count_literals(relaxed.pre.of(*op), relaxed.atoms))?;
    }
    Ok(literals)
}

impl<'a> Heuristic<'a> {
    /// Room for a task and its relaxed task. `by_most`: an operator costs the greatest of what it
    /// needs in place of the sum.
    pub fn new(
        alloc: Global,
        task: &'a Task,
        relaxed: &'a Relaxed,
        by_most: bool,
    ) -> Result<Self, AllocError> {
        let costs = Costs::new(alloc, task, relaxed, by_most)?;
        let wants = Wants::new(alloc, task, relaxed)?;
        let rest = (Chosen::new(alloc, relaxed)?, Starts::new(alloc, task)?);
        let (chosen, starts) = rest;
        Ok(Heuristic {
            costs,
            chosen,
            wants,
            starts,
            standing: Standing::new(alloc),
            literals: literals_of(alloc, relaxed)?,
        })
    }

    /// How many events a relaxed plan has from a state with running steps, which have to end;
    /// `DEAD` if there is none. With a seed, of equally cheap operators one is taken by a hash,
    /// with 0 the first.
    pub fn evaluate(
        &mut self,
        state: &State,
        running: &[Running],
        seed: u64,
    ) -> Result<u32, AllocError> {
        self.costs.seed = seed;
        self.starts.clear();
        let relaxed = self.costs.relaxed;
        let Some(goal) = &relaxed.goal else {
            return Ok(DEAD);
        };
        self.costs.find(state, running)?;
        if self.is_dead(goal, running) {
            return Ok(DEAD);
        }
        self.starts.count_running(running);
        let events = self.plan_for(goal, running);
        self.starts.forget_running(running);
        events
    }

    fn is_dead(&self, goal: &[u32], running: &[Running]) -> bool {
        goal.iter().any(|p| self.costs.cost(*p) == DEAD)
            || running.iter().any(|r| !self.costs.reached(self.costs.relaxed.end_of(r.action)))
    }

    fn plan_for(&mut self, goal: &[u32], running: &[Running]) -> Result<u32, AllocError> {
        extract(
            &mut self.costs,
            &mut self.chosen,
            &mut self.wants,
            goal,
            running,
        )?;
        let events = self.starts.count(&self.costs, &self.chosen, &self.wants)?;
        forget(&self.costs, &mut self.chosen, &mut self.wants);
        self.standing
            .find(&self.costs, &mut self.chosen, &self.starts)?;
        Ok(events)
    }

    /// The starts of the relaxed plan, cheapest first.
    pub fn plan(&self) -> &[Wanted] {
        &self.starts.plan
    }

    /// How often an action starts in the relaxed plan.
    pub fn times(&self, action: u32) -> u32 {
        self.starts.times(action)
    }

    /// How many ticks the relaxed plan takes at least.
    pub fn span(&self) -> u64 {
        self.standing.span()
    }

    /// Whether the start at a place of the relaxed plan needs that at another.
    pub fn stands_on(&self, place: u32, other: u32) -> bool {
        self.standing.stands_on(place, other)
    }

    /// The literals that an action needs at its start, and while it runs without bringing them
    /// about itself, by rising number.
    pub fn needs(&self, action: u32) -> &[u32] {
        let count = self.literals.get(action as usize).copied().unwrap_or(0);
        let relaxed = self.costs.relaxed;
        let op = relaxed.start_of(action);
        let needs = relaxed.pre.of(op);
        match needs.get(..count as usize) {
            Some(literals) => literals,
            None => &[],
        }
    }

    /// What the end of an action needs, literals among it: its condition and its invariant.
    pub fn end_needs(&self, action: u32) -> &[u32] {
        let relaxed = self.costs.relaxed;
        relaxed.pre.of(relaxed.end_of(action))
    }

    /// Whether the relaxed task reaches an action's start, and its end if it lasts.
    pub fn is_reached(&self, action: u32) -> bool {
        let end = self.costs.relaxed.end_of(action);
        self.costs.reached(self.costs.relaxed.start_of(action))
            && (end == NONE || self.costs.reached(end))
    }
}
