//! What a relaxed plan wants, dearest first, and who brings it.

use crate::chosen::Chosen;
use crate::costs::{CAP, Costs, DEAD};
use crate::relaxed::Relaxed;
use std::alloc::{AllocError, Global};
use tp_search_compiled::{Buckets, NONE, Running, Task};

/// Who wants a proposition: the cheapest operator that does, and the cheapest that is no end.
#[derive(Clone, Copy)]
struct Want {
    wanted: bool,
    user: u32,
    urgent: u32,
}

const UNWANTED: Want = Want {
    wanted: false,
    user: DEAD,
    urgent: DEAD,
};

/// The propositions that a relaxed plan wants.
#[derive(Drop)]
pub struct Wants {
    wants: Vec<Want>,
    /// Those that are wanted.
    stack: Vec<u32>,
    queue: Buckets,
    /// Of each action: the cheapest operator that wants what its start brings.
    benefit: Vec<u32>,
}

impl Wants {
    pub fn new(alloc: Global, task: &Task, relaxed: &Relaxed) -> Result<Self, AllocError> {
        Ok(Wants {
            wants: Vec::from_elem(alloc, UNWANTED, relaxed.props as usize)?,
            stack: Vec::new(alloc),
            queue: Buckets::new(alloc, CAP.saturating_add(1))?,
            benefit: Vec::from_elem(alloc, DEAD, task.actions.len())?,
        })
    }

    /// The cheapest operator that wants what an action's start brings.
    pub fn benefit(&self, action: u32) -> u32 {
        self.benefit.get(action as usize).copied().unwrap_or(DEAD)
    }

    /// Sets who wants what an action's start brings.
    pub fn set_benefit(&mut self, action: u32, total: u32) {
        if let Some(at) = self.benefit.get_mut(action as usize) {
            *at = total;
        }
    }

    fn want_of(&self, prop: u32) -> Want {
        self.wants.get(prop as usize).copied().unwrap_or(UNWANTED)
    }

    // A proposition of this cost is wanted: by an operator of this total, `DEAD` for the goal, that
    // is an end or not.
    fn want(&mut self, prop: u32, cost: u32, total: u32, end: bool) -> Result<(), AllocError> {
        let Some(at) = self.wants.get_mut(prop as usize) else {
            return Ok(());
        };
        let new = !at.wanted;
        at.wanted = true;
        at.user = at.user.min(total);
        if !end {
            at.urgent = at.urgent.min(total);
        }
        if new {
            self.stack.push(prop)?;
            self.queue.push(CAP.saturating_sub(cost), prop)?;
        }
        Ok(())
    }

    // Forgets what was wanted.
    fn forget(&mut self) {
        for prop in &self.stack {
            if let Some(at) = self.wants.get_mut(*prop as usize) {
                *at = UNWANTED;
            }
        }
        self.stack.clear();
    }
}

// What a chosen operator needs is wanted, and what it adds is given by it if that is cheaper.
fn link(
    costs: &Costs<'_>,
    chosen: &mut Chosen,
    wants: &mut Wants,
    op: u32,
) -> Result<(), AllocError> {
    let relaxed = costs.relaxed;
    let total = costs.total(op);
    let action = relaxed.action_of(op);
    let end = action != NONE && relaxed.end_of(action) == op;
    for prop in relaxed.pre.of(op) {
        wants.want(*prop, costs.cost(*prop), total, end)?;
    }
    for prop in relaxed.adds.of(op) {
        let old = chosen.given(*prop);
        if old == NONE || costs.total(old) > total {
            chosen.give(*prop, op)?;
        }
    }
    Ok(())
}

fn choose_one(
    costs: &Costs<'_>,
    chosen: &mut Chosen,
    wants: &mut Wants,
    op: u32,
    uses: u32,
) -> Result<bool, AllocError> {
    let new = chosen.choose(op, uses)?;
    if new {
        link(costs, chosen, wants, op)?;
    }
    Ok(new)
}

// Chooses an operator, and with a start its end: what starts has to end.
fn choose(
    costs: &Costs<'_>,
    chosen: &mut Chosen,
    wants: &mut Wants,
    op: u32,
    uses: u32,
) -> Result<(), AllocError> {
    if !choose_one(costs, chosen, wants, op, uses)? {
        return Ok(());
    }
    let relaxed = costs.relaxed;
    let action = relaxed.action_of(op);
    let end = relaxed.end_of(action);
    if action != NONE && relaxed.start_of(action) == op && costs.reached(end) {
        choose_one(costs, chosen, wants, end, 1)?;
    }
    Ok(())
}

// Chooses who brings a proposition: an operator that is chosen already and is cheaper than all that
// want it, else the cheapest.
fn bring(
    costs: &mut Costs<'_>,
    chosen: &mut Chosen,
    wants: &mut Wants,
    prop: u32,
) -> Result<(), AllocError> {
    if costs.by(prop) == NONE {
        return Ok(());
    }
    let compare = costs.relaxed.compare_at(prop);
    let given = chosen.given(prop);
    let want = wants.want_of(prop);
    if compare == NONE && given != NONE && costs.total(given) < want.user {
        costs.set_by(prop, given);
    }
    let by = costs.by(prop);
    let action = costs.relaxed.action_of(by);
    if action != NONE {
        let benefit = wants.benefit(action).min(want.urgent);
        wants.set_benefit(action, benefit);
    }
    let uses = if compare == NONE {
        1
    } else {
        costs.uses_of(compare)
    };
    choose(costs, chosen, wants, by, uses)
}

// What is wanted at first: the ends of the running steps, and the goal.
fn begin(
    costs: &Costs<'_>,
    chosen: &mut Chosen,
    wants: &mut Wants,
    goal: &[u32],
    running: &[Running],
) -> Result<(), AllocError> {
    chosen.ops.clear();
    wants.queue.clear();
    for step in running {
        choose(costs, chosen, wants, costs.relaxed.end_of(step.action), 1)?;
    }
    for prop in goal {
        wants.want(*prop, costs.cost(*prop), DEAD, true)?;
    }
    Ok(())
}

fn bring_all(
    costs: &mut Costs<'_>,
    chosen: &mut Chosen,
    wants: &mut Wants,
) -> Result<(), AllocError> {
    for _ in 0..u64::MAX {
        let Some((_, prop)) = wants.queue.pop() else {
            break;
        };
        bring(costs, chosen, wants, prop)?;
    }
    Ok(())
}

/// Chooses the operators of a relaxed plan for a goal that is in reach, from a state with running
/// steps whose ends are in reach.
pub fn extract(
    costs: &mut Costs<'_>,
    chosen: &mut Chosen,
    wants: &mut Wants,
    goal: &[u32],
    running: &[Running],
) -> Result<(), AllocError> {
    begin(costs, chosen, wants, goal, running)?;
    bring_all(costs, chosen, wants)?;
    wants.forget();
    chosen.forget_gifts();
    Ok(())
}
