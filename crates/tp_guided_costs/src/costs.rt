//! What propositions and operators cost in a state with running steps.

use crate::interval::{Interval, may_hold, value};
use crate::relaxed::{Compared, Relaxed};
use std::alloc::{AllocError, Global};
use tp_search_compiled::{Buckets, NONE, Running, State, Task, small};

/// The cost of what is never reached.
pub const DEAD: u32 = u32::MAX;

/// Costs at or above this are one.
pub const CAP: u32 = 16_384;

/// What a proposition costs, the operator that brings it, and whether that is final.
#[derive(Clone, Copy)]
struct PropCost {
    cost: u32,
    by: u32,
    settled: bool,
}

const UNREACHED: PropCost = PropCost {
    cost: DEAD,
    by: NONE,
    settled: false,
};

/// How many of an operator's needs are not settled yet, what the others cost, and its total once it
/// fired.
#[derive(Clone, Copy)]
struct OpCost {
    left: u32,
    sum: u32,
    total: u32,
}

/// The costs of one state.
#[derive(Drop)]
pub struct Costs<'a> {
    pub task: &'a Task,
    pub relaxed: &'a Relaxed,
    /// 0: of equally cheap operators the first; else by a hash.
    pub seed: u64,
    /// A need counts by the greatest in place of the sum.
    by_most: bool,
    props: Vec<PropCost>,
    ops: Vec<OpCost>,
    /// How much each operator needs.
    needs: Vec<u32>,
    /// Whether each operator writes fluents.
    writes: Vec<bool>,
    /// Of each comparison: how often its operator has to be used.
    uses: Vec<u32>,
    /// Of each fluent: its value in the state, its range by now, and how often that changed.
    pub at: Vec<Interval>,
    pub now: Vec<Interval>,
    pub changes: Vec<u8>,
    queue: Buckets,
    /// Operators whose right sides changed.
    pub again: Vec<u32>,
}

fn mixed(seed: u64, op: u32) -> u64 {
    let x = (seed ^ u64::from(op)).wrapping_mul(0x9e37_79b9_7f4a_7c15);
    (x ^ (x >> 29)).wrapping_mul(0xbf58_476d_1ce4_e5b9) >> 20
}

fn needs_of(alloc: Global, relaxed: &Relaxed) -> Result<Vec<u32>, AllocError> {
    let mut needs = Vec::with_capacity(alloc, relaxed.ops())?;
    for op in 0..small(relaxed.ops()) {
        needs.push(small(relaxed.pre.of(op).len()))?;
    }
    Ok(needs)
}

fn writes_of(alloc: Global, task: &Task, relaxed: &Relaxed) -> Result<Vec<bool>, AllocError> {
    let mut writes = Vec::with_capacity(alloc, relaxed.ops())?;
    for event in &relaxed.event {
        let some = match task.event(*event) {
            Some(event) => event.writes.count > 0,
            None => false,
        };
        writes.push(some)?;
    }
    Ok(writes)
}

impl<'a> Costs<'a> {
    pub fn new(
        alloc: Global,
        task: &'a Task,
        relaxed: &'a Relaxed,
        by_most: bool,
    ) -> Result<Self, AllocError> {
        let fluents = task.fluents as usize;
        let idle = OpCost {
            left: 0,
            sum: 0,
            total: DEAD,
        };
        Ok(Costs {
            task,
            relaxed,
            seed: 0,
            by_most,
            props: Vec::from_elem(alloc, UNREACHED, relaxed.props as usize)?,
            ops: Vec::from_elem(alloc, idle, relaxed.ops())?,
            needs: needs_of(alloc, relaxed)?,
            writes: writes_of(alloc, task, relaxed)?,
            uses: Vec::from_elem(alloc, 1u32, relaxed.compares.len())?,
            at: Vec::from_elem(alloc, Interval::EMPTY, fluents)?,
            now: Vec::from_elem(alloc, Interval::EMPTY, fluents)?,
            changes: Vec::from_elem(alloc, 0u8, fluents)?,
            queue: Buckets::new(alloc, CAP.saturating_add(1))?,
            again: Vec::new(alloc),
        })
    }

    /// What a proposition costs.
    pub fn cost(&self, prop: u32) -> u32 {
        match self.props.get(prop as usize) {
            Some(at) => at.cost,
            None => DEAD,
        }
    }

    /// The operator that brings a proposition, none if it holds or is never reached.
    pub fn by(&self, prop: u32) -> u32 {
        match self.props.get(prop as usize) {
            Some(at) => at.by,
            None => NONE,
        }
    }

    /// Has another operator bring a proposition.
    pub fn set_by(&mut self, prop: u32, op: u32) {
        if let Some(at) = self.props.get_mut(prop as usize) {
            at.by = op;
        }
    }

    /// What an operator that fired costs, `DEAD` if it did not.
    pub fn total(&self, op: u32) -> u32 {
        match self.ops.get(op as usize) {
            Some(at) => at.total,
            None => DEAD,
        }
    }

    /// Whether an operator fired.
    pub fn reached(&self, op: u32) -> bool {
        self.total(op) != DEAD
    }

    /// How often the operator that brings a comparison has to be used.
    pub fn uses_of(&self, compare: u32) -> u32 {
        self.uses.get(compare as usize).copied().unwrap_or(1)
    }

    /// Takes over how often the operator that brings a comparison has to be used.
    pub fn set_uses(&mut self, compare: u32, uses: u32) {
        if let Some(at) = self.uses.get_mut(compare as usize) {
            *at = uses;
        }
    }

    /// Offers to bring a proposition at a cost.
    pub fn offer(&mut self, prop: u32, cost: u32, op: u32) -> Result<(), AllocError> {
        let seed = self.seed;
        let Some(at) = self.props.get_mut(prop as usize) else {
            return Ok(());
        };
        if at.settled {
            return Ok(());
        }
        if cost < at.cost {
            at.cost = cost;
            at.by = op;
            return self.queue.push(cost, prop);
        }
        if seed != 0 && cost == at.cost && at.by != NONE && mixed(seed, op) < mixed(seed, at.by) {
            at.by = op;
        }
        Ok(())
    }

    // A proposition that holds.
    fn hold(&mut self, prop: u32) -> Result<(), AllocError> {
        if let Some(at) = self.props.get_mut(prop as usize) {
            at.cost = 0;
            self.queue.push(0, prop)?;
        }
        Ok(())
    }

    fn fire(&mut self, op: u32) -> Result<(), AllocError> {
        let relaxed = self.relaxed;
        let weight = if relaxed.event_of(op) == NONE { 0 } else { 1 };
        let Some(at) = self.ops.get_mut(op as usize) else {
            return Ok(());
        };
        at.total = at.sum.saturating_add(weight).min(CAP);
        let total = at.total;
        for prop in relaxed.adds.of(op) {
            self.offer(*prop, total, op)?;
        }
        if self.writes.get(op as usize).copied().unwrap_or(false) {
            self.write_all(op)?;
        }
        Ok(())
    }

    // What an operator writes, and those that read it.
    fn write_all(&mut self, op: u32) -> Result<(), AllocError> {
        self.again.push(op)?;
        for _ in 0..u64::MAX {
            let Some(op) = self.again.pop() else {
                break;
            };
            self.write(op)?;
        }
        Ok(())
    }

    // One need of an operator is settled; whether it was the last.
    fn lower(&mut self, op: u32, cost: u32) -> bool {
        let by_most = self.by_most;
        let Some(at) = self.ops.get_mut(op as usize) else {
            return false;
        };
        at.left = at.left.saturating_sub(1);
        at.sum = if by_most {
            at.sum.max(cost)
        } else {
            at.sum.saturating_add(cost).min(CAP)
        };
        at.left == 0
    }

    // Whether a proposition is settled only now.
    fn is_new(&mut self, prop: u32) -> bool {
        match self.props.get_mut(prop as usize) {
            Some(at) => {
                let new = !at.settled;
                at.settled = true;
                new
            }
            None => false,
        }
    }

    fn settle(&mut self, prop: u32, cost: u32) -> Result<(), AllocError> {
        if !self.is_new(prop) {
            return Ok(());
        }
        let relaxed = self.relaxed;
        for op in relaxed.users.of(prop) {
            if self.lower(*op, cost) {
                self.fire(*op)?;
            }
        }
        Ok(())
    }

    fn spread(&mut self) -> Result<(), AllocError> {
        let relaxed = self.relaxed;
        for op in &relaxed.free {
            self.fire(*op)?;
        }
        for _ in 0..u64::MAX {
            let Some((cost, prop)) = self.queue.pop() else {
                break;
            };
            self.settle(prop, cost)?;
        }
        Ok(())
    }

    fn reset(&mut self, state: &State) {
        for prop in self.props.iter_mut() {
            *prop = UNREACHED;
        }
        for (op, left) in self.ops.iter_mut().zip(&self.needs) {
            *op = OpCost {
                left: *left,
                sum: 0,
                total: DEAD,
            };
        }
        for uses in self.uses.iter_mut() {
            *uses = 1;
        }
        self.queue.clear();
        self.again.clear();
        self.reset_numbers(state);
    }

    fn reset_numbers(&mut self, state: &State) {
        for (at, value) in self.at.iter_mut().zip(&state.values) {
            *at = Interval::of_value(*value);
        }
        for (now, at) in self.now.iter_mut().zip(&self.at) {
            *now = *at;
        }
        for changes in self.changes.iter_mut() {
            *changes = 0;
        }
    }

    fn hold_literals(&mut self, state: &State) -> Result<(), AllocError> {
        for atom in 0..self.relaxed.atoms {
            let literal = atom.saturating_mul(2);
            if state.has(atom) {
                self.hold(literal)?;
            } else {
                self.hold(literal.saturating_add(1))?;
            }
        }
        Ok(())
    }

    fn may_hold_at(&self, compared: &Compared) -> bool {
        let none = Interval::point(0);
        let compare = compared.compare;
        let a = value(self.task, compare.a, &self.at, none);
        let b = value(self.task, compare.b, &self.at, none);
        may_hold(compare.op, a, b)
    }

    fn hold_compares(&mut self) -> Result<(), AllocError> {
        let relaxed = self.relaxed;
        for compared in &relaxed.compares {
            if self.may_hold_at(compared) {
                self.hold(compared.prop)?;
            }
        }
        Ok(())
    }

    fn hold_defined(&mut self) -> Result<(), AllocError> {
        let relaxed = self.relaxed;
        for (place, prop) in relaxed.defined.iter().enumerate() {
            let has = match self.at.get(place) {
                Some(range) => !range.is_empty(),
                None => false,
            };
            if *prop != NONE && has {
                self.hold(*prop)?;
            }
        }
        Ok(())
    }

    fn hold_running(&mut self, running: &[Running]) -> Result<(), AllocError> {
        for step in running {
            let prop = self.relaxed.running_of(step.action);
            if prop != NONE && self.cost(prop) != 0 {
                self.hold(prop)?;
            }
        }
        Ok(())
    }

    /// Finds the costs of a state with running steps.
    pub fn find(&mut self, state: &State, running: &[Running]) -> Result<(), AllocError> {
        self.reset(state);
        self.hold_literals(state)?;
        self.hold_others(running)?;
        self.spread()
    }

    fn hold_others(&mut self, running: &[Running]) -> Result<(), AllocError> {
        self.hold_compares()?;
        self.hold_defined()?;
        self.hold_running(running)
    }
}
