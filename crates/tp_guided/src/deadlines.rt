//! Whether what running steps need at their ends can come before them.

use std::alloc::{AllocError, Global};
use tp_guided_costs::{INF, Interval, Relaxed, value};
use tp_search_compiled::{Action, Buckets, NONE, Op, Running, State, Task, small};

// The time until the last running step ends has at most so many parts.
const PARTS: u32 = 8_192;

/// How soon each proposition can hold, where nothing is deleted and comparisons hold. All room is
/// kept from one state to the next.
#[derive(Drop)]
pub struct Deadlines<'t> {
    relaxed: &'t Relaxed,
    /// Of each action: the ticks that it lasts at least.
    least: &'t [u32],
    /// Of each action: the ticks left of its running step that ends first, NONE without one.
    left: Vec<u32>,
    /// Of each proposition: the part at which it can hold, NONE while none is known.
    times: Vec<u32>,
    /// Of each operator: how much it needs, and how much of that is still missing.
    needs: Vec<u32>,
    missing: Vec<u32>,
    queue: Buckets,
    /// The ticks of a part.
    grain: u32,
    /// The part at which the last running step ends.
    last: u32,
}

// The ranges that fluents may ever have.
fn ranges_of(alloc: Global, task: &Task) -> Result<Vec<Interval>, AllocError> {
    let mut ranges = Vec::with_capacity(alloc, task.numbers.len())?;
    for number in &task.numbers {
        let range = if small(ranges.len()) < task.changing_fluents {
            Interval { lo: -INF, hi: INF }
        } else {
            Interval::of_value(*number)
        };
        ranges.push(range)?;
    }
    Ok(ranges)
}

fn least_of(task: &Task, ranges: &[Interval], action: &Action) -> u32 {
    let mut ticks: i64 = 1;
    for rule in task.rule_of(action) {
        let range = value(task, rule.value, ranges, Interval::point(0));
        if rule.op != Op::Le && !range.is_empty() {
            ticks = ticks.max(range.lo.saturating_mul(i64::from(task.scale)));
        }
    }
    u32::try_from(ticks).unwrap_or(NONE)
}

/// The ticks that each action of a task lasts at least.
pub fn least_ticks(alloc: Global, task: &Task) -> Result<Vec<u32>, AllocError> {
    let ranges = ranges_of(alloc, task)?;
    let mut ticks = Vec::with_capacity(alloc, task.actions.len())?;
    for action in &task.actions {
        ticks.push(least_of(task, &ranges, action))?;
    }
    Ok(ticks)
}

fn needs_of(alloc: Global, relaxed: &Relaxed) -> Result<Vec<u32>, AllocError> {
    let mut needs = Vec::with_capacity(alloc, relaxed.ops())?;
    for op in 0..small(relaxed.ops()) {
        needs.push(small(relaxed.pre.of(op).len()))?;
    }
    Ok(needs)
}

// Whether a proposition is a literal that does not hold in a state.
fn is_lacking(relaxed: &Relaxed, state: &State, prop: u32) -> bool {
    prop < relaxed.atoms.saturating_mul(2) && state.has(prop / 2) != (prop % 2 == 0)
}

impl<'t> Deadlines<'t> {
    /// Room for a relaxed task, whose actions last so many ticks at least.
    pub fn new(alloc: Global, relaxed: &'t Relaxed, least: &'t [u32]) -> Result<Self, AllocError> {
        Ok(Deadlines {
            relaxed,
            least,
            left: Vec::from_elem(alloc, NONE, least.len())?,
            times: Vec::from_elem(alloc, NONE, relaxed.props as usize)?,
            needs: needs_of(alloc, relaxed)?,
            missing: Vec::from_elem(alloc, 0u32, relaxed.ops())?,
            queue: Buckets::new(alloc, PARTS.saturating_add(1))?,
            grain: 1,
            last: 0,
        })
    }

    /// Whether the end of a running step needs something that does not hold in a state, and that
    /// comes later than the end even where nothing is deleted.
    pub fn are_missed(&mut self, state: &State, running: &[Running]) -> Result<bool, AllocError> {
        if !self.are_pressing(state, running) {
            return Ok(false);
        }
        self.begin(running);
        self.hold_literals(state)?;
        self.hold_others(running)?;
        self.spread()?;
        let missed = running.iter().any(|r| self.is_missed(r));
        self.forget(running);
        Ok(missed)
    }

    fn are_pressing(&self, state: &State, running: &[Running]) -> bool {
        running.iter().any(|r| self.is_pressing(state, r))
    }

    fn is_pressing(&self, state: &State, step: &Running) -> bool {
        let relaxed = self.relaxed;
        let needs = relaxed.pre.of(relaxed.end_of(step.action));
        needs.iter().any(|p| is_lacking(relaxed, state, *p))
    }

    fn is_missed(&self, step: &Running) -> bool {
        let relaxed = self.relaxed;
        let part = self.part_of(step.left);
        let needs = relaxed.pre.of(relaxed.end_of(step.action));
        needs.iter().any(|p| self.time_of(*p) > part)
    }

    // The part that a tick from now on is in.
    fn part_of(&self, ticks: u32) -> u32 {
        ticks.checked_div(self.grain).unwrap_or(0)
    }

    fn time_of(&self, prop: u32) -> u32 {
        self.times.get(prop as usize).copied().unwrap_or(NONE)
    }

    fn begin(&mut self, running: &[Running]) {
        let mut last: u32 = 0;
        for step in running {
            last = last.max(step.left);
            if let Some(left) = self.left.get_mut(step.action as usize) {
                *left = step.left.min(*left);
            }
        }
        self.grain = last.div_ceil(PARTS).max(1);
        self.last = self.part_of(last);
        self.reset();
    }

    fn reset(&mut self) {
        for time in self.times.iter_mut() {
            *time = NONE;
        }
        for (missing, needs) in self.missing.iter_mut().zip(&self.needs) {
            *missing = *needs;
        }
        self.queue.clear();
    }

    fn forget(&mut self, running: &[Running]) {
        for step in running {
            if let Some(left) = self.left.get_mut(step.action as usize) {
                *left = NONE;
            }
        }
    }

    // A proposition can hold from a part on.
    fn reach(&mut self, prop: u32, time: u32) -> Result<(), AllocError> {
        let last = self.last;
        let Some(at) = self.times.get_mut(prop as usize) else {
            return Ok(());
        };
        if time >= *at || time > last {
            return Ok(());
        }
        *at = time;
        self.queue.push(time, prop)
    }

    fn hold_literals(&mut self, state: &State) -> Result<(), AllocError> {
        for atom in 0..self.relaxed.atoms {
            let literal = atom.saturating_mul(2);
            if state.has(atom) {
                self.reach(literal, 0)?;
            } else {
                self.reach(literal.saturating_add(1), 0)?;
            }
        }
        Ok(())
    }

    fn hold_others(&mut self, running: &[Running]) -> Result<(), AllocError> {
        let relaxed = self.relaxed;
        for compared in &relaxed.compares {
            self.reach(compared.prop, 0)?;
        }
        for prop in &relaxed.defined {
            self.reach(*prop, 0)?;
        }
        for step in running {
            self.reach(relaxed.running_of(step.action), 0)?;
        }
        Ok(())
    }

    fn spread(&mut self) -> Result<(), AllocError> {
        let relaxed = self.relaxed;
        for op in &relaxed.free {
            self.fire(*op, 0)?;
        }
        for _ in 0..u64::MAX {
            let Some((time, prop)) = self.queue.pop() else {
                break;
            };
            if self.time_of(prop) == time {
                self.settle(prop, time)?;
            }
        }
        Ok(())
    }

    fn settle(&mut self, prop: u32, time: u32) -> Result<(), AllocError> {
        let relaxed = self.relaxed;
        for op in relaxed.users.of(prop) {
            if self.is_last(*op) {
                self.fire(*op, time)?;
            }
        }
        Ok(())
    }

    // One need of an operator is there; whether it was the last.
    fn is_last(&mut self, op: u32) -> bool {
        let Some(missing) = self.missing.get_mut(op as usize) else {
            return false;
        };
        *missing = missing.saturating_sub(1);
        *missing == 0
    }

    fn fire(&mut self, op: u32, time: u32) -> Result<(), AllocError> {
        let relaxed = self.relaxed;
        let at = time.saturating_add(self.part_of(self.ticks_of(op)));
        for prop in relaxed.adds.of(op) {
            self.reach(*prop, at)?;
        }
        Ok(())
    }

    // How long after its needs an operator comes: an end after the start, or after the ticks left.
    fn ticks_of(&self, op: u32) -> u32 {
        let action = self.relaxed.action_of(op);
        if action == NONE || self.relaxed.end_of(action) != op {
            return 0;
        }
        let left = self.left.get(action as usize).copied().unwrap_or(NONE);
        if left != NONE {
            return left;
        }
        self.least.get(action as usize).copied().unwrap_or(0)
    }
}
