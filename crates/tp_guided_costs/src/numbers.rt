//! What operators that fired do to the ranges of fluents, and which comparisons that helps.

use crate::costs::{CAP, Costs};
use crate::interval::{INF, Interval, gap, may_hold, value};
use std::alloc::AllocError;
use tp_search_compiled::{Compare, NONE, Op, Rule, Write, WriteTo};

/// The most uses of one action for one number.
const REPEATS: i64 = 1_000;

/// After so many changes a fluent's range has no limit where it grows.
const WIDEN: u8 = 6;

fn range_at(ranges: &[Interval], fluent: u32) -> Interval {
    ranges
        .get(fluent as usize)
        .copied()
        .unwrap_or(Interval::EMPTY)
}

/// A write: what its fluent was before, the range after one use in the state, and the range by now.
#[derive(Clone, Copy)]
struct Grown {
    to: WriteTo,
    old: Interval,
    one: Interval,
    new: Interval,
}

// What adding a range, as often as wanted, makes of another.
fn opened(old: Interval, by: Interval) -> Interval {
    Interval {
        lo: if by.lo < 0 { -INF } else { old.lo },
        hi: if by.hi > 0 { INF } else { old.hi },
    }
}

// A range that changed once too often, without limits where it grew.
fn widened(old: Interval, new: Interval) -> Interval {
    Interval {
        lo: if new.lo < old.lo { -INF } else { new.lo },
        hi: if new.hi > old.hi { INF } else { new.hi },
    }
}

// What a write of a range makes of a fluent; `base` is its value in the state.
fn growth(to: WriteTo, right: Interval, old: Interval, base: Interval) -> Grown {
    let by = if to.op == Write::Decrease {
        right.negated()
    } else {
        right
    };
    let (one, new) = match to.op {
        Write::Assign => (by, old.joined(by)),
        Write::ScaleUp => (old.times(by), old.joined(old.times(by))),
        Write::Increase | Write::Decrease => {
            let from = if base.is_empty() { old } else { base };
            (from.plus(by), opened(old, by))
        }
    };
    Grown { to, old, one, new }
}

fn narrowed(all: Interval, rule: &Rule, range: Interval) -> Interval {
    Interval {
        lo: if rule.op == Op::Le {
            all.lo
        } else {
            all.lo.max(range.lo)
        },
        hi: if rule.op == Op::Ge {
            all.hi
        } else {
            all.hi.min(range.hi)
        },
    }
}

impl Costs<'_> {
    /// The durations that an action may have, in units.
    pub fn duration(&self, action: u32) -> Interval {
        let mut all = Interval { lo: 1, hi: INF };
        let Some(action) = self.task.action(action) else {
            return Interval::point(1);
        };
        for rule in self.task.rule_of(action) {
            let range = value(self.task, rule.value, &self.now, Interval::point(0));
            if range.is_empty() {
                return Interval::point(1);
            }
            all = narrowed(all, rule, range);
        }
        let hi = if all.hi == INF { all.lo } else { all.hi };
        Interval {
            lo: all.lo.min(hi),
            hi,
        }
    }

    /// The writes of an operator that fired.
    pub fn write(&mut self, op: u32) -> Result<(), AllocError> {
        let task = self.task;
        let Some(event) = task.event(self.relaxed.event_of(op)) else {
            return Ok(());
        };
        let duration = if event.duration {
            self.duration(self.relaxed.action_of(op))
        } else {
            Interval::point(0)
        };
        for to in task.writes_of(event) {
            self.write_to(op, to, duration)?;
        }
        Ok(())
    }

    fn write_to(&mut self, op: u32, to: &WriteTo, duration: Interval) -> Result<(), AllocError> {
        let right = value(self.task, to.value, &self.now, duration);
        let old = range_at(&self.now, to.fluent);
        if right.is_empty() || (old.is_empty() && to.op != Write::Assign) {
            return Ok(());
        }
        let grown = growth(*to, right, old, range_at(&self.at, to.fluent));
        let defined = self.relaxed.defined_of(to.fluent);
        if to.op == Write::Assign && defined != NONE {
            self.offer(defined, self.total(op), op)?;
        }
        self.grow(op, grown)
    }

    fn set_now(&mut self, fluent: u32, range: Interval) {
        if let Some(at) = self.now.get_mut(fluent as usize) {
            *at = range;
        }
    }

    // Counts a change of a fluent's range; whether there were too many.
    fn changes_often(&mut self, fluent: u32) -> bool {
        match self.changes.get_mut(fluent as usize) {
            Some(changes) => {
                *changes = changes.saturating_add(1);
                *changes > WIDEN
            }
            None => false,
        }
    }

    fn grow(&mut self, op: u32, made: Grown) -> Result<(), AllocError> {
        let fluent = made.to.fluent;
        let mut grown = made;
        if grown.new != grown.old && self.changes_often(fluent) {
            grown.new = widened(grown.old, grown.new);
        }
        self.set_now(fluent, grown.new);
        let relaxed = self.relaxed;
        let base = range_at(&self.at, fluent);
        if base.is_empty() || grown.one.lo < base.lo {
            self.help(relaxed.helped_by_fall.of(fluent), op, &grown)?;
        }
        if base.is_empty() || grown.one.hi > base.hi {
            self.help(relaxed.helped_by_rise.of(fluent), op, &grown)?;
        }
        if grown.new != grown.old {
            self.wake(fluent)?;
        }
        Ok(())
    }

    // Those that fired and read a fluent write again.
    fn wake(&mut self, fluent: u32) -> Result<(), AllocError> {
        let relaxed = self.relaxed;
        for op in relaxed.readers.of(fluent) {
            if self.reached(*op) {
                self.again.push(*op)?;
            }
        }
        Ok(())
    }

    fn help(&mut self, compares: &[u32], op: u32, grown: &Grown) -> Result<(), AllocError> {
        for compare in compares {
            self.help_one(*compare, op, grown)?;
        }
        Ok(())
    }

    // Offers to bring a comparison that a write helps.
    fn help_one(&mut self, number: u32, op: u32, grown: &Grown) -> Result<(), AllocError> {
        let relaxed = self.relaxed;
        let Some(compared) = relaxed.compares.get(number as usize) else {
            return Ok(());
        };
        let known = self.cost(compared.prop);
        if known <= self.total(op) || !self.may_compare(&compared.compare) {
            return Ok(());
        }
        let Some(uses) = self.uses_for(&compared.compare, grown) else {
            return Ok(());
        };
        let cost = self.cost_of_uses(op, uses);
        if cost < known {
            self.set_uses(number, uses);
            self.offer(compared.prop, cost, op)?;
        }
        Ok(())
    }

    fn cost_of_uses(&self, op: u32, uses: u32) -> u32 {
        let running = self.relaxed.running_of(self.relaxed.action_of(op));
        let each: u32 = if running == NONE { 1 } else { 2 };
        let further = each.saturating_mul(uses.saturating_sub(1));
        self.total(op).saturating_add(further).min(CAP)
    }

    // The ranges of both sides of a comparison.
    fn sides(&self, compare: &Compare) -> (Interval, Interval) {
        let none = Interval::point(0);
        let a = value(self.task, compare.a, &self.now, none);
        let b = value(self.task, compare.b, &self.now, none);
        (a, b)
    }

    fn may_compare(&self, compare: &Compare) -> bool {
        let (a, b) = self.sides(compare);
        may_hold(compare.op, a, b)
    }

    // What a comparison lacks where a fluent has this range.
    fn gap_with(&mut self, compare: &Compare, fluent: u32, range: Interval) -> Option<i64> {
        self.set_now(fluent, range);
        let (a, b) = self.sides(compare);
        gap(compare.op, a, b)
    }

    // How often an operator has to be used until a comparison may hold; None if it does not help.
    fn uses_for(&mut self, compare: &Compare, grown: &Grown) -> Option<u32> {
        let fluent = grown.to.fluent;
        let base = range_at(&self.at, fluent);
        let from = if base.is_empty() { grown.one } else { base };
        let before = self.gap_with(compare, fluent, from);
        let after = self.gap_with(compare, fluent, grown.one);
        self.set_now(fluent, grown.old);
        let held = self.may_compare(compare);
        self.set_now(fluent, grown.new);
        match (before, after) {
            (_, Some(0)) => Some(1),
            (Some(x), Some(y)) if y < x && grown.to.op != Write::Assign => Some(repeats(x, y)),
            _ if held => None,
            _ => Some(1),
        }
    }
}

// How many uses close a gap that one use narrows.
fn repeats(before: i64, after: i64) -> u32 {
    let step = before.saturating_sub(after);
    let up = before.saturating_add(step.saturating_sub(1));
    let uses = up.checked_div(step).unwrap_or(1).min(REPEATS);
    u32::try_from(uses).unwrap_or(1)
}
