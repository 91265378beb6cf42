//! Ranges of numbers. A bound past 10^15 stands for "without limit"; an empty range, whose bounds
//! are crossed, for "undefined".

use tp_search_compiled::{GREATEST, Ins, Op, Task, UNDEFINED, Value, part};

/// What stands for "without limit".
pub const INF: i64 = GREATEST + 1;

/// The numbers from `lo` to `hi`.
#[derive(Clone, Copy, Debug, PartialEq, Eq)]
pub struct Interval {
    pub lo: i64,
    pub hi: i64,
}

fn clamped(number: i64) -> i64 {
    number.max(-INF).min(INF)
}

fn product(a: i64, b: i64) -> i64 {
    clamped(a.saturating_mul(b))
}

impl Interval {
    /// No number.
    pub const EMPTY: Interval = Interval { lo: 1, hi: 0 };

    /// One number.
    pub fn point(number: i64) -> Interval {
        Interval {
            lo: number,
            hi: number,
        }
    }

    /// The value of a fluent in a state.
    pub fn of_value(number: i64) -> Interval {
        if number == UNDEFINED {
            Interval::EMPTY
        } else {
            Interval::point(number)
        }
    }

    pub fn is_empty(self) -> bool {
        self.lo > self.hi
    }

    pub fn plus(self, other: Interval) -> Interval {
        Interval {
            lo: clamped(self.lo.saturating_add(other.lo)),
            hi: clamped(self.hi.saturating_add(other.hi)),
        }
    }

    pub fn negated(self) -> Interval {
        Interval {
            lo: 0i64.saturating_sub(self.hi),
            hi: 0i64.saturating_sub(self.lo),
        }
    }

    pub fn minus(self, other: Interval) -> Interval {
        self.plus(other.negated())
    }

    pub fn times(self, other: Interval) -> Interval {
        let a = product(self.lo, other.lo);
        let b = product(self.lo, other.hi);
        let c = product(self.hi, other.lo);
        let d = product(self.hi, other.hi);
        Interval {
            lo: a.min(b).min(c).min(d),
            hi: a.max(b).max(c).max(d),
        }
    }

    /// The least range with all numbers of two.
    pub fn joined(self, other: Interval) -> Interval {
        if self.is_empty() {
            return other;
        }
        if other.is_empty() {
            return self;
        }
        Interval {
            lo: self.lo.min(other.lo),
            hi: self.hi.max(other.hi),
        }
    }
}

// More operands than a condition within the limits of a text has at once.
const DEPTH: usize = 72;

/// The operands of postfix code that wait for their operator.
#[derive(Drop)]
struct Operands {
    ranges: [Interval; DEPTH],
    count: usize,
}

impl Operands {
    fn push(&mut self, range: Interval) -> Option<()> {
        if range.is_empty() {
            return None;
        }
        let at = self.ranges.get_mut(self.count)?;
        *at = range;
        self.count = self.count.saturating_add(1);
        Some(())
    }

    fn pop(&mut self) -> Option<Interval> {
        self.count = self.count.checked_sub(1)?;
        self.ranges.get(self.count).copied()
    }
}

fn operated(ins: Ins, a: Interval, b: Interval) -> Interval {
    match ins {
        Ins::Add => a.plus(b),
        Ins::Sub => a.minus(b),
        _ => a.times(b),
    }
}

fn range_of(of: &[Interval], fluent: u32) -> Interval {
    of.get(fluent as usize).copied().unwrap_or(Interval::EMPTY)
}

fn step(operands: &mut Operands, ins: Ins, of: &[Interval], duration: Interval) -> Option<()> {
    let range = match ins {
        Ins::Num(n) => Interval::point(n),
        Ins::Fluent(f) => range_of(of, f),
        Ins::Duration => duration,
        Ins::Neg => operands.pop()?.negated(),
        Ins::Add | Ins::Sub | Ins::Mul => {
            let b = operands.pop()?;
            let a = operands.pop()?;
            operated(ins, a, b)
        }
    };
    operands.push(range)
}

fn run(code: &[Ins], of: &[Interval], duration: Interval) -> Option<Interval> {
    let mut operands = Operands {
        ranges: [Interval::EMPTY; DEPTH],
        count: 0,
    };
    for ins in code {
        step(&mut operands, *ins, of, duration)?;
    }
    operands.pop()
}

/// The range of an expression, for ranges of the fluents and of the duration; empty if a fluent of
/// it is undefined.
pub fn value(task: &Task, x: Value, of: &[Interval], duration: Interval) -> Interval {
    match x {
        Value::Num(n) => Interval::point(n),
        Value::Fluent(f) => range_of(of, f),
        Value::Code(span) => run(part(&task.code, span), of, duration).unwrap_or(Interval::EMPTY),
    }
}

/// Whether a comparison can hold for some numbers of two ranges.
pub fn may_hold(op: Op, a: Interval, b: Interval) -> bool {
    if a.is_empty() || b.is_empty() {
        return false;
    }
    match op {
        Op::Lt => a.lo < b.hi || a.lo == -INF || b.hi == INF,
        Op::Le => a.lo <= b.hi,
        Op::Eq => a.lo <= b.hi && b.lo <= a.hi,
        Op::Ne => a.lo != a.hi || b.lo != b.hi || a.lo != b.lo,
        Op::Ge => a.hi >= b.lo,
        Op::Gt => a.hi > b.lo || a.hi == INF || b.lo == -INF,
    }
}

/// What a comparison lacks, 0 if it may hold: the distance by which its sides have to come nearer.
/// None if that is no question of distance.
pub fn gap(op: Op, a: Interval, b: Interval) -> Option<i64> {
    if a.is_empty() || b.is_empty() {
        return None;
    }
    let up = clamped(b.lo.saturating_sub(a.hi));
    let down = clamped(a.lo.saturating_sub(b.hi));
    match op {
        Op::Ge => Some(up.max(0)),
        Op::Gt => Some(up.saturating_add(1).max(0)),
        Op::Le => Some(down.max(0)),
        Op::Lt => Some(down.saturating_add(1).max(0)),
        Op::Eq => Some(up.max(down).max(0)),
        Op::Ne => None,
    }
}
