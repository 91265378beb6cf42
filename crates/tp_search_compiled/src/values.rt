//! Numbers in terms of a state, and comparisons of them.

use crate::spans::{Span, part};
use tp_task::Comparison;

/// What stands for the value of a fluent that has none, and for a duration that is no whole number
/// of units: no number of a task is as small.
pub const UNDEFINED: i64 = i64::MIN;

/// The greatest magnitude of a number, 10^15.
pub const GREATEST: i64 = 1_000_000_000_000_000;

/// How two numbers are compared.
#[derive(Clone, Copy, Debug, PartialEq, Eq, PartialOrd, Ord, Hash)]
pub enum Op {
    Lt,
    Le,
    Eq,
    Ne,
    Ge,
    Gt,
}

impl Op {
    /// A comparison, or its negation.
    pub fn of(how: Comparison, positive: bool) -> Op {
        match (how, positive) {
            (Comparison::Less, true) | (Comparison::AtLeast, false) => Op::Lt,
            (Comparison::AtMost, true) | (Comparison::Greater, false) => Op::Le,
            (Comparison::Equal, true) => Op::Eq,
            (Comparison::Equal, false) => Op::Ne,
            (Comparison::AtLeast, true) | (Comparison::Less, false) => Op::Ge,
            (Comparison::Greater, true) | (Comparison::AtMost, false) => Op::Gt,
        }
    }

    /// Whether two numbers compare so.
    pub fn holds(self, a: i64, b: i64) -> bool {
        match self {
            Op::Lt => a < b,
            Op::Le => a <= b,
            Op::Eq => a == b,
            Op::Ne => a != b,
            Op::Ge => a >= b,
            Op::Gt => a > b,
        }
    }
}

/// A step of postfix code.
#[derive(Clone, Copy, Debug, PartialEq, Eq)]
pub enum Ins {
    Num(i64),
    Fluent(u32),
    Duration,
    Add,
    Sub,
    Mul,
    Neg,
}

/// An expression: one number, one fluent, or postfix code.
#[derive(Clone, Copy, Debug, PartialEq, Eq)]
pub enum Value {
    Num(i64),
    Fluent(u32),
    Code(Span),
}

/// A comparison of two expressions.
#[derive(Clone, Copy, Debug, PartialEq, Eq)]
pub struct Compare {
    pub op: Op,
    pub a: Value,
    pub b: Value,
}

/// A number that was worked out, if it is in range.
pub fn ranged(number: Option<i64>) -> Option<i64> {
    match number {
        Some(n) if -GREATEST <= n && n <= GREATEST => Some(n),
        _ => None,
    }
}

// More operands than a condition within the limits of a text has at once.
const DEPTH: usize = 72;

/// The operands of postfix code that wait for their operator.
#[derive(Drop)]
struct Operands {
    numbers: [i64; DEPTH],
    count: usize,
}

impl Operands {
    fn push(&mut self, number: i64) -> Option<()> {
        let at = self.numbers.get_mut(self.count)?;
        *at = number;
        self.count = self.count.saturating_add(1);
        Some(())
    }

    fn pop(&mut self) -> Option<i64> {
        self.count = self.count.checked_sub(1)?;
        self.numbers.get(self.count).copied()
    }
}

fn operated(ins: Ins, a: i64, b: i64) -> Option<i64> {
    match ins {
        Ins::Add => ranged(a.checked_add(b)),
        Ins::Sub => ranged(a.checked_sub(b)),
        _ => ranged(a.checked_mul(b)),
    }
}

fn step(operands: &mut Operands, ins: Ins, values: &[i64], units: i64) -> Option<()> {
    let number = match ins {
        Ins::Num(n) => n,
        Ins::Fluent(f) => values.get(f as usize).copied()?,
        Ins::Duration => units,
        Ins::Neg => 0i64.checked_sub(operands.pop()?)?,
        Ins::Add | Ins::Sub | Ins::Mul => {
            let b = operands.pop()?;
            let a = operands.pop()?;
            operated(ins, a, b)?
        }
    };
    operands.push(number)
}

// What postfix code comes to, for the values of the fluents and a duration in units.
fn run(code: &[Ins], values: &[i64], units: i64) -> Option<i64> {
    let mut operands = Operands {
        numbers: [0; DEPTH],
        count: 0,
    };
    for ins in code {
        step(&mut operands, *ins, values, units)?;
    }
    operands.pop()
}

/// The value of an expression whose fluents are defined, for a duration in units; None where a
/// number is out of range.
pub fn value_of(code: &[Ins], x: Value, values: &[i64], units: i64) -> Option<i64> {
    match x {
        Value::Num(n) => Some(n),
        Value::Fluent(f) => values.get(f as usize).copied(),
        Value::Code(span) => run(part(code, span), values, units),
    }
}
