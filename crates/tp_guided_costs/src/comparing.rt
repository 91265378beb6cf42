//! Comparisons as propositions, and how a change of a fluent may help them.

use crate::interval::{Interval, value};
use std::alloc::AllocError;
use tp_search_compiled::{Compare, Ins, Op, Task, Value, part};

/// A side of a comparison, as a key.
#[derive(Clone, Copy, PartialEq, Eq, PartialOrd, Ord)]
pub struct Side {
    kind: u8,
    number: i64,
    count: u32,
}

/// A comparison, as a key.
#[derive(Clone, Copy, PartialEq, Eq, PartialOrd, Ord)]
pub struct Key {
    op: Op,
    a: Side,
    b: Side,
}

fn side_of(value: Value) -> Side {
    match value {
        Value::Num(number) => Side {
            kind: 0,
            number,
            count: 0,
        },
        Value::Fluent(fluent) => Side {
            kind: 1,
            number: i64::from(fluent),
            count: 0,
        },
        Value::Code(span) => Side {
            kind: 2,
            number: i64::from(span.at),
            count: span.count,
        },
    }
}

/// The key of a comparison.
pub fn key_of(compare: Compare) -> Key {
    Key {
        op: compare.op,
        a: side_of(compare.a),
        b: side_of(compare.b),
    }
}

// Whether an instruction comes to the same whatever happens.
fn is_still(task: &Task, ins: Ins) -> bool {
    match ins {
        Ins::Fluent(fluent) => fluent >= task.changing_fluents,
        Ins::Duration => false,
        _ => true,
    }
}

fn never_changes(task: &Task, x: Value) -> bool {
    match x {
        Value::Num(_) => true,
        Value::Fluent(fluent) => fluent >= task.changing_fluents,
        Value::Code(span) => part(&task.code, span).iter().all(|i| is_still(task, *i)),
    }
}

/// An expression, by its number if it comes to the same whatever happens; `fixed` has the values of
/// the fluents.
pub fn folded(task: &Task, x: Value, fixed: &[Interval]) -> Value {
    if !never_changes(task, x) {
        return x;
    }
    let range = value(task, x, fixed, Interval::point(0));
    if range.lo == range.hi {
        Value::Num(range.lo)
    } else {
        x
    }
}

/// Whether a comparison mentions a fluent, and whether a lesser or a greater value of it may help.
#[derive(Clone, Copy)]
pub struct Mention {
    pub at_all: bool,
    pub fall: bool,
    pub rise: bool,
}

const NOT_AT_ALL: Mention = Mention {
    at_all: false,
    fall: false,
    rise: false,
};

fn either(first: Mention, second: Mention) -> Mention {
    Mention {
        at_all: first.at_all || second.at_all,
        fall: first.fall || second.fall,
        rise: first.rise || second.rise,
    }
}

fn is_fluent(ins: Ins, fluent: u32) -> bool {
    match ins {
        Ins::Fluent(other) => other == fluent,
        _ => false,
    }
}

// How one side of a comparison mentions a fluent.
fn mention_at(task: &Task, op: Op, x: Value, left: bool, fluent: u32) -> Mention {
    match x {
        Value::Fluent(other) if other == fluent => {
            let up = matches!(op, Op::Ge | Op::Gt) == left;
            let both = matches!(op, Op::Eq | Op::Ne);
            Mention {
                at_all: true,
                fall: !up || both,
                rise: up || both,
            }
        }
        Value::Code(span) if part(&task.code, span).iter().any(|i| is_fluent(*i, fluent)) => {
            Mention {
                at_all: true,
                fall: true,
                rise: true,
            }
        }
        _ => NOT_AT_ALL,
    }
}

/// How a comparison mentions a fluent.
pub fn mention_of(task: &Task, compare: &Compare, fluent: u32) -> Mention {
    either(
        mention_at(task, compare.op, compare.a, true, fluent),
        mention_at(task, compare.op, compare.b, false, fluent),
    )
}

fn push_fluents_in(code: &[Ins], into: &mut Vec<u32>) -> Result<(), AllocError> {
    for ins in code {
        if let Ins::Fluent(fluent) = ins {
            into.push(*fluent)?;
        }
    }
    Ok(())
}

/// Adds the fluents of an expression, as often as it mentions them.
pub fn push_fluents(task: &Task, x: Value, into: &mut Vec<u32>) -> Result<(), AllocError> {
    match x {
        Value::Num(_) => Ok(()),
        Value::Fluent(fluent) => {
            into.push(fluent)?;
            Ok(())
        }
        Value::Code(span) => push_fluents_in(part(&task.code, span), into),
    }
}
