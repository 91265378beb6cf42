//! Values of expressions and conditions.

use crate::facts::Facts;
use crate::forms::{Head, head_of_word, is_term};
use crate::printing::{filled_in, text_of};
use crate::typed::Binding;
use crate::world::World;
use std::alloc::AllocError;
use tp_explain_text::Tree;
use tp_text::read_whole;

/// The value of an operator.
fn reckon(head: Head, a: i64, b: i64) -> Option<i64> {
    match head {
        Head::Plus => a.checked_add(b),
        Head::Minus => a.checked_sub(b),
        Head::Times => a.checked_mul(b),
        _ => None,
    }
}

/// The value of a word, where it has one: `duration` is that of `?duration`.
fn value_of_word(word: &str, duration: Option<i64>) -> Option<i64> {
    if word == "?duration" {
        duration
    } else {
        read_whole(word)
    }
}

/// The value of an expression, where it has one: `duration` is that of `?duration`.
pub(crate) fn value_of<'a>(
    tree: &'a Tree,
    world: &World<'a>,
    bindings: &[Binding<'a>],
    facts: &Facts,
    duration: Option<i64>,
) -> Result<Option<i64>, AllocError> {
    let items = match tree {
        Tree::Word { .. } => return Ok(value_of_word(tree.word(), duration)),
        Tree::List { items, .. } => items.as_slice(),
    };
    let [first, rest @ ..] = items else {
        return Ok(None);
    };
    let head = head_of_word(first.word());
    match (head, rest) {
        (Head::Minus, [only]) => match value_of(only, world, bindings, facts, duration)? {
            Some(value) => Ok(value.checked_neg()),
            None => Ok(None),
        },
        (Head::Plus | Head::Minus | Head::Times, [left, right]) => {
            let a = value_of(left, world, bindings, facts, duration)?;
            let b = value_of(right, world, bindings, facts, duration)?;
            match (a, b) {
                (Some(a), Some(b)) => Ok(reckon(head, a, b)),
                _ => Ok(None),
            }
        }
        _ => {
            let name = text_of(tree, world, bindings)?;
            Ok(facts.fluent(name.as_str()).map(|fact| fact.value))
        }
    }
}

/// Whether two numbers are as a comparison says.
fn compare(head: Head, a: i64, b: i64) -> bool {
    match head {
        Head::Less => a < b,
        Head::AtMost => a <= b,
        Head::AtLeast => a >= b,
        Head::Greater => a > b,
        _ => a == b,
    }
}

/// The two numbers that a comparison compares, where both have a value. An equality of objects
/// compares none.
pub(crate) fn compared<'a>(
    tree: &'a Tree,
    world: &World<'a>,
    bindings: &[Binding<'a>],
    facts: &Facts,
) -> Result<Option<(i64, i64)>, AllocError> {
    let [first, left, right] = tree.items() else {
        return Ok(None);
    };
    match head_of_word(first.word()) {
        Head::Equal if is_term(left) && is_term(right) => return Ok(None),
        Head::Equal | Head::Less | Head::AtMost | Head::AtLeast | Head::Greater => {}
        _ => return Ok(None),
    }
    let a = value_of(left, world, bindings, facts, None)?;
    let b = value_of(right, world, bindings, facts, None)?;
    match (a, b) {
        (Some(a), Some(b)) => Ok(Some((a, b))),
        _ => Ok(None),
    }
}

/// The truth of a condition that is no composite one: none where it reads a fluent without a value.
fn simple_truth<'a>(
    tree: &'a Tree,
    head: Head,
    world: &World<'a>,
    bindings: &[Binding<'a>],
    facts: &Facts,
) -> Result<Option<bool>, AllocError> {
    match (head, tree.items()) {
        (Head::Equal, [_, left, right]) if is_term(left) && is_term(right) => {
            let a = filled_in(left.word(), bindings);
            Ok(Some(a == filled_in(right.word(), bindings)))
        }
        (Head::Equal | Head::Less | Head::AtMost | Head::AtLeast | Head::Greater, _) => {
            match compared(tree, world, bindings, facts)? {
                Some((a, b)) => Ok(Some(compare(head, a, b))),
                None => Ok(None),
            }
        }
        _ => {
            let name = text_of(tree, world, bindings)?;
            match facts.atom(name.as_str()) {
                Some(fact) => Ok(Some(fact.value != 0)),
                None => Ok(Some(false)),
            }
        }
    }
}

/// What the parts of a condition come to.
#[derive(Clone, Copy)]
struct Tally {
    all: bool,
    any: bool,
    is_known: bool,
    first: bool,
    count: usize,
}

impl Tally {
    /// Of no parts.
    fn new() -> Tally {
        Tally {
            all: true,
            any: false,
            is_known: true,
            first: false,
            count: 0,
        }
    }

    /// Of one part more.
    fn note(self, part: Option<bool>) -> Tally {
        let truth = part == Some(true);
        Tally {
            all: self.all && truth,
            any: self.any || truth,
            is_known: self.is_known && part.is_some(),
            first: if self.count == 0 { truth } else { self.first },
            count: self.count.saturating_add(1),
        }
    }

    /// The truth of a condition that joins them. An `imply` of two holds where its first part does
    /// not, or all do.
    fn joined(self, head: Head) -> Option<bool> {
        if !self.is_known {
            return None;
        }
        match head {
            Head::And | Head::Forall => Some(self.all),
            Head::Or | Head::Exists => Some(self.any),
            Head::Not => Some(!self.any),
            _ => Some(!self.first || self.all),
        }
    }
}

/// Whether a condition holds: none where it mentions a fluent without a value, wherever that is.
pub(crate) fn truth_of<'a>(
    tree: &'a Tree,
    world: &World<'a>,
    bindings: &[Binding<'a>],
    facts: &Facts,
) -> Result<Option<bool>, AllocError> {
    let Tree::List { items, .. } = tree else {
        return Ok(None);
    };
    let [first, rest @ ..] = items.as_slice() else {
        return Ok(Some(true));
    };
    let head = head_of_word(first.word());
    let mut tally = Tally::new();
    match head {
        Head::And | Head::Or | Head::Not | Head::Imply => {
            for part in rest {
                tally = tally.note(truth_of(part, world, bindings, facts)?);
            }
            Ok(tally.joined(head))
        }
        Head::Forall | Head::Exists => {
            let [variables, part, ..] = rest else {
                return Ok(None);
            };
            let combos = world.each_binding(bindings, variables.items())?;
            for combo in &combos {
                tally = tally.note(truth_of(part, world, combo, facts)?);
            }
            Ok(tally.joined(head))
        }
        _ => simple_truth(tree, head, world, bindings, facts),
    }
}
