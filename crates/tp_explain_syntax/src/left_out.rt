//! Constructs that are left out.

use crate::declarations::Fault;
use crate::expressions::begins_number;
use std::alloc::AllocError;
use tp_explain_text::{Page, Step, Tree, error_at, head_of, put};

/// What constructs are, and what to write for them.
const WAYS: [(&str, &str, &str); 11] = [
    (
        "when",
        "conditional effects, `when`, are not supported",
        "write an action for each case",
    ),
    (
        "division",
        "division is not supported",
        "write a product on the other side",
    ),
    (
        "scale-down",
        "`scale-down` is not supported",
        "assign a function that :init gives the result",
    ),
    (
        "at-end-duration",
        "a duration constraint `at end` is not supported",
        "write `at start`, over functions that nothing changes while the step lasts",
    ),
    (
        "duration-in-condition",
        "`?duration` in a condition is not supported",
        "write a bound in `:duration`, over a function",
    ),
    (
        "continuous",
        "continuous change, `#t`, is not supported",
        "write a change by `?duration` at the start or the end",
    ),
    (
        "timed-literal",
        "timed initial literals are not supported",
        "write a chain of steps that brings them",
    ),
    (
        "derived",
        "derived predicates are not supported",
        "write what defines them where they are asked for",
    ),
    (
        "preference",
        "preferences are not supported",
        "have a step leave an atom, and ask for it in the goal",
    ),
    (
        "constraint",
        "trajectory constraints are not supported",
        "have a step leave an atom, and ask for it in the goal",
    ),
    (
        "either",
        "`either` is not supported in declarations of types and objects",
        "declare a type above both",
    ),
];

/// The same of any other.
const OTHER: (&str, &str, &str) = ("", "this is not supported", "write it without");

/// Ends an explanation by what to write.
fn put_way(page: &mut Page, way: &str) {
    put!(page; "help: {way} (docs/WAYS-ROUND.md)\n");
}

/// The type behind `-` that is not `number`.
fn other_type<'t>(items: &'t [Tree]) -> Option<&'t Tree> {
    let mut after_dash = false;
    for tree in items {
        if after_dash && !tree.is("number") {
            return Some(tree);
        }
        after_dash = tree.is("-");
    }
    None
}

/// Where a construct stands: at the list, or at its part that is left out.
fn place_in(step: &Step<'_>, at: usize, what: &str) -> usize {
    let part = match what.as_bytes() {
        b"duration-in-condition" => step.items.iter().find(|tree| tree.is("?duration")),
        b"continuous" => step.items.iter().find(|tree| tree.is("#t")),
        b"object-fluent" => other_type(step.items),
        _ => None,
    };
    part.map_or(at, |tree| tree.place())
}

/// What a word is that begins as a number and is not one, and what to do about it.
fn number_form(word: &str) -> (&'static str, &'static str) {
    let digits = word.strip_prefix('-').unwrap_or(word).as_bytes();
    let points = digits.iter().filter(|byte| **byte == b'.').count();
    let is_number = begins_number(word)
        && digits
            .iter()
            .all(|byte| byte.is_ascii_digit() || *byte == b'.');
    match points {
        0 if is_number => ("has more than 64 bits", "choose a greater unit"),
        1 if is_number && digits.len() > 1 => ("is no whole number", "choose a smaller unit"),
        _ => ("begins as a number, and is none", ""),
    }
}

/// Puts what is wrong with a word that is no whole number.
fn put_number(page: &mut Page, fault: &Fault<'_>, step: &Step<'_>) {
    let word = step.items.get(step.child).map_or("", |tree| tree.word());
    let (form, way) = number_form(word);
    error_at!(page, fault.text.source, fault.at; "`{word}` {form}");
    if !way.is_empty() {
        put_way(page, way);
    }
}

/// Puts that a function has another type than `number`.
fn put_object_fluent(page: &mut Page, fault: &Fault<'_>, step: &Step<'_>, at: usize) {
    let source = fault.text.source;
    match other_type(step.items) {
        Some(kind) => error_at!(page, source, at;
            "functions of type `{kind}` are not supported, only of `number`"),
        None => error_at!(page, source, at;
            "functions of type `object` are not supported, only of `number`"),
    }
    put_way(
        page,
        "write a predicate, and delete its old atom where a new one is added",
    );
}

/// Puts that a sum or product has too many operands.
fn put_operands(page: &mut Page, fault: &Fault<'_>, step: &Step<'_>) {
    let sign = head_of(step.items);
    let count = step.items.len().saturating_sub(1);
    error_at!(page, fault.text.source, step.start; "`{sign}` takes 2 operands, not {count}");
    put_way(
        page,
        if sign == "*" {
            "write `(* A (* B C))`"
        } else {
            "write `(+ A (+ B C))`"
        },
    );
}

/// Puts what construct at a place of a text is left out, and what to write in its place.
pub fn put_left_out(page: &mut Page, fault: &Fault<'_>, what: &str) -> Result<(), AllocError> {
    let path = fault.path(page.alloc())?;
    let Some(step) = path.as_slice().last() else {
        return Ok(());
    };
    let at = place_in(step, fault.at, what);
    match what.as_bytes() {
        b"number" => put_number(page, fault, step),
        b"object-fluent" => put_object_fluent(page, fault, step, at),
        b"operands" => put_operands(page, fault, step),
        _ => {
            let row = WAYS.iter().find(|row| row.0 == what);
            let (_, headline, way) = row.copied().unwrap_or(OTHER);
            error_at!(page, fault.text.source, at; "{headline}");
            put_way(page, way);
        }
    }
    Ok(())
}
