//! What is wrong with expressions and with atoms.

use crate::reasons::{Reason, What};
use crate::sections::in_list;
use crate::typed_lists::is_variable;
use tp_explain_text::{Tree, head_of};
use tp_syntax_ast::{Operator, is_name, operator_of};
use tp_text::read_whole;

const NUMBER: &str = "a number or `(FUNCTION ..)`";

pub const TERM: &str = "a name or a variable";

/// Whether a word begins as a number does.
pub fn begins_number(word: &str) -> bool {
    match word.as_bytes() {
        [b'-', second, ..] => second.is_ascii_digit(),
        [first, ..] => first.is_ascii_digit() || *first == b'.',
        [] => false,
    }
}

/// What is wrong with a word where an expression is wanted; `?duration` is one where something
/// lasts.
pub fn value_reason<'t>(tree: &'t Tree, lasts: bool) -> Option<Reason<'t>> {
    let word = tree.word();
    if tree.is_list() || (lasts && tree.is("?duration")) {
        return None;
    }
    if read_whole(word).is_some() || begins_number(word) {
        return None;
    }
    Some(Reason::expected(NUMBER, tree).with_help(in_list(tree)))
}

/// What is wrong with a term: it is neither a name nor a variable.
pub fn term_reason<'t>(tree: &'t Tree) -> Option<Reason<'t>> {
    if is_name(tree.word().as_bytes()) || is_variable(tree.word()) {
        return None;
    }
    Some(Reason::expected(TERM, tree))
}

/// What is wrong with `(NAME TERM ..)`, where some form is wanted.
pub fn atom_reason<'t>(items: &'t [Tree], start: usize, form: &'static str) -> Option<Reason<'t>> {
    if !is_name(head_of(items).as_bytes()) {
        return Some(Reason::expected_list(start, form, items));
    }
    for tree in items.get(1..)? {
        if let Some(reason) = term_reason(tree) {
            return Some(reason);
        }
    }
    None
}

/// What is wrong with an operator that takes two operands.
pub fn operands_reason<'t>(items: &'t [Tree], start: usize) -> Option<Reason<'t>> {
    let count = items.len().saturating_sub(1);
    if count == 2 {
        return None;
    }
    Some(Reason::new(start, What::Takes(head_of(items), "2 operands", count)))
}

/// What is wrong with an expression that is a list.
pub fn expression_reason<'t>(items: &'t [Tree], start: usize, lasts: bool) -> Option<Reason<'t>> {
    let head = head_of(items);
    if head.is_empty() {
        return Some(Reason::expected_list(start, NUMBER, items));
    }
    let operator = operator_of(head);
    if operator == Operator::Other {
        return atom_reason(items, start, NUMBER);
    }
    for tree in items.get(1..)? {
        if let Some(reason) = value_reason(tree, lasts) {
            return Some(reason);
        }
    }
    if operator != Operator::Minus {
        return operands_reason(items, start);
    }
    let count = items.len().saturating_sub(1);
    Some(Reason::new(start, What::Takes(head, "1 or 2 operands", count)))
}
