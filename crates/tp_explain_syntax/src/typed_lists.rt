//! What is wrong with typed lists.

use crate::reasons::{Found, Help, NAME_NOTE, Reason, What};
use tp_explain_text::Tree;
use tp_syntax_ast::is_name;

const VARIABLE: &str = "a variable, which begins with `?`";

const VARIABLE_NOTE: &str = "a variable is `?`, a letter, and then letters, digits, `-` and `_`";

const BLANK: &str = "write a blank behind `-`";

const TYPE: &str = "a type";

const TYPES: &str = "a type or `(either TYPE ..)`";

const TYPE_BEHIND: &str = "a type behind `-`";

/// Whether a word is a variable.
pub fn is_variable(word: &str) -> bool {
    match word.as_bytes() {
        [b'?', name @ ..] => is_name(name),
        _ => false,
    }
}

/// Whether a word is a name right behind a `-`.
fn is_stuck_to_dash(word: &str) -> bool {
    match word.as_bytes() {
        [b'-', name @ ..] => is_name(name),
        _ => false,
    }
}

/// What is wrong with a word that should be a variable.
fn variable_reason<'t>(tree: &'t Tree, word: &'t str) -> Option<Reason<'t>> {
    let reason = Reason::expected(VARIABLE, tree);
    if is_stuck_to_dash(word) {
        return Some(reason.with_help(Help::Text(BLANK)));
    }
    if is_name(word.as_bytes()) {
        return Some(reason.with_help(Help::Behind("?", word)));
    }
    if word.as_bytes().first() == Some(&b'?') {
        return Some(reason.with_note(VARIABLE_NOTE));
    }
    Some(reason)
}

/// What is wrong with an item, a variable or a name.
fn item_reason<'t>(tree: &'t Tree, variables: bool) -> Option<Reason<'t>> {
    if tree.is_list() {
        return Some(Reason::expected(if variables { VARIABLE } else { "a name" }, tree));
    }
    let word = tree.word();
    if variables {
        if is_variable(word) {
            return None;
        }
        return variable_reason(tree, word);
    }
    if is_name(word.as_bytes()) {
        return None;
    }
    let reason = Reason::expected("a name", tree);
    if is_stuck_to_dash(word) {
        return Some(reason.with_help(Help::Text(BLANK)));
    }
    if tree.is("-") {
        return Some(reason);
    }
    Some(reason.with_note(NAME_NOTE))
}

/// What is wrong with a word behind `-`.
fn type_reason<'t>(tree: &'t Tree) -> Option<Reason<'t>> {
    if tree.is_list() || is_name(tree.word().as_bytes()) {
        return None;
    }
    Some(Reason::expected(TYPE, tree).with_note(NAME_NOTE))
}

/// What is wrong with the typed list whose members these are.
pub fn typed_reason<'t>(trees: &'t [Tree], variables: bool) -> Option<Reason<'t>> {
    let mut waiting = false;
    let mut dash = None;
    for tree in trees {
        let reason = if dash.is_some() {
            dash = None;
            waiting = false;
            type_reason(tree)
        } else if waiting && tree.is("-") {
            dash = Some(tree.place());
            None
        } else {
            waiting = true;
            item_reason(tree, variables)
        };
        if reason.is_some() {
            return reason;
        }
    }
    if let Some(at) = dash {
        return Some(Reason::new(at, What::Expected(TYPE_BEHIND, Found::Nothing)));
    }
    if !variables {
        return None;
    }
    duration_reason(trees)
}

/// What is wrong with `?duration` among variables.
fn duration_reason<'t>(trees: &'t [Tree]) -> Option<Reason<'t>> {
    for tree in trees {
        if tree.is("?duration") {
            return Some(Reason::new(tree.place(), What::Duration));
        }
    }
    None
}

/// What is wrong with the list where a type is wanted; of variables it may be `(either TYPE ..)`.
pub fn types_reason<'t>(items: &'t [Tree], start: usize, variables: bool) -> Option<Reason<'t>> {
    let form = if variables { TYPES } else { TYPE };
    let [first, types @ ..] = items else {
        return Some(Reason::expected_list(start, form, items));
    };
    if !variables || !first.is("either") {
        return Some(Reason::expected_list(start, form, items));
    }
    for tree in types {
        if tree.is_list() {
            return Some(Reason::expected(TYPE, tree));
        }
        let reason = type_reason(tree);
        if reason.is_some() {
            return reason;
        }
    }
    let what = What::Expected("a type behind `either`", Found::Nothing);
    Some(Reason::new(start, what))
}
