//! What is wrong with entries of `:init`.

use crate::expressions::atom_reason;
use crate::reasons::{Reason, What};
use crate::sections::{first_word, in_list};
use tp_explain_text::{Step, Tree, head_of};
use tp_syntax_ast::is_name;
use tp_text::read_whole;

const ENTRY: &str = "`(PREDICATE ..)`, `(not (PREDICATE ..))` or `(= (FUNCTION ..) NUMBER)`";

const VALUE: &str = "`(= (FUNCTION ..) NUMBER)`";

const ATOM: &str = "`(PREDICATE ..)`";

const FLUENT: &str = "`(FUNCTION ..)`";

/// What is wrong with `:init`: a word in it.
pub fn init_reason<'t>(step: &Step<'t>) -> Option<Reason<'t>> {
    let word = first_word(step.items, 1)?;
    Some(Reason::expected(ENTRY, word).with_help(in_list(word)))
}

/// What is wrong with an atom whose name or whose terms have the wrong form. There are no variables
/// in `:init`.
fn named_reason<'t>(items: &'t [Tree], start: usize, form: &'static str) -> Option<Reason<'t>> {
    let reason = atom_reason(items, start, form)?;
    match reason.what {
        What::Expected(wanted, found) if wanted == crate::expressions::TERM => Some(Reason {
            what: What::Expected("a name", found),
            ..reason
        }),
        _ => Some(reason),
    }
}

/// What is wrong with `(not ATOM)`.
fn denied_reason<'t>(step: &Step<'t>) -> Option<Reason<'t>> {
    match step.items {
        [_, atom] => Some(Reason::expected(ATOM, atom).with_help(in_list(atom))),
        [head, atoms @ ..] => {
            let what = What::Takes(head.word(), "1 atom", atoms.len());
            Some(Reason::new(step.start, what))
        }
        [] => None,
    }
}

/// What is wrong with `(= F NUMBER)`.
fn valued_reason<'t>(step: &Step<'t>) -> Option<Reason<'t>> {
    let [_, fluent, number] = step.items else {
        return Some(Reason::expected_list(step.start, VALUE, step.items));
    };
    if !fluent.is_list() {
        return Some(Reason::expected(FLUENT, fluent).with_help(in_list(fluent)));
    }
    if read_whole(number.word()).is_some() {
        return None;
    }
    Some(Reason::expected("a number", number))
}

/// What is wrong with an entry of `:init`.
pub fn initial_reason<'t>(step: &Step<'t>) -> Option<Reason<'t>> {
    let head = head_of(step.items);
    if head.is_empty() {
        return Some(Reason::expected_list(step.start, ENTRY, step.items));
    }
    if head.eq_ignore_ascii_case("not") {
        return denied_reason(step);
    }
    if head == "=" {
        return valued_reason(step);
    }
    named_reason(step.items, step.start, ENTRY)
}

/// What is wrong with `(NAME TERM ..)` that stands where nothing else may.
pub fn only_atom_reason<'t>(step: &Step<'t>, function: bool) -> Option<Reason<'t>> {
    if is_name(head_of(step.items).as_bytes()) {
        return atom_reason(step.items, step.start, ATOM);
    }
    let form = if function { FLUENT } else { ATOM };
    Some(Reason::expected_list(step.start, form, step.items))
}
