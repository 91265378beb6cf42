//! What is wrong with conditions, effects and duration constraints.

use crate::expressions::{atom_reason, operands_reason, term_reason, value_reason};
use crate::reasons::{Found, Help, Reason, What};
use crate::sections::{first_word, in_list};
use tp_explain_text::{Step, Tree, Value, head_of};
use tp_syntax_ast::{
    CondWord, EffectWord, Joint, TimeSpecifier, cond_word_of, effect_word_of, is_name, joint_of,
    specifier_of,
};

pub const CONDITION: &str = "a condition";

pub const EFFECT: &str = "an effect";

pub const TIMED_CONDITION: &str = "`(at start ..)`, `(over all ..)` or `(at end ..)`";

pub const TIMED_EFFECT: &str = "`(at start ..)` or `(at end ..)`";

pub const CONSTRAINT: &str = "`(= ?duration X)`, `(<= ?duration X)` or `(>= ?duration X)`";

const ONE_CONDITION: &str = "1 condition";

const ONE_EFFECT: &str = "1 effect";

const VARIABLES: &str = "`(VARIABLE ..)`";

/// What is wrong with what `and`, `or` and the like join: a word.
fn parts_reason<'t>(step: &Step<'t>, form: &'static str) -> Option<Reason<'t>> {
    let word = first_word(step.items, 1)?;
    Some(Reason::expected(form, word).with_help(in_list(word)))
}

/// What is wrong with an operator that takes so many parts.
fn count_reason<'t>(
    step: &Step<'t>,
    form: &'static str,
    wanted: usize,
    words: &'static str,
) -> Option<Reason<'t>> {
    if let Some(reason) = parts_reason(step, form) {
        return Some(reason);
    }
    let count = step.items.len().saturating_sub(1);
    if count == wanted {
        return None;
    }
    let what = What::Takes(head_of(step.items), words, count);
    Some(Reason::new(step.start, what))
}

/// What is wrong with a quantifier.
fn bound_reason<'t>(
    step: &Step<'t>,
    form: &'static str,
    words: &'static str,
) -> Option<Reason<'t>> {
    match step.items.get(1) {
        None => {
            let what = What::Expected(VARIABLES, Found::Nothing);
            return Some(Reason::new(step.start, what));
        }
        Some(list) if !list.is_list() => return Some(Reason::expected(VARIABLES, list)),
        Some(_) => {}
    }
    let count = step.items.len().saturating_sub(2);
    if count != 1 {
        let what = What::Takes(head_of(step.items), words, count);
        return Some(Reason::new(step.start, what));
    }
    let body = step.items.get(2)?;
    Some(Reason::expected(form, body).with_help(in_list(body)))
}

/// Whether all that stands behind the head of a list is terms.
fn has_terms<'t>(items: &'t [Tree]) -> bool {
    for tree in items.iter().skip(1) {
        if term_reason(tree).is_some() {
            return false;
        }
    }
    true
}

/// What is wrong with a condition.
pub fn condition_reason<'t>(step: &Step<'t>) -> Option<Reason<'t>> {
    let head = head_of(step.items);
    if head.is_empty() {
        return Some(Reason::expected_list(step.start, CONDITION, step.items));
    }
    match cond_word_of(head) {
        CondWord::And | CondWord::Or => parts_reason(step, CONDITION),
        CondWord::Not => count_reason(step, CONDITION, 1, ONE_CONDITION),
        CondWord::Imply => count_reason(step, CONDITION, 2, "2 conditions"),
        CondWord::Forall | CondWord::Exists => bound_reason(step, CONDITION, ONE_CONDITION),
        CondWord::Other => atom_reason(step.items, step.start, CONDITION),
        CondWord::Preference => None,
        CondWord::Equal if has_terms(step.items) => operands_reason(step.items, step.start),
        _ => comparison_reason(step),
    }
}

/// What is wrong with a comparison of numbers.
fn comparison_reason<'t>(step: &Step<'t>) -> Option<Reason<'t>> {
    for tree in step.items.get(1..)? {
        if let Some(reason) = value_reason(tree, false) {
            return Some(reason);
        }
    }
    operands_reason(step.items, step.start)
}

/// What is to be written for a list that is at no time.
fn time_help<'t>(items: &'t [Tree], head: &'t str, effect: bool) -> Help<'t> {
    if head.eq_ignore_ascii_case("at") || head.eq_ignore_ascii_case("over") {
        return Help::Nothing;
    }
    if head.eq_ignore_ascii_case("overall") || head.eq_ignore_ascii_case("over-all") {
        return Help::Text("write `over all`");
    }
    if head.eq_ignore_ascii_case("atstart") || head.eq_ignore_ascii_case("at-start") {
        return Help::Text("write `at start`");
    }
    if head.eq_ignore_ascii_case("atend") || head.eq_ignore_ascii_case("at-end") {
        return Help::Text("write `at end`");
    }
    if is_name(head.as_bytes()) {
        return Help::When(items, effect);
    }
    Help::Nothing
}

/// The time that a list begins with.
fn time_of(items: &[Tree]) -> Option<TimeSpecifier> {
    specifier_of(head_of(items), items.get(1)?.word())
}

/// What is wrong with what stands at a time: it is not one list.
fn at_time_reason<'t>(
    step: &Step<'t>,
    name: &'static str,
    form: &'static str,
    words: &'static str,
) -> Option<Reason<'t>> {
    match step.items.get(2..)? {
        [body] => Some(Reason::expected(form, body).with_help(in_list(body))),
        bodies => {
            let what = What::Takes(name, words, bodies.len());
            Some(Reason::new(step.start, what))
        }
    }
}

/// A time as it is written.
fn time_name(time: TimeSpecifier) -> &'static str {
    match time {
        TimeSpecifier::AtStart => "at start",
        TimeSpecifier::OverAll => "over all",
        TimeSpecifier::AtEnd => "at end",
    }
}

/// What is wrong with a list of conditions or effects at times.
pub fn timed_reason<'t>(step: &Step<'t>, effect: bool) -> Option<Reason<'t>> {
    let form = if effect {
        TIMED_EFFECT
    } else {
        TIMED_CONDITION
    };
    let words = if effect { ONE_EFFECT } else { ONE_CONDITION };
    let head = head_of(step.items);
    if head.is_empty() {
        return Some(Reason::expected_list(step.start, form, step.items));
    }
    match joint_of(head) {
        Joint::And => return parts_reason(step, form),
        Joint::Forall => return bound_reason(step, form, words),
        Joint::One => {}
    }
    let inner = if effect { EFFECT } else { CONDITION };
    match time_of(step.items) {
        Some(time) if !effect || time != TimeSpecifier::OverAll => {
            at_time_reason(step, time_name(time), inner, words)
        }
        _ => {
            let reason = Reason::expected_list(step.start, form, step.items);
            Some(reason.with_help(time_help(step.items, head, effect)))
        }
    }
}

/// What is wrong with an effect. `lasts`: it is one of a durative action.
pub fn effect_reason<'t>(step: &Step<'t>, lasts: bool) -> Option<Reason<'t>> {
    let head = head_of(step.items);
    if head.is_empty() {
        return Some(Reason::expected_list(step.start, EFFECT, step.items));
    }
    match joint_of(head) {
        Joint::And => return parts_reason(step, EFFECT),
        Joint::Forall => return bound_reason(step, EFFECT, ONE_EFFECT),
        Joint::One => {}
    }
    match effect_word_of(head) {
        EffectWord::Other => atom_reason(step.items, step.start, EFFECT),
        EffectWord::Not => count_reason(step, "`(PREDICATE ..)`", 1, ONE_EFFECT),
        EffectWord::When | EffectWord::ScaleDown => None,
        _ => writing_reason(step, lasts),
    }
}

/// What is wrong with `(assign F X)` and the like.
fn writing_reason<'t>(step: &Step<'t>, lasts: bool) -> Option<Reason<'t>> {
    let [_, fluent, value] = step.items else {
        return operands_reason(step.items, step.start);
    };
    if !fluent.is_list() {
        return Some(Reason::expected("`(FUNCTION ..)`", fluent).with_help(in_list(fluent)));
    }
    value_reason(value, lasts)
}

/// What is wrong with a duration constraint.
pub fn constraint_reason<'t>(step: &Step<'t>) -> Option<Reason<'t>> {
    let head = head_of(step.items);
    if head.is_empty() {
        return Some(Reason::expected_list(step.start, CONSTRAINT, step.items));
    }
    if head.eq_ignore_ascii_case("and") {
        let word = first_word(step.items, 1)?;
        return Some(Reason::expected(CONSTRAINT, word));
    }
    if head.eq_ignore_ascii_case("at") {
        return start_reason(step);
    }
    let [_, subject, value] = step.items else {
        return Some(Reason::expected_list(step.start, CONSTRAINT, step.items));
    };
    match head.as_bytes() {
        b"<=" | b"=" | b">=" => {}
        _ => return Some(Reason::expected_list(step.start, CONSTRAINT, step.items)),
    }
    if !subject.is("?duration") {
        return Some(Reason::expected("`?duration`", subject));
    }
    value_reason(value, false)
}

/// What is wrong with a duration constraint behind `at`.
fn start_reason<'t>(step: &Step<'t>) -> Option<Reason<'t>> {
    match step.items {
        [_, moment, ..] if !moment.is("start") => {
            Some(Reason::expected("`start` behind `at`", moment))
        }
        [_, _, body] => Some(Reason::expected(CONSTRAINT, body)),
        items => Some(Reason::expected_list(step.start, "`(at start ..)`", items)),
    }
}
