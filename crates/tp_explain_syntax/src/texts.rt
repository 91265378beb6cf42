//! What is wrong with the list that a text is, and with the lists of its name and its domain's.

use crate::reasons::{Found, Help, NAME_NOTE, Reason, What};
use crate::sections::first_word;
use tp_explain_text::{Step, Tree, head_of};
use tp_syntax_ast::{ProblemSection, is_name, problem_section_of};

const DOMAIN: &str = "`(define (domain NAME) ..)`";

const PROBLEM: &str = "`(define (problem NAME) (:domain NAME) ..)`";

const DOMAIN_NAME: &str = "`(domain NAME)`";

const PROBLEM_NAME: &str = "`(problem NAME)`";

const OF_DOMAIN: &str = "`(:domain NAME)`";

const SECTION: &str = "a section, which is a list";

const ORDER: &str = "the files stand in the order domain, problem, plan";

/// What is wrong with a text that is a word.
pub fn word_reason<'t>(tree: &'t Tree, in_problem: bool) -> Reason<'t> {
    Reason::expected(if in_problem { PROBLEM } else { DOMAIN }, tree)
}

/// What is wrong with a text's head, or with its sections.
fn text_reason<'t>(
    step: &Step<'t>,
    form: &'static str,
    name: &'static str,
    sections: usize,
) -> Option<Reason<'t>> {
    match step.items {
        [first, ..] if first.is("define") => {}
        items => return Some(Reason::expected_list(step.start, form, items)),
    }
    match step.items.get(1) {
        None => Some(Reason::new(step.start, What::Expected(name, Found::Nothing))),
        Some(head) if !head.is_list() => Some(Reason::expected(name, head)),
        Some(_) => {
            let word = first_word(step.items, sections)?;
            Some(Reason::expected(SECTION, word))
        }
    }
}

/// What is wrong with the list that a domain is.
pub fn domain_reason<'t>(step: &Step<'t>) -> Option<Reason<'t>> {
    text_reason(step, DOMAIN, DOMAIN_NAME, 2)
}

/// Whether a section of a problem is its goal.
fn is_goal(tree: &Tree) -> bool {
    problem_section_of(tree.head()) == Some(ProblemSection::Goal)
}

/// What is wrong with the list that a problem is.
pub fn problem_reason<'t>(step: &Step<'t>) -> Option<Reason<'t>> {
    if let Some(reason) = text_reason(step, PROBLEM, PROBLEM_NAME, step.items.len()) {
        return Some(reason);
    }
    let head = (step.items.get(1)?).items();
    match step.items.get(2) {
        None => {
            let what = What::ExpectedBehind(OF_DOMAIN, head, Found::Nothing);
            return Some(Reason::new(step.start, what));
        }
        Some(of) if !of.is_list() => {
            let what = What::ExpectedBehind(OF_DOMAIN, head, Found::Tree(of));
            return Some(Reason::new(of.place(), what));
        }
        Some(_) => {}
    }
    if let Some(word) = first_word(step.items, 3) {
        return Some(Reason::expected(SECTION, word));
    }
    if step.items.iter().any(|tree| is_goal(tree)) {
        return None;
    }
    Some(Reason::new(step.start, What::NoGoal))
}

/// What is wrong with a name behind its word.
fn name_reason<'t>(step: &Step<'t>) -> Option<Reason<'t>> {
    let name = step.items.get(1)?;
    if is_name(name.word().as_bytes()) {
        return None;
    }
    Some(Reason::expected("a name", name).with_note(NAME_NOTE))
}

/// Whether a list is a word and one thing more.
fn is_pair(items: &[Tree], word: &str) -> bool {
    match items {
        [head, _] => head.is(word),
        _ => false,
    }
}

/// What is wrong with `(domain NAME)` of a domain, or `(problem NAME)` of a problem.
pub fn head_reason<'t>(step: &Step<'t>, in_problem: bool) -> Option<Reason<'t>> {
    let (own, other) = if in_problem {
        ("problem", "domain")
    } else {
        ("domain", "problem")
    };
    if is_pair(step.items, own) {
        return name_reason(step);
    }
    let form = if in_problem {
        PROBLEM_NAME
    } else {
        DOMAIN_NAME
    };
    let reason = Reason::expected_list(step.start, form, step.items);
    if head_of(step.items).eq_ignore_ascii_case(other) {
        return Some(reason.with_help(Help::Text(ORDER)));
    }
    Some(reason)
}

/// What is wrong with `(:domain NAME)` of a problem, in the list of the step before.
pub fn of_domain_reason<'t>(
    step: &Step<'t>,
    outer: Option<&Step<'t>>,
    domain: &'t str,
) -> Option<Reason<'t>> {
    if is_pair(step.items, ":domain") {
        return name_reason(step);
    }
    let head = (outer?.items.get(1)?).items();
    let what = What::ExpectedBehind(OF_DOMAIN, head, Found::List(step.items));
    let reason = Reason::new(step.start, what);
    if domain.is_empty() {
        return Some(reason);
    }
    Some(reason.with_help(Help::OfDomain(domain)))
}
