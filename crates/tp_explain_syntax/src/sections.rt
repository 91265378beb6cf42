//! What is wrong with sections, actions and signatures.

use crate::bodies::{CONDITION, CONSTRAINT, EFFECT, TIMED_CONDITION, TIMED_EFFECT};
use crate::reasons::{DURATIVE_FIELDS, FIELDS, Found, Help, NAME_NOTE, Reason, What};
use crate::typed_lists::typed_reason;
use tp_explain_text::{Step, Tree, head_of};
use tp_syntax_ast::{Key, is_name, key_of};

const SIGNATURE: &str = "`(NAME VARIABLE ..)`";

const VARIABLES: &str = "`(VARIABLE ..)`";

const DURATION: &str = "write `:duration (= ?duration X)`";

const JOIN: &str = "write `(and ..)` round them";

static DOMAIN_SECTIONS: [&str; 7] = [
    ":requirements",
    ":types",
    ":constants",
    ":predicates",
    ":functions",
    ":action",
    ":durative-action",
];

static PROBLEM_SECTIONS: [&str; 6] = [
    ":requirements",
    ":objects",
    ":init",
    ":goal",
    ":metric",
    ":length",
];

/// The first word among the members from a number on.
pub fn first_word<'t>(items: &'t [Tree], from: usize) -> Option<&'t Tree> {
    items.get(from..)?.iter().find(|tree| !tree.is_list())
}

/// The word in parentheses, if it is a name.
pub fn in_list<'t>(tree: &'t Tree) -> Help<'t> {
    if is_name(tree.word().as_bytes()) {
        return Help::InList(tree.word());
    }
    Help::Nothing
}

/// What is wrong with a list that is no section.
pub fn no_section_reason<'t>(step: &Step<'t>, in_problem: bool) -> Option<Reason<'t>> {
    let word = head_of(step.items);
    if word.is_empty() {
        return Some(Reason::expected_list(step.start, "a section", step.items));
    }
    let names: &'static [&'static str] = if in_problem {
        &PROBLEM_SECTIONS
    } else {
        &DOMAIN_SECTIONS
    };
    let reason = Reason::new(step.start, What::NoSection(word));
    Some(reason.with_help(Help::Near(word, names)))
}

/// What is wrong with the words of `:requirements`.
pub fn requirements_reason<'t>(step: &Step<'t>) -> Option<Reason<'t>> {
    for tree in step.items.get(1..)? {
        let word = tree.word();
        if word.as_bytes().first() == Some(&b':') {
            continue;
        }
        let reason = Reason::expected("a requirement, which begins with `:`", tree);
        if is_name(word.as_bytes()) {
            return Some(reason.with_help(Help::Behind(":", word)));
        }
        return Some(reason);
    }
    None
}

/// What is wrong with `:predicates`: a word in it.
pub fn predicates_reason<'t>(step: &Step<'t>) -> Option<Reason<'t>> {
    let word = first_word(step.items, 1)?;
    Some(Reason::expected(SIGNATURE, word).with_help(in_list(word)))
}

/// What is wrong with `:functions`: a word in it that ends no run.
pub fn functions_reason<'t>(step: &Step<'t>) -> Option<Reason<'t>> {
    let mut may_end = false;
    let mut after_dash = false;
    for tree in step.items.get(1..)? {
        if after_dash {
            after_dash = false;
            may_end = false;
        } else if may_end && tree.is("-") {
            after_dash = true;
        } else if !tree.is_list() {
            return Some(Reason::expected(SIGNATURE, tree).with_help(in_list(tree)));
        } else {
            may_end = true;
        }
    }
    if !after_dash {
        return None;
    }
    let what = What::Expected("`number` behind `-`", Found::Nothing);
    let dash = step.items.last()?;
    Some(Reason::new(dash.place(), what))
}

/// What is wrong with the declaration of a predicate or a function.
pub fn signature_reason<'t>(step: &Step<'t>) -> Option<Reason<'t>> {
    match step.items.first() {
        Some(name) if is_name(name.word().as_bytes()) => {
            typed_reason(step.items.get(1..)?, true)
        }
        Some(name) if !name.is_list() => {
            Some(Reason::expected("a name", name).with_note(NAME_NOTE))
        }
        _ => Some(Reason::expected_list(step.start, SIGNATURE, step.items)),
    }
}

/// What is wrong with the goal: it has not one condition, or that is a word.
pub fn goal_reason<'t>(step: &Step<'t>) -> Option<Reason<'t>> {
    let goals = step.items.get(1..)?;
    match goals {
        [goal] => Some(Reason::expected(CONDITION, goal).with_help(in_list(goal))),
        [] => {
            let what = What::Takes(":goal", "1 condition", 0);
            Some(Reason::new(step.start, what))
        }
        _ => {
            let what = What::Takes(":goal", "1 condition", goals.len());
            Some(Reason::new(step.start, what).with_help(Help::Text(JOIN)))
        }
    }
}

/// Whether a field is one of an action, or of a durative one.
fn is_field_of(lasts: bool, key: Key) -> bool {
    match key {
        Key::Parameters | Key::Effect => true,
        Key::Precondition => !lasts,
        Key::Duration | Key::Condition => lasts,
    }
}

/// The key that a tree is the word of.
fn key_at(tree: &Tree) -> Option<Key> {
    key_of(tree.word())
}

/// What is wrong with the word of a field.
fn no_field<'t>(tree: &'t Tree, lasts: bool) -> Reason<'t> {
    let word = tree.word();
    if word.is_empty() {
        return Reason::expected("a field", tree);
    }
    let names: &'static [&'static str] = if lasts { &DURATIVE_FIELDS } else { &FIELDS };
    let reason = Reason::new(tree.place(), What::NoField(word, lasts));
    // That of the other kind of action has the same meaning, and no near name.
    reason.with_help(match key_of(word) {
        Some(Key::Precondition) => Help::Text("did you mean `:condition`?"),
        Some(Key::Condition) => Help::Text("did you mean `:precondition`?"),
        _ => Help::Near(word, names),
    })
}

/// What is wrong with a field's word and the value behind it, if any.
fn pair_reason<'t>(pair: &'t [Tree], lasts: bool) -> Option<Reason<'t>> {
    let field = pair.first()?;
    if key_at(field).is_none() {
        return Some(no_field(field, lasts));
    }
    match pair.get(1) {
        Some(value) if key_at(value).is_none() => None,
        _ => {
            let what = What::NoValue(field.word());
            Some(Reason::new(field.place(), what))
        }
    }
}

/// What is wrong with a field's word that is one of the other kind of action.
fn kind_reason<'t>(pair: &'t [Tree], lasts: bool) -> Option<Reason<'t>> {
    let field = pair.first()?;
    let key = key_at(field)?;
    if is_field_of(lasts, key) {
        return None;
    }
    Some(no_field(field, lasts))
}

/// What is wrong with the words of the fields of an action.
fn fields_reason<'t>(fields: &'t [Tree], lasts: bool) -> Option<Reason<'t>> {
    for pair in fields.chunks(2) {
        if let Some(reason) = pair_reason(pair, lasts) {
            return Some(reason);
        }
    }
    for pair in fields.chunks(2) {
        if let Some(reason) = kind_reason(pair, lasts) {
            return Some(reason);
        }
    }
    None
}

/// The value of a field, if it is a word.
fn word_value<'t>(fields: &'t [Tree], wanted: Key) -> Option<&'t Tree> {
    for pair in fields.chunks(2) {
        if let [field, value] = pair {
            if key_at(field) == Some(wanted) && !value.is_list() {
                return Some(value);
            }
        }
    }
    None
}

/// What is wrong with a field whose value is a word.
fn value_reason<'t>(fields: &'t [Tree], wanted: Key, form: &'static str) -> Option<Reason<'t>> {
    let value = word_value(fields, wanted)?;
    let reason = Reason::expected(form, value);
    match wanted {
        Key::Precondition | Key::Condition | Key::Effect => Some(reason.with_help(in_list(value))),
        _ => Some(reason),
    }
}

/// What is wrong with the values of the fields of an action that does not last.
fn instant_reason<'t>(fields: &'t [Tree]) -> Option<Reason<'t>> {
    let parameters = value_reason(fields, Key::Parameters, VARIABLES);
    let condition = value_reason(fields, Key::Precondition, CONDITION);
    let effect = value_reason(fields, Key::Effect, EFFECT);
    parameters.or(condition).or(effect)
}

/// What is wrong with the values of the fields of a durative action.
fn durative_reason<'t>(step: &Step<'t>, fields: &'t [Tree]) -> Option<Reason<'t>> {
    if let Some(reason) = value_reason(fields, Key::Parameters, VARIABLES) {
        return Some(reason);
    }
    if !fields.chunks(2).any(|pair| pair.first().and_then(|field| key_at(field))
        == Some(Key::Duration))
    {
        let what = What::NoDuration(step.items.get(1)?.word());
        return Some(Reason::new(step.start, what).with_help(Help::Text(DURATION)));
    }
    let duration = value_reason(fields, Key::Duration, CONSTRAINT);
    let condition = value_reason(fields, Key::Condition, TIMED_CONDITION);
    let effect = value_reason(fields, Key::Effect, TIMED_EFFECT);
    duration.or(condition).or(effect)
}

/// What is wrong with an action.
pub fn action_reason<'t>(step: &Step<'t>, lasts: bool) -> Option<Reason<'t>> {
    let unnamed = Reason::new(step.start, What::NoName(lasts));
    let Some(name) = step.items.get(1) else {
        return Some(unnamed);
    };
    if name.is_list() || name.word().starts_with(':') {
        return Some(unnamed);
    }
    if !is_name(name.word().as_bytes()) {
        return Some(Reason::expected("a name", name).with_note(NAME_NOTE));
    }
    let fields = step.items.get(2..)?;
    if let Some(reason) = fields_reason(fields, lasts) {
        return Some(reason);
    }
    if lasts {
        durative_reason(step, fields)
    } else {
        instant_reason(fields)
    }
}
