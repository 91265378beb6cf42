//! What a list is, by the lists around it.

use crate::trees::{Tree, head_of};
use tp_syntax_ast::{
    CondWord, EffectWord, Joint, Key, Operator, ProblemSection, Section, cond_word_of,
    effect_word_of, joint_of, key_of, operator_of, problem_section_of, section_of,
};

/// What a list with a name speaks of.
#[derive(Clone, Copy, Debug, PartialEq, Eq)]
pub enum Symbol {
    Predicate,
    Function,
}

/// Where an expression stands.
#[derive(Clone, Copy, Debug, PartialEq, Eq)]
pub enum Value {
    Condition,
    Effect,
    Constraint,
}

/// What a list is in the grammar.
#[derive(Clone, Copy, Debug, PartialEq, Eq)]
pub enum Role {
    Domain,
    Problem,
    /// `(domain NAME)`, `(problem NAME)`.
    DomainName,
    ProblemName,
    /// `(:domain NAME)` of a problem.
    OfDomain,
    Section(Section),
    ProblemSection(ProblemSection),
    /// A section that there is none of.
    NoSection,
    Signature(Symbol),
    /// A list of variables.
    Variables,
    /// A list where a type is wanted; of variables it may be `(either TYPE ..)`.
    Types(bool),
    Condition,
    TimedCondition,
    Effect,
    TimedEffect,
    Constraint,
    Expression(Value),
    Initial,
    /// `(NAME TERM ..)` and nothing else.
    Atom(Symbol),
    /// What is read over, or stands where no list may.
    Nothing,
}

/// The role of a section of a domain.
fn domain_section(child: &Tree) -> Role {
    match section_of(child.head()) {
        Some(section) => Role::Section(section),
        None if child.is_list() => Role::NoSection,
        None => Role::Nothing,
    }
}

/// The role of a section of a problem.
fn problem_section(child: &Tree) -> Role {
    match problem_section_of(child.head()) {
        Some(section) => Role::ProblemSection(section),
        None if child.is_list() => Role::NoSection,
        None => Role::Nothing,
    }
}

/// The role of what stands behind a field's word.
fn field_value(lasts: bool, word: &str) -> Role {
    match key_of(word) {
        Some(Key::Parameters) => Role::Variables,
        Some(Key::Precondition) => Role::Condition,
        Some(Key::Duration) => Role::Constraint,
        Some(Key::Condition) => Role::TimedCondition,
        Some(Key::Effect) if lasts => Role::TimedEffect,
        Some(Key::Effect) => Role::Effect,
        None => Role::Nothing,
    }
}

/// The role of a member of a section of a domain.
fn in_section(section: Section, items: &[Tree], number: usize) -> Role {
    let before = items
        .get(number.saturating_sub(1))
        .map_or("", |tree| tree.word());
    match section {
        Section::Requirements => Role::Nothing,
        Section::Types | Section::Constants => Role::Types(false),
        Section::Predicates => Role::Signature(Symbol::Predicate),
        Section::Functions => Role::Signature(Symbol::Function),
        Section::Action => field_value(false, before),
        Section::DurativeAction => field_value(true, before),
    }
}

/// The role of a member of a section of a problem.
fn in_problem_section(section: ProblemSection) -> Role {
    match section {
        ProblemSection::Objects => Role::Types(false),
        ProblemSection::Init => Role::Initial,
        ProblemSection::Goal => Role::Condition,
        _ => Role::Nothing,
    }
}

/// The role of a member of a list of a quantifier: the variables, or what they are over.
fn in_bound(role: Role, number: usize) -> Role {
    if number == 1 { Role::Variables } else { role }
}

/// The role of a member of a condition.
fn in_condition(head: &str, number: usize) -> Role {
    match cond_word_of(head) {
        CondWord::And | CondWord::Or | CondWord::Not | CondWord::Imply => Role::Condition,
        CondWord::Forall | CondWord::Exists => in_bound(Role::Condition, number),
        CondWord::Other | CondWord::Preference => Role::Nothing,
        _ => Role::Expression(Value::Condition),
    }
}

/// The role of a member of a list of conditions or effects at times.
fn in_timed(role: Role, inner: Role, head: &str, number: usize) -> Role {
    match joint_of(head) {
        Joint::And => role,
        Joint::Forall => in_bound(role, number),
        Joint::One => inner,
    }
}

/// The role of a member of a single effect.
fn in_one_effect(head: &str, number: usize) -> Role {
    match effect_word_of(head) {
        EffectWord::Not => Role::Atom(Symbol::Predicate),
        EffectWord::When | EffectWord::Other => Role::Nothing,
        _ if number == 1 => Role::Atom(Symbol::Function),
        _ => Role::Expression(Value::Effect),
    }
}

/// The role of a member of an entry of `:init`.
fn in_initial(head: &str, number: usize) -> Role {
    if head == "=" && number == 1 {
        Role::Atom(Symbol::Function)
    } else if head.eq_ignore_ascii_case("not") {
        Role::Atom(Symbol::Predicate)
    } else {
        Role::Nothing
    }
}

/// The role of a member of a list that begins with a word.
fn in_headed(role: Role, head: &str, number: usize) -> Role {
    match role {
        Role::Condition => in_condition(head, number),
        Role::TimedCondition => in_timed(role, Role::Condition, head, number),
        Role::TimedEffect => in_timed(role, Role::Effect, head, number),
        Role::Effect => in_timed(role, in_one_effect(head, number), head, number),
        Role::Constraint => match head.as_bytes() {
            b"<=" | b"=" | b">=" => Role::Expression(Value::Constraint),
            _ => Role::Constraint,
        },
        Role::Expression(_) if operator_of(head) != Operator::Other => role,
        Role::Initial => in_initial(head, number),
        _ => Role::Nothing,
    }
}

/// The role of the list that is a member of another list.
pub fn role_in(role: Role, items: &[Tree], number: usize) -> Role {
    let Some(child) = items.get(number) else {
        return Role::Nothing;
    };
    match role {
        Role::Domain if number == 1 => Role::DomainName,
        Role::Domain => domain_section(child),
        Role::Problem if number == 1 => Role::ProblemName,
        Role::Problem if number == 2 => Role::OfDomain,
        Role::Problem => problem_section(child),
        Role::Section(section) => in_section(section, items, number),
        Role::ProblemSection(section) => in_problem_section(section),
        Role::Signature(_) | Role::Variables => Role::Types(true),
        _ if head_of(items).is_empty() => Role::Nothing,
        _ => in_headed(role, head_of(items), number),
    }
}
