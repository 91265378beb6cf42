//! What is wrong with the list around which a shape is at fault.

use crate::bodies::{condition_reason, constraint_reason, effect_reason, timed_reason};
use crate::declarations::{Fault, items_at, word_at};
use crate::expressions::expression_reason;
use crate::initial::{init_reason, initial_reason, only_atom_reason};
use crate::reasons::{Reason, put_reason};
use crate::sections::{
    action_reason, functions_reason, goal_reason, no_section_reason, predicates_reason,
    requirements_reason, signature_reason,
};
use crate::texts::{domain_reason, head_reason, of_domain_reason, problem_reason, word_reason};
use crate::typed_lists::{typed_reason, types_reason};
use std::alloc::AllocError;
use tp_explain_text::{Page, Role, Step, Symbol};
use tp_syntax_ast::{ProblemSection, Section};

/// Whether a place is in a durative action.
fn is_in_durative(path: &[Step<'_>]) -> bool {
    path.iter()
        .any(|step| step.role == Role::Section(Section::DurativeAction))
}

/// What is wrong with a section of a domain.
fn section_reason<'t>(step: &Step<'t>, section: Section) -> Option<Reason<'t>> {
    match section {
        Section::Requirements => requirements_reason(step),
        Section::Types | Section::Constants => { typed_reason(step.items.get(1..)?, false) }
        Section::Predicates => predicates_reason(step),
        Section::Functions => functions_reason(step),
        Section::Action => action_reason(step, false),
        Section::DurativeAction => action_reason(step, true),
    }
}

/// What is wrong with a section of a problem.
fn problem_section_reason<'t>(step: &Step<'t>, section: ProblemSection) -> Option<Reason<'t>> {
    match section {
        ProblemSection::Requirements => requirements_reason(step),
        ProblemSection::Objects => typed_reason(step.items.get(1..)?, false),
        ProblemSection::Init => init_reason(step),
        ProblemSection::Goal => goal_reason(step),
        _ => None,
    }
}

/// What is wrong with a list of the body of an action, a goal or `:init`.
fn body_reason<'t>(step: &Step<'t>, lasts: bool) -> Option<Reason<'t>> {
    match step.role {
        Role::Signature(_) => signature_reason(step),
        Role::Variables => typed_reason(step.items, true),
        Role::Types(variables) => types_reason(step.items, step.start, variables),
        Role::Condition => condition_reason(step),
        Role::TimedCondition => timed_reason(step, false),
        Role::TimedEffect => timed_reason(step, true),
        Role::Effect => effect_reason(step, lasts),
        Role::Constraint => constraint_reason(step),
        Role::Expression(_) => expression_reason(step.items, step.start, lasts),
        Role::Initial => initial_reason(step),
        Role::Atom(symbol) => only_atom_reason(step, symbol == Symbol::Function),
        _ => None,
    }
}

/// What is wrong with the innermost list of a path.
fn reason_of<'t>(path: &[Step<'t>], in_problem: bool, domain: &'t str) -> Option<Reason<'t>> {
    let (step, outer) = path.split_last()?;
    let found = match step.role {
        Role::Domain => domain_reason(step),
        Role::Problem => problem_reason(step),
        Role::DomainName | Role::ProblemName => head_reason(step, in_problem),
        Role::OfDomain => of_domain_reason(step, outer.last(), domain),
        Role::NoSection => no_section_reason(step, in_problem),
        Role::Section(section) => section_reason(step, section),
        Role::ProblemSection(section) => problem_section_reason(step, section),
        _ => body_reason(step, is_in_durative(path)),
    };
    match found {
        Some(reason) => Some(reason),
        None => Some(Reason::expected_list(step.start, "another form", step.items)),
    }
}

/// Puts what is wrong with the list at a place of a text, whose shape is at fault.
pub fn put_shape(page: &mut Page, fault: &Fault<'_>) -> Result<(), AllocError> {
    let (text, in_problem) = (fault.text, fault.in_problem);
    if !text.tree.is_list() {
        put_reason(page, text.source, &word_reason(text.tree, in_problem));
        return Ok(());
    }
    let path = fault.path(page.alloc())?;
    let domain = word_at(items_at(fault.world.domain.tree.items(), 1), 1);
    if let Some(reason) = reason_of(path.as_slice(), in_problem, domain) {
        put_reason(page, text.source, &reason);
    }
    Ok(())
}
