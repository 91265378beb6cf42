//! What is wrong with a name that is not declared.

use crate::declarations::{
    Declared, Fault, Kind, World, declarations_of, items_at, variables_at, word_at,
};
use crate::near::put_no_name;
use std::alloc::{AllocError, Global};
use tp_explain_text::{Page, Role, Step, Symbol, error_at};

/// What a name that a list begins with should be.
fn head_kind(role: Role) -> Kind {
    match role {
        Role::Expression(_) | Role::Atom(Symbol::Function) => Kind::Function,
        _ => Kind::Predicate,
    }
}

/// What a word of a list should be.
fn kind_of(step: &Step<'_>, word: &str) -> Kind {
    match step.role {
        Role::Section(_) | Role::ProblemSection(_) | Role::Signature(_) => Kind::Type,
        Role::Variables | Role::Types(_) => Kind::Type,
        role if step.child == 0 => head_kind(role),
        _ if word.as_bytes().first() == Some(&b'?') => Kind::Variable,
        _ => Kind::Object,
    }
}

/// The names that a word may be one of.
fn names_for<'t>(
    alloc: Global,
    world: &World<'t>,
    kind: Kind,
    path: &[Step<'t>],
) -> Result<Vec<Declared<'t>>, AllocError> {
    match kind {
        Kind::Variable => variables_at(alloc, path),
        _ => declarations_of(alloc, world, kind),
    }
}

/// Puts what is wrong with the name at a place of a text, which is not declared.
pub fn put_unknown(page: &mut Page, fault: &Fault<'_>) -> Result<(), AllocError> {
    let path = fault.path(page.alloc())?;
    let Some(step) = path.as_slice().last() else {
        return Ok(());
    };
    let word = word_at(step.items, step.child);
    if step.role == Role::OfDomain {
        let own = word_at(items_at(fault.world.domain.tree.items(), 1), 1);
        error_at!(page, fault.text.source, fault.at;
            "the problem is one of the domain `{word}`, not of `{own}`");
        return Ok(());
    }
    let kind = kind_of(step, word);
    let names = names_for(page.alloc(), &fault.world, kind, path.as_slice())?;
    let (world, source) = (&fault.world, fault.text.source);
    put_no_name(
        page,
        world,
        source,
        kind,
        names.as_slice(),
        word,
        fault.at,
        true,
    )
}
