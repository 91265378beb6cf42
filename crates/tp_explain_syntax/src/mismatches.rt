//! What is wrong with terms of the wrong types, and with types that lead round in a cycle.

use crate::declarations::{
    Declared, Fault, Kind, World, declarations_of, find_named, innermost, section_of, typed_items,
    variables_at,
};
use crate::typing::{Typed, Types, fits};
use std::alloc::{AllocError, Global};
use tp_explain_text::{
    At, Count, Page, Role, Source, Step, Symbol, Tree, error_at, head_of, put, rest_of,
};
use tp_syntax_ast::Section;

/// Puts that something takes another number of arguments.
pub fn put_takes(
    page: &mut Page,
    source: Source<'_>,
    at: usize,
    name: &str,
    wanted: usize,
    count: usize,
) {
    if wanted == 0 {
        error_at!(page, source, at; "`{name}` takes no arguments, not {count}");
    } else {
        error_at!(page, source, at; "`{name}` takes {}, not {count}",
            Count(wanted as u64, "argument", "arguments"));
    }
}

/// The number, from 1, of the first argument that does not fit its parameter, with the types of
/// both. What is not known of an argument is not wrong.
pub fn first_misfit<'t>(
    types: &Types<'t>,
    arguments: &[Option<Declared<'t>>],
    parameters: &[Declared<'t>],
) -> Option<(usize, Typed<'t>, Typed<'t>)> {
    for (number, (argument, parameter)) in arguments.iter().zip(parameters).enumerate() {
        if let Some(argument) = argument {
            if !fits(types, argument.types, parameter.types) {
                let number = number.saturating_add(1);
                return Some((number, Typed(argument.types), Typed(parameter.types)));
            }
        }
    }
    None
}

/// What terms name, of the objects and the variables in scope.
fn arguments_of<'t>(
    alloc: Global,
    world: &World<'t>,
    path: &[Step<'t>],
    terms: &[Tree],
) -> Result<Vec<Option<Declared<'t>>>, AllocError> {
    let objects = declarations_of(alloc, world, Kind::Object)?;
    let variables = variables_at(alloc, path)?;
    let mut arguments = Vec::new(alloc);
    for term in terms {
        let word = term.word();
        arguments.push(if word.starts_with('?') {
            innermost(variables.as_slice(), word)
        } else {
            find_named(objects.as_slice(), word)
        })?;
    }
    Ok(arguments)
}

/// Puts what is wrong with the arguments of an atom.
fn put_atom<'t>(
    page: &mut Page,
    fault: &Fault<'t>,
    path: &[Step<'t>],
    step: &Step<'t>,
) -> Result<(), AllocError> {
    let alloc = page.alloc();
    let section = match step.role {
        Role::Expression(_) | Role::Atom(Symbol::Function) => ":functions",
        _ => ":predicates",
    };
    let (source, name) = (fault.text.source, head_of(step.items));
    let signatures = section_of(&fault.world.domain, section);
    let Some(signature) = signatures
        .iter()
        .find(|tree| tree.head().eq_ignore_ascii_case(name))
    else {
        return Ok(());
    };
    let terms = rest_of(step.items);
    let parameters = typed_items(alloc, signature.rest(), false)?;
    if parameters.len() == terms.len() {
        let types = Types::new(alloc, &fault.world)?;
        let arguments = arguments_of(alloc, &fault.world, path, terms)?;
        let found = first_misfit(&types, arguments.as_slice(), parameters.as_slice());
        if let Some((number, argument, parameter)) = found {
            let at = step.items.get(number).map_or(0, |tree| tree.place());
            error_at!(page, source, at;
                "argument {number} of `{name}` is of type {argument}, expected {parameter}");
        }
    } else {
        put_takes(
            page,
            source,
            step.start,
            name,
            parameters.len(),
            terms.len(),
        );
    }
    if let Some(head) = signature.items().first() {
        put!(page; "{}note: `{head}` is declared here\n",
            At(fault.world.domain.source, head.place()));
    }
    Ok(())
}

/// Whether a type comes round to itself.
fn is_round(types: &Types<'_>, name: &str) -> bool {
    match types.parent(name) {
        Some(parent) => types.is_below(parent, name),
        None => false,
    }
}

/// Puts the types from one on to itself.
fn put_round(page: &mut Page, types: &Types<'_>, name: &str) {
    put!(page; "note: `{name}`");
    let mut current = name;
    for _ in 0..types.declared.len() {
        let Some(parent) = types.parent(current) else {
            break;
        };
        put!(page; " is below `{parent}`");
        if parent.eq_ignore_ascii_case(name) {
            break;
        }
        page.put(", which");
        current = parent;
    }
    page.put("\n");
}

/// Puts the first type that is below itself, or `object` where it is below another type.
fn put_cycle(page: &mut Page, source: Source<'_>, types: &Types<'_>) {
    for item in types.declared.iter() {
        let is_object = item.name.eq_ignore_ascii_case("object");
        let parent = types.parent(item.name).unwrap_or("object");
        if is_object && !parent.eq_ignore_ascii_case("object") {
            error_at!(page, source, item.at; "`object` cannot be below `{parent}`");
            return;
        }
    }
    for item in types.declared.iter() {
        let name = item.name;
        if !name.eq_ignore_ascii_case("object") && is_round(types, name) {
            error_at!(page, source, item.at; "the type `{name}` is below itself");
            put_round(page, types, name);
            return;
        }
    }
}

/// Puts what is wrong with the types at a place of a text.
pub fn put_types(page: &mut Page, fault: &Fault<'_>) -> Result<(), AllocError> {
    let path = fault.path(page.alloc())?;
    let Some(step) = path.as_slice().last() else {
        return Ok(());
    };
    if step.role == Role::Section(Section::Types) {
        let types = Types::new(page.alloc(), &fault.world)?;
        put_cycle(page, fault.text.source, &types);
        return Ok(());
    }
    if head_of(step.items) == "=" {
        error_at!(page, fault.text.source, step.start;
            "`=` compares two objects or two numbers, not one of each");
        return Ok(());
    }
    put_atom(page, fault, path.as_slice(), step)
}
