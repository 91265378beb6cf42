//! The objects, and what variables may stand for.

ghost use Rattle.std.specs.Prelude.{◌≡◌, ◌++◌, ◌∷◌, true, map, IfOk, OnOk, IfSome, string_bytes};
ghost use Rattle.std.specs.List.{list_all};
ghost use Rattle.tp_syntax_ast.specs.Symbols.{typed_view};
ghost use Rattle.tp_syntax_ast.specs.DomainViews.{domain_view, problem_view};
ghost use Rattle.tp_syntax_types.specs.TypeViews.{types_view};
ghost use Rattle.tp_ground_bindings.specs.Bindings.{universe_of, fitting, choices};
ghost use Rattle.tp_ground_bindings.specs.Bindings as bindings;
ghost use Rattle.tp_task.specs.Words.{same_words};
ghost use Rattle.tp_ground_bindings.specs.Views.{universe_view};
ghost use Rattle.tp_ground_bindings.specs.KnownChoices.{of_types, is_known};
ghost use Rattle.tp_ground_bindings.specs.Rows.{names_in};

use crate::objects::Known;
pub use crate::objects::Universe;
use std::alloc::{AllocError, Global};
use std::borrow::CowSlice;
use tp_syntax_ast::{Domain, Problem, Typed};
use tp_syntax_types::types::{Types, types_fit};

/// The types and objects, before any are looked for.
pub fn plain_universe<'a>(
    alloc: Global,
    domain: &'a Domain,
    problem: &'a Problem,
) -> Result<Universe<'a>, AllocError>
    ensures { IfOk result
        (λ u. universe_view u ≡ universe_of (domain_view domain.now) (problem_view problem.now)) }
{
    Ok(Universe {
        types: Types::new(alloc, domain.types.as_slice())?,
        constants: domain.constants.as_slice(),
        objects: problem.objects.as_slice(),
        known: Vec::new(alloc),
    })
}

// Whether two lists of types are the same.
fn are_same(left: &[String], right: &[String]) -> bool
    ensures { result ≡ same_words (map string_bytes left.now) (map string_bytes right.now) }
{
    let mut open = left;
    let mut others = right;
    'pairs: while let [first, more @ ..] = open {
        let [second, rest @ ..] = others else {
            return false;
        };
        if first.as_str() != second.as_str() {
            return false;
        }
        open = more;
        others = rest;
    }
    others.is_empty()
}

// The objects that fit some types, where they were looked for before.
fn find_known<'u, 'a>(known: &'u [Known<'a>], types: &[String]) -> Option<&'u [&'a str]>
    ensures { (u : bindings.Universe) → list_all (is_known u) known.now ≡ true → IfSome result
        (λ ns. map (λ o. o.now) ns.now ≡ choices u (of_types (map string_bytes types.now))) }
{
    for entry in known {
        if are_same(entry.types, types) {
            return Some(entry.names.as_slice());
        }
    }
    None
}

// The names of those of these objects that fit some types, behind others.
fn push_fitting<'a>(
    names: &mut Vec<&'a str>,
    types: &Types,
    objects: &'a [Typed],
    wanted: &[String],
) -> Result<(), AllocError>
    ensures { OnOk result (map (λ o. o.now) names.new.items ≡ map (λ o. o.now) names.old.items
        ++ fitting (types_view types.now) (map typed_view objects.now)
        (of_types (map string_bytes wanted.now))) }
{
    for object in objects {
        if types_fit(types, object.type_names(), wanted) {
            names.push(object.name.as_str())?;
        }
    }
    Ok(())
}

// The names of all objects that fit some types, in order of declaration.
fn find_fitting<'a>(
    alloc: Global,
    universe: &Universe<'a>,
    wanted: &[String],
) -> Result<Vec<&'a str>, AllocError>
    ensures { IfOk result (λ v. map (λ o. o.now) v.items
        ≡ choices (universe_view universe.now) (of_types (map string_bytes wanted.now))) }
{
    let mut names = Vec::new(alloc);
    push_fitting(&mut names, &universe.types, universe.constants, wanted)?;
    push_fitting(&mut names, &universe.types, universe.objects, wanted)?;
    Ok(names)
}

/// The objects that a variable may stand for. They are lent where they were looked for before.
pub fn choices<'u, 'a>(
    alloc: Global,
    universe: &'u Universe<'a>,
    variable: &Typed,
) -> Result<CowSlice<'u, &'a str>, AllocError>
    ensures { IfOk result (λ v.
        names_in v ≡ choices (universe_view universe.now) (typed_view variable.now)) }
{
    let types = variable.type_names();
    match find_known(&universe.known, types) {
        Some(names) => Ok(CowSlice::Borrowed(names)),
        None => Ok(CowSlice::Owned(find_fitting(alloc, universe, types)?)),
    }
}

// Keeps the objects that fit a variable's types.
fn keep<'a>(
    universe: &mut Universe<'a>,
    variable: &'a Typed,
    names: Vec<&'a str>,
) -> Result<(), AllocError>
    requires { map (λ o. o.now) names.items
        ≡ choices (universe_view universe.old) (of_types (typed_view variable.now).types) }
    ensures { universe_view universe.new ≡ universe_view universe.old }
{
    let types = variable.type_names();
    universe.known.push(Known { types, names })?;
    Ok(())
}

/// Looks for the objects that fit a variable, so that they are lent from then on.
pub fn note<'a>(
    alloc: Global,
    universe: &mut Universe<'a>,
    variable: &'a Typed,
) -> Result<(), AllocError>
    ensures { universe_view universe.new ≡ universe_view universe.old }
{
    if find_known(&universe.known, variable.type_names()).is_some() {
        return Ok(());
    }
    let names = find_fitting(alloc, &*universe, variable.type_names())?;
    keep(universe, variable, names)
}

/// The same names in a list of their own.
pub fn copied<'a>(alloc: Global, names: &[&'a str]) -> Result<Vec<&'a str>, AllocError>
    ensures { IfOk result (λ v. map (λ o. o.now) v.items ≡ map (λ o. o.now) names.now) }
{
    let mut copy = Vec::new(alloc);
    copy.extend_from_slice(names)?;
    Ok(copy)
}

/// Makes a list of a name and then those of a binding.
pub fn refill<'a>(
    words: &mut Vec<&'a str>,
    name: &'a str,
    rest: &[&'a str],
) -> Result<(), AllocError>
    ensures { OnOk result
        (map (λ o. o.now) words.new.items ≡ name.now ∷ map (λ o. o.now) rest.now) }
{
    words.clear();
    words.push(name)?;
    words.extend_from_slice(rest)?;
    Ok(())
}
