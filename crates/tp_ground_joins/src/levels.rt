//! The checks of a binding's first objects that the static conditions of an action make.

ghost use Rattle.std.specs.Prelude.{◌≡◌, ◌++◌, ℕ, List, true, map, length, IfOk, IfSome, OnOk};
ghost use Rattle.std.specs.List.{AllByRecursion};
ghost use Rattle.tp_syntax_ast.specs.Symbols.{typed_view};
ghost use Rattle.tp_syntax_ast.specs.Terms.{term_view, atom_view};
ghost use Rattle.tp_syntax_ast.specs.DomainViews.{action_view, initial_view};
ghost use Rattle.tp_ground_bindings.specs.Rows.{lists_of};
ghost use Rattle.tp_ground_joins.specs.Checks.{has_row};
ghost use Rattle.tp_ground_joins.specs.declared.checks.Check as fair;
ghost use Rattle.tp_ground_joins.specs.Walks.{IsAllowed};
ghost use Rattle.tp_ground_joins.specs.Facts.{fact_seen, keyed_row};
ghost use Rattle.tp_ground_joins.specs.Levels.{AreStatic, IsStatic, Holds, place_from, place_of, AreSame, IsFair, AreFair, Picks};

use crate::checks::Check;
use crate::facts::facts_in;
use crate::keyed::Keyed;
use crate::keys::keyed_names;
use crate::needed::{are_added, needed_of};
use crate::rows::Level;
use std::alloc::{AllocError, Global};
use std::borrow::CowSlice;
use tp_syntax_ast::{Action, Atom, Initial, Term, Typed};

/// The terms of an atom that no effect adds, and the objects for which it is true at first.
#[derive(Drop)]
pub(crate) struct Static<'a> {
    pub(crate) terms: &'a [Term],
    pub(crate) rows: Vec<Vec<Keyed<'a>>>,
}

/// Columns of an atom, and the places of the parameters that stand there.
#[derive(Drop)]
struct Columns {
    columns: Vec<usize>,
    places: Vec<usize>,
}

// ---- static conditions

fn static_of<'a>(
    alloc: Global,
    actions: &[Action],
    initial: &'a [Initial],
    atom: &'a Atom,
) -> Result<Option<Static<'a>>, AllocError>
    ensures { IfOk result (λ o. IfSome o (IsStatic (map action_view actions.now)
        (map initial_view initial.now) (atom_view atom.now))) }
{
    let name = atom.name.as_str();
    if are_added(actions, name) {
        return Ok(None);
    }
    let rows = facts_in(alloc, initial, name)?;
    let terms = atom.terms.as_slice();
    Ok(Some(Static { terms, rows }))
}

/// The atoms that an action needs and no effect adds.
pub(crate) fn statics_of<'a>(
    alloc: Global,
    actions: &[Action],
    entries: &'a [Initial],
    action: &'a Action,
) -> Result<Vec<Static<'a>>, AllocError>
    ensures { IfOk result (λ v. AreStatic (map action_view actions.now)
        (map initial_view entries.now) (action_view action.now) v.items) }
{
    let needed = needed_of(alloc, &action.body)?;
    let atoms = needed.as_slice();
    let mut statics = Vec::new(alloc);
    for atom in atoms {
        match static_of(alloc, actions, entries, *atom)? {
            Some(one) => statics.push(one)?,
            None => {}
        }
    }
    Ok(statics)
}

// ---- checks

fn place_named(parameters: &[Typed], name: &str) -> Option<usize>
    ensures { result ≡ place_from 0 (map typed_view parameters.now) name.now }
{
    for place in 0..parameters.len() {
        if parameters[place].name.as_str() == name {
            return Some(place);
        }
    }
    None
}

// The place of the parameter that a term is.
fn place_in(parameters: &[Typed], term: &Term) -> Option<usize>
    ensures { result ≡ place_of (map typed_view parameters.now) (term_view term.now) }
{
    match term {
        Term::Object(_) => None,
        Term::Variable(name) => place_named(parameters, name.as_str()),
    }
}

// What of an atom the first so many parameters tell.
fn columns_of(
    alloc: Global,
    parameters: &[Typed],
    terms: &[Term],
    many: usize,
) -> Result<Columns, AllocError>
    ensures { IfOk result (λ c. AreSame (map typed_view parameters.now) (map term_view terms.now)
        many c.columns.items c.places.items) }
{
    let mut columns = Vec::new(alloc);
    let mut places = Vec::new(alloc);
    for column in 0..terms.len() {
        match place_in(parameters, &terms[column]) {
            Some(place) => {
                if place < many {
                    columns.push(column)?;
                    places.push(place)?;
                }
            }
            None => {}
        }
    }
    Ok(Columns { columns, places })
}

fn add_rows(check: &mut Check, rows: &[Vec<Keyed<'_>>]) -> Result<(), AllocError>
    ensures columns { check.new.columns ≡ check.old.columns }
    ensures places { check.new.places ≡ check.old.places }
    ensures added { OnOk result
        (AllByRecursion (λ r. has_row check.new r ≡ true) (map keyed_row rows.now)) }
{
    for row in rows {
        check.add(row)?;
    }
    Ok(())
}

fn check_of(
    alloc: Global,
    parameters: &[Typed],
    fixed: &Static<'_>,
    columns: Columns,
    many: usize,
) -> Result<Check, AllocError>
    requires { AreSame (map typed_view parameters.now) (map term_view fixed.now.terms.now) many
        columns.columns.items columns.places.items }
    ensures { IfOk result (IsFair (map typed_view parameters.now) fixed.now many) }
{
    let _ = parameters;
    let mut check = Check::new(alloc, columns.columns, columns.places);
    let rows = fixed.rows.as_slice();
    add_rows(&mut check, rows)?;
    Ok(check)
}

// Puts the check of an atom to others, if the last of so many parameters tells anything of it.
fn push_check(
    alloc: Global,
    parameters: &[Typed],
    fixed: &Static<'_>,
    many: usize,
    checks: &mut Vec<Check>,
) -> Result<(), AllocError>
    ensures { OnOk result ((cs : List fair.Check) × (checks.new.items ≡ checks.old.items ++ cs)
        × AllByRecursion (IsFair (map typed_view parameters.now) fixed.now many) cs) }
{
    let columns = columns_of(alloc, parameters, fixed.terms, many)?;
    if many == 1
        || columns
            .places
            .iter()
            .any(|place| place.saturating_add(1) == many)
    {
        checks.push(check_of(alloc, parameters, fixed, columns, many)?)?;
    }
    Ok(())
}

// The checks of the first so many objects of a binding.
fn checks_of(
    alloc: Global,
    parameters: &[Typed],
    statics: &[Static<'_>],
    many: usize,
) -> Result<Vec<Check>, AllocError>
    ensures { IfOk result
        (λ v. AreFair (map typed_view parameters.now) statics.now many v.items) }
{
    let mut checks = Vec::new(alloc);
    for one in statics {
        push_check(alloc, parameters, one, many, &mut checks)?;
    }
    Ok(checks)
}

fn level_of<'a>(
    alloc: Global,
    parameters: &[Typed],
    statics: &[Static<'a>],
    names: &[&'a str],
    many: usize,
) -> Result<Level<'a>, AllocError>
    ensures names { IfOk result (λ l. keyed_row l.names ≡ map (λ n. n.now) names.now) }
    ensures fair { IfOk result
        (λ l. AreFair (map typed_view parameters.now) statics.now many l.checks.items) }
{
    let names = keyed_names(alloc, names)?;
    let checks = checks_of(alloc, parameters, statics, many)?;
    Ok(Level { names, checks })
}

/// The levels of a walk over the objects of the last parameters.
pub(crate) fn levels_from<'a>(
    alloc: Global,
    parameters: &[Typed],
    statics: &[Static<'a>],
    lists: &[CowSlice<'_, &'a str>],
) -> Result<Vec<Level<'a>>, AllocError>
    ensures { IfOk result (λ v. (row ns : List (List ℕ))
        → length (row ++ ns) ≡ length parameters.now → Picks (lists_of lists.now) ns
        → AllByRecursion (Holds (map typed_view parameters.now) (row ++ ns)) statics.now
        → IsAllowed v.items row ns) }
{
    let mut levels = Vec::new(alloc);
    let Some((first, rest)) = lists.split_first() else {
        return Ok(levels);
    };
    let many = parameters.len().saturating_sub(rest.len());
    let names = first.as_slice();
    let level = level_of(alloc, parameters, statics, names, many)?;
    let mut others = levels_from(alloc, parameters, statics, rest)?;
    levels.push(level)?;
    levels.append(&mut others)?;
    Ok(levels)
}
