//! The rows of objects of which `:init` says that an atom holds.

ghost use Rattle.std.specs.Prelude.{◌≡◌, ◌++◌, [], map, IfOk, OnOk};
ghost use Rattle.tp_syntax_ast.specs.Terms.{term_view};
ghost use Rattle.tp_syntax_ast.specs.DomainViews.{initial_view};
ghost use Rattle.tp_ground_bindings.specs.Bindings.{object_for};
ghost use Rattle.tp_ground_joins.specs.Views.{keyed_view};
ghost use Rattle.tp_ground_joins.specs.Facts.{keyed_row, fact_of, facts_of};

use crate::keyed::Keyed;
use crate::keys::with_key;
use std::alloc::{AllocError, Global};
use tp_syntax_ast::{Initial, Term};

// The name of an object.
fn object_of(term: &Term) -> Keyed<'_>
    ensures { keyed_view result ≡ object_for [] (term_view term.now) }
{
    match term {
        Term::Object(name) => with_key(name.as_str()),
        Term::Variable(name) => with_key(name.as_str()),
    }
}

fn objects_of<'a>(alloc: Global, terms: &'a [Term]) -> Result<Vec<Keyed<'a>>, AllocError>
    ensures { IfOk result
        (λ v. keyed_row v ≡ map (λ t. object_for [] (term_view t)) terms.now) }
{
    let mut objects = Vec::with_capacity(alloc, terms.len())?;
    for term in terms {
        objects.push(object_of(term))?;
    }
    Ok(objects)
}

fn push_fact<'a>(
    alloc: Global,
    entry: &'a Initial,
    name: &str,
    rows: &mut Vec<Vec<Keyed<'a>>>,
) -> Result<(), AllocError>
    ensures { OnOk result (map keyed_row rows.new.items
        ≡ map keyed_row rows.old.items ++ fact_of name.now (initial_view entry.now)) }
{
    if let Initial::Holds(atom) = entry {
        if atom.name.as_str() == name {
            let terms = atom.terms.as_slice();
            let row = objects_of(alloc, terms)?;
            rows.push(row)?;
        }
    }
    Ok(())
}

/// The rows of objects of which `:init` says that an atom of a name holds.
pub(crate) fn facts_in<'a>(
    alloc: Global,
    entries: &'a [Initial],
    name: &str,
) -> Result<Vec<Vec<Keyed<'a>>>, AllocError>
    ensures { IfOk result
        (λ v. map keyed_row v.items ≡ facts_of name.now (map initial_view entries.now)) }
{
    let mut rows = Vec::new(alloc);
    for entry in entries {
        push_fact(alloc, entry, name, &mut rows)?;
    }
    Ok(rows)
}
