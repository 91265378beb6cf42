//! Whether `:init` says that one atom holds and that it does not, or gives one fluent a value
//! twice.

ghost use Rattle.std.specs.Prelude.{◌≡◌, ◌||◌, map, IfOk, OnOk, not};
ghost use Rattle.std.specs.Option.{is_some};
ghost use Rattle.tp_syntax_ast.specs.Problems.{Initial as InitialEntry, clash, no_clash};
ghost use Rattle.tp_syntax.specs.Clashes.{clashes};
ghost use Rattle.tp_syntax_ast.specs.DomainViews.{initial_view};

use indexmap::IndexSet;
use std::alloc::{AllocError, Global};
use tp_syntax_ast::{Atom, Initial};

// What was said so far.
#[derive(Drop)]
struct Said<'a> {
    held: IndexSet<&'a Atom>,
    failed: IndexSet<&'a Atom>,
    valued: IndexSet<&'a Atom>,
}

impl<'a> Said<'a> {
    // Whether an entry clashes with one before it. It joins them.
    fn add(&mut self, entry: &'a Initial) -> Result<bool, AllocError>
        ensures clashes { IfOk result (λ b. b ≡ clashes self.old (initial_view entry.now)) }
        ensures noted { OnOk result ((i : InitialEntry)
            → clashes self.new i ≡ (clashes self.old i || clash i (initial_view entry.now))) }
    {
        match entry {
            Initial::Holds(atom) => {
                self.held.insert(atom)?;
                Ok(self.failed.contains(&atom))
            }
            Initial::Fails(atom) => {
                self.failed.insert(atom)?;
                Ok(self.held.contains(&atom))
            }
            Initial::HasValue(fluent, _) => {
                let new = self.valued.insert(fluent)?;
                Ok(!new)
            }
        }
    }
}

/// The number of the first entry that clashes with one before it: that of an atom that was said to
/// fail if it says that it holds, or the other way round, or that of a fluent that was given a
/// value, be it the same one.
pub fn first_clash(alloc: Global, entries: &[Initial]) -> Result<Option<usize>, AllocError>
    ensures { IfOk result (λ o. is_some o ≡ not (no_clash (map initial_view entries.now))) }
{
    let held = IndexSet::new(alloc);
    let failed = IndexSet::new(alloc);
    let valued = IndexSet::new(alloc);
    let mut said = Said {
        held,
        failed,
        valued,
    };
    for (number, entry) in entries.iter().enumerate() {
        if said.add(entry)? {
            return Ok(Some(number));
        }
    }
    Ok(None)
}
