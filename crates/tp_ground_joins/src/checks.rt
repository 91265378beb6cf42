//! Tables of the keys of rows: which bindings of the first names agree with one of them.

ghost use Rattle.std.specs.Prelude.{◌≡◌, ℕ, List, map, true, IfOk, OnOk};
ghost use Rattle.tp_ground_joins.specs.Views.{keyed_view};
ghost use Rattle.tp_ground_joins.specs.Checks.{has_row, allows, all_allow};

use crate::keyed::Keyed;
use crate::keys::key_of;
use std::alloc::{AllocError, Global};
use std::collections::HashSet;

/// The keys of some rows in some columns, and the places of a binding that are to have such a key.
#[derive(Drop)]
pub struct Check {
    pub columns: Vec<usize>,
    pub places: Vec<usize>,
    pub keys: HashSet<u64>,
}

impl Check {
    /// No row yet.
    pub fn new(alloc: Global, columns: Vec<usize>, places: Vec<usize>) -> Self
        ensures columns { result.columns ≡ columns }
        ensures places { result.places ≡ places }
    {
        Check {
            columns,
            places,
            keys: HashSet::new(alloc),
        }
    }

    /// Has a row too.
    pub fn add(&mut self, row: &[Keyed<'_>]) -> Result<(), AllocError>
        ensures columns { self.new.columns ≡ self.old.columns }
        ensures places { self.new.places ≡ self.old.places }
        ensures added { OnOk result (has_row self.new (map keyed_view row.now) ≡ true) }
        ensures kept { OnOk result ((other : List (List ℕ)) → has_row self.old other ≡ true
            → has_row self.new other ≡ true) }
    {
        let key = key_of(row, &self.columns);
        self.keys.insert(key)?;
        Ok(())
    }

    /// Whether a binding agrees with a row.
    pub(crate) fn allows(&self, row: &[Keyed<'_>]) -> bool
        ensures { result ≡ allows self.now (map keyed_view row.now) }
    {
        self.keys.contains(&key_of(row, &self.places))
    }
}

/// Whether all checks allow a binding.
pub(crate) fn all_allow(checks: &[Check], row: &[Keyed<'_>]) -> bool
    ensures { result ≡ all_allow checks.now (map keyed_view row.now) }
{
    for check in checks {
        if !check.allows(row) {
            return false;
        }
    }
    true
}
