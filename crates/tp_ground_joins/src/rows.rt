//! All rows that the checks allow.

ghost use Rattle.std.specs.Prelude.{◌≡◌, ◌++◌, ◌∷◌, ℕ, List, [], map, IfOk, OnOk};
ghost use Rattle.tp_ground_joins.specs.Views.{keyed_view, row_view};
ghost use Rattle.tp_ground_joins.specs.Walks.{walked, IsIn, IsAllowed};

use crate::checks::{Check, all_allow};
use crate::keyed::Keyed;
use std::alloc::{AllocError, AllocFailed, Global};

/// The names that may stand at a place of a row, and what the row up to there has to agree with.
#[derive(Drop)]
pub struct Level<'a> {
    pub names: Vec<Keyed<'a>>,
    pub checks: Vec<Check>,
}

/// The rows that are found, and how many more may be found and names tried.
#[derive(Drop)]
pub struct Rows<'a> {
    pub rows: Vec<Vec<&'a str>>,
    pub room: usize,
    pub tries: usize,
}

/// Why there are no rows.
#[derive(Clone, Copy, Debug, PartialEq, Eq)]
pub enum WalkFault {
    Memory,
    /// More rows, or more names to try, than there may be.
    TooMany,
}

impl From<AllocError> for WalkFault {
    fn from(_e: AllocError) -> WalkFault {
        WalkFault::Memory
    }
}

impl<T: Drop> From<AllocFailed<T>> for WalkFault {
    fn from(_e: AllocFailed<T>) -> WalkFault {
        WalkFault::Memory
    }
}

// The names of a row.
fn names_of<'a>(alloc: Global, row: &[Keyed<'a>]) -> Result<Vec<&'a str>, AllocError>
    ensures { IfOk result (λ v. row_view v ≡ map keyed_view row.now) }
{
    let mut names = Vec::with_capacity(alloc, row.len())?;
    for one in row {
        names.push(one.name)?;
    }
    Ok(names)
}

impl<'a> Rows<'a> {
    // Has a row too, if there is room.
    fn add(&mut self, alloc: Global, row: &[Keyed<'a>]) -> Result<(), WalkFault>
        ensures { OnOk result (map row_view self.new.rows.items
            ≡ map row_view self.old.rows.items ++ map keyed_view row.now ∷ []) }
    {
        if self.room == 0 {
            return Err(WalkFault::TooMany);
        }
        self.room -= 1;
        self.rows.push(names_of(alloc, row)?)?;
        Ok(())
    }

    // Counts a name that is tried.
    fn count(&mut self) -> Result<(), WalkFault>
        ensures { self.new.rows ≡ self.old.rows }
    {
        if self.tries == 0 {
            return Err(WalkFault::TooMany);
        }
        self.tries -= 1;
        Ok(())
    }
}

// Finds the rows that begin with some names, go on with one name of each level, and agree with
// what the levels ask for, in order.
fn walk<'a>(
    alloc: Global,
    levels: &[Level<'a>],
    row: &mut Vec<Keyed<'a>>,
    found: &mut Rows<'a>,
) -> Result<(), WalkFault>
    ensures found { OnOk result (map row_view found.new.rows.items
        ≡ map row_view found.old.rows.items
        ++ walked levels.now (map keyed_view row.old.items)) }
    ensures row { OnOk result (row.new.items ≡ row.old.items) }
{
    let Some((level, rest)) = levels.split_first() else {
        return found.add(alloc, row);
    };
    for name in &level.names {
        found.count()?;
        row.push(*name)?;
        if all_allow(&level.checks, row) {
            walk(alloc, rest, row, found)?;
        }
        let _ = row.pop();
    }
    Ok(())
}

/// Finds the rows of one name of each level that agree with what the levels ask for, in order:
/// behind those that were found before. It takes time in the names that are tried.
///
/// # Errors
/// More rows than there is room for, or more names to try than may be; or out of memory.
pub fn find_rows<'a>(
    alloc: Global,
    levels: &[Level<'a>],
    found: &mut Rows<'a>,
) -> Result<(), WalkFault>
    ensures rows { OnOk result (map row_view found.new.rows.items
        ≡ map row_view found.old.rows.items ++ walked levels.now []) }
    ensures complete { OnOk result ((ns : List (List ℕ)) → IsAllowed levels.now [] ns
        → IsIn ns (map row_view found.new.rows.items)) }
{
    let mut row = Vec::new(alloc);
    walk(alloc, levels, &mut row, found)
}
