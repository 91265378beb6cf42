//! Rows of names that are picked out of all, without a look at the others.

ghost use Rattle.std.specs.Prelude.{◌≡◌, ◌++◌, ◌∷◌, [], map, filter, IfOk, OnOk};
ghost use Rattle.tp_task.specs.Words.{has_words};
ghost use Rattle.tp_ground_bindings.specs.Rows.{names_of, lists_of, product};
ghost use Rattle.tp_ground_named.specs.Picks.{row_words};

use crate::groups::{groups_of, tails_in};
use std::alloc::{AllocError, Global};
use std::borrow::CowSlice;
use tp_ground_bindings::refill;

/// The names and objects of some lists, lent.
pub(crate) fn rows_in<'r, 'n>(
    alloc: Global,
    asked: &'r [Vec<&'n str>],
) -> Result<Vec<&'r [&'n str]>, AllocError>
    ensures { IfOk result (λ v. map row_words v.items ≡ map names_of asked.now) }
{
    let mut rows = Vec::new(alloc);
    for names in asked {
        rows.push(names.as_slice())?;
    }
    Ok(rows)
}

fn is_bare(row: &[&str]) -> bool
    ensures { result ≡ has_words (map (λ w. w.now) row.now ∷ []) [] }
{
    row.is_empty()
}

fn has_bare_row(rows: &[&[&str]]) -> bool
    ensures { result ≡ has_words (map row_words rows.now) [] }
{
    for row in rows {
        if is_bare(*row) {
            return true;
        }
    }
    false
}

// Puts a name before each of some rows, at the end of a list.
fn push_behind<'a>(
    alloc: Global,
    name: &'a str,
    rows: &[Vec<&'a str>],
    into: &mut Vec<Vec<&'a str>>,
) -> Result<(), AllocError>
    ensures { OnOk result (map names_of into.new.items
        ≡ map names_of into.old.items ++ map (λ rest. name.now ∷ rest) (map names_of rows.now)) }
{
    for row in rows {
        let mut longer = Vec::new(alloc);
        refill(&mut longer, name, row)?;
        into.push(longer)?;
    }
    Ok(())
}

/// The rows of one name out of each list that are asked for, in order. Takes time in the rows that
/// are asked for, and for each beginning of one in the names of the list that follows it.
pub(crate) fn pick<'a>(
    alloc: Global,
    lists: &[CowSlice<'_, &'a str>],
    rows: &[&[&str]],
) -> Result<Vec<Vec<&'a str>>, AllocError>
    ensures { IfOk result (λ v. map names_of v.items
        ≡ filter (has_words (map row_words rows.now)) (product (lists_of lists.now))) }
{
    let mut picked = Vec::new(alloc);
    if rows.is_empty() {
        return Ok(picked);
    }
    let Some((first, rest)) = lists.split_first() else {
        return pick_none(alloc, rows);
    };
    let groups = groups_of(alloc, rows)?;
    let names = first.as_slice();
    for name in names {
        let tails = tails_in(alloc, &groups, *name)?;
        let behind = pick(alloc, rest, &tails)?;
        push_behind(alloc, *name, &behind, &mut picked)?;
    }
    Ok(picked)
}

// Out of no lists there is one row, which has no name.
fn pick_none<'a>(alloc: Global, rows: &[&[&str]]) -> Result<Vec<Vec<&'a str>>, AllocError>
    ensures { IfOk result (λ v. map names_of v.items
        ≡ filter (has_words (map row_words rows.now)) ([] ∷ [])) }
{
    let mut picked = Vec::new(alloc);
    if has_bare_row(rows) {
        picked.push(Vec::new(alloc))?;
    }
    Ok(picked)
}
