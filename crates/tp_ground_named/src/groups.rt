//! Rows of names by their first names.

ghost use Rattle.std.specs.Prelude.{◌≡◌, ◌∷◌, [], ◌++◌, ℕ, List, map, IfOk, OnOk, if◌then◌else◌};
ghost use Rattle.std.specs.List.{cons_option};
ghost use Rattle.std.specs.Str.{bytes_eq};
ghost use Rattle.tp_ground_named.specs.Picks.{tails, tail_after, row_words};
ghost use Rattle.tp_ground_named.specs.Groups.{behind};

use std::alloc::{AllocError, Global};
use std::collections::BTreeMap;

// Puts what follows a name behind what follows it in other rows.
fn put<'r, 'n>(
    alloc: Global,
    groups: &mut BTreeMap<&'n str, Vec<&'r [&'n str]>>,
    name: &'n str,
    tail: &'r [&'n str],
) -> Result<(), AllocError>
    ensures { OnOk result ((n : List ℕ) → behind groups.new n ≡ (if bytes_eq name.now n
        then behind groups.old n ++ map (λ w. w.now) tail.now ∷ [] else behind groups.old n)) }
{
    let mut tails = match groups.remove(name) {
        Some(tails) => tails,
        None => Vec::new(alloc),
    };
    tails.push(tail)?;
    groups.insert(name, tails)?;
    Ok(())
}

// Puts a row behind others. One of no names begins with none.
fn put_row<'r, 'n>(
    alloc: Global,
    groups: &mut BTreeMap<&'n str, Vec<&'r [&'n str]>>,
    row: &'r [&'n str],
) -> Result<(), AllocError>
    ensures { OnOk result ((n : List ℕ) → behind groups.new n
        ≡ behind groups.old n ++ cons_option (tail_after n (map (λ w. w.now) row.now)) []) }
{
    let Some((first, rest)) = row.split_first() else {
        return Ok(());
    };
    put(alloc, groups, *first, rest)?;
    Ok(())
}

/// Some rows by their first names.
pub(crate) fn groups_of<'r, 'n>(
    alloc: Global,
    rows: &[&'r [&'n str]],
) -> Result<BTreeMap<&'n str, Vec<&'r [&'n str]>>, AllocError>
    ensures { IfOk result
        (λ g. (n : List ℕ) → behind g n ≡ tails n (map row_words rows.now)) }
{
    let mut groups = BTreeMap::new(alloc);
    for row in rows {
        put_row(alloc, &mut groups, *row)?;
    }
    Ok(groups)
}

/// What follows a name in the rows that begin with it: as many comparisons as the logarithm of the
/// count of first names.
pub(crate) fn tails_in<'r, 'n>(
    alloc: Global,
    groups: &BTreeMap<&'n str, Vec<&'r [&'n str]>>,
    name: &str,
) -> Result<Vec<&'r [&'n str]>, AllocError>
    ensures { IfOk result (λ v. map row_words v.items ≡ behind groups.now name.now) }
{
    let mut tails = Vec::new(alloc);
    if let Some(known) = groups.get(name) {
        tails.extend_from_slice(known)?;
    }
    Ok(tails)
}
