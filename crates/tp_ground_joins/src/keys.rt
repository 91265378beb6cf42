//! Names with their keys. Names of the same key may differ: a table of keys then allows more.

ghost use Rattle.std.specs.Prelude.{◌≡◌, [], map, slice_index_or, IfOk};
ghost use Rattle.tp_ground_joins.specs.Keys.{mixed, name_key, key_of, names_at};
ghost use Rattle.tp_ground_joins.specs.Views.{keyed_view};

use crate::keyed::Keyed;
use std::alloc::{AllocError, Global};

// Joins a number to a key.
fn mixed(key: u64, more: u64) -> u64
    ensures { result ≡ mixed key more }
{
    key.wrapping_mul(6_364_136_223_846_793_005)
        .wrapping_add(more)
}

fn name_key(name: &str) -> u64
    ensures { result ≡ name_key 0 name.now }
{
    let mut key: u64 = 0;
    for byte in name.as_bytes() {
        key = mixed(key, u64::from(*byte));
    }
    key
}

/// A name with its key.
pub fn with_key(name: &str) -> Keyed<'_>
    ensures { result.name.now ≡ name.now }
{
    Keyed {
        name,
        key: name_key(name),
    }
}

/// Some names with their keys.
pub fn keyed_names<'a>(alloc: Global, names: &[&'a str]) -> Result<Vec<Keyed<'a>>, AllocError>
    ensures { IfOk result (λ v. map keyed_view v.items ≡ map (λ n. n.now) names.now) }
{
    let mut all = Vec::with_capacity(alloc, names.len())?;
    for name in names {
        all.push(with_key(name))?;
    }
    Ok(all)
}

// The key of the name at a place, as of no name where there is none.
fn key_at(row: &[Keyed<'_>], place: usize) -> u64
    ensures { result ≡ name_key 0 (slice_index_or (map keyed_view row.now) place []) }
{
    match row.get(place) {
        Some(one) => one.key,
        None => 0,
    }
}

/// The key of the names at some places of a row.
pub(crate) fn key_of(row: &[Keyed<'_>], places: &[usize]) -> u64
    ensures { result ≡ key_of 0 (names_at places.now (map keyed_view row.now)) }
{
    let mut key: u64 = 0;
    for place in places {
        key = mixed(key, key_at(row, *place));
    }
    key
}
