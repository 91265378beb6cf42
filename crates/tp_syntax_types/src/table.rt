//! Where names stand in a list.

ghost use Rattle.std.specs.Prelude.{◌≡◌, ℕ, List, map, string_bytes, IfOk, OnOk};
ghost use Rattle.std.specs.Option.{is_some};
ghost use Rattle.tp_syntax_types.specs.Tables.{IsTable, found, or_place};
ghost use Rattle.tp_syntax_ast.specs.TypedLists.{has_twice};

use crate::once::second_mention;
use std::alloc::{AllocError, Global};
use std::collections::BTreeMap;
use tp_syntax_ast::{Action, Signature, TypeName, Typed};

/// What has a name.
pub trait Named {
    ghost named: { Self → List ℕ };

    fn name(&self) -> &str
        ensures { result.now ≡ named self.now };
}

// Puts a name at a place if it has none.
fn put<'a>(
    places: &mut BTreeMap<&'a str, usize>,
    name: &'a str,
    place: usize,
) -> Result<(), AllocError>
    ensures { OnOk result
        ((n : List ℕ) → found places.new n ≡ or_place (found places.old n) name.now place n) }
{
    if places.contains_key(name) {
        return Ok(());
    }
    places.insert(name, place)?;
    Ok(())
}

/// Where each name stands first.
pub fn places<'a, T: Named>(
    alloc: Global,
    items: &'a [T],
) -> Result<BTreeMap<&'a str, usize>, AllocError>
    ensures { IfOk result (λ m. IsTable m (map T.named items.now)) }
{
    let mut places = BTreeMap::new(alloc);
    for (place, item) in items.iter().enumerate() {
        put(&mut places, item.name(), place)?;
    }
    Ok(places)
}

fn names<'a, T: Named>(alloc: Global, items: &'a [T]) -> Result<Vec<&'a str>, AllocError>
    ensures { IfOk result (λ v. map (λ n. n.now) v.items ≡ map T.named items.now) }
{
    let mut names = Vec::new(alloc);
    for item in items {
        names.push(item.name())?;
    }
    Ok(names)
}

/// The number of the first item whose name stands before it too.
pub fn second_named<T: Named>(alloc: Global, items: &[T]) -> Result<Option<usize>, AllocError>
    ensures { IfOk result (λ o. is_some o ≡ has_twice (map T.named items.now)) }
{
    let names = names(alloc, items)?;
    second_mention(alloc, &names)
}

impl Named for String {
    ghost named = { λ s. string_bytes s };

    fn name(&self) -> &str {
        self.as_str()
    }
}

impl Named for TypeName {
    ghost named = { λ t. string_bytes t.name };

    fn name(&self) -> &str {
        self.name.as_str()
    }
}

impl Named for Typed {
    ghost named = { λ t. string_bytes t.name };

    fn name(&self) -> &str {
        self.name.as_str()
    }
}

impl Named for Signature {
    ghost named = { λ s. string_bytes s.name };

    fn name(&self) -> &str {
        self.name.as_str()
    }
}

impl Named for Action {
    ghost named = { λ a. string_bytes a.name };

    fn name(&self) -> &str {
        self.name.as_str()
    }
}
