//! What is declared under a name.

ghost use Rattle.std.specs.Prelude.{◌≡◌, map, option_map, IfOk};
ghost use Rattle.tp_syntax_types.specs.Tables.{IsTable, item_of};

use crate::table::{Named, places};
use std::alloc::{AllocError, Global};
use std::collections::BTreeMap;
use std::marker::Model;

/// A list whose items are found by their names in a table.
#[derive(Drop)]
pub struct Lookup<'a, T: Named> {
    items: &'a [T],
    places: BTreeMap<&'a str, usize>,
}

impl<'a, T: Named> Model for Lookup<'a, T> {
    ghost use Rattle.std.specs.Prelude.{List, map};

    ghost Value = { List T };

    ghost use Rattle.tp_syntax_types.specs.Tables.{IsTable};

    ghost view = { λ l. l.items.now };

    ghost invariant = { λ l. IsTable l.places (map T.named l.items.now) };
}

fn at_place<'a, T: Named>(
    items: &'a [T],
    places: &BTreeMap<&'a str, usize>,
    name: &str,
) -> Option<&'a T>
    requires { IsTable places.now (map T.named items.now) }
    ensures { option_map (λ t. t.now) result ≡ item_of T.named name.now items.now }
{
    let Some(place) = places.get(name) else {
        return None;
    };
    let Some(item) = items.get(*place) else {
        return None;
    };
    Some(item)
}

impl<'a, T: Named> Lookup<'a, T> {
    /// A list with a table: a name is found as fast however many there are.
    pub fn new(alloc: Global, items: &'a [T]) -> Result<Self, AllocError>
        ensures { IfOk result (λ l. l ≡ items.now) }
    {
        let places = places(alloc, items)?;
        Ok(Lookup { items, places })
    }

    /// The items, as they are declared.
    pub fn items(&self) -> &'a [T]
        ensures { result.now ≡ self.now }
    {
        self.items
    }

    /// The first item of a name.
    pub fn find(&self, name: &str) -> Option<&'a T>
        ensures { option_map (λ t. t.now) result ≡ item_of T.named name.now self.now }
    {
        at_place(self.items, &self.places, name)
    }
}
