//! Variables that are found by their names.

ghost use Rattle.std.specs.Prelude.{◌≡◌, map, option_map, IfOk};
ghost use Rattle.tp_syntax_types.specs.Tables.{item_of};
ghost use Rattle.tp_syntax_types.specs.OwnTables.{variable_name, IsTextTable};
ghost use Rattle.tp_syntax_scope.specs.SymbolViews.{symbols_view};
ghost use Rattle.tp_syntax_scope.specs.ScopeViews.{symbols_of};

use crate::levels::Scope;
use crate::symbols::Symbols;
use std::alloc::{AllocError, Global};
use std::collections::BTreeMap;
use std::marker::Model;
use tp_syntax_ast::{Typed, TypedList};
use tp_syntax_types::own_places::own_places;

/// The variables of an action or a quantifier over what is declared, with a table of their names.
#[derive(Drop)]
pub struct Variables<'s, 'd> {
    symbols: &'s Symbols<'d>,
    items: TypedList,
    places: BTreeMap<String, usize>,
}

impl<'s, 'd> Model for Variables<'s, 'd> {
    ghost use Rattle.std.specs.Prelude.{map};
    ghost use Rattle.tp_syntax_scope.specs.Bound.{Bound};
    ghost use Rattle.tp_syntax_scope.specs.SymbolViews.{symbols_view};
    ghost use Rattle.tp_syntax_types.specs.OwnTables.{variable_name, IsTextTable};

    ghost Value = { Bound };

    ghost view = { λ v. record { symbols = symbols_view v.symbols.now; items = v.items.items } };

    ghost invariant = { λ v. IsTextTable v.places (map variable_name v.items.items) };
}

fn at_place<'a>(
    items: &'a [Typed],
    places: &BTreeMap<String, usize>,
    name: &str,
) -> Option<&'a Typed>
    requires { IsTextTable places.now (map variable_name items.now) }
    ensures { option_map (λ t. t.now) result ≡ item_of variable_name name.now items.now }
{
    let Some(place) = places.get(name) else {
        return None;
    };
    let Some(item) = items.get(*place) else {
        return None;
    };
    Some(item)
}

impl<'s, 'd> Variables<'s, 'd> {
    /// Variables inside a scope, over the same symbols.
    pub fn new(
        alloc: Global,
        scope: &Scope<'_, 's, 'd>,
        items: TypedList,
    ) -> Result<Variables<'s, 'd>, AllocError>
        ensures symbols { IfOk result (λ v. v.symbols ≡ symbols_of scope.now) }
        ensures items { IfOk result (λ v. v.items ≡ items.items) }
    {
        let places = own_places(alloc, items.as_slice())?;
        Ok(Variables {
            symbols: scope.symbols,
            items,
            places,
        })
    }

    /// What they are over.
    pub fn symbols(&self) -> &'s Symbols<'d>
        ensures { symbols_view result.now ≡ self.now.symbols }
    {
        self.symbols
    }

    /// The first variable of a name.
    pub fn find(&self, name: &str) -> Option<&Typed>
        ensures { option_map (λ t. t.now) result ≡ item_of variable_name name.now self.now.items }
    {
        at_place(self.items.as_slice(), &self.places, name)
    }

    /// The variables, in their order.
    pub fn into_items(self) -> TypedList
        ensures { result.items ≡ self.entry.items }
    {
        let Variables { items, .. } = self;
        items
    }
}
