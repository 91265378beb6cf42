//! Where names stand in a list, in a table that has the names as its own.

ghost use Rattle.std.specs.Prelude.{◌≡◌, ℕ, List, map, IfOk, OnOk};
ghost use Rattle.std.specs.BTreeMap.{get_by_text};
ghost use Rattle.tp_syntax_types.specs.Tables.{or_place};
ghost use Rattle.tp_syntax_types.specs.OwnTables.{variable_name, IsTextTable};

use std::alloc::{AllocError, Global};
use std::collections::BTreeMap;
use tp_syntax_ast::Typed;

// Puts a name at a place if it has none.
fn put(
    alloc: Global,
    places: &mut BTreeMap<String, usize>,
    name: &str,
    place: usize,
) -> Result<(), AllocError>
    ensures { OnOk result ((n : List ℕ)
        → get_by_text places.new n ≡ or_place (get_by_text places.old n) name.now place n) }
{
    if places.contains_key(name) {
        return Ok(());
    }
    let own = String::from_str(alloc, name)?;
    places.insert(own, place)?;
    Ok(())
}

/// Where each name stands first.
pub fn own_places(alloc: Global, items: &[Typed]) -> Result<BTreeMap<String, usize>, AllocError>
    ensures { IfOk result (λ m. IsTextTable m (map variable_name items.now)) }
{
    let mut places = BTreeMap::new(alloc);
    for (place, item) in items.iter().enumerate() {
        put(alloc, &mut places, item.name.as_str(), place)?;
    }
    Ok(places)
}
