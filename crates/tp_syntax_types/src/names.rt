//! Names, each once, that are found in an order: no choice of names makes that slow.

ghost use Rattle.std.specs.Prelude.{◌≡◌, [], ◌∷◌, ◌++◌, map, not, false, IfOk, OnOk};
ghost use Rattle.tp_syntax_types.specs.Among.{has_mark};
ghost use Rattle.tp_syntax_types.specs.NameSets.{same_text, insert_key};
ghost use Rattle.tp_syntax_types.specs.Tables.{IsTable};

use std::alloc::{AllocError, Global};
use std::collections::BTreeMap;
use std::marker::Model;

/// Names, each once, in the order in which they came.
#[derive(Drop)]
pub struct NameSet<'a> {
    names: Vec<&'a str>,
    places: BTreeMap<&'a str, usize>,
}

impl<'a> Model for NameSet<'a> {
    ghost use Rattle.std.specs.Prelude.{List, ℕ, map};
    ghost use Rattle.std.specs.Borrow.{Bor};

    ghost Value = { List (Bor (List ℕ)) };

    ghost use Rattle.tp_syntax_types.specs.Tables.{IsTable};

    ghost view = { λ s. s.names.items };

    ghost invariant = { λ s. IsTable s.places (map (λ n. n.now) s.names.items) };
}

// Puts a new name behind the others.
fn push_new<'a>(
    names: &mut Vec<&'a str>,
    places: &mut BTreeMap<&'a str, usize>,
    name: &'a str,
) -> Result<(), AllocError>
    requires table { IsTable places.old (map (λ n. n.now) names.old.items) }
    requires new { has_mark names.old.items name.now ≡ false }
    ensures table { IsTable places.new (map (λ n. n.now) names.new.items) }
    ensures names { OnOk result (names.new.items ≡ names.old.items ++ name.entry ∷ []) }
{
    let place = names.len();
    names.push(name)?;
    match places.insert(name, place) {
        Ok(_) => Ok(()),
        Err(_) => {
            names.pop();
            Err(AllocError)
        }
    }
}

impl<'a> NameSet<'a> {
    /// No names.
    pub fn new(alloc: Global) -> Self
        ensures { result ≡ [] }
    {
        NameSet {
            names: Vec::new(alloc),
            places: BTreeMap::new(alloc),
        }
    }

    /// Whether the name is there: as many comparisons as the logarithm of the count of names.
    pub fn contains(&self, name: &str) -> bool
        ensures { result ≡ has_mark self.now name.now }
    {
        self.places.contains_key(name)
    }

    /// Puts a name behind the others, unless it is there: whether it was new.
    pub fn insert(&mut self, name: &'a str) -> Result<bool, AllocError>
        ensures added { IfOk result (λ new. new ≡ not (has_mark self.old name.now)) }
        ensures keys { OnOk result (self.new ≡ insert_key same_text self.old name.entry) }
    {
        if self.contains(name) {
            return Ok(false);
        }
        push_new(&mut self.names, &mut self.places, name)?;
        Ok(true)
    }
}
