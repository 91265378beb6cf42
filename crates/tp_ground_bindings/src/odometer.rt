//! One binding of variables after another.

ghost use Rattle.std.specs.Prelude.{◌≡◌, length, true};
ghost use Rattle.std.specs.List.{list_all};
ghost use Rattle.tp_ground_bindings.specs.Rows.{has_names, lists_of};

use std::borrow::CowSlice;

/// The names that each variable may stand for, and the places of one binding among them. They
/// advance as an odometer does, the last place first.
#[derive(Drop)]
pub struct Rows<'u, 'a> {
    pub lists: Vec<CowSlice<'u, &'a str>>,
    pub places: Vec<usize>,
    /// The binding.
    pub row: Vec<&'a str>,
    /// Whether the binding at the places is still to come.
    pub is_fresh: bool,
    ghost some: { list_all has_names (lists_of lists.items) ≡ true },
    ghost placed: { length places.items ≡ length lists.items },
    ghost wide: { length row.items ≡ length lists.items },
}
