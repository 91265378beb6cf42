//! A name with its key.

ghost use Rattle.std.specs.Prelude.{◌≡◌};
ghost use Rattle.tp_ground_joins.specs.Keys.{name_key};

/// A name, and its key.
#[derive(Clone, Copy, Drop)]
pub struct Keyed<'a> {
    pub name: &'a str,
    pub key: u64,
    ghost of_name: { key ≡ name_key 0 name.now },
}
