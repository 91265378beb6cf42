//! What holds, and who wrote it last.

use crate::events::Verb;
use crate::printing::text_of;
use crate::world::World;
use std::alloc::{AllocError, Global};
use std::collections::BTreeMap;
use tp_explain_text::Tree;
use tp_text::read_whole;

/// Where a value is from.
#[derive(Clone, Copy, Debug, PartialEq, Eq)]
pub enum Origin {
    /// This place of `:init`.
    Init(usize),
    /// The event of this number, which did this.
    Event(usize, Verb),
}

/// A value, 1 and 0 of an atom that holds and that does not, and where it is from.
#[derive(Clone, Copy, Debug, PartialEq, Eq)]
pub struct Fact {
    pub value: i64,
    pub origin: Origin,
}

/// What holds, by printed atoms and fluents.
#[derive(Drop)]
pub struct Facts {
    alloc: Global,
    atoms: BTreeMap<String, Fact>,
    fluents: BTreeMap<String, Fact>,
}

impl Facts {
    /// What is known of an atom, where something is.
    pub fn atom(&self, name: &str) -> Option<Fact> {
        self.atoms.get(name).copied()
    }

    /// What is known of a fluent, where something is.
    pub fn fluent(&self, name: &str) -> Option<Fact> {
        self.fluents.get(name).copied()
    }

    /// Sets an atom or a fluent.
    pub(crate) fn set(
        &mut self,
        name: &str,
        is_fluent: bool,
        fact: Fact,
    ) -> Result<(), AllocError> {
        let name = String::from_str(self.alloc, name)?;
        let facts = if is_fluent {
            &mut self.fluents
        } else {
            &mut self.atoms
        };
        facts.insert(name, fact)?;
        Ok(())
    }

    /// Sets what was not set before.
    fn set_first(&mut self, name: &str, is_fluent: bool, fact: Fact) -> Result<(), AllocError> {
        let known = if is_fluent {
            self.fluent(name)
        } else {
            self.atom(name)
        };
        match known {
            Some(_) => Ok(()),
            None => self.set(name, is_fluent, fact),
        }
    }

    /// Takes a member of `:init` in.
    fn take<'a>(&mut self, world: &World<'a>, item: &'a Tree) -> Result<(), AllocError> {
        let origin = Origin::Init(item.place());
        match item.items() {
            [first, fluent, number] if first.word() == "=" => {
                let Some(value) = read_whole(number.word()) else {
                    return Ok(());
                };
                let name = text_of(fluent, world, &[])?;
                self.set_first(name.as_str(), true, Fact { value, origin })
            }
            [first, atom] if first.word() == "not" => {
                let name = text_of(atom, world, &[])?;
                self.set_first(name.as_str(), false, Fact { value: 0, origin })
            }
            _ => {
                let name = text_of(item, world, &[])?;
                self.set_first(name.as_str(), false, Fact { value: 1, origin })
            }
        }
    }

    /// The first state of a world.
    pub(crate) fn first(world: &World) -> Result<Facts, AllocError> {
        let mut facts = Facts {
            alloc: world.alloc,
            atoms: BTreeMap::new(world.alloc),
            fluents: BTreeMap::new(world.alloc),
        };
        for item in world.init {
            facts.take(world, item)?;
        }
        Ok(facts)
    }
}
