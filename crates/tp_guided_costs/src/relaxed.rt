//! Propositions and operators.

use tp_search_compiled::{Compare, Lists, NONE};

/// A comparison and its proposition.
#[derive(Clone, Copy)]
pub struct Compared {
    pub prop: u32,
    pub compare: Compare,
}

/// The relaxed task. Propositions are, first, the literals of the atoms that change: 2 a for "atom
/// a is true", 2 a + 1 for "it is false"; then for each action that lasts "it runs", comparisons
/// with fluents that change, "fluent f has a value", and helpers for disjunctions. Operators are
/// the events of the actions, and helpers without an event. The end of an action needs that it
/// runs, and its invariant; its start needs the parts of the invariant that it does not bring about
/// itself.
#[derive(Drop)]
pub struct Relaxed {
    /// How many atoms change.
    pub atoms: u32,
    /// How many propositions there are.
    pub props: u32,
    /// Of each operator: what it needs, and what it adds that something needs.
    pub pre: Lists,
    pub adds: Lists,
    /// Of each proposition: the operators that need it.
    pub users: Lists,
    /// Of each operator: its event and its action, none of helpers.
    pub event: Vec<u32>,
    pub action: Vec<u32>,
    /// The operators that need nothing.
    pub free: Vec<u32>,
    /// Of each action: the operators of its start, or only event, and its end, and its proposition
    /// "it runs", or none.
    pub start_op: Vec<u32>,
    pub end_op: Vec<u32>,
    pub running: Vec<u32>,
    pub compares: Vec<Compared>,
    /// Of each proposition: its comparison, or none.
    pub compare_of: Vec<u32>,
    /// Of each fluent: the comparisons that a lesser value may help, and those that a greater one
    /// may help.
    pub helped_by_fall: Lists,
    pub helped_by_rise: Lists,
    /// Of each fluent: its proposition "it has a value", or none.
    pub defined: Vec<u32>,
    /// Of each fluent: the operators whose right sides read it.
    pub readers: Lists,
    /// What the goal needs; none where it is out of reach.
    pub goal: Option<Vec<u32>>,
}

/// The number that stands at a place, none past the last.
pub fn at(numbers: &[u32], place: u32) -> u32 {
    numbers.get(place as usize).copied().unwrap_or(NONE)
}

impl Relaxed {
    /// How many operators there are.
    pub fn ops(&self) -> usize {
        self.event.len()
    }

    /// The event of an operator, none of a helper.
    pub fn event_of(&self, op: u32) -> u32 {
        at(&self.event, op)
    }

    /// The action of an operator, none of a helper.
    pub fn action_of(&self, op: u32) -> u32 {
        at(&self.action, op)
    }

    /// The operator of an action's start or only event, if it can ever happen.
    pub fn start_of(&self, action: u32) -> u32 {
        at(&self.start_op, action)
    }

    /// The operator of an action's end, if it lasts and can ever happen.
    pub fn end_of(&self, action: u32) -> u32 {
        at(&self.end_op, action)
    }

    /// The proposition that an action runs, if it lasts and can ever happen.
    pub fn running_of(&self, action: u32) -> u32 {
        at(&self.running, action)
    }

    /// The comparison of a proposition, none if it is another.
    pub fn compare_at(&self, prop: u32) -> u32 {
        at(&self.compare_of, prop)
    }

    /// The proposition that a fluent has a value, none if it has one at first or never.
    pub fn defined_of(&self, fluent: u32) -> u32 {
        at(&self.defined, fluent)
    }
}
