//! Ground tasks.

ghost use Rattle.std.specs.Prelude.{◌≡◌, ◌≤◌, ◌∷◌, true, map, length, slice_get, option_map, IfOk, string_bytes, IfSome, ◌+◌, ◌<◌, ◌^◌};
ghost use Rattle.std.specs.List.{list_all, position_from};
ghost use Rattle.tp_task.specs.Fits.{body_fits};
ghost use Rattle.tp_task.specs.Words.{same_words, text_of_words};
ghost use Rattle.tp_task.specs.Tables.{words_at};

use crate::numbering::Numbering;
use crate::{Body, Cond};
use std::alloc::AllocError;
use tp_bounds::Limits;
use tp_text::Scale;

/// The number of an atom of a task.
#[derive(Clone, Copy, Debug, PartialEq, Eq)]
pub struct AtomId(pub u32);

/// The number of a fluent of a task.
#[derive(Clone, Copy, Debug, PartialEq, Eq)]
pub struct FluentId(pub u32);

/// The number of a ground action of a task.
#[derive(Clone, Copy, Debug, PartialEq, Eq)]
pub struct ActionId(pub u32);

/// What a domain and a problem ask for, written out over the objects, with the atoms and the
/// fluents numbered.
#[derive(Drop)]
pub struct Task {
    /// How large a run of the task may grow.
    pub limits: Limits,
    /// The ticks of a unit of time.
    pub scale: Scale,
    /// The words of the atoms, the fluents and the ground actions.
    pub numbering: Numbering,
    /// What each ground action does.
    pub actions: Vec<Body>,
    /// Which atoms are true at first.
    pub initial_atoms: Vec<bool>,
    /// The value of each fluent that has one at first.
    pub initial_numbers: Vec<Option<i64>>,
    pub goal: Cond,
    ghost few_actions: { length actions.items ≤ 65535 },
    ghost fits: { list_all (body_fits (length initial_atoms.items) (length initial_numbers.items))
        actions.items ≡ true },
    ghost all_named: { length numbering.actions ≡ length actions.items },
}

impl Task {
    /// The ground action of these words: its name, and its objects in order. All are in lower case.
    pub fn action(&self, name: &str, args: &[&str]) -> Option<ActionId>
        ensures { option_map (λ i. i.0) result ≡ position_from
            (same_words (name.now ∷ map (λ a. a.now) args.now)) 0 self.now.numbering.actions }
    {
        let number = self.numbering.find_action(name, args)?;
        Some(ActionId(number as u32))
    }

    /// An atom as text: `(NAME OBJECT ..)`.
    pub fn atom_text(&self, atom: AtomId) -> Result<String, AllocError>
        ensures { IfOk result
            (λ s. string_bytes s ≡ text_of_words (words_at self.now.numbering.atoms atom.0)) }
    {
        self.numbering.atom_text(atom.0)
    }

    /// A ground action as text: `(NAME OBJECT ..)`.
    pub fn action_text(&self, action: ActionId) -> Result<String, AllocError>
        ensures { IfOk result
            (λ s. string_bytes s ≡ text_of_words (words_at self.now.numbering.actions action.0)) }
    {
        self.numbering.action_text(action.0)
    }

    /// A word of a ground action: its name at 0, and then its objects.
    pub fn action_word(&self, action: ActionId, place: usize) -> Option<&str>
        ensures few { IfSome result (λ _. place + 1 < 2 ^ 64) }
        ensures word { option_map (λ w. w.now) result
            ≡ slice_get (words_at self.now.numbering.actions action.0) place }
    {
        self.numbering.action_word(action.0, place)
    }
}
