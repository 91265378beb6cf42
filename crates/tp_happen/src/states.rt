//! States of a task.

ghost use Rattle.std.specs.Prelude.{◌≡◌, IfOk};
ghost use Rattle.tp_text.specs.Scales.{scale_ticks};
ghost use Rattle.tp_task.specs.State.{units};
ghost use Rattle.tp_happen.specs.Stored.{state_of, first_of};

use std::alloc::{AllocError, Global};
use std::marker::Model;
use tp_task::{AtomId, FluentId, Task};
use tp_text::Scale;

/// The truth of each atom and the number of each fluent that has one, with the scale of the task's
/// time.
#[derive(Drop)]
pub struct State {
    pub(crate) scale: Scale,
    pub(crate) atoms: Vec<bool>,
    pub(crate) numbers: Vec<Option<i64>>,
}

impl Model for State {
    ghost use Rattle.tp_text.specs.Scales.{scale_ticks};
    ghost use Rattle.tp_happen.specs.Stored.{Stored};

    ghost Value = { Stored };

    ghost view = { λ s.
        record { scale = scale_ticks s.scale; atoms = s.atoms.items; numbers = s.numbers.items } };
}

impl State {
    /// The state in which the task begins.
    pub fn initial(alloc: Global, task: &Task) -> Result<Self, AllocError>
        ensures { IfOk result (λ s. s ≡ first_of task.now) }
    {
        let atoms = copied(alloc, &task.initial_atoms)?;
        let numbers = copied(alloc, &task.initial_numbers)?;
        Ok(State {
            scale: task.scale,
            atoms,
            numbers,
        })
    }

    /// The scale of the task's time.
    pub fn scale(&self) -> Scale
        ensures { scale_ticks result ≡ self.now.scale }
    {
        self.scale
    }

    /// Whether the atom is true.
    pub fn has(&self, atom: AtomId) -> bool
        ensures { result ≡ (state_of self.now).atom atom.0 }
    {
        self.atoms.get(atom.0 as usize).copied().unwrap_or(false)
    }

    /// The fluent's number, if it has one.
    pub fn number(&self, fluent: FluentId) -> Option<i64>
        ensures { result ≡ (state_of self.now).number fluent.0 }
    {
        match self.numbers.get(fluent.0 as usize) {
            Some(x) => *x,
            None => None,
        }
    }

    /// Ticks as a duration in units of time, None where they are no whole number of units.
    #[tactic(auto, using(crate::proofs::Times::scale_positive))]
    pub fn duration(&self, ticks: u32) -> Option<i64>
        ensures { result ≡ units self.now.scale ticks }
    {
        let unit = self.scale.ticks();
        if ticks % unit == 0 {
            Some(i64::from(ticks / unit))
        } else {
            None
        }
    }
}

/// A list of its own with the same elements.
pub(crate) fn copied<T: Copy>(alloc: Global, xs: &[T]) -> Result<Vec<T>, AllocError>
    ensures { IfOk result (λ v. v.items ≡ xs.now) }
{
    let mut copy = Vec::with_capacity(alloc, xs.len())?;
    copy.extend_from_slice(xs)?;
    Ok(copy)
}
