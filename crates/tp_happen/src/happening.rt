//! What events do to a state when they happen at once.

ghost use Rattle.std.specs.Prelude.{◌≡◌, ℕ, ◌<◌, ◌⊎◌, length, true, false, None, slice_index_or, IfOk, IfErr, OnOk};
ghost use Rattle.std.specs.List.{All, AllByRecursion, list_all};
ghost use Rattle.tp_task.specs.InOrder.{after_events, after_deletes, after_adds};
ghost use Rattle.tp_task.specs.Happens.{atom_after, number_after, apart, is_defined};
ghost use Rattle.tp_task.specs.Event.{mixes};
ghost use Rattle.tp_happen.specs.Stored.{state_of, fits_in, OfOneTask};
ghost use Rattle.tp_happen.specs.Bounded.{effects_small, all_sums_small, StaysSmall, Passes};
ghost use Rattle.tp_happen.specs.Fault.{Applies, OnNext, OnRange};

use crate::clashes::first_clash;
use crate::faults::{Outcome, Why, first_undefined, first_unmet};
use crate::pairs::first_interfering;
use crate::states::copied;
use crate::writes::{add_all, delete_all, write_all};
use crate::{EventRef, Range, State};
use std::alloc::{AllocError, Global};
use thiserror::Error;

/// What stops a happening from being worked out: out of memory, or a number past 10^15 in absolute
/// value.
#[derive(Clone, Copy, Debug, PartialEq, Eq, Error)]
pub enum ApplyFault {
    #[error("out of memory")]
    Memory,
    #[error("a number passed 10^15")]
    Range,
}

impl From<AllocError> for ApplyFault {
    ghost use Rattle.std.specs.Prelude.{◌≡◌};
    ghost use Rattle.tp_happen.specs.declared.happening.ApplyFault.TheVariants as faults;

    ghost from_gives = { λ _ e. e ≡ faults.Memory };

    fn from(_: AllocError) -> Self {
        ApplyFault::Memory
    }
}

impl From<Range> for ApplyFault {
    ghost use Rattle.std.specs.Prelude.{◌≡◌};
    ghost use Rattle.tp_happen.specs.declared.happening.ApplyFault.TheVariants as faults;

    ghost from_gives = { λ _ e. e ≡ faults.Range };

    fn from(_: Range) -> Self {
        ApplyFault::Range
    }
}

fn atoms_after(
    alloc: Global,
    old: &[bool],
    events: &[EventRef<'_>],
) -> Result<Vec<bool>, AllocError>
    requires adds { All (λ t. All (λ a. a < length old.now) t.event.adds.items) events.now }
    requires deletes { All (λ t. All (λ a. a < length old.now) t.event.deletes.items) events.now }
    ensures ok { IfOk result (λ v. (a : ℕ) → slice_index_or v.items a false
        ≡ after_adds events.now a (after_deletes events.now a (slice_index_or old.now a false))) }
    ensures count { IfOk result (λ v. length v.items ≡ length old.now) }
{
    let mut atoms = copied(alloc, old)?;
    let slice = atoms.as_mut_slice();
    delete_all(slice, events);
    add_all(slice, events);
    Ok(atoms)
}

fn numbers_after(
    alloc: Global,
    state: &State,
    old: &[Option<i64>],
    events: &[EventRef<'_>],
) -> Result<Vec<Option<i64>>, ApplyFault>
    requires { All (λ t. All (λ w. w.fluent < length old.now) t.event.writes.items) events.now }
    ensures ok { IfOk result (λ v. (f : ℕ) → slice_index_or v.items f None ≡ after_events
        state.now.scale (state_of state.now) events.now f (slice_index_or old.now f None)) }
    ensures count { IfOk result (λ v. length v.items ≡ length old.now) }
    ensures expressions { OnOk result
        (list_all (effects_small state.now.scale (state_of state.now)) events.now ≡ true) }
    ensures sums { OnOk result ((f : ℕ) → all_sums_small state.now.scale
        (state_of state.now) events.now f (slice_index_or old.now f None) ≡ true) }
    ensures range { IfErr result (λ e. OnRange e
        ((list_all (effects_small state.now.scale (state_of state.now)) events.now ≡ false)
        ⊎ ((f : ℕ) × (all_sums_small state.now.scale
        (state_of state.now) events.now f (slice_index_or old.now f None) ≡ false)))) }
{
    let mut numbers = copied(alloc, old)?;
    write_all(numbers.as_mut_slice(), state, events)?;
    Ok(numbers)
}

/// The state after events that can happen.
fn next(alloc: Global, state: &State, events: &[EventRef<'_>]) -> Result<State, ApplyFault>
    requires fits { list_all (fits_in state.now) events.now ≡ true }
    requires apart { apart events.now ≡ true }
    requires unmixed { AllByRecursion (λ t. mixes t.event ≡ false) events.now }
    requires defined { AllByRecursion
        (λ t. is_defined state.now.scale (state_of state.now) t ≡ true) events.now }
    ensures atoms { IfOk result
        (λ n. (a : ℕ) → (state_of n).atom a ≡ atom_after (state_of state.now) events.now a) }
    ensures numbers { IfOk result (λ n. (f : ℕ)
        → (state_of n).number f ≡ number_after state.now.scale (state_of state.now) events.now f) }
    ensures task { IfOk result (OfOneTask state.now) }
    ensures expressions { OnOk result
        (list_all (effects_small state.now.scale (state_of state.now)) events.now ≡ true) }
    ensures sums { OnOk result ((f : ℕ) → all_sums_small state.now.scale
        (state_of state.now) events.now f ((state_of state.now).number f) ≡ true) }
    ensures range { IfErr result (λ e. OnRange e
        ((list_all (effects_small state.now.scale (state_of state.now)) events.now ≡ false)
        ⊎ ((f : ℕ) × (all_sums_small state.now.scale
        (state_of state.now) events.now f ((state_of state.now).number f) ≡ false)))) }
{
    let atoms = atoms_after(alloc, &state.atoms, events)?;
    let numbers = numbers_after(alloc, state, &state.numbers, events)?;
    Ok(State {
        scale: state.scale,
        atoms,
        numbers,
    })
}

/// What happens to a state when events happen at once, or the first fault: something undefined,
/// then a condition that does not hold, then an event that mixes writes, then two events that
/// interfere, each by the lowest number. Takes the time and memory of the state, and the time of
/// the conditions and effects of the events.
pub fn apply(alloc: Global, state: &State, events: &[EventRef<'_>]) -> Result<Outcome, ApplyFault>
    requires fits { list_all (fits_in state.now) events.now ≡ true }
    ensures ok { IfOk result (Applies state.now events.now) }
    ensures task { IfOk result (λ o. OnNext o (OfOneTask state.now)) }
    ensures small { IfOk result
        (λ o. OnNext o (λ _. StaysSmall state.now.scale (state_of state.now) events.now)) }
    ensures range { IfErr result
        (λ e. OnRange e (Passes state.now.scale (state_of state.now) events.now)) }
{
    if let Some(i) = first_undefined(state, events)? {
        return Ok(Outcome::Fails(i, Why::Undefined));
    }
    if let Some(i) = first_unmet(state, events)? {
        return Ok(Outcome::Fails(i, Why::Condition));
    }
    if let Some(i) = first_clash(alloc, events, state.numbers.len())? {
        return Ok(Outcome::Fails(i, Why::Clash));
    }
    if let Some((i, j)) = first_interfering(alloc, events)? {
        return Ok(Outcome::Fails(i, Why::Interferes(j)));
    }
    let next = next(alloc, state, events)?;
    Ok(Outcome::Next(next))
}
