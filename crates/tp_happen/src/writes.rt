//! The effects of events, written into a copy of the state one after another.

ghost use Rattle.std.specs.Prelude.{◌≡◌, ℕ, ◌<◌, ◌&&◌, ◌⊎◌, if◌then◌else◌, length, true, false, None, slice_index_or, IfOk, OnOk, OnErr};
ghost use Rattle.std.specs.List.{All, list_all};
ghost use Rattle.tp_task.specs.Event.{has};
ghost use Rattle.tp_task.specs.InOrder.{after_write, after_writes, after_events, after_deletes, after_adds};
ghost use Rattle.tp_happen.specs.Stored.{state_of};
ghost use Rattle.tp_happen.specs.Bounded.{effect_small, effects_small, sum_small, sums_small, all_sums_small};

use crate::values::{difference, product, small, sum};
use crate::{EventRef, Range, State, value};
use tp_task::{Change, FluentId, NumericEffect};

/// Writes a truth value to some atoms.
fn write_atoms(atoms: &mut [bool], which: &[u32], truth: bool)
    requires { All (λ a. a < length atoms.old) which.now }
    ensures { (a : ℕ) → slice_index_or atoms.new a false
        ≡ (if has which.now a then truth else slice_index_or atoms.old a false) }
{
    for a in which {
        atoms[*a as usize] = truth;
    }
}

/// What one numeric effect makes of its fluent. Its right side is evaluated in the state before the
/// happening.
fn written(
    now: Option<i64>,
    state: &State,
    duration: Option<i64>,
    effect: &NumericEffect,
) -> Result<Option<i64>, Range>
    ensures ok { IfOk result
        (λ v. v ≡ after_write (state_of state.now) duration effect.now effect.now.change now) }
    ensures small { OnOk result ((effect_small (state_of state.now) duration effect.now
        && sum_small (state_of state.now) duration effect.now effect.now.change now) ≡ true) }
    ensures err { OnErr result ((effect_small (state_of state.now) duration effect.now
        && sum_small (state_of state.now) duration effect.now effect.now.change now) ≡ false) }
{
    let right = value(state, duration, &effect.value)?;
    match effect.change {
        Change::Assign => Ok(right),
        Change::ScaleUp => product(small(state.number(FluentId(effect.fluent)))?, right),
        Change::Increase => sum(small(now)?, right),
        Change::Decrease => difference(small(now)?, right),
    }
}

/// Numeric effects, one after another.
fn write_effects(
    numbers: &mut [Option<i64>],
    state: &State,
    duration: Option<i64>,
    effects: &[NumericEffect],
) -> Result<(), Range>
    requires { All (λ w. w.fluent < length numbers.old) effects.now }
    ensures ok { OnOk result ((f : ℕ) → slice_index_or numbers.new f None ≡ after_writes
        (state_of state.now) duration effects.now f (slice_index_or numbers.old f None)) }
    ensures expressions { OnOk result
        (list_all (effect_small (state_of state.now) duration) effects.now ≡ true) }
    ensures sums { OnOk result ((f : ℕ) → sums_small
        (state_of state.now) duration effects.now f (slice_index_or numbers.old f None) ≡ true) }
    ensures err { OnErr result
        ((list_all (effect_small (state_of state.now) duration) effects.now ≡ false)
        ⊎ ((f : ℕ) × (sums_small
        (state_of state.now) duration effects.now f (slice_index_or numbers.old f None) ≡ false))) }
{
    for effect in effects {
        let fluent = effect.fluent as usize;
        numbers[fluent] = written(numbers[fluent], state, duration, effect)?;
    }
    Ok(())
}

/// Sets what the events delete to false.
pub(crate) fn delete_all(atoms: &mut [bool], events: &[EventRef<'_>])
    requires { All (λ t. All (λ a. a < length atoms.old) t.event.deletes.items) events.now }
    ensures { (a : ℕ) → slice_index_or atoms.new a false
        ≡ after_deletes events.now a (slice_index_or atoms.old a false) }
{
    for event in events {
        write_atoms(atoms, &event.body().deletes, false);
    }
}

/// Sets what the events add to true.
pub(crate) fn add_all(atoms: &mut [bool], events: &[EventRef<'_>])
    requires { All (λ t. All (λ a. a < length atoms.old) t.event.adds.items) events.now }
    ensures { (a : ℕ) → slice_index_or atoms.new a false
        ≡ after_adds events.now a (slice_index_or atoms.old a false) }
{
    for event in events {
        write_atoms(atoms, &event.body().adds, true);
    }
}

/// The numeric effects of the events, one after another.
pub(crate) fn write_all(
    numbers: &mut [Option<i64>],
    state: &State,
    events: &[EventRef<'_>],
) -> Result<(), Range>
    requires { All (λ t. All (λ w. w.fluent < length numbers.old) t.event.writes.items) events.now }
    ensures ok { OnOk result ((f : ℕ) → slice_index_or numbers.new f None ≡ after_events
        state.now.scale (state_of state.now) events.now f (slice_index_or numbers.old f None)) }
    ensures expressions { OnOk result
        (list_all (effects_small state.now.scale (state_of state.now)) events.now ≡ true) }
    ensures sums { OnOk result ((f : ℕ) → all_sums_small state.now.scale
        (state_of state.now) events.now f (slice_index_or numbers.old f None) ≡ true) }
    ensures err { OnErr result
        ((list_all (effects_small state.now.scale (state_of state.now)) events.now ≡ false)
        ⊎ ((f : ℕ) × (all_sums_small state.now.scale
        (state_of state.now) events.now f (slice_index_or numbers.old f None) ≡ false))) }
{
    for event in events {
        let duration = state.duration(event.ticks());
        write_effects(numbers, state, duration, &event.body().writes)?;
    }
    Ok(())
}
