//! The first fault of a happening.

ghost use Rattle.std.specs.Prelude.{◌≡◌, true, false, not, ◌&&◌, ◌||◌, IfOk, OnOk, OnErr, IfNone, is_some, None};
ghost use Rattle.std.specs.List.{list_all, position_from};
ghost use Rattle.tp_task.specs.State as spec;
ghost use Rattle.tp_task.specs.Happens as happens;
ghost use Rattle.tp_happen.specs.Stored.{state_of};
ghost use Rattle.tp_happen.specs.Small.{values_small};
ghost use Rattle.tp_happen.specs.Terms.{terms_small, condition_small};

use crate::{EventRef, Range, State, holds, value};
use tp_task::{Change, FluentId, Limit, NumericEffect};

/// Why an event can't happen.
#[derive(Clone, Copy, Debug, PartialEq, Eq)]
pub enum Why {
    Condition,
    Undefined,
    Clash,
    Interferes(usize),
}

/// What a happening comes to.
#[derive(Drop)]
pub enum Outcome {
    Next(State),
    Fails(usize, Why),
}

fn is_assign(change: Change) -> bool
    ensures { result ≡ happens.is_assign change }
{
    matches!(change, Change::Assign)
}

fn effect_defined(
    state: &State,
    duration: Option<i64>,
    effect: &NumericEffect,
) -> Result<bool, Range>
    ensures ok { IfOk result (λ r. r
        ≡ (is_some (spec.value (state_of state.now) duration effect.now.value) && (happens.is_assign
        effect.now.change || is_some ((state_of state.now).number effect.now.fluent)))) }
    ensures small { OnOk result
        (values_small (state_of state.now) duration effect.now.value ≡ true) }
    ensures err { OnErr result
        (values_small (state_of state.now) duration effect.now.value ≡ false) }
{
    let right = value(state, duration, &effect.value)?;
    let old = state.number(FluentId(effect.fluent));
    Ok(right.is_some() && (is_assign(effect.change) || old.is_some()))
}

fn effects_defined(
    state: &State,
    duration: Option<i64>,
    effects: &[NumericEffect],
) -> Result<bool, Range>
    ensures ok { IfOk result (λ r. r ≡ list_all (λ w.
        is_some (spec.value (state_of state.now) duration w.value) && (happens.is_assign w.change
        || is_some ((state_of state.now).number w.fluent))) effects.now) }
    ensures small { OnOk result
        (list_all (λ w. values_small (state_of state.now) duration w.value) effects.now ≡ true) }
    ensures err { OnErr result
        (list_all (λ w. values_small (state_of state.now) duration w.value) effects.now ≡ false) }
{
    let mut all = true;
    for effect in effects {
        let defined = effect_defined(state, duration, effect)?;
        all = all && defined;
    }
    Ok(all)
}

/// Whether each expression of a duration constraint has a value.
pub fn constraint_defined(state: &State, constraint: &[Limit]) -> Result<bool, Range>
    ensures ok { IfOk result
        (λ r. r ≡ list_all
        (λ l. is_some (spec.value (state_of state.now) None l.value)) constraint.now) }
    ensures small { OnOk result
        (list_all (λ l. values_small (state_of state.now) None l.value) constraint.now ≡ true) }
    ensures err { OnErr result
        (list_all (λ l. values_small (state_of state.now) None l.value) constraint.now ≡ false) }
{
    let mut all = true;
    for limit in constraint {
        let defined = value(state, None, &limit.value)?.is_some();
        all = all && defined;
    }
    Ok(all)
}

/// Whether everything that an event reads has a value.
pub(crate) fn is_defined(state: &State, event: &EventRef<'_>) -> Result<bool, Range>
    ensures ok { IfOk result
        (λ r. r ≡ happens.is_defined state.now.scale (state_of state.now) event.now) }
    ensures small { OnOk result
        (terms_small state.now.scale (state_of state.now) event.now ≡ true) }
    ensures err { OnErr result
        (terms_small state.now.scale (state_of state.now) event.now ≡ false) }
{
    let effects = effects_defined(state, state.duration(event.ticks()), &event.body().writes)?;
    let constraint = constraint_defined(state, &event.body().constraint)?;
    Ok(effects && constraint)
}

/// The first event that reads what has no value.
pub(crate) fn first_undefined(
    state: &State,
    events: &[EventRef<'_>],
) -> Result<Option<usize>, Range>
    ensures ok { IfOk result (λ r. r ≡ position_from
        (λ t. not (happens.is_defined state.now.scale (state_of state.now) t)) 0 events.now) }
    ensures small { IfOk result (λ r.
        IfNone r (list_all (terms_small state.now.scale (state_of state.now)) events.now ≡ true)) }
    ensures err { OnErr result
        (list_all (terms_small state.now.scale (state_of state.now)) events.now ≡ false) }
{
    for (i, event) in events.iter().enumerate() {
        if !is_defined(state, event)? {
            return Ok(Some(i));
        }
    }
    Ok(None)
}

/// The first event whose condition does not hold.
pub(crate) fn first_unmet(state: &State, events: &[EventRef<'_>]) -> Result<Option<usize>, Range>
    ensures ok { IfOk result (λ r. r ≡ position_from
        (λ t. not (spec.holds (state_of state.now) t.event.condition)) 0 events.now) }
    ensures small { IfOk result
        (λ r. IfNone r (list_all (condition_small (state_of state.now)) events.now ≡ true)) }
    ensures err { OnErr result
        (list_all (condition_small (state_of state.now)) events.now ≡ false) }
{
    for (i, event) in events.iter().enumerate() {
        if !holds(state, &event.body().condition)? {
            return Ok(Some(i));
        }
    }
    Ok(None)
}
