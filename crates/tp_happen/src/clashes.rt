//! The first event that mixes writes of one fluent.

ghost use Rattle.std.specs.Prelude.{◌≡◌, ℕ, ◌<◌, length, None, slice_index_or, IfOk};
ghost use Rattle.std.specs.List.{All, position_from};
ghost use Rattle.tp_task.specs.Event as event_spec;
ghost use Rattle.tp_happen.specs.Clashes.{clashes};

use crate::EventRef;
use crate::interfere::is_additive;
use std::alloc::{AllocError, Global};
use tp_task::NumericEffect;

/// Whether a write may not stand behind others of its fluent: there is one, and not all of them are
/// additive.
fn clashes(before: Option<bool>, additive: bool) -> bool
    ensures { result ≡ clashes before additive }
{
    match before {
        None => false,
        Some(others) => !(others && additive),
    }
}

// Whether writes mix. A table tells for each fluent whether the writes so far are additive, if
// there are any.
fn mixes(effects: &[NumericEffect], table: &mut [Option<bool>]) -> bool
    requires known { All (λ w. w.fluent < length table.old) effects.now }
    requires blank { (f : ℕ) → slice_index_or table.old f None ≡ None }
    ensures { result ≡ event_spec.mixes_in effects.now }
{
    for effect in effects {
        let fluent = effect.fluent as usize;
        let additive = is_additive(effect.change);
        if clashes(table[fluent], additive) {
            return true;
        }
        table[fluent] = Some(additive);
    }
    false
}

/// Whether writes mix, by a table of so many fluents.
#[tactic(auto, using(crate::proofs::OnClashes::few))]
fn do_mix(alloc: Global, effects: &[NumericEffect], fluents: usize) -> Result<bool, AllocError>
    requires { All (λ w. w.fluent < fluents) effects.now }
    ensures { IfOk result (λ r. r ≡ event_spec.mixes_in effects.now) }
{
    if effects.len() < 2 {
        return Ok(false);
    }
    let mut table = vec![in alloc; None; fluents]?;
    Ok(mixes(effects, table.as_mut_slice()))
}

/// The first event that mixes writes of one fluent, of so many fluents.
pub(crate) fn first_clash(
    alloc: Global,
    events: &[EventRef<'_>],
    fluents: usize,
) -> Result<Option<usize>, AllocError>
    requires { All (λ t. All (λ w. w.fluent < fluents) t.event.writes.items) events.now }
    ensures { IfOk result (λ r. r ≡ position_from (λ t. event_spec.mixes t.event) 0 events.now) }
{
    for (i, event) in events.iter().enumerate() {
        if do_mix(alloc, &event.body().writes, fluents)? {
            return Ok(Some(i));
        }
    }
    Ok(None)
}
