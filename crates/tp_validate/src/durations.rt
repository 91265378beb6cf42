//! How many ticks a duration constraint allows, and whether the durations of steps are lawful.

ghost use Rattle.std.specs.Prelude.{◌≡◌, ◌<◌, ◌&&◌, ◌==◌, nat_le, false, true, length, Some, None, pos, ◌*ℤ◌, ◌-ℤ◌, ◌≤ℤ◌, IfOk, IfSome, OnErr};
ghost use Rattle.std.specs.List.{list_all, position_from};
ghost use Rattle.tp_text.specs.Scales.{scale_ticks};
ghost use Rattle.tp_task.specs.State as ground_state;
ghost use Rattle.tp_task.specs.Verdict as verdict;
ghost use Rattle.tp_happen.specs.Small.{is_small, values_small};
ghost use Rattle.tp_happen.specs.Stored.{state_of};
ghost use Rattle.tp_validate.specs.Constraints as spec;
ghost use Rattle.tp_validate.specs.Constraints.{limit_holds, start_small, constraint_small_at};

use crate::placing::PlannedStep;
use tp_happen::{Range, State, constraint_defined, value};
use tp_task::{Body, Comparison, Limit};
use tp_text::Scale;

/// The numbers of ticks from the least to the greatest.
#[derive(Clone, Copy, Debug, PartialEq, Eq)]
pub struct Ticks {
    pub least: i64,
    pub most: i64,
}

/// Units of time in ticks.
fn in_ticks(scale: Scale, units: i64) -> i64
    requires { is_small (Some units) ≡ true }
    ensures ticks { result ≡ pos (scale_ticks scale) *ℤ units }
    ensures low { (pos 0 -ℤ pos 1000000000000000000) ≤ℤ result }
    ensures high { result ≤ℤ pos 1000000000000000000 }
{
    match scale {
        Scale::One => units,
        Scale::Ten => 10 * units,
        Scale::Hundred => 100 * units,
        Scale::Thousand => 1000 * units,
    }
}

fn from_least(ticks: Ticks, x: i64) -> Ticks
    ensures { result ≡ spec.from_least ticks x }
{
    Ticks {
        least: ticks.least.max(x),
        most: ticks.most,
    }
}

fn to_most(ticks: Ticks, x: i64) -> Ticks
    ensures { result ≡ spec.to_most ticks x }
{
    Ticks {
        least: ticks.least,
        most: ticks.most.min(x),
    }
}

/// Those of the ticks that a comparison allows.
fn narrowed(ticks: Ticks, how: Comparison, x: i64) -> Ticks
    requires low { (pos 0 -ℤ pos 1000000000000000000) ≤ℤ x }
    requires high { x ≤ℤ pos 1000000000000000000 }
    ensures { result ≡ spec.narrowed ticks how x }
{
    match how {
        Comparison::Less => to_most(ticks, x - 1),
        Comparison::AtMost => to_most(ticks, x),
        Comparison::Equal => to_most(from_least(ticks, x), x),
        Comparison::AtLeast => from_least(ticks, x),
        Comparison::Greater => from_least(ticks, x + 1),
    }
}

/// Those of the ticks that a comparison of a duration constraint allows in a state, up to the
/// horizon.
fn narrowed_by(state: &State, horizon: u32, ticks: Ticks, limit: &Limit) -> Result<Ticks, Range>
    ensures ok { IfOk result
        (λ r. r ≡ spec.narrowed_by horizon ticks limit.now.how (ground_state.both ◌*ℤ◌ (Some
        (pos state.now.scale)) (ground_state.value (state_of state.now) None limit.now.value))) }
    ensures err { OnErr result (values_small (state_of state.now) None limit.now.value ≡ false) }
{
    match value(state, None, &limit.value)? {
        Some(units) => Ok(narrowed(ticks, limit.how, in_ticks(state.scale(), units))),
        None => Ok(from_least(ticks, i64::from(horizon) + 1)),
    }
}

/// The lawful durations up to the horizon, by a duration constraint in the state before the start.
pub fn lawful_ticks(state: &State, horizon: u32, constraint: &[Limit]) -> Result<Ticks, Range>
    ensures ok { IfOk result
        (λ r. r ≡ spec.lawful_ticks horizon state.now.scale (state_of state.now) constraint.now) }
    ensures err { OnErr result
        (list_all (λ l. values_small (state_of state.now) None l.value) constraint.now ≡ false) }
{
    let mut ticks = Ticks {
        least: 1,
        most: i64::from(horizon),
    };
    for limit in constraint {
        ticks = narrowed_by(state, horizon, ticks, limit)?;
    }
    Ok(ticks)
}

// Whether so many ticks are at least one, and keep the duration constraint.
#[tactic(auto, using(crate::proofs::Lawful::lawful_is))]
fn is_lawful(state: &State, ticks: u32, constraint: &[Limit]) -> Result<bool, Range>
    ensures ok { IfOk result (λ r. r ≡ (nat_le 1 ticks
        && list_all (limit_holds state.now.scale (state_of state.now) ticks) constraint.now)) }
    ensures err { OnErr result
        (list_all (λ l. values_small (state_of state.now) None l.value) constraint.now ≡ false) }
{
    let lawful = lawful_ticks(state, ticks, constraint)?;
    Ok(lawful.least <= i64::from(ticks) && i64::from(ticks) <= lawful.most)
}

// Whether the duration constraint has values, and the ticks are none or break it.
fn is_unlawful(state: &State, ticks: u32, body: &Body) -> Result<bool, Range>
    ensures ok { IfOk result
        (λ r. r ≡ verdict.is_unlawful state.now.scale (state_of state.now) ticks body.now) }
    ensures err { OnErr result (start_small (state_of state.now) body.now ≡ false) }
{
    match body {
        Body::Instant(_) => Ok(false),
        Body::Durative(start, _, _) => {
            if !constraint_defined(state, &start.constraint)? {
                return Ok(false);
            }
            let lawful = is_lawful(state, ticks, &start.constraint)?;
            Ok(!lawful)
        }
    }
}

/// The first step that starts at a moment and has no lawful duration.
pub fn first_unlawful(
    state: &State,
    steps: &[PlannedStep<'_>],
    moment: u32,
) -> Result<Option<usize>, Range>
    ensures ok { IfOk result
        (λ r. r ≡ position_from (λ p. (p.moment == moment) && verdict.is_unlawful state.now.scale
        (state_of state.now) p.duration p.body) 0 steps.now) }
    ensures place { IfOk result (λ r. IfSome r (λ i. i < length steps.now)) }
    ensures err { OnErr result
        (list_all (constraint_small_at (state_of state.now) moment) steps.now ≡ false) }
{
    for (i, step) in steps.iter().enumerate() {
        if step.tick == moment && is_unlawful(state, step.duration, step.body)? {
            return Ok(Some(i));
        }
    }
    Ok(None)
}
