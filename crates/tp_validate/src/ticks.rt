//! What happens at one tick of a plan, or the first fault there.

ghost use Rattle.std.specs.Prelude.{◌≡◌, ◌<◌, ◌≤◌, true, false, length, IfOk, IfErr, IfSome, OnErr};
ghost use Rattle.std.specs.List.{list_all, position_from};
ghost use Rattle.tp_task.specs.Valid.{events, at};
ghost use Rattle.tp_task.specs.Verdict as verdict;
ghost use Rattle.tp_happen.specs.Stored.{state_of, fits_in};
ghost use Rattle.tp_happen.specs.Fault.{OnRange};
ghost use Rattle.tp_validate.specs.Places.{here, numbers};
ghost use Rattle.tp_validate.specs.Tick.{renumbered, invariant_small, PassesAt};
ghost use Rattle.tp_validate.specs.Found.{told, IsFound};

use crate::durations::first_unlawful;
use crate::placing::{PlacedEvent, PlannedStep, event_refs, number_at};
use std::alloc::Global;
use tp_happen::{ApplyFault, Outcome, Range, State, Why, apply, holds};
use tp_task::Body;

/// Why a plan is not valid, with the number of an event or of a step.
#[derive(Clone, Copy, Debug, PartialEq, Eq)]
pub enum Fault {
    Condition(u16),
    Undefined(u16),
    Clash(u16),
    Interferes(u16, u16),
    OverAll(u16),
    Duration(u16),
    Goal,
}

/// What a tick comes to.
#[derive(Drop)]
pub enum Judged {
    Faulty(Fault),
    Next(State),
}

// A fault of the events of a tick, named by their numbers.
fn named(there: &[PlacedEvent<'_>], place: usize, why: Why) -> Fault
    ensures { told result ≡ renumbered (numbers there.now) place why }
{
    let event = number_at(there, place);
    match why {
        Why::Condition => Fault::Condition(event),
        Why::Undefined => Fault::Undefined(event),
        Why::Clash => Fault::Clash(event),
        Why::Interferes(other) => Fault::Interferes(event, number_at(there, other)),
    }
}

// Whether a step's invariant runs past a moment and does not hold after it.
fn is_broken(after: &State, step: &PlannedStep<'_>, moment: u32) -> Result<bool, Range>
    ensures ok { IfOk result
        (λ r. r ≡ verdict.is_broken (state_of after.now) moment step.now step.now.body) }
    ensures err { OnErr result
        (invariant_small (state_of after.now) moment step.now step.now.body ≡ false) }
{
    let tick = step.tick;
    let duration = step.duration;
    match step.body {
        Body::Instant(_) => Ok(false),
        Body::Durative(_, _, invariant) => {
            if moment < tick || duration <= moment - tick {
                return Ok(false);
            }
            Ok(!holds(after, invariant)?)
        }
    }
}

// The first step whose invariant runs past a moment and does not hold after it.
fn first_broken(
    after: &State,
    steps: &[PlannedStep<'_>],
    moment: u32,
) -> Result<Option<usize>, Range>
    ensures ok { IfOk result (λ r. r
        ≡ position_from (λ p. verdict.is_broken (state_of after.now) moment p p.body) 0 steps.now) }
    ensures place { IfOk result (λ r. IfSome r (λ i. i < length steps.now)) }
    ensures err { OnErr result
        (list_all (λ p. invariant_small (state_of after.now) moment p p.body) steps.now ≡ false) }
{
    for (i, step) in steps.iter().enumerate() {
        if is_broken(after, step, moment)? {
            return Ok(Some(i));
        }
    }
    Ok(None)
}

/// What the events of a tick make of the state before it, or the first fault there.
pub fn judge_tick(
    alloc: Global,
    state: &State,
    steps: &[PlannedStep<'_>],
    there: &[PlacedEvent<'_>],
    moment: u32,
) -> Result<Judged, ApplyFault>
    requires few { length steps.now ≤ 512 }
    requires there { there.now ≡ here moment (events steps.now) }
    requires fits { list_all (fits_in state.now) (at moment (events steps.now)) ≡ true }
    ensures found { IfOk result (IsFound state.now moment steps.now (events steps.now)) }
    ensures range { IfErr result (λ e. OnRange e
        (PassesAt state.now.scale (state_of state.now) moment steps.now (events steps.now))) }
{
    if let Some(step) = first_unlawful(state, steps, moment)? {
        return Ok(Judged::Faulty(Fault::Duration(step as u16)));
    }
    let happening = event_refs(alloc, there)?;
    match apply(alloc, state, &happening)? {
        Outcome::Fails(place, why) => Ok(Judged::Faulty(named(there, place, why))),
        Outcome::Next(next) => match first_broken(&next, steps, moment)? {
            Some(step) => Ok(Judged::Faulty(Fault::OverAll(step as u16))),
            None => Ok(Judged::Next(next)),
        },
    }
}
