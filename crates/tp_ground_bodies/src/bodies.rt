//! The bodies of actions.

ghost use Rattle.std.specs.Prelude.{◌≡◌, List, map};
ghost use Rattle.tp_syntax_ast.specs.CondViews.{cond_view};
ghost use Rattle.tp_syntax_ast.specs.ConstraintViews.{constraint_view};
ghost use Rattle.tp_syntax_ast.specs.EffectViews.{effect_view, timed_condition_view, timed_effect_view};
ghost use Rattle.tp_syntax_ast.specs.DomainViews.{body_view};
ghost use Rattle.tp_syntax_ast.specs.Actions.{durative};
ghost use Rattle.tp_ground_bindings.specs.Views.{env_view, universe_view};
ghost use Rattle.tp_task.specs.Tables.{Tables};
ghost use Rattle.tp_ground_bodies.specs.Written.{GroundEffect, happening, condition_at, start_in, end_in, instant_in, body_in};
ghost use Rattle.tp_ground_bodies.specs.Mentions.{◌then◌, of_condition, of_start, of_end, of_instant, of_body};
ghost use Rattle.tp_ground_bodies.specs.ReadBack.{named_condition, named_limit, named_event, named_body};
ghost use Rattle.tp_ground_bodies.specs.NumberedEnds.{named_ends};
ghost use Rattle.tp_ground_bodies.specs.Changes.{shows_changes};
ghost use Rattle.tp_ground_bodies.specs.Lowered.{Lowers};

use crate::changes::Changes;
use crate::conditions::condition;
use crate::constraints::limits;
use crate::parts::joined;
use std::alloc::Global;
use tp_ground_bindings::{Env, Universe};
use tp_syntax_ast::TimeSpecifier::{AtEnd, AtStart, OverAll};
use tp_syntax_ast::{DurationRule, Effect, TimeSpecifier, TimedCond, TimedEffect};
use tp_task::{Body, Cond, GroundEvent, GroundFault, Limit, Numbering};

// The event of these changes.
fn event(condition: Cond, changes: Changes, constraint: Vec<Limit>) -> GroundEvent
    ensures { (t : Tables) (os : List GroundEffect) → shows_changes t changes os
        → named_event t result ≡ happening (named_condition t condition) os
        (map (named_limit t) constraint.items) }
{
    let Changes {
        adds,
        deletes,
        writes,
    } = changes;
    GroundEvent {
        condition,
        adds,
        deletes,
        writes,
        constraint,
    }
}

// The conjuncts of a durative action's condition at a specifier.
fn condition_at<'a>(
    alloc: Global,
    universe: &Universe<'a>,
    env: &Env<'_, 'a>,
    specifier: TimeSpecifier,
    numbering: &mut Numbering,
    condition: &'a TimedCond,
) -> Result<Cond, GroundFault>
    ensures { Lowers named_condition numbering.old result numbering.new (condition_at
        (universe_view universe.now) specifier (env_view env.now)
        (timed_condition_view condition.now))
        (of_condition (condition_at (universe_view universe.now) specifier
        (env_view env.now) (timed_condition_view condition.now))) }
{
    Ok(Cond::And(joined(alloc, universe, env, specifier, numbering, condition)?))
}

fn start<'a>(
    alloc: Global,
    universe: &Universe<'a>,
    env: &Env<'_, 'a>,
    numbering: &mut Numbering,
    duration: &'a DurationRule,
    condition: &'a TimedCond,
    effect: &'a TimedEffect,
) -> Result<GroundEvent, GroundFault>
    ensures { Lowers named_event numbering.old result numbering.new
        (start_in (universe_view universe.now) (env_view env.now) (constraint_view duration.now)
        (timed_condition_view condition.now) (timed_effect_view effect.now))
        (of_start (universe_view universe.now) (env_view env.now) (constraint_view duration.now)
        (timed_condition_view condition.now) (timed_effect_view effect.now)) }
{
    let condition = condition_at(alloc, universe, env, AtStart, numbering, condition)?;
    let changes = joined(alloc, universe, env, AtStart, numbering, effect)?;
    let constraint = limits(alloc, env, numbering, duration)?;
    Ok(event(condition, changes, constraint))
}

fn end<'a>(
    alloc: Global,
    universe: &Universe<'a>,
    env: &Env<'_, 'a>,
    numbering: &mut Numbering,
    condition: &'a TimedCond,
    effect: &'a TimedEffect,
) -> Result<GroundEvent, GroundFault>
    ensures { Lowers named_event numbering.old result numbering.new
        (end_in (universe_view universe.now) (env_view env.now) (timed_condition_view condition.now)
        (timed_effect_view effect.now)) (of_end (universe_view universe.now)
        (env_view env.now) (timed_condition_view condition.now) (timed_effect_view effect.now)) }
{
    let condition = condition_at(alloc, universe, env, AtEnd, numbering, condition)?;
    let changes = joined(alloc, universe, env, AtEnd, numbering, effect)?;
    Ok(event(condition, changes, Vec::new(alloc)))
}

fn instant<'a>(
    alloc: Global,
    universe: &Universe<'a>,
    env: &Env<'_, 'a>,
    numbering: &mut Numbering,
    precondition: &'a tp_syntax_ast::Cond,
    effect: &'a Effect,
) -> Result<GroundEvent, GroundFault>
    ensures { Lowers named_event numbering.old result numbering.new
        (instant_in (universe_view universe.now) (env_view env.now) (cond_view precondition.now)
        (effect_view effect.now)) (of_instant (universe_view universe.now)
        (env_view env.now) (cond_view precondition.now) (effect_view effect.now)) }
{
    let condition = condition(alloc, universe, env, numbering, precondition)?;
    let changes = joined(alloc, universe, env, AtStart, numbering, effect)?;
    Ok(event(condition, changes, Vec::new(alloc)))
}

// A start and an end.
#[derive(Drop)]
struct Ends {
    first: GroundEvent,
    last: GroundEvent,
}

fn ends_of<'a>(
    alloc: Global,
    universe: &Universe<'a>,
    env: &Env<'_, 'a>,
    numbering: &mut Numbering,
    duration: &'a DurationRule,
    condition: &'a TimedCond,
    effect: &'a TimedEffect,
) -> Result<Ends, GroundFault>
    ensures { Lowers named_ends numbering.old result numbering.new (
      start_in (universe_view universe.now) (env_view env.now) (constraint_view duration.now)
          (timed_condition_view condition.now) (timed_effect_view effect.now),
      end_in (universe_view universe.now) (env_view env.now) (timed_condition_view condition.now)
          (timed_effect_view effect.now),
    ) (of_start (universe_view universe.now) (env_view env.now)
        (constraint_view duration.now) (timed_condition_view condition.now)
        (timed_effect_view effect.now)
        then of_end (universe_view universe.now)
        (env_view env.now) (timed_condition_view condition.now) (timed_effect_view effect.now)) }
{
    let first = start(alloc, universe, env, numbering, duration, condition, effect)?;
    let last = end(alloc, universe, env, numbering, condition, effect)?;
    Ok(Ends { first, last })
}

// A start, an end, and what holds between them.
fn durative<'a>(
    alloc: Global,
    universe: &Universe<'a>,
    env: &Env<'_, 'a>,
    numbering: &mut Numbering,
    duration: &'a DurationRule,
    condition: &'a TimedCond,
    effect: &'a TimedEffect,
) -> Result<Body, GroundFault>
    ensures { Lowers named_body numbering.old result numbering.new
        (body_in (universe_view universe.now) (env_view env.now)
        (durative (constraint_view duration.now)
        (timed_condition_view condition.now) (timed_effect_view effect.now)))
        (of_body (universe_view universe.now) (env_view env.now)
        (durative (constraint_view duration.now)
        (timed_condition_view condition.now) (timed_effect_view effect.now))) }
{
    let ends = ends_of(alloc, universe, env, numbering, duration, condition, effect)?;
    let between = condition_at(alloc, universe, env, OverAll, numbering, condition)?;
    Ok(Body::Durative(ends.first, ends.last, between))
}

/// The body of an action, under a binding of its parameters.
pub fn body<'a>(
    alloc: Global,
    universe: &Universe<'a>,
    env: &Env<'_, 'a>,
    numbering: &mut Numbering,
    body: &'a tp_syntax_ast::Body,
) -> Result<Body, GroundFault>
    ensures { Lowers named_body numbering.old result numbering.new
        (body_in (universe_view universe.now) (env_view env.now) (body_view body.now))
        (of_body (universe_view universe.now) (env_view env.now) (body_view body.now)) }
{
    match body {
        tp_syntax_ast::Body::Instant {
            precondition,
            effect,
        } => {
            let event = instant(alloc, universe, env, numbering, precondition, effect)?;
            Ok(Body::Instant(event))
        }
        tp_syntax_ast::Body::Durative {
            duration,
            condition,
            effect,
        } => durative(alloc, universe, env, numbering, duration, condition, effect),
    }
}
