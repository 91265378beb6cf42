//! The ground actions of a problem: whether they are few enough, and the body of one.

ghost use Rattle.std.specs.Prelude.{◌≡◌, ◌+◌, ◌<◌, map, length, nat_le, IfOk, MatchOption};
ghost use Rattle.tp_syntax_ast.specs.DomainViews.{action_view};
ghost use Rattle.tp_ground_bindings.specs.Views.{universe_view};
ghost use Rattle.tp_ground_bindings.specs.Bindings.{bound};
ghost use Rattle.tp_ground_bindings.specs.Left.{rows_left};
ghost use Rattle.tp_ground_bodies.specs.Written.{body_in};
ghost use Rattle.tp_ground_bodies.specs.Mentions.{of_body};
ghost use Rattle.tp_ground_bodies.specs.ReadBack.{named_body};
ghost use Rattle.tp_ground_bodies.specs.Lowered.{Lowers};
ghost use Rattle.tp_ground.specs.Grounding.{ground_actions};

use std::alloc::{AllocError, Global};
use tp_ground_bindings::{Env, Rows, Universe, rows_of};
use tp_ground_bodies::body;
use tp_syntax_ast::Action;
use tp_task::{Body, GroundFault, Numbering};

// How many more there may be behind some rows, of so many with them. None if these are more.
fn left_behind(rows: &mut Rows, most: usize) -> Option<usize>
    ensures { MatchOption result (most < length (rows_left rows.old))
        (λ k. k + length (rows_left rows.old) ≡ most) }
{
    let mut left = most;
    'rows: while rows.advance() {
        left = left.checked_sub(1)?;
    }
    Some(left)
}

/// Whether all actions together have no more bindings than so many.
pub fn actions_fit<'a>(
    alloc: Global,
    universe: &Universe<'a>,
    actions: &'a [Action],
    most: u32,
) -> Result<bool, AllocError>
    ensures { IfOk result (λ b. b ≡ nat_le
        (length (ground_actions (universe_view universe.now) (map action_view actions.now))) most) }
{
    let mut left = most as usize;
    for action in actions {
        let mut rows = rows_of(alloc, universe, action.parameters.as_slice())?;
        match left_behind(&mut rows, left) {
            Some(fewer) => left = fewer,
            None => return Ok(false),
        }
    }
    Ok(true)
}

/// The body of an action where its parameters stand for some objects.
pub fn lower_under<'a>(
    alloc: Global,
    universe: &Universe<'a>,
    numbering: &mut Numbering,
    action: &'a Action,
    objects: &[&'a str],
) -> Result<Body, GroundFault>
    ensures { Lowers named_body numbering.old result numbering.new
        (body_in (universe_view universe.now)
        (bound (action_view action.now).parameters (map (λ o. o.now) objects.now))
        (action_view action.now).body) (of_body (universe_view universe.now)
        (bound (action_view action.now).parameters (map (λ o. o.now) objects.now))
        (action_view action.now).body) }
{
    let outside = Env::Empty;
    let inner = Env::Inner(action.parameters.as_slice(), objects, &outside);
    body(alloc, universe, &inner, numbering, &action.body)
}
