//! The bindings of actions under which each atom that they need, and that no effect adds, is true
//! at first.

ghost use Rattle.std.specs.Prelude.{◌≡◌, ◌++◌, ℕ, List, [], true, map, IfOk, OnOk};
ghost use Rattle.tp_syntax_ast.specs.DomainViews.{action_view, initial_view};
ghost use Rattle.tp_task.specs.Bounds.{In};
ghost use Rattle.tp_ground_bindings.specs.Bindings.{bindings};
ghost use Rattle.tp_ground_bindings.specs.Rows.{names_of};
ghost use Rattle.tp_ground_bindings.specs.Views.{universe_view};
ghost use Rattle.tp_ground.specs.Instances.{instance_view};
ghost use Rattle.tp_ground_joins.specs.Walks.{IsAllowed};
ghost use Rattle.tp_ground_joins.specs.Levels.{may_be};
ghost use Rattle.tp_ground_joins.specs.Candidates.{HasAllOf};

use crate::levels::{levels_from, statics_of};
use crate::rows::{Level, Rows, WalkFault, find_rows};
use std::alloc::{AllocError, Global};
use tp_ground::{GroundFault, Instance, TooManyKind};
use tp_ground_bindings::{Universe, copied, lists_of};
use tp_syntax_ast::{Action, Initial};

/// The most bindings that joins may find.
pub const MOST_CANDIDATES: usize = 524_288;

/// The most objects that are tried for the parameters of an action.
const MOST_TRIES: usize = 100_000_000;

fn levels_for<'a>(
    alloc: Global,
    universe: &Universe<'a>,
    actions: &[Action],
    initial: &'a [Initial],
    action: &'a Action,
) -> Result<Vec<Level<'a>>, AllocError>
    ensures { IfOk result (λ v. (objects : List (List ℕ)) → In objects
        (bindings (universe_view universe.now) (action_view action.now).parameters)
        → may_be (map action_view actions.now) (map initial_view initial.now)
        (action_view action.now) objects ≡ true → IsAllowed v.items [] objects) }
{
    let parameters = action.parameters.as_slice();
    let statics = statics_of(alloc, actions, initial, action)?;
    let fixed = statics.as_slice();
    let lists = lists_of(alloc, universe, parameters)?;
    let names = lists.as_slice();
    levels_from(alloc, parameters, fixed, names)
}

fn rows_along<'a>(
    alloc: Global,
    levels: &[Level<'a>],
    room: usize,
) -> Result<Vec<Vec<&'a str>>, GroundFault>
    ensures { IfOk result (λ v. (objects : List (List ℕ)) → IsAllowed levels.now [] objects
        → In objects (map names_of v.items)) }
{
    let mut found = Rows {
        rows: Vec::new(alloc),
        room,
        tries: MOST_TRIES,
    };
    match find_rows(alloc, levels, &mut found) {
        Ok(()) => Ok(found.rows),
        Err(WalkFault::Memory) => Err(GroundFault::Memory),
        Err(WalkFault::TooMany) => Err(GroundFault::TooMany(TooManyKind::Actions)),
    }
}

// Puts instances of an action with some rows of objects at the end of a list.
fn push_instances<'a>(
    alloc: Global,
    action: &'a Action,
    rows: &[Vec<&'a str>],
    into: &mut Vec<Instance<'a>>,
) -> Result<(), AllocError>
    ensures { OnOk result (map instance_view into.new.items ≡ map instance_view into.old.items
        ++ map (λ ns. record { action = action_view action.now; objects = ns })
        (map names_of rows.now)) }
{
    for row in rows {
        let objects = copied(alloc, row)?;
        into.push(Instance { action, objects })?;
    }
    Ok(())
}

fn push_candidates<'a>(
    alloc: Global,
    universe: &Universe<'a>,
    actions: &[Action],
    initial: &'a [Initial],
    action: &'a Action,
    into: &mut Vec<Instance<'a>>,
) -> Result<(), GroundFault>
    ensures { OnOk result ((rows : List (List (List ℕ)))
        × (map instance_view into.new.items ≡ map instance_view into.old.items
        ++ map (λ ns. record { action = action_view action.now; objects = ns }) rows)
        × ((objects : List (List ℕ)) → In objects
        (bindings (universe_view universe.now) (action_view action.now).parameters)
        → may_be (map action_view actions.now) (map initial_view initial.now)
        (action_view action.now) objects ≡ true → In objects rows)) }
{
    let levels = levels_for(alloc, universe, actions, initial, action)?;
    let along = levels.as_slice();
    let rows = rows_along(alloc, along, MOST_CANDIDATES.saturating_sub(into.len()))?;
    let found = rows.as_slice();
    push_instances(alloc, action, found, into)?;
    Ok(())
}

/// The bindings of actions under which each atom that they need, and that no effect adds, is true
/// at first.
///
/// # Errors
/// More than `MOST_CANDIDATES`, or more objects tried than there may be; or out of memory.
pub(crate) fn candidates<'a>(
    alloc: Global,
    universe: &Universe<'a>,
    actions: &'a [Action],
    entries: &'a [Initial],
) -> Result<Vec<Instance<'a>>, GroundFault>
    ensures { IfOk result (λ v. HasAllOf (universe_view universe.now) (map action_view actions.now)
        (map initial_view entries.now) (map action_view actions.now) (map instance_view v.items)) }
{
    let mut all = Vec::new(alloc);
    for action in actions {
        push_candidates(alloc, universe, actions, entries, action, &mut all)?;
    }
    Ok(all)
}
