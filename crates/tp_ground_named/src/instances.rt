//! The type-correct bindings for which names and objects ask.

ghost use Rattle.std.specs.Prelude.{◌≡◌, ◌++◌, map, filter, IfOk, OnOk};
ghost use Rattle.tp_syntax_ast.specs.DomainViews.{action_view};
ghost use Rattle.tp_task.specs.Words.{has_words};
ghost use Rattle.tp_ground_bindings.specs.Bindings.{bindings};
ghost use Rattle.tp_ground_bindings.specs.Rows.{names_of};
ghost use Rattle.tp_ground_bindings.specs.Views.{universe_view};
ghost use Rattle.tp_ground.specs.Instances.{instance_view};
ghost use Rattle.tp_ground_named.specs.Picks.{row_words};
ghost use Rattle.tp_ground_named.specs.Named.{chosen_of};

use crate::groups::{groups_of, tails_in};
use crate::picks::{pick, rows_in};
use std::alloc::{AllocError, Global};
use tp_ground::Instance;
use tp_ground_bindings::{Universe, copied, lists_of};
use tp_syntax_ast::Action;

// Puts instances of an action with some rows of objects at the end of a list.
fn push_instances<'a>(
    alloc: Global,
    action: &'a Action,
    rows: &[Vec<&'a str>],
    into: &mut Vec<Instance<'a>>,
) -> Result<(), AllocError>
    ensures { OnOk result (map instance_view into.new.items ≡ map instance_view into.old.items
        ++ map (λ ns. record { action = action_view action.now; objects = ns })
        (map names_of rows.now)) }
{
    for row in rows {
        let objects = copied(alloc, row)?;
        into.push(Instance { action, objects })?;
    }
    Ok(())
}

// Puts the instances of an action for whose objects rows ask at the end of a list.
fn push_bound<'a>(
    alloc: Global,
    universe: &Universe<'a>,
    action: &'a Action,
    rows: &[&[&str]],
    into: &mut Vec<Instance<'a>>,
) -> Result<(), AllocError>
    ensures { OnOk result (map instance_view into.new.items ≡ map instance_view into.old.items
        ++ map (λ ns. record { action = action_view action.now; objects = ns })
        (filter (has_words (map row_words rows.now))
        (bindings (universe_view universe.now) (action_view action.now).parameters))) }
{
    if rows.is_empty() {
        return Ok(());
    }
    let variables = action.parameters.as_slice();
    let lists = lists_of(alloc, universe, variables)?;
    let names = lists.as_slice();
    let picked = pick(alloc, names, rows)?;
    let chosen = picked.as_slice();
    push_instances(alloc, action, chosen, into)?;
    Ok(())
}

/// The instances of actions for which names and objects ask, in order.
pub(crate) fn named_instances<'a>(
    alloc: Global,
    universe: &Universe<'a>,
    actions: &'a [Action],
    asked: &[Vec<&str>],
) -> Result<Vec<Instance<'a>>, AllocError>
    ensures { IfOk result (λ v. map instance_view v.items
        ≡ chosen_of (universe_view universe.now) (map action_view actions.now)
        (map names_of asked.now)) }
{
    let rows = rows_in(alloc, asked)?;
    let lent = rows.as_slice();
    let groups = groups_of(alloc, lent)?;
    let mut named = Vec::new(alloc);
    for action in actions {
        let tails = tails_in(alloc, &groups, action.name.as_str())?;
        let behind = tails.as_slice();
        push_bound(alloc, universe, action, behind, &mut named)?;
    }
    Ok(named)
}
