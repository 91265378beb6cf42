//! Actions with the objects that their parameters stand for: all of them, some of them, and what is
//! written out of them.

ghost use Rattle.std.specs.Prelude.{◌≡◌, ◌++◌, ◌∷◌, Bool, map, filter, length, IfOk, OnOk};
ghost use Rattle.tp_syntax_ast.specs.DomainViews.{action_view};
ghost use Rattle.tp_ground_bindings.specs.Left.{rows_left};
ghost use Rattle.tp_ground_bindings.specs.Views.{universe_view};
ghost use Rattle.tp_ground_bodies.specs.Mentions.{of_each};
ghost use Rattle.tp_ground_bodies.specs.ReadBack.{named_body};
ghost use Rattle.tp_ground_bodies.specs.Lowered.{Lowers};
ghost use Rattle.tp_ground.specs.Reached as reached;
ghost use Rattle.tp_ground.specs.Reached.{instances, action_of, of_instance};
ghost use Rattle.tp_ground.specs.Instances.{instance_view};

use crate::grounding::lower_under;
use std::alloc::{AllocError, Global};
use tp_ground_bindings::{Rows, Universe, copied, refill, rows_of};
use tp_syntax_ast::Action;
use tp_task::{Body, GroundFault, Numbering};

/// An action, and the objects that its parameters stand for.
#[derive(Drop)]
pub struct Instance<'a> {
    pub action: &'a Action,
    pub objects: Vec<&'a str>,
}

// Puts the bindings of an action at the end of a list.
fn push_rows<'a>(
    alloc: Global,
    action: &'a Action,
    rows: &mut Rows<'_, 'a>,
    into: &mut Vec<Instance<'a>>,
) -> Result<(), AllocError>
    ensures { OnOk result (map instance_view into.new.items ≡ map instance_view into.old.items
        ++ map (λ ns. record { action = action_view action.now; objects = ns })
        (rows_left rows.old)) }
{
    'rows: while rows.advance() {
        let objects = copied(alloc, &rows.row)?;
        into.push(Instance { action, objects })?;
    }
    Ok(())
}

/// All type-correct bindings of all actions, in order.
pub fn all_instances<'a>(
    alloc: Global,
    universe: &Universe<'a>,
    actions: &'a [Action],
) -> Result<Vec<Instance<'a>>, AllocError>
    ensures { IfOk result (λ v. map instance_view v.items
        ≡ instances (universe_view universe.now) (map action_view actions.now)) }
{
    let mut all = Vec::new(alloc);
    for action in actions {
        let mut rows = rows_of(alloc, universe, action.parameters.as_slice())?;
        push_rows(alloc, action, &mut rows, &mut all)?;
    }
    Ok(all)
}

// The body of an instance.
fn lower_one<'a>(
    alloc: Global,
    universe: &Universe<'a>,
    numbering: &mut Numbering,
    instance: &Instance<'a>,
) -> Result<Body, GroundFault>
    ensures { Lowers named_body numbering.old result numbering.new
        (action_of (universe_view universe.now) (instance_view instance.now)).body
        (of_instance (universe_view universe.now) (instance_view instance.now)) }
{
    lower_under(
        alloc,
        universe,
        numbering,
        instance.action,
        &instance.objects,
    )
}

/// The bodies of some instances, in order.
pub fn lower_instances<'a>(
    alloc: Global,
    universe: &Universe<'a>,
    numbering: &mut Numbering,
    some: &[Instance<'a>],
) -> Result<Vec<Body>, GroundFault>
    ensures { Lowers (λ t v. map (named_body t) v.items) numbering.old result numbering.new
        (map (λ i. (action_of (universe_view universe.now) i).body) (map instance_view some.now))
        (of_each (of_instance (universe_view universe.now)) (map instance_view some.now)) }
{
    let mut lowered = Vec::with_capacity(alloc, some.len())?;
    for instance in some {
        lowered.push(lower_one(alloc, universe, numbering, instance)?)?;
    }
    Ok(lowered)
}

/// The words of some instances, in order.
pub fn name_instances(
    alloc: Global,
    numbering: &mut Numbering,
    some: &[Instance],
) -> Result<(), AllocError>
    ensures actions { OnOk result (numbering.new.actions ≡ numbering.old.actions
        ++ map (λ i. i.action.name ∷ i.objects) (map instance_view some.now)) }
    ensures atoms { numbering.new.atoms ≡ numbering.old.atoms }
    ensures fluents { numbering.new.fluents ≡ numbering.old.fluents }
    ensures most { numbering.new.most ≡ numbering.old.most }
{
    let mut words = Vec::new(alloc);
    for instance in some {
        refill(&mut words, instance.action.name.as_str(), &instance.objects)?;
        numbering.push_action(&words)?;
    }
    Ok(())
}

// The same instance, with a list of objects of its own.
fn copy_of<'a>(alloc: Global, instance: &Instance<'a>) -> Result<Instance<'a>, AllocError>
    ensures { IfOk result (λ i. instance_view i ≡ instance_view instance.now) }
{
    let objects = copied(alloc, &instance.objects)?;
    Ok(Instance {
        action: instance.action,
        objects,
    })
}

/// The instances that are flagged, in order.
pub fn flagged<'a>(
    alloc: Global,
    all: &[Instance<'a>],
    flags: &[bool],
) -> Result<Vec<Instance<'a>>, AllocError>
    requires { length flags.now ≡ length all.now }
    ensures { IfOk result (λ v. (test : reached.Instance → Bool)
        → flags.now ≡ map test (map instance_view all.now)
        → map instance_view v.items ≡ filter test (map instance_view all.now)) }
{
    let mut kept = Vec::new(alloc);
    for place in 0..all.len() {
        if flags[place] {
            kept.push(copy_of(alloc, &all[place])?)?;
        }
    }
    Ok(kept)
}
