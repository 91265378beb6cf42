//! What events add: first the actions that counters find, then rounds over all actions until one
//! adds nothing.

ghost use Rattle.std.specs.Prelude.{◌≡◌, length, nat_lt, true, count_by, IfOk, OnOk};
ghost use Rattle.std.specs.List.{list_all};
ghost use Rattle.tp_task.specs.Reach as spec;
ghost use Rattle.tp_task.specs.Reach.{IsReach};
ghost use Rattle.tp_task.specs.Rounds.{set_of, over, marked, after_event, after_body, after_round, adds_in, adds_fit, acts_of_bodies};
ghost use Rattle.tp_task.specs.Adding.{Adds, IsSettled};
ghost use Rattle.tp_task.specs.TaskReach.{acts_of, first_state, GoalIs};

use crate::counting::Counters;
use crate::{Body, Cond, GroundEvent, Task};
use std::alloc::{AllocError, Global};

fn is_reached(reach: &[bool], atom: u32) -> bool
    ensures { result ≡ set_of reach.now atom }
{
    reach.get(atom as usize).copied().unwrap_or(false)
}

/// Whether a condition (its negation, where `positive` is false) is met by a set of atoms. Each
/// part of it is looked at once at most.
#[cycle(met)]
#[tactic(auto, using(crate::proofs::Rows::met_And, crate::proofs::Rows::met_Or))]
pub fn met(reach: &[bool], positive: bool, cond: &Cond) -> bool
    ensures { result ≡ spec.met (set_of reach.now) positive cond.now }
{
    match cond {
        Cond::Atom(a) => !positive || is_reached(reach, *a),
        Cond::Compare(_, _, _) => true,
        Cond::Not(c) => met(reach, !positive, c),
        Cond::And(cs) => are_met(reach, positive, positive, cs),
        Cond::Or(cs) => are_met(reach, positive, !positive, cs),
    }
}

// Whether all of some conditions, or one of them, are met; or their negations.
#[cycle(met)]
fn are_met(reach: &[bool], positive: bool, all: bool, conds: &[Cond]) -> bool
    ensures { result ≡ over all (λ c. spec.met (set_of reach.now) positive c) conds.now }
{
    for c in conds {
        if met(reach, positive, c) != all {
            return !all;
        }
    }
    all
}

fn mark(reach: &mut [bool], atoms: &[u32])
    requires { list_all (λ a. nat_lt a (length reach.old)) atoms.now ≡ true }
    ensures { reach.new ≡ marked reach.old atoms.now }
{
    for a in atoms {
        reach[*a as usize] = true;
    }
}

fn has_all(reach: &[bool], atoms: &[u32]) -> bool
    ensures { result ≡ list_all (set_of reach.now) atoms.now }
{
    atoms.iter().all(|a| is_reached(reach, *a))
}

// The condition of an event that has nothing to add isn't looked at.
#[tactic(auto, using(crate::proofs::Adding::event_kept))]
fn take_event(reach: &mut [bool], event: &GroundEvent)
    requires { adds_in (length reach.old) event.now ≡ true }
    ensures { reach.new ≡ after_event reach.old event.now }
{
    if !has_all(reach, &event.adds) && met(reach, true, &event.condition) {
        mark(reach, &event.adds);
    }
}

// How many atoms there are.
fn count(reach: &[bool]) -> usize
    ensures { result ≡ count_by (λ b. b) reach.now }
{
    reach.iter().filter(|b| **b).count()
}

fn take_body(reach: &mut [bool], body: &Body)
    requires { adds_fit (length reach.old) body.now ≡ true }
    ensures { reach.new ≡ after_body reach.old body.now }
{
    match body {
        Body::Instant(only) => take_event(reach, only),
        Body::Durative(start, end, _) => {
            take_event(reach, start);
            take_event(reach, end);
        }
    }
}

// One round over all actions.
fn round(reach: &mut [bool], actions: &[Body])
    requires { list_all (adds_fit (length reach.old)) actions.now ≡ true }
    ensures { reach.new ≡ after_round reach.old actions.now }
{
    for body in actions {
        take_body(reach, body);
    }
}

// Counts the atoms that an action's events add and that are reached.
fn count_added(
    counters: &mut Counters,
    reach: &[bool],
    event: &GroundEvent,
) -> Result<(), AllocError> {
    for a in &event.adds {
        if is_reached(reach, *a) {
            counters.count_atom(*a)?;
        }
    }
    Ok(())
}

fn count_body(counters: &mut Counters, reach: &[bool], body: &Body) -> Result<(), AllocError> {
    match body {
        Body::Instant(only) => count_added(counters, reach, only),
        Body::Durative(start, end, _) => {
            count_added(counters, reach, start)?;
            count_added(counters, reach, end)
        }
    }
}

fn count_reached(counters: &mut Counters, reach: &[bool]) -> Result<(), AllocError> {
    let mut atom: u32 = 0;
    for truth in reach {
        if *truth {
            counters.count_atom(atom)?;
        }
        atom = atom.saturating_add(1);
    }
    Ok(())
}

// Takes an action, if it is one of them, and counts what it adds.
fn take_action(
    counters: &mut Counters,
    reach: &mut [bool],
    actions: &[Body],
    action: u32,
) -> Result<(), AllocError>
    requires { list_all (adds_fit (length reach.old)) actions.now ≡ true }
    ensures { Adds (acts_of_bodies actions.now) reach.old reach.new }
{
    match actions.get(action as usize) {
        Some(body) => {
            take_body(reach, body);
            count_body(counters, reach, body)
        }
        None => Ok(()),
    }
}

// Takes the actions that counters find, one after another.
fn spread(counters: &mut Counters, reach: &mut [bool], actions: &[Body]) -> Result<(), AllocError>
    requires { list_all (adds_fit (length reach.old)) actions.now ≡ true }
    ensures { Adds (acts_of_bodies actions.now) reach.old reach.new }
{
    for _ in 0..counters.size() {
        let Some(action) = counters.take() else {
            break;
        };
        take_action(counters, reach, actions, action)?;
    }
    Ok(())
}

// What counters find to be added.
fn spread_all(alloc: Global, reach: &mut [bool], actions: &[Body]) -> Result<(), AllocError>
    requires { list_all (adds_fit (length reach.old)) actions.now ≡ true }
    ensures { Adds (acts_of_bodies actions.now) reach.old reach.new }
{
    let mut counters = Counters::new(alloc, actions, reach.len())?;
    count_reached(&mut counters, reach)?;
    spread(&mut counters, reach, actions)
}

// Rounds until one adds nothing.
fn settle(reach: &mut [bool], actions: &[Body])
    requires { list_all (adds_fit (length reach.old)) actions.now ≡ true }
    ensures adds { Adds (acts_of_bodies actions.now) reach.old reach.new }
    ensures settled { IsSettled (acts_of_bodies actions.now) reach.new }
{
    let mut many = count(reach);
    loop {
        round(reach, actions);
        let now = count(reach);
        if now <= many {
            return;
        }
        many = now;
    }
}

/// Adds to a set of atoms what the events of actions can add, until none of them has more to add.
/// Each atom that they add is among those that there are. It costs the sizes of all conditions and
/// adds, a few times. Out of memory leaves a set that may have some of it.
pub fn saturate(alloc: Global, reach: &mut [bool], actions: &[Body]) -> Result<(), AllocError>
    requires { list_all (adds_fit (length reach.old)) actions.now ≡ true }
    ensures adds { OnOk result (Adds (acts_of_bodies actions.now) reach.old reach.new) }
    ensures settled { OnOk result (IsSettled (acts_of_bodies actions.now) reach.new) }
{
    spread_all(alloc, reach, actions)?;
    settle(reach, actions);
    Ok(())
}

/// The relaxed reach of a task: the truth of each atom (the delete relaxation of Bonet and Geffner
/// 2001). It costs the sizes of all conditions and adds, a few times.
pub fn reach(alloc: Global, task: &Task) -> Result<Vec<bool>, AllocError>
    ensures { IfOk result
        (λ v. IsReach (first_state task.now) (acts_of task.now) (set_of v.items)) }
{
    let mut atoms = Vec::from_slice(alloc, &task.initial_atoms)?;
    saturate(alloc, atoms.as_mut_slice(), &task.actions)?;
    Ok(atoms)
}

/// Whether the goal is met in the relaxed reach. It costs what `reach` does.
pub fn goal_in_reach(alloc: Global, task: &Task) -> Result<bool, AllocError>
    ensures { IfOk result (GoalIs task.now) }
{
    let atoms = reach(alloc, task)?;
    Ok(met(&atoms, true, &task.goal))
}
