//! The plans of instantaneous steps at tick 0.

ghost use Rattle.std.specs.Prelude.{◌≡◌, ◌≤◌, ◌<◌, ◌+◌, ◌-◌, ◌∷◌, ◌++◌, ℕ, [], true, false, List, length, slice_get, slice_index_or, IfOk, MatchOption, OnOk};
ghost use Rattle.std.specs.List.{AllByRecursion};
ghost use Rattle.tp_task.specs.Fits.{event_fits};
ghost use Rattle.tp_happen.specs.Stored.{state_of, first_of};
ghost use Rattle.tp_validate.specs.OfTask.{IsValidPlan};
ghost use Rattle.tp_task.specs.TaskReach.{GoalIs};
ghost use Rattle.tp_search.specs.AtOnce.{CanHappen};
ghost use Rattle.tp_task.specs.Bounds.{In};
ghost use Rattle.tp_search.specs.Possible.{CanBegin, AreCandidates, AreRising, alone, is_apart};
ghost use Rattle.tp_search.specs.Rows.{AreRows};
ghost use Rattle.tp_search.specs.Children.{IsNode, children, children_within};
ghost use Rattle.tp_search.specs.Running.{step_at, steps_at};
ghost use Rattle.tp_search.specs.Answers.{IsAnswer};

use crate::arena::Arena;
use crate::found::Found;
use crate::rows::{Rows, push_if};
use std::alloc::{AllocError, Global};
use tp_happen::{ApplyFault, Event, EventRef, Outcome, Part, Plan, State, Step, apply, event};
use tp_search_frontier::SearchFault;
use tp_task::{ActionId, MOST_STEPS, Task};
use tp_validate::{ValidPlan, ValidateFault, Verdict, validate};

// A step at tick 0.
fn step_at(action: u32) -> Step
    ensures { result ≡ step_at action }
{
    Step {
        tick: 0,
        action: ActionId(action),
        duration: 0,
    }
}

fn steps_of(alloc: Global, chosen: &[u32]) -> Result<Vec<Step>, AllocError>
    ensures { IfOk result (λ v. v.items ≡ steps_at chosen.now) }
{
    chosen.iter().map(|action| step_at(*action)).collect(alloc)
}

// The plan that a node's choices make.
fn plan_of(alloc: Global, chosen: &[u32]) -> Result<Plan, AllocError>
    requires { length chosen.now ≤ 512 }
    ensures { IfOk result (λ p. p ≡ steps_at chosen.now) }
{
    let steps = steps_of(alloc, chosen)?;
    Ok(Plan::new(steps))
}

/// The validated plan of a node, None where it is not valid.
#[tactic(auto, using(crate::proofs::Loop::of_task))]
pub fn judge<'t>(
    alloc: Global,
    task: &'t Task,
    chosen: &[u32],
) -> Result<Option<ValidPlan<'t>>, SearchFault>
    requires { IsNode (length task.now.actions.items) chosen.now }
    ensures { IfOk result
        (λ r. MatchOption r (¬ IsValidPlan task.now (steps_at chosen.now)) (λ v. (v.task ≡ task.now)
        × (v.steps ≡ steps_at chosen.now) × IsValidPlan task.now (steps_at chosen.now))) }
{
    let plan = plan_of(alloc, chosen)?;
    match validate(alloc, task, plan) {
        Ok(Verdict::Valid(valid)) => Ok(Some(valid)),
        Ok(Verdict::Invalid { .. }) => Ok(None),
        Err(ValidateFault::Memory(_)) => Err(SearchFault::Memory),
        Err(ValidateFault::Range(_)) => Err(SearchFault::Range),
    }
}

// The number after the last one chosen, 0 where none is.
fn first_after(chosen: &[u32]) -> u32
    requires { AllByRecursion (λ a. a < 65535) chosen.now }
    ensures after { (last : ℕ)
        → slice_get chosen.now (length chosen.now - 1) ≡ Some last → result ≡ last + 1 }
    ensures none { chosen.now ≡ [] → result ≡ 0 }
    ensures least { (a : ℕ) → AllByRecursion (λ b. b < a) chosen.now → result ≤ a }
{
    match chosen.last() {
        Some(last) => *last + 1,
        None => 0,
    }
}

// Whether an event can happen alone in a state.
fn happens_alone(alloc: Global, state: &State, only: Event<'_>) -> Result<bool, SearchFault>
    requires { event_fits (length state.now.atoms) (length state.now.numbers) only ≡ true }
    ensures yes { IfOk result
        (λ r. r ≡ true → CanHappen state.now.scale (state_of state.now) (alone only.entry)) }
    ensures no { IfOk result (λ r. r ≡ false
        → ¬ CanHappen state.now.scale (state_of state.now) (alone only.entry)) }
{
    let events = [EventRef::new(only, 0)];
    match apply(alloc, state, &events) {
        Ok(Outcome::Next(_)) => Ok(true),
        Ok(Outcome::Fails(_, _)) => Ok(false),
        Err(ApplyFault::Memory) => Err(SearchFault::Memory),
        Err(ApplyFault::Range) => Err(SearchFault::Range),
    }
}

// Whether an action is one event that can happen alone in the state in which the task begins.
fn can_begin(alloc: Global, task: &Task, state: &State, action: u32) -> Result<bool, SearchFault>
    requires { state.now ≡ first_of task.now }
    ensures yes { IfOk result (λ r. r ≡ true → CanBegin task.now action) }
    ensures no { IfOk result (λ r. r ≡ false → ¬ CanBegin task.now action) }
{
    match event(task, ActionId(action), Part::Only) {
        Some(only) => happens_alone(alloc, state, only),
        None => Ok(false),
    }
}

fn push_candidates(
    alloc: Global,
    task: &Task,
    state: &State,
    found: &mut Vec<u32>,
) -> Result<(), SearchFault>
    requires state { state.now ≡ first_of task.now }
    requires none { found.old.items ≡ [] }
    ensures all { OnOk result
        (AreCandidates task.now (length task.now.actions.items) found.new.items) }
    ensures no_other { OnOk result (AllByRecursion (CanBegin task.now) found.new.items) }
    ensures rising { OnOk result (AreRising found.new.items) }
{
    let count = task.actions.len() as u32;
    for action in 0..count {
        let wanted = can_begin(alloc, task, state, action)?;
        push_if(found, action, wanted)?;
    }
    Ok(())
}

// The actions that can be the only one at tick 0, by number.
fn candidates(alloc: Global, task: &Task) -> Result<Vec<u32>, SearchFault>
    ensures all { IfOk result
        (λ v. AreCandidates task.now (length task.now.actions.items) v.items) }
    ensures no_other { IfOk result (λ v. AllByRecursion (CanBegin task.now) v.items) }
    ensures rising { IfOk result (λ v. AreRising v.items) }
{
    let state = State::initial(alloc, task)?;
    let mut found = Vec::new(alloc);
    push_candidates(alloc, task, &state, &mut found)?;
    Ok(found)
}

// Whether an action interferes with none of those that are chosen.
fn is_apart(rows: &Rows, task: &Task, chosen: &[u32], action: u32) -> bool
    ensures { (among : List ℕ) → AreRows task.now among rows.now.rows.items → In action among
        → result ≡ is_apart task.now chosen.now action }
{
    for other in chosen {
        if rows.meet(task, *other, action) {
            return false;
        }
    }
    true
}

// The child of a node that chooses an action next, if it is not before the first and interferes
// with none chosen.
fn add_child(
    arena: &mut Arena,
    rows: &Rows,
    task: &Task,
    node: u32,
    chosen: &[u32],
    first: u32,
    action: u32,
) -> Result<(), AllocError>
    requires known { node < length arena.old }
    requires chosen { chosen.now ≡ slice_index_or arena.old node [] }
    requires is_node { IsNode (length task.now.actions.items) chosen.now }
    requires room { length chosen.now < 512 }
    requires action { action < length task.now.actions.items }
    ensures { OnOk result ((among : List ℕ) → AreRows task.now among rows.now.rows.items
        → In action among
        → arena.new ≡ arena.old ++ children task.now first (action ∷ []) chosen.now) }
{
    if action < first || !is_apart(rows, task, chosen, action) {
        return Ok(());
    }
    arena.add(node, action)
}

// For each candidate from the first on that can join a node, the node that chooses it next.
fn add_children(
    arena: &mut Arena,
    rows: &Rows,
    task: &Task,
    candidates: &[u32],
    node: u32,
    chosen: &[u32],
    first: u32,
) -> Result<(), AllocError>
    requires known { node < length arena.old }
    requires chosen { chosen.now ≡ slice_index_or arena.old node [] }
    requires is_node { IsNode (length task.now.actions.items) chosen.now }
    requires actions { AllByRecursion (λ a. a < length task.now.actions.items) candidates.now }
    requires rows { AreRows task.now candidates.now rows.now.rows.items }
    ensures { OnOk result
        (arena.new ≡ arena.old ++ children_within task.now first candidates.now chosen.now) }
{
    if chosen.len() >= MOST_STEPS {
        return Ok(());
    }
    for action in candidates {
        add_child(arena, rows, task, node, chosen, first, *action)?;
    }
    Ok(())
}

// Takes nodes in the order in which they were made, until one is a plan or the budget is spent.
fn run<'t>(
    alloc: Global,
    task: &'t Task,
    candidates: &[u32],
    rows: &mut Rows,
    budget: u32,
    horizon: u32,
) -> Result<Found<'t>, SearchFault>
    requires in_reach { GoalIs task.now true }
    requires all { AreCandidates task.now (length task.now.actions.items) candidates.now }
    requires rows { AreRows task.now candidates.now rows.old.rows.items }
    ensures { IfOk result (IsAnswer task.now budget horizon) }
{
    let mut arena = Arena::new(alloc);
    let mut expanded = 0;
    while let Some(chosen) = arena.chosen(alloc, expanded)? {
        if let Some(plan) = judge(alloc, task, &chosen)? {
            return Ok(Found::Plan(plan));
        }
        if expanded >= budget {
            return Ok(Found::Spent(expanded));
        }
        let first = first_after(&chosen);
        rows.ask_last(task, candidates, &chosen)?;
        add_children(&mut arena, rows, task, candidates, expanded, &chosen, first)?;
        expanded += 1;
    }
    Ok(Found::Exhausted)
}

/// Looks for a plan of instantaneous steps at tick 0, for each set of actions that can happen at
/// once there one node.
pub fn plan_at_once<'t>(
    alloc: Global,
    task: &'t Task,
    budget: u32,
    horizon: u32,
) -> Result<Found<'t>, SearchFault>
    requires { GoalIs task.now true }
    ensures { IfOk result (IsAnswer task.now budget horizon) }
{
    let candidates = candidates(alloc, task)?;
    let mut rows = Rows::new(alloc, task.actions.len())?;
    run(alloc, task, &candidates, &mut rows, budget, horizon)
}
