//! Which actions interfere with a candidate after them: asked once for each pair.

ghost use Rattle.std.specs.Prelude.{◌≡◌, ◌-◌, ℕ, [], List, if◌then◌else◌, ◌∷◌, ◌++◌, length, slice_get, IfOk, OnOk};
ghost use Rattle.std.specs.List.Sorted.{IsNonDecreasing};
ghost use Rattle.tp_task.specs.declared.task.Task.{Task};
ghost use Rattle.tp_task.specs.Event.{has};
ghost use Rattle.tp_task.specs.Bounds.{In};
ghost use Rattle.tp_search.specs.Possible.{interfere};
ghost use Rattle.tp_search.specs.Sides.{AreSidesOf};
ghost use Rattle.tp_search.specs.Rows.{is_free, free_after, IsAsked, IsKnown, AreUnknown, AreRows};

use crate::sides::{Side, sides_meet, sides_of};
use std::alloc::{AllocError, Global};
use tp_happen::{Part, event, interferes};
use tp_task::{ActionId, Task};

/// Of an action, once it was asked: the candidates after it that do not interfere with it, sorted.
#[derive(Drop)]
pub struct Row {
    known: bool,
    apart: Vec<u32>,
}

/// A row for each action, by number.
#[derive(Drop)]
pub struct Rows {
    alloc: Global,
    rows: Vec<Row>,
}

// Whether two actions are one event each, and these interfere.
fn interfere(task: &Task, one: u32, other: u32) -> bool
    ensures { result ≡ interfere task.now one other }
{
    let first = event(task, ActionId(one), Part::Only);
    let second = event(task, ActionId(other), Part::Only);
    match (first, second) {
        (Some(a), Some(b)) => interferes(&a, &b),
        _ => false,
    }
}

/// A number more, if it is wanted.
pub fn push_if(found: &mut Vec<u32>, number: u32, wanted: bool) -> Result<(), AllocError>
    ensures { OnOk result
        (found.new.items ≡ (if wanted then found.old.items ++ number ∷ [] else found.old.items)) }
{
    if wanted {
        found.push(number)?;
    }
    Ok(())
}

// Whether a candidate comes after an action and does not interfere with it.
fn is_free(
    alloc: Global,
    task: &Task,
    sides: &[Side],
    action: u32,
    candidate: u32,
) -> Result<bool, AllocError>
    ensures { AreSidesOf task.now action sides.now
        → IfOk result (λ b. b ≡ is_free task.now action candidate) }
{
    if candidate <= action {
        return Ok(false);
    }
    Ok(!sides_meet(alloc, task, sides, candidate)?)
}

// The candidates after an action with these sides that do not interfere with it.
fn free_of(
    alloc: Global,
    task: &Task,
    candidates: &[u32],
    sides: &[Side],
    action: u32,
) -> Result<Vec<u32>, AllocError>
    ensures { AreSidesOf task.now action sides.now
        → IfOk result (λ v. v.items ≡ free_after task.now candidates.now action) }
{
    let mut free = Vec::new(alloc);
    for candidate in candidates {
        let wanted = is_free(alloc, task, sides, action, *candidate)?;
        push_if(&mut free, *candidate, wanted)?;
    }
    Ok(free)
}

// The candidates after an action that do not interfere with it.
fn free_after(
    alloc: Global,
    task: &Task,
    candidates: &[u32],
    action: u32,
) -> Result<Vec<u32>, AllocError>
    ensures { IfOk result (λ v. v.items ≡ free_after task.now candidates.now action) }
{
    let sides = sides_of(alloc, task, action)?;
    free_of(alloc, task, candidates, &sides, action)
}

// The row of an action.
fn row_of(alloc: Global, task: &Task, candidates: &[u32], action: u32) -> Result<Row, AllocError>
    ensures { IfOk result (IsAsked task.now candidates.now action) }
{
    let mut apart = free_after(alloc, task, candidates, action)?;
    apart.sort_unstable();
    Ok(Row { known: true, apart })
}

// Rows of which none was asked.
fn unknown_rows(alloc: Global, count: usize) -> Result<Vec<Row>, AllocError>
    ensures unknown { IfOk result (λ v. AreUnknown v.items) }
    ensures count { IfOk result (λ v. length v.items ≡ count) }
{
    let mut rows = Vec::new(alloc);
    for _ in 0..count {
        rows.push(Row {
            known: false,
            apart: Vec::new(alloc),
        })?;
    }
    Ok(rows)
}

// Whether sorted numbers have a number.
#[tactic(auto, using(crate::proofs::Listed::listed))]
fn has(numbers: &[u32], number: u32) -> bool
    ensures { IsNonDecreasing numbers.now → result ≡ has numbers.now number }
{
    numbers.binary_search(&number).is_ok()
}

impl Rows {
    /// Rows for so many actions, of which none was asked.
    #[tactic(auto, using(crate::proofs::Listed::rows_unknown))]
    pub fn new(alloc: Global, count: usize) -> Result<Self, AllocError>
        ensures rows { IfOk result
            (λ r. (t : Task) (among : List ℕ) → AreRows t among r.rows.items) }
        ensures count { IfOk result (λ r. length r.rows.items ≡ count) }
    {
        let rows = unknown_rows(alloc, count)?;
        Ok(Rows { alloc, rows })
    }

    // Asks which candidates after an action interfere with it, if it was not asked.
    fn ask(&mut self, task: &Task, candidates: &[u32], action: u32) -> Result<(), AllocError>
        requires { AreRows task.now candidates.now self.old.rows.items }
        ensures rows { OnOk result (AreRows task.now candidates.now self.new.rows.items) }
        ensures asked { OnOk result (IsKnown self.new.rows.items action) }
        ensures kept { (a : ℕ) → IsKnown self.old.rows.items a
            → IsKnown self.new.rows.items a }
    {
        let at = action as usize;
        if at < self.rows.len() && !self.rows[at].known {
            self.rows[at] = row_of(self.alloc, task, candidates, action)?;
        }
        Ok(())
    }

    /// Asks for the row of the last one chosen, if it was not asked.
    pub fn ask_last(
        &mut self,
        task: &Task,
        candidates: &[u32],
        chosen: &[u32],
    ) -> Result<(), AllocError>
        requires { AreRows task.now candidates.now self.old.rows.items }
        ensures rows { OnOk result (AreRows task.now candidates.now self.new.rows.items) }
        ensures asked { OnOk result ((a : ℕ)
            → slice_get chosen.now (length chosen.now - 1) ≡ Some a
            → IsKnown self.new.rows.items a) }
        ensures kept { (a : ℕ) → IsKnown self.old.rows.items a
            → IsKnown self.new.rows.items a }
    {
        match chosen.last() {
            Some(last) => self.ask(task, candidates, *last),
            None => Ok(()),
        }
    }

    /// Whether an action and a candidate are one event each, and these interfere: looked up where
    /// it was asked.
    pub fn meet(&self, task: &Task, action: u32, candidate: u32) -> bool
        ensures { (among : List ℕ) → AreRows task.now among self.now.rows.items
            → In candidate among → result ≡ interfere task.now action candidate }
    {
        match self.rows.get(action as usize) {
            Some(row) if row.known && action < candidate => !has(&row.apart, candidate),
            _ => interfere(task, action, candidate),
        }
    }
}
