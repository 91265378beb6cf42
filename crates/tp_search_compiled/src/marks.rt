//! Whether events interfere.

use crate::spans::Span;
use crate::task::{Event, Task, Write};
use std::alloc::{AllocError, Global};

// What marks of an atom say: an event's condition mentions it, adds it, deletes it.
const COND: u8 = 1;

const ADD: u8 = 2;

const DEL: u8 = 4;

// And of a fluent: an event reads it, raises or lowers it, sets it.
const READ: u8 = 1;

const SUM: u8 = 2;

const SETS: u8 = 4;

/// What some events read and write.
#[derive(Drop)]
pub struct Marks {
    atoms: Vec<u8>,
    fluents: Vec<u8>,
}

fn put_one(marks: &mut [u8], number: u32, mark: u8) {
    if let Some(at) = marks.get_mut(number as usize) {
        *at = if mark == 0 { 0 } else { *at | mark };
    }
}

fn put_all(marks: &mut [u8], numbers: &[u32], mark: u8) {
    for number in numbers {
        put_one(marks, *number, mark);
    }
}

fn is_marked(marks: &[u8], number: u32, mark: u8) -> bool {
    marks.get(number as usize).copied().unwrap_or(0) & mark != 0
}

fn one_is_marked(marks: &[u8], numbers: &[u32], mark: u8) -> bool {
    numbers.iter().any(|n| is_marked(marks, *n, mark))
}

fn mark_of(op: Write) -> u8 {
    if op.sums() { SUM } else { SETS }
}

// The marks with which a write interferes.
fn against(op: Write) -> u8 {
    if op.sums() {
        READ | SETS
    } else {
        READ | SETS | SUM
    }
}

// A mark, or none in its place.
fn chosen(mark: u8, put: bool) -> u8 {
    if put { mark } else { 0 }
}

impl Marks {
    /// No marks.
    pub fn new(alloc: Global, task: &Task) -> Result<Marks, AllocError> {
        Ok(Marks {
            atoms: Vec::from_elem(alloc, 0u8, task.atoms as usize)?,
            fluents: Vec::from_elem(alloc, 0u8, task.fluents as usize)?,
        })
    }

    fn change(&mut self, task: &Task, event: &Event, put: bool) {
        let atoms = self.atoms.as_mut_slice();
        put_all(atoms, task.list(event.cond.mentioned), chosen(COND, put));
        put_all(atoms, task.list(event.adds), chosen(ADD, put));
        put_all(atoms, task.list(event.dels), chosen(DEL, put));
        let fluents = self.fluents.as_mut_slice();
        put_all(fluents, task.list(event.cond.fluents), chosen(READ, put));
        put_all(fluents, task.list(event.reads), chosen(READ, put));
        for to in task.writes_of(event) {
            put_one(fluents, to.fluent, chosen(mark_of(to.op), put));
        }
    }

    /// Marks what an event reads and writes.
    pub fn put(&mut self, task: &Task, event: &Event) {
        self.change(task, event, true);
    }

    /// Takes the marks of an event away, and those of others with it.
    pub fn wipe(&mut self, task: &Task, event: &Event) {
        self.change(task, event, false);
    }

    fn atom_marked(&self, task: &Task, atoms: Span, mark: u8) -> bool {
        one_is_marked(&self.atoms, task.list(atoms), mark)
    }

    fn fluent_marked(&self, task: &Task, fluents: Span) -> bool {
        one_is_marked(&self.fluents, task.list(fluents), SUM | SETS)
    }

    /// Whether an event interferes with one of those that are marked.
    pub fn interferes(&self, task: &Task, event: &Event) -> bool {
        self.atom_marked(task, event.adds, COND | DEL)
            || self.atom_marked(task, event.dels, COND | ADD)
            || self.atom_marked(task, event.cond.mentioned, ADD | DEL)
            || task
                .writes_of(event)
                .iter()
                .any(|w| is_marked(&self.fluents, w.fluent, against(w.op)))
            || self.fluent_marked(task, event.cond.fluents)
            || self.fluent_marked(task, event.reads)
    }
}
