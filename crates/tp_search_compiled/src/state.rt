//! A state, and what events do to it.

use crate::task::{Event, Task, Write, WriteTo};
use crate::values::{UNDEFINED, Value, ranged, value_of};
use std::alloc::{AllocError, Global};

/// A state: a bit for each atom, a value for each fluent; and what they were before the changes
/// since the last `keep`.
#[derive(Drop)]
pub struct State {
    pub bits: Vec<u64>,
    pub values: Vec<i64>,
    old_bits: Vec<(u32, u64)>,
    old_values: Vec<(u32, i64)>,
    /// The values of the right sides of the event at hand.
    right_sides: Vec<i64>,
}

/// A duration in units, `UNDEFINED` where it is no whole number of them.
pub fn units(ticks: u32, scale: u32) -> i64 {
    match (ticks.checked_rem(scale), ticks.checked_div(scale)) {
        (Some(0), Some(units)) => i64::from(units),
        _ => UNDEFINED,
    }
}

fn bit_of(atom: u32) -> u64 {
    1u64.wrapping_shl(atom % 64)
}

impl State {
    /// The state in which a task begins.
    pub fn initial(alloc: Global, task: &Task) -> Result<State, AllocError> {
        let words = (task.atoms as usize).div_ceil(64);
        let mut state = State {
            bits: Vec::from_elem(alloc, 0u64, words)?,
            values: Vec::new(alloc),
            old_bits: Vec::new(alloc),
            old_values: Vec::new(alloc),
            right_sides: Vec::new(alloc),
        };
        state.values.extend_from_slice(&task.numbers)?;
        for atom in &task.init {
            state.set(*atom);
        }
        Ok(state)
    }

    // Makes an atom true.
    fn set(&mut self, atom: u32) {
        if let Some(word) = self.bits.get_mut((atom / 64) as usize) {
            *word |= bit_of(atom);
        }
    }

    /// Whether an atom is true.
    #[inline]
    pub fn has(&self, atom: u32) -> bool {
        let word = self.bits.get((atom / 64) as usize).copied();
        word.unwrap_or(0) & bit_of(atom) != 0
    }

    /// The value of a fluent, `UNDEFINED` where it has none.
    pub fn number(&self, fluent: u32) -> i64 {
        self.values
            .get(fluent as usize)
            .copied()
            .unwrap_or(UNDEFINED)
    }

    /// The value of an expression whose fluents are defined, for a duration in units; None where a
    /// number is out of range.
    pub fn value(&self, task: &Task, x: Value, units: i64) -> Option<i64> {
        value_of(&task.code, x, &self.values, units)
    }

    /// Whether some fluents have values.
    pub fn defined(&self, fluents: &[u32]) -> bool {
        fluents.iter().all(|f| self.number(*f) != UNDEFINED)
    }

    /// Whether an event reads what is undefined, for a duration in units.
    pub fn undefined(&self, task: &Task, event: &Event, units: i64) -> bool {
        (event.duration && units == UNDEFINED) || !self.defined(task.list(event.needs))
    }

    /// Carries out an event whose needs are defined; no other event of its tick interferes with it.
    /// Answers whether all numbers stay in range; where one does not, only a part of it is done.
    pub fn apply(&mut self, task: &Task, event: &Event, units: i64) -> Result<bool, AllocError> {
        if event.writes.count > 0 && !self.apply_writes(task, event, units)? {
            return Ok(false);
        }
        for atom in task.list(event.dels) {
            self.put(*atom, false)?;
        }
        for atom in task.list(event.adds) {
            self.put(*atom, true)?;
        }
        Ok(true)
    }

    fn apply_writes(&mut self, task: &Task, event: &Event, units: i64) -> Result<bool, AllocError> {
        if !self.find_right_sides(task, event, units)? {
            return Ok(false);
        }
        for (place, to) in task.writes_of(event).iter().enumerate() {
            if !self.write(place, to)? {
                return Ok(false);
            }
        }
        Ok(true)
    }

    // The values of the right sides; whether all are in range.
    fn find_right_sides(
        &mut self,
        task: &Task,
        event: &Event,
        units: i64,
    ) -> Result<bool, AllocError> {
        self.right_sides.clear();
        for to in task.writes_of(event) {
            let Some(right) = self.value(task, to.value, units) else {
                return Ok(false);
            };
            self.right_sides.push(right)?;
        }
        Ok(true)
    }

    // Writes the right side at a place to its fluent; whether the new value is in range.
    fn write(&mut self, place: usize, to: &WriteTo) -> Result<bool, AllocError> {
        let right = self.right_sides.get(place).copied().unwrap_or(UNDEFINED);
        let old = self.number(to.fluent);
        let new = match to.op {
            Write::Assign => Some(right),
            Write::Increase => ranged(old.checked_add(right)),
            Write::Decrease => ranged(old.checked_sub(right)),
            Write::ScaleUp => ranged(old.checked_mul(right)),
        };
        let Some(new) = new else {
            return Ok(false);
        };
        if let Some(at) = self.values.get_mut(to.fluent as usize) {
            self.old_values.push((to.fluent, old))?;
            *at = new;
        }
        Ok(true)
    }

    fn put(&mut self, atom: u32, truth: bool) -> Result<(), AllocError> {
        let place = atom / 64;
        if let Some(word) = self.bits.get_mut(place as usize) {
            let old = *word;
            self.old_bits.push((place, old))?;
            *word = if truth {
                old | bit_of(atom)
            } else {
                old & !bit_of(atom)
            };
        }
        Ok(())
    }

    /// Takes what was applied as it is now.
    pub fn keep(&mut self) {
        self.old_bits.clear();
        self.old_values.clear();
    }

    /// Takes back what was applied since the last `keep`.
    pub fn undo(&mut self) {
        for _ in 0..self.old_bits.len() {
            self.undo_word();
        }
        for _ in 0..self.old_values.len() {
            self.undo_value();
        }
    }

    fn undo_word(&mut self) {
        if let Some((place, old)) = self.old_bits.pop() {
            if let Some(word) = self.bits.get_mut(place as usize) {
                *word = old;
            }
        }
    }

    fn undo_value(&mut self) {
        if let Some((fluent, old)) = self.old_values.pop() {
            if let Some(value) = self.values.get_mut(fluent as usize) {
                *value = old;
            }
        }
    }
}
