//! Which actions may have an event whose condition is met, told by counters: each part of a
//! condition waits for so many of its own parts (as in Dowling and Gallier 1984). Nothing is proved
//! of the counters: they only say where it is worth looking.

use crate::{Body, Cond, GroundEvent};
use std::alloc::{AllocError, Global};

/// What waits for a part of a condition: the part that it is in, or its action.
#[derive(Clone, Copy)]
enum Above {
    Gate(u32),
    Action(u32),
}

/// A part of a condition that waits for so many of its own parts.
#[derive(Clone, Copy)]
struct Gate {
    above: Above,
    missing: u32,
}

/// The parts of all conditions, those that wait for each atom, those with one more part met that is
/// not yet counted, and the actions with an event whose condition is met.
#[derive(Drop)]
pub struct Counters {
    alloc: Global,
    gates: Vec<Gate>,
    waiting: Vec<Vec<u32>>,
    counted: Vec<bool>,
    lowered: Vec<u32>,
    ready: Vec<u32>,
}

// A count of parts, as large as it may get.
fn small(count: usize) -> u32 {
    u32::try_from(count).unwrap_or(u32::MAX)
}

impl Counters {
    /// The counters of some actions over so many atoms, of which none is counted yet. It costs the
    /// sizes of all conditions.
    pub fn new(alloc: Global, actions: &[Body], atoms: usize) -> Result<Self, AllocError> {
        let mut counters = Counters {
            alloc,
            gates: Vec::new(alloc),
            waiting: Vec::new(alloc),
            counted: Vec::from_elem(alloc, false, atoms)?,
            lowered: Vec::new(alloc),
            ready: Vec::new(alloc),
        };
        counters.make_lists(atoms)?;
        counters.add_actions(actions)?;
        Ok(counters)
    }

    fn make_lists(&mut self, atoms: usize) -> Result<(), AllocError> {
        for _ in 0..atoms {
            self.waiting.push(Vec::new(self.alloc))?;
        }
        Ok(())
    }

    fn add_actions(&mut self, actions: &[Body]) -> Result<(), AllocError> {
        let mut action: u32 = 0;
        for body in actions {
            match body {
                Body::Instant(only) => self.add_event(only, action)?,
                Body::Durative(start, end, _) => {
                    self.add_event(start, action)?;
                    self.add_event(end, action)?;
                }
            }
            action = action.saturating_add(1);
        }
        Ok(())
    }

    fn add_event(&mut self, event: &GroundEvent, action: u32) -> Result<(), AllocError> {
        let top = self.add_gate(Above::Action(action), 1)?;
        self.add_condition(&event.condition, true, top)
    }

    fn add_gate(&mut self, above: Above, missing: u32) -> Result<u32, AllocError> {
        let number = small(self.gates.len());
        self.gates.push(Gate { above, missing })?;
        Ok(number)
    }

    // A condition, or its negation, which counts for the gate above once it is met.
    #[cycle(condition)]
    fn add_condition(&mut self, cond: &Cond, positive: bool, above: u32) -> Result<(), AllocError> {
        match cond {
            Cond::Atom(a) if positive => self.add_waiting(*a, above),
            Cond::Atom(_) | Cond::Compare(_, _, _) => self.lower(above),
            Cond::Not(c) => self.add_condition(c, !positive, above),
            Cond::And(cs) => self.add_parts(cs, positive, positive, above),
            Cond::Or(cs) => self.add_parts(cs, positive, !positive, above),
        }
    }

    // Parts of which all, or one, have to be met.
    #[cycle(condition)]
    fn add_parts(
        &mut self,
        parts: &[Cond],
        positive: bool,
        all: bool,
        above: u32,
    ) -> Result<(), AllocError> {
        if all && parts.is_empty() {
            return self.lower(above);
        }
        let missing = if all { small(parts.len()) } else { 1 };
        let gate = self.add_gate(Above::Gate(above), missing)?;
        for c in parts {
            self.add_condition(c, positive, gate)?;
        }
        Ok(())
    }

    fn add_waiting(&mut self, atom: u32, gate: u32) -> Result<(), AllocError> {
        if let Some(list) = self.waiting.get_mut(atom as usize) {
            list.push(gate)?;
        }
        Ok(())
    }

    // One part of a gate is met; where it was the last that was missing, the gate is, and counts
    // for what is above it.
    fn lower(&mut self, gate: u32) -> Result<(), AllocError> {
        self.lowered.push(gate)?;
        for _ in 0..=self.gates.len() {
            let Some(at) = self.lowered.pop() else {
                break;
            };
            match self.lower_one(at) {
                Some(Above::Gate(above)) => self.lowered.push(above)?,
                Some(Above::Action(action)) => self.ready.push(action)?,
                None => {}
            }
        }
        Ok(())
    }

    // What is above a gate whose last missing part is met now.
    fn lower_one(&mut self, gate: u32) -> Option<Above> {
        let at = self.gates.get_mut(gate as usize)?;
        let before = at.missing;
        at.missing = before.saturating_sub(1);
        if before == 1 { Some(at.above) } else { None }
    }

    /// Counts an atom, once.
    pub fn count_atom(&mut self, atom: u32) -> Result<(), AllocError> {
        if self.counted.get(atom as usize).copied().unwrap_or(true) {
            return Ok(());
        }
        if let Some(at) = self.counted.get_mut(atom as usize) {
            *at = true;
        }
        for place in 0..self.waiting_for(atom) {
            if let Some(gate) = self.waiting_at(atom, place) {
                self.lower(gate)?;
            }
        }
        Ok(())
    }

    fn waiting_for(&self, atom: u32) -> usize {
        match self.waiting.get(atom as usize) {
            Some(list) => list.len(),
            None => 0,
        }
    }

    fn waiting_at(&self, atom: u32, place: usize) -> Option<u32> {
        self.waiting.get(atom as usize)?.get(place).copied()
    }

    /// The number of gates, more than there are events.
    pub fn size(&self) -> usize {
        self.gates.len()
    }

    /// An action that was found to have an event whose condition is met.
    pub fn take(&mut self) -> Option<u32> {
        self.ready.pop()
    }
}
