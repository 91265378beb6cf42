//! The moments that waits made, by a hash of state and running steps.

use crate::store::{Moment, Store};
use std::alloc::{AllocError, Global};
use tp_search_compiled::{Mixer, NONE, Running, State, small};

/// An open table of the numbers of moments, at most half full.
#[derive(Drop)]
pub struct Waits {
    table: Vec<u32>,
    count: usize,
}

fn mixed_runs(mixer: Mixer, runs: &[Running]) -> Mixer {
    let mut mixer = mixer;
    for run in runs {
        let step = u64::from(run.action) << 32 | u64::from(run.duration);
        mixer = mixer.put(step).put(u64::from(run.left));
    }
    mixer
}

/// The hash of a state and of running steps.
pub fn hash_of(store: &Store, state: &State, runs: &[Running]) -> u64 {
    let mut mixer = Mixer::new();
    for word in store.words_of(state) {
        mixer = mixer.put(*word);
    }
    for number in store.numbers_of(state) {
        mixer = mixer.put(number.cast_unsigned());
    }
    mixed_runs(mixer, runs).end()
}

// The place where a hash is looked for first, in a table of a power of two of places.
fn first_place(hash: u64, len: usize) -> usize {
    hash as usize & len.saturating_sub(1)
}

fn next_place(place: usize, len: usize) -> usize {
    place.saturating_add(1) & len.saturating_sub(1)
}

fn is_same(store: &Store, moment: &Moment, hash: u64, state: &State, runs: &[Running]) -> bool {
    moment.hash == hash && store.runs_of(moment) == runs && store.is_state(moment.state, state)
}

// Puts a moment at the first open place.
fn enter(table: &mut [u32], hash: u64, moment: u32) {
    let len = table.len();
    let mut place = first_place(hash, len);
    for _ in 0..len {
        match table.get_mut(place) {
            Some(at) if *at == NONE => {
                *at = moment;
                return;
            }
            _ => place = next_place(place, len),
        }
    }
}

impl Waits {
    /// No moments.
    pub fn new(alloc: Global) -> Result<Self, AllocError> {
        Ok(Waits {
            table: Vec::from_elem(alloc, NONE, 1024)?,
            count: 0,
        })
    }

    /// Whether an earlier wait made a moment of this state and these running steps.
    pub fn is_known(&self, store: &Store, hash: u64, state: &State, runs: &[Running]) -> bool {
        let len = self.table.len();
        let mut place = first_place(hash, len);
        for _ in 0..len {
            let number = self.table.get(place).copied().unwrap_or(NONE);
            match store.moment(number) {
                Some(moment) if is_same(store, &moment, hash, state, runs) => return true,
                Some(_) => place = next_place(place, len),
                None => return false,
            }
        }
        false
    }

    // Doubles the table where it is half full.
    fn grow(&mut self, alloc: Global, store: &Store) -> Result<(), AllocError> {
        if self.count.saturating_mul(2) < self.table.len() {
            return Ok(());
        }
        let mut table = Vec::from_elem(alloc, NONE, self.table.len().saturating_mul(2))?;
        for number in &self.table {
            if let Some(moment) = store.moment(*number) {
                enter(table.as_mut_slice(), moment.hash, *number);
            }
        }
        self.table = table;
        Ok(())
    }

    /// Enters the moment that was made last.
    pub fn enter_last(&mut self, alloc: Global, store: &Store) -> Result<(), AllocError> {
        self.grow(alloc, store)?;
        let number = small(store.moments.len()).saturating_sub(1);
        if let Some(moment) = store.moment(number) {
            enter(self.table.as_mut_slice(), moment.hash, number);
            self.count = self.count.saturating_add(1);
        }
        Ok(())
    }
}
