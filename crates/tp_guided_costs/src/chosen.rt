//! The operators of a relaxed plan: which are in it, and which of them add a proposition most
//! cheaply.

use crate::relaxed::Relaxed;
use std::alloc::{AllocError, Global};
use tp_search_compiled::NONE;

/// The operators of a relaxed plan.
#[derive(Drop)]
pub struct Chosen {
    /// In the order in which they were chosen.
    pub ops: Vec<u32>,
    /// Of each operator: how often it is used; later its place in order of cost.
    marked: Vec<u32>,
    /// Of each proposition: the cheapest chosen operator that adds it, and which have one.
    given: Vec<u32>,
    gifts: Vec<u32>,
}

impl Chosen {
    pub fn new(alloc: Global, relaxed: &Relaxed) -> Result<Self, AllocError> {
        Ok(Chosen {
            ops: Vec::new(alloc),
            marked: Vec::from_elem(alloc, 0u32, relaxed.ops())?,
            given: Vec::from_elem(alloc, NONE, relaxed.props as usize)?,
            gifts: Vec::new(alloc),
        })
    }

    /// The mark of an operator.
    pub fn mark_of(&self, op: u32) -> u32 {
        self.marked.get(op as usize).copied().unwrap_or(0)
    }

    /// Marks an operator.
    pub fn mark(&mut self, op: u32, mark: u32) {
        if let Some(at) = self.marked.get_mut(op as usize) {
            *at = mark;
        }
    }

    /// Chooses an operator for so many uses; whether it is new.
    pub fn choose(&mut self, op: u32, uses: u32) -> Result<bool, AllocError> {
        let before = self.mark_of(op);
        self.mark(op, before.max(uses));
        if before == 0 {
            self.ops.push(op)?;
        }
        Ok(before == 0)
    }

    /// The cheapest chosen operator that adds a proposition.
    pub fn given(&self, prop: u32) -> u32 {
        self.given.get(prop as usize).copied().unwrap_or(NONE)
    }

    /// Has a chosen operator be the cheapest that adds a proposition.
    pub fn give(&mut self, prop: u32, op: u32) -> Result<(), AllocError> {
        if let Some(at) = self.given.get_mut(prop as usize) {
            *at = op;
            self.gifts.push(prop)?;
        }
        Ok(())
    }

    /// Forgets who adds what.
    pub fn forget_gifts(&mut self) {
        for prop in &self.gifts {
            if let Some(at) = self.given.get_mut(*prop as usize) {
                *at = NONE;
            }
        }
        self.gifts.clear();
    }

    /// Takes all marks away.
    pub fn unmark(&mut self) {
        for op in &self.ops {
            if let Some(at) = self.marked.get_mut(*op as usize) {
                *at = 0;
            }
        }
    }
}
