//! A queue of numbers with whole keys.

use crate::spans::{NONE, small};
use std::alloc::{AllocError, Global};

/// A number that waits, and where the next one of its key stands.
#[derive(Clone, Copy)]
struct Waiting {
    item: u32,
    next: u32,
}

/// Numbers by whole keys below a size: the least key first, within a key the one pushed first. The
/// last key stands for all from there on.
#[derive(Drop)]
pub struct Buckets {
    heads: Vec<u32>,
    tails: Vec<u32>,
    waiting: Vec<Waiting>,
    /// A bit of each key: whether a number waits under it.
    filled: Vec<u64>,
    /// No word of bits before this one has one.
    lowest: usize,
}

fn bit_of(key: u32) -> u64 {
    1u64.wrapping_shl(key % 64)
}

impl Buckets {
    /// An empty queue for so many keys.
    pub fn new(alloc: Global, size: u32) -> Result<Self, AllocError> {
        let heads = Vec::from_elem(alloc, NONE, size as usize)?;
        let tails = Vec::from_elem(alloc, NONE, size as usize)?;
        let filled = Vec::from_elem(alloc, 0u64, size.div_ceil(64) as usize)?;
        Ok(Buckets {
            heads,
            tails,
            waiting: Vec::new(alloc),
            filled,
            lowest: 0,
        })
    }

    /// Adds a number under a key.
    pub fn push(&mut self, key: u32, item: u32) -> Result<(), AllocError> {
        let last = small(self.heads.len()).saturating_sub(1);
        let key = key.min(last);
        let place = small(self.waiting.len());
        self.waiting.push(Waiting { item, next: NONE })?;
        self.link(key, place);
        self.fill(key);
        Ok(())
    }

    // Puts what stands at a place behind the last of a key.
    fn link(&mut self, key: u32, place: u32) {
        let empty = self.heads.get(key as usize).copied() == Some(NONE);
        let tail = self.tails.get(key as usize).copied().unwrap_or(NONE);
        if empty {
            if let Some(head) = self.heads.get_mut(key as usize) {
                *head = place;
            }
        } else if let Some(last) = self.waiting.get_mut(tail as usize) {
            last.next = place;
        }
        if let Some(at) = self.tails.get_mut(key as usize) {
            *at = place;
        }
    }

    fn fill(&mut self, key: u32) {
        let word = (key / 64) as usize;
        self.lowest = self.lowest.min(word);
        if let Some(bits) = self.filled.get_mut(word) {
            *bits |= bit_of(key);
        }
    }

    /// Takes the first number of the least key, with this key.
    pub fn pop(&mut self) -> Option<(u32, u32)> {
        for word in self.lowest..self.filled.len() {
            let bits = self.filled.get(word).copied().unwrap_or(0);
            if bits != 0 {
                self.lowest = word;
                let key = small(word).saturating_mul(64);
                return self.pop_at(key.saturating_add(bits.trailing_zeros()));
            }
        }
        self.lowest = self.filled.len();
        None
    }

    // Takes the first number of a key that has one.
    fn pop_at(&mut self, key: u32) -> Option<(u32, u32)> {
        let head = self.heads.get_mut(key as usize)?;
        let first = self.waiting.get(*head as usize).copied()?;
        *head = first.next;
        if first.next == NONE {
            let bits = self.filled.get_mut((key / 64) as usize)?;
            *bits &= !bit_of(key);
        }
        Some((key, first.item))
    }

    /// Takes all numbers out, and keeps the room.
    pub fn clear(&mut self) {
        for _ in 0..self.waiting.len() {
            if self.pop().is_none() {
                break;
            }
        }
        self.waiting.clear();
    }
}
