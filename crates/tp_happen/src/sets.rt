//! Sets of numbers, a bit for each number up to the greatest.

ghost use Rattle.std.specs.Prelude.{◌≡◌, ℕ, ◌<◌, ◌≤◌, ◌==◌, ◌||◌, false, length, OnOk, OnErr, IfOk};
ghost use Rattle.std.specs.List.{list_any};
ghost use Rattle.tp_happen.specs.Sets.{has_bit, has_number, is_in_word};

use std::alloc::{AllocError, Global};

/// A set of numbers. It takes a bit for each number up to the greatest that was put in.
#[derive(Drop)]
pub struct NumberSet {
    words: Vec<u64>,
}

// Puts in the numbers that a word has at this place.
#[tactic(auto, using(crate::proofs::WordLemmas::has_bit_put))]
fn put_word(words: &mut [u64], place: usize, word: u64)
    requires { place < length words.old }
    ensures { (n : ℕ) → has_bit words.new n ≡ (has_bit words.old n || is_in_word place word n) }
{
    words[place] |= word;
}

// Makes at least so many words, those that come being empty.
fn make_words(words: &mut Vec<u64>, count: usize) -> Result<(), AllocError>
    ensures same { (n : ℕ) → has_bit words.new.items n ≡ has_bit words.old.items n }
    ensures room { OnOk result (count ≤ length words.new.items) }
{
    words.reserve(count.saturating_sub(words.len()))?;
    while words.len() < count {
        words.push(0)?;
    }
    Ok(())
}

impl NumberSet {
    /// The set without a number. It takes no memory.
    pub fn new(alloc: Global) -> NumberSet
        ensures { (n : ℕ) → has_number result n ≡ false }
    {
        NumberSet {
            words: Vec::new(alloc),
        }
    }

    /// The set of these numbers. It costs what putting in each of them does.
    pub fn of(alloc: Global, numbers: &[u32]) -> Result<NumberSet, AllocError>
        ensures { IfOk result
            (λ s. (n : ℕ) → has_number s n ≡ list_any (λ x. x == n) numbers.now) }
    {
        let mut set = NumberSet::new(alloc);
        for number in numbers {
            set.insert(*number as usize)?;
        }
        Ok(set)
    }

    /// Whether a number is in the set. It costs one step.
    pub fn contains(&self, number: usize) -> bool
        ensures { result ≡ has_number self.now number }
    {
        match self.words.get(number / 64) {
            Some(word) => (*word >> (number % 64)) & 1 == 1,
            None => false,
        }
    }

    /// Whether one of these numbers is in the set. It costs a step for each of them.
    pub fn has_any(&self, numbers: &[u32]) -> bool
        ensures { result ≡ list_any (has_number self.now) numbers.now }
    {
        numbers.iter().any(|number| self.contains(*number as usize))
    }

    /// Puts a number in. It costs one step, and one more for each word that the set lacks up to
    /// that number.
    pub fn insert(&mut self, number: usize) -> Result<(), AllocError>
        ensures ok { OnOk result
            ((n : ℕ) → has_number self.new n ≡ (has_number self.old n || n == number)) }
        ensures err { OnErr result ((n : ℕ) → has_number self.new n ≡ has_number self.old n) }
    {
        let place = number / 64;
        make_words(&mut self.words, place + 1)?;
        put_word(&mut self.words, place, 1 << (number % 64));
        Ok(())
    }
}
