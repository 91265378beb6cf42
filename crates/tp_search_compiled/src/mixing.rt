//! A hash of words, for tables.

const FACTOR: u64 = 0x517c_c1b7_2722_0a95;

/// The hash of the words so far.
#[derive(Clone, Copy)]
pub struct Mixer(u64);

impl Mixer {
    /// Before the first word.
    pub fn new() -> Self {
        Mixer(0)
    }

    /// One word more.
    pub fn put(self, word: u64) -> Self {
        Mixer((self.0.rotate_left(5) ^ word).wrapping_mul(FACTOR))
    }

    /// The hash, whose low bits depend on all words.
    pub fn end(self) -> u64 {
        let mixed = self.0 ^ (self.0 >> 32);
        mixed.wrapping_mul(FACTOR) ^ (mixed >> 29)
    }
}

/// The hash of two words.
pub fn mix_pair(first: u64, second: u64) -> u64 {
    Mixer::new().put(first).put(second).end()
}
