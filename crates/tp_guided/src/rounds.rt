//! What changes from round to round.

use tp_guided_walk::Lengths;

/// How one round searches.
#[derive(Clone, Copy)]
pub struct Round {
    /// At most so many nodes are expanded.
    pub budget: u32,
    /// At most so many nodes in a row are expanded without a lesser value.
    pub length: u32,
    /// No step ends past it.
    pub bound: u32,
    /// What decides between equally cheap operators; 0 for the first one.
    pub seed: u64,
    /// Whether each node that comes from the queue has a seed of its own.
    pub vary: bool,
    /// Whether a cost is the greatest in place of the sum of those of the conditions.
    pub by_most: bool,
    /// Which durations are tried.
    pub lengths: Lengths,
}

/// What came of the rounds so far.
#[derive(Clone, Copy)]
pub struct Rounds {
    number: u32,
    /// How many nodes in a row the next round of a search for a better plan expands at most without
    /// a lesser value.
    length: u32,
    /// The place in the sequence of Luby, Sinclair and Zuckerman, 1 1 2 1 1 2 4 1 .., by which the
    /// rounds of a search for any plan are as many times as long as the first: its factor there,
    /// and how many factors of 1 there were up to it.
    factor: u32,
    ones: u32,
    empty: u32,
}

const FIRST_LENGTH: u32 = 200;

// The first round after which one that has no node left ends a search for any plan, and how many
// such rounds in a row end one for a better plan.
const FIRST_TO_END: u32 = 4;

const EMPTY_TO_END: u32 = 16;

// Which durations a round of a search for any plan tries.
fn lengths_of(number: u32) -> Lengths {
    match number % 8 {
        0 | 2 | 6 => Lengths::Ends,
        3 => Lengths::InTurn,
        4 => Lengths::AtOnce,
        _ => Lengths::Stretched,
    }
}

impl Rounds {
    /// Before the first round.
    pub fn new() -> Self {
        Rounds {
            number: 0,
            length: FIRST_LENGTH,
            factor: 1,
            ones: 1,
            empty: 0,
        }
    }

    /// The next round of a search for any plan, or for one that is better than one that was found.
    pub fn next(&self, left: u32, bound: u32, better: bool) -> Round {
        let length = if better {
            self.length
        } else {
            self.factor.saturating_mul(FIRST_LENGTH)
        };
        Round {
            budget: left,
            length,
            bound,
            seed: u64::from(self.number),
            vary: self.number % 4 >= 2,
            by_most: if better {
                self.number % 2 == 1
            } else {
                self.number % 8 >= 4
            },
            lengths: if better {
                Lengths::Ends
            } else {
                lengths_of(self.number)
            },
        }
    }

    /// A round is over that found a plan.
    pub fn note_plan(&mut self) {
        self.number = self.number.saturating_add(1);
        self.empty = 0;
    }

    // A round for a better plan found none: each fourth time the next ones are twice as long.
    fn lengthen(&mut self) {
        if self.number % 4 == 3 {
            self.length = self.length.saturating_mul(2);
        }
    }

    // A round for any plan found none: the next factor is twice the last one, or 1 again once it is
    // the greatest power of 2 that divides the count of ones.
    fn step(&mut self) {
        if self.ones & self.ones.wrapping_neg() == self.factor {
            self.ones = self.ones.saturating_add(1);
            self.factor = 1;
        } else {
            self.factor = self.factor.saturating_mul(2);
        }
    }

    /// A round is over that found no plan. Whether it had no node left, and no further round is to
    /// be tried.
    pub fn note_none(&mut self, empty: bool, better: bool) -> bool {
        self.empty = if empty {
            self.empty.saturating_add(1)
        } else {
            0
        };
        let ends = if better {
            self.empty >= EMPTY_TO_END
        } else {
            empty && self.number >= FIRST_TO_END
        };
        if better {
            self.lengthen();
        } else {
            self.step();
        }
        self.number = self.number.saturating_add(1);
        ends
    }
}
