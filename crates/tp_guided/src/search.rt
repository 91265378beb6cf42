//! One round of the search: nodes by the value of their relaxed plans, evaluated when they are
//! taken, first with the starts of the relaxed plan, later with all others; and from each node a
//! walk that carries out the relaxed plan as far as it goes.

use crate::deadlines::Deadlines;
use crate::ready::Ready;
use crate::rounds::Round;
use std::alloc::{AllocError, Global};
use tp_guided_costs::{DEAD, Heuristic};
use tp_guided_walk::{Choice, Chosen, Space, Walk};
use tp_search_compiled::{Buckets, NONE};

// Values from here on are one.
const KEYS: u32 = 4096;

// Each so many takings one is from the nodes that were expanded.
const RATIO: u64 = 8;

// So many walks in a row that come to no lesser value end a chain.
const MOST_FLAT: u32 = 20;

/// A search of a task.
#[derive(Drop)]
pub struct Search<'t> {
    space: Space<'t>,
    value: Heuristic<'t>,
    deadlines: Deadlines<'t>,
    walk: Walk,
    /// Nodes that are not expanded yet.
    open: Buckets,
    /// Nodes of which not all starts have children yet.
    rest: Buckets,
    round: Round,
    spent: u32,
    /// The least value so far, and how many nodes were expanded when it was found.
    least: u32,
    least_at: u32,
}

/// What a round came to.
#[derive(Drop)]
pub struct Outcome {
    pub path: Option<Vec<Chosen>>,
    pub spent: u32,
    /// Whether no node was left.
    pub empty: bool,
}

/// A node that was taken from a queue.
#[derive(Clone, Copy)]
struct Taken {
    node: u32,
    value: u32,
    /// Whether it was expanded, and its other starts are due.
    other: bool,
}

/// The walks that follow one another, the least value so far, and how many of the last ones did not
/// lessen it.
#[derive(Clone, Copy)]
struct Chain {
    node: u32,
    least: u32,
    flat: u32,
}

/// What comes of a node.
#[derive(Clone, Copy)]
enum Next {
    Goal,
    Node(u32),
    End,
}

impl<'t> Search<'t> {
    /// A search that begins at the root.
    pub fn new(alloc: Global, ready: &'t Ready, round: Round) -> Result<Self, AllocError> {
        let task = &ready.task;
        let limit = task.horizon.min(round.bound);
        let cut = round.lengths.outlasts();
        let space = Space::new(alloc, task, &ready.watched, limit, cut)?;
        let value = Heuristic::new(alloc, task, &ready.relaxed, round.by_most)?;
        let deadlines = Deadlines::new(alloc, &ready.relaxed, &ready.least)?;
        let walk = Walk::new(alloc, task, round.lengths)?;
        let open = Buckets::new(alloc, KEYS)?;
        let rest = Buckets::new(alloc, KEYS)?;
        Ok(Search {
            space,
            value,
            deadlines,
            walk,
            open,
            rest,
            round,
            spent: 0,
            least: DEAD,
            least_at: 0,
        })
    }

    // Whether the budget is spent, or the search stays too long without a lesser value.
    fn is_spent(&self) -> bool {
        self.spent >= self.round.budget
            || self.spent.saturating_sub(self.least_at) >= self.round.length
    }

    fn note_value(&mut self, value: u32) {
        if value < self.least {
            self.least = value;
            self.least_at = self.spent;
        }
    }

    /// Searches until a plan is found, the budget is spent or no node is left.
    pub fn run(&mut self) -> Result<Outcome, AllocError> {
        self.open.push(0, 0)?;
        for turn in 0..u64::MAX {
            let Some(taken) = self.take(turn) else {
                break;
            };
            if let Some(node) = self.look_at(taken)? {
                let path = self.space.path(node)?;
                return Ok(self.outcome(Some(path), false));
            }
            if self.is_spent() {
                break;
            }
        }
        let empty = !self.is_spent();
        Ok(self.outcome(None, empty))
    }

    fn outcome(&self, path: Option<Vec<Chosen>>, empty: bool) -> Outcome {
        Outcome {
            path,
            spent: self.spent,
            empty,
        }
    }

    // The next node: each so many turns one that was expanded.
    fn take(&mut self, turn: u64) -> Option<Taken> {
        if turn % RATIO == RATIO - 1 {
            self.take_rest().or_else(|| self.take_open())
        } else {
            self.take_open().or_else(|| self.take_rest())
        }
    }

    fn take_open(&mut self) -> Option<Taken> {
        let (value, node) = self.open.pop()?;
        Some(Taken {
            node,
            value,
            other: false,
        })
    }

    fn take_rest(&mut self) -> Option<Taken> {
        let (value, node) = self.rest.pop()?;
        Some(Taken {
            node,
            value,
            other: true,
        })
    }

    // Makes the other children of a node, or expands it and follows the walks from it. The node
    // that is a plan.
    fn look_at(&mut self, taken: Taken) -> Result<Option<u32>, AllocError> {
        if taken.other {
            self.space.load(taken.node)?;
            self.make_starts(taken.value, true)?;
            return Ok(None);
        }
        self.follow(taken.node)
    }

    // Follows the walks from a node as long as they lead to lesser values.
    fn follow(&mut self, node: u32) -> Result<Option<u32>, AllocError> {
        let mut chain = Chain {
            node,
            least: DEAD,
            flat: 0,
        };
        for _ in 0..u64::MAX {
            match self.expand(&mut chain)? {
                Next::Goal => return Ok(Some(chain.node)),
                Next::Node(node) => chain.node = node,
                Next::End => break,
            }
        }
        Ok(None)
    }

    // Expands the node of a chain, and walks from it.
    fn expand(&mut self, chain: &mut Chain) -> Result<Next, AllocError> {
        if self.space.is_expanded(chain.node) {
            return Ok(Next::End);
        }
        self.space.load(chain.node)?;
        if self.space.is_goal() {
            return Ok(Next::Goal);
        }
        if self.is_spent() {
            return Ok(Next::End);
        }
        let value = self.evaluate(chain)?;
        if value == DEAD {
            return Ok(Next::End);
        }
        self.make_starts(value, false)?;
        self.make_waits(value)?;
        self.rest.push(value, chain.node)?;
        chain.flat = if value < chain.least {
            0
        } else {
            chain.flat.saturating_add(1)
        };
        if chain.flat > MOST_FLAT {
            return Ok(Next::End);
        }
        chain.least = chain.least.min(value);
        self.go_on(value)
    }

    // The value of the loaded node, which is expanded by that; `DEAD` also where the relaxed plan
    // takes too long, or what a running step needs at its end comes too late.
    fn evaluate(&mut self, chain: &Chain) -> Result<u32, AllocError> {
        self.space.set_expanded(chain.node);
        self.spent = self.spent.saturating_add(1);
        let fresh = chain.least == DEAD && chain.node != 0;
        let seed = if self.round.vary && fresh {
            u64::from(self.spent)
        } else {
            self.round.seed
        };
        let value = self
            .value
            .evaluate(self.space.state(), self.space.running(), seed)?;
        let end = u64::from(self.space.tick()).saturating_add(self.value.span());
        if end > u64::from(self.round.bound) || self.is_late()? {
            return Ok(DEAD);
        }
        self.note_value(value);
        Ok(value)
    }

    fn is_late(&mut self) -> Result<bool, AllocError> {
        self.deadlines
            .are_missed(self.space.state(), self.space.running())
    }

    // Makes the children that start something: of the relaxed plan what keeps the invariants as all
    // steps run out, or all others that can start.
    fn make_starts(&mut self, value: u32, other: bool) -> Result<(), AllocError> {
        self.space.mark_events();
        let span = self.space.starts();
        for offset in 0..span.count {
            let number = span.at.saturating_add(offset);
            if let Some(choice) = self.space.choice(number) {
                if self.is_wanted(choice, number, other)? {
                    self.make_start(value, number)?;
                }
            }
        }
        self.space.wipe_events();
        Ok(())
    }

    fn is_wanted(&mut self, choice: Choice, number: u32, other: bool) -> Result<bool, AllocError> {
        if !other && self.value.times(choice.action) == 0 {
            return Ok(false);
        }
        if !self.space.joins(choice.action) {
            return Ok(false);
        }
        if other {
            self.walk.joins_now(&mut self.space, number)
        } else {
            self.walk.fits(&mut self.space, number)
        }
    }

    fn make_start(&mut self, value: u32, number: u32) -> Result<(), AllocError> {
        let child = self.space.start_child(number)?;
        if child.new {
            self.open.push(value, child.node)?;
        }
        Ok(())
    }

    // Makes the children that wait: for one tick after events, and until the next step ends.
    fn make_waits(&mut self, value: u32) -> Result<(), AllocError> {
        if !self.space.invariants() {
            return Ok(());
        }
        let has_events = self.space.has_events();
        if has_events {
            self.make_wait(value, 1)?;
        }
        if let Some(least) = self.space.least_left() {
            if !has_events || least > 1 {
                self.make_wait(value, least)?;
            }
        }
        Ok(())
    }

    fn make_wait(&mut self, value: u32, ticks: u32) -> Result<(), AllocError> {
        if let Some(child) = self.space.wait_child(ticks)? {
            if child.new {
                self.open.push(value, child.node)?;
            }
        }
        Ok(())
    }

    // Walks from the loaded node. What the walk comes to is next, its other nodes wait.
    fn go_on(&mut self, value: u32) -> Result<Next, AllocError> {
        let Some(end) = self.walk.go(&mut self.space, &self.value)? else {
            return Ok(Next::End);
        };
        for node in self.walk.made() {
            if *node != end {
                self.open.push(value, *node)?;
            }
        }
        Ok(Next::Node(end))
    }
}
