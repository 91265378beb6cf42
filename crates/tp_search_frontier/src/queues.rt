//! The nodes that are still to be taken, by the number of goal conjuncts that they lack.

ghost use Rattle.std.specs.Prelude.{◌≡◌, ◌<◌, ◌+◌, ◌∷◌, ◌++◌, [], length, take, replicate, slice_index_or, MatchOption, OnOk, OnErr, IfOk, true, false};
ghost use Rattle.tp_search_frontier.specs.Waiting.{AreEmpty, IsTaken, with_node};

use std::alloc::{AllocError, Global};
use std::marker::Model;

/// Nodes in the order in which they were made; the first are taken already.
#[derive(Drop)]
struct Queue {
    nodes: Vec<u32>,
    taken: usize,
}

impl Model for Queue {
    ghost use Rattle.std.specs.Prelude.{ℕ, List, drop, length, ◌≤◌};

    ghost Value = { List ℕ };

    ghost view = { λ q. drop q.taken q.nodes.items };

    ghost invariant = { λ q. q.taken ≤ length q.nodes.items };
}

impl Queue {
    fn new(alloc: Global) -> Self
        ensures { result ≡ [] }
    {
        Queue {
            nodes: Vec::new(alloc),
            taken: 0,
        }
    }

    fn put(&mut self, node: u32) -> Result<(), AllocError>
        ensures ok { OnOk result (self.new ≡ self.old ++ node ∷ []) }
        ensures err { OnErr result (self.new ≡ self.old) }
    {
        self.nodes.push(node)?;
        Ok(())
    }

    fn is_empty(&self) -> bool
        ensures no { result ≡ false → 0 < length self.now }
        ensures yes { result ≡ true → self.now ≡ [] }
    {
        self.taken >= self.nodes.len()
    }

    // How many nodes wait.
    fn count(&self) -> usize {
        self.nodes.len() - self.taken
    }

    fn take(&mut self) -> u32
        requires { 0 < length self.old }
        ensures { self.old ≡ result ∷ self.new }
    {
        let node = self.nodes[self.taken];
        self.taken += 1;
        self.trim();
        node
    }

    // Gives the room of those taken to the next, once all are taken.
    fn trim(&mut self)
        ensures { self.new ≡ self.old }
    {
        if self.taken >= self.nodes.len() {
            self.nodes.clear();
            self.taken = 0;
        }
    }
}

/// A queue for each number of conjuncts, seen as the nodes that wait in each. Those below the
/// lowest are empty.
#[derive(Drop)]
pub struct Queues {
    queues: Vec<Queue>,
    lowest: usize,
}

impl Model for Queues {
    ghost use Rattle.std.specs.Prelude.{ℕ, List, take};
    ghost use Rattle.tp_search_frontier.specs.Waiting.{AreEmpty};

    ghost Value = { List (List ℕ) };

    ghost view = { λ q. q.queues.items };

    ghost invariant = { λ q. AreEmpty (take q.lowest q.queues.items) };
}

// The first queue, from one on, in which a node waits; past the last where there is none.
#[tactic(auto, using(crate::proofs::Waiting::empty_more))]
fn first_waiting(queues: &[Queue], from: usize) -> usize
    requires { AreEmpty (take from queues.now) }
    ensures empty { AreEmpty (take result queues.now) }
    ensures waits { result < length queues.now → 0 < length (slice_index_or queues.now result []) }
{
    let mut at = from;
    while at < queues.len() {
        if !queues[at].is_empty() {
            return at;
        }
        at += 1;
    }
    at
}

impl Queues {
    /// How many nodes wait. It looks at each queue.
    pub fn count(&self) -> usize {
        let mut count = 0usize;
        for queue in self.queues.iter() {
            count = count.saturating_add(queue.count());
        }
        count
    }

    /// Empty queues for nodes that lack at most so many conjuncts.
    #[tactic(auto, using(crate::proofs::Waiting::empty_push))]
    pub fn new(alloc: Global, conjuncts: usize) -> Result<Self, AllocError>
        ensures { IfOk result (λ q. q ≡ replicate (conjuncts + 1) []) }
    {
        let mut queues = Vec::new(alloc);
        for _ in 0..=conjuncts {
            queues.push(Queue::new(alloc))?;
        }
        Ok(Queues { queues, lowest: 0 })
    }

    /// A node more, that lacks so many conjuncts.
    #[tactic(auto, using(crate::proofs::Waiting::empty_put))]
    pub fn put(&mut self, node: u32, lacking: usize) -> Result<(), AllocError>
        ensures ok { OnOk result (self.new ≡ with_node self.old node lacking) }
        ensures err { OnErr result (self.new ≡ self.old) }
    {
        if lacking >= self.queues.len() {
            return Ok(());
        }
        self.queues[lacking].put(node)?;
        self.lowest = self.lowest.min(lacking);
        Ok(())
    }

    /// The node that lacks the fewest conjuncts, of these the one made first, and how many it
    /// lacks.
    #[tactic(auto, using(crate::proofs::Waiting::all_empty))]
    pub fn take(&mut self) -> Option<(u32, usize)>
        ensures { MatchOption result (AreEmpty self.old × (self.new ≡ self.old))
            (λ t. IsTaken self.old t.0 t.1 self.new) }
    {
        let lacking = first_waiting(&self.queues, self.lowest);
        if lacking >= self.queues.len() {
            return None;
        }
        self.lowest = lacking;
        let node = self.queues[lacking].take();
        Some((node, lacking))
    }
}
