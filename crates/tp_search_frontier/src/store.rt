//! The nodes of a search. Those of one tick that stem from one wait share a moment: the state
//! before the tick's happening, the steps that run, and what can start there.

use std::alloc::{AllocError, Global};
use tp_search_compiled::{NONE, Running, Span, State, Task, part, small};
use tp_task::ActionId;

/// A start that is possible at a moment: an action, and its duration.
#[derive(Clone, Copy, Debug, PartialEq, Eq, PartialOrd, Ord)]
pub struct Start {
    pub action: u32,
    pub duration: u32,
}

/// A step that was chosen: its tick, its action, and how many ticks it lasts, 0 for an
/// instantaneous action.
#[derive(Clone, Copy, Debug, PartialEq, Eq)]
pub struct Chosen {
    pub tick: u32,
    pub action: ActionId,
    pub duration: u32,
}

/// What nodes of one tick share. A running step with no ticks left ends at the tick.
#[derive(Clone, Copy)]
pub struct Moment {
    pub hash: u64,
    pub tick: u32,
    /// The number of the state.
    pub state: u32,
    /// In the running steps, sorted.
    pub running: Span,
    /// In the starts, once they are found.
    pub starts: Option<Span>,
}

/// A node: its parent, its moment, the start that it chose (`NONE` where it waited), and its number
/// of steps.
#[derive(Clone, Copy)]
pub struct Node {
    pub parent: u32,
    pub moment: u32,
    pub choice: u32,
    pub steps: u32,
}

/// All nodes and moments by number, and what they share. A state is kept as far as it changes.
#[derive(Drop)]
pub struct Store {
    words: usize,
    numbers: usize,
    states: u32,
    bits: Vec<u64>,
    values: Vec<i64>,
    runs: Vec<Running>,
    starts: Vec<Start>,
    pub moments: Vec<Moment>,
    pub nodes: Vec<Node>,
}

// The items of a number, of which each has so many.
fn block<T>(items: &[T], number: u32, size: usize) -> &[T] {
    let at = (number as usize).saturating_mul(size);
    match items.get(at..at.saturating_add(size)) {
        Some(block) => block,
        None => &[],
    }
}

/// An item more.
pub fn push_copy<T: Copy + Drop>(into: &mut Vec<T>, item: T) -> Result<(), AllocError> {
    into.push(item)?;
    Ok(())
}

fn first<T>(items: &[T], count: usize) -> &[T] {
    match items.get(..count) {
        Some(front) => front,
        None => items,
    }
}

impl Store {
    /// No nodes of a task.
    pub fn new(alloc: Global, task: &Task) -> Self {
        Store {
            words: (task.changing_atoms as usize).div_ceil(64),
            numbers: task.changing_fluents as usize,
            states: 0,
            bits: Vec::new(alloc),
            values: Vec::new(alloc),
            runs: Vec::new(alloc),
            starts: Vec::new(alloc),
            moments: Vec::new(alloc),
            nodes: Vec::new(alloc),
        }
    }

    /// The words of a state that change.
    pub fn words_of<'s>(&self, state: &'s State) -> &'s [u64] {
        first(&state.bits, self.words)
    }

    /// The numbers of a state that change.
    pub fn numbers_of<'s>(&self, state: &'s State) -> &'s [i64] {
        first(&state.values, self.numbers)
    }

    /// Keeps a state, and returns its number.
    pub fn pack(&mut self, state: &State) -> Result<u32, AllocError> {
        let words = first(&state.bits, self.words);
        let numbers = first(&state.values, self.numbers);
        self.bits.extend_from_slice(words)?;
        self.values.extend_from_slice(numbers)?;
        let number = self.states;
        self.states = number.saturating_add(1);
        Ok(number)
    }

    /// Makes a state the one of a number.
    pub fn unpack(&self, number: u32, state: &mut State) {
        let words = block(&self.bits, number, self.words);
        for (at, word) in state.bits.iter_mut().zip(words) {
            *at = *word;
        }
        let numbers = block(&self.values, number, self.numbers);
        for (at, value) in state.values.iter_mut().zip(numbers) {
            *at = *value;
        }
    }

    /// Whether a state is the one of a number.
    pub fn is_state(&self, number: u32, state: &State) -> bool {
        block(&self.bits, number, self.words) == self.words_of(state)
            && block(&self.values, number, self.numbers) == self.numbers_of(state)
    }

    /// A moment more, with these running steps, and its number.
    pub fn add_moment(&mut self, moment: Moment, runs: &[Running]) -> Result<u32, AllocError> {
        let from = self.runs.len();
        self.runs.extend_from_slice(runs)?;
        let running = Span::between(from, self.runs.len());
        let number = small(self.moments.len());
        self.moments.push(Moment { running, ..moment })?;
        Ok(number)
    }

    /// What can start at a moment.
    pub fn add_starts(&mut self, moment: u32, starts: &[Start]) -> Result<(), AllocError> {
        let from = self.starts.len();
        self.starts.extend_from_slice(starts)?;
        let found = Span::between(from, self.starts.len());
        if let Some(at) = self.moments.get_mut(moment as usize) {
            at.starts = Some(found);
        }
        Ok(())
    }

    /// A node more, and its number.
    pub fn add_node(&mut self, node: Node) -> Result<u32, AllocError> {
        let number = small(self.nodes.len());
        self.nodes.push(node)?;
        Ok(number)
    }

    /// The node of a number.
    pub fn node(&self, number: u32) -> Option<Node> {
        self.nodes.get(number as usize).copied()
    }

    /// The moment of a number.
    pub fn moment(&self, number: u32) -> Option<Moment> {
        self.moments.get(number as usize).copied()
    }

    /// The start of a number.
    pub fn start(&self, number: u32) -> Option<Start> {
        self.starts.get(number as usize).copied()
    }

    /// The running steps of a moment.
    pub fn runs_of(&self, moment: &Moment) -> &[Running] {
        part(&self.runs, moment.running)
    }

    /// The starts that a node and those before it chose at its tick, in their order.
    pub fn chain(&self, node: Node, chain: &mut Vec<Start>) -> Result<(), AllocError> {
        chain.clear();
        let mut at = node;
        for _ in 0..self.nodes.len() {
            let Some(start) = self.start(at.choice) else {
                break;
            };
            chain.push(start)?;
            let Some(parent) = self.node(at.parent) else {
                break;
            };
            at = parent;
        }
        chain.reverse();
        Ok(())
    }

    // The step that a node chose.
    fn step_of(&self, task: &Task, node: &Node) -> Option<Chosen> {
        let start = self.start(node.choice)?;
        let action = task.action(start.action)?;
        Some(Chosen {
            tick: self.moment(node.moment)?.tick,
            action: ActionId(action.number),
            duration: start.duration,
        })
    }

    /// The steps of a node, in the order in which they were chosen.
    pub fn steps(
        &self,
        alloc: Global,
        task: &Task,
        number: u32,
    ) -> Result<Vec<Chosen>, AllocError> {
        let mut steps = Vec::new(alloc);
        let mut at = number;
        for _ in 0..self.nodes.len() {
            let Some(node) = self.node(at) else {
                break;
            };
            if let Some(step) = self.step_of(task, &node) {
                steps.push(step)?;
            }
            at = node.parent;
        }
        steps.reverse();
        Ok(steps)
    }
}

/// The root: no parent, the first moment, no choice.
pub const ROOT: Node = Node {
    parent: NONE,
    moment: 0,
    choice: NONE,
    steps: 0,
};
