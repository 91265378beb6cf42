//! All moments and nodes of a search, by number.

use std::alloc::{AllocError, Global};
use tp_search_compiled::{Mixer, NONE, Running, Span, State, mix_pair, part, small};
use tp_task::MOST_STEPS;

/// A start that is possible: an action, and its duration in ticks, 0 for an instantaneous one.
#[derive(Clone, Copy, PartialEq, Eq, PartialOrd, Ord)]
pub struct Choice {
    pub action: u32,
    pub duration: u32,
}

/// A start at its tick.
#[derive(Clone, Copy)]
pub struct Chosen {
    pub tick: u32,
    pub choice: Choice,
}

/// What the nodes share that come from one wait: the tick, the state before its happening, the
/// steps that run into it, sorted, the starts that are possible, once they are wanted, and the node
/// that starts nothing.
#[derive(Clone, Copy)]
pub struct Moment {
    pub hash: u64,
    pub tick: u32,
    pub state: u32,
    pub running: Span,
    pub choices: Option<Span>,
    pub node: u32,
}

/// A node: its parent, its moment, the start that it adds to its parent's (`NONE` where it waits),
/// how many steps it has, a hash of its set of starts, and whether it was expanded.
#[derive(Clone, Copy)]
pub struct Node {
    pub parent: u32,
    pub moment: u32,
    pub choice: u32,
    pub steps: u32,
    pub set: u64,
    pub expanded: bool,
}

/// All moments and nodes, and what they refer to. A table finds a moment by its state and its
/// running steps, another one a node by its moment and its set of starts.
#[derive(Drop)]
pub struct Store {
    alloc: Global,
    width: usize,
    depth: usize,
    words: Vec<u64>,
    numbers: Vec<i64>,
    states: u32,
    runs: Vec<Running>,
    choices: Vec<Choice>,
    moments: Vec<Moment>,
    nodes: Vec<Node>,
    moment_table: Vec<u32>,
    node_table: Vec<u32>,
}

const FIRST_TABLE: usize = 1024;

// What a start adds to the hash of a set of starts.
fn hash_of_choice(choice: Choice) -> u64 {
    mix_pair(
        u64::from(choice.action).saturating_add(1),
        u64::from(choice.duration),
    )
}

// The number of the next of so many, if 32 bits have it.
fn next_number(count: usize) -> Result<u32, AllocError> {
    let number = small(count);
    if number == NONE {
        return Err(AllocError);
    }
    Ok(number)
}

/// The first of some elements, none where there are fewer.
pub fn first_of<T>(items: &[T], count: usize) -> &[T] {
    match items.get(..count) {
        Some(part) => part,
        None => &[],
    }
}

fn block<T>(items: &[T], number: u32, size: usize) -> &[T] {
    let at = (number as usize).saturating_mul(size);
    match items.get(at..at.saturating_add(size)) {
        Some(block) => block,
        None => &[],
    }
}

// Where a hash is looked for first, among a power of two of places.
fn place_of(hash: u64, len: usize) -> usize {
    (hash as usize) & len.saturating_sub(1)
}

fn next_place(at: usize, len: usize) -> usize {
    at.saturating_add(1) & len.saturating_sub(1)
}

// Enters a number at the first free place from a hash on.
fn enter(table: &mut [u32], hash: u64, number: u32) {
    let len = table.len();
    let mut at = place_of(hash, len);
    for _ in 0..len {
        if let Some(place) = table.get_mut(at) {
            if *place == NONE {
                *place = number;
                return;
            }
        }
        at = next_place(at, len);
    }
}

fn is_of(choice: Option<&Choice>, action: u32) -> bool {
    match choice {
        Some(choice) => choice.action == action,
        None => false,
    }
}

fn hash_of_node(node: &Node) -> u64 {
    mix_pair(u64::from(node.moment), node.set)
}

impl Node {
    /// The hash of the set of starts with one more.
    pub fn set_with(&self, choice: Choice) -> u64 {
        self.set.wrapping_add(hash_of_choice(choice))
    }
}

impl Store {
    /// No nodes; of a state so many words and so many numbers change.
    pub fn new(alloc: Global, width: usize, depth: usize) -> Result<Self, AllocError> {
        let moment_table = Vec::from_elem(alloc, NONE, FIRST_TABLE)?;
        let node_table = Vec::from_elem(alloc, NONE, FIRST_TABLE)?;
        Ok(Store {
            alloc,
            width,
            depth,
            words: Vec::new(alloc),
            numbers: Vec::new(alloc),
            states: 0,
            runs: Vec::new(alloc),
            choices: Vec::new(alloc),
            moments: Vec::new(alloc),
            nodes: Vec::new(alloc),
            moment_table,
            node_table,
        })
    }

    /// Keeps what changes of a state, and answers its number.
    pub fn pack(&mut self, state: &State) -> Result<u32, AllocError> {
        let number = next_number(self.states as usize)?;
        self.words
            .extend_from_slice(first_of(&state.bits, self.width))?;
        self.numbers
            .extend_from_slice(first_of(&state.values, self.depth))?;
        self.states = number.saturating_add(1);
        Ok(number)
    }

    /// Loads a state that was kept.
    pub fn unpack(&self, number: u32, state: &mut State) {
        let words = block(&self.words, number, self.width);
        for (word, from) in state.bits.iter_mut().zip(words) {
            *word = *from;
        }
        let numbers = block(&self.numbers, number, self.depth);
        for (value, from) in state.values.iter_mut().zip(numbers) {
            *value = *from;
        }
    }

    fn is_state(&self, number: u32, state: &State) -> bool {
        block(&self.words, number, self.width) == first_of(&state.bits, self.width)
            && block(&self.numbers, number, self.depth) == first_of(&state.values, self.depth)
    }

    /// A hash of a state and of steps that run.
    pub fn hash_of(&self, state: &State, runs: &[Running]) -> u64 {
        let mut mixer = Mixer::new();
        for word in first_of(&state.bits, self.width) {
            mixer = mixer.put(*word);
        }
        for value in first_of(&state.values, self.depth) {
            mixer = mixer.put(value.cast_unsigned());
        }
        for run in runs {
            let step = u64::from(run.action).wrapping_shl(32) | u64::from(run.duration);
            mixer = mixer.put(step).put(u64::from(run.left));
        }
        mixer.end()
    }

    /// Steps that run, as they were kept.
    pub fn runs(&self, span: Span) -> &[Running] {
        part(&self.runs, span)
    }

    /// Keeps steps that run.
    pub fn add_runs(&mut self, runs: &[Running]) -> Result<Span, AllocError> {
        let at = next_number(self.runs.len())?;
        self.runs.extend_from_slice(runs)?;
        Ok(Span {
            at,
            count: small(runs.len()),
        })
    }

    /// A start by its number.
    pub fn choice(&self, number: u32) -> Option<Choice> {
        self.choices.get(number as usize).copied()
    }

    /// Keeps a start, and answers its number.
    pub fn add_choice(&mut self, choice: Choice) -> Result<u32, AllocError> {
        let number = next_number(self.choices.len())?;
        self.choices.push(choice)?;
        Ok(number)
    }

    /// Keeps the starts that are possible at a moment.
    pub fn add_choices(&mut self, moment: u32, choices: &[Choice]) -> Result<(), AllocError> {
        let at = next_number(self.choices.len())?;
        self.choices.extend_from_slice(choices)?;
        if let Some(there) = self.moments.get_mut(moment as usize) {
            there.choices = Some(Span {
                at,
                count: small(choices.len()),
            });
        }
        Ok(())
    }

    /// The numbers of the starts of a span that an action has.
    pub fn choices_of(&self, span: Span, action: u32) -> Span {
        let choices = part(&self.choices, span);
        let before = choices.partition_point(|c| c.action < action);
        let mut count: u32 = 0;
        for place in before..choices.len() {
            if !is_of(choices.get(place), action) {
                break;
            }
            count = count.saturating_add(1);
        }
        Span {
            at: span.at.saturating_add(small(before)),
            count,
        }
    }

    /// A moment by its number.
    pub fn moment(&self, number: u32) -> Option<Moment> {
        self.moments.get(number as usize).copied()
    }

    /// A node by its number.
    pub fn node(&self, number: u32) -> Option<Node> {
        self.nodes.get(number as usize).copied()
    }

    /// The moment of a node.
    pub fn moment_of(&self, node: u32) -> Option<Moment> {
        self.moment(self.node(node)?.moment)
    }

    /// How many nodes there are.
    pub fn node_count(&self) -> u32 {
        small(self.nodes.len())
    }

    /// Notes that a node was expanded.
    pub fn set_expanded(&mut self, node: u32) {
        if let Some(node) = self.nodes.get_mut(node as usize) {
            node.expanded = true;
        }
    }

    /// The node after a wait in a state with steps that run, if it is kept.
    pub fn known(&self, hash: u64, state: &State, runs: &[Running]) -> Option<u32> {
        let len = self.moment_table.len();
        let mut at = place_of(hash, len);
        for _ in 0..len {
            let number = self.moment_table.get(at).copied().unwrap_or(NONE);
            let moment = self.moment(number)?;
            if moment.hash == hash
                && self.runs(moment.running) == runs
                && self.is_state(moment.state, state)
            {
                return Some(moment.node);
            }
            at = next_place(at, len);
        }
        None
    }

    /// Keeps a moment. Other waits find it, but for the first one, which is the root's.
    pub fn add_moment(&mut self, moment: Moment) -> Result<u32, AllocError> {
        let number = next_number(self.moments.len())?;
        self.moments.push(moment)?;
        if number > 0 {
            self.enter_moment(moment.hash, number)?;
        }
        Ok(number)
    }

    fn enter_moment(&mut self, hash: u64, number: u32) -> Result<(), AllocError> {
        if self.moments.len().saturating_mul(2) > self.moment_table.len() {
            let size = self.moment_table.len().saturating_mul(2);
            self.moment_table = Vec::from_elem(self.alloc, NONE, size)?;
            let mut other: u32 = 1;
            for moment in self.moments.iter().skip(1) {
                enter(self.moment_table.as_mut_slice(), moment.hash, other);
                other = other.saturating_add(1);
            }
        } else {
            enter(self.moment_table.as_mut_slice(), hash, number);
        }
        Ok(())
    }

    /// The node of a moment whose starts are those of a chain and one more, if it is kept.
    pub fn child(&self, moment: u32, set: u64, chain: &[u32], choice: u32) -> Option<u32> {
        let len = self.node_table.len();
        let mut at = place_of(mix_pair(u64::from(moment), set), len);
        for _ in 0..len {
            let number = self.node_table.get(at).copied().unwrap_or(NONE);
            let node = self.node(number)?;
            if node.moment == moment && node.set == set && self.is_set(number, chain, choice) {
                return Some(number);
            }
            at = next_place(at, len);
        }
        None
    }

    // Whether the starts of a node are those of a chain and one more.
    fn is_set(&self, node: u32, chain: &[u32], choice: u32) -> bool {
        let mut count: usize = 0;
        let mut at = node;
        for _ in 0..MOST_STEPS {
            let Some(there) = self.node(at) else {
                break;
            };
            if there.choice == NONE {
                break;
            }
            if there.choice != choice && !chain.contains(&there.choice) {
                return false;
            }
            count = count.saturating_add(1);
            at = there.parent;
        }
        count == chain.len().saturating_add(1)
    }

    /// Keeps a node, and answers its number. `child` finds it if it starts something.
    pub fn add_node(&mut self, node: Node) -> Result<u32, AllocError> {
        let number = next_number(self.nodes.len())?;
        self.nodes.push(node)?;
        if self.nodes.len().saturating_mul(2) > self.node_table.len() {
            self.grow_nodes()?;
        } else if node.choice != NONE {
            enter(self.node_table.as_mut_slice(), hash_of_node(&node), number);
        }
        Ok(number)
    }

    fn grow_nodes(&mut self) -> Result<(), AllocError> {
        let size = self.node_table.len().saturating_mul(2);
        self.node_table = Vec::from_elem(self.alloc, NONE, size)?;
        let mut number: u32 = 0;
        for node in &self.nodes {
            if node.choice != NONE {
                enter(self.node_table.as_mut_slice(), hash_of_node(node), number);
            }
            number = number.saturating_add(1);
        }
        Ok(())
    }

    /// The numbers of the starts of a node, in the order in which they were chosen.
    pub fn read_chain(&self, node: u32, chain: &mut Vec<u32>) -> Result<(), AllocError> {
        chain.clear();
        let mut at = node;
        for _ in 0..MOST_STEPS {
            let Some(there) = self.node(at) else {
                break;
            };
            if there.choice == NONE {
                break;
            }
            chain.push(there.choice)?;
            at = there.parent;
        }
        chain.reverse();
        Ok(())
    }

    fn chosen_at(&self, node: &Node) -> Option<Chosen> {
        Some(Chosen {
            tick: self.moment(node.moment)?.tick,
            choice: self.choice(node.choice)?,
        })
    }

    /// The starts that lead to a node, in the order in which they were chosen.
    pub fn path(&self, node: u32) -> Result<Vec<Chosen>, AllocError> {
        let mut path = Vec::new(self.alloc);
        let mut at = node;
        for _ in 0..self.nodes.len() {
            let Some(there) = self.node(at) else {
                break;
            };
            if let Some(chosen) = self.chosen_at(&there) {
                path.push(chosen)?;
            }
            at = there.parent;
        }
        path.reverse();
        Ok(path)
    }
}
