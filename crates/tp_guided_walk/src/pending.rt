//! The starts of a relaxed plan that are still to do.

use std::alloc::{AllocError, Global};
use tp_guided_costs::{Heuristic, Wanted};
use tp_search_compiled::{Event, NONE, Span, State, Task, part, small};

/// A start of the relaxed plan, which has still to be done so many times. Literals are numbered as
/// the relaxed task does: an atom's number twice, and one more where the atom is to be false.
#[derive(Clone, Copy)]
pub struct Item {
    pub action: u32,
    pub times: u32,
    pub benefit: u32,
    /// Whether it can start in the state before the tick's happening.
    pub open: bool,
    /// Whether its condition holds at some time while the running steps run out.
    pub soon: bool,
    /// The literals that it needs.
    needs: Span,
    /// Those that its start makes false and its end does not bring back.
    first: Span,
    /// Those that its end makes false.
    last: Span,
}

/// A start that needs a literal, and the next one that does.
#[derive(Clone, Copy)]
pub struct User {
    pub item: u32,
    pub next: u32,
}

/// The starts that are still to do, by their places in the relaxed plan.
#[derive(Drop)]
pub struct Pending {
    items: Vec<Item>,
    literals: Vec<u32>,
    users: Vec<User>,
    /// Of each literal: its first user.
    heads: Vec<u32>,
    /// Of each literal: how many of its users are still to do.
    counts: Vec<u32>,
}

/// Whether a literal holds in a state.
pub fn is_true(state: &State, literal: u32) -> bool {
    state.has(literal / 2) == (literal % 2 == 0)
}

/// The literal that an atom is true.
pub fn holds(atom: u32) -> u32 {
    atom.saturating_mul(2)
}

/// The literal that an atom is false.
pub fn lacks(atom: u32) -> u32 {
    atom.saturating_mul(2).saturating_add(1)
}

fn brings(task: &Task, event: Option<&Event>, literal: u32) -> bool {
    let Some(event) = event else {
        return false;
    };
    let atoms = if literal % 2 == 0 {
        event.adds
    } else {
        event.dels
    };
    task.list(atoms).contains(&(literal / 2))
}

// Whether an action brings a literal, at its start or its end.
fn gives(task: &Task, action: u32, literal: u32) -> bool {
    brings(task, task.start_of(action), literal) || brings(task, task.end_of(action), literal)
}

// Adds the literals that an event makes false, but for those that a later one brings back.
fn push_falls(
    task: &Task,
    event: Option<&Event>,
    later: Option<&Event>,
    into: &mut Vec<u32>,
) -> Result<Span, AllocError> {
    let from = into.len();
    let Some(event) = event else {
        return Ok(Span::EMPTY);
    };
    let adds = task.list(event.adds);
    for atom in task.list(event.dels) {
        if !adds.contains(atom) && !brings(task, later, holds(*atom)) {
            into.push(holds(*atom))?;
        }
    }
    for atom in adds {
        if !brings(task, later, lacks(*atom)) {
            into.push(lacks(*atom))?;
        }
    }
    Ok(Span::between(from, into.len()))
}

impl Pending {
    /// Nothing to do in a task.
    pub fn new(alloc: Global, task: &Task) -> Result<Self, AllocError> {
        let literals = (task.changing_atoms as usize).saturating_mul(2);
        let heads = Vec::from_elem(alloc, NONE, literals)?;
        let counts = Vec::from_elem(alloc, 0u32, literals)?;
        Ok(Pending {
            items: Vec::new(alloc),
            literals: Vec::new(alloc),
            users: Vec::new(alloc),
            heads,
            counts,
        })
    }

    fn clear(&mut self) {
        for item in &self.items {
            for literal in part(&self.literals, item.needs) {
                if let Some(head) = self.heads.get_mut(*literal as usize) {
                    *head = NONE;
                }
                if let Some(count) = self.counts.get_mut(*literal as usize) {
                    *count = 0;
                }
            }
        }
        self.items.clear();
        self.literals.clear();
        self.users.clear();
    }

    /// All starts of a relaxed plan.
    pub fn fill(&mut self, task: &Task, value: &Heuristic<'_>) -> Result<(), AllocError> {
        self.clear();
        for wanted in value.plan() {
            self.add(task, *wanted, value.needs(wanted.action))?;
        }
        for place in 0..self.len() {
            self.forget_restored(task, value, place);
        }
        Ok(())
    }

    fn add(&mut self, task: &Task, wanted: Wanted, needs: &[u32]) -> Result<(), AllocError> {
        let from = self.literals.len();
        self.literals.extend_from_slice(needs)?;
        let to = self.literals.len();
        let (start, end) = (task.start_of(wanted.action), task.end_of(wanted.action));
        let first = push_falls(task, start, end, &mut self.literals)?;
        let last = push_falls(task, end, None, &mut self.literals)?;
        for literal in needs {
            self.add_user(*literal)?;
        }
        self.items.push(Item {
            action: wanted.action,
            times: wanted.times,
            benefit: wanted.benefit,
            open: false,
            soon: false,
            needs: Span::between(from, to),
            first,
            last,
        })?;
        Ok(())
    }

    // The next item needs a literal.
    fn add_user(&mut self, literal: u32) -> Result<(), AllocError> {
        let user = small(self.users.len());
        if let Some(head) = self.heads.get_mut(literal as usize) {
            self.users.push(User {
                item: small(self.items.len()),
                next: *head,
            })?;
            *head = user;
        }
        if let Some(count) = self.counts.get_mut(literal as usize) {
            *count = count.saturating_add(1);
        }
        Ok(())
    }

    // What an item takes does not count if a start that stands on it brings it back.
    fn forget_restored(&mut self, task: &Task, value: &Heuristic<'_>, place: u32) {
        if let Some(item) = self.item(place) {
            let first = self.not_restored(task, value, place, item.first);
            let last = self.not_restored(task, value, place, item.last);
            if let Some(item) = self.items.get_mut(place as usize) {
                item.first = first;
                item.last = last;
            }
        }
    }

    // Of the literals of a span those that nothing that stands on an item brings back, or that
    // nothing needs: moved to the front of the span.
    fn not_restored(&mut self, task: &Task, value: &Heuristic<'_>, place: u32, span: Span) -> Span {
        let mut count: u32 = 0;
        for offset in 0..span.count {
            let literal = self.literal(span.at.saturating_add(offset));
            if !self.is_needed(literal) || !self.is_restored(task, value, place, literal) {
                let to = span.at.saturating_add(count);
                if let Some(at) = self.literals.get_mut(to as usize) {
                    *at = literal;
                }
                count = count.saturating_add(1);
            }
        }
        Span { at: span.at, count }
    }

    fn literal(&self, place: u32) -> u32 {
        self.literals.get(place as usize).copied().unwrap_or(NONE)
    }

    fn is_restored(&self, task: &Task, value: &Heuristic<'_>, place: u32, literal: u32) -> bool {
        let mut other: u32 = 0;
        for item in &self.items {
            if value.stands_on(other, place) && gives(task, item.action, literal) {
                return true;
            }
            other = other.saturating_add(1);
        }
        false
    }

    /// How many items there are.
    pub fn len(&self) -> u32 {
        small(self.items.len())
    }

    /// All items.
    pub fn items(&self) -> &[Item] {
        &self.items
    }

    /// An item by its place.
    pub fn item(&self, place: u32) -> Option<Item> {
        self.items.get(place as usize).copied()
    }

    /// Whether an item is still to do.
    pub fn is_pending(&self) -> bool {
        self.items.iter().any(|i| i.times > 0)
    }

    /// The literals that an item needs.
    pub fn needs(&self, item: &Item) -> &[u32] {
        part(&self.literals, item.needs)
    }

    /// The literals that an item makes false for good at its start.
    pub fn first(&self, item: &Item) -> &[u32] {
        part(&self.literals, item.first)
    }

    /// The literals that an item makes false at its end.
    pub fn last(&self, item: &Item) -> &[u32] {
        part(&self.literals, item.last)
    }

    /// Whether an item that is still to do needs a literal.
    pub fn is_needed(&self, literal: u32) -> bool {
        self.counts.get(literal as usize).copied().unwrap_or(0) > 0
    }

    /// Whether the end of an item takes what one that is still to do needs.
    pub fn is_envelope(&self, item: &Item) -> bool {
        self.last(item).iter().any(|l| self.is_needed(*l))
    }

    /// Whether the end of an item takes what another one needs.
    pub fn takes_need(&self, item: &Item, other: &Item) -> bool {
        let needs = self.needs(other);
        self.last(item).iter().any(|l| needs.contains(l))
    }

    /// Whether what an item needs holds in a state.
    pub fn has_needs(&self, state: &State, item: &Item) -> bool {
        self.needs(item).iter().all(|l| is_true(state, *l))
    }

    /// An item was done once.
    pub fn use_once(&mut self, place: u32) {
        let Some(item) = self.items.get_mut(place as usize) else {
            return;
        };
        item.times = item.times.saturating_sub(1);
        if item.times > 0 {
            return;
        }
        for literal in part(&self.literals, item.needs) {
            if let Some(count) = self.counts.get_mut(*literal as usize) {
                *count = count.saturating_sub(1);
            }
        }
    }

    /// Sets whether an item can start in the state before the tick's happening.
    pub fn set_open(&mut self, place: u32, open: bool) {
        if let Some(item) = self.items.get_mut(place as usize) {
            item.open = open;
        }
    }

    /// No item is possible soon.
    pub fn forget_soon(&mut self) {
        for item in &mut self.items {
            item.soon = false;
        }
    }

    /// Marks the items whose needs and condition hold in a state; whether there is one that was not
    /// marked.
    pub fn mark_soon(&mut self, task: &Task, state: &State) -> bool {
        let mut any = false;
        for item in &mut self.items {
            if item.times > 0 && !item.soon {
                let needs = part(&self.literals, item.needs);
                item.soon = needs.iter().all(|l| is_true(state, *l))
                    && match task.start_of(item.action) {
                        Some(event) => state.holds(task, &event.cond),
                        None => false,
                    };
                any = any || item.soon;
            }
        }
        any
    }

    /// The place of the first user of a literal, for `user`.
    pub fn first_user(&self, literal: u32) -> u32 {
        self.heads.get(literal as usize).copied().unwrap_or(NONE)
    }

    /// The user of a literal at a place, None after the last one.
    pub fn user(&self, place: u32) -> Option<User> {
        self.users.get(place as usize).copied()
    }
}
