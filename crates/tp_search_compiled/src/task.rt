//! The task in flat lists.

use crate::spans::{Span, part};
use crate::values::{Compare, Ins, Op, Value};

/// A part of a disjunction: an atom that has to be true or false, a comparison by its number among
/// those of the disjunctions, or a group of the words behind it, of which all or one have to hold.
#[derive(Clone, Copy)]
pub enum Word {
    Holds(u32),
    Lacks(u32),
    Compare(u32),
    All(u32),
    Any(u32),
}

impl Word {
    /// How many words behind it belong to it.
    pub fn size(self) -> usize {
        match self {
            Word::All(count) | Word::Any(count) => count as usize,
            Word::Holds(_) | Word::Lacks(_) | Word::Compare(_) => 0,
        }
    }
}

/// A condition: atoms that have to be true, atoms that have to be false, comparisons, and the
/// disjunctions among its conjuncts, with their comparisons.
#[derive(Clone, Copy)]
pub struct Form {
    /// In `lists`.
    pub wanted: Span,
    /// In `lists`, behind those.
    pub unwanted: Span,
    /// In `lists`: those and behind them the atoms of the disjunctions.
    pub mentioned: Span,
    /// In `lists`: the fluents of all comparisons.
    pub fluents: Span,
    /// In `compares`.
    pub conjuncts: Span,
    /// In `compares`: the comparisons of the disjunctions.
    pub others: Span,
    /// In `words`: the disjunctions.
    pub words: Span,
    /// Whether a conjunct is false whatever the state.
    pub never: bool,
    /// Whether a comparison has an operator.
    pub arith: bool,
}

/// The assignment operator of a numeric effect.
#[derive(Clone, Copy, Debug, PartialEq, Eq)]
pub enum Write {
    Assign,
    Increase,
    Decrease,
    ScaleUp,
}

impl Write {
    /// Whether it raises or lowers a fluent by what does not depend on it.
    pub fn sums(self) -> bool {
        matches!(self, Write::Increase | Write::Decrease)
    }
}

/// A numeric effect.
#[derive(Clone, Copy)]
pub struct WriteTo {
    pub op: Write,
    pub fluent: u32,
    pub value: Value,
}

/// An event.
#[derive(Clone, Copy)]
pub struct Event {
    pub cond: Form,
    /// In `lists`.
    pub adds: Span,
    pub dels: Span,
    /// In `writes`.
    pub writes: Span,
    /// In `lists`: the fluents that right sides and duration constraint read.
    pub reads: Span,
    /// In `lists`: those of the duration constraint.
    pub ruled: Span,
    /// In `lists`: those that are read, and those that are changed by what they were.
    pub needs: Span,
    /// Whether it writes a fluent twice that it sets.
    pub clash: bool,
    /// Whether a right side mentions the duration.
    pub duration: bool,
}

/// One comparison of a duration constraint.
#[derive(Clone, Copy)]
pub struct Rule {
    pub op: Op,
    pub value: Value,
}

/// An action.
#[derive(Clone, Copy)]
pub struct Action {
    /// Its number in the ground task.
    pub number: u32,
    /// Its only event or its start, which its end follows.
    pub event: u32,
    pub durative: bool,
    /// In `invariants`.
    pub invariant: u32,
    /// In `rules`.
    pub rule: Span,
    /// Whether an effect mentions the duration.
    pub duration: bool,
}

/// A step that runs: its action, its duration, and the ticks until it ends.
#[derive(Clone, Copy, Debug, PartialEq, Eq, PartialOrd, Ord)]
pub struct Running {
    pub action: u32,
    pub duration: u32,
    pub left: u32,
}

/// A task. Atoms and fluents that some event changes have the lowest numbers.
#[derive(Drop)]
pub struct Task {
    /// The ticks of a unit of time.
    pub scale: u32,
    pub horizon: u32,
    /// How many atoms there are, and how many of them some event changes.
    pub atoms: u32,
    pub changing_atoms: u32,
    /// How many fluents there are, and how many of them some event changes.
    pub fluents: u32,
    pub changing_fluents: u32,
    pub lists: Vec<u32>,
    pub compares: Vec<Compare>,
    pub words: Vec<Word>,
    pub code: Vec<Ins>,
    pub writes: Vec<WriteTo>,
    pub rules: Vec<Rule>,
    pub events: Vec<Event>,
    pub invariants: Vec<Form>,
    pub actions: Vec<Action>,
    /// The atoms that are true at first.
    pub init: Vec<u32>,
    /// The value of each fluent at first.
    pub numbers: Vec<i64>,
    pub goal: Form,
    /// The parts of the goal where it is an `and`, else the goal alone.
    pub conjuncts: Vec<Form>,
}

impl Form {
    /// A condition that always holds.
    pub const EMPTY: Form = Form {
        wanted: Span::EMPTY,
        unwanted: Span::EMPTY,
        mentioned: Span::EMPTY,
        fluents: Span::EMPTY,
        conjuncts: Span::EMPTY,
        others: Span::EMPTY,
        words: Span::EMPTY,
        never: false,
        arith: false,
    };
}

impl Task {
    /// The items of a span of `lists`.
    pub fn list(&self, span: Span) -> &[u32] {
        part(&self.lists, span)
    }

    /// The comparisons of a span of `compares`.
    pub fn compares_in(&self, span: Span) -> &[Compare] {
        part(&self.compares, span)
    }

    /// The words of a condition's disjunctions.
    pub fn words_of(&self, form: &Form) -> &[Word] {
        part(&self.words, form.words)
    }

    /// The numeric effects of an event.
    pub fn writes_of(&self, event: &Event) -> &[WriteTo] {
        part(&self.writes, event.writes)
    }

    /// The duration constraint of an action.
    pub fn rule_of(&self, action: &Action) -> &[Rule] {
        part(&self.rules, action.rule)
    }

    /// The action of a number.
    pub fn action(&self, number: u32) -> Option<&Action> {
        self.actions.get(number as usize)
    }

    /// The event of a number.
    pub fn event(&self, number: u32) -> Option<&Event> {
        self.events.get(number as usize)
    }

    /// The only event or the start of an action.
    pub fn start_of(&self, action: u32) -> Option<&Event> {
        self.event(self.action(action)?.event)
    }

    /// The end of an action that lasts.
    pub fn end_of(&self, action: u32) -> Option<&Event> {
        let action = self.action(action)?;
        if action.durative {
            self.event(action.event.saturating_add(1))
        } else {
            None
        }
    }

    /// The invariant of an action that lasts.
    pub fn invariant_of(&self, action: u32) -> Option<&Form> {
        let action = self.action(action)?;
        if action.durative {
            self.invariants.get(action.invariant as usize)
        } else {
            None
        }
    }
}
