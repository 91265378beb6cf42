//! What is gathered of conditions and expressions before it is listed.

use crate::places::Places;
use crate::spans::{Span, small};
use crate::task::{Form, Task, Word};
use crate::values::{Compare, Ins, Value};
use std::alloc::{AllocError, Global};
use tp_task::Expr;

/// The parts of a condition.
#[derive(Drop)]
pub struct Gathered {
    pub wanted: Vec<u32>,
    pub unwanted: Vec<u32>,
    pub other_atoms: Vec<u32>,
    pub fluents: Vec<u32>,
    pub conjuncts: Vec<Compare>,
    pub others: Vec<Compare>,
    pub words: Vec<Word>,
    pub never: bool,
    pub arith: bool,
}

impl Gathered {
    fn new(alloc: Global) -> Self {
        Gathered {
            wanted: Vec::new(alloc),
            unwanted: Vec::new(alloc),
            other_atoms: Vec::new(alloc),
            fluents: Vec::new(alloc),
            conjuncts: Vec::new(alloc),
            others: Vec::new(alloc),
            words: Vec::new(alloc),
            never: false,
            arith: false,
        }
    }

    fn clear(&mut self) {
        self.wanted.clear();
        self.unwanted.clear();
        self.other_atoms.clear();
        self.fluents.clear();
        self.conjuncts.clear();
        self.others.clear();
        self.words.clear();
        self.never = false;
        self.arith = false;
    }
}

/// A task that is being made.
#[derive(Drop)]
pub struct Writer {
    pub task: Task,
    pub atoms: Places,
    pub fluents: Places,
    pub gathered: Gathered,
    /// The fluents that expressions mention.
    pub reads: Vec<u32>,
    /// Whether an expression mentions the duration.
    pub duration: bool,
    /// The fluents that an event writes, each with whether it is set.
    pub written: Vec<(u32, bool)>,
}

/// Items behind those of a vector, and where they stand.
pub fn append<T: Copy + Drop>(into: &mut Vec<T>, items: &[T]) -> Result<Span, AllocError> {
    let at = into.len();
    into.reserve(items.len())?;
    for item in items {
        into.push(*item)?;
    }
    Ok(Span::between(at, into.len()))
}

fn joined(first: Span, second: Span) -> Span {
    Span {
        at: first.at,
        count: first.count.saturating_add(second.count),
    }
}

impl Writer {
    /// Nothing of a task yet.
    pub fn new(alloc: Global, task: Task, atoms: Places, fluents: Places) -> Self {
        Writer {
            task,
            atoms,
            fluents,
            gathered: Gathered::new(alloc),
            reads: Vec::new(alloc),
            duration: false,
            written: Vec::new(alloc),
        }
    }

    /// An expression. The fluents that it mentions are added to `reads`.
    pub fn value(&mut self, expr: &Expr) -> Result<Value, AllocError> {
        match expr {
            Expr::Number(n) => Ok(Value::Num(*n)),
            Expr::Fluent(f) => {
                let fluent = self.fluents.of(*f);
                self.reads.push(fluent)?;
                Ok(Value::Fluent(fluent))
            }
            _ => {
                let from = self.task.code.len();
                self.postfix(expr)?;
                Ok(Value::Code(Span::between(from, self.task.code.len())))
            }
        }
    }

    fn postfix(&mut self, expr: &Expr) -> Result<(), AllocError> {
        let ins = match expr {
            Expr::Number(n) => Ins::Num(*n),
            Expr::Fluent(f) => {
                let fluent = self.fluents.of(*f);
                self.reads.push(fluent)?;
                Ins::Fluent(fluent)
            }
            Expr::Duration => {
                self.duration = true;
                Ins::Duration
            }
            Expr::Negated(x) => {
                self.postfix(x)?;
                Ins::Neg
            }
            Expr::Sum(x, y) => {
                self.postfix(x)?;
                self.postfix(y)?;
                Ins::Add
            }
            Expr::Difference(x, y) => {
                self.postfix(x)?;
                self.postfix(y)?;
                Ins::Sub
            }
            Expr::Product(x, y) => {
                self.postfix(x)?;
                self.postfix(y)?;
                Ins::Mul
            }
        };
        self.task.code.push(ins)?;
        Ok(())
    }

    /// Lists what was gathered of a condition, and gathers anew.
    pub fn finish(&mut self) -> Result<Form, AllocError> {
        let form = self.listed()?;
        self.gathered.clear();
        Ok(form)
    }

    fn listed(&mut self) -> Result<Form, AllocError> {
        let g = &self.gathered;
        let lists = &mut self.task.lists;
        let wanted = append(lists, &g.wanted)?;
        let unwanted = append(lists, &g.unwanted)?;
        let others = append(lists, &g.other_atoms)?;
        let fluents = append(lists, &g.fluents)?;
        let conjuncts = append(&mut self.task.compares, &g.conjuncts)?;
        let other_compares = append(&mut self.task.compares, &g.others)?;
        let words = append(&mut self.task.words, &g.words)?;
        Ok(Form {
            wanted,
            unwanted,
            mentioned: joined(joined(wanted, unwanted), others),
            fluents,
            conjuncts,
            others: other_compares,
            words,
            never: g.never,
            arith: g.arith,
        })
    }

    /// The task that was made.
    pub fn into_task(self) -> Task {
        let Writer { task, .. } = self;
        task
    }

    /// How many words of disjunctions were gathered.
    pub fn words(&self) -> usize {
        self.gathered.words.len()
    }

    /// The number that the next comparison of a disjunction gets.
    pub fn next_other(&self) -> u32 {
        small(self.gathered.others.len())
    }
}
