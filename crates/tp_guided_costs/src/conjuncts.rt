//! What conditions need, as propositions.

use crate::comparing::{Key, folded, key_of};
use crate::interval::{Interval, may_hold};
use crate::relaxed::{Compared, at};
use std::alloc::{AllocError, Global};
use std::collections::BTreeMap;
use tp_search_compiled::{
    Compare, Form, Lists, NONE, Span, State, Task, UNDEFINED, Value, Word, Write, small,
};

/// What a part of a condition asks for.
#[derive(Clone, Copy)]
pub enum Asked {
    Nothing,
    Never,
    Prop(u32),
}

/// A relaxed task that is being made.
#[derive(Drop)]
pub struct Builder<'a> {
    pub alloc: Global,
    pub task: &'a Task,
    pub start: &'a State,
    pub props: u32,
    pub pre: Lists,
    pub adds: Lists,
    pub event: Vec<u32>,
    pub action: Vec<u32>,
    pub compares: Vec<Compared>,
    pub known: BTreeMap<Key, u32>,
    pub defined: Vec<u32>,
    /// Which fluents some event assigns.
    assigned: Vec<bool>,
    /// The values at first.
    fixed: Vec<Interval>,
}

fn assigned(alloc: Global, task: &Task) -> Result<Vec<bool>, AllocError> {
    let mut assigned = Vec::from_elem(alloc, false, task.fluents as usize)?;
    for to in &task.writes {
        if to.op == Write::Assign {
            if let Some(at) = assigned.get_mut(to.fluent as usize) {
                *at = true;
            }
        }
    }
    Ok(assigned)
}

fn fixed(alloc: Global, start: &State) -> Result<Vec<Interval>, AllocError> {
    let mut fixed = Vec::with_capacity(alloc, start.values.len())?;
    for value in &start.values {
        fixed.push(Interval::of_value(*value))?;
    }
    Ok(fixed)
}

// Adds what a part asks for; whether it can hold.
fn ask(asked: Asked, out: &mut Vec<u32>) -> Result<bool, AllocError> {
    match asked {
        Asked::Nothing => Ok(true),
        Asked::Never => Ok(false),
        Asked::Prop(prop) => {
            out.push(prop)?;
            Ok(true)
        }
    }
}

impl<'a> Builder<'a> {
    /// The literals, and nothing else yet.
    pub fn new(alloc: Global, task: &'a Task, start: &'a State) -> Result<Self, AllocError> {
        let defined = Vec::from_elem(alloc, NONE, task.fluents as usize)?;
        let assigned = assigned(alloc, task)?;
        let fixed = fixed(alloc, start)?;
        Ok(Builder {
            alloc,
            task,
            start,
            props: task.changing_atoms.saturating_mul(2),
            pre: Lists::new(alloc),
            adds: Lists::new(alloc),
            event: Vec::new(alloc),
            action: Vec::new(alloc),
            compares: Vec::new(alloc),
            known: BTreeMap::new(alloc),
            defined,
            assigned,
            fixed,
        })
    }

    /// A new proposition.
    pub fn prop(&mut self) -> u32 {
        let prop = self.props;
        self.props = prop.saturating_add(1);
        prop
    }

    /// A new operator.
    pub fn op(
        &mut self,
        pre: &[u32],
        adds: &[u32],
        event: u32,
        action: u32,
    ) -> Result<u32, AllocError> {
        let op = small(self.event.len());
        self.pre.push(pre)?;
        self.adds.push(adds)?;
        self.name(event, action)?;
        Ok(op)
    }

    fn name(&mut self, event: u32, action: u32) -> Result<(), AllocError> {
        self.event.push(event)?;
        self.action.push(action)?;
        Ok(())
    }

    /// Adds that some fluents have values, where they have none at first; false if one never has.
    pub fn defined(&mut self, fluents: &[u32], out: &mut Vec<u32>) -> Result<bool, AllocError> {
        for fluent in fluents {
            if self.start.number(*fluent) == UNDEFINED {
                let prop = self.defined_prop(*fluent);
                if prop == NONE {
                    return Ok(false);
                }
                out.push(prop)?;
            }
        }
        Ok(true)
    }

    // The proposition that a fluent has a value; none if it never has.
    fn defined_prop(&mut self, fluent: u32) -> u32 {
        let may = self.assigned.get(fluent as usize).copied();
        if !may.unwrap_or(false) {
            return NONE;
        }
        let known = at(&self.defined, fluent);
        if known != NONE {
            return known;
        }
        let prop = self.prop();
        if let Some(place) = self.defined.get_mut(fluent as usize) {
            *place = prop;
        }
        prop
    }

    fn literal(&self, atom: u32, positive: bool) -> Asked {
        if atom < self.task.changing_atoms {
            let prop = atom.saturating_mul(2);
            let prop = if positive {
                prop
            } else {
                prop.saturating_add(1)
            };
            return Asked::Prop(prop);
        }
        if self.start.has(atom) == positive {
            Asked::Nothing
        } else {
            Asked::Never
        }
    }

    /// What a comparison asks for.
    pub fn compare(&mut self, compare: &Compare) -> Result<Asked, AllocError> {
        let a = folded(self.task, compare.a, &self.fixed);
        let b = folded(self.task, compare.b, &self.fixed);
        if let (Value::Num(x), Value::Num(y)) = (a, b) {
            let holds = may_hold(compare.op, Interval::point(x), Interval::point(y));
            return Ok(if holds { Asked::Nothing } else { Asked::Never });
        }
        let compare = Compare {
            op: compare.op,
            a,
            b,
        };
        Ok(Asked::Prop(self.compared(compare)?))
    }

    // The proposition of a comparison.
    fn compared(&mut self, compare: Compare) -> Result<u32, AllocError> {
        let key = key_of(compare);
        if let Some(prop) = self.known.get(&key) {
            return Ok(*prop);
        }
        let prop = self.prop();
        self.compares.push(Compared { prop, compare })?;
        self.known.insert(key, prop)?;
        Ok(prop)
    }

    /// Adds what a condition needs; false if it never holds.
    pub fn conjuncts(&mut self, form: &Form, out: &mut Vec<u32>) -> Result<bool, AllocError> {
        let task = self.task;
        if form.never || !self.defined(task.list(form.fluents), out)? {
            return Ok(false);
        }
        if !self.literals(task.list(form.wanted), true, &[], out)?
            || !self.literals(task.list(form.unwanted), false, &[], out)?
        {
            return Ok(false);
        }
        Ok(self.comparisons(form.conjuncts, out)? && self.disjunctions(form, out)?)
    }

    /// Adds literals but for those of some atoms; false if one never holds.
    pub fn literals(
        &mut self,
        atoms: &[u32],
        positive: bool,
        but: &[u32],
        out: &mut Vec<u32>,
    ) -> Result<bool, AllocError> {
        for atom in atoms {
            if !but.contains(atom) && !ask(self.literal(*atom, positive), out)? {
                return Ok(false);
            }
        }
        Ok(true)
    }

    fn comparisons(&mut self, compares: Span, out: &mut Vec<u32>) -> Result<bool, AllocError> {
        let task = self.task;
        for compare in task.compares_in(compares) {
            if !self.comparison(compare, out)? {
                return Ok(false);
            }
        }
        Ok(true)
    }

    /// Adds what a comparison needs; false if it never holds.
    pub fn comparison(
        &mut self,
        compare: &Compare,
        out: &mut Vec<u32>,
    ) -> Result<bool, AllocError> {
        let asked = self.compare(compare)?;
        ask(asked, out)
    }

    /// Adds what the disjunctions of a condition need; false if one never holds.
    pub fn disjunctions(&mut self, form: &Form, out: &mut Vec<u32>) -> Result<bool, AllocError> {
        let task = self.task;
        let words = task.words_of(form);
        self.every(words, task.compares_in(form.others), words.len(), out)
    }

    // Adds what all conditions that words make need; groups are nested at most so deep.
    #[cycle(words)]
    fn every(
        &mut self,
        words: &[Word],
        others: &[Compare],
        depth: usize,
        out: &mut Vec<u32>,
    ) -> Result<bool, AllocError> {
        let mut left = words;
        for _ in 0..words.len() {
            let Some((first, more)) = left.split_first() else {
                break;
            };
            if !self.one(*first, more, others, depth, out)? {
                return Ok(false);
            }
            left = more.get(first.size()..).unwrap_or(&[]);
        }
        Ok(true)
    }

    // Adds what the condition of a word and those behind it needs.
    #[cycle(words)]
    fn one(
        &mut self,
        first: Word,
        more: &[Word],
        others: &[Compare],
        depth: usize,
        out: &mut Vec<u32>,
    ) -> Result<bool, AllocError> {
        let inside = more.get(..first.size()).unwrap_or(&[]);
        match first {
            Word::Holds(atom) => ask(self.literal(atom, true), out),
            Word::Lacks(atom) => ask(self.literal(atom, false), out),
            Word::Compare(number) => match others.get(number as usize) {
                Some(compare) => self.comparison(compare, out),
                None => Ok(false),
            },
            Word::All(_) if depth > 0 => self.every(inside, others, depth - 1, out),
            Word::Any(_) if depth > 0 => self.any(inside, others, depth - 1, out),
            Word::All(_) | Word::Any(_) => Ok(false),
        }
    }

    // Adds what one of the conditions that words make needs: a helper that each of them adds, if
    // there are several.
    #[cycle(words)]
    fn any(
        &mut self,
        words: &[Word],
        others: &[Compare],
        depth: usize,
        out: &mut Vec<u32>,
    ) -> Result<bool, AllocError> {
        let mut parts = Lists::new(self.alloc);
        let mut found = Vec::new(self.alloc);
        let mut left = words;
        for _ in 0..words.len() {
            let Some((first, more)) = left.split_first() else {
                break;
            };
            found.clear();
            if self.one(*first, more, others, depth, &mut found)? {
                if found.is_empty() {
                    return Ok(true);
                }
                parts.push(&found)?;
            }
            left = more.get(first.size()..).unwrap_or(&[]);
        }
        self.one_of(&parts, out)
    }

    fn one_of(&mut self, parts: &Lists, out: &mut Vec<u32>) -> Result<bool, AllocError> {
        if parts.count() < 2 {
            out.extend_from_slice(parts.of(0))?;
            return Ok(parts.count() == 1);
        }
        let helper = self.prop();
        out.push(helper)?;
        for number in 0..small(parts.count()) {
            self.op(parts.of(number), &[helper], NONE, NONE)?;
        }
        Ok(true)
    }
}
