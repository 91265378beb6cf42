//! Whether conditions hold in a state.

use crate::spans::Span;
use crate::state::State;
use crate::task::{Form, Task, Word};
use crate::values::Compare;

impl State {
    /// Whether a condition holds. One of which a number is out of range does not.
    #[inline]
    pub fn holds(&self, task: &Task, form: &Form) -> bool {
        self.judge(task, form) == Some(true)
    }

    /// Whether a condition holds; None where its atoms are as it wants them and a number of it is
    /// out of range.
    #[inline]
    pub fn judge(&self, task: &Task, form: &Form) -> Option<bool> {
        if !task.list(form.wanted).iter().all(|a| self.has(*a))
            || task.list(form.unwanted).iter().any(|a| self.has(*a))
        {
            return Some(false);
        }
        if form.conjuncts.count == 0 && form.words.count == 0 {
            return Some(!form.never);
        }
        self.others_hold(task, form)
    }

    fn others_hold(&self, task: &Task, form: &Form) -> Option<bool> {
        if !self.defined(task.list(form.fluents)) {
            return Some(false);
        }
        let others = task.compares_in(form.others);
        if form.arith && others.iter().any(|c| self.compares(task, c).is_none()) {
            return None;
        }
        if !self.all_compare(task, form.conjuncts)? || form.never {
            return Some(false);
        }
        let words = task.words_of(form);
        Some(self.judged(task, words, others, true, words.len()))
    }

    // Whether all of some comparisons hold; None where a number of one is out of range.
    fn all_compare(&self, task: &Task, compares: Span) -> Option<bool> {
        let mut all = true;
        for compare in task.compares_in(compares) {
            all = self.compares(task, compare)? && all;
        }
        Some(all)
    }

    // Whether a comparison holds; None where a number is out of range.
    fn compares(&self, task: &Task, compare: &Compare) -> Option<bool> {
        let a = self.value(task, compare.a, 0)?;
        let b = self.value(task, compare.b, 0)?;
        Some(compare.op.holds(a, b))
    }

    // Whether all or one of the conditions that words make hold; groups are nested at most so deep.
    fn judged(
        &self,
        task: &Task,
        words: &[Word],
        others: &[Compare],
        all: bool,
        depth: usize,
    ) -> bool {
        let mut left = words;
        for _ in 0..words.len() {
            let Some((first, more)) = left.split_first() else {
                break;
            };
            let size = first.size();
            let inside = more.get(..size).unwrap_or(&[]);
            let holds = match *first {
                Word::Holds(a) => self.has(a),
                Word::Lacks(a) => !self.has(a),
                Word::Compare(c) => match others.get(c as usize) {
                    Some(compare) => self.compares(task, compare) == Some(true),
                    None => false,
                },
                Word::All(_) => depth > 0 && self.judged(task, inside, others, true, depth - 1),
                Word::Any(_) => depth > 0 && self.judged(task, inside, others, false, depth - 1),
            };
            if holds != all {
                return holds;
            }
            left = more.get(size..).unwrap_or(&[]);
        }
        all
    }
}
