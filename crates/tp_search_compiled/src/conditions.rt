//! Conditions by their conjuncts, negations moved inward.

use crate::spans::small;
use crate::task::{Form, Word};
use crate::values::{Compare, Op, Value};
use crate::writing::Writer;
use std::alloc::AllocError;
use tp_task::{Comparison, Cond, Expr};

fn is_code(value: Value) -> bool {
    matches!(value, Value::Code(_))
}

impl Writer {
    /// A condition.
    pub fn form(&mut self, cond: &Cond) -> Result<Form, AllocError> {
        self.conjuncts(cond, true)?;
        self.finish()
    }

    // A comparison or its negation. Its fluents count as mentioned.
    fn compare(
        &mut self,
        how: Comparison,
        x: &Expr,
        y: &Expr,
        positive: bool,
    ) -> Result<Compare, AllocError> {
        self.reads.clear();
        let a = self.value(x)?;
        let b = self.value(y)?;
        self.gathered.fluents.extend_from_slice(&self.reads)?;
        self.reads.clear();
        self.gathered.arith = self.gathered.arith || is_code(a) || is_code(b);
        Ok(Compare {
            op: Op::of(how, positive),
            a,
            b,
        })
    }

    // Gathers the conjuncts of a condition, or of its negation.
    #[cycle(conjuncts)]
    fn conjuncts(&mut self, cond: &Cond, positive: bool) -> Result<(), AllocError> {
        match cond {
            Cond::Atom(a) => self.literal(*a, positive),
            Cond::Compare(how, x, y) => self.comparison(*how, x, y, positive),
            Cond::Not(c) => self.conjuncts(c, !positive),
            Cond::And(cs) if positive => self.conjuncts_of(cs, positive),
            Cond::Or(cs) if !positive => self.conjuncts_of(cs, positive),
            Cond::And(cs) | Cond::Or(cs) => self.disjunction(cs, positive),
        }
    }

    #[cycle(conjuncts)]
    fn conjuncts_of(&mut self, conds: &[Cond], positive: bool) -> Result<(), AllocError> {
        for c in conds {
            self.conjuncts(c, positive)?;
        }
        Ok(())
    }

    fn literal(&mut self, atom: u32, positive: bool) -> Result<(), AllocError> {
        let place = self.atoms.of(atom);
        if positive {
            self.gathered.wanted.push(place)?;
        } else {
            self.gathered.unwanted.push(place)?;
        }
        Ok(())
    }

    fn comparison(
        &mut self,
        how: Comparison,
        x: &Expr,
        y: &Expr,
        positive: bool,
    ) -> Result<(), AllocError> {
        let compare = self.compare(how, x, y, positive)?;
        self.gathered.conjuncts.push(compare)?;
        Ok(())
    }

    // A conjunct of which one part has to hold, or to fail.
    fn disjunction(&mut self, parts: &[Cond], positive: bool) -> Result<(), AllocError> {
        if parts.is_empty() {
            self.gathered.never = true;
            return Ok(());
        }
        self.group(parts, positive, false)
    }

    // The words of a condition, or of its negation.
    #[cycle(words)]
    fn tree(&mut self, cond: &Cond, positive: bool) -> Result<(), AllocError> {
        match cond {
            Cond::Atom(a) => self.atom_word(*a, positive),
            Cond::Compare(how, x, y) => self.compare_word(*how, x, y, positive),
            Cond::Not(c) => self.tree(c, !positive),
            Cond::And(cs) => self.group(cs, positive, positive),
            Cond::Or(cs) => self.group(cs, positive, !positive),
        }
    }

    // The words of some conditions, or of their negations, of which all or one have to hold.
    #[cycle(words)]
    fn group(&mut self, conds: &[Cond], positive: bool, all: bool) -> Result<(), AllocError> {
        let open = self.words();
        self.gathered.words.push(Word::All(0))?;
        for c in conds {
            self.tree(c, positive)?;
        }
        self.close(open, all);
        Ok(())
    }

    // Gives a group the words behind its own.
    fn close(&mut self, open: usize, all: bool) {
        let inside = small(self.words().saturating_sub(open).saturating_sub(1));
        if let Some(word) = self.gathered.words.get_mut(open) {
            *word = if all {
                Word::All(inside)
            } else {
                Word::Any(inside)
            };
        }
    }

    fn atom_word(&mut self, atom: u32, positive: bool) -> Result<(), AllocError> {
        let place = self.atoms.of(atom);
        self.gathered.other_atoms.push(place)?;
        let word = if positive {
            Word::Holds(place)
        } else {
            Word::Lacks(place)
        };
        self.gathered.words.push(word)?;
        Ok(())
    }

    fn compare_word(
        &mut self,
        how: Comparison,
        x: &Expr,
        y: &Expr,
        positive: bool,
    ) -> Result<(), AllocError> {
        let compare = self.compare(how, x, y, positive)?;
        let number = self.next_other();
        self.gathered.others.push(compare)?;
        self.gathered.words.push(Word::Compare(number))?;
        Ok(())
    }
}
