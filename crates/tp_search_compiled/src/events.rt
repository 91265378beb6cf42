//! Events and actions.

use crate::spans::{Span, small};
use crate::task::{Action, Event, Form, Rule, Write, WriteTo};
use crate::values::Op;
use crate::writing::{Writer, append};
use std::alloc::AllocError;
use tp_task::{Body, Change, Cond, GroundEvent, Limit, NumericEffect};

fn write_of(change: Change) -> Write {
    match change {
        Change::Assign => Write::Assign,
        Change::ScaleUp => Write::ScaleUp,
        Change::Increase => Write::Increase,
        Change::Decrease => Write::Decrease,
    }
}

// Whether one fluent stands twice among those that are written, by rising number, and is set.
fn sets_twice(written: &[(u32, bool)]) -> bool {
    written.iter().zip(written.iter().skip(1)).any(|(first, second)| first.0 == second.0
        && (first.1 || second.1))
}

fn tail(lists: &[u32], at: usize) -> Span {
    Span::between(at, lists.len())
}

impl Writer {
    /// An action of the ground task.
    pub fn action(&mut self, number: u32, body: &Body) -> Result<(), AllocError> {
        let action = match body {
            Body::Instant(only) => self.instant(number, only)?,
            Body::Durative(start, end, invariant) => {
                self.durative(number, start, end, invariant)?
            }
        };
        self.task.actions.push(action)?;
        Ok(())
    }

    fn instant(&mut self, number: u32, only: &GroundEvent) -> Result<Action, AllocError> {
        let event = small(self.task.events.len());
        let (rule, duration) = self.event(only)?;
        Ok(Action {
            number,
            event,
            durative: false,
            invariant: 0,
            rule,
            duration,
        })
    }

    fn durative(
        &mut self,
        number: u32,
        start: &GroundEvent,
        end: &GroundEvent,
        invariant: &Cond,
    ) -> Result<Action, AllocError> {
        let event = small(self.task.events.len());
        let (rule, at_start) = self.event(start)?;
        let (_, at_end) = self.event(end)?;
        Ok(Action {
            number,
            event,
            durative: true,
            invariant: self.invariant(invariant)?,
            rule,
            duration: at_start || at_end,
        })
    }

    fn invariant(&mut self, invariant: &Cond) -> Result<u32, AllocError> {
        let form = self.form(invariant)?;
        let number = small(self.task.invariants.len());
        self.task.invariants.push(form)?;
        Ok(number)
    }

    // An event; its duration constraint, and whether a right side mentions the duration.
    fn event(&mut self, event: &GroundEvent) -> Result<(Span, bool), AllocError> {
        let cond = self.form(&event.condition)?;
        let adds = self.atoms_of(&event.adds)?;
        let dels = self.atoms_of(&event.deletes)?;
        let (rule, made) = self.numbers(event, cond)?;
        let duration = made.duration;
        self.task.events.push(Event { adds, dels, ..made })?;
        Ok((rule, duration))
    }

    fn atoms_of(&mut self, atoms: &[u32]) -> Result<Span, AllocError> {
        let at = self.task.lists.len();
        for a in atoms {
            let place = self.atoms.of(*a);
            self.task.lists.push(place)?;
        }
        Ok(tail(&self.task.lists, at))
    }

    // The duration constraint of an event, and the event but for its atoms.
    fn numbers(&mut self, event: &GroundEvent, cond: Form) -> Result<(Span, Event), AllocError> {
        self.reads.clear();
        self.duration = false;
        let writes = self.writes(&event.writes)?;
        let duration = self.duration;
        let from = self.reads.len();
        let rule = self.rules(&event.constraint)?;
        let made = Event {
            cond,
            adds: Span::EMPTY,
            dels: Span::EMPTY,
            writes,
            reads: Span::EMPTY,
            ruled: Span::EMPTY,
            needs: Span::EMPTY,
            clash: self.clashes(writes)?,
            duration,
        };
        Ok((rule, self.with_reads(made, from)?))
    }

    fn writes(&mut self, effects: &[NumericEffect]) -> Result<Span, AllocError> {
        let at = self.task.writes.len();
        for effect in effects {
            let value = self.value(&effect.value)?;
            let fluent = self.fluents.of(effect.fluent);
            self.task.writes.push(WriteTo {
                op: write_of(effect.change),
                fluent,
                value,
            })?;
        }
        Ok(Span::between(at, self.task.writes.len()))
    }

    fn rules(&mut self, limits: &[Limit]) -> Result<Span, AllocError> {
        let at = self.task.rules.len();
        for limit in limits {
            let value = self.value(&limit.value)?;
            let op = Op::of(limit.how, true);
            self.task.rules.push(Rule { op, value })?;
        }
        Ok(Span::between(at, self.task.rules.len()))
    }

    // An event with the fluents that it reads, of which its duration constraint reads those from a
    // place on, and those that it changes by what they were.
    fn with_reads(&mut self, event: Event, ruled: usize) -> Result<Event, AllocError> {
        let reads = append(&mut self.task.lists, &self.reads)?;
        let at = reads.at as usize;
        for effect in crate::spans::part(&self.task.writes, event.writes) {
            if effect.op != Write::Assign {
                self.task.lists.push(effect.fluent)?;
            }
        }
        let first = at.saturating_add(ruled);
        let last = at.saturating_add(reads.count as usize);
        Ok(Event {
            reads,
            ruled: Span::between(first, last),
            needs: tail(&self.task.lists, at),
            ..event
        })
    }

    // Whether writes set a fluent that they write twice.
    fn clashes(&mut self, writes: Span) -> Result<bool, AllocError> {
        self.written.clear();
        for effect in crate::spans::part(&self.task.writes, writes) {
            self.written.push((effect.fluent, !effect.op.sums()))?;
        }
        self.written.sort_unstable();
        Ok(sets_twice(&self.written))
    }
}
