//! The node that is expanded.

use crate::fault::SearchFault;
use crate::starts::{carry_out, holds};
use crate::store::{Start, push_copy};
use std::alloc::{AllocError, Global};
use tp_search_compiled::{Marks, Running, State, Task};

/// The node that is expanded: the steps that run past its tick, the events of its tick, the starts
/// that were chosen there, which conjuncts of the goal its own state meets, and the number of its
/// state once that is kept.
#[derive(Drop)]
pub struct Current {
    pub running: Vec<Running>,
    pub events: Vec<u32>,
    pub chain: Vec<Start>,
    pub met: Vec<bool>,
    pub kept: Option<u32>,
}

/// How many conjuncts of the goal a state lacks.
pub fn lacking(task: &Task, state: &State) -> Result<usize, SearchFault> {
    let mut count: usize = 0;
    for form in &task.conjuncts {
        if !holds(task, state, form)? {
            count = count.saturating_add(1);
        }
    }
    Ok(count)
}

impl Current {
    /// No node yet.
    pub fn new(alloc: Global) -> Self {
        Current {
            running: Vec::new(alloc),
            events: Vec::new(alloc),
            chain: Vec::new(alloc),
            met: Vec::new(alloc),
            kept: None,
        }
    }

    /// Begins with a node.
    pub fn clear(&mut self) {
        self.running.clear();
        self.events.clear();
        self.kept = None;
    }

    /// A step ends where it has no ticks left, else it goes on.
    pub fn take_run(
        &mut self,
        task: &Task,
        state: &mut State,
        run: Running,
    ) -> Result<(), SearchFault> {
        if run.left > 0 {
            push_copy(&mut self.running, run)?;
            return Ok(());
        }
        if let (Some(action), Some(event)) = (task.action(run.action), task.end_of(run.action)) {
            push_copy(&mut self.events, action.event.saturating_add(1))?;
            carry_out(task, state, event, run.duration)?;
        }
        Ok(())
    }

    // A chosen start happens, and where it lasts it runs.
    fn take_start(
        &mut self,
        task: &Task,
        state: &mut State,
        start: Start,
    ) -> Result<(), SearchFault> {
        let (Some(action), Some(event)) = (task.action(start.action), task.start_of(start.action))
        else {
            return Ok(());
        };
        push_copy(&mut self.events, action.event)?;
        carry_out(task, state, event, start.duration)?;
        if action.durative {
            push_copy(
                &mut self.running,
                Running {
                    action: start.action,
                    duration: start.duration,
                    left: start.duration,
                },
            )?;
        }
        Ok(())
    }

    /// The chosen starts happen.
    pub fn take_starts(&mut self, task: &Task, state: &mut State) -> Result<(), SearchFault> {
        for place in 0..self.chain.len() {
            if let Some(start) = self.chain.get(place).copied() {
                self.take_start(task, state, start)?;
            }
        }
        Ok(())
    }

    /// Finds which conjuncts the node's own state meets, and returns how many it lacks.
    pub fn find_met(&mut self, task: &Task, state: &State) -> Result<usize, SearchFault> {
        self.met.clear();
        let mut count: usize = 0;
        for form in &task.conjuncts {
            let met = holds(task, state, form)?;
            if !met {
                count = count.saturating_add(1);
            }
            push_copy(&mut self.met, met)?;
        }
        Ok(count)
    }

    /// How many conjuncts a state lacks in which only some of them may differ from the node's own,
    /// which lacks so many.
    pub fn lacking_with(
        &self,
        task: &Task,
        state: &State,
        touched: &[u32],
        lacking: usize,
    ) -> Result<usize, SearchFault> {
        let mut count = lacking;
        for number in touched {
            let before = self.met.get(*number as usize).copied().unwrap_or(true);
            let now = match task.conjuncts.get(*number as usize) {
                Some(form) => holds(task, state, form)?,
                None => before,
            };
            if before && !now {
                count = count.saturating_add(1);
            }
            if now && !before {
                count = count.saturating_sub(1);
            }
        }
        Ok(count)
    }

    /// Whether the invariants of all steps that run past the tick hold.
    pub fn invariants_hold(&self, task: &Task, state: &State) -> Result<bool, SearchFault> {
        for run in &self.running {
            if let Some(invariant) = task.invariant_of(run.action) {
                if !holds(task, state, invariant)? {
                    return Ok(false);
                }
            }
        }
        Ok(true)
    }

    /// The least number of ticks that a running step has left.
    pub fn least_left(&self) -> Option<u32> {
        self.running.iter().map(|run| run.left).min()
    }

    /// The running steps some ticks later, sorted.
    pub fn runs_after(&self, alloc: Global, ticks: u32) -> Result<Vec<Running>, AllocError> {
        let mut runs = Vec::new(alloc);
        for run in &self.running {
            runs.push(Running {
                left: run.left.saturating_sub(ticks),
                ..*run
            })?;
        }
        runs.sort_unstable();
        Ok(runs)
    }

    /// Marks the events of the tick.
    pub fn mark(&self, task: &Task, marks: &mut Marks) {
        for number in &self.events {
            if let Some(event) = task.event(*number) {
                marks.put(task, event);
            }
        }
    }

    /// Takes the marks of the tick's events away.
    pub fn wipe(&self, task: &Task, marks: &mut Marks) {
        for number in &self.events {
            if let Some(event) = task.event(*number) {
                marks.wipe(task, event);
            }
        }
    }
}

/// Whether no two of the ends that are due interfere.
pub fn ends_are_apart(task: &Task, marks: &mut Marks, runs: &[Running]) -> bool {
    let mut apart = true;
    for run in runs {
        if run.left == 0 {
            if let Some(event) = task.end_of(run.action) {
                apart = apart && !marks.interferes(task, event);
                marks.put(task, event);
            }
        }
    }
    for run in runs {
        if run.left == 0 {
            if let Some(event) = task.end_of(run.action) {
                marks.wipe(task, event);
            }
        }
    }
    apart
}
