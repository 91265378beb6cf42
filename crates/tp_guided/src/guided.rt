//! The rounds of a task.

use crate::ready::Ready;
use crate::rounds::Rounds;
use crate::search::{Outcome, Search};
use std::alloc::{AllocError, Global};
use tp_guided_walk::Chosen;
use tp_happen::Step;
use tp_task::{ActionId, Task};

/// What a search for a plan came to. The plan is a proposal: nothing is claimed of it.
#[derive(Drop)]
pub struct Proposal {
    /// The steps of the plan that was found.
    pub steps: Option<Vec<Step>>,
    /// How many nodes were expanded.
    pub spent: u32,
    /// Whether rounds had no node left, so that no further one is tried.
    pub exhausted: bool,
}

/// A guided search of a task.
#[derive(Drop)]
pub struct Guided<'t> {
    alloc: Global,
    source: &'t Task,
    ready: Ready,
    rounds: Rounds,
    horizon: u32,
}

impl<'t> Guided<'t> {
    /// The search of a task for plans that end by a horizon.
    pub fn new(alloc: Global, task: &'t Task, horizon: u32) -> Result<Guided<'t>, AllocError> {
        let ready = Ready::new(alloc, task, horizon)?;
        Ok(Guided {
            alloc,
            source: task,
            ready,
            rounds: Rounds::new(),
            horizon,
        })
    }

    /// Searches in rounds until a plan is found, `budget` nodes are expanded, or rounds have no
    /// node left; where `before` is given, for a plan that ends before it. The next call goes on
    /// with the next round.
    pub fn seek(&mut self, budget: u32, before: Option<u32>) -> Result<Proposal, AllocError> {
        let bound = match before {
            None => self.horizon,
            Some(0) => return Ok(no_plan(0, true)),
            Some(end) => self.horizon.min(end.saturating_sub(1)),
        };
        let better = before.is_some();
        let mut spent: u32 = 0;
        for _ in 0..u32::MAX {
            let left = budget.saturating_sub(spent);
            let outcome = self.run_round(left, bound, better)?;
            spent = spent.saturating_add(outcome.spent);
            if let Some(path) = &outcome.path {
                self.rounds.note_plan();
                let steps = self.steps_of(path)?;
                return Ok(Proposal {
                    steps: Some(steps),
                    spent,
                    exhausted: false,
                });
            }
            let ends = self.rounds.note_none(outcome.empty, better);
            if ends || spent >= budget {
                return Ok(no_plan(spent, ends));
            }
        }
        Ok(no_plan(spent, false))
    }

    fn run_round(&self, left: u32, bound: u32, better: bool) -> Result<Outcome, AllocError> {
        let round = self.rounds.next(left, bound, better);
        let mut search = Search::new(self.alloc, &self.ready, round)?;
        search.run()
    }

    fn steps_of(&self, path: &[Chosen]) -> Result<Vec<Step>, AllocError> {
        let mut steps = Vec::with_capacity(self.alloc, path.len())?;
        for chosen in path {
            steps.push(self.step_of(chosen))?;
        }
        Ok(steps)
    }

    fn step_of(&self, chosen: &Chosen) -> Step {
        let choice = chosen.choice;
        let number = match self.ready.task.action(choice.action) {
            Some(action) => action.number,
            None => choice.action,
        };
        Step {
            tick: chosen.tick,
            action: ActionId(number),
            duration: choice.duration,
        }
    }
}

fn no_plan(spent: u32, exhausted: bool) -> Proposal {
    Proposal {
        steps: None,
        spent,
        exhausted,
    }
}
