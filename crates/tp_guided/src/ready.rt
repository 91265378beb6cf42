//! A task as the rounds search it.

use crate::deadlines::least_ticks;
use std::alloc::{AllocError, Global};
use tp_guided_costs::{Heuristic, Relaxed, build};
use tp_search_compiled::{State, Task, Watched, small};
use tp_task::{Body, met, reach};

/// A task, its relaxed task, the actions that wait for atoms, and the ticks that each action lasts
/// at least.
#[derive(Drop)]
pub struct Ready {
    pub task: Task,
    pub relaxed: Relaxed,
    pub watched: Watched,
    pub least: Vec<u32>,
}

// The actions whose start and end the relaxed task reaches.
fn live_actions(alloc: Global, task: &Task, start: &State) -> Result<Vec<bool>, AllocError> {
    let relaxed = build(alloc, task, start, None)?;
    let mut value = Heuristic::new(alloc, task, &relaxed, false)?;
    value.evaluate(start, &[], 0)?;
    let mut live = Vec::new(alloc);
    for action in 0..small(task.actions.len()) {
        live.push(value.is_reached(action))?;
    }
    Ok(live)
}

fn can_happen(reach: &[bool], body: &Body) -> bool {
    match body {
        Body::Instant(only) => met(reach, true, &only.condition),
        Body::Durative(start, end, invariant) => {
            met(reach, true, &start.condition)
                && met(reach, true, &end.condition)
                && met(reach, true, invariant)
        }
    }
}

// For each action whether its start, its end and its invariant are met in the relaxed reach.
fn in_reach(alloc: Global, task: &tp_task::Task, reach: &[bool]) -> Result<Vec<bool>, AllocError> {
    let mut kept = Vec::with_capacity(alloc, task.actions.len())?;
    for body in &task.actions {
        kept.push(can_happen(reach, body))?;
    }
    Ok(kept)
}

// The actions of a ground task that can be carried out as far as its relaxed reach says.
fn kept_task(alloc: Global, task: &tp_task::Task, horizon: u32) -> Result<Task, AllocError> {
    let reached = reach(alloc, task)?;
    let kept = in_reach(alloc, task, &reached)?;
    Task::new(alloc, task, &kept, horizon)
}

impl Ready {
    /// What a search of a ground task needs, in which no step ends past a horizon.
    pub fn new(alloc: Global, task: &tp_task::Task, horizon: u32) -> Result<Self, AllocError> {
        let task = kept_task(alloc, task, horizon)?;
        let start = State::initial(alloc, &task)?;
        let live = live_actions(alloc, &task, &start)?;
        let relaxed = build(alloc, &task, &start, Some(&live))?;
        let watched = Watched::new(alloc, &task, &start, &live)?;
        let least = least_ticks(alloc, &task)?;
        Ok(Ready {
            task,
            relaxed,
            watched,
            least,
        })
    }
}
