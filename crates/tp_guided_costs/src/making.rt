//! All of the relaxed task.

use crate::conjuncts::Builder;
use crate::events::{NO_OPS, Ops};
use crate::linking::finish;
use crate::relaxed::Relaxed;
use std::alloc::{AllocError, Global};
use tp_search_compiled::{Action, State, Task};

/// The operators of each action.
#[derive(Drop)]
pub struct ActionOps {
    pub start_op: Vec<u32>,
    pub end_op: Vec<u32>,
    pub running: Vec<u32>,
}

impl ActionOps {
    fn push(&mut self, ops: Ops) -> Result<(), AllocError> {
        self.start_op.push(ops.start)?;
        self.end_op.push(ops.end)?;
        self.running.push(ops.running)?;
        Ok(())
    }
}

fn is_live(live: Option<&[bool]>, number: u32) -> bool {
    match live {
        Some(live) => live.get(number as usize).copied().unwrap_or(false),
        None => true,
    }
}

fn ops_if(
    builder: &mut Builder<'_>,
    number: u32,
    action: &Action,
    live: bool,
) -> Result<Ops, AllocError> {
    if live {
        builder.ops_of(number, action)
    } else {
        Ok(NO_OPS)
    }
}

fn add_actions(
    builder: &mut Builder<'_>,
    live: Option<&[bool]>,
    all: &mut ActionOps,
) -> Result<(), AllocError> {
    let task = builder.task;
    let mut number: u32 = 0;
    for action in &task.actions {
        let ops = ops_if(builder, number, action, is_live(live, number))?;
        all.push(ops)?;
        number = number.saturating_add(1);
    }
    Ok(())
}

fn goal_of(alloc: Global, builder: &mut Builder<'_>) -> Result<Option<Vec<u32>>, AllocError> {
    let task = builder.task;
    let mut goal = Vec::new(alloc);
    if builder.conjuncts(&task.goal, &mut goal)? {
        Ok(Some(goal))
    } else {
        Ok(None)
    }
}

/// The relaxed task of those actions that are live, of all where there is no list, for a task that
/// begins in a state. It takes the time and memory of their conditions and effects.
pub fn build(
    alloc: Global,
    task: &Task,
    start: &State,
    live: Option<&[bool]>,
) -> Result<Relaxed, AllocError> {
    let mut builder = Builder::new(alloc, task, start)?;
    let mut all = ActionOps {
        start_op: Vec::new(alloc),
        end_op: Vec::new(alloc),
        running: Vec::new(alloc),
    };
    add_actions(&mut builder, live, &mut all)?;
    let goal = goal_of(alloc, &mut builder)?;
    finish(alloc, builder, all, goal)
}
