//! What is looked up in the relaxed task, once all propositions and operators are there.

use crate::comparing::{mention_of, push_fluents};
use crate::conjuncts::Builder;
use crate::making::ActionOps;
use crate::relaxed::{Compared, Relaxed};
use std::alloc::{AllocError, Global};
use tp_search_compiled::{Lists, NONE, Task, lists_of, small};

// The operators that need each proposition.
fn users_of(alloc: Global, pre: &Lists, props: u32) -> Result<Lists, AllocError> {
    let mut pairs = Vec::new(alloc);
    for op in 0..small(pre.count()) {
        push_pairs(pre.of(op), op, &mut pairs)?;
    }
    lists_of(alloc, props as usize, &pairs)
}

fn push_pairs(keys: &[u32], item: u32, into: &mut Vec<(u32, u32)>) -> Result<(), AllocError> {
    for key in keys {
        into.push((*key, item))?;
    }
    Ok(())
}

// Which propositions the goal or an operator needs.
fn needed(
    alloc: Global,
    users: &Lists,
    props: u32,
    goal: Option<&Vec<u32>>,
) -> Result<Vec<bool>, AllocError> {
    let mut needed = Vec::with_capacity(alloc, props as usize)?;
    for prop in 0..props {
        needed.push(!users.of(prop).is_empty())?;
    }
    if let Some(goal) = goal {
        for prop in goal {
            if let Some(at) = needed.get_mut(*prop as usize) {
                *at = true;
            }
        }
    }
    Ok(needed)
}

// What each operator adds that is needed.
fn needed_adds(alloc: Global, adds: &Lists, needed: &[bool]) -> Result<Lists, AllocError> {
    let mut kept = Lists::new(alloc);
    let mut some = Vec::new(alloc);
    for op in 0..small(adds.count()) {
        some.clear();
        push_needed(adds.of(op), needed, &mut some)?;
        kept.push(&some)?;
    }
    Ok(kept)
}

fn push_needed(props: &[u32], needed: &[bool], into: &mut Vec<u32>) -> Result<(), AllocError> {
    for prop in props {
        if needed.get(*prop as usize).copied().unwrap_or(false) {
            into.push(*prop)?;
        }
    }
    Ok(())
}

// For each proposition its comparison.
fn compare_of(alloc: Global, compares: &[Compared], props: u32) -> Result<Vec<u32>, AllocError> {
    let mut numbers = Vec::from_elem(alloc, NONE, props as usize)?;
    let mut number: u32 = 0;
    for compared in compares {
        if let Some(at) = numbers.get_mut(compared.prop as usize) {
            *at = number;
        }
        number = number.saturating_add(1);
    }
    Ok(numbers)
}

/// For fluents the comparisons that a lesser and a greater value may help.
#[derive(Drop)]
struct Helped {
    fall: Vec<(u32, u32)>,
    rise: Vec<(u32, u32)>,
}

impl Helped {
    fn push(
        &mut self,
        task: &Task,
        number: u32,
        compared: &Compared,
        fluent: u32,
    ) -> Result<(), AllocError> {
        let mention = mention_of(task, &compared.compare, fluent);
        if mention.fall {
            self.fall.push((fluent, number))?;
        }
        if mention.rise {
            self.rise.push((fluent, number))?;
        }
        Ok(())
    }

    fn push_all(
        &mut self,
        task: &Task,
        number: u32,
        compared: &Compared,
        fluents: &mut Vec<u32>,
    ) -> Result<(), AllocError> {
        fluents.clear();
        push_fluents(task, compared.compare.a, fluents)?;
        push_fluents(task, compared.compare.b, fluents)?;
        fluents.sort_unstable();
        fluents.dedup();
        for fluent in fluents.iter() {
            self.push(task, number, compared, *fluent)?;
        }
        Ok(())
    }
}

fn find_helped(alloc: Global, task: &Task, compares: &[Compared]) -> Result<Helped, AllocError> {
    let mut helped = Helped {
        fall: Vec::new(alloc),
        rise: Vec::new(alloc),
    };
    let mut fluents = Vec::new(alloc);
    let mut number: u32 = 0;
    for compared in compares {
        helped.push_all(task, number, compared, &mut fluents)?;
        number = number.saturating_add(1);
    }
    Ok(helped)
}

// Adds an operator for each fluent that the right sides of its event read.
fn push_reads(
    task: &Task,
    event: u32,
    op: u32,
    fluents: &mut Vec<u32>,
    into: &mut Vec<(u32, u32)>,
) -> Result<(), AllocError> {
    fluents.clear();
    if let Some(event) = task.event(event) {
        for to in task.writes_of(event) {
            push_fluents(task, to.value, fluents)?;
        }
    }
    push_pairs(fluents, op, into)
}

// For each fluent the operators whose right sides read it.
fn readers_of(alloc: Global, task: &Task, events: &[u32]) -> Result<Lists, AllocError> {
    let mut pairs = Vec::new(alloc);
    let mut fluents = Vec::new(alloc);
    let mut op: u32 = 0;
    for event in events {
        push_reads(task, *event, op, &mut fluents, &mut pairs)?;
        op = op.saturating_add(1);
    }
    lists_of(alloc, task.fluents as usize, &pairs)
}

// The operators that need nothing.
fn free_of(alloc: Global, pre: &Lists) -> Result<Vec<u32>, AllocError> {
    let mut free = Vec::new(alloc);
    for op in 0..small(pre.count()) {
        if pre.of(op).is_empty() {
            free.push(op)?;
        }
    }
    Ok(free)
}

/// What an operator adds, who needs it, and which need nothing.
#[derive(Drop)]
struct Links {
    adds: Lists,
    users: Lists,
    free: Vec<u32>,
}

fn find_links(
    alloc: Global,
    builder: &Builder<'_>,
    goal: Option<&Vec<u32>>,
) -> Result<Links, AllocError> {
    let users = users_of(alloc, &builder.pre, builder.props)?;
    let needed = needed(alloc, &users, builder.props, goal)?;
    let adds = needed_adds(alloc, &builder.adds, &needed)?;
    let free = free_of(alloc, &builder.pre)?;
    Ok(Links { adds, users, free })
}

/// How comparisons and right sides depend on fluents.
#[derive(Drop)]
struct Numeric {
    compare_of: Vec<u32>,
    fall: Lists,
    rise: Lists,
    readers: Lists,
}

fn find_numeric(alloc: Global, builder: &Builder<'_>) -> Result<Numeric, AllocError> {
    let task = builder.task;
    let helped = find_helped(alloc, task, &builder.compares)?;
    let fluents = task.fluents as usize;
    Ok(Numeric {
        compare_of: compare_of(alloc, &builder.compares, builder.props)?,
        fall: lists_of(alloc, fluents, &helped.fall)?,
        rise: lists_of(alloc, fluents, &helped.rise)?,
        readers: readers_of(alloc, task, &builder.event)?,
    })
}

/// The relaxed task of all propositions and operators.
pub fn finish(
    alloc: Global,
    builder: Builder<'_>,
    all: ActionOps,
    goal: Option<Vec<u32>>,
) -> Result<Relaxed, AllocError> {
    let links = find_links(alloc, &builder, goal.as_ref())?;
    let numeric = find_numeric(alloc, &builder)?;
    Ok(Relaxed {
        atoms: builder.task.changing_atoms,
        props: builder.props,
        pre: builder.pre,
        adds: links.adds,
        users: links.users,
        event: builder.event,
        action: builder.action,
        free: links.free,
        start_op: all.start_op,
        end_op: all.end_op,
        running: all.running,
        compares: builder.compares,
        compare_of: numeric.compare_of,
        helped_by_fall: numeric.fall,
        helped_by_rise: numeric.rise,
        defined: builder.defined,
        readers: numeric.readers,
        goal,
    })
}
