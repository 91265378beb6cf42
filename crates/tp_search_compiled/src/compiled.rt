//! A ground task, made into flat lists.

use crate::places::{Places, all_places};
use crate::spans::small;
use crate::task::{Form, Task};
use crate::values::UNDEFINED;
use crate::writing::Writer;
use std::alloc::{AllocError, Global};
use tp_task::Cond;

fn true_atoms(alloc: Global, truths: &[bool], places: &Places) -> Result<Vec<u32>, AllocError> {
    let mut atoms = Vec::new(alloc);
    for (truth, place) in truths.iter().zip(&places.places) {
        if *truth {
            atoms.push(*place)?;
        }
    }
    Ok(atoms)
}

fn first_numbers(
    alloc: Global,
    numbers: &[Option<i64>],
    places: &Places,
) -> Result<Vec<i64>, AllocError> {
    let mut values = Vec::from_elem(alloc, UNDEFINED, numbers.len())?;
    for (number, place) in numbers.iter().zip(&places.places) {
        if let Some(at) = values.get_mut(*place as usize) {
            *at = number.unwrap_or(UNDEFINED);
        }
    }
    Ok(values)
}

// A task without conditions and events.
fn begun(
    alloc: Global,
    task: &tp_task::Task,
    horizon: u32,
    atoms: &Places,
    fluents: &Places,
) -> Result<Task, AllocError> {
    Ok(Task {
        scale: task.scale.ticks(),
        horizon,
        atoms: small(atoms.places.len()),
        changing_atoms: atoms.changing,
        fluents: small(fluents.places.len()),
        changing_fluents: fluents.changing,
        lists: Vec::new(alloc),
        compares: Vec::new(alloc),
        words: Vec::new(alloc),
        code: Vec::new(alloc),
        writes: Vec::new(alloc),
        rules: Vec::new(alloc),
        events: Vec::new(alloc),
        invariants: Vec::new(alloc),
        actions: Vec::new(alloc),
        init: true_atoms(alloc, &task.initial_atoms, atoms)?,
        numbers: first_numbers(alloc, &task.initial_numbers, fluents)?,
        goal: Form::EMPTY,
        conjuncts: Vec::new(alloc),
    })
}

fn add_conjunct(writer: &mut Writer, cond: &Cond) -> Result<(), AllocError> {
    let form = writer.form(cond)?;
    writer.task.conjuncts.push(form)?;
    Ok(())
}

fn add_conjuncts(writer: &mut Writer, goal: &Cond) -> Result<(), AllocError> {
    match goal {
        Cond::And(conds) => {
            for cond in conds {
                add_conjunct(writer, cond)?;
            }
            Ok(())
        }
        _ => add_conjunct(writer, goal),
    }
}

fn add_actions(writer: &mut Writer, task: &tp_task::Task, kept: &[bool]) -> Result<(), AllocError> {
    let mut number: u32 = 0;
    for (body, keep) in task.actions.iter().zip(kept) {
        if *keep {
            writer.action(number, body)?;
        }
        number = number.saturating_add(1);
    }
    Ok(())
}

impl Task {
    /// A ground task with those of its actions that are kept, in their order, in which no step ends
    /// behind the horizon. It takes the time and memory of their conditions and effects.
    pub fn new(
        alloc: Global,
        task: &tp_task::Task,
        kept: &[bool],
        horizon: u32,
    ) -> Result<Task, AllocError> {
        let (atoms, fluents) = all_places(alloc, task, kept)?;
        let begun = begun(alloc, task, horizon, &atoms, &fluents)?;
        let mut writer = Writer::new(alloc, begun, atoms, fluents);
        let goal = writer.form(&task.goal)?;
        writer.task.goal = goal;
        add_conjuncts(&mut writer, &task.goal)?;
        add_actions(&mut writer, task, kept)?;
        Ok(writer.into_task())
    }
}
