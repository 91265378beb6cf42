//! Plans that are printed, and read again.

use std::alloc::Global;
use std::process::Abort;
use std::test::Fail;
use tp_device::{Failed, ToWrite};
use tp_happen::{Plan, print_plan, read_plan};
use tp_task::Task;
use tp_testkit::{CHARGES, World, task_of};
use tp_text::Scale;

const PLAN: &str = "0.001:(CHARGE) [4.0];\n\n2 : ( rest ) [0.05]";

const PRINTED: &str = "0.001: (charge) [4.000]\n2.000: (rest) [0.050]\n";

/// What printing to so much room answers.
fn plan_in(plan: &Plan, task: &Task, room: &mut [u8]) -> Result<(), Failed> {
    let mut sink = ToWrite::new(room);
    print_plan(plan, task, &mut sink)
}

/// Whether too little room gets the first bytes of the text.
fn is_cut_off(alloc: Global, plan: &Plan, task: &Task, length: usize) -> Result<bool, Fail> {
    let mut room = vec![in alloc; 0u8; length]?;
    let printed = plan_in(plan, task, room.as_mut_slice());
    Ok(printed == Err(Failed) && PRINTED.as_bytes().starts_with(room.as_slice()))
}

/// Whether room of zeros gets just that text.
fn is_printed(plan: &Plan, task: &Task) -> bool {
    let mut room = [0; 64];
    let printed = plan_in(plan, task, room.as_mut_slice());
    printed == Ok(())
        && room.starts_with(PRINTED.as_bytes())
        && room.iter().skip(PRINTED.len()).all(|byte| *byte == 0)
}

fn is_read_and_printed(rt: &impl Abort, alloc: Global, task: &Task) -> Result<(), Fail> {
    let plan = read_plan(alloc, PLAN, task)?;
    let again = read_plan(alloc, PRINTED, task)?;
    assert!(rt; is_printed(&plan, task) && again.steps() == plan.steps());
    for length in 0..PRINTED.len() {
        assert!(rt; is_cut_off(alloc, &plan, task, length)?, "{length}");
    }
    Ok(())
}

#[test]
fn plans_are_printed_and_read_again(rt: HostRuntime) -> Result<(), Fail> {
    let world = World {
        scale: Scale::Thousand,
        horizon: 1_000_000,
        ..CHARGES
    };
    let task = task_of(rt.alloc(), world)?;
    is_read_and_printed(&rt, rt.alloc(), &task)
}
