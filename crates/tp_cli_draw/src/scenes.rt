//! What a picture is of: the steps and events of a plan, with the moments and windows that an
//! executive tells.

use crate::named::Names;
use crate::picture::{Event, Order, Part, Run, Scene, Step};
use crate::replaying::Told;
use std::alloc::{AllocError, Global};
use tp_bounds::{BoundId, Point};
use tp_deorder::has_two;
use tp_exec_machine::{Executive, Kind, Refusal};
use tp_happen::Step as PlanStep;
use tp_net::Net;
use tp_repair::RepairNet;
use tp_task::{ActionId, Task};
use tp_text::Scale;

/// How many decimals a time has.
fn decimals_of(scale: Scale) -> u8 {
    match scale {
        Scale::One => 0,
        Scale::Ten => 1,
        Scale::Hundred => 2,
        Scale::Thousand => 3,
    }
}

/// The name and the objects of an action, with one space between.
fn words_of(alloc: Global, task: &Task, action: ActionId) -> Result<String, AllocError> {
    let text = task.action_text(action)?;
    let mut words = String::new(alloc);
    for letter in text.chars() {
        if letter != '(' && letter != ')' {
            words.push(letter)?;
        }
    }
    Ok(words)
}

/// The event of a step at its moment in the plan.
fn event_at(step: usize, part: Part, at: u32) -> Event {
    Event {
        step,
        part,
        at,
        low: at,
        high: at,
        happened: false,
        reported: None,
    }
}

/// Adds the events of a step. Answers the tick at which it ends in the plan.
fn add_events(
    events: &mut Vec<Event>,
    task: &Task,
    number: usize,
    step: &PlanStep,
) -> Result<u32, AllocError> {
    let end = step.tick.saturating_add(step.duration);
    if has_two(task, step.action) == Some(true) {
        events.push(event_at(number, Part::Start, step.tick))?;
        events.push(event_at(number, Part::End, end))?;
        return Ok(end);
    }
    events.push(event_at(number, Part::At, step.tick))?;
    Ok(step.tick)
}

/// Adds a step of a plan with its events.
fn add_step(
    alloc: Global,
    scene: &mut Scene,
    task: &Task,
    number: usize,
    step: &PlanStep,
) -> Result<(), AllocError> {
    let words = words_of(alloc, task, step.action)?;
    let first = scene.events.len();
    let end = add_events(&mut scene.events, task, number, step)?;
    let last = scene.events.len().saturating_sub(1);
    scene.steps.push(Step {
        words,
        start: step.tick,
        end,
        first,
        last,
    })?;
    Ok(())
}

/// The scene of a plan as it stands in its file, without windows and bounds.
fn plan_scene(
    alloc: Global,
    names: Names,
    task: &Task,
    steps: &[PlanStep],
    horizon: u32,
) -> Result<Scene, AllocError> {
    let Names { domain, problem } = names;
    let mut scene = Scene {
        domain,
        problem,
        decimals: decimals_of(task.scale),
        horizon,
        steps: Vec::new(alloc),
        events: Vec::new(alloc),
        orders: Vec::new(alloc),
        run: None,
    };
    for (number, step) in steps.iter().enumerate() {
        add_step(alloc, &mut scene, task, number, step)?;
    }
    Ok(scene)
}

/// The event of a point, none of tick 0.
fn event_of(point: Point) -> Option<u16> {
    match point {
        Point::Origin => None,
        Point::Event(event) => Some(event),
    }
}

/// Adds the bounds in force, by rising identifier.
fn add_orders(scene: &mut Scene, executive: &Executive<RepairNet>) -> Result<(), AllocError> {
    for id in 0..executive.next() {
        if let Some(bound) = executive.net().bound(BoundId(id)) {
            scene.orders.push(Order {
                id,
                from: event_of(bound.from),
                to: event_of(bound.to),
                weight: bound.w,
            })?;
        }
    }
    Ok(())
}

/// Sets the windows of the events.
fn set_windows(scene: &mut Scene, executive: &Executive<RepairNet>) {
    let mut number = 0u16;
    for event in scene.events.iter_mut() {
        if let Ok((low, high)) = executive.window(number) {
            event.low = low;
            event.high = high;
        }
        number = number.saturating_add(1);
    }
}

/// Sets the moments of the events, and which of them happened, to what the executive reports.
/// Answers now, and whether a bound of the plan was withdrawn.
fn set_moments(
    scene: &mut Scene,
    executive: &Executive<RepairNet>,
) -> Result<(u32, bool), Refusal> {
    let report = executive.report()?;
    for (event, moment) in scene.events.iter_mut().zip(&report.moments) {
        event.at = moment.0;
        event.happened = moment.1;
    }
    Ok((report.now, report.kind == Kind::Altered))
}

/// Sets which events were reported after they happened.
fn set_reports(scene: &mut Scene, reported: &[Option<u32>]) {
    for (event, at) in scene.events.iter_mut().zip(reported) {
        event.reported = *at;
    }
}

/// Adds what a journal says, whose commands led the executive to where it is.
fn add_run(
    scene: &mut Scene,
    executive: &Executive<RepairNet>,
    told: Told,
) -> Result<(), AllocError> {
    let Told {
        commands,
        reported,
        refused,
    } = told;
    let Ok((now, altered)) = set_moments(scene, executive) else {
        return Err(AllocError);
    };
    set_reports(scene, &reported);
    scene.run = Some(Run {
        now,
        commands,
        altered,
        refused,
    });
    Ok(())
}

/// What the picture of a plan is of, over an executive of its network; with what a journal says,
/// that of the run.
pub(crate) fn scene_of(
    alloc: Global,
    names: Names,
    task: &Task,
    steps: &[PlanStep],
    executive: &Executive<RepairNet>,
    told: Option<Told>,
) -> Result<Scene, AllocError> {
    let horizon = executive.net().horizon();
    let mut scene = plan_scene(alloc, names, task, steps, horizon)?;
    set_windows(&mut scene, executive);
    add_orders(&mut scene, executive)?;
    match told {
        Some(told) => add_run(&mut scene, executive, told)?,
        None => {}
    }
    Ok(scene)
}
