//! Which step stands in which lane, and under which label.

use crate::picture::lengths::Length;
use crate::picture::letters::{PLAIN, cut, width};
use crate::picture::scene::{Scene, Step};
use std::alloc::{AllocError, Global};

/// The widest label of a step, and the widest name of a lane.
const WIDEST_LABEL: Length = Length(3_200);

const WIDEST_NAME: Length = Length(1_500);

/// The room of names where there is none, less than nothing.
const NO_NAMES: Length = Length(-120);

/// The name of the lane of all steps that have none of their own.
pub const OTHERS: &str = "others";

/// What stands before the refused commands.
pub const REFUSED: &str = "refused";

/// A lane: some steps, in the order of their starts.
#[derive(Drop)]
pub struct Lane {
    /// The first object of all of them, empty in the lane of the others.
    pub object: String,
    /// What of the name is shown.
    pub shown: String,
    pub steps: Vec<usize>,
}

/// The first object of a step, empty where it has none.
fn first_object(step: &Step) -> &str {
    match step.words.split(' ').nth(1) {
        Some(object) => object,
        None => "",
    }
}

/// The numbers of the steps, by their drawn starts.
fn in_order(alloc: Global, scene: &Scene) -> Result<Vec<usize>, AllocError> {
    let mut starts = Vec::new(alloc);
    for (number, step) in scene.steps.iter().enumerate() {
        starts.push((scene.start(step), number))?;
    }
    starts.sort_unstable();
    let mut order = Vec::new(alloc);
    for start in &starts {
        order.push(start.1)?;
    }
    Ok(order)
}

/// Whether an object is the first one of enough steps for a lane.
fn has_lane(scene: &Scene, object: &str) -> bool {
    let enough = (scene.steps.len().saturating_add(29) / 30).max(2);
    let mut count = 0usize;
    for step in &scene.steps {
        if first_object(step) == object {
            count = count.saturating_add(1);
        }
    }
    !object.is_empty() && enough <= count
}

/// The place of the lane of an object.
fn place_of(lanes: &[Lane], object: &str) -> Option<usize> {
    for (place, lane) in lanes.iter().enumerate() {
        if lane.object.as_str() == object {
            return Some(place);
        }
    }
    None
}

/// Puts a step into a lane that begins with it.
fn begin_lane(
    alloc: Global,
    lanes: &mut Vec<Lane>,
    object: &str,
    shown: &str,
    step: usize,
) -> Result<(), AllocError> {
    let object = String::from_str(alloc, object)?;
    let shown = cut(alloc, shown, WIDEST_NAME)?;
    let steps = vec![in alloc; step]?;
    let lane = Lane {
        object,
        shown,
        steps,
    };
    lanes.push(lane)?;
    Ok(())
}

/// Puts a step into the lane of an object.
fn put_into(
    alloc: Global,
    lanes: &mut Vec<Lane>,
    object: &str,
    shown: &str,
    step: usize,
) -> Result<(), AllocError> {
    match place_of(lanes, object) {
        Some(place) => match lanes.get_mut(place) {
            Some(lane) => {
                lane.steps.push(step)?;
                Ok(())
            }
            None => Ok(()),
        },
        None => begin_lane(alloc, lanes, object, shown, step),
    }
}

/// The lanes of the objects, in the order of their first steps, and behind them that of all other
/// steps.
pub fn lanes_of(alloc: Global, scene: &Scene) -> Result<Vec<Lane>, AllocError> {
    let mut lanes = Vec::new(alloc);
    let order = in_order(alloc, scene)?;
    for number in &order {
        let Some(step) = scene.steps.get(*number) else {
            continue;
        };
        let object = first_object(step);
        if has_lane(scene, object) {
            put_into(alloc, &mut lanes, object, object, *number)?;
        }
    }
    for number in &order {
        let Some(step) = scene.steps.get(*number) else {
            continue;
        };
        if !has_lane(scene, first_object(step)) {
            put_into(alloc, &mut lanes, "", OTHERS, *number)?;
        }
    }
    Ok(lanes)
}

/// Whether a lane has a name: none has where there is but that of the others.
pub fn are_named(lanes: &[Lane]) -> bool {
    match lanes.first() {
        Some(lane) => !lane.object.is_empty(),
        None => false,
    }
}

/// How much of the left of the page the names take up.
pub fn names_width(scene: &Scene, lanes: &[Lane]) -> Length {
    let mut widest = NO_NAMES;
    if are_named(lanes) {
        widest = width(OTHERS, PLAIN);
        for lane in lanes {
            widest = widest.max(width(lane.shown.as_str(), PLAIN));
        }
    }
    if scene.has_refusals() {
        widest = widest.max(width(REFUSED, PLAIN));
    }
    widest
}

/// The label of a step: in the lane of its first object it leaves that object out.
pub fn label_of(alloc: Global, scene: &Scene, step: &Step) -> Result<String, AllocError> {
    if !has_lane(scene, first_object(step)) {
        return cut(alloc, step.words.as_str(), WIDEST_LABEL);
    }
    let mut label = String::new(alloc);
    for (place, word) in step.words.split(' ').enumerate() {
        if place == 1 {
            continue;
        }
        if place > 1 {
            label.push(' ')?;
        }
        label.push_str(word)?;
    }
    cut(alloc, label.as_str(), WIDEST_LABEL)
}
