//! What each step takes up of its row: its bar, the whiskers of its windows, and its label.

use crate::picture::axis::{Axis, MARGIN, WIDTH};
use crate::picture::lanes::label_of;
use crate::picture::lengths::Length;
use crate::picture::letters::{SMALL, cut, width};
use crate::picture::scene::{Event, Scene, Step};
use std::alloc::{AllocError, Global};

/// The least width of a bar, and half of that of an instantaneous step.
const LEAST_BAR: Length = Length(30);

const HALF_INSTANT: Length = Length(50);

/// How far the tip of a whisker that is cut off lies behind its event.
const TIP: Length = Length(160);

/// What is left over at both ends of a label in a bar, and between a bar and a label beside it.
const INSIDE: Length = Length(40);

const BESIDE: Length = Length(50);

/// A whisker: from the least to the greatest moment of an event.
#[derive(Clone, Copy, Debug, Drop)]
pub struct Whisker {
    pub low: Length,
    pub high: Length,
    /// Whether the window goes on past the edge of the page.
    pub past: bool,
}

/// Where the label of a step stands.
#[derive(Clone, Copy, Debug, PartialEq, Eq)]
pub enum Side {
    /// In the dark part of its bar.
    Dark,
    /// In the white part.
    White,
    Right,
    Left,
}

/// A step on the page.
#[derive(Drop)]
pub struct Placed {
    /// The left and the right end of its bar, and where the bar turns from dark to white.
    pub left: Length,
    pub right: Length,
    pub turn: Length,
    /// All that it takes up of its row.
    pub from: Length,
    pub to: Length,
    /// The top of its bar.
    pub y: Length,
    pub label: String,
    pub side: Side,
    /// Where the label begins, or ends if it stands left.
    pub label_x: Length,
}

/// The whisker of an event, where its window is more than one moment and it has not happened.
pub fn whisker_of(axis: &Axis, event: &Event) -> Option<Whisker> {
    if event.happened || event.low == event.high {
        return None;
    }
    let past = event.high > axis.edge;
    Some(Whisker {
        low: axis.x(event.low),
        high: if past {
            axis.x(event.at) + TIP
        } else {
            axis.x(event.high)
        },
        past,
    })
}

/// The ends of the bar of a step.
fn ends_of(axis: &Axis, scene: &Scene, step: &Step) -> (Length, Length) {
    let start = axis.x(scene.start(step));
    if step.is_instant() {
        return (start - HALF_INSTANT, start + HALF_INSTANT);
    }
    let end = axis.x(scene.event(step.last).at);
    (start, end.max(start + LEAST_BAR))
}

/// Where the bar of a step turns from dark to white.
fn turn_of(axis: &Axis, scene: &Scene, step: &Step, left: Length, right: Length) -> Length {
    if scene.event(step.last).happened {
        return right;
    }
    if scene.event(step.first).happened {
        return axis.x(scene.now()).max(left).min(right);
    }
    left
}

/// What a bar takes up with the whisker of an event and the time until it was reported.
fn with_event(axis: &Axis, event: &Event, from: Length, to: Length) -> (Length, Length) {
    let (mut from, mut to) = (from, to);
    if let Some(whisker) = whisker_of(axis, event) {
        from = from.min(whisker.low);
        to = to.max(whisker.high);
    }
    if let Some(reported) = event.reported {
        to = to.max(axis.x(reported));
    }
    (from, to)
}

/// A step with its bar and its whiskers, whose label is still to be placed.
fn bar_of(axis: &Axis, scene: &Scene, step: &Step, label: String) -> Placed {
    let (left, right) = ends_of(axis, scene, step);
    let turn = turn_of(axis, scene, step, left, right);
    let (from, to) = with_event(axis, &scene.event(step.first), left, right);
    let (from, to) = with_event(axis, &scene.event(step.last), from, to);
    Placed {
        left,
        right,
        turn,
        from,
        to,
        y: Length(0),
        label,
        side: Side::Dark,
        label_x: left,
    }
}

/// Puts a label into the bar: into the dark part if it fits there, or if that is the wider one.
fn place_inside(alloc: Global, placed: &mut Placed, wide: Length) -> Result<(), AllocError> {
    let dark = placed.turn - placed.left - INSIDE - INSIDE;
    let white = placed.right - placed.turn - INSIDE - INSIDE;
    let room = if wide <= dark || dark >= white {
        placed.side = Side::Dark;
        placed.label_x = placed.left + INSIDE;
        dark
    } else {
        placed.side = Side::White;
        placed.label_x = placed.turn + INSIDE;
        white
    };
    placed.label = cut(alloc, placed.label.as_str(), room)?;
    Ok(())
}

/// Whether a label fits into the bar of a step with a duration.
fn fits_inside(placed: &Placed, step: &Step, wide: Length) -> bool {
    let dark = placed.turn - placed.left - INSIDE - INSIDE;
    let white = placed.right - placed.turn - INSIDE - INSIDE;
    !step.is_instant() && wide <= dark.max(white)
}

/// Puts the label into the first place where it fits: the bar, right of it, left of it; else as
/// much of it as fits into the bar.
fn place_label(
    alloc: Global,
    axis: &Axis,
    step: &Step,
    placed: &mut Placed,
) -> Result<(), AllocError> {
    let wide = width(placed.label.as_str(), SMALL);
    let right = placed.right + BESIDE + wide;
    let left = placed.left - BESIDE - wide;
    let fits_right = right <= WIDTH - MARGIN;
    let fits_left = left >= axis.left;
    if fits_inside(placed, step, wide) || !(fits_right || fits_left) {
        return place_inside(alloc, placed, wide);
    }
    if fits_right {
        placed.side = Side::Right;
        placed.label_x = placed.right + BESIDE;
        placed.to = placed.to.max(right);
    } else {
        placed.side = Side::Left;
        placed.label_x = placed.left - BESIDE;
        placed.from = placed.from.min(left);
    }
    Ok(())
}

/// A step on the page, but for its row.
pub(crate) fn extent_of(
    alloc: Global,
    axis: &Axis,
    scene: &Scene,
    step: &Step,
) -> Result<Placed, AllocError> {
    let label = label_of(alloc, scene, step)?;
    let mut placed = bar_of(axis, scene, step, label);
    place_label(alloc, axis, step, &mut placed)?;
    Ok(placed)
}
