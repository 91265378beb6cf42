//! The rows of the lanes: nothing that stands in one of them overlaps.

use crate::picture::axis::Axis;
use crate::picture::extents::{Placed, extent_of};
use crate::picture::lanes::Lane;
use crate::picture::lengths::Length;
use crate::picture::scene::Scene;
use std::alloc::{AllocError, Global};

/// The height of a bar and of a row, and the room above and below the rows of a lane.
pub const BAR: Length = Length(140);

pub const ROW: Length = Length(280);

pub const PAD: Length = Length(30);

/// How far the bar of a row lies below its top.
const BAR_TOP: Length = Length(70);

/// The least room between two steps of a row.
const GAP: Length = Length(80);

/// A lane on the page.
#[derive(Clone, Copy, Debug, Drop)]
pub struct Band {
    pub top: Length,
    pub bottom: Length,
}

/// The steps on the page, each but for its row.
pub(crate) fn extents_of(
    alloc: Global,
    axis: &Axis,
    scene: &Scene,
) -> Result<Vec<Placed>, AllocError> {
    let mut placed = Vec::new(alloc);
    for step in &scene.steps {
        placed.push(extent_of(alloc, axis, scene, step)?)?;
    }
    Ok(placed)
}

/// The first row in which a step has room that takes up its row from a place on. The rows are told
/// by their right ends.
fn free_row(rows: &[Length], from: Length) -> usize {
    for (row, right) in rows.iter().enumerate() {
        if *right + GAP <= from {
            return row;
        }
    }
    rows.len()
}

/// Notes that a row is taken up to a place.
fn take_row(rows: &mut Vec<Length>, row: usize, to: Length) -> Result<(), AllocError> {
    match rows.get_mut(row) {
        Some(right) => {
            *right = to;
            Ok(())
        }
        None => {
            rows.push(to)?;
            Ok(())
        }
    }
}

/// Puts the steps of a lane into its rows. Answers how many there are.
fn pack_lane(
    alloc: Global,
    placed: &mut [Placed],
    lane: &Lane,
    top: Length,
) -> Result<usize, AllocError> {
    let mut rows = Vec::new(alloc);
    for number in &lane.steps {
        let Some(step) = placed.get_mut(*number) else {
            continue;
        };
        let row = free_row(&rows, step.from);
        step.y = top + PAD + ROW.times(row) + BAR_TOP;
        take_row(&mut rows, row, step.to)?;
    }
    Ok(rows.len())
}

/// Puts the steps of all lanes into their rows, from a height on.
pub(crate) fn pack(
    alloc: Global,
    placed: &mut [Placed],
    lanes: &[Lane],
    from: Length,
) -> Result<Vec<Band>, AllocError> {
    let mut bands = Vec::new(alloc);
    let mut top = from;
    for lane in lanes {
        let rows = pack_lane(alloc, placed, lane, top)?;
        let bottom = top + PAD + PAD + ROW.times(rows);
        bands.push(Band { top, bottom })?;
        top = bottom;
    }
    Ok(bands)
}
