//! All places on the page.

use crate::picture::axis::{Axis, axis_of};
use crate::picture::extents::Placed;
use crate::picture::holders::{Arrow, Held, arrows_of, held_by};
use crate::picture::lanes::{Lane, lanes_of, names_width};
use crate::picture::lengths::Length;
use crate::picture::rows::{Band, extents_of, pack};
use crate::picture::scene::Scene;
use std::alloc::{AllocError, Global};

/// Where the lanes begin, and how much farther down where commands were refused.
const LANES: Length = Length(800);

pub const REFUSALS: Length = Length(240);

/// Higher lanes have the axis a second time below.
const TALL: Length = Length(7_000);

/// Where everything stands.
#[derive(Drop)]
pub struct Page {
    pub axis: Axis,
    pub lanes: Vec<Lane>,
    /// The lanes on the page, in the same order.
    pub bands: Vec<Band>,
    /// Where the lanes begin and end.
    pub top: Length,
    pub bottom: Length,
    /// The steps, by their numbers.
    pub placed: Vec<Placed>,
    /// What holds the events, by their numbers.
    pub held: Vec<Held>,
    pub arrows: Vec<Arrow>,
}

impl Page {
    /// Whether the axis stands below the lanes too.
    pub fn is_tall(&self) -> bool {
        self.bottom - self.top > TALL
    }
}

/// The lowest end of lanes, or where they begin.
fn bottom_of(bands: &[Band], top: Length) -> Length {
    match bands.last() {
        Some(band) => band.bottom,
        None => top,
    }
}

/// The bounds that hold events, and the page with them.
fn page_with(
    alloc: Global,
    scene: &Scene,
    axis: Axis,
    top: Length,
    lanes: Vec<Lane>,
    placed: Vec<Placed>,
    bands: Vec<Band>,
) -> Result<Page, AllocError> {
    let held = held_by(alloc, scene, &placed)?;
    let arrows = arrows_of(alloc, scene, &held)?;
    let bottom = bottom_of(&bands, top);
    Ok(Page {
        axis,
        lanes,
        bands,
        top,
        bottom,
        placed,
        held,
        arrows,
    })
}

/// Where everything of a scene stands. The cost is that of comparing each two steps, and of a look
/// at each bound.
///
/// # Errors
/// Where memory is wanting.
pub fn page_of(alloc: Global, scene: &Scene) -> Result<Page, AllocError> {
    let lanes = lanes_of(alloc, scene)?;
    let axis = axis_of(scene, names_width(scene, &lanes));
    let top = if scene.has_refusals() {
        LANES + REFUSALS
    } else {
        LANES
    };
    let mut placed = extents_of(alloc, &axis, scene)?;
    let bands = pack(alloc, placed.as_mut_slice(), &lanes, top)?;
    page_with(alloc, scene, axis, top, lanes, placed, bands)
}
