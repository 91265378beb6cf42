//! The lanes and their names, and the row of the refused commands.

use crate::picture::axis::{MARGIN, WIDTH};
use crate::picture::elements::{
    begin_group, end_group, end_title, put_path, put_rect, put_text, put_titled, put_words,
};
use crate::picture::lanes::{Lane, OTHERS, REFUSED, are_named};
use crate::picture::lengths::Length;
use crate::picture::letters::{SMALL, width};
use crate::picture::page::Page;
use crate::picture::rows::{PAD, ROW};
use crate::picture::scene::{Refusals, Scene};
use crate::picture::times::{put_time, time};
use std::alloc::{AllocError, Global};
use std::fmt::Write;

/// Where names begin.
const NAMES: Length = Length(220);

/// Puts the grey ground of every second lane.
pub(crate) fn put_bands(svg: &mut String, page: &Page) -> Result<(), AllocError> {
    for (place, band) in page.bands.iter().enumerate() {
        if place % 2 == 0 {
            let wide = WIDTH - MARGIN - MARGIN;
            put_rect(svg, "l", MARGIN, band.top, wide, band.bottom - band.top)?;
        }
    }
    Ok(())
}

/// Puts the name of a lane at a height.
fn put_name(
    alloc: Global,
    svg: &mut String,
    scene: &Scene,
    lane: &Lane,
    y: Length,
) -> Result<(), AllocError> {
    let (name, class) = if lane.object.is_empty() {
        (OTHERS, "g")
    } else {
        (lane.object.as_str(), "k")
    };
    let count = lane.steps.len();
    let all = scene.steps.len();
    let title = format!(in alloc; "{name}: {count} of {all} steps")?;
    put_titled(svg, class, NAMES, y, title.as_str(), lane.shown.as_str())
}

/// Puts the names of the lanes, where they have any.
pub(crate) fn put_names(
    alloc: Global,
    svg: &mut String,
    scene: &Scene,
    page: &Page,
) -> Result<(), AllocError> {
    if !are_named(&page.lanes) {
        return Ok(());
    }
    for (lane, band) in page.lanes.iter().zip(&page.bands) {
        let y = band.top + PAD + ROW.half() + Length(40);
        put_name(alloc, svg, scene, lane, y)?;
    }
    Ok(())
}

/// Puts the title of the commands that were refused at one tick.
fn put_refused_title(
    svg: &mut String,
    scene: &Scene,
    refusals: &Refusals,
) -> Result<(), AllocError> {
    begin_group(svg, "")?;
    svg.push_str("refused at ")?;
    put_time(svg, scene, refusals.at)?;
    put_text(svg, refusals.lines.as_str())?;
    end_title(svg)
}

/// Puts the cross of a refusal.
fn put_cross(alloc: Global, svg: &mut String, x: Length, y: Length) -> Result<(), AllocError> {
    let arm = Length(35);
    let around = Length(120);
    let path = format!(in alloc; "M{} {}l7 7m0 -7l-7 7", x - arm, y - arm)?;
    put_rect(
        svg,
        "x",
        x - around.half(),
        y - around.half(),
        around,
        around,
    )?;
    put_path(svg, "n", path.as_str())
}

/// The label beside a cross: the time, and how many were refused then if they are several.
fn label_of(alloc: Global, scene: &Scene, refusals: &Refusals) -> Result<String, AllocError> {
    let mut label = time(alloc, scene, refusals.at)?;
    if refusals.count > 1 {
        write!(label, " ({})", refusals.count)?;
    }
    Ok(label)
}

/// Puts the crosses of commands that were refused at one tick. Their label is left out where it
/// would begin before `free`. Answers where the next label may begin.
fn put_refusals(
    alloc: Global,
    svg: &mut String,
    scene: &Scene,
    page: &Page,
    refusals: &Refusals,
    free: Length,
) -> Result<Length, AllocError> {
    let x = page.axis.x(refusals.at);
    let y = page.top - Length(120);
    put_refused_title(svg, scene, refusals)?;
    put_cross(alloc, svg, x, y)?;
    let label = label_of(alloc, scene, refusals)?;
    let shown = x >= free;
    if shown {
        put_words(svg, "o", x + Length(70), y + Length(40), label.as_str())?;
    }
    end_group(svg)?;
    Ok(if shown {
        x + Length(150) + width(label.as_str(), SMALL)
    } else {
        free
    })
}

/// Puts the row of the commands that conflicts refused.
pub(crate) fn put_refused(
    alloc: Global,
    svg: &mut String,
    scene: &Scene,
    page: &Page,
) -> Result<(), AllocError> {
    let Some(run) = &scene.run else {
        return Ok(());
    };
    if run.refused.is_empty() {
        return Ok(());
    }
    let y = page.top - Length(80);
    let title = "commands that a conflict refused";
    put_titled(svg, "g", NAMES, y, title, REFUSED)?;
    let mut free = Length(0);
    for refusals in &run.refused {
        free = put_refusals(alloc, svg, scene, page, refusals, free)?;
    }
    Ok(())
}
