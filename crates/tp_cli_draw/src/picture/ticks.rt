//! The axis: a line and a label at each round moment, at the horizon, and now.

use crate::picture::axis::WIDTH;
use crate::picture::elements::{put_text, put_words};
use crate::picture::lengths::Length;
use crate::picture::letters::{PLAIN, width};
use crate::picture::page::{Page, REFUSALS};
use crate::picture::scene::Scene;
use crate::picture::times::{decimals_of, put_time, short_time, time};
use std::alloc::{AllocError, Global};
use std::fmt::Write;

/// The least room between two labels.
const GAP: Length = Length(80);

/// What a line of the axis marks.
#[derive(Clone, Copy, Debug, PartialEq, Eq)]
enum Mark {
    Now,
    Horizon,
    Round,
}

/// A line of the axis.
#[derive(Drop)]
struct Line {
    mark: Mark,
    x: Length,
    label: String,
    /// Whether there is room for its label.
    shown: bool,
}

/// Where the labels at the top stand.
pub(crate) fn labels_y(scene: &Scene, page: &Page) -> Length {
    let above = page.top - Length(100);
    if scene.has_refusals() {
        above - REFUSALS
    } else {
        above
    }
}

/// Half of how wide a label is.
fn half_width(line: &Line) -> Length {
    width(line.label.as_str(), PLAIN).half()
}

/// Whether a label would come too near to one that is shown.
fn meets(lines: &[Line], line: &Line) -> bool {
    let half = half_width(line);
    for other in lines {
        let other_half = half_width(other);
        let before = line.x + half + GAP <= other.x - other_half;
        let behind = line.x - half - GAP >= other.x + other_half;
        if other.shown && !before && !behind {
            return true;
        }
    }
    false
}

/// Adds a line, with its label where there is room for it.
fn add_line(
    lines: &mut Vec<Line>,
    page: &Page,
    mark: Mark,
    tick: u32,
    label: String,
) -> Result<(), AllocError> {
    let mut line = Line {
        mark,
        x: page.axis.x(tick),
        label,
        shown: true,
    };
    line.shown = !meets(lines, &line);
    lines.push(line)?;
    Ok(())
}

/// Adds the lines of now and of the horizon, where they are on the page.
fn add_marks(
    alloc: Global,
    lines: &mut Vec<Line>,
    scene: &Scene,
    page: &Page,
) -> Result<(), AllocError> {
    if let Some(run) = &scene.run {
        let mut label = String::from_str(alloc, "now ")?;
        put_time(&mut label, scene, run.now)?;
        add_line(lines, page, Mark::Now, run.now, label)?;
    }
    if scene.horizon <= page.axis.edge {
        let label = time(alloc, scene, scene.horizon)?;
        add_line(lines, page, Mark::Horizon, scene.horizon, label)?;
    }
    Ok(())
}

/// Adds the lines of the round moments.
fn add_rounds(
    alloc: Global,
    lines: &mut Vec<Line>,
    scene: &Scene,
    page: &Page,
) -> Result<(), AllocError> {
    let decimals = decimals_of(scene, page.axis.round);
    let mut next = Some(0u32);
    for _ in 0..=page.axis.edge {
        let Some(tick) = next else {
            return Ok(());
        };
        if tick > page.axis.edge {
            return Ok(());
        }
        let label = short_time(alloc, scene, decimals, tick)?;
        add_line(lines, page, Mark::Round, tick, label)?;
        next = tick.checked_add(page.axis.round);
    }
    Ok(())
}

/// The classes of a mark's line and of its label, and what its title says before the label.
fn looks(mark: Mark) -> (&'static str, &'static str, &'static str) {
    match mark {
        Mark::Now => ("n", "k p m", ""),
        Mark::Horizon => ("z", "k m", "horizon "),
        Mark::Round => ("c", "g m", ""),
    }
}

/// Puts a line of the axis.
fn put_line(svg: &mut String, line: &Line, top: Length, bottom: Length) -> Result<(), AllocError> {
    let (class, _, before) = looks(line.mark);
    let x = line.x;
    let from = top + Length(40);
    write!(svg, "<path class=\"{class}\" d=\"M{x} {from}V{bottom}\">")?;
    write!(svg, "<title>{before}")?;
    put_text(svg, line.label.as_str())?;
    svg.push_str("</title></path>\n")
}

/// Puts the label of a line of the axis at a height.
fn put_label(svg: &mut String, line: &Line, y: Length) -> Result<(), AllocError> {
    let (_, class, _) = looks(line.mark);
    let x = line.x.min(WIDTH - Length(40) - half_width(line));
    put_words(svg, class, x, y, line.label.as_str())
}

/// Puts lines of the axis with their labels.
fn put_lines(
    svg: &mut String,
    scene: &Scene,
    page: &Page,
    lines: &[Line],
    rounds: bool,
) -> Result<(), AllocError> {
    let top = labels_y(scene, page);
    for line in lines {
        if matches!(line.mark, Mark::Round) != rounds {
            continue;
        }
        put_line(svg, line, top, page.bottom)?;
        if line.shown {
            put_label(svg, line, top)?;
        }
        if line.shown && page.is_tall() {
            put_label(svg, line, page.bottom + Length(150))?;
        }
    }
    Ok(())
}

/// Puts the axis: the round moments, and above them now and the horizon, which get their labels
/// first.
pub(crate) fn put_axis(
    alloc: Global,
    svg: &mut String,
    scene: &Scene,
    page: &Page,
) -> Result<(), AllocError> {
    let mut lines = Vec::new(alloc);
    add_marks(alloc, &mut lines, scene, page)?;
    add_rounds(alloc, &mut lines, scene, page)?;
    put_lines(svg, scene, page, &lines, true)?;
    put_lines(svg, scene, page, &lines, false)
}
