//! The steps: their bars, the whiskers of their windows, and their labels.

use crate::picture::elements::{begin_group, end_group, end_title, put_fitted, put_path, put_rect};
use crate::picture::extents::{Placed, Side, Whisker, whisker_of};
use crate::picture::holders::Held;
use crate::picture::lengths::Length;
use crate::picture::page::Page;
use crate::picture::rows::BAR;
use crate::picture::scene::{Event, Part, Scene, Step};
use crate::picture::times::put_time;
use crate::picture::titles::{put_event_lines, put_step_words};
use std::alloc::{AllocError, Global};
use std::fmt::Write;

/// How far a whisker lies off its bar, and how high its caps are above it.
const OFF: Length = Length(30);

const CAP: Length = Length(20);

/// How far what is hovered over goes above and below a bar.
const AROUND: Length = Length(60);

/// What holds an event, nothing where it does not occur.
fn held_at(page: &Page, event: usize) -> Held {
    match page.held.get(event) {
        Some(held) => *held,
        None => Held {
            earliest: None,
            latest: None,
        },
    }
}

/// Puts the line that tells when a step is in the plan.
fn put_plan_line(svg: &mut String, scene: &Scene, step: &Step) -> Result<(), AllocError> {
    svg.push_str("\nplan: ")?;
    put_time(svg, scene, step.start)?;
    if step.is_instant() {
        return Ok(());
    }
    svg.push_str(" to ")?;
    put_time(svg, scene, step.end)
}

/// Puts the title of a step.
fn put_title(
    svg: &mut String,
    scene: &Scene,
    page: &Page,
    number: usize,
    step: &Step,
) -> Result<(), AllocError> {
    put_step_words(svg, scene, number)?;
    put_plan_line(svg, scene, step)?;
    let held = held_at(page, step.first);
    put_event_lines(svg, scene, &scene.event(step.first), &held)?;
    if step.is_instant() {
        return Ok(());
    }
    let held = held_at(page, step.last);
    put_event_lines(svg, scene, &scene.event(step.last), &held)
}

/// The edge of the bar at which an event's whisker begins, and where that lies: below the bar for
/// an end.
fn heights(event: &Event, y: Length) -> (Length, Length) {
    match event.part {
        Part::End => (y + BAR, y + BAR + OFF),
        _ => (y, y - OFF),
    }
}

/// Puts a whisker of the event that lies at `x`.
fn put_whisker(
    svg: &mut String,
    event: &Event,
    whisker: &Whisker,
    x: Length,
    y: Length,
) -> Result<(), AllocError> {
    let (edge, line) = heights(event, y);
    let cap = line - CAP;
    let (low, high) = (whisker.low, whisker.high);
    write!(svg, "<path class=\"r\" d=\"M{x} {edge}V{line}")?;
    write!(svg, "M{low} {cap}v4M{low} {line}H{high}")?;
    if whisker.past {
        svg.push_str("m-4 -2.5l4 2.5l-4 2.5\"/>\n")
    } else {
        writeln!(svg, "M{high} {cap}v4\"/>")
    }
}

/// Puts the whisker of an event, and the time until it was reported.
fn put_event_shapes(
    svg: &mut String,
    page: &Page,
    event: &Event,
    y: Length,
) -> Result<(), AllocError> {
    let x = page.axis.x(event.at);
    if let Some(whisker) = whisker_of(&page.axis, event) {
        put_whisker(svg, event, &whisker, x, y)?;
    }
    let Some(reported) = event.reported else {
        return Ok(());
    };
    let top = match event.part {
        Part::End => y + BAR + Length(10),
        _ => y - AROUND,
    };
    put_rect(svg, "h", x, top, page.axis.x(reported) - x, Length(50))
}

/// Puts the bar of a step with a duration: white, and over it what of it is dark.
fn put_bar(svg: &mut String, placed: &Placed) -> Result<(), AllocError> {
    let (x, y) = (placed.left, placed.y);
    if placed.turn < placed.right {
        put_rect(svg, "b", x, y, placed.right - x, BAR)?;
    }
    if placed.turn > x {
        put_rect(svg, "d", x, y, placed.turn - x, BAR)?;
    }
    Ok(())
}

/// Puts the diamond of an instantaneous step.
fn put_diamond(svg: &mut String, placed: &Placed, happened: bool) -> Result<(), AllocError> {
    let class = if happened { "d" } else { "b" };
    let (x, y) = (placed.left + Length(50), placed.y);
    writeln!(
        svg,
        "<path class=\"{class}\" d=\"M{x} {y}l5 7l-5 7l-5 -7z\"/>"
    )
}

/// Puts the label of a step.
fn put_label(svg: &mut String, placed: &Placed) -> Result<(), AllocError> {
    let class = match placed.side {
        Side::Dark => "w",
        Side::White => "",
        Side::Right => "o",
        Side::Left => "o e",
    };
    let y = placed.y + Length(110);
    put_fitted(svg, class, placed.label_x, y, placed.label.as_str())
}

/// Puts the shapes of a step.
fn put_shapes(
    svg: &mut String,
    scene: &Scene,
    page: &Page,
    step: &Step,
    placed: &Placed,
) -> Result<(), AllocError> {
    let wide = placed.to - placed.from;
    let high = BAR + AROUND + AROUND;
    put_rect(svg, "x", placed.from, placed.y - AROUND, wide, high)?;
    let first = scene.event(step.first);
    put_event_shapes(svg, page, &first, placed.y)?;
    if step.is_instant() {
        return put_diamond(svg, placed, first.happened);
    }
    put_event_shapes(svg, page, &scene.event(step.last), placed.y)?;
    put_bar(svg, placed)
}

/// Puts all steps, by their numbers.
pub(crate) fn put_steps(svg: &mut String, scene: &Scene, page: &Page) -> Result<(), AllocError> {
    for (number, step) in scene.steps.iter().enumerate() {
        let Some(placed) = page.placed.get(number) else {
            continue;
        };
        begin_group(svg, "")?;
        put_title(svg, scene, page, number, step)?;
        end_title(svg)?;
        put_shapes(svg, scene, page, step, placed)?;
        put_label(svg, placed)?;
        end_group(svg)?;
    }
    Ok(())
}
