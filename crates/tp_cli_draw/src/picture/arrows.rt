//! The arrows of the bounds that hold windows.

use crate::picture::elements::{begin_group, end_group, end_title, put_path};
use crate::picture::extents::{Placed, Side};
use crate::picture::holders::Arrow;
use crate::picture::lengths::Length;
use crate::picture::page::Page;
use crate::picture::rows::BAR;
use crate::picture::scene::{Event, Part, Scene};
use crate::picture::titles::put_event;
use std::alloc::{AllocError, Global};
use std::fmt::Write;

/// An arrow that is shorter in its row is not drawn.
const SHORTEST: Length = Length(120);

/// Less to the right, an arrow slants to its event.
const SLANTED: Length = Length(100);

/// Where an arrow begins and ends.
#[derive(Clone, Copy, Drop)]
struct Ends {
    x: Length,
    y: Length,
    to_x: Length,
    to_y: Length,
    /// Whether it goes up.
    up: bool,
}

/// The ends of an arrow between bars of two rows.
fn ends_of(page: &Page, from: &Event, to: &Event, bar: &Placed, to_bar: &Placed) -> Ends {
    let x = page.axis.x(from.at);
    let to_x = page.axis.x(to.at);
    if bar.y < to_bar.y {
        Ends {
            x,
            y: bar.y + BAR,
            to_x,
            to_y: to_bar.y,
            up: false,
        }
    } else {
        Ends {
            x,
            y: bar.y,
            to_x,
            to_y: to_bar.y + BAR,
            up: true,
        }
    }
}

/// A height so far before the end of an arrow.
fn before_end(ends: &Ends, by: Length) -> Length {
    if ends.up {
        ends.to_y + by
    } else {
        ends.to_y - by
    }
}

/// Whether an arrow comes to a bar from above or below, and not from its left.
fn comes_upright(to: &Event, to_bar: &Placed) -> bool {
    to.part == Part::End || to_bar.side == Side::Left
}

/// The path of an arrow between bars of two rows.
fn path_between(
    alloc: Global,
    ends: &Ends,
    to_bar: &Placed,
    upright: bool,
) -> Result<String, AllocError> {
    let (x, y) = (ends.x, ends.y);
    let (to_x, to_y) = (ends.to_x, ends.to_y);
    if x == to_x {
        return format!(in alloc; "M{x} {y}V{to_y}");
    }
    if to_x - x < SLANTED {
        let far = before_end(ends, Length(90));
        let near = before_end(ends, Length(60));
        return format!(in alloc; "M{x} {y}V{far}L{to_x} {near}V{to_y}");
    }
    if upright {
        let far = before_end(ends, Length(80));
        return format!(in alloc; "M{x} {y}V{far}H{to_x}V{to_y}");
    }
    let middle = to_bar.y + BAR.half();
    let left = to_bar.left;
    format!(in alloc; "M{x} {y}V{middle}H{left}")
}

/// The path of an arrow inside a row, where it has room.
fn path_in_row(
    alloc: Global,
    bar: &Placed,
    to_bar: &Placed,
    upright: bool,
) -> Result<Option<String>, AllocError> {
    let (from, to) = (bar.right, to_bar.left);
    if upright || to - from < SHORTEST {
        return Ok(None);
    }
    let middle = bar.y + BAR.half();
    let path = format!(in alloc; "M{from} {middle}H{to}")?;
    Ok(Some(path))
}

/// The path of an arrow, where it is drawn.
fn path_of(
    alloc: Global,
    scene: &Scene,
    page: &Page,
    arrow: &Arrow,
) -> Result<Option<String>, AllocError> {
    let from = scene.event(usize::from(arrow.from));
    let to = scene.event(usize::from(arrow.to));
    let (Some(bar), Some(to_bar)) = (page.placed.get(from.step), page.placed.get(to.step)) else {
        return Ok(None);
    };
    let upright = comes_upright(&to, to_bar);
    if bar.y == to_bar.y {
        return path_in_row(alloc, bar, to_bar, upright);
    }
    let ends = ends_of(page, &from, &to, bar, to_bar);
    let path = path_between(alloc, &ends, to_bar, upright)?;
    Ok(Some(path))
}

/// Puts the title of an arrow: its events, and what its bounds hold.
fn put_title(svg: &mut String, scene: &Scene, arrow: &Arrow) -> Result<(), AllocError> {
    put_event(svg, scene, usize::from(arrow.from))?;
    svg.push_str("\nbefore ")?;
    put_event(svg, scene, usize::from(arrow.to))?;
    if let Some(id) = arrow.earliest {
        write!(svg, "\nbound {id} holds the earliest moment of the second")?;
    }
    if let Some(id) = arrow.latest {
        write!(svg, "\nbound {id} holds the latest moment of the first")?;
    }
    Ok(())
}

/// Puts an arrow along a path, and a broad line over it that is not seen.
fn put_arrow(svg: &mut String, scene: &Scene, arrow: &Arrow, path: &str) -> Result<(), AllocError> {
    begin_group(svg, "a")?;
    put_title(svg, scene, arrow)?;
    end_title(svg)?;
    put_path(svg, "x", path)?;
    let class = match arrow.earliest {
        Some(_) => "v",
        None => "v f",
    };
    put_path(svg, class, path)?;
    end_group(svg)
}

/// Puts all arrows that have room.
pub(crate) fn put_arrows(
    alloc: Global,
    svg: &mut String,
    scene: &Scene,
    page: &Page,
) -> Result<(), AllocError> {
    for arrow in &page.arrows {
        if let Some(path) = path_of(alloc, scene, page, arrow)? {
            put_arrow(svg, scene, arrow, path.as_str())?;
        }
    }
    Ok(())
}
