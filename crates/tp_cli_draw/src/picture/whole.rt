//! The whole picture.

use crate::picture::arrows::put_arrows;
use crate::picture::axis::MARGIN;
use crate::picture::bars::put_steps;
use crate::picture::elements::{put_text, put_words};
use crate::picture::legend::put_legend;
use crate::picture::lengths::Length;
use crate::picture::names::{put_bands, put_names, put_refused};
use crate::picture::page::{Page, page_of};
use crate::picture::scene::{Run, Scene};
use crate::picture::style::STYLE;
use crate::picture::ticks::put_axis;
use crate::picture::times::put_time;
use std::alloc::{AllocError, Global};
use std::fmt::Write;

/// Where the legend stands.
fn foot_of(page: &Page) -> Length {
    let foot = page.bottom + Length(250);
    if page.is_tall() {
        foot + Length(130)
    } else {
        foot
    }
}

/// Puts the beginning of the picture, up to its ground.
fn put_head(svg: &mut String, scene: &Scene, high: Length) -> Result<(), AllocError> {
    svg.push_str("<svg xmlns=\"http://www.w3.org/2000/svg\" width=\"1200\"")?;
    writeln!(svg, " height=\"{high}\" viewBox=\"0 0 1200 {high}\">")?;
    svg.push_str("<title>")?;
    put_text(svg, scene.problem.as_str())?;
    svg.push_str("</title>\n")?;
    svg.push_str(STYLE)?;
    writeln!(svg, "<path fill=\"#fff\" d=\"M0 0h1200v{high}h-1200z\"/>")
}

/// Puts how far a run came.
fn put_progress(text: &mut String, scene: &Scene, run: &Run) -> Result<(), AllocError> {
    let happened = scene.events.iter().filter(|event| event.happened).count();
    let all = scene.events.len();
    write!(text, ", {happened} of {all} events happened by ")?;
    put_time(text, scene, run.now)?;
    write!(text, ", after {} commands", run.commands)
}

/// What the second line says.
fn second_line(alloc: Global, scene: &Scene) -> Result<String, AllocError> {
    let mut text = String::new(alloc);
    write!(text, "{}: {} steps", scene.domain, scene.steps.len())?;
    let mut altered = false;
    if let Some(run) = &scene.run {
        put_progress(&mut text, scene, run)?;
        altered = run.altered;
    }
    text.push_str("; windows if all ends by ")?;
    put_time(&mut text, scene, scene.horizon)?;
    if altered {
        text.push_str("; bounds of the plan withdrawn")?;
    }
    Ok(text)
}

/// Puts the heading.
fn put_heading(alloc: Global, svg: &mut String, scene: &Scene) -> Result<(), AllocError> {
    put_words(svg, "t", MARGIN, Length(290), scene.problem.as_str())?;
    let second = second_line(alloc, scene)?;
    put_words(svg, "g", MARGIN, Length(460), second.as_str())
}

/// Puts what stands on the page: what lies below comes first.
fn put_body(alloc: Global, svg: &mut String, scene: &Scene, page: &Page) -> Result<(), AllocError> {
    put_bands(svg, page)?;
    put_axis(alloc, svg, scene, page)?;
    put_refused(alloc, svg, scene, page)?;
    put_names(alloc, svg, scene, page)?;
    put_arrows(alloc, svg, scene, page)?;
    put_steps(svg, scene, page)
}

/// The picture of a scene, as the text of an SVG file. The same scene has the same picture. The
/// cost is that of placing everything (`page_of`), and of one text.
///
/// # Errors
/// Where memory is wanting.
pub fn picture_text(alloc: Global, scene: &Scene) -> Result<String, AllocError> {
    let page = page_of(alloc, scene)?;
    let foot = foot_of(&page);
    let mut svg = String::new(alloc);
    put_head(&mut svg, scene, foot + Length(170))?;
    put_heading(alloc, &mut svg, scene)?;
    put_body(alloc, &mut svg, scene, &page)?;
    put_legend(&mut svg, scene, &page, foot)?;
    svg.push_str("</svg>\n")?;
    Ok(svg)
}
