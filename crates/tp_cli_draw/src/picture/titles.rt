//! What titles say of events, and of the bounds that hold them.

use crate::picture::elements::put_text;
use crate::picture::holders::{Held, Holder};
use crate::picture::scene::{Event, Part, Scene};
use crate::picture::times::put_time;
use std::alloc::AllocError;
use std::fmt::Write;

/// Puts the number and the words of a step.
pub(crate) fn put_step_words(
    svg: &mut String,
    scene: &Scene,
    number: usize,
) -> Result<(), AllocError> {
    let words = match scene.steps.get(number) {
        Some(step) => step.words.as_str(),
        None => "",
    };
    write!(svg, "{number}: (")?;
    put_text(svg, words)?;
    svg.push_str(")")
}

/// Puts which event of which step one is.
pub(crate) fn put_event(svg: &mut String, scene: &Scene, event: usize) -> Result<(), AllocError> {
    let event = scene.event(event);
    match event.part {
        Part::Start => svg.push_str("start of ")?,
        Part::End => svg.push_str("end of ")?,
        Part::At => {}
    }
    put_step_words(svg, scene, event.step)
}

/// Puts when an event happened, or its window.
fn put_moments(svg: &mut String, scene: &Scene, event: &Event) -> Result<(), AllocError> {
    if event.happened {
        svg.push_str("happened at ")?;
        return put_time(svg, scene, event.at);
    }
    if event.low >= event.high {
        svg.push_str("only at ")?;
        return put_time(svg, scene, event.low);
    }
    put_time(svg, scene, event.low)?;
    svg.push_str(" to ")?;
    put_time(svg, scene, event.high)
}

/// Puts a line that tells what holds a moment of an event.
fn put_holder(
    svg: &mut String,
    scene: &Scene,
    holder: Option<Holder>,
    which: &str,
    side: &str,
) -> Result<(), AllocError> {
    let Some(holder) = holder else {
        return Ok(());
    };
    write!(svg, "\n  {which} by bound {}", holder.id)?;
    if holder.is_origin {
        return Ok(());
    }
    write!(svg, ", {side} ")?;
    put_event(svg, scene, usize::from(holder.other))
}

/// Puts the lines that tell when an event is, and what holds it.
pub(crate) fn put_event_lines(
    svg: &mut String,
    scene: &Scene,
    event: &Event,
    held: &Held,
) -> Result<(), AllocError> {
    svg.push_str(match event.part {
        Part::Start => "\nstart: ",
        Part::End => "\nend: ",
        Part::At => "\nat: ",
    })?;
    put_moments(svg, scene, event)?;
    if let Some(reported) = event.reported {
        svg.push_str(", reported at ")?;
        put_time(svg, scene, reported)?;
    }
    put_holder(svg, scene, held.earliest, "earliest", "behind")?;
    put_holder(svg, scene, held.latest, "latest", "before")
}
