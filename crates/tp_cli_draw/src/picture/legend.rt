//! The legend: the signs that are in use.

use crate::picture::axis::MARGIN;
use crate::picture::elements::{put_fitted, put_path};
use crate::picture::extents::whisker_of;
use crate::picture::lengths::Length;
use crate::picture::letters::{SMALL, width};
use crate::picture::page::Page;
use crate::picture::scene::Scene;
use std::alloc::AllocError;
use std::fmt::Write;

/// A sign, and what it means.
#[derive(Clone, Copy, Debug, PartialEq, Eq)]
enum Sign {
    Step,
    Window,
    Past,
    Instant,
    Earliest,
    Latest,
    Happened,
    Reported,
    Refused,
}

/// All signs, in the order of the legend.
const SIGNS: [Sign; 9] = [
    Sign::Step,
    Sign::Window,
    Sign::Past,
    Sign::Instant,
    Sign::Earliest,
    Sign::Latest,
    Sign::Happened,
    Sign::Reported,
    Sign::Refused,
];

/// The class and the path of a sign.
fn shape(sign: Sign) -> (&'static str, &'static str) {
    match sign {
        Sign::Step => ("b", "M0 -4.5h26v9h-26z"),
        Sign::Window => ("r", "M0 -2v4M0 0h26M26 -2v4"),
        Sign::Past => ("r", "M0 -2v4M0 0h26m-4 -2.5l4 2.5l-4 2.5"),
        Sign::Instant => ("b", "M13 -7l5 7l-5 7l-5 -7z"),
        Sign::Earliest => ("v", "M0 0H26"),
        Sign::Latest => ("v f", "M0 0H26"),
        Sign::Happened => ("d", "M0 -4.5h26v9h-26z"),
        Sign::Reported => ("h", "M0 -2.5h26v5h-26z"),
        Sign::Refused => ("n", "M9.5 -3.5l7 7m0 -7l-7 7"),
    }
}

/// What a sign means.
fn meaning(sign: Sign) -> &'static str {
    match sign {
        Sign::Step => "step",
        Sign::Window => "window of its start (above), end (below)",
        Sign::Past => "past the edge",
        Sign::Instant => "instant",
        Sign::Earliest => "holds the earliest",
        Sign::Latest => "holds the latest",
        Sign::Happened => "happened",
        Sign::Reported => "until reported",
        Sign::Refused => "refused, conflict",
    }
}

/// Whether some whisker is drawn, and whether only those count that go on past the edge.
fn has_whisker(scene: &Scene, page: &Page, past: bool) -> bool {
    for event in &scene.events {
        if let Some(whisker) = whisker_of(&page.axis, event) {
            if whisker.past || !past {
                return true;
            }
        }
    }
    false
}

/// Whether some arrow holds an earliest moment, or none.
fn has_arrow(page: &Page, earliest: bool) -> bool {
    page.arrows
        .iter()
        .any(|arrow| arrow.earliest.is_some() == earliest)
}

/// Whether a sign is in use.
fn is_used(scene: &Scene, page: &Page, sign: Sign) -> bool {
    match sign {
        Sign::Step => scene.events.iter().any(|event| !event.happened),
        Sign::Window => has_whisker(scene, page, false),
        Sign::Past => has_whisker(scene, page, true),
        Sign::Instant => scene.steps.iter().any(|step| step.first == step.last),
        Sign::Earliest => has_arrow(page, true),
        Sign::Latest => has_arrow(page, false),
        Sign::Happened => scene.events.iter().any(|event| event.happened),
        Sign::Reported => scene.events.iter().any(|event| event.reported.is_some()),
        Sign::Refused => scene.has_refusals(),
    }
}

/// Puts a sign and what it means.
fn put_sign(svg: &mut String, sign: Sign, x: Length, y: Length) -> Result<(), AllocError> {
    let (class, path) = shape(sign);
    let group = match sign {
        Sign::Earliest | Sign::Latest => "<g class=\"a\"",
        _ => "<g",
    };
    writeln!(svg, "{group} transform=\"translate({x} {y})\">")?;
    put_path(svg, class, path)?;
    svg.push_str("</g>\n")?;
    put_fitted(svg, "g", x + Length(330), y + Length(40), meaning(sign))
}

/// Puts the signs that are in use, in one line.
pub(crate) fn put_legend(
    svg: &mut String,
    scene: &Scene,
    page: &Page,
    y: Length,
) -> Result<(), AllocError> {
    let mut x = MARGIN;
    for sign in SIGNS {
        if is_used(scene, page, sign) {
            put_sign(svg, sign, x, y)?;
            x = x + Length(510) + width(meaning(sign), SMALL);
        }
    }
    Ok(())
}
