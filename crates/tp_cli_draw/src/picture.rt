//! The picture of a plan, or of its run, as the text of an SVG file, without scripts or fonts of
//! its own. Each element has a title. All lengths are whole tenths of a pixel, so that the same
//! scene has the same picture everywhere.
//!
//! - `scene`: what a picture is of
//! - `lengths`, `letters`: lengths on the page; how wide texts are
//! - `lanes`: which step stands in which lane, and under which label
//! - `axis`: where moments lie
//! - `extents`, `rows`: what each step takes up of its row; the rows of the lanes
//! - `holders`: which bounds hold the windows of events
//! - `page`: where everything stands
//! - `elements`: elements, each a line
//! - `times`, `titles`: times in units; what titles say of events
//! - `ticks`, `names`, `arrows`, `bars`, `legend`, `style`: what is drawn
//! - `whole`: the whole picture

mod arrows;
mod axis;
mod bars;
mod elements;
mod extents;
mod holders;
mod lanes;
mod legend;
mod lengths;
mod letters;
mod names;
mod page;
mod rows;
mod scene;
mod style;
mod ticks;
mod times;
mod titles;
mod whole;

pub(crate) use scene::{Event, Order, Part, Refusals, Run, Scene, Step};
pub(crate) use whole::picture_text;
