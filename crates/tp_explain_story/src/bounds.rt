//! Bounds in words.

use crate::causes::Causes;
use crate::names::{Name, Named, Names, name_of};
use crate::story::Story;
use std::alloc::AllocError;
use std::fmt;
use tp_bounds::{Bound, Point};
use tp_explain_text::{Moment, Page, Ticks, put};

/// A moment that may lie before the origin.
#[derive(Clone, Copy)]
struct Signed(u32, i64);

impl fmt::Display for Signed {
    fn fmt<W: fmt::Write>(&self, f: &mut fmt::Formatter<W>) -> fmt::Result {
        match u64::try_from(self.1) {
            Ok(tick) => write!(f, "{}", Moment(self.0, tick)),
            Err(_) => write!(f, "tick {}", self.1),
        }
    }
}

/// The step of which two points are the start and the end.
fn span_of<'n>(names: Names<'n>, start: Point, end: Point) -> Option<Name<'n>> {
    let (Point::Event(start), Point::Event(end)) = (start, end) else {
        return None;
    };
    let first = name_of(names, start)?;
    let second = name_of(names, end)?;
    if first.step == second.step && first.moment == "start" && second.moment == "end" {
        Some(first)
    } else {
        None
    }
}

/// What a bound says, under a scale.
#[derive(Clone, Copy)]
pub(crate) struct Said<'n>(pub(crate) Names<'n>, pub(crate) u32, pub(crate) Bound);

impl fmt::Display for Said<'_> {
    fn fmt<W: fmt::Write>(&self, f: &mut fmt::Formatter<W>) -> fmt::Result {
        let Said(names, scale, bound) = *self;
        let w = bound.w;
        let ticks = Ticks(scale, w.unsigned_abs());
        let (from, to) = match (bound.from, bound.to) {
            (Point::Event(from), Point::Event(to)) => (Named(names, from), Named(names, to)),
            (Point::Origin, Point::Event(to)) => {
                return write!(
                    f,
                    "{} comes at {} or earlier",
                    Named(names, to),
                    Signed(scale, w)
                );
            }
            (Point::Event(from), Point::Origin) => {
                let moment = Signed(scale, w.saturating_neg());
                return write!(f, "{} comes at {moment} or later", Named(names, from));
            }
            _ => return write!(f, "the origin comes at {} or earlier", Signed(scale, w)),
        };
        if let (Some(step), true) = (span_of(names, bound.from, bound.to), w > 0) {
            write!(f, "{step} lasts at most {ticks}")
        } else if let (Some(step), true) = (span_of(names, bound.to, bound.from), w < 0) {
            write!(f, "{step} lasts at least {ticks}")
        } else if w > 0 {
            write!(f, "{to} comes at most {ticks} after {from}")
        } else if w < 0 {
            write!(f, "{to} comes at least {ticks} before {from}")
        } else {
            write!(f, "{to} comes no later than {from}")
        }
    }
}

/// Whether two events are those of one step.
fn are_of_one_step(names: Names<'_>, one: u16, other: u16) -> bool {
    match (name_of(names, one), name_of(names, other)) {
        (Some(one), Some(other)) => one.step == other.step,
        _ => true,
    }
}

/// Puts what a bound of a plan's network says, and why it is there.
pub(crate) fn put_own_bound<'a>(
    page: &mut Page,
    names: Names<'_>,
    story: &Story<'a>,
    causes: &Causes<'a>,
    bound: Bound,
) -> Result<(), AllocError> {
    page.put(Said(names, story.scale().ticks(), bound));
    let (Point::Event(from), Point::Event(to)) = (bound.from, bound.to) else {
        return Ok(());
    };
    if are_of_one_step(names, from, to) {
        return Ok(());
    }
    let (from, to) = (usize::from(from), usize::from(to));
    if bound.w < 0 {
        return causes.put_interference(page, from, to);
    }
    if bound.w == 0 {
        causes.put_wanted(page, story, from, to);
    }
    Ok(())
}

/// Puts a line for each bound of a plan's network: its identifier, what it says, and why it is
/// there.
pub fn tell_network(
    page: &mut Page,
    names: Names<'_>,
    story: &Story<'_>,
    bounds: &[Bound],
) -> Result<(), AllocError> {
    let causes = Causes::new(story)?;
    for (id, bound) in bounds.iter().enumerate() {
        put!(page; "note: b{id}: ");
        put_own_bound(page, names, story, &causes, *bound)?;
        page.put("\n");
    }
    Ok(())
}
