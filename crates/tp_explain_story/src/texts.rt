//! The texts of a plan, and how steps are named.

use crate::story::Story;
use std::fmt;
use tp_explain_text::{At, Moment, Page, Source, Ticks, put, put_mark};
use tp_text::Scale;

/// The files of a plan, and the ticks of a unit.
#[derive(Clone, Copy)]
pub struct Texts<'t> {
    pub domain: Source<'t>,
    pub problem: Source<'t>,
    pub plan: Source<'t>,
    pub scale: Scale,
}

/// A file that is not told of.
const NONE: Source<'static> = Source {
    name: "",
    text: &[],
};

impl<'t> Texts<'t> {
    /// Those of a plan whose files are not told of.
    pub fn unnamed(scale: Scale) -> Self {
        Texts {
            domain: NONE,
            problem: NONE,
            plan: NONE,
            scale,
        }
    }

    /// A moment of the plan.
    pub(crate) fn moment(&self, tick: u32) -> Moment {
        Moment(self.scale.ticks(), u64::from(tick))
    }

    /// So many ticks.
    pub(crate) fn ticks(&self, ticks: u64) -> Ticks {
        Ticks(self.scale.ticks(), ticks)
    }

    /// A place in the domain.
    pub(crate) fn in_domain(&self, place: usize) -> At<'t> {
        At(self.domain, place)
    }

    /// A place in the plan.
    pub(crate) fn in_plan(&self, place: usize) -> At<'t> {
        At(self.plan, place)
    }
}

/// Puts what is wrong with a plan at a place of it.
pub(crate) fn put_invalid<D: fmt::Display + Drop>(
    page: &mut Page,
    texts: &Texts<'_>,
    place: usize,
    text: D,
) {
    put!(page; "{}invalid: ", texts.in_plan(place));
    page.put(text);
    page.put("\n");
    put_mark(page, texts.plan, place);
}

/// The action of a step, as `(mend red)`.
#[derive(Clone, Copy)]
pub(crate) struct Deed<'s, 'a>(pub(crate) &'s Story<'a>, pub(crate) usize);

impl fmt::Display for Deed<'_, '_> {
    fn fmt<W: fmt::Write>(&self, f: &mut fmt::Formatter<W>) -> fmt::Result {
        let Some(step) = self.0.steps().get(self.1) else {
            return Ok(());
        };
        for (number, word) in step.words.iter().enumerate() {
            write!(f, "{}{word}", if number == 0 { "(" } else { " " })?;
        }
        write!(f, ")")
    }
}
