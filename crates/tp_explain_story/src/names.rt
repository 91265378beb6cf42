//! Events, by the texts that a network has of them.

use std::fmt;

/// How the events of a network are named.
#[derive(Clone, Copy)]
pub enum Names<'n> {
    /// By their numbers alone.
    Numbers,
    /// By the texts of a plan's events, as `start 0 (heat)`.
    Texts(&'n [String]),
}

/// What a plan's event is: the word of its moment, the number of its step, and the step's action.
#[derive(Clone, Copy)]
pub(crate) struct Name<'n> {
    pub(crate) moment: &'n str,
    pub(crate) step: &'n str,
    pub(crate) action: &'n str,
}

/// What an event is, where that is told.
pub(crate) fn name_of<'n>(names: Names<'n>, event: u16) -> Option<Name<'n>> {
    let Names::Texts(texts) = names else {
        return None;
    };
    let text = texts.get(usize::from(event))?;
    let (moment, rest) = text.as_str().split_once(' ')?;
    let (step, action) = rest.split_once(' ')?;
    Some(Name {
        moment,
        step,
        action,
    })
}

/// A step with its action, as `step 0 (heat)`.
impl fmt::Display for Name<'_> {
    fn fmt<W: fmt::Write>(&self, f: &mut fmt::Formatter<W>) -> fmt::Result {
        write!(f, "step {} {}", self.step, self.action)
    }
}

/// A plan's event, as `the start of step 0 (heat)`.
#[derive(Clone, Copy)]
struct Part<'n>(Name<'n>);

impl fmt::Display for Part<'_> {
    fn fmt<W: fmt::Write>(&self, f: &mut fmt::Formatter<W>) -> fmt::Result {
        let name = self.0;
        match name.moment {
            "start" => write!(f, "the start of {name}"),
            "end" => write!(f, "the end of {name}"),
            _ => write!(f, "{name}"),
        }
    }
}

/// An event, as `the start of step 0 (heat)` or `event 4`.
#[derive(Clone, Copy)]
pub(crate) struct Named<'n>(pub(crate) Names<'n>, pub(crate) u16);

impl fmt::Display for Named<'_> {
    fn fmt<W: fmt::Write>(&self, f: &mut fmt::Formatter<W>) -> fmt::Result {
        match name_of(self.0, self.1) {
            Some(name) => write!(f, "{}", Part(name)),
            None => write!(f, "event {}", self.1),
        }
    }
}

/// An event with its number, and what it is behind that, as `event 0, the start of step 0
/// (heat),`.
#[derive(Clone, Copy)]
pub struct Numbered<'n>(pub Names<'n>, pub u16, pub &'static str);

impl fmt::Display for Numbered<'_> {
    fn fmt<W: fmt::Write>(&self, f: &mut fmt::Formatter<W>) -> fmt::Result {
        let Numbered(names, event, behind) = *self;
        match name_of(names, event) {
            Some(name) => write!(f, "event {event}, {}{behind}", Part(name)),
            None => write!(f, "event {event}"),
        }
    }
}
