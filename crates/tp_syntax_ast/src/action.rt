//! Actions.

use crate::cond::Cond;
use crate::constraint::DurationRule;
use crate::effect::Effect;
use crate::timed::{TimedCond, TimedEffect};
use crate::typed_list::TypedList;

/// What an action needs and does.
#[derive(Debug, PartialEq, Drop)]
pub enum Body {
    /// It happens at one moment.
    Instant {
        precondition: Cond,
        effect: Effect,
    },
    /// It has a start, an end and the time between them.
    Durative {
        duration: DurationRule,
        condition: TimedCond,
        effect: TimedEffect,
    },
}

/// An action with its parameters, whose names begin with '?'.
#[derive(Debug, PartialEq, Drop)]
pub struct Action {
    pub name: String,
    pub parameters: TypedList,
    pub body: Body,
}
