//! Conditions and effects at the time specifiers of a durative action.

use crate::cond::Cond;
use crate::effect::Effect;
use crate::joined::Joined;
use crate::words::TimeSpecifier;

/// Something at the start, at the end or all the time between.
#[derive(Debug, PartialEq, Drop)]
pub struct Timed<A> {
    pub specifier: TimeSpecifier,
    pub what: A,
}

/// The condition of a durative action.
pub type TimedCond = Joined<Timed<Cond>>;

/// The effect of a durative action.
pub type TimedEffect = Joined<Timed<Effect>>;
