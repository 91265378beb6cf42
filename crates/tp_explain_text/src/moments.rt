//! Ticks, and the units of time that they make.

use crate::page::Count;
use std::fmt;

/// The units that ticks make, with the decimals of the scale: 1, 10, 100 or 1000 ticks to a unit.
#[derive(Clone, Copy)]
pub struct Units(pub u32, pub u64);

impl fmt::Display for Units {
    fn fmt<W: fmt::Write>(&self, f: &mut fmt::Formatter<W>) -> fmt::Result {
        let Units(scale, ticks) = *self;
        match scale {
            10 => write!(f, "{}.{}", ticks / 10, ticks % 10),
            100 => write!(f, "{}.{:02}", ticks / 100, ticks % 100),
            1000 => write!(f, "{}.{:03}", ticks / 1000, ticks % 1000),
            _ => write!(f, "{ticks}"),
        }
    }
}

/// A moment under a scale, as `tick 26` or `tick 2600 (26.00)`.
#[derive(Clone, Copy)]
pub struct Moment(pub u32, pub u64);

impl fmt::Display for Moment {
    fn fmt<W: fmt::Write>(&self, f: &mut fmt::Formatter<W>) -> fmt::Result {
        let Moment(scale, tick) = *self;
        write!(f, "tick {tick}")?;
        if scale > 1 {
            write!(f, " ({})", Units(scale, tick))
        } else {
            Ok(())
        }
    }
}

/// So many ticks under a scale, as `5 ticks` or `1 tick (0.1)`.
#[derive(Clone, Copy)]
pub struct Ticks(pub u32, pub u64);

impl fmt::Display for Ticks {
    fn fmt<W: fmt::Write>(&self, f: &mut fmt::Formatter<W>) -> fmt::Result {
        let Ticks(scale, ticks) = *self;
        write!(f, "{}", Count(ticks, "tick", "ticks"))?;
        if scale > 1 {
            write!(f, " ({})", Units(scale, ticks))
        } else {
            Ok(())
        }
    }
}
