//! Events, bounds, lags, and what happened.

use crate::lines::InputLine;
use std::alloc::{AllocError, Global};
use tp_bounds::Bound;
use tp_script::Command;

/// A bound that was in force at some time, and the line and the column of the command that added
/// it.
#[derive(Clone, Copy)]
pub struct Held {
    pub bound: Bound,
    pub is_in_force: bool,
    pub place: Option<(u64, u64)>,
}

/// An event: how late its report may come, and when it happened.
#[derive(Clone, Copy)]
struct Point {
    lag: u32,
    fixed: Option<u32>,
}

/// The first command that withdrew a bound of the plan.
#[derive(Drop)]
pub struct Withdrawn {
    pub id: u32,
    pub line: InputLine,
}

/// What is known of a run.
#[derive(Drop)]
pub struct Picture {
    alloc: Global,
    points: Vec<Point>,
    horizon: u32,
    now: u32,
    bounds: Vec<Held>,
    own: u32,
    withdrawn: Option<Withdrawn>,
}

impl Picture {
    /// A network in which nothing has happened yet. The bounds are a plan's own.
    pub fn new(
        alloc: Global,
        events: u16,
        horizon: u32,
        own: &[Bound],
    ) -> Result<Picture, AllocError> {
        let point = Point {
            lag: 0,
            fixed: None,
        };
        let points = vec![in alloc; point; usize::from(events)]?;
        let mut bounds = Vec::new(alloc);
        for bound in own {
            bounds.push(Held {
                bound: *bound,
                is_in_force: true,
                place: None,
            })?;
        }
        Ok(Picture {
            alloc,
            points,
            horizon,
            now: 0,
            bounds,
            own: u32::try_from(own.len()).unwrap_or(u32::MAX),
            withdrawn: None,
        })
    }

    /// Where memory comes from.
    pub fn alloc(&self) -> Global {
        self.alloc
    }

    /// How many events there are.
    pub fn events(&self) -> u16 {
        u16::try_from(self.points.len()).unwrap_or(u16::MAX)
    }

    /// The latest moment.
    pub fn horizon(&self) -> u32 {
        self.horizon
    }

    /// The moment that is now.
    pub fn now(&self) -> u32 {
        self.now
    }

    /// The bounds that were ever in force, by their identifiers.
    pub fn bounds(&self) -> &[Held] {
        self.bounds.as_slice()
    }

    /// The bound of an identifier, if it was ever in force.
    pub fn bound(&self, id: u32) -> Option<Held> {
        self.bounds.get(usize::try_from(id).ok()?).copied()
    }

    /// How many bounds are a plan's own.
    pub fn own(&self) -> u32 {
        self.own
    }

    /// The first command that withdrew a bound of the plan.
    pub fn withdrawn(&self) -> Option<&Withdrawn> {
        self.withdrawn.as_ref()
    }

    /// When an event happened.
    pub fn fixed(&self, event: u16) -> Option<u32> {
        self.points.get(usize::from(event))?.fixed
    }

    /// How late the report of an event may come.
    pub fn lag(&self, event: u16) -> u32 {
        match self.points.get(usize::from(event)) {
            Some(point) => point.lag,
            None => 0,
        }
    }

    /// The earliest moment of an event that has not happened.
    pub fn floor(&self, event: u16) -> u32 {
        self.now.saturating_sub(self.lag(event))
    }

    /// How many events have not happened.
    pub fn left(&self) -> u64 {
        let left = self
            .points
            .iter()
            .filter(|point| point.fixed.is_none())
            .count();
        u64::try_from(left).unwrap_or(u64::MAX)
    }

    /// Sets the lag of an event.
    pub fn set_lag(&mut self, event: u16, lag: u32) {
        if let Some(point) = self.points.get_mut(usize::from(event)) {
            point.lag = lag;
        }
    }

    /// An event happened at a moment.
    fn fix(&mut self, event: u16, moment: u32) {
        if let Some(point) = self.points.get_mut(usize::from(event)) {
            point.fixed = Some(moment);
        }
    }

    /// Takes a bound out of force.
    fn withdraw(&mut self, id: u32, line: InputLine) {
        let index = usize::try_from(id).unwrap_or(usize::MAX);
        if let Some(held) = self.bounds.get_mut(index) {
            held.is_in_force = false;
        }
        if id < self.own && self.withdrawn.is_none() {
            self.withdrawn = Some(Withdrawn { id, line });
        }
    }

    /// Takes a command in that was carried out.
    pub fn follow(&mut self, command: Command, line: InputLine) -> Result<(), AllocError> {
        match command {
            Command::Advance(to) => self.now = to,
            Command::Add(bound) => self.bounds.push(Held {
                bound,
                is_in_force: true,
                place: Some((line.number, line.column())),
            })?,
            Command::Withdraw(id) => self.withdraw(id.0, line),
            Command::Dispatch(event) => {
                let now = self.now;
                self.fix(event, now);
            }
            Command::Happened(event, moment) => self.fix(event, moment),
            Command::Window(_) | Command::Report => {}
        }
        Ok(())
    }
}
