//! The least and the greatest moments of the events.

use crate::picture::Picture;
use std::alloc::AllocError;
use tp_bounds::{Bound, Point};

/// The least and the greatest moment of each event.
#[derive(Drop)]
pub struct Windows {
    low: Vec<i64>,
    high: Vec<i64>,
}

/// The moment of a point.
fn moment(moments: &[i64], point: Point) -> i64 {
    match point {
        Point::Origin => 0,
        Point::Event(event) => moments.get(usize::from(event)).copied().unwrap_or(0),
    }
}

/// Sets the moment of a point.
fn set(moments: &mut [i64], point: Point, to: i64) {
    if let Point::Event(event) = point {
        if let Some(moment) = moments.get_mut(usize::from(event)) {
            *moment = to;
        }
    }
}

impl Windows {
    /// Moves the points of a bound apart as far as it asks for. Tells whether one moved.
    fn keep(&mut self, bound: Bound) -> bool {
        let high = moment(&self.high, bound.from).saturating_add(bound.w);
        let low = moment(&self.low, bound.to).saturating_sub(bound.w);
        let lowers = bound.to != Point::Origin && high < moment(&self.high, bound.to);
        if lowers {
            set(&mut self.high, bound.to, high);
        }
        let raises = bound.from != Point::Origin && moment(&self.low, bound.from) < low;
        if raises {
            set(&mut self.low, bound.from, low);
        }
        lowers || raises
    }

    /// Keeps all bounds in force once. Tells whether a point moved.
    fn keep_all(&mut self, picture: &Picture) -> bool {
        let mut moved = false;
        for held in picture.bounds() {
            if held.is_in_force && self.keep(held.bound) {
                moved = true;
            }
        }
        moved
    }

    /// The windows of a picture. It goes over its bounds once for each event at most.
    pub fn of(picture: &Picture) -> Result<Windows, AllocError> {
        let mut low = Vec::new(picture.alloc());
        let mut high = Vec::new(picture.alloc());
        for event in 0..picture.events() {
            match picture.fixed(event) {
                Some(moment) => {
                    low.push(i64::from(moment))?;
                    high.push(i64::from(moment))?;
                }
                None => {
                    low.push(i64::from(picture.floor(event)))?;
                    high.push(i64::from(picture.horizon()))?;
                }
            }
        }
        let mut windows = Windows { low, high };
        for _ in 0..=picture.events() {
            if !windows.keep_all(picture) {
                break;
            }
        }
        Ok(windows)
    }

    /// The least moment of an event.
    pub fn low(&self, event: u16) -> u64 {
        u64::try_from(moment(&self.low, Point::Event(event))).unwrap_or(0)
    }

    /// The greatest moment of an event.
    pub fn high(&self, event: u16) -> u64 {
        u64::try_from(moment(&self.high, Point::Event(event))).unwrap_or(0)
    }
}
