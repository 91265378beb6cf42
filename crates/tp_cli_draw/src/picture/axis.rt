//! Where moments lie on the page.

use crate::picture::lengths::Length;
use crate::picture::scene::Scene;

/// How wide the page is, and the room at its left and its right.
pub const WIDTH: Length = Length(12_000);

pub const MARGIN: Length = Length(160);

/// The distance of round moments, at least.
const LEAST_DISTANCE: u64 = 550;

/// The axis of time: tick 0 lies at `left`, and the tick `edge` at `right`.
#[derive(Clone, Copy, Debug, Drop)]
pub struct Axis {
    pub left: Length,
    pub right: Length,
    /// The last tick on the page.
    pub edge: u32,
    /// How many ticks lie between two round moments.
    pub round: u32,
}

impl Axis {
    /// Where a tick lies.
    pub fn x(&self, tick: u32) -> Length {
        let span = u64::from((self.right - self.left).0.max(0).unsigned_abs());
        let edge = u64::from(self.edge.max(1));
        self.left + Length::of((2 * u64::from(tick) * span + edge) / (2 * edge))
    }
}

/// A number of ticks, or the greatest where there are more.
fn ticks(count: u64) -> u32 {
    match u32::try_from(count) {
        Ok(count) => count,
        Err(_) => u32::MAX,
    }
}

/// The last tick on the page: the horizon, where it is not far behind all that is drawn.
fn edge_of(scene: &Scene) -> u32 {
    let end = scene.end().max(1);
    let far = u64::from(end) * 3 / 2;
    if u64::from(scene.horizon) <= far {
        end.max(scene.horizon)
    } else {
        ticks(u64::from(end) * 5 / 4)
    }
}

/// How many ticks lie between two round moments: the least of 1, 2 and 5 times a power of ten that
/// is wide enough.
fn round_of(edge: u32, span: Length) -> u32 {
    let wanted = LEAST_DISTANCE * u64::from(edge);
    let span = u64::from(span.0.max(0).unsigned_abs());
    let mut power = 1u32;
    for _ in 0..10 {
        for digit in [1u32, 2, 5] {
            let round = power.saturating_mul(digit);
            if u64::from(round) * span >= wanted {
                return round;
            }
        }
        power = power.saturating_mul(10);
    }
    u32::MAX
}

/// The axis of a scene, where names of lanes take up so much of the left.
pub fn axis_of(scene: &Scene, names: Length) -> Axis {
    let left = MARGIN + names + Length(180);
    let right = WIDTH - MARGIN - Length(80);
    let edge = edge_of(scene);
    Axis {
        left,
        right,
        edge,
        round: round_of(edge, right - left),
    }
}
