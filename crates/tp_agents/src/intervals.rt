//! The intervals that decouple the agents.

ghost use Rattle.std.specs.Prelude.{◌≡◌, ℕ, ◌≤◌, ◌<◌, length, IfOk};
ghost use Rattle.std.specs.List.{All};
ghost use Rattle.tp_bounds.specs.Setting.{IsInRange};
ghost use Rattle.tp_bounds.specs.Certificates.{moments_of};
ghost use Rattle.tp_agents.specs.Intervals.{begins, ends, moment_from, low_of, high_of, interval_of, AreIntervals};

use crate::crosses::{CrossBound, is_interface};
use std::alloc::{AllocError, Global};

/// The moment at which an event is before it has an interval.
fn least_of(least: &[u32], e: u16) -> u32
    ensures { result ≡ moments_of least.now e }
{
    least.get(e as usize).copied().unwrap_or(0)
}

/// The first moment of an event's interval.
fn begin(intervals: &[Option<(u32, u32)>], least: &[u32], e: u16) -> u32
    ensures { result ≡ begins intervals.now least.now e }
{
    match intervals.get(e as usize).copied().flatten() {
        Some(interval) => interval.0,
        None => least_of(least, e),
    }
}

/// The last moment of an event's interval.
fn end(intervals: &[Option<(u32, u32)>], least: &[u32], e: u16) -> u32
    ensures { result ≡ ends intervals.now least.now e }
{
    match intervals.get(e as usize).copied().flatten() {
        Some(interval) => interval.1,
        None => least_of(least, e),
    }
}

/// A whole number as a moment, 0 if it is less.
fn moment_from(ticks: i64) -> u64
    ensures { result ≡ moment_from ticks }
{
    if ticks < 0 { 0 } else { ticks as u64 }
}

/// The least moment at which an event meets each cross bound from it, the others being where they
/// end.
fn low_end(crosses: &[CrossBound], before: &[Option<(u32, u32)>], least: &[u32], e: u16) -> u64
    requires { All (λ b. IsInRange b.w) crosses.now }
    ensures { result ≡ low_of crosses.now (ends before.now least.now) e }
{
    let mut low = 0;
    for bound in crosses {
        if bound.from == e {
            low = moment_from(i64::from(end(before, least, bound.to)) - bound.w).max(low);
        }
    }
    low
}

/// The greatest moment at which an event meets each cross bound to it, the others being where they
/// begin.
fn high_end(
    horizon: u32,
    crosses: &[CrossBound],
    before: &[Option<(u32, u32)>],
    least: &[u32],
    e: u16,
) -> u64
    requires { All (λ b. IsInRange b.w) crosses.now }
    ensures { result ≡ high_of horizon crosses.now (begins before.now least.now) e }
{
    let mut high = u64::from(horizon);
    for bound in crosses {
        if bound.to == e {
            high = moment_from(i64::from(begin(before, least, bound.from)) + bound.w).min(high);
        }
    }
    high
}

/// The interval of an event, where those before it have theirs.
fn interval(
    horizon: u32,
    crosses: &[CrossBound],
    before: &[Option<(u32, u32)>],
    least: &[u32],
    e: u16,
) -> Option<(u32, u32)>
    requires weights { All (λ b. IsInRange b.w) crosses.now }
    requires ends { (d : ℕ) → ends before.now least.now d ≤ 1_000_000_000 }
    ensures { result ≡ interval_of horizon crosses.now least.now before.now e }
{
    if !is_interface(crosses, e) {
        return None;
    }
    let low = low_end(crosses, before, least, e);
    let high = high_end(horizon, crosses, before, least, e);
    Some((low as u32, high as u32))
}

/// The intervals of events, of which the least schedule that remains has these moments. It goes
/// over the cross bounds at most three times for each event.
pub(crate) fn intervals(
    alloc: Global,
    horizon: u32,
    crosses: &[CrossBound],
    least: &[u32],
) -> Result<Vec<Option<(u32, u32)>>, AllocError>
    requires weights { All (λ b. IsInRange b.w) crosses.now }
    requires few { length least.now ≤ 1_024 }
    requires horizon { horizon ≤ 1_000_000_000 }
    requires in_time { (e : ℕ) → moments_of least.now e ≤ horizon }
    ensures { IfOk result (λ v. AreIntervals horizon crosses.now least.now v.items) }
{
    let mut intervals = Vec::new(alloc);
    for e in 0..least.len() as u16 {
        let next = interval(horizon, crosses, &intervals, least, e);
        intervals.push(next)?;
    }
    Ok(intervals)
}
