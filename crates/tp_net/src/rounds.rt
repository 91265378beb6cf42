//! The least and the greatest moments by Bellman-Ford: each arc in turn moves the point that breaks
//! it, until a round moves none. At most points * edges steps. Some solution is known, so no point
//! moves past it, and there are no more rounds than points.
ghost use Rattle.std.specs.Prelude.{◌≡◌, ℕ, ◌<◌, ◌≤◌, ◌^◌, length, All, IsTrue, false, ℤ, slice_index, pos, ◌+ℤ◌, ◌≤ℤ◌};
ghost use Rattle.tp_net.specs.Graph.{IsLeast, IsGreatest, MeetsArc, moment};
ghost use Rattle.tp_net.specs.Slacks.{JoinsPoints};
ghost use Rattle.tp_net.specs.Sizes.{IsSmall, IsSmallWeight};
ghost use Rattle.tp_net.specs.Rounds.{IsBelow, IsAbove, total, IsKnown, AreLow, AreHigh, AreFar};

use crate::slacks::{Arc, gap};

/// Raises the beginning of an arc as far as its end wants it, and tells whether it rose.
fn lift(arc: Arc, low: &mut [u64]) -> bool
    requires joins { JoinsPoints (length low.old) arc }
    requires small { IsSmall (slice_index low.old arc.to) }
    requires weight { IsSmallWeight arc.weight }
    ensures below { (t : ℕ → ℤ) → MeetsArc t arc → IsBelow low.old t → IsBelow low.new t }
    ensures rose { IsTrue result → total low.old < total low.new }
    ensures stays { result ≡ false → (low.new ≡ low.old) × MeetsArc (moment low.old) arc }
{
    let wanted = gap(0, low[arc.to], arc.weight);
    if wanted <= low[arc.from] {
        return false;
    }
    low[arc.from] = wanted;
    true
}

/// One round: raises the beginnings of the arcs in turn, and tells whether one rose.
fn rise_once(arcs: &[Arc], known: &[u64], low: &mut [u64]) -> bool
    requires len { length known.now ≡ length low.old }
    requires known { IsKnown arcs.now known.now }
    requires low { AreLow arcs.now low.old }
    ensures low { AreLow arcs.now low.new }
    ensures rose { IsTrue result → total low.old < total low.new }
    ensures met { result ≡ false → All (MeetsArc (moment low.new)) arcs.now }
{
    let mut rose = false;
    for arc in arcs {
        if lift(*arc, low) {
            rose = true;
        }
    }
    rose
}

/// Raises moments that are not above those of any solution until they are the least solution. Some
/// solution is known.
pub fn settle_low(arcs: &[Arc], known: &[u64], low: &mut [u64])
    requires len { length known.now ≡ length low.old }
    requires origin { 0 < length low.old }
    requires known { IsKnown arcs.now known.now }
    requires low { AreLow arcs.now low.old }
    ensures { IsLeast arcs.now low.new }
{
    loop {
        let rose = rise_once(arcs, known, low);
        if !rose {
            return;
        }
    }
}

/// The moment that an arc allows its end.
fn latest(from: u64, weight: i64) -> u64
    requires from { from < 2 ^ 42 }
    requires weight { IsSmallWeight weight }
    requires some { pos 0 ≤ℤ (pos from +ℤ weight) }
    ensures { pos result ≡ pos from +ℤ weight }
{
    (from as i64 + weight) as u64
}

/// Lowers the end of an arc as far as its beginning allows it, and tells whether it fell.
fn cut(arc: Arc, high: &mut [u64]) -> bool
    requires joins { JoinsPoints (length high.old) arc }
    requires small { slice_index high.old arc.from < 2 ^ 42 }
    requires weight { IsSmallWeight arc.weight }
    requires some { pos 0 ≤ℤ (pos (slice_index high.old arc.from) +ℤ arc.weight) }
    ensures above { (t : ℕ → ℤ) → MeetsArc t arc → IsAbove high.old t → IsAbove high.new t }
    ensures far { AreFar high.old → AreFar high.new }
    ensures start { slice_index high.old 0 ≡ 0 → slice_index high.new 0 ≡ 0 }
    ensures fell { IsTrue result → total high.new < total high.old }
    ensures stays { result ≡ false → (high.new ≡ high.old) × MeetsArc (moment high.old) arc }
{
    let allowed = latest(high[arc.from], arc.weight);
    if high[arc.to] <= allowed {
        return false;
    }
    high[arc.to] = allowed;
    true
}

/// One round: lowers the ends of the arcs in turn, and tells whether one fell.
fn fall_once(arcs: &[Arc], known: &[u64], high: &mut [u64]) -> bool
    requires len { length known.now ≡ length high.old }
    requires known { IsKnown arcs.now known.now }
    requires high { AreHigh arcs.now high.old }
    requires far { AreFar high.old }
    ensures high { AreHigh arcs.now high.new }
    ensures far { AreFar high.new }
    ensures start { slice_index high.old 0 ≡ 0 → slice_index high.new 0 ≡ 0 }
    ensures fell { IsTrue result → total high.new < total high.old }
    ensures met { result ≡ false → All (MeetsArc (moment high.new)) arcs.now }
{
    let mut fell = false;
    for arc in arcs {
        if cut(*arc, high) {
            fell = true;
        }
    }
    fell
}

/// Lowers moments that are not below those of any solution until they are the greatest solution.
/// Some solution is known.
pub fn settle_high(arcs: &[Arc], known: &[u64], high: &mut [u64])
    requires len { length known.now ≡ length high.old }
    requires origin { 0 < length high.old }
    requires start { slice_index high.old 0 ≡ 0 }
    requires known { IsKnown arcs.now known.now }
    requires high { AreHigh arcs.now high.old }
    requires far { AreFar high.old }
    ensures { IsGreatest arcs.now high.new }
{
    loop {
        let fell = fall_once(arcs, known, high);
        if !fell {
            return;
        }
    }
}
