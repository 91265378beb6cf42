//! The least and the greatest moments of the points of a distance graph (Dechter, Meiri and Pearl
//! 1991), and what one more arc does to them: new moments, or a negative cycle through it.
ghost use Rattle.std.specs.Prelude.{◌≡◌, ℕ, ◌+◌, ◌-◌, ◌^◌, ◌<◌, ◌≤◌, ◌∷◌, [], ◌++◌, length, All, IfOk, slice_index, vec_len, pos};
ghost use Rattle.tp_net.specs.Graph.{IsSolution, HasNoSolution, IsLeast, IsGreatest, moment};
ghost use Rattle.tp_net.specs.Slacks.{JoinsPoints};
ghost use Rattle.tp_net.specs.Moments.{IsRaised, IsAdded, AreExact, ReachOrigin, FromOrigin, CycleBeginsWith, HoldsLeast, IsStart};
ghost use Rattle.tp_net.specs.Sizes.{IsSmall, IsSmallWeight};

use crate::rounds::{settle_high, settle_low};
use crate::slacks::{Arc, down_links, gap, is_met, up_links};
use crate::spread::{spread, trace};
use std::alloc::{AllocError, Global};

/// The least moments with one more arc, or the numbers of the arcs of a negative cycle.
#[derive(Debug, Drop)]
pub enum Raised {
    Consistent(Vec<u64>),
    NegativeCycle(Vec<usize>),
}

/// Moments with what each point gains.
fn sums(alloc: Global, low: &[u64], amounts: &[u64]) -> Result<Vec<u64>, AllocError>
    requires len { length amounts.now ≡ length low.now }
    requires fits { (x : ℕ)
        → x < length low.now → slice_index low.now x + slice_index amounts.now x < 2 ^ 64 }
    ensures len { IfOk result (λ s. vec_len s ≡ length low.now) }
    ensures each { IfOk result (λ s. (x : ℕ) → x < length low.now
        → slice_index s.items x ≡ slice_index low.now x + slice_index amounts.now x) }
{
    let mut sums = Vec::new(alloc);
    for x in 0..low.len() {
        sums.push(low[x] + amounts[x])?;
    }
    Ok(sums)
}

/// Moments without what each point loses.
fn differences(alloc: Global, high: &[u64], amounts: &[u64]) -> Result<Vec<u64>, AllocError>
    requires len { length amounts.now ≡ length high.now }
    ensures len { IfOk result (λ s. vec_len s ≡ length high.now) }
    ensures each { IfOk result (λ s. (x : ℕ) → x < length high.now
        → slice_index s.items x ≡ slice_index high.now x - slice_index amounts.now x) }
{
    let mut differences = Vec::new(alloc);
    for x in 0..high.len() {
        differences.push(high[x].saturating_sub(amounts[x]))?;
    }
    Ok(differences)
}

/// The least moments with one more arc, or a negative cycle that begins with it.
pub fn raise(alloc: Global, arcs: &[Arc], low: &[u64], new: Arc) -> Result<Raised, AllocError>
    requires origin { 0 < length low.now }
    requires small { All IsSmall low.now }
    requires weights { All (λ e. IsSmallWeight e.weight) arcs.now }
    requires among { All (JoinsPoints (length low.now)) arcs.now }
    requires new_weight { IsSmallWeight new.weight }
    requires new_among { JoinsPoints (length low.now) new }
    requires low { IsLeast arcs.now low.now }
    ensures { IfOk result (λ r. IsRaised arcs.now new (length low.now) r) }
{
    let links = up_links(alloc, arcs, low)?;
    let amount = gap(low[new.from], low[new.to], new.weight);
    let raised = spread(alloc, &links, low.len(), new.from, amount)?;
    if raised.amounts[new.to] > 0 {
        let path = trace(alloc, &links, new.from, new.to, &raised)?;
        let mut cycle = Vec::new(alloc);
        cycle.push(arcs.len())?;
        cycle.extend_from_slice(&path)?;
        Ok(Raised::NegativeCycle(cycle))
    } else {
        Ok(Raised::Consistent(sums(alloc, low, &raised.amounts)?))
    }
}

/// The greatest moments with one more arc, with which there is a solution.
pub fn lower(alloc: Global, arcs: &[Arc], high: &[u64], new: Arc) -> Result<Vec<u64>, AllocError>
    requires origin { 0 < length high.now }
    requires small { All IsSmall high.now }
    requires weights { All (λ e. IsSmallWeight e.weight) arcs.now }
    requires among { All (JoinsPoints (length high.now)) arcs.now }
    requires new_weight { IsSmallWeight new.weight }
    requires new_among { JoinsPoints (length high.now) new }
    requires high { IsGreatest arcs.now high.now }
    requires solution { (t : ℕ → ℕ) × IsSolution (arcs.now ++ new ∷ []) (λ x. pos (t x)) }
    ensures len { IfOk result (λ r. length r.items ≡ length high.now) }
    ensures greatest { IfOk result (λ r. IsGreatest (arcs.now ++ new ∷ []) r.items) }
{
    let links = down_links(alloc, arcs, high)?;
    let amount = gap(high[new.from], high[new.to], new.weight);
    let lowered = spread(alloc, &links, high.len(), new.to, amount)?;
    Ok(differences(alloc, high, &lowered.amounts)?)
}

/// The least and the greatest moments with one more arc, or the numbers of the arcs of a negative
/// cycle.
#[derive(Debug, Drop)]
pub enum Added {
    Both(Vec<u64>, Vec<u64>),
    Refused(Vec<usize>),
}

/// The least and the greatest moments with one more arc, or a negative cycle that begins with it.
pub fn add(
    alloc: Global,
    arcs: &[Arc],
    low: &[u64],
    high: &[u64],
    new: Arc,
) -> Result<Added, AllocError>
    requires origin { 0 < length low.now }
    requires small_low { All IsSmall low.now }
    requires small_high { All IsSmall high.now }
    requires weights { All (λ e. IsSmallWeight e.weight) arcs.now }
    requires among { All (JoinsPoints (length low.now)) arcs.now }
    requires new_weight { IsSmallWeight new.weight }
    requires new_among { JoinsPoints (length low.now) new }
    requires exact { AreExact arcs.now low.now high.now }
    ensures { IfOk result (λ r. IsAdded arcs.now new (length low.now) r) }
{
    if is_met(new, low) && is_met(new, high) {
        let same_low = Vec::from_slice(alloc, low)?;
        let same_high = Vec::from_slice(alloc, high)?;
        return Ok(Added::Both(same_low, same_high));
    }
    match raise(alloc, arcs, low, new)? {
        Raised::NegativeCycle(cycle) => Ok(Added::Refused(cycle)),
        Raised::Consistent(new_low) => {
            let new_high = lower(alloc, arcs, high, new)?;
            Ok(Added::Both(new_low, new_high))
        }
    }
}

/// The least moments, worked out anew from any solution that is known.
pub fn solve_low(
    alloc: Global,
    arcs: &[Arc],
    known: &[u64],
    amount: u64,
) -> Result<Vec<u64>, AllocError>
    requires start { IsStart arcs.now known.now amount }
    ensures len { IfOk result (λ r. length r.items ≡ length known.now) }
    ensures least { IfOk result (λ r. IsLeast arcs.now r.items) }
{
    let mut low = vec![in alloc; 0u64; known.len()]?;
    settle_low(arcs, known, low.as_mut_slice());
    Ok(low)
}

/// Moments that no solution passes, where none is further from a known one than the amount.
fn ceilings(alloc: Global, known: &[u64], amount: u64) -> Result<Vec<u64>, AllocError>
    requires some { 0 < length known.now }
    requires small { All IsSmall known.now }
    requires amount { amount < 2 ^ 41 }
    ensures len { IfOk result (λ r. length r.items ≡ length known.now) }
    ensures start { IfOk result (λ r. slice_index r.items 0 ≡ 0) }
    ensures each { IfOk result (λ r. (x : ℕ)
        → 0 < x → x < length known.now → slice_index r.items x ≡ slice_index known.now x + amount) }
{
    let mut ceilings = Vec::new(alloc);
    ceilings.push(0)?;
    for x in 1..known.len() {
        ceilings.push(known[x] + amount)?;
    }
    Ok(ceilings)
}

/// The greatest moments, worked out anew from any solution that is known.
pub fn solve_high(
    alloc: Global,
    arcs: &[Arc],
    known: &[u64],
    amount: u64,
) -> Result<Vec<u64>, AllocError>
    requires amount { amount < 2 ^ 41 }
    requires start { IsStart arcs.now known.now amount }
    ensures len { IfOk result (λ r. length r.items ≡ length known.now) }
    ensures greatest { IfOk result (λ r. IsGreatest arcs.now r.items) }
{
    let mut high = ceilings(alloc, known, amount)?;
    settle_high(arcs, known, high.as_mut_slice());
    Ok(high)
}

/// The least and the greatest moments, worked out anew from any solution that is known.
pub fn solve(
    alloc: Global,
    arcs: &[Arc],
    known: &[u64],
    amount: u64,
) -> Result<(Vec<u64>, Vec<u64>), AllocError>
    requires amount { amount < 2 ^ 41 }
    requires start { IsStart arcs.now known.now amount }
    ensures len { IfOk result (λ r. length r.0.items ≡ length known.now) }
    ensures exact { IfOk result (λ r. AreExact arcs.now r.0.items r.1.items) }
{
    let low = solve_low(alloc, arcs, known, amount)?;
    let high = solve_high(alloc, arcs, known, amount)?;
    Ok((low, high))
}

/// A negative cycle that begins with an arc which no solution meets.
pub fn contrary_cycle(
    alloc: Global,
    arcs: &[Arc],
    low: &[u64],
    new: Arc,
) -> Result<Vec<usize>, AllocError>
    requires holds { HoldsLeast arcs.now low.now }
    requires weight { IsSmallWeight new.weight }
    requires among { JoinsPoints (length low.now) new }
    requires none { HasNoSolution (arcs.now ++ new ∷ []) }
    ensures { IfOk result
        (λ cycle. CycleBeginsWith (arcs.now ++ new ∷ []) (length arcs.now) cycle.items) }
{
    match raise(alloc, arcs, low, new)? {
        Raised::NegativeCycle(cycle) => Ok(cycle),
        Raised::Consistent(_low) => unreachable!(),
    }
}
