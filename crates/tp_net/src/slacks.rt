//! The arcs of a distance graph, and how far each is from being tight.
ghost use Rattle.std.specs.Prelude.{◌≡◌, ◌↔◌, IsTrue, ℕ, ◌+◌, ◌<◌, ◌≤◌, length, All, IfOk, slice_index, pos, ◌+ℤ◌, ◌≤ℤ◌};
ghost use Rattle.tp_net.specs.Graph.{MeetsArc, moment};
ghost use Rattle.tp_net.specs.Slacks.{IsGap, AreUpLinks, AreDownLinks, JoinsPoints};
ghost use Rattle.tp_net.specs.Sizes.{IsSmall, IsSmallWeight};

use crate::spread::Link;
use std::alloc::{AllocError, Global};

/// An arc of a distance graph, between points by number: the moment of `to` is at most that of
/// `from` plus the weight.
#[derive(Clone, Copy, Debug)]
pub struct Arc {
    pub from: usize,
    pub to: usize,
    pub weight: i64,
}

/// How far an arc that is met is from being tight.
pub fn slack(from: u64, to: u64, weight: i64) -> u64
    requires from { IsSmall from }
    requires to { IsSmall to }
    requires weight { IsSmallWeight weight }
    requires met { pos to ≤ℤ (pos from +ℤ weight) }
    ensures { pos (to + result) ≡ pos from +ℤ weight }
{
    (from as i64 + weight - to as i64) as u64
}

/// By how much an arc is broken.
pub fn gap(from: u64, to: u64, weight: i64) -> u64
    requires from { IsSmall from }
    requires to { IsSmall to }
    requires weight { IsSmallWeight weight }
    ensures { IsGap from to weight result }
{
    let gap = to as i64 - from as i64 - weight;
    if gap > 0 { gap as u64 } else { 0 }
}

/// Whether these moments meet an arc.
pub fn is_met(arc: Arc, moments: &[u64]) -> bool
    requires small { All IsSmall moments.now }
    requires among { JoinsPoints (length moments.now) arc }
    requires weight { IsSmallWeight arc.weight }
    ensures { IsTrue result ↔ MeetsArc (moment moments.now) arc }
{
    moments[arc.to] as i64 <= moments[arc.from] as i64 + arc.weight
}

/// The arcs as links along which rising moments spread: where the end of an arc rises, its
/// beginning has to.
pub fn up_links(alloc: Global, arcs: &[Arc], low: &[u64]) -> Result<Vec<Link>, AllocError>
    requires small { All IsSmall low.now }
    requires weights { All (λ e. IsSmallWeight e.weight) arcs.now }
    requires among { All (JoinsPoints (length low.now)) arcs.now }
    requires met { All (MeetsArc (moment low.now)) arcs.now }
    ensures { IfOk result (λ links. AreUpLinks (λ x. slice_index low.now x) arcs.now links.items) }
{
    let mut links = Vec::new(alloc);
    for arc in arcs {
        let slack = slack(low[arc.from], low[arc.to], arc.weight);
        links.push(Link {
            from: arc.from,
            to: arc.to,
            slack,
        })?;
    }
    Ok(links)
}

/// The arcs as links along which falling moments spread: where the beginning of an arc falls, its
/// end has to.
pub fn down_links(alloc: Global, arcs: &[Arc], high: &[u64]) -> Result<Vec<Link>, AllocError>
    requires small { All IsSmall high.now }
    requires weights { All (λ e. IsSmallWeight e.weight) arcs.now }
    requires among { All (JoinsPoints (length high.now)) arcs.now }
    requires met { All (MeetsArc (moment high.now)) arcs.now }
    ensures { IfOk result
        (λ links. AreDownLinks (λ x. slice_index high.now x) arcs.now links.items) }
{
    let mut links = Vec::new(alloc);
    for arc in arcs {
        let slack = slack(high[arc.from], high[arc.to], arc.weight);
        links.push(Link {
            from: arc.to,
            to: arc.from,
            slack,
        })?;
    }
    Ok(links)
}
