//! Incremental tightening (Dechter, Meiri and Pearl 1991): Dijkstra on reduced costs. The kept
//! moments are the potential, so the reduced cost of an edge is its slack; what is worked out is by
//! how much each point has to move. Points are settled in the order of the greatest amount, each
//! once; the next one is looked for among all points, and all edges are read for each point that is
//! settled: points * (points + edges).
ghost use Rattle.std.specs.Prelude.{◌≡◌, ◌≢◌, ℕ, ◌+◌, ◌-◌, ◌<◌, ◌≤◌, length, All, IfOk, MatchOption, slice_index, vec_len};
ghost use Rattle.tp_net.specs.Links.{MeetsLink, IsClosed, AreAmong, Spreading, IsNext, IsSpread, IsTrace, link_at};

use std::alloc::{AllocError, Global};

/// What the end of a link has, less the slack, its beginning has too.
#[derive(Clone, Copy, Debug)]
pub struct Link {
    pub from: usize,
    pub to: usize,
    pub slack: u64,
}

/// Of the points that are not settled (rank 0) one with the most, if any has something.
fn next_point(amounts: &[u64], ranks: &[usize]) -> Option<usize>
    requires { length ranks.now ≡ length amounts.now }
    ensures { MatchOption result ((x : ℕ) → slice_index ranks.now x ≡ 0
        → slice_index amounts.now x ≡ 0) (λ y. (y < length amounts.now)
        × IsNext (λ x. slice_index amounts.now x) (λ x. slice_index ranks.now x) y) }
{
    let mut best = 0;
    let mut most = 0;
    for point in 0..amounts.len() {
        if ranks[point] == 0 && most < amounts[point] {
            best = point;
            most = amounts[point];
        }
    }
    if most == 0 { None } else { Some(best) }
}

/// Goes through the links that end at a point that has just been settled.
fn relax(links: &[Link], point: usize, ranks: &[usize], amounts: &mut [u64], parents: &mut [usize])
    requires among { AreAmong (length amounts.old) links.now }
    requires point { point < length amounts.old }
    requires ranks { length ranks.now ≡ length amounts.old }
    requires parents { length parents.old ≡ length amounts.old }
    requires settled { 0 < slice_index ranks.now point }
    requires last { (x : ℕ)
        → 0 < slice_index ranks.now x → slice_index amounts.old point ≤ slice_index amounts.old x }
    ensures { (seed amount : ℕ) → Spreading links.now seed amount point (λ k. k < 0) (λ x.
        slice_index amounts.old x) (λ x. slice_index ranks.now x) (λ x. slice_index parents.old x)
        → Spreading links.now seed amount point (λ k. k < length links.now) (λ x.
        slice_index amounts.new x) (λ x. slice_index ranks.now x) (λ x. slice_index parents.new x) }
{
    for (index, link) in links.iter().enumerate() {
        if link.to == point && ranks[link.from] == 0 {
            let amount = amounts[point].saturating_sub(link.slack);
            if amounts[link.from] < amount {
                amounts[link.from] = amount;
                parents[link.from] = index;
            }
        }
    }
}

/// What each point has, in which order they were settled, and by which link each got it.
#[derive(Debug, Drop)]
pub struct Spreads {
    pub amounts: Vec<u64>,
    pub ranks: Vec<usize>,
    pub parents: Vec<usize>,
}

/// Lets an amount at one point spread backwards along the links.
pub fn spread(
    alloc: Global,
    links: &[Link],
    points: usize,
    seed: usize,
    amount: u64,
) -> Result<Spreads, AllocError>
    requires among { AreAmong points links.now }
    requires seed { seed < points }
    ensures len { IfOk result (λ s. vec_len s.amounts ≡ points) }
    ensures spread { IfOk result
        (λ s. IsSpread links.now seed amount s.amounts.items s.ranks.items s.parents.items) }
{
    let mut amounts = vec![in alloc; 0u64; points]?;
    let mut ranks = vec![in alloc; 0usize; points]?;
    let mut parents = vec![in alloc; 0usize; points]?;
    amounts[seed] = amount;
    let mut settled = 0;
    while let Some(point) = next_point(&amounts, &ranks) {
        settled += 1;
        ranks[point] = settled;
        relax(links, point, &ranks, &mut amounts, &mut parents);
    }
    Ok(Spreads {
        amounts,
        ranks,
        parents,
    })
}

/// The links by which a point got its amount, back to the seed.
pub fn trace(
    alloc: Global,
    links: &[Link],
    seed: usize,
    target: usize,
    spreads: &Spreads,
) -> Result<Vec<usize>, AllocError>
    requires positive { 0 < slice_index spreads.now.amounts.items target }
    requires spread { IsSpread links.now seed (slice_index spreads.now.amounts.items seed)
        spreads.now.amounts.items spreads.now.ranks.items spreads.now.parents.items }
    ensures { IfOk result
        (λ path. IsTrace links.now target seed (slice_index spreads.now.amounts.items seed)
        (slice_index spreads.now.amounts.items target) path.items) }
{
    let mut path = Vec::new(alloc);
    let mut point = target;
    while point != seed {
        let index = spreads.parents[point];
        path.push(index)?;
        point = links[index].to;
    }
    Ok(path)
}
