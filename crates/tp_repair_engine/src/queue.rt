//! The queue of Dijkstra on reduced costs: the points that may be settled next.
ghost use Rattle.std.specs.Prelude.{◌≡◌, ◌≢◌, ℕ, ◌<◌, ◌≤◌, length, MatchOption, slice_index, OnOk};
ghost use Rattle.std.specs.BinaryHeap.{heap_items, heap_len};
ghost use Rattle.tp_net.specs.Links.{IsNext};
ghost use Rattle.tp_repair_engine.specs.Queue.{IsQueue, IsQueueBut};

use std::collections::BinaryHeap;

/// Of the points that are not settled (rank 0) one with the most, if any has something.
pub fn next_point(
    amounts: &[u64],
    ranks: &[usize],
    queue: &mut BinaryHeap<(u64, usize)>,
) -> Option<usize>
    requires ranks { length ranks.now ≡ length amounts.now }
    requires queue { IsQueue (length amounts.now) (λ x. slice_index amounts.now x) (λ x.
        slice_index ranks.now x) (heap_items queue.old) }
    ensures next { MatchOption result (((x : ℕ) → slice_index ranks.now x ≡ 0
        → slice_index amounts.now x ≡ 0) × (heap_len queue.new ≡ 0)) (λ y. (y < length amounts.now)
        × IsNext (λ x. slice_index amounts.now x) (λ x. slice_index ranks.now x) y
        × IsQueueBut y (length amounts.now) (λ x. slice_index amounts.now x) (λ x.
        slice_index ranks.now x) (heap_items queue.new)) }
{
    while let Some((amount, point)) = queue.pop() {
        if ranks[point] == 0 && 0 < amount {
            return Some(point);
        }
    }
    None
}
