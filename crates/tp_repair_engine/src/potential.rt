//! Moments that meet all edges of a store: the potential of Dijkstra on reduced costs.
ghost use Rattle.std.specs.Prelude.{◌≡◌, ℕ, ◌+◌, ◌<◌, ◌^◌, All, length, slice_index};
ghost use Rattle.tp_repair_engine.specs.Flow.{link_of};
ghost use Rattle.tp_repair_engine.specs.Potential.{IsPotential, IsAlong};
ghost use Rattle.tp_repair_engine.specs.Store.{arc_along, halves_at, lists_of};

use crate::store::{Direction, Half, Store, lists, look_at};
use tp_net::slacks::slack;

/// Edges, and moments that meet them: each edge has a slack.
#[derive(Clone, Copy)]
pub struct Potential<'a> {
    pub store: &'a Store,
    pub moments: &'a [u64],
    ghost met: { IsPotential store.now moments.now },
}

impl Potential<'_> {
    /// The edges in the list of a point.
    pub fn list(&self, direction: Direction, point: usize) -> &[Half]
        requires { point < length self.now.moments.now }
        ensures list { result.now ≡ halves_at (lists_of direction self.now.store.now) point }
        ensures along { All (IsAlong self.now.moments.now direction point) result.now }
        ensures few { length result.now < 2 ^ 61 }
    {
        let lists = lists(self.store, direction);
        &lists[point]
    }

    /// Looks at an edge in the list of a point: how far it is from being tight.
    pub fn slack_along(
        &self,
        direction: Direction,
        point: usize,
        half: &Half,
        looks: &mut u64,
    ) -> u64
        requires point { point < length self.now.moments.now }
        requires along { IsAlong self.now.moments.now direction point half.now }
        requires looks { looks.old < 2 ^ 63 }
        ensures slack { result ≡ (link_of direction (λ x.
            slice_index self.now.moments.now x) (arc_along direction point half.now)).slack }
        ensures counted { looks.new ≡ looks.old + 1 }
    {
        let weight = look_at(half, looks);
        match direction {
            Direction::Up => slack(self.moments[half.far], self.moments[point], weight),
            Direction::Down => slack(self.moments[point], self.moments[half.far], weight),
        }
    }
}
