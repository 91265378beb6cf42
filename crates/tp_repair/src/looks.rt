//! How many edges an `add` looks at, in numbers of events and of edges.

ghost use Rattle.std.specs.Prelude.{◌≡◌, ℕ, ◌+◌, ◌*◌, ◌≤◌, None};
ghost use Rattle.std.specs.FinMap as finite;
ghost use Rattle.tp_bounds.specs.declared.Bound.{Bound};
ghost use Rattle.tp_bounds.specs.Setting.{Setting};
ghost use Rattle.tp_bounds.specs.Changes.{with_bound};
ghost use Rattle.tp_repair_engine.specs.Told.{edge_count};
ghost use Rattle.tp_repair_engine.specs.Costs.{IsCheap};
ghost use Rattle.tp_repair.specs.Looks.{most_looks, LooksNearby};

/// What `most` of `add` comes to: with `n` events and `m` bounds, the new one among them, an `add`
/// looks at no more than `2 * (n + 2) * (m + n + 1)` edges, whether it is accepted or not.
pub fn adds_look_at_few_edges()
    ensures { (s : Setting) (id : ℕ) (b : Bound) (looks : ℕ) → finite.get s.bounds id ≡ None
        → looks ≤ 2 * (edge_count s + 1) → looks ≤ most_looks (with_bound s id b) }
{}

/// What `cheap` of `add` comes to: an accepted one looks at no more than `2 * (n + 2) * c + 2`
/// edges, with `c` the number of those that touch, in the network that it makes, an event whose
/// window it changed.
pub fn adds_look_at_what_moves()
    ensures { (s : Setting) (id : ℕ) (b : Bound) (looks : ℕ) → finite.get s.bounds id ≡ None
        → IsCheap 2 s (with_bound s id b) looks → LooksNearby s (with_bound s id b) looks }
{}
