//! The arcs of a network under keys, and the lists in which they stand at their points.
ghost use Rattle.std.specs.Prelude.{◌≡◌, ◌≢◌, ℕ, List, ◌+◌, ◌-◌, ◌<◌, ◌≤◌, ◌^◌, ◌∷◌, ◌++◌, [], length, OnOk, OnErr, IfOk, MatchOption, All, Some, None};
ghost use Rattle.tp_net.specs.declared.slacks.Arc.{Arc};
ghost use Rattle.slab.specs.Slab.{get, ContainsKey, SameValues};
ghost use Rattle.tp_repair_engine.specs.Store.{lists_of, halves_at, half_at, half_of, keys_of, near, one_at, placed, weighed, AreHalves, AreHalvesBut, AreMoved, KeepsOthers, IsNode, SamePoints, HasNode, HasPoints, arcs_of, names_of, kept_arcs};
ghost use Rattle.tp_net.specs.Arcs.{NamesCycle};
ghost use Rattle.tp_net.specs.Moments.{CycleBeginsWith};
ghost use Rattle.tp_repair_engine.specs.declared.store.Direction.TheVariants.{Up, Down};

use slab::Slab;
use std::alloc::{AllocError, Global};
use tp_bounds::{Edge, Reason};
use tp_net::slacks::Arc;

/// Which moments are worked out: the least, which rise, or the greatest, which fall.
#[derive(Clone, Copy, Debug)]
pub enum Direction {
    Up,
    Down,
}

/// An edge as it stands in the list of a point: the point at its other end, its key, and its
/// weight. The weight is copied here, so that who goes through the list reads it from end to end,
/// by [`look_at`] alone.
#[derive(Clone, Copy, Debug, Drop)]
pub struct Half {
    pub far: usize,
    pub key: usize,
    weight: i64,
}

/// An edge by name and as an arc, with its places in the list of the point where it ends, and of
/// that where it begins.
#[derive(Clone, Copy, Debug, Drop)]
pub struct Node {
    pub name: Edge,
    pub arc: Arc,
    pub place_in: usize,
    pub place_out: usize,
}

/// The edges under their keys; and for each point those that end there, and those that begin there.
#[derive(Drop)]
pub struct Store {
    pub nodes: Slab<Node>,
    pub into: Vec<Vec<Half>>,
    pub out: Vec<Vec<Half>>,
}

/// The lists along which moments move: rising ones go through the arcs that end at a point, falling
/// ones through those that begin there.
pub fn lists(store: &Store, direction: Direction) -> &[Vec<Half>]
    ensures { result.now ≡ lists_of direction store.now }
{
    match direction {
        Direction::Up => &store.into,
        Direction::Down => &store.out,
    }
}

/// Looks at an edge. No other function reads a weight from a list.
pub fn look_at(half: &Half, looks: &mut u64) -> i64
    requires looks { looks.old < 2 ^ 63 }
    ensures weight { result ≡ half.now.weight }
    ensures counted { looks.new ≡ looks.old + 1 }
{
    *looks += 1;
    half.weight
}

/// Lists for so many points, with nothing in them.
fn empty_lists(alloc: Global, points: usize) -> Result<Vec<Vec<Half>>, AllocError>
    ensures len { IfOk result (λ r. length r.items ≡ points) }
    ensures empty { IfOk result (λ r. (y : ℕ) → halves_at r.items y ≡ []) }
{
    let mut lists = Vec::new(alloc);
    for _ in 0..points {
        lists.push(Vec::new(alloc))?;
    }
    Ok(lists)
}

/// A store with no edge, for so many points.
pub fn empty(alloc: Global, points: usize) -> Result<Store, AllocError>
    ensures into { IfOk result (λ s. length s.into.items ≡ points) }
    ensures out { IfOk result (λ s. length s.out.items ≡ points) }
    ensures none { IfOk result (λ s. (k : ℕ) → get s.nodes k ≡ None) }
    ensures halves_in { IfOk result (λ s. AreHalves Up s.nodes.slots s.into.items) }
    ensures halves_out { IfOk result (λ s. AreHalves Down s.nodes.slots s.out.items) }
    ensures degrees { IfOk result (λ s. (d : Direction) (y : ℕ) → length (keys_of d s y) ≡ 0) }
{
    let into = empty_lists(alloc, points)?;
    let out = empty_lists(alloc, points)?;
    Ok(Store {
        nodes: Slab::new(alloc),
        into,
        out,
    })
}

/// Puts a half after the others in the list of a point.
fn push_half(lists: &mut Vec<Vec<Half>>, point: usize, half: Half) -> Result<(), AllocError>
    requires { point < length lists.old.items }
    ensures len { length lists.new.items ≡ length lists.old.items }
    ensures here { OnOk result (halves_at lists.new.items point
        ≡ halves_at lists.old.items point ++ half ∷ []) }
    ensures err { OnErr result (halves_at lists.new.items point ≡ halves_at lists.old.items point) }
    ensures others { (y : ℕ) → y ≢ point
        → halves_at lists.new.items y ≡ halves_at lists.old.items y }
{
    lists[point].push(half)?;
    Ok(())
}

/// Takes the half at a place out of the list of a point: the last one comes to its place.
fn drop_half(lists: &mut Vec<Vec<Half>>, point: usize, place: usize)
    requires point { point < length lists.old.items }
    requires place { place < length (halves_at lists.old.items point) }
    ensures len { length lists.new.items ≡ length lists.old.items }
    ensures shorter { length (halves_at lists.new.items point) + 1
        ≡ length (halves_at lists.old.items point) }
    ensures moved { place + 1 < length (halves_at lists.old.items point)
        → half_at (halves_at lists.new.items point) place
        ≡ half_at (halves_at lists.old.items point) (length (halves_at lists.old.items point) - 1) }
    ensures stay { (j : ℕ) → j ≢ place → j + 1 < length (halves_at lists.old.items point) →
        half_at (halves_at lists.new.items point) j ≡ half_at (halves_at lists.old.items point) j }
    ensures others { (y : ℕ) → y ≢ point
        → halves_at lists.new.items y ≡ halves_at lists.old.items y }
{
    let _half = lists[point].swap_remove(place);
}

/// How many edges stand in the list of a point.
fn degree(lists: &[Vec<Half>], point: usize) -> usize
    requires { point < length lists.now }
    ensures { result ≡ length (halves_at lists.now point) }
{
    lists[point].len()
}

/// Takes the last half out of the list of a point.
fn pop_half(lists: &mut Vec<Vec<Half>>, point: usize)
    requires { point < length lists.old.items }
    ensures len { length lists.new.items ≡ length lists.old.items }
    ensures here { (halves : List Half) (last : Half) → halves_at lists.old.items point
        ≡ halves ++ last ∷ [] → halves_at lists.new.items point ≡ halves }
    ensures others { (y : ℕ) → y ≢ point
        → halves_at lists.new.items y ≡ halves_at lists.old.items y }
{
    let _half = lists[point].pop();
}

/// Puts the two halves of an edge into the lists of its points, or, where a growth is refused,
/// neither.
fn push_both(
    into: &mut Vec<Vec<Half>>,
    out: &mut Vec<Vec<Half>>,
    key: usize,
    arc: Arc,
) -> Result<(), AllocError>
    requires into { arc.to < length into.old.items }
    requires out { arc.from < length out.old.items }
    ensures into_len { length into.new.items ≡ length into.old.items }
    ensures out_len { length out.new.items ≡ length out.old.items }
    ensures into { OnOk result (halves_at into.new.items arc.to
        ≡ halves_at into.old.items arc.to ++ half_of Up key arc ∷ []) }
    ensures out { OnOk result (halves_at out.new.items arc.from
        ≡ halves_at out.old.items arc.from ++ half_of Down key arc ∷ []) }
    ensures into_others { (y : ℕ) → y ≢ arc.to
        → halves_at into.new.items y ≡ halves_at into.old.items y }
    ensures out_others { (y : ℕ) → y ≢ arc.from
        → halves_at out.new.items y ≡ halves_at out.old.items y }
    ensures err_into { OnErr result (halves_at into.new.items arc.to
        ≡ halves_at into.old.items arc.to) }
    ensures err_out { OnErr result (halves_at out.new.items arc.from
        ≡ halves_at out.old.items arc.from) }
{
    let weight = arc.weight;
    push_half(
        into,
        arc.to,
        Half {
            far: arc.from,
            key,
            weight,
        },
    )?;
    let begins = Half {
        far: arc.to,
        key,
        weight,
    };
    if let Err(error) = push_half(out, arc.from, begins) {
        pop_half(into, arc.to);
        return Err(error);
    }
    Ok(())
}

/// Puts an edge under a key that is free, and after the others in the lists of both its points.
pub fn insert(store: &mut Store, name: Edge, arc: Arc) -> Result<usize, AllocError>
    requires points { HasPoints store.old arc }
    requires halves_in { AreHalves Up store.old.nodes.slots store.old.into.items }
    requires halves_out { AreHalves Down store.old.nodes.slots store.old.out.items }
    ensures points { SamePoints store.old store.new }
    ensures halves_in { AreHalves Up store.new.nodes.slots store.new.into.items }
    ensures halves_out { AreHalves Down store.new.nodes.slots store.new.out.items }
    ensures free { IfOk result (λ key. get store.old.nodes key ≡ None) }
    ensures node { IfOk result (λ key. IsNode name arc (get store.new.nodes key)) }
    ensures others { IfOk result (λ key.
        (k : ℕ) → k ≢ key → get store.new.nodes k ≡ get store.old.nodes k) }
    ensures degrees { OnOk result ((d : Direction) (y : ℕ)
        → length (keys_of d store.new y) ≡ length (keys_of d store.old y) + one_at (near d arc) y) }
    ensures err { OnErr result (SameValues store.old.nodes store.new.nodes) }
    ensures err_degrees { OnErr result ((d : Direction) (y : ℕ)
        → length (keys_of d store.new y) ≡ length (keys_of d store.old y)) }
{
    store.nodes.reserve(1)?;
    let key = store.nodes.vacant_key();
    let place_in = degree(&store.into, arc.to);
    let place_out = degree(&store.out, arc.from);
    push_both(&mut store.into, &mut store.out, key, arc)?;
    Ok(
        store.nodes.insert_reserved(Node {
            name,
            arc,
            place_in,
            place_out,
        }),
    )
}

/// The key of the half at a place of a list, if there is one.
fn key_at(lists: &[Vec<Half>], point: usize, place: usize) -> Option<usize>
    requires { point < length lists.now }
    ensures { MatchOption result (length (halves_at lists.now point) ≤ place) (λ key.
        (place < length (halves_at lists.now point))
        × (key ≡ (half_at (halves_at lists.now point) place).key)) }
{
    let list = &lists[point];
    if place < list.len() {
        Some(list[place].key)
    } else {
        None
    }
}

/// Tells an edge its place in a list.
fn set_place(nodes: &mut Slab<Node>, direction: Direction, key: usize, place: usize)
    requires { ContainsKey nodes.old key }
    ensures here { (n : Node) → get nodes.old key ≡ Some n
        → get nodes.new key ≡ Some (placed direction place n) }
    ensures others { (k : ℕ) → k ≢ key → get nodes.new k ≡ get nodes.old k }
{
    match direction {
        Direction::Up => nodes[key].place_in = place,
        Direction::Down => nodes[key].place_out = place,
    }
}

/// Takes a half that stands for no edge any more out of a list.
fn take_out(
    nodes: &mut Slab<Node>,
    lists: &mut Vec<Vec<Half>>,
    direction: Direction,
    point: usize,
    place: usize,
)
    requires point { point < length lists.old.items }
    requires halves { AreHalvesBut direction nodes.old.slots lists.old.items point place }
    ensures halves { AreHalves direction nodes.new.slots lists.new.items }
    ensures moved { AreMoved direction nodes.old.slots nodes.new.slots }
    ensures len { length lists.new.items ≡ length lists.old.items }
    ensures degrees { (y : ℕ) → length (halves_at lists.new.items y) + one_at point y
        ≡ length (halves_at lists.old.items y) }
{
    drop_half(lists, point, place);
    if let Some(key) = key_at(lists, point, place) {
        set_place(nodes, direction, key, place);
    }
}

/// Takes an edge out.
pub fn remove(store: &mut Store, key: usize)
    requires exists { ContainsKey store.old.nodes key }
    requires halves_in { AreHalves Up store.old.nodes.slots store.old.into.items }
    requires halves_out { AreHalves Down store.old.nodes.slots store.old.out.items }
    ensures points { SamePoints store.old store.new }
    ensures halves_in { AreHalves Up store.new.nodes.slots store.new.into.items }
    ensures halves_out { AreHalves Down store.new.nodes.slots store.new.out.items }
    ensures gone { get store.new.nodes key ≡ None }
    ensures others { KeepsOthers key store.old.nodes.slots store.new.nodes.slots }
    ensures degrees { (n : Node) → get store.old.nodes key ≡ Some n → (d : Direction) (y : ℕ) →
        length (keys_of d store.new y) + one_at (near d n.arc) y ≡ length (keys_of d store.old y) }
{
    let node = store.nodes.remove(key);
    take_out(
        &mut store.nodes,
        &mut store.into,
        Direction::Up,
        node.arc.to,
        node.place_in,
    );
    take_out(
        &mut store.nodes,
        &mut store.out,
        Direction::Down,
        node.arc.from,
        node.place_out,
    );
}

/// Gives the half at a place of a list another weight.
fn weigh_half(lists: &mut Vec<Vec<Half>>, point: usize, place: usize, weight: i64)
    requires point { point < length lists.old.items }
    requires place { place < length (halves_at lists.old.items point) }
    ensures len { length lists.new.items ≡ length lists.old.items }
    ensures lens { (y : ℕ)
        → length (halves_at lists.new.items y) ≡ length (halves_at lists.old.items y) }
    ensures here { half_at (halves_at lists.new.items point) place
        ≡ record {
          far = (half_at (halves_at lists.old.items point) place).far;
          key = (half_at (halves_at lists.old.items point) place).key;
          weight = weight;
        } }
    ensures stay { (y j : ℕ) → (y ≡ point → j ≢ place)
        → half_at (halves_at lists.new.items y) j ≡ half_at (halves_at lists.old.items y) j }
{
    lists[point][place].weight = weight;
}

/// Gives an edge another name and another weight.
pub fn set_edge(store: &mut Store, key: usize, name: Edge, weight: i64)
    requires exists { ContainsKey store.old.nodes key }
    requires halves_in { AreHalves Up store.old.nodes.slots store.old.into.items }
    requires halves_out { AreHalves Down store.old.nodes.slots store.old.out.items }
    ensures points { SamePoints store.old store.new }
    ensures halves_in { AreHalves Up store.new.nodes.slots store.new.into.items }
    ensures halves_out { AreHalves Down store.new.nodes.slots store.new.out.items }
    ensures here { (n : Node) → get store.old.nodes key ≡ Some n
        → get store.new.nodes key ≡ Some (weighed name weight n) }
    ensures others { (k : ℕ) → k ≢ key → get store.new.nodes k ≡ get store.old.nodes k }
    ensures degrees { (d : Direction) (y : ℕ)
        → length (keys_of d store.new y) ≡ length (keys_of d store.old y) }
{
    let node = store.nodes[key];
    let arc = Arc {
        from: node.arc.from,
        to: node.arc.to,
        weight,
    };
    store.nodes[key] = Node {
        name,
        arc,
        place_in: node.place_in,
        place_out: node.place_out,
    };
    weigh_half(&mut store.into, arc.to, node.place_in, weight);
    weigh_half(&mut store.out, arc.from, node.place_out, weight);
}

/// A reason that begins with an edge, and goes on with those under these keys.
pub fn named(
    alloc: Global,
    store: &Store,
    first: Edge,
    path: &[usize],
) -> Result<Reason, AllocError>
    requires { All (HasNode store.now.nodes.slots) path.now }
    ensures { IfOk result (λ r. (new : Arc) → CycleBeginsWith (arcs_of store.now.nodes.slots ++ new
        ∷ []) (length (arcs_of store.now.nodes.slots)) (length (arcs_of store.now.nodes.slots)
        ∷ path.now) → NamesCycle (names_of store.now.nodes.slots)
        (kept_arcs store.now.nodes.slots) first new r.edges.items) }
{
    let mut edges = Vec::new(alloc);
    edges.push(first)?;
    for key in path {
        edges.push(store.nodes[*key].name)?;
    }
    Ok(Reason { edges })
}
