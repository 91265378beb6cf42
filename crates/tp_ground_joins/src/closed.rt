//! Whether a set of atoms has what some actions add in it, and which of them can happen whole.

ghost use Rattle.std.specs.Prelude.{◌≡◌, true, map, IfOk};
ghost use Rattle.std.specs.List.{list_all};
ghost use Rattle.tp_task.specs.Rounds.{set_of};
ghost use Rattle.tp_ground_joins.specs.Closed.{is_within, is_whole_by, HasFirst};

use std::alloc::{AllocError, Global};
use tp_task::{Body, met};

fn is_reached(reach: &[bool], atom: u32) -> bool
    ensures { result ≡ set_of reach.now atom }
{
    reach.get(atom as usize).copied().unwrap_or(false)
}

fn has_all(reach: &[bool], atoms: &[u32]) -> bool
    ensures { result ≡ list_all (set_of reach.now) atoms.now }
{
    atoms.iter().all(|a| is_reached(reach, *a))
}

fn is_within(reach: &[bool], body: &Body) -> bool
    ensures { result ≡ is_within (set_of reach.now) body.now }
{
    match body {
        Body::Instant(only) => !met(reach, true, &only.condition) || has_all(reach, &only.adds),
        Body::Durative(start, end, invariant) => {
            !met(reach, true, &start.condition)
                || (has_all(reach, &start.adds)
                    && (!(met(reach, true, invariant) && met(reach, true, &end.condition))
                        || has_all(reach, &end.adds)))
        }
    }
}

/// Whether the set has what each action adds in it.
pub(crate) fn all_within(reach: &[bool], bodies: &[Body]) -> bool
    ensures { result ≡ list_all (is_within (set_of reach.now)) bodies.now }
{
    for body in bodies {
        if !is_within(reach, body) {
            return false;
        }
    }
    true
}

/// Whether a set has some atoms, of as many.
pub(crate) fn has_first(reach: &[bool], first: &[bool]) -> bool
    ensures { result ≡ true → HasFirst reach.now first.now }
{
    if reach.len() != first.len() {
        return false;
    }
    for place in 0..first.len() {
        if first[place] && !reach[place] {
            return false;
        }
    }
    true
}

fn is_whole(reach: &[bool], body: &Body) -> bool
    ensures { result ≡ is_whole_by (set_of reach.now) body.now }
{
    match body {
        Body::Instant(only) => met(reach, true, &only.condition),
        Body::Durative(start, end, invariant) => {
            met(reach, true, &start.condition)
                && (met(reach, true, invariant) && met(reach, true, &end.condition))
        }
    }
}

/// Which actions can happen whole.
pub(crate) fn are_whole(
    alloc: Global,
    reach: &[bool],
    bodies: &[Body],
) -> Result<Vec<bool>, AllocError>
    ensures { IfOk result (λ v. v.items ≡ map (is_whole_by (set_of reach.now)) bodies.now) }
{
    let mut marks = Vec::with_capacity(alloc, bodies.len())?;
    for body in bodies {
        marks.push(is_whole(reach, body))?;
    }
    Ok(marks)
}
