//! Which events of a plan come before which that they interfere with.

ghost use Rattle.std.specs.Prelude.{◌≡◌, slice_index_or, IfOk};
ghost use Rattle.tp_deorder.specs.Kept as spec;
ghost use Rattle.tp_deorder.specs.Kept.{rows_of};

use crate::traces::{TracedEvent, traced};
use std::alloc::{AllocError, Global};
use tp_validate::PlacedEvent;

/// For an event, whether each event comes before it.
fn marks_of(
    alloc: Global,
    events: &[TracedEvent<'_>],
    b: &TracedEvent<'_>,
) -> Result<Vec<bool>, AllocError>
    ensures { IfOk result (λ v. v.items ≡ spec.marks_of events.now b.now) }
{
    events.iter().map(|c| c.comes_before(b)).collect(alloc)
}

/// The same for each event.
fn table_by(alloc: Global, events: &[TracedEvent<'_>]) -> Result<Vec<Vec<bool>>, AllocError>
    ensures { IfOk result (λ v. rows_of v.items ≡ spec.table_of events.now) }
{
    let mut rows = Vec::with_capacity(alloc, events.len())?;
    for b in events {
        rows.push(marks_of(alloc, events, b)?)?;
    }
    Ok(rows)
}

/// For each event, whether each event comes before it.
pub fn table_of(alloc: Global, events: &[PlacedEvent<'_>]) -> Result<Vec<Vec<bool>>, AllocError>
    ensures { IfOk result (λ v. rows_of v.items ≡ spec.table_of events.now) }
{
    let events = traced(alloc, events)?;
    table_by(alloc, &events)
}

/// What the marks of an event say of another, by its number.
pub fn mark_at(marks: &[bool], c: &PlacedEvent<'_>) -> bool
    ensures { result ≡ spec.mark_at marks.now c.now }
{
    match marks.get(c.number() as usize) {
        Some(mark) => *mark,
        None => false,
    }
}

/// The marks of an event, by its number.
pub fn row_at<'r>(rows: &'r [Vec<bool>], b: &PlacedEvent<'_>) -> &'r [bool]
    ensures { result.now ≡ spec.row_at rows.now b.now }
{
    match rows.get(b.number() as usize) {
        Some(row) => row,
        None => &[],
    }
}
