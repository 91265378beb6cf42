//! The bindings of variables, one at a time.

ghost use Rattle.std.specs.Prelude.{◌≡◌, ◌+◌, ◌<◌, ◌≤◌, ◌∷◌, ℕ, [], map, length, slice_index, slice_index_or, true, false, IfOk, IfSome};
ghost use Rattle.std.specs.List.{list_all};
ghost use Rattle.tp_syntax_ast.specs.Symbols.{typed_view};
ghost use Rattle.tp_ground_bindings.specs.Bindings.{choices, bindings};
ghost use Rattle.tp_ground_bindings.specs.Views.{universe_view};
ghost use Rattle.tp_ground_bindings.specs.Rows.{product, lists_of, names_in, row_at, rows_behind, has_names, IsLast, IsTurned};
ghost use Rattle.tp_ground_bindings.specs.Left.{rows_left};

pub use crate::odometer::Rows;
use crate::universe::{Universe, choices};
use std::alloc::{AllocError, Global};
use std::borrow::CowSlice;
use tp_syntax_ast::Typed;

impl<'u, 'a> Rows<'u, 'a> {
    /// Makes the row the next binding, the first variable varying slowest, if there is one more.
    pub fn advance(&mut self) -> bool
        ensures some { result ≡ true → rows_left self.old
            ≡ map (λ o. o.now) self.new.row.items ∷ rows_left self.new }
        ensures none { result ≡ false → rows_left self.old ≡ [] }
    {
        if !self.is_fresh && !turn_on(&self.lists, self.places.as_mut_slice()) {
            return false;
        }
        self.is_fresh = false;
        fill(self.row.as_mut_slice(), &self.lists, &self.places);
        true
    }

    /// How many bindings there are before the first, for the capacity of a list of them. Nothing is
    /// promised.
    pub fn count(&self) -> usize {
        if !self.is_fresh {
            return 0;
        }
        let mut count = 1usize;
        for names in &self.lists {
            count = count.saturating_mul(names.as_slice().len());
        }
        count
    }
}

// How many names a list has.
fn count_at(lists: &[CowSlice<'_, &str>], index: usize) -> usize
    ensures { result ≡ length (slice_index_or (lists_of lists.now) index []) }
{
    match lists.get(index) {
        Some(names) => names.as_slice().len(),
        None => 0,
    }
}

// The name at a place of a list.
fn name_at<'a>(lists: &[CowSlice<'_, &'a str>], index: usize, place: usize) -> &'a str
    ensures { result.now
        ≡ slice_index_or (slice_index_or (lists_of lists.now) index []) place [] }
{
    match lists.get(index) {
        Some(names) => names.as_slice().get(place).copied().unwrap_or(""),
        None => "",
    }
}

// The last list with a name behind the one at its place.
fn turning(lists: &[CowSlice<'_, &str>], places: &[usize]) -> Option<usize>
    ensures last { IsLast (lists_of lists.now) places.now result }
    ensures fits { IfSome result
        (λ i. slice_index places.now i + 1 < 18_446_744_073_709_551_616) }
{
    for behind in 0..places.len() {
        let index = places.len() - 1 - behind;
        if places[index] < count_at(lists, index).saturating_sub(1) {
            return Some(index);
        }
    }
    None
}

// Moves a place on, and those behind it back to the first.
fn turn(places: &mut [usize], index: usize)
    requires within { index < length places.old }
    requires fits { slice_index places.old index + 1 < 18_446_744_073_709_551_616 }
    ensures { IsTurned index places.old places.new }
{
    places[index] += 1;
    for at in index + 1..places.len() {
        places[at] = 0;
    }
}

// Moves the places on to those of the next row, if there is one.
fn turn_on(lists: &[CowSlice<'_, &str>], places: &mut [usize]) -> bool
    requires some { list_all has_names (lists_of lists.now) ≡ true }
    requires placed { length places.old ≡ length lists.now }
    ensures long { length places.new ≡ length places.old }
    ensures some { result ≡ true → rows_behind (lists_of lists.now) places.old
        ≡ row_at (lists_of lists.now) places.new ∷ rows_behind (lists_of lists.now) places.new }
    ensures none { result ≡ false → rows_behind (lists_of lists.now) places.old ≡ [] }
{
    let Some(index) = turning(lists, &*places) else {
        return false;
    };
    turn(places, index);
    true
}

// Writes the row at some places.
fn fill<'a>(row: &mut [&'a str], lists: &[CowSlice<'_, &'a str>], places: &[usize])
    requires wide { length row.old ≡ length lists.now }
    requires placed { length places.now ≡ length lists.now }
    ensures names { map (λ o. o.now) row.new ≡ row_at (lists_of lists.now) places.now }
    ensures wide { length row.new ≡ length row.old }
{
    for index in 0..places.len() {
        row[index] = name_at(lists, index, places[index]);
    }
}

/// The objects that each variable may stand for.
pub fn lists_of<'u, 'a>(
    alloc: Global,
    universe: &'u Universe<'a>,
    variables: &[Typed],
) -> Result<Vec<CowSlice<'u, &'a str>>, AllocError>
    ensures { IfOk result (λ v. lists_of v.items
        ≡ map (choices (universe_view universe.now)) (map typed_view variables.now)) }
{
    let mut lists = Vec::with_capacity(alloc, variables.len())?;
    for variable in variables {
        lists.push(choices(alloc, universe, variable)?)?;
    }
    Ok(lists)
}

// Whether each list has a name.
fn have_names(lists: &[CowSlice<'_, &str>]) -> bool
    ensures some { result ≡ true → list_all has_names (lists_of lists.now) ≡ true }
    ensures none { result ≡ false → product (lists_of lists.now) ≡ [] }
{
    for names in lists {
        if names.as_slice().is_empty() {
            return false;
        }
    }
    true
}

// The rows of some lists.
fn rows_over<'u, 'a>(
    alloc: Global,
    lists: Vec<CowSlice<'u, &'a str>>,
) -> Result<Rows<'u, 'a>, AllocError>
    ensures { IfOk result (λ r. rows_left r ≡ product (lists_of lists.entry.items)) }
{
    if !have_names(&lists) {
        return Ok(Rows {
            lists: Vec::new(alloc),
            places: Vec::new(alloc),
            row: Vec::new(alloc),
            is_fresh: false,
        });
    }
    let places = vec![in alloc; 0; lists.len()]?;
    let row = vec![in alloc; ""; lists.len()]?;
    Ok(Rows {
        lists,
        places,
        row,
        is_fresh: true,
    })
}

/// The bindings of variables, none of them made yet.
pub fn rows_of<'u, 'a>(
    alloc: Global,
    universe: &'u Universe<'a>,
    variables: &[Typed],
) -> Result<Rows<'u, 'a>, AllocError>
    ensures { IfOk result (λ r. rows_left r
        ≡ bindings (universe_view universe.now) (map typed_view variables.now)) }
{
    let lists = lists_of(alloc, universe, variables)?;
    rows_over(alloc, lists)
}
