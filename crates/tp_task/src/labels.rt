//! Labels in order, which are found by a table.

ghost use Rattle.std.specs.Prelude.{◌≡◌, ◌∷◌, [], ◌++◌, map, length, nat_eq, OnOk, OnErr, slice_index_or};
ghost use Rattle.std.specs.List.{position_from};
ghost use Rattle.std.specs.Cmp.Lexicographic.{pointwise};

use indexmap::IndexSet;
use smallvec::SmallVec;
use std::alloc::{AllocError, Global};
use std::marker::Model;

/// How many numbers a label holds with no allocation.
pub const INLINE: usize = 8;

/// Words by the numbers of their names.
pub type Label = SmallVec<usize, INLINE>;

/// Labels in order, of which two may be the same.
#[derive(Drop)]
pub struct Labels {
    /// Those before the first that was there already.
    first: IndexSet<Label>,
    /// That one, and all after it.
    more: Vec<Label>,
}

impl Model for Labels {
    ghost use Rattle.std.specs.Prelude.{ℕ, List, map, ◌++◌};

    ghost Value = { List (List ℕ) };

    ghost view = { λ l. map (λ k. k.items) l.first.keys ++ map (λ k. k.items) l.more.items };
}

/// The label at a place, empty past the end.
pub fn label_at<'a>(labels: &'a [Label], place: usize) -> &'a [usize]
    ensures { result.now ≡ slice_index_or (map (λ l. l.items) labels.now) place [] }
{
    match labels.get(place) {
        Some(label) => label.as_slice(),
        None => &[],
    }
}

// Where the first label of these numbers stands among some that are not in a table.
fn position_among(labels: &[Label], label: &Label) -> Option<usize>
    ensures { result ≡ position_from
        (pointwise nat_eq label.now.items) 0 (map (λ l. l.items) labels.now) }
{
    for (place, other) in labels.iter().enumerate() {
        if label == other {
            return Some(place);
        }
    }
    None
}

impl Labels {
    /// No labels.
    pub fn new(alloc: Global) -> Self
        ensures { result ≡ [] }
    {
        Labels {
            first: IndexSet::new(alloc),
            more: Vec::new(alloc),
        }
    }

    /// How many labels there are.
    pub fn len(&self) -> usize
        ensures { result ≡ length self.now }
    {
        self.first.len() + self.more.len()
    }

    /// The label at a place, empty past the end.
    pub fn at(&self, place: usize) -> &[usize]
        ensures { result.now ≡ slice_index_or self.now place [] }
    {
        let count = self.first.len();
        if place < count {
            return label_at(self.first.as_slice(), place);
        }
        label_at(&self.more, place - count)
    }

    /// Where the first label of these numbers stands.
    pub fn position(&self, label: &Label) -> Option<usize>
        ensures { result ≡ position_from (pointwise nat_eq label.now.items) 0 self.now }
    {
        if let Some(place) = self.first.get_index_of(label) {
            return Some(place);
        }
        let place = position_among(&self.more, label)?;
        Some(self.first.len() + place)
    }

    /// Adds a label at the end.
    pub fn push(&mut self, label: Label) -> Result<(), AllocError>
        ensures added { OnOk result (self.new ≡ self.old ++ label.items ∷ []) }
        ensures unchanged { OnErr result (self.new ≡ self.old) }
    {
        if self.more.is_empty() && !self.first.contains(&label) {
            self.first.insert(label)?;
        } else {
            self.more.push(label)?;
        }
        Ok(())
    }
}
