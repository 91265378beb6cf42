//! What a problem says of its initial state, by number.

ghost use Rattle.std.specs.Prelude.{◌≡◌, ℕ, ◌<◌, ◌||◌, length, map, slice_index_or, false, None, IfOk};
ghost use Rattle.tp_syntax_ast.specs.DomainViews.{initial_view};
ghost use Rattle.tp_ground.specs.Initially.{or_else, true_at, value_at, initial_in, named_initial, of_initial};
ghost use Rattle.tp_ground_bodies.specs.Mentions.{of_each};
ghost use Rattle.tp_ground_bodies.specs.Lowered.{Lowers};

use std::alloc::{AllocError, Global};
use tp_ground_bindings::Env;
use tp_ground_bodies::{atom, fluent};
use tp_syntax_ast::Initial;
use tp_task::{GroundFault, Numbering};

/// What one entry of `:init` says, by number.
#[derive(Clone, Copy)]
pub enum NumberedInitial {
    Holds(u32),
    Fails(u32),
    HasValue(u32, i64),
}

// One entry by number.
fn entry<'a>(
    alloc: Global,
    numbering: &mut Numbering,
    said: &'a Initial,
) -> Result<NumberedInitial, GroundFault>
    ensures { Lowers named_initial numbering.old result numbering.new
        (initial_in (initial_view said.now)) (of_initial (initial_in (initial_view said.now))) }
{
    match said {
        Initial::Holds(fact) => {
            let number = atom(alloc, &Env::Empty, numbering, fact)?;
            Ok(NumberedInitial::Holds(number))
        }
        Initial::Fails(fact) => {
            let number = atom(alloc, &Env::Empty, numbering, fact)?;
            Ok(NumberedInitial::Fails(number))
        }
        Initial::HasValue(fact, value) => {
            let number = fluent(alloc, &Env::Empty, numbering, fact)?;
            Ok(NumberedInitial::HasValue(number, *value))
        }
    }
}

/// All entries by number.
pub fn entries<'a>(
    alloc: Global,
    numbering: &mut Numbering,
    said: &'a [Initial],
) -> Result<Vec<NumberedInitial>, GroundFault>
    ensures { Lowers (λ t v. map (named_initial t) v.items) numbering.old result numbering.new
        (map (λ i. initial_in (initial_view i)) said.now)
        (of_each of_initial (map (λ i. initial_in (initial_view i)) said.now)) }
{
    let mut lowered = Vec::new(alloc);
    for one in said {
        lowered.push(entry(alloc, numbering, one)?)?;
    }
    Ok(lowered)
}

// Makes the atoms true that hold.
fn mark(truths: &mut [bool], entries: &[NumberedInitial])
    ensures { (j : ℕ) → j < length truths.old → slice_index_or truths.new j false
        ≡ (true_at entries.now j || slice_index_or truths.old j false) }
{
    for one in entries {
        if let NumberedInitial::Holds(number) = one {
            let place = *number as usize;
            if place < truths.len() {
                truths[place] = true;
            }
        }
    }
}

/// Which of so many atoms hold.
pub fn truths(
    alloc: Global,
    count: usize,
    entries: &[NumberedInitial],
) -> Result<Vec<bool>, AllocError>
    ensures length { IfOk result (λ v. length v.items ≡ count) }
    ensures truths { IfOk result
        (λ v. (j : ℕ) → j < count → slice_index_or v.items j false ≡ true_at entries.now j) }
{
    let mut truths = vec![in alloc; false; count]?;
    mark(truths.as_mut_slice(), entries);
    Ok(truths)
}

// Gives the fluents the values that there are.
fn give(numbers: &mut [Option<i64>], entries: &[NumberedInitial])
    ensures { (j : ℕ) → j < length numbers.old → slice_index_or numbers.new j None
        ≡ or_else (value_at entries.now j) (slice_index_or numbers.old j None) }
{
    for one in entries {
        if let NumberedInitial::HasValue(number, value) = one {
            let place = *number as usize;
            if place < numbers.len() {
                numbers[place] = Some(*value);
            }
        }
    }
}

/// The values of so many fluents.
pub fn numbers(
    alloc: Global,
    count: usize,
    entries: &[NumberedInitial],
) -> Result<Vec<Option<i64>>, AllocError>
    ensures length { IfOk result (λ v. length v.items ≡ count) }
    ensures values { IfOk result
        (λ v. (j : ℕ) → j < count → slice_index_or v.items j None ≡ value_at entries.now j) }
{
    let mut numbers = vec![in alloc; None; count]?;
    give(numbers.as_mut_slice(), entries);
    Ok(numbers)
}
