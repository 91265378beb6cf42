//! Which of some instances can happen whole, in the delete relaxation.

ghost use Rattle.std.specs.Prelude.{◌≡◌, true, map, IfOk};
ghost use Rattle.tp_syntax_ast.specs.DomainViews.{initial_view};
ghost use Rattle.tp_ground_bindings.specs.Views.{universe_view};
ghost use Rattle.tp_ground.specs.Instances.{instance_view};
ghost use Rattle.tp_ground_joins.specs.Closed.{AreMarkedFrom, AreMarked};

use crate::closed::{all_within, are_whole, has_first};
use crate::numbered::number_all;
use crate::strong::strong_reach;
use std::alloc::{AllocError, Global};
use tp_ground::beginning::truths;
use tp_ground::{GroundFault, Instance};
use tp_ground_bindings::Universe;
use tp_syntax_ast::Initial;
use tp_task::{Body, Numbering};

/// Which of some instances are kept, and whether these are all that can happen whole.
#[derive(Drop)]
pub(crate) struct Marks {
    pub(crate) marks: Vec<bool>,
    pub(crate) are_all: bool,
}

// Marks the bodies that can happen whole in a set. They are all if the set has what is true at
// first and what the bodies add.
fn marked_in(
    alloc: Global,
    bodies: &[Body],
    first: &[bool],
    reach: &[bool],
) -> Result<Marks, AllocError>
    ensures { IfOk result
        (λ m. m.are_all ≡ true → AreMarkedFrom first.now bodies.now m.marks.items) }
{
    let are_all = has_first(reach, first) && all_within(reach, bodies);
    let marks = are_whole(alloc, reach, bodies)?;
    Ok(Marks { marks, are_all })
}

// Marks the bodies that can happen whole; where these are more than `most`, some of them.
fn marked(alloc: Global, bodies: &[Body], first: &[bool], most: usize) -> Result<Marks, AllocError>
    ensures { IfOk result
        (λ m. m.are_all ≡ true → AreMarkedFrom first.now bodies.now m.marks.items) }
{
    let truths = Vec::from_slice(alloc, first)?;
    let mut strong = strong_reach(alloc, bodies, truths)?;
    if strong.count(false) > most {
        strong.thin_out(most);
        let marks = strong.marks()?;
        return Ok(Marks {
            marks,
            are_all: false,
        });
    }
    marked_in(alloc, bodies, first, &strong.reach)
}

/// Marks the instances that can happen whole; where these are more than `most`, some of them, by
/// which all atoms are still reached.
pub(crate) fn mark_whole<'a>(
    alloc: Global,
    universe: &Universe<'a>,
    initial: &'a [Initial],
    some: &[Instance<'a>],
    most: usize,
) -> Result<Marks, GroundFault>
    ensures { IfOk result (λ m. m.are_all ≡ true → AreMarked (universe_view universe.now)
        (map initial_view initial.now) (map instance_view some.now) m.marks.items) }
{
    let mut numbering = Numbering::new(alloc, u32::MAX);
    let lowered = number_all(alloc, universe, &mut numbering, initial, some)?;
    let first = truths(alloc, numbering.atom_count(), &lowered.entries)?;
    let told = first.as_slice();
    let bodies = lowered.bodies.as_slice();
    Ok(marked(alloc, bodies, told, most)?)
}
