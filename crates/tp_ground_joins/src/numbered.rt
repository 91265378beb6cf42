//! What `:init` and some instances say, by number.

ghost use Rattle.std.specs.Prelude.{◌≡◌, [], map, IfOk};
ghost use Rattle.tp_syntax_ast.specs.DomainViews.{initial_view};
ghost use Rattle.tp_ground_bindings.specs.Views.{universe_view};
ghost use Rattle.tp_ground.specs.Instances.{instance_view};
ghost use Rattle.tp_ground_joins.specs.Closed.{IsNumbered};

use std::alloc::Global;
use tp_ground::beginning::{NumberedInitial, entries};
use tp_ground::{GroundFault, Instance, lower_instances};
use tp_ground_bindings::Universe;
use tp_syntax_ast::Initial;
use tp_task::{Body, Numbering};

/// What `:init` says, and the bodies of some instances, by number.
#[derive(Drop)]
pub(crate) struct Numbered {
    pub(crate) entries: Vec<NumberedInitial>,
    pub(crate) bodies: Vec<Body>,
}

/// Numbers what `:init` and some instances say.
pub(crate) fn number_all<'a>(
    alloc: Global,
    universe: &Universe<'a>,
    numbering: &mut Numbering,
    initial: &'a [Initial],
    some: &[Instance<'a>],
) -> Result<Numbered, GroundFault>
    requires { numbering.old.atoms ≡ [] }
    ensures { IfOk result (IsNumbered (universe_view universe.now) (map initial_view initial.now)
        (map instance_view some.now) numbering.new) }
{
    let entries = entries(alloc, numbering, initial)?;
    let bodies = lower_instances(alloc, universe, numbering, some)?;
    Ok(Numbered { entries, bodies })
}
