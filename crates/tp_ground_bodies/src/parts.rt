//! What is joined by `and` and `forall`, written out one after another.

ghost use Rattle.std.specs.Prelude.{List, [], map};
ghost use Rattle.std.specs.List.{flat_map};
ghost use Rattle.tp_syntax_ast.specs.Symbols.{typed_view};
ghost use Rattle.tp_syntax_ast.specs.PartViews.{joined_view};
ghost use Rattle.tp_syntax_ast.specs.declared.words.TimeSpecifier as specifiers;
ghost use Rattle.tp_ground_bindings.specs.Bindings as bindings;
ghost use Rattle.tp_ground_bindings.specs.Views.{env_view, universe_view};
ghost use Rattle.tp_task.specs.Tables.{Tables};
ghost use Rattle.tp_ground_bodies.specs.Written.{parts_in, inner};
ghost use Rattle.tp_ground_bodies.specs.Mentions.{Mentions, of_each};
ghost use Rattle.tp_ground_bodies.specs.Gathered.{Gathers, Makes};

use std::alloc::Global;
use tp_ground_bindings::{Env, Universe, rows_of};
use tp_syntax_ast::{Joined, TimeSpecifier, Typed};
use tp_task::{GroundFault, Numbering};

/// What may stand inside.
pub trait Lowerable: Drop {
    /// What it is put into.
    type Gathered: Drop;

    /// What it shows, and what is written out for it.
    ghost Seen: { Type 0 };

    ghost Written: { Type 0 };

    ghost seen: { Self → Seen };

    /// What a collection shows, in tables.
    ghost shows: { Tables → Self.Gathered → List Written → Type 0 };

    ghost mentions: { Written → Mentions };

    /// What is written out at a specifier.
    ghost written: { bindings.Universe → specifiers.TimeSpecifier → bindings.Env
        → Seen → List Written };

    /// A collection of nothing.
    fn begun(alloc: Global) -> Self::Gathered
        ensures { (t : Tables) → shows t result [] };

    /// Puts what it is at a specifier into a collection, behind what is there.
    fn lower<'a>(
        &'a self,
        alloc: Global,
        universe: &Universe<'a>,
        env: &Env<'_, 'a>,
        specifier: TimeSpecifier,
        numbering: &mut Numbering,
        into: &mut Self::Gathered,
    ) -> Result<(), GroundFault>
        ensures { Gathers shows numbering.old result numbering.new into.old into.new (written
            (universe_view universe.now) specifier (env_view env.now) (seen self.now))
            (of_each mentions (written
            (universe_view universe.now) specifier (env_view env.now) (seen self.now))) };
}

#[cycle(push)]
fn push_parts<'a, P: Lowerable>(
    alloc: Global,
    universe: &Universe<'a>,
    env: &Env<'_, 'a>,
    specifier: TimeSpecifier,
    numbering: &mut Numbering,
    parts: &'a [Joined<P>],
    into: &mut P::Gathered,
) -> Result<(), GroundFault>
    ensures { Gathers P.shows numbering.old result numbering.new into.old into.new
        (flat_map (λ p. parts_in (universe_view universe.now) (P.written
        (universe_view universe.now) specifier) (env_view env.now)
        (joined_view P.seen p)) parts.now)
        (of_each P.mentions (flat_map (λ p. parts_in (universe_view universe.now) (P.written
        (universe_view universe.now) specifier) (env_view env.now)
        (joined_view P.seen p)) parts.now)) }
{
    for part in parts {
        push_part(alloc, universe, env, specifier, numbering, part, into)?;
    }
    Ok(())
}

// Parts under each binding of variables.
#[cycle(push)]
fn push_under_each<'a, P: Lowerable>(
    alloc: Global,
    universe: &Universe<'a>,
    env: &Env<'_, 'a>,
    specifier: TimeSpecifier,
    numbering: &mut Numbering,
    variables: &'a [Typed],
    part: &'a Joined<P>,
    into: &mut P::Gathered,
) -> Result<(), GroundFault>
    ensures { Gathers P.shows numbering.old result numbering.new into.old into.new
        (flat_map (λ e. parts_in (universe_view universe.now)
        (P.written (universe_view universe.now) specifier) e (joined_view P.seen part.now))
        (inner (universe_view universe.now) (env_view env.now) (map typed_view variables.now)))
        (of_each P.mentions (flat_map (λ e. parts_in (universe_view universe.now)
        (P.written (universe_view universe.now) specifier) e (joined_view P.seen part.now))
        (inner (universe_view universe.now) (env_view env.now) (map typed_view variables.now)))) }
{
    let mut rows = rows_of(alloc, universe, variables)?;
    'rows: while rows.advance() {
        let inner = Env::Inner(&*variables, &rows.row, &*env);
        push_part(alloc, universe, &inner, specifier, numbering, part, into)?;
    }
    Ok(())
}

/// Puts the parts at a specifier into a collection, each after the one before.
#[cycle(push)]
pub fn push_part<'a, P: Lowerable>(
    alloc: Global,
    universe: &Universe<'a>,
    env: &Env<'_, 'a>,
    specifier: TimeSpecifier,
    numbering: &mut Numbering,
    part: &'a Joined<P>,
    into: &mut P::Gathered,
) -> Result<(), GroundFault>
    ensures { Gathers P.shows numbering.old result numbering.new into.old into.new
        (parts_in (universe_view universe.now) (P.written (universe_view universe.now) specifier)
        (env_view env.now) (joined_view P.seen part.now))
        (of_each P.mentions (parts_in (universe_view universe.now) (P.written
        (universe_view universe.now) specifier) (env_view env.now) (joined_view P.seen part.now))) }
{
    match part {
        Joined::And(parts) => {
            push_parts(alloc, universe, env, specifier, numbering, parts, into)
        }
        Joined::Forall(variables, inner) => {
            let variables = variables.as_slice();
            push_under_each(
                alloc, universe, env, specifier, numbering, variables, inner, into,
            )
        }
        Joined::One(one) => one.lower(alloc, universe, env, specifier, numbering, into),
    }
}

/// The parts at a specifier, each after the one before.
pub fn joined<'a, P: Lowerable>(
    alloc: Global,
    universe: &Universe<'a>,
    env: &Env<'_, 'a>,
    specifier: TimeSpecifier,
    numbering: &mut Numbering,
    part: &'a Joined<P>,
) -> Result<P::Gathered, GroundFault>
    ensures { Makes P.shows numbering.old result numbering.new
        (parts_in (universe_view universe.now) (P.written (universe_view universe.now) specifier)
        (env_view env.now) (joined_view P.seen part.now))
        (of_each P.mentions (parts_in (universe_view universe.now) (P.written
        (universe_view universe.now) specifier) (env_view env.now) (joined_view P.seen part.now))) }
{
    let mut gathered = P::begun(alloc);
    push_part(
        alloc,
        universe,
        env,
        specifier,
        numbering,
        part,
        &mut gathered,
    )?;
    Ok(gathered)
}
