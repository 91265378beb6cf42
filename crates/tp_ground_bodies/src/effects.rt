//! Effects, and the parts of a durative action at its time specifiers.

ghost use Rattle.std.specs.Prelude.{◌≡◌, ◌∷◌, []};
ghost use Rattle.tp_syntax_ast.specs.Terms.{atom_view};
ghost use Rattle.tp_syntax_ast.specs.ExprViews.{expr_view};
ghost use Rattle.tp_syntax_ast.specs.CondViews.{cond_view};
ghost use Rattle.tp_syntax_ast.specs.EffectViews.{simple_effect_view, effect_view, timed_view};
ghost use Rattle.tp_syntax_ast.specs.Conditions.{Condition};
ghost use Rattle.tp_syntax_ast.specs.Effects;
ghost use Rattle.tp_ground_bindings.specs.Views.{env_view, universe_view};
ghost use Rattle.tp_ground_bindings.specs.Bindings.{words_in};
ghost use Rattle.tp_task.specs.Tables.{Tables};
ghost use Rattle.tp_ground_bodies.specs.Written.{GroundCondition, GroundEffect, expression_in, change_of, is_specifier, simple_effect_part, condition_part, simple_effects_part};
ghost use Rattle.tp_ground_bodies.specs.Mentions.{◌then◌, an_atom, a_fluent, of_expression, of_simple_effect, of_condition};
ghost use Rattle.tp_ground_bodies.specs.ReadBack.{named_condition, named_write};
ghost use Rattle.tp_ground_bodies.specs.Changes.{shows_atoms, shows_writes, shows_changes};
ghost use Rattle.tp_ground_bodies.specs.Gathered.{list_shows, Gathers};
ghost use Rattle.tp_ground_bodies.specs.Lowered.{Lowers};

use crate::changes::Changes;
use crate::conditions::condition;
use crate::expressions::expression;
use crate::numbers::{atom, fluent};
use crate::parts::{Lowerable, push_part};
use std::alloc::Global;
use tp_ground_bindings::{Env, Universe};
use tp_syntax_ast::{Atom, Effect, Expr, SimpleEffect, TimeSpecifier, Timed, Writing};
use tp_task::{Change, Cond, GroundFault, Numbering, NumericEffect};

fn change_of(writing: Writing) -> Change
    ensures { result ≡ change_of writing }
{
    match writing {
        Writing::Assign => Change::Assign,
        Writing::Increase => Change::Increase,
        Writing::Decrease => Change::Decrease,
        Writing::ScaleUp => Change::ScaleUp,
    }
}

fn write<'a>(
    alloc: Global,
    env: &Env<'_, 'a>,
    numbering: &mut Numbering,
    writing: Writing,
    atom: &'a Atom,
    value: &'a Expr,
) -> Result<NumericEffect, GroundFault>
    ensures { Lowers named_write numbering.old result numbering.new (record {
      change = change_of writing;
      fluent = words_in (env_view env.now) (atom_view atom.now);
      value = expression_in (env_view env.now) (expr_view value.now);
    }) (a_fluent (words_in (env_view env.now) (atom_view atom.now))
        then of_expression (expression_in (env_view env.now) (expr_view value.now))) }
{
    let fluent = fluent(alloc, env, numbering, atom)?;
    let value = expression(alloc, env, numbering, value)?;
    Ok(NumericEffect {
        fluent,
        change: change_of(writing),
        value,
    })
}

// Puts the number of an atom at the end of a list.
fn push_atom<'a>(
    alloc: Global,
    env: &Env<'_, 'a>,
    numbering: &mut Numbering,
    fact: &'a Atom,
    into: &mut Vec<u32>,
) -> Result<(), GroundFault>
    ensures { let w = words_in (env_view env.now) (atom_view fact.now) in
        Gathers shows_atoms numbering.old result numbering.new into.old into.new (w ∷ [])
        (an_atom w) }
{
    let number = atom(alloc, env, numbering, fact)?;
    into.push(number)?;
    Ok(())
}

// Puts a write at the end of a list.
fn push_write<'a>(
    alloc: Global,
    env: &Env<'_, 'a>,
    numbering: &mut Numbering,
    writing: Writing,
    atom: &'a Atom,
    value: &'a Expr,
    into: &mut Vec<NumericEffect>,
) -> Result<(), GroundFault>
    ensures { let w = words_in (env_view env.now) (atom_view atom.now) in
        let x = expression_in (env_view env.now) (expr_view value.now) in
        Gathers shows_writes numbering.old result numbering.new into.old into.new
        (record { change = change_of writing; fluent = w; value = x } ∷ [])
        (a_fluent w then of_expression x) }
{
    into.push(write(alloc, env, numbering, writing, atom, value)?)?;
    Ok(())
}

// No changes.
fn no_changes(alloc: Global) -> Changes
    ensures { (t : Tables) → shows_changes t result [] }
{
    Changes {
        adds: Vec::new(alloc),
        deletes: Vec::new(alloc),
        writes: Vec::new(alloc),
    }
}

fn is_specifier(left: TimeSpecifier, right: TimeSpecifier) -> bool
    ensures { result ≡ is_specifier left right }
{
    matches!(
        (left, right),
        (TimeSpecifier::AtStart, TimeSpecifier::AtStart)
            | (TimeSpecifier::OverAll, TimeSpecifier::OverAll)
            | (TimeSpecifier::AtEnd, TimeSpecifier::AtEnd)
    )
}

impl Lowerable for SimpleEffect {
    type Gathered = Changes;

    ghost Seen = { Effects.SimpleEffect };

    ghost Written = { GroundEffect };

    ghost seen = { simple_effect_view };

    ghost shows = { shows_changes };

    ghost mentions = { of_simple_effect };

    ghost written = { simple_effect_part };

    fn begun(alloc: Global) -> Changes {
        no_changes(alloc)
    }

    fn lower<'a>(
        &'a self,
        alloc: Global,
        _universe: &Universe<'a>,
        env: &Env<'_, 'a>,
        _mark: TimeSpecifier,
        numbering: &mut Numbering,
        into: &mut Changes,
    ) -> Result<(), GroundFault> {
        match self {
            SimpleEffect::Add(added) => push_atom(alloc, env, numbering, added, &mut into.adds),
            SimpleEffect::Delete(deleted) => {
                push_atom(alloc, env, numbering, deleted, &mut into.deletes)
            }
            SimpleEffect::Write(writing, fluent, value) => {
                let writes = &mut into.writes;
                push_write(alloc, env, numbering, *writing, fluent, value, writes)
            }
        }
    }
}

impl Lowerable for Timed<tp_syntax_ast::Cond> {
    type Gathered = Vec<Cond>;

    ghost Seen = { Effects.Timed Condition };

    ghost Written = { GroundCondition };

    ghost seen = { timed_view cond_view };

    ghost shows = { list_shows named_condition };

    ghost mentions = { of_condition };

    ghost written = { condition_part };

    fn begun(alloc: Global) -> Vec<Cond> {
        Vec::new(alloc)
    }

    fn lower<'a>(
        &'a self,
        alloc: Global,
        universe: &Universe<'a>,
        env: &Env<'_, 'a>,
        specifier: TimeSpecifier,
        numbering: &mut Numbering,
        into: &mut Vec<Cond>,
    ) -> Result<(), GroundFault> {
        if !is_specifier(self.specifier, specifier) {
            return Ok(());
        }
        into.push(condition(alloc, universe, env, numbering, &self.what)?)?;
        Ok(())
    }
}

impl Lowerable for Timed<Effect> {
    type Gathered = Changes;

    ghost Seen = { Effects.Timed Effects.Effect };

    ghost Written = { GroundEffect };

    ghost seen = { timed_view effect_view };

    ghost shows = { shows_changes };

    ghost mentions = { of_simple_effect };

    ghost written = { simple_effects_part };

    fn begun(alloc: Global) -> Changes {
        no_changes(alloc)
    }

    fn lower<'a>(
        &'a self,
        alloc: Global,
        universe: &Universe<'a>,
        env: &Env<'_, 'a>,
        specifier: TimeSpecifier,
        numbering: &mut Numbering,
        into: &mut Changes,
    ) -> Result<(), GroundFault> {
        if !is_specifier(self.specifier, specifier) {
            return Ok(());
        }
        push_part(alloc, universe, env, specifier, numbering, &self.what, into)
    }
}
