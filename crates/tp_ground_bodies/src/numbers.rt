//! The numbers of atoms and fluents under a binding.

ghost use Rattle.std.specs.Prelude.{◌≡◌, map};
ghost use Rattle.tp_syntax_ast.specs.Terms.{atom_view};
ghost use Rattle.tp_ground_bindings.specs.Bindings.{words_in};
ghost use Rattle.tp_ground_bindings.specs.Views.{env_view};
ghost use Rattle.tp_task.specs.Tables.{words_at};
ghost use Rattle.tp_ground_bodies.specs.Mentions.{an_atom, a_fluent};
ghost use Rattle.tp_ground_bodies.specs.Lowered.{Lowers};

use std::alloc::Global;
use tp_ground_bindings::{Env, words_in};
use tp_syntax_ast::Atom;
use tp_task::{GroundFault, Numbering};

// The number of the atom of some words, which gets the next one if it has none.
fn atom_of(numbering: &mut Numbering, words: &[&str]) -> Result<u32, GroundFault>
    ensures { Lowers (λ t i. words_at t.atoms i) numbering.old result numbering.new
        (map (λ w. w.now) words.now) (an_atom (map (λ w. w.now) words.now)) }
{
    numbering.atom(words)
}

// The same of a fluent.
fn fluent_of(numbering: &mut Numbering, words: &[&str]) -> Result<u32, GroundFault>
    ensures { Lowers (λ t i. words_at t.fluents i) numbering.old result numbering.new
        (map (λ w. w.now) words.now) (a_fluent (map (λ w. w.now) words.now)) }
{
    numbering.fluent(words)
}

/// The number of an atom.
pub fn atom<'a>(
    alloc: Global,
    env: &Env<'_, 'a>,
    numbering: &mut Numbering,
    atom: &'a Atom,
) -> Result<u32, GroundFault>
    ensures { Lowers (λ t i. words_at t.atoms i) numbering.old result numbering.new
        (words_in (env_view env.now) (atom_view atom.now))
        (an_atom (words_in (env_view env.now) (atom_view atom.now))) }
{
    let words = words_in(alloc, env, atom)?;
    atom_of(numbering, &words)
}

/// The number of a fluent.
pub fn fluent<'a>(
    alloc: Global,
    env: &Env<'_, 'a>,
    numbering: &mut Numbering,
    atom: &'a Atom,
) -> Result<u32, GroundFault>
    ensures { Lowers (λ t i. words_at t.fluents i) numbering.old result numbering.new
        (words_in (env_view env.now) (atom_view atom.now))
        (a_fluent (words_in (env_view env.now) (atom_view atom.now))) }
{
    let words = words_in(alloc, env, atom)?;
    fluent_of(numbering, &words)
}
