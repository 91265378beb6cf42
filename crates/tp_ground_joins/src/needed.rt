//! What each use of an action needs to be true at some time, as far as that stands alone, and the
//! names of the atoms that effects add.

ghost use Rattle.std.specs.Prelude.{◌≡◌, ◌++◌, ℕ, List, Bool, map, IfOk, OnOk};
ghost use Rattle.std.specs.List.{flat_map, list_any};
ghost use Rattle.tp_syntax_ast.specs.CondViews.{cond_view};
ghost use Rattle.tp_syntax_ast.specs.PartViews.{joined_view};
ghost use Rattle.tp_syntax_ast.specs.EffectViews.{simple_effect_view, effect_view, timed_view, timed_condition_view, timed_effect_view};
ghost use Rattle.tp_syntax_ast.specs.DomainViews.{body_view, action_view};
ghost use Rattle.tp_syntax_ast.specs.Effects;
ghost use Rattle.tp_ground_laws.specs.Needed.{conjuncts, timed_conjuncts, needed, some_part, adds_name, body_adds, is_added};
ghost use Rattle.tp_ground_joins.specs.Facts.{fact_seen};

use std::alloc::{AllocError, Global};
use tp_syntax_ast::{Action, Atom, Body, Cond, Effect, Joined, SimpleEffect, Timed};

// ---- names that effects add

// What may be joined, with effects in it.
trait Adding: Drop {
    /// What it shows.
    ghost Seen: { Type 0 };

    ghost seen: { Self → Seen };

    /// Whether an effect in it adds an atom of a name.
    ghost adds: { List ℕ → Seen → Bool };

    fn has_add(&self, name: &str) -> bool
        ensures { result ≡ adds name.now (seen self.now) };
}

#[cycle(part_adds)]
fn some_part_adds<P: Adding>(parts: &[Joined<P>], name: &str) -> bool
    ensures { result
        ≡ list_any (λ p. some_part (P.adds name.now) (joined_view P.seen p)) parts.now }
{
    for part in parts {
        if part_adds(part, name) {
            return true;
        }
    }
    false
}

#[cycle(part_adds)]
fn part_adds<P: Adding>(part: &Joined<P>, name: &str) -> bool
    ensures { result ≡ some_part (P.adds name.now) (joined_view P.seen part.now) }
{
    match part {
        Joined::And(parts) => some_part_adds(parts, name),
        Joined::Forall(_, inner) => part_adds(inner, name),
        Joined::One(one) => one.has_add(name),
    }
}

impl Adding for SimpleEffect {
    ghost Seen = { Effects.SimpleEffect };

    ghost seen = { simple_effect_view };

    ghost adds = { adds_name };

    fn has_add(&self, name: &str) -> bool {
        match self {
            SimpleEffect::Add(atom) => atom.name.as_str() == name,
            SimpleEffect::Delete(_) | SimpleEffect::Write(_, _, _) => false,
        }
    }
}

impl Adding for Timed<Effect> {
    ghost Seen = { Effects.Timed Effects.Effect };

    ghost seen = { timed_view effect_view };

    ghost adds = { λ n t. some_part (adds_name n) t.what };

    fn has_add(&self, name: &str) -> bool {
        part_adds(&self.what, name)
    }
}

fn adds(body: &Body, name: &str) -> bool
    ensures { result ≡ body_adds name.now (body_view body.now) }
{
    match body {
        Body::Instant {
            precondition: _,
            effect,
        } => part_adds(effect, name),
        Body::Durative {
            duration: _,
            condition: _,
            effect,
        } => part_adds(effect, name),
    }
}

/// Whether an effect of an action adds an atom of a name.
pub(crate) fn are_added(actions: &[Action], name: &str) -> bool
    ensures { result ≡ is_added (map action_view actions.now) name.now }
{
    for action in actions {
        if adds(&action.body, name) {
            return true;
        }
    }
    false
}

// ---- atoms that are needed

#[cycle(push_conjuncts)]
fn push_all_conjuncts<'a>(conds: &'a [Cond], into: &mut Vec<&'a Atom>) -> Result<(), AllocError>
    ensures { OnOk result (map fact_seen into.new.items ≡ map fact_seen into.old.items
        ++ flat_map (λ c. conjuncts (cond_view c)) conds.now) }
{
    for cond in conds {
        push_conjuncts(cond, into)?;
    }
    Ok(())
}

#[cycle(push_conjuncts)]
fn push_conjuncts<'a>(cond: &'a Cond, into: &mut Vec<&'a Atom>) -> Result<(), AllocError>
    ensures { OnOk result (map fact_seen into.new.items
        ≡ map fact_seen into.old.items ++ conjuncts (cond_view cond.now)) }
{
    match cond {
        Cond::And(conds) => push_all_conjuncts(conds, into),
        Cond::Atom(atom) => {
            into.push(atom)?;
            Ok(())
        }
        Cond::Or(_) => Ok(()),
        Cond::Not(_) => Ok(()),
        Cond::Imply(_, _) => Ok(()),
        Cond::Forall(_, _) => Ok(()),
        Cond::Exists(_, _) => Ok(()),
        Cond::Same(_, _) => Ok(()),
        Cond::Compare(_, _, _) => Ok(()),
    }
}

#[cycle(push_timed)]
fn push_all_timed<'a>(
    parts: &'a [Joined<Timed<Cond>>],
    into: &mut Vec<&'a Atom>,
) -> Result<(), AllocError>
    ensures { OnOk result (map fact_seen into.new.items ≡ map fact_seen into.old.items
        ++ flat_map (λ p. timed_conjuncts (timed_condition_view p)) parts.now) }
{
    for part in parts {
        push_timed(part, into)?;
    }
    Ok(())
}

#[cycle(push_timed)]
fn push_timed<'a>(part: &'a Joined<Timed<Cond>>, into: &mut Vec<&'a Atom>) -> Result<(), AllocError>
    ensures { OnOk result (map fact_seen into.new.items
        ≡ map fact_seen into.old.items ++ timed_conjuncts (timed_condition_view part.now)) }
{
    match part {
        Joined::And(parts) => push_all_timed(parts, into),
        Joined::Forall(_, _) => Ok(()),
        Joined::One(one) => push_conjuncts(&one.what, into),
    }
}

/// The atoms that each use of an action needs to be true at some time, as far as they stand alone.
pub(crate) fn needed_of<'a>(alloc: Global, body: &'a Body) -> Result<Vec<&'a Atom>, AllocError>
    ensures { IfOk result (λ v. map fact_seen v.items ≡ needed (body_view body.now)) }
{
    let mut atoms = Vec::new(alloc);
    match body {
        Body::Instant {
            precondition,
            effect: _,
        } => push_conjuncts(precondition, &mut atoms)?,
        Body::Durative {
            duration: _,
            condition,
            effect: _,
        } => push_timed(condition, &mut atoms)?,
    }
    Ok(atoms)
}
