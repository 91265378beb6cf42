//! The atoms and fluents that an event mentions, as lists.

ghost use Rattle.std.specs.Prelude.{◌≡◌, ◌++◌, not, map, OnOk, IfOk};
ghost use Rattle.std.specs.List.{flat_map, filter};
ghost use Rattle.tp_task.specs.State.{atoms_in, fluents_in, fluents_of};
ghost use Rattle.tp_task.specs.Event as spec;
ghost use Rattle.tp_task.specs.Event.{fluents_read};

use crate::interfere::is_additive;
use std::alloc::{AllocError, Global};
use tp_task::{Cond, Expr, GroundEvent, Limit, NumericEffect};

/// Appends the atoms that a condition mentions.
#[cycle(push_atoms)]
#[tactic(auto, using(crate::proofs::Mentioned::atoms_And, crate::proofs::Mentioned::atoms_Or))]
pub(crate) fn push_atoms(cond: &Cond, into: &mut Vec<u32>) -> Result<(), AllocError>
    ensures { OnOk result (into.new.items ≡ into.old.items ++ atoms_in cond.now) }
{
    match cond {
        Cond::Atom(a) => {
            into.push(*a)?;
            Ok(())
        }
        Cond::Compare(_, _, _) => Ok(()),
        Cond::Not(c) => push_atoms(c, into),
        Cond::And(cs) => push_atoms_of_each(cs, into),
        Cond::Or(cs) => push_atoms_of_each(cs, into),
    }
}

// Most parts are atoms, which cost no call.
#[cycle(push_atoms)]
fn push_atoms_of_each(conds: &[Cond], into: &mut Vec<u32>) -> Result<(), AllocError>
    ensures { OnOk result (into.new.items ≡ into.old.items ++ flat_map atoms_in conds.now) }
{
    for c in conds {
        match c {
            Cond::Atom(a) => into.push(*a)?,
            _ => push_atoms(c, into)?,
        }
    }
    Ok(())
}

/// Appends the fluents that an expression mentions.
fn push_fluents(expr: &Expr, into: &mut Vec<u32>) -> Result<(), AllocError>
    ensures { OnOk result (into.new.items ≡ into.old.items ++ fluents_of expr.now) }
{
    match expr {
        Expr::Number(_) | Expr::Duration => Ok(()),
        Expr::Fluent(f) => {
            into.push(*f)?;
            Ok(())
        }
        Expr::Negated(x) => push_fluents(x, into),
        Expr::Sum(x, y) | Expr::Difference(x, y) | Expr::Product(x, y) => {
            push_fluents(x, into)?;
            push_fluents(y, into)
        }
    }
}

/// Appends the fluents that a condition mentions.
#[cycle(push_fluents_in)]
#[tactic(auto, using(crate::proofs::Mentioned::fluents_And, crate::proofs::Mentioned::fluents_Or))]
fn push_fluents_in(cond: &Cond, into: &mut Vec<u32>) -> Result<(), AllocError>
    ensures { OnOk result (into.new.items ≡ into.old.items ++ fluents_in cond.now) }
{
    match cond {
        Cond::Atom(_) => Ok(()),
        Cond::Compare(_, x, y) => {
            push_fluents(x, into)?;
            push_fluents(y, into)
        }
        Cond::Not(c) => push_fluents_in(c, into),
        Cond::And(cs) => push_fluents_in_each(cs, into),
        Cond::Or(cs) => push_fluents_in_each(cs, into),
    }
}

// Most parts are atoms, in which nothing is looked for.
#[cycle(push_fluents_in)]
fn push_fluents_in_each(conds: &[Cond], into: &mut Vec<u32>) -> Result<(), AllocError>
    ensures { OnOk result (into.new.items ≡ into.old.items ++ flat_map fluents_in conds.now) }
{
    for c in conds {
        if !matches!(c, Cond::Atom(_)) {
            push_fluents_in(c, into)?;
        }
    }
    Ok(())
}

/// The atoms that a condition mentions, once for each mention.
pub fn atoms_of(alloc: Global, cond: &Cond) -> Result<Vec<u32>, AllocError>
    ensures { IfOk result (λ v. v.items ≡ atoms_in cond.now) }
{
    let mut atoms = Vec::new(alloc);
    push_atoms(cond, &mut atoms)?;
    Ok(atoms)
}

/// The fluents that a condition mentions, once for each mention.
pub fn fluents_of(alloc: Global, cond: &Cond) -> Result<Vec<u32>, AllocError>
    ensures { IfOk result (λ v. v.items ≡ fluents_in cond.now) }
{
    let mut fluents = Vec::new(alloc);
    push_fluents_in(cond, &mut fluents)?;
    Ok(fluents)
}

fn push_values(effects: &[NumericEffect], into: &mut Vec<u32>) -> Result<(), AllocError>
    ensures { OnOk result
        (into.new.items ≡ into.old.items ++ flat_map (λ w. fluents_of w.value) effects.now) }
{
    for effect in effects {
        push_fluents(&effect.value, into)?;
    }
    Ok(())
}

fn push_limits(constraint: &[Limit], into: &mut Vec<u32>) -> Result<(), AllocError>
    ensures { OnOk result
        (into.new.items ≡ into.old.items ++ flat_map (λ l. fluents_of l.value) constraint.now) }
{
    for limit in constraint {
        push_fluents(&limit.value, into)?;
    }
    Ok(())
}

/// Appends the fluents that an event reads in its condition, right sides or duration constraint.
pub(crate) fn push_read(event: &GroundEvent, into: &mut Vec<u32>) -> Result<(), AllocError>
    ensures { OnOk result (into.new.items ≡ into.old.items ++ fluents_read event.now) }
{
    push_fluents_in(&event.condition, into)?;
    push_values(&event.writes, into)?;
    push_limits(&event.constraint, into)
}

/// Appends the fluents that effects write.
pub(crate) fn push_written(effects: &[NumericEffect], into: &mut Vec<u32>) -> Result<(), AllocError>
    ensures { OnOk result (into.new.items ≡ into.old.items ++ map (λ w. w.fluent) effects.now) }
{
    for effect in effects {
        into.push(effect.fluent)?;
    }
    Ok(())
}

/// Appends the fluents that effects set.
pub(crate) fn push_set(effects: &[NumericEffect], into: &mut Vec<u32>) -> Result<(), AllocError>
    ensures { OnOk result (into.new.items ≡ into.old.items
        ++ map (λ w. w.fluent) (filter (λ w. not (spec.is_additive w.change)) effects.now)) }
{
    for effect in effects {
        if !is_additive(effect.change) {
            into.push(effect.fluent)?;
        }
    }
    Ok(())
}
