//! Which atoms and fluents an event mentions, and when two events interfere.

ghost use Rattle.std.specs.Prelude.{◌≡◌, ◌==◌, ◌&&◌, ◌||◌, ◌++◌, not};
ghost use Rattle.std.specs.List.{list_any, flat_map};
ghost use Rattle.tp_task.specs.State.{atoms_in, fluents_in, fluents_of};
ghost use Rattle.tp_task.specs.Bounds as bounds;
ghost use Rattle.tp_task.specs.Event as spec;
ghost use Rattle.tp_task.specs.Event.{has, meets, fluents_read, fluents_written, fluents_set};

use crate::Event;
use tp_task::{Change, Cond, Expr, GroundEvent, Limit, NumericEffect, truth};

/// Whether a condition mentions an atom.
#[cycle(mentions_atom)]
#[tactic(auto, using(crate::proofs::Meets::atoms_And, crate::proofs::Meets::atoms_Or))]
fn mentions_atom(cond: &Cond, atom: u32) -> bool
    ensures { result ≡ has (atoms_in cond.now) atom }
{
    match cond {
        Cond::Atom(a) => *a == atom,
        Cond::Compare(_, _, _) => false,
        Cond::Not(c) => mentions_atom(c, atom),
        Cond::And(cs) => some_mentions_atom(cs, atom),
        Cond::Or(cs) => some_mentions_atom(cs, atom),
    }
}

#[cycle(mentions_atom)]
fn some_mentions_atom(conds: &[Cond], atom: u32) -> bool
    ensures { result ≡ list_any (λ c. has (atoms_in c) atom) conds.now }
{
    for c in conds {
        if mentions_atom(c, atom) {
            return true;
        }
    }
    false
}

/// Whether an expression mentions a fluent.
fn mentions(expr: &Expr, fluent: u32) -> bool
    ensures { result ≡ has (fluents_of expr.now) fluent }
{
    match expr {
        Expr::Number(_) | Expr::Duration => false,
        Expr::Fluent(f) => *f == fluent,
        Expr::Negated(x) => mentions(x, fluent),
        Expr::Sum(x, y) | Expr::Difference(x, y) | Expr::Product(x, y) => {
            mentions(x, fluent) || mentions(y, fluent)
        }
    }
}

/// Whether a condition mentions a fluent.
#[cycle(mentions_fluent)]
#[tactic(auto, using(crate::proofs::Meets::fluents_And, crate::proofs::Meets::fluents_Or))]
fn mentions_fluent(cond: &Cond, fluent: u32) -> bool
    ensures { result ≡ has (fluents_in cond.now) fluent }
{
    match cond {
        Cond::Atom(_) => false,
        Cond::Compare(_, x, y) => mentions(x, fluent) || mentions(y, fluent),
        Cond::Not(c) => mentions_fluent(c, fluent),
        Cond::And(cs) => some_mentions_fluent(cs, fluent),
        Cond::Or(cs) => some_mentions_fluent(cs, fluent),
    }
}

#[cycle(mentions_fluent)]
fn some_mentions_fluent(conds: &[Cond], fluent: u32) -> bool
    ensures { result ≡ list_any (λ c. has (fluents_in c) fluent) conds.now }
{
    for c in conds {
        if mentions_fluent(c, fluent) {
            return true;
        }
    }
    false
}

pub(crate) fn is_additive(change: Change) -> bool
    ensures { result ≡ spec.is_additive change }
{
    match change {
        Change::Assign | Change::ScaleUp => false,
        Change::Increase | Change::Decrease => true,
    }
}

fn contains(numbers: &[u32], number: u32) -> bool
    ensures { result ≡ has numbers.now number }
{
    numbers.iter().any(|x| *x == number)
}

fn some_effect_reads(effects: &[NumericEffect], fluent: u32) -> bool
    ensures { result ≡ list_any (λ w. has (fluents_of w.value) fluent) effects.now }
{
    effects.iter().any(|w| mentions(&w.value, fluent))
}

fn some_limit_reads(constraint: &[Limit], fluent: u32) -> bool
    ensures { result ≡ list_any (λ l. has (fluents_of l.value) fluent) constraint.now }
{
    constraint.iter().any(|l| mentions(&l.value, fluent))
}

fn some_effect_writes(effects: &[NumericEffect], fluent: u32) -> bool
    ensures { result ≡ list_any (λ w. w.fluent == fluent) effects.now }
{
    effects.iter().any(|w| w.fluent == fluent)
}

fn effects_read(event: &GroundEvent, fluent: u32) -> bool
    ensures { result ≡ has (flat_map (λ w. fluents_of w.value) event.now.writes.items) fluent }
{
    some_effect_reads(&event.writes, fluent)
}

fn constraint_reads(event: &GroundEvent, fluent: u32) -> bool
    ensures { result ≡ has (flat_map (λ l. fluents_of l.value) event.now.constraint.items) fluent }
{
    some_limit_reads(&event.constraint, fluent)
}

#[tactic(auto, using(crate::proofs::Meets::has_append))]
fn condition_or_effects_read(event: &GroundEvent, fluent: u32) -> bool
    ensures { result ≡ has (fluents_in event.now.condition
        ++ flat_map (λ w. fluents_of w.value) event.now.writes.items) fluent }
{
    mentions_fluent(&event.condition, fluent) || effects_read(event, fluent)
}

/// Whether an event reads a fluent in its condition, right sides or duration constraint.
#[tactic(auto, using(crate::proofs::Meets::has_append))]
fn reads(event: &GroundEvent, fluent: u32) -> bool
    ensures { result ≡ has (fluents_read event.now) fluent }
{
    condition_or_effects_read(event, fluent) || constraint_reads(event, fluent)
}

fn writes(event: &GroundEvent, fluent: u32) -> bool
    ensures { result ≡ has (fluents_written event.now) fluent }
{
    some_effect_writes(&event.writes, fluent)
}

fn some_is_mentioned(atoms: &[u32], cond: &Cond) -> bool
    ensures { result ≡ list_any (λ x. has (atoms_in cond.now) x) atoms.now }
{
    atoms.iter().any(|x| mentions_atom(cond, *x))
}

fn some_is_in(atoms: &[u32], others: &[u32]) -> bool
    ensures { result ≡ list_any (λ x. has others.now x) atoms.now }
{
    atoms.iter().any(|x| contains(others, *x))
}

fn some_is_read(effects: &[NumericEffect], event: &GroundEvent) -> bool
    ensures { result ≡ list_any (λ w. has (fluents_read event.now) w.fluent) effects.now }
{
    effects.iter().any(|w| reads(event, w.fluent))
}

fn some_set_is_written(effects: &[NumericEffect], event: &GroundEvent) -> bool
    ensures { result ≡ list_any (λ w.
        not (spec.is_additive w.change) && has (fluents_written event.now) w.fluent) effects.now }
{
    effects
        .iter()
        .any(|w| !is_additive(w.change) && writes(event, w.fluent))
}

/// Whether an event adds or deletes an atom that the other's condition mentions.
#[tactic(auto, using(crate::proofs::Meets::touches_is))]
fn touches(a: &GroundEvent, b: &GroundEvent) -> bool
    ensures { result ≡ meets (a.now.adds.items ++ a.now.deletes.items) (atoms_in b.now.condition) }
{
    some_is_mentioned(&a.adds, &b.condition) || some_is_mentioned(&a.deletes, &b.condition)
}

fn writes_read(a: &GroundEvent, b: &GroundEvent) -> bool
    ensures { result ≡ meets (fluents_written a.now) (fluents_read b.now) }
{
    some_is_read(&a.writes, b)
}

fn sets_written(a: &GroundEvent, b: &GroundEvent) -> bool
    ensures { result ≡ meets (fluents_set a.now) (fluents_written b.now) }
{
    some_set_is_written(&a.writes, b)
}

/// Whether an event writes a fluent that the other reads, or sets one that it writes.
fn overwrites(a: &GroundEvent, b: &GroundEvent) -> bool
    ensures { result ≡ (meets (fluents_written a.now) (fluents_read b.now)
        || meets (fluents_set a.now) (fluents_written b.now)) }
{
    writes_read(a, b) || sets_written(a, b)
}

fn adds_deleted_or_overwrites(a: &GroundEvent, b: &GroundEvent) -> bool
    ensures { result ≡ (meets a.now.adds.items b.now.deletes.items || (meets (fluents_written a.now)
        (fluents_read b.now) || meets (fluents_set a.now) (fluents_written b.now))) }
{
    some_is_in(&a.adds, &b.deletes) || overwrites(a, b)
}

fn disturbs(a: &GroundEvent, b: &GroundEvent) -> bool
    ensures { result ≡ spec.disturbs a.now b.now }
{
    touches(a, b) || adds_deleted_or_overwrites(a, b)
}

/// Whether what two events do interferes.
pub(crate) fn interfere(a: &GroundEvent, b: &GroundEvent) -> bool
    ensures { result ≡ spec.interferes a.now b.now }
{
    disturbs(a, b) || disturbs(b, a)
}

/// Whether two events interfere: one of them adds or deletes an atom that the other's condition
/// mentions, adds an atom that the other deletes, writes a fluent that the other reads, or sets a
/// fluent that the other writes.
pub fn interferes(first: &Event<'_>, second: &Event<'_>) -> bool
    ensures { result ≡ spec.interferes first.now second.now }
{
    interfere(first.body, second.body)
}

/// Whether an effect of an event mentions the duration.
pub fn uses_duration(event: &Event<'_>) -> bool
    ensures { result ≡ bounds.uses_duration event.now }
{
    truth::uses_duration(event.body)
}
