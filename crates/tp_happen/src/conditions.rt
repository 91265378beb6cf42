//! Whether a condition holds in a state.

ghost use Rattle.std.specs.Prelude.{◌≡◌, ◌&&◌, true, false, Some, IfOk, OnOk, OnErr};
ghost use Rattle.tp_task.specs.State as spec;
ghost use Rattle.tp_task.specs.Truth.{compared_values};
ghost use Rattle.tp_happen.specs.Small.{all_small, values_small};
ghost use Rattle.tp_happen.specs.Judged.{finding, of_condition, opposite, of_both, of_either};
ghost use Rattle.tp_happen.specs.Stored.{state_of};

use crate::{Range, State, value};
use tp_task::{AtomId, Comparison, Cond, Expr, compared};

/// What a condition is found to be: one byte, so that it is handed back in a register.
#[derive(Clone, Copy)]
enum Finding {
    Holds,
    Fails,
    /// A fluent that it mentions has no number.
    Undefined,
    /// A part of an expression passes 10^15.
    Range,
}

/// Whether a condition holds. `Range` where a part of an expression passes 10^15.
pub fn holds(state: &State, cond: &Cond) -> Result<bool, Range>
    ensures ok { IfOk result (λ b. b ≡ spec.holds (state_of state.now) cond.now) }
    ensures small { OnOk result (all_small (state_of state.now) cond.now ≡ true) }
    ensures err { OnErr result (all_small (state_of state.now) cond.now ≡ false) }
{
    match found(state, cond) {
        Finding::Holds => Ok(true),
        Finding::Fails | Finding::Undefined => Ok(false),
        Finding::Range => Err(Range),
    }
}

fn not(x: Finding) -> Finding
    ensures { result ≡ opposite x }
{
    match x {
        Finding::Holds => Finding::Fails,
        Finding::Fails => Finding::Holds,
        other => other,
    }
}

// Of a conjunction, by what its parts are found to be.
fn and(x: Finding, y: Finding) -> Finding
    ensures { result ≡ of_both x y }
{
    match (x, y) {
        (Finding::Range, _) | (_, Finding::Range) => Finding::Range,
        (Finding::Undefined, _) | (_, Finding::Undefined) => Finding::Undefined,
        (Finding::Holds, Finding::Holds) => Finding::Holds,
        _ => Finding::Fails,
    }
}

// Of a disjunction.
fn or(x: Finding, y: Finding) -> Finding
    ensures { result ≡ of_either x y }
{
    match (x, y) {
        (Finding::Range, _) | (_, Finding::Range) => Finding::Range,
        (Finding::Undefined, _) | (_, Finding::Undefined) => Finding::Undefined,
        (Finding::Fails, Finding::Fails) => Finding::Fails,
        _ => Finding::Holds,
    }
}

fn comparison(state: &State, how: Comparison, x: &Expr, y: &Expr) -> Result<Option<bool>, Range>
    ensures ok { IfOk result (λ v. v ≡ compared_values how
        (spec.value (state_of state.now) None x.now) (spec.value (state_of state.now) None y.now)) }
    ensures small { OnOk result (values_small (state_of state.now) None x.now
        && values_small (state_of state.now) None y.now ≡ true) }
    ensures err { OnErr result (values_small (state_of state.now) None x.now
        && values_small (state_of state.now) None y.now ≡ false) }
{
    let a = value(state, None, x)?;
    let b = value(state, None, y)?;
    Ok(compared(how, a, b))
}

fn atom_found(state: &State, atom: u32) -> Finding
    ensures { result ≡ finding true (Some ((state_of state.now).atom atom)) }
{
    if state.has(AtomId(atom)) {
        Finding::Holds
    } else {
        Finding::Fails
    }
}

// Most parts of what is joined by `and` and `or` are atoms, which cost no call.
fn found(state: &State, cond: &Cond) -> Finding
    ensures { result ≡ of_condition (state_of state.now) cond.now }
{
    match cond {
        Cond::Atom(a) => atom_found(state, *a),
        Cond::Compare(how, x, y) => match comparison(state, *how, x, y) {
            Ok(Some(true)) => Finding::Holds,
            Ok(Some(false)) => Finding::Fails,
            Ok(None) => Finding::Undefined,
            Err(Range) => Finding::Range,
        },
        Cond::Not(c) => not(found(state, c)),
        Cond::And(cs) => {
            let mut all = Finding::Holds;
            for c in cs {
                let part = match c {
                    Cond::Atom(a) => atom_found(state, *a),
                    _ => found(state, c),
                };
                all = and(all, part);
            }
            all
        }
        Cond::Or(cs) => {
            let mut any = Finding::Fails;
            for c in cs {
                let part = match c {
                    Cond::Atom(a) => atom_found(state, *a),
                    _ => found(state, c),
                };
                any = or(any, part);
            }
            any
        }
    }
}
