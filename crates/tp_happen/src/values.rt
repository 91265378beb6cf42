//! What an expression is worth in a state.

ghost use Rattle.std.specs.Prelude.{◌≡◌, true, false, IfOk, OnOk, OnErr, ◌+ℤ◌, ◌-ℤ◌, ◌*ℤ◌};
ghost use Rattle.tp_task.specs.State as spec;
ghost use Rattle.tp_happen.specs.Small.{is_small, values_small};
ghost use Rattle.tp_happen.specs.Stored.{state_of};

use crate::State;
use thiserror::Error;
use tp_task::{Expr, FluentId, GREATEST_NUMBER};

/// A number passed 10^15 in absolute value. Nothing else stops a value from being worked out.
#[derive(Clone, Copy, Debug, PartialEq, Eq, Error)]
#[error("a number passed 10^15")]
pub struct Range;

/// A value, unless it passes 10^15.
pub(crate) fn small(x: Option<i64>) -> Result<Option<i64>, Range>
    ensures ok { IfOk result (λ y. (y ≡ x) × (is_small x ≡ true)) }
    ensures err { OnErr result (is_small x ≡ false) }
{
    match x {
        Some(n) => {
            if n.unsigned_abs() > GREATEST_NUMBER {
                Err(Range)
            } else {
                Ok(x)
            }
        }
        None => Ok(None),
    }
}

/// The value of an expression, in a state and for a duration in units. `Range` where it or a part
/// passes 10^15.
pub fn value(state: &State, duration: Option<i64>, expr: &Expr) -> Result<Option<i64>, Range>
    ensures ok { IfOk result (λ v. v ≡ spec.value (state_of state.now) duration expr.now) }
    ensures small { OnOk result (values_small (state_of state.now) duration expr.now ≡ true) }
    ensures within { IfOk result (λ v. is_small v ≡ true) }
    ensures err { OnErr result (values_small (state_of state.now) duration expr.now ≡ false) }
{
    match expr {
        Expr::Number(n) => small(Some(*n)),
        Expr::Fluent(f) => small(state.number(FluentId(*f))),
        Expr::Duration => small(duration),
        Expr::Negated(x) => Ok(negated(value(state, duration, x)?)),
        Expr::Sum(x, y) => {
            let a = value(state, duration, x)?;
            let b = value(state, duration, y)?;
            sum(a, b)
        }
        Expr::Difference(x, y) => {
            let a = value(state, duration, x)?;
            let b = value(state, duration, y)?;
            difference(a, b)
        }
        Expr::Product(x, y) => {
            let a = value(state, duration, x)?;
            let b = value(state, duration, y)?;
            product(a, b)
        }
    }
}

fn negated(x: Option<i64>) -> Option<i64>
    requires { is_small x ≡ true }
    ensures value { result ≡ spec.negated x }
    ensures small { is_small result ≡ true }
{
    match x {
        Some(a) => Some(-a),
        None => None,
    }
}

pub(crate) fn sum(x: Option<i64>, y: Option<i64>) -> Result<Option<i64>, Range>
    requires x { is_small x ≡ true }
    requires y { is_small y ≡ true }
    ensures ok { IfOk result (λ v. (v ≡ spec.both ◌+ℤ◌ x y)
        × (is_small (spec.both ◌+ℤ◌ x y) ≡ true)) }
    ensures err { OnErr result (is_small (spec.both ◌+ℤ◌ x y) ≡ false) }
{
    match (x, y) {
        (Some(a), Some(b)) => small(Some(a + b)),
        _ => Ok(None),
    }
}

pub(crate) fn difference(x: Option<i64>, y: Option<i64>) -> Result<Option<i64>, Range>
    requires x { is_small x ≡ true }
    requires y { is_small y ≡ true }
    ensures ok { IfOk result (λ v. (v ≡ spec.both ◌-ℤ◌ x y)
        × (is_small (spec.both ◌-ℤ◌ x y) ≡ true)) }
    ensures err { OnErr result (is_small (spec.both ◌-ℤ◌ x y) ≡ false) }
{
    match (x, y) {
        (Some(a), Some(b)) => small(Some(a - b)),
        _ => Ok(None),
    }
}

pub(crate) fn product(x: Option<i64>, y: Option<i64>) -> Result<Option<i64>, Range>
    requires x { is_small x ≡ true }
    requires y { is_small y ≡ true }
    ensures ok { IfOk result (λ v. (v ≡ spec.both ◌*ℤ◌ x y)
        × (is_small (spec.both ◌*ℤ◌ x y) ≡ true)) }
    ensures err { OnErr result (is_small (spec.both ◌*ℤ◌ x y) ≡ false) }
{
    match (x, y) {
        (Some(a), Some(b)) => match a.checked_mul(b) {
            Some(c) => small(Some(c)),
            None => Err(Range),
        },
        _ => Ok(None),
    }
}
