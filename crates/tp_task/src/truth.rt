//! Whether parts of a condition hold where fluents may lack numbers, and whether an event's effects
//! mention the duration.

ghost use Rattle.std.specs.Prelude.{◌≡◌, not};
ghost use Rattle.std.specs.List.{list_any};
ghost use Rattle.std.specs.Option.{option_map};
ghost use Rattle.tp_task.specs.Bounds as bounds;
ghost use Rattle.tp_task.specs.State as spec;
ghost use Rattle.tp_task.specs.State.{mentions_duration};
ghost use Rattle.tp_task.specs.Truth.{and_both, or_both, compared_values};

use crate::{Comparison, Expr, GroundEvent, NumericEffect};

/// The opposite, where there is a truth.
pub fn not(x: Option<bool>) -> Option<bool>
    ensures { result ≡ option_map (λ b. not b) x }
{
    match x {
        Some(b) => Some(!b),
        None => None,
    }
}

/// Whether both hold, where both have a truth.
pub fn and(x: Option<bool>, y: Option<bool>) -> Option<bool>
    ensures { result ≡ and_both x y }
{
    match (x, y) {
        (Some(a), Some(b)) => Some(a && b),
        _ => None,
    }
}

/// Whether one of both holds, where both have a truth.
pub fn or(x: Option<bool>, y: Option<bool>) -> Option<bool>
    ensures { result ≡ or_both x y }
{
    match (x, y) {
        (Some(a), Some(b)) => Some(a || b),
        _ => None,
    }
}

/// Whether two numbers compare so, where both are there.
pub fn compared(how: Comparison, x: Option<i64>, y: Option<i64>) -> Option<bool>
    ensures { result ≡ compared_values how x y }
{
    match (x, y) {
        (Some(a), Some(b)) => Some(compares(how, a, b)),
        _ => None,
    }
}

/// Whether two numbers compare so.
pub fn compares(how: Comparison, x: i64, y: i64) -> bool
    ensures { result ≡ spec.compares how x y }
{
    match how {
        Comparison::Less => x < y,
        Comparison::AtMost => x <= y,
        Comparison::Equal => x == y,
        Comparison::AtLeast => x >= y,
        Comparison::Greater => x > y,
    }
}

/// Whether an expression mentions the duration.
fn mentions_duration(expr: &Expr) -> bool
    ensures { result ≡ mentions_duration expr.now }
{
    match expr {
        Expr::Duration => true,
        Expr::Number(_) | Expr::Fluent(_) => false,
        Expr::Negated(x) => mentions_duration(x),
        Expr::Sum(x, y) | Expr::Difference(x, y) | Expr::Product(x, y) => {
            mentions_duration(x) || mentions_duration(y)
        }
    }
}

fn some_mentions_duration(effects: &[NumericEffect]) -> bool
    ensures { result ≡ list_any (λ w. mentions_duration w.value) effects.now }
{
    effects.iter().any(|w| mentions_duration(&w.value))
}

/// Whether an effect of an event mentions the duration.
pub fn uses_duration(event: &GroundEvent) -> bool
    ensures { result ≡ bounds.uses_duration event.now }
{
    some_mentions_duration(&event.writes)
}
