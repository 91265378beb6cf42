//! Whether a number of a domain's actions or of a problem is past 10^15 in absolute value.

ghost use Rattle.std.specs.Prelude.{◌≡◌, Bool};
ghost use Rattle.std.specs.List.{list_any};
ghost use Rattle.tp_syntax_ast.specs.ExprViews.{expr_view};
ghost use Rattle.tp_syntax_ast.specs.CondViews.{cond_view};
ghost use Rattle.tp_syntax_ast.specs.PartViews.{joined_view};
ghost use Rattle.tp_syntax_ast.specs.EffectViews.{simple_effect_view, effect_view, timed_view, timed_condition_view, timed_effect_view};
ghost use Rattle.tp_syntax_ast.specs.ConstraintViews.{constraint_view};
ghost use Rattle.tp_syntax_ast.specs.DomainViews.{body_view, action_view, initial_view, domain_view, problem_view};
ghost use Rattle.tp_syntax_ast.specs.Conditions.{Condition};
ghost use Rattle.tp_syntax_ast.specs.Effects;
ghost use Rattle.tp_ground.specs.Great.{is_great, great_expression, great_condition, great_part, great_simple_effect, great_effect, great_timed, great_constraint, great_body, great_initial, has_great_number};

use tp_syntax_ast::{
    Action, Body, Cond, Domain, DurationRule, Effect, Expr, Initial, Joined, Problem, SimpleEffect,
    Timed,
};
use tp_task::GREATEST_NUMBER;

fn is_great(number: i64) -> bool
    ensures { result ≡ is_great number }
{
    number.unsigned_abs() > GREATEST_NUMBER
}

fn expression_is_great(expr: &Expr) -> bool
    ensures { result ≡ great_expression (expr_view expr.now) }
{
    match expr {
        Expr::Number(number) => is_great(*number),
        Expr::Fluent(_) | Expr::Duration => false,
        Expr::Negated(a) => expression_is_great(a),
        Expr::Sum(a, b) | Expr::Difference(a, b) | Expr::Product(a, b) => {
            expression_is_great(a) || expression_is_great(b)
        }
    }
}

#[cycle(condition_is_great)]
fn some_condition_is_great(conds: &[Cond]) -> bool
    ensures { result ≡ list_any (λ c. great_condition (cond_view c)) conds.now }
{
    for cond in conds {
        if condition_is_great(cond) {
            return true;
        }
    }
    false
}

#[cycle(condition_is_great)]
fn condition_is_great(cond: &Cond) -> bool
    ensures { result ≡ great_condition (cond_view cond.now) }
{
    match cond {
        Cond::And(conds) => some_condition_is_great(conds),
        Cond::Or(conds) => some_condition_is_great(conds),
        Cond::Not(inner) | Cond::Forall(_, inner) | Cond::Exists(_, inner) => {
            condition_is_great(inner)
        }
        Cond::Imply(a, b) => condition_is_great(a) || condition_is_great(b),
        Cond::Atom(_) | Cond::Same(_, _) => false,
        Cond::Compare(_, a, b) => expression_is_great(a) || expression_is_great(b),
    }
}

// What may be joined, with numbers in it.
trait Numbers: Drop {
    /// What it shows.
    ghost Seen: { Type 0 };

    ghost seen: { Self → Seen };

    /// Whether a number of it is past the limit.
    ghost great: { Seen → Bool };

    fn has_great(&self) -> bool
        ensures { result ≡ great (seen self.now) };
}

#[cycle(part_is_great)]
fn some_part_is_great<P: Numbers>(parts: &[Joined<P>]) -> bool
    ensures { result ≡ list_any (λ p. great_part P.great (joined_view P.seen p)) parts.now }
{
    for part in parts {
        if part_is_great(part) {
            return true;
        }
    }
    false
}

#[cycle(part_is_great)]
fn part_is_great<P: Numbers>(part: &Joined<P>) -> bool
    ensures { result ≡ great_part P.great (joined_view P.seen part.now) }
{
    match part {
        Joined::And(parts) => some_part_is_great(parts),
        Joined::Forall(_, inner) => part_is_great(inner),
        Joined::One(one) => one.has_great(),
    }
}

impl Numbers for SimpleEffect {
    ghost Seen = { Effects.SimpleEffect };

    ghost seen = { simple_effect_view };

    ghost great = { great_simple_effect };

    fn has_great(&self) -> bool {
        match self {
            SimpleEffect::Add(_) | SimpleEffect::Delete(_) => false,
            SimpleEffect::Write(_, _, value) => expression_is_great(value),
        }
    }
}

impl Numbers for Timed<Cond> {
    ghost Seen = { Effects.Timed Condition };

    ghost seen = { timed_view cond_view };

    ghost great = { great_timed great_condition };

    fn has_great(&self) -> bool {
        condition_is_great(&self.what)
    }
}

impl Numbers for Timed<Effect> {
    ghost Seen = { Effects.Timed Effects.Effect };

    ghost seen = { timed_view effect_view };

    ghost great = { great_timed great_effect };

    fn has_great(&self) -> bool {
        part_is_great(&self.what)
    }
}

#[cycle(constraint_is_great)]
fn some_constraint_is_great(constraints: &[DurationRule]) -> bool
    ensures { result ≡ list_any (λ r. great_constraint (constraint_view r)) constraints.now }
{
    for constraint in constraints {
        if constraint_is_great(constraint) {
            return true;
        }
    }
    false
}

#[cycle(constraint_is_great)]
fn constraint_is_great(constraint: &DurationRule) -> bool
    ensures { result ≡ great_constraint (constraint_view constraint.now) }
{
    match constraint {
        DurationRule::And(constraints) => some_constraint_is_great(constraints),
        DurationRule::Limit(_, value) => expression_is_great(value),
    }
}

fn body_is_great(body: &Body) -> bool
    ensures { result ≡ great_body (body_view body.now) }
{
    match body {
        Body::Instant {
            precondition,
            effect,
        } => condition_is_great(precondition) || part_is_great(effect),
        Body::Durative {
            duration,
            condition,
            effect,
        } => constraint_is_great(duration) || (part_is_great(condition) || part_is_great(effect)),
    }
}

fn some_action_is_great(actions: &[Action]) -> bool
    ensures { result ≡ list_any (λ a. great_body (action_view a).body) actions.now }
{
    for action in actions {
        if body_is_great(&action.body) {
            return true;
        }
    }
    false
}

fn initial_is_great(initial: &Initial) -> bool
    ensures { result ≡ great_initial (initial_view initial.now) }
{
    match initial {
        Initial::Holds(_) | Initial::Fails(_) => false,
        Initial::HasValue(_, number) => is_great(*number),
    }
}

fn some_initial_is_great(entries: &[Initial]) -> bool
    ensures { result ≡ list_any (λ i. great_initial (initial_view i)) entries.now }
{
    for entry in entries {
        if initial_is_great(entry) {
            return true;
        }
    }
    false
}

/// Whether a number of a domain's actions or of a problem is past 10^15 in absolute value.
pub fn has_great_number(domain: &Domain, problem: &Problem) -> bool
    ensures { result ≡ has_great_number (domain_view domain.now) (problem_view problem.now) }
{
    some_action_is_great(&domain.actions)
        || (some_initial_is_great(&problem.initial) || condition_is_great(&problem.goal))
}
