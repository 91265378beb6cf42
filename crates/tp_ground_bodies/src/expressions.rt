//! Expressions.

ghost use Rattle.std.specs.Prelude.{◌≡◌};
ghost use Rattle.tp_syntax_ast.specs.ExprViews.{expr_view};
ghost use Rattle.tp_ground_bindings.specs.Views.{env_view};
ghost use Rattle.tp_ground_bodies.specs.Written.{expression_in, comparison_of};
ghost use Rattle.tp_ground_bodies.specs.Mentions.{of_expression};
ghost use Rattle.tp_ground_bodies.specs.ReadBack.{named_expression};
ghost use Rattle.tp_ground_bodies.specs.Lowered.{Lowers};

use crate::numbers::fluent;
use std::alloc::Global;
use tp_ground_bindings::Env;
use tp_task::{Comparison, Expr, GroundFault, Numbering};

/// How numbers are compared.
pub fn comparison_of(comparison: tp_syntax_ast::Comparison) -> Comparison
    ensures { result ≡ comparison_of comparison }
{
    match comparison {
        tp_syntax_ast::Comparison::Less => Comparison::Less,
        tp_syntax_ast::Comparison::AtMost => Comparison::AtMost,
        tp_syntax_ast::Comparison::Equal => Comparison::Equal,
        tp_syntax_ast::Comparison::AtLeast => Comparison::AtLeast,
        tp_syntax_ast::Comparison::Greater => Comparison::Greater,
    }
}

/// The expression with numbers for its fluents, in a box of its own.
#[cycle(expression)]
pub fn operand<'a>(
    alloc: Global,
    env: &Env<'_, 'a>,
    numbering: &mut Numbering,
    expr: &'a tp_syntax_ast::Expr,
) -> Result<Box<Expr>, GroundFault>
    ensures { Lowers (λ t b. named_expression t b.value) numbering.old result numbering.new
        (expression_in (env_view env.now) (expr_view expr.now))
        (of_expression (expression_in (env_view env.now) (expr_view expr.now))) }
{
    let lowered = expression(alloc, env, numbering, expr)?;
    Ok(Box::new(alloc, lowered)?)
}

/// The expression with numbers for its fluents.
#[cycle(expression)]
pub fn expression<'a>(
    alloc: Global,
    env: &Env<'_, 'a>,
    numbering: &mut Numbering,
    expr: &'a tp_syntax_ast::Expr,
) -> Result<Expr, GroundFault>
    ensures { Lowers named_expression numbering.old result numbering.new
        (expression_in (env_view env.now) (expr_view expr.now))
        (of_expression (expression_in (env_view env.now) (expr_view expr.now))) }
{
    match expr {
        tp_syntax_ast::Expr::Number(number) => Ok(Expr::Number(*number)),
        tp_syntax_ast::Expr::Duration => Ok(Expr::Duration),
        tp_syntax_ast::Expr::Fluent(atom) => {
            let number = fluent(alloc, env, numbering, atom)?;
            Ok(Expr::Fluent(number))
        }
        tp_syntax_ast::Expr::Negated(a) => {
            let x = operand(alloc, env, numbering, a)?;
            Ok(Expr::Negated(x))
        }
        tp_syntax_ast::Expr::Sum(a, b) => {
            let x = operand(alloc, env, numbering, a)?;
            let y = operand(alloc, env, numbering, b)?;
            Ok(Expr::Sum(x, y))
        }
        tp_syntax_ast::Expr::Difference(a, b) => {
            let x = operand(alloc, env, numbering, a)?;
            let y = operand(alloc, env, numbering, b)?;
            Ok(Expr::Difference(x, y))
        }
        tp_syntax_ast::Expr::Product(a, b) => {
            let x = operand(alloc, env, numbering, a)?;
            let y = operand(alloc, env, numbering, b)?;
            Ok(Expr::Product(x, y))
        }
    }
}
