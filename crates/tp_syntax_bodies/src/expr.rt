//! Expressions.

ghost use Rattle.std.specs.Prelude.{◌≡◌, map};
ghost use Rattle.tp_text.specs.Trees.{shape_of};
ghost use Rattle.tp_syntax_ast.specs.Terms.{shapes};
ghost use Rattle.tp_syntax_scope.specs.ScopeViews.{scope_view, symbols_of};
ghost use Rattle.tp_syntax_ast.specs.Symbols.{signature_view};
ghost use Rattle.tp_syntax_ast.specs.Gives.{Gives, IsKept};
ghost use Rattle.tp_syntax_ast.specs.Words.{operator_of};
ghost use Rattle.tp_syntax_ast.specs.Expressions.{word_expression, is_operator, summed, multiplied, subtracted, computed, expression_of, expressions_of, terms_for};
ghost use Rattle.tp_syntax_ast.specs.ExprViews.{expr_view};

use std::alloc::Global;
use tp_syntax_ast::{Atom, Expr, LeftOutPart, Operator, SyntaxFault, is_word, operator_of};
use tp_syntax_scope::{Kind, Scope, atom_in};
use tp_text::{Token, Tree, read_whole};

/// Whether a word begins as a number does.
pub fn begins_number(word: &[u8]) -> bool {
    match word {
        [] => false,
        [first, rest @ ..] => {
            let digit = match rest {
                [] => false,
                [second, ..] => second.is_ascii_digit(),
            };
            first.is_ascii_digit() || *first == b'.' || (*first == b'-' && digit)
        }
    }
}

/// What is wrong with a word that is no number, in the list at `at`.
pub fn number_fault(word: &Token, at: u32) -> SyntaxFault {
    if begins_number(word.text.as_bytes()) {
        SyntaxFault::LeftOut(word.span.start, LeftOutPart::Number)
    } else if is_word(word.text, "?duration") {
        SyntaxFault::LeftOut(at, LeftOutPart::DurationInCondition)
    } else if is_word(word.text, "#t") {
        SyntaxFault::LeftOut(at, LeftOutPart::Continuous)
    } else {
        SyntaxFault::Shape(at)
    }
}

#[tactic(auto, unfolding(tp_syntax_ast::specs::Expressions::word_expression))]
fn word_expression(word: &Token, duration: bool, at: u32) -> Result<Expr, SyntaxFault>
    ensures { Gives expr_view result (word_expression duration word.now.text.now) }
{
    if duration && is_word(word.text, "?duration") {
        return Ok(Expr::Duration);
    }
    match read_whole(word.text) {
        Some(number) => Ok(Expr::Number(number)),
        None => Err(number_fault(word, at)),
    }
}

fn is_operator(operator: Operator) -> bool
    ensures { result ≡ is_operator operator }
{
    !matches!(operator, Operator::Other)
}

fn summed(alloc: Global, mut operands: Vec<Expr>, at: u32) -> Result<Expr, SyntaxFault>
    ensures { Gives expr_view result (summed (map expr_view operands.items)) }
{
    let second = operands.pop();
    let first = operands.pop();
    match (first, second, operands.is_empty()) {
        (Some(a), Some(b), true) => Ok(Expr::Sum(Box::new(alloc, a)?, Box::new(alloc, b)?)),
        (Some(_), Some(_), false) => Err(SyntaxFault::LeftOut(at, LeftOutPart::Operands)),
        _ => Err(SyntaxFault::Shape(at)),
    }
}

fn multiplied(alloc: Global, mut operands: Vec<Expr>, at: u32) -> Result<Expr, SyntaxFault>
    ensures { Gives expr_view result (multiplied (map expr_view operands.items)) }
{
    let second = operands.pop();
    let first = operands.pop();
    match (first, second, operands.is_empty()) {
        (Some(a), Some(b), true) => Ok(Expr::Product(Box::new(alloc, a)?, Box::new(alloc, b)?)),
        (Some(_), Some(_), false) => Err(SyntaxFault::LeftOut(at, LeftOutPart::Operands)),
        _ => Err(SyntaxFault::Shape(at)),
    }
}

fn subtracted(alloc: Global, mut operands: Vec<Expr>, at: u32) -> Result<Expr, SyntaxFault>
    ensures { Gives expr_view result (subtracted (map expr_view operands.items)) }
{
    let second = operands.pop();
    let first = operands.pop();
    match (first, second, operands.is_empty()) {
        (Some(a), Some(b), true) => {
            Ok(Expr::Difference(Box::new(alloc, a)?, Box::new(alloc, b)?))
        }
        (None, Some(a), true) => Ok(Expr::Negated(Box::new(alloc, a)?)),
        _ => Err(SyntaxFault::Shape(at)),
    }
}

#[tactic(auto, unfolding(tp_syntax_ast::specs::Expressions::computed))]
fn computed(
    alloc: Global,
    operator: Operator,
    operands: Vec<Expr>,
    at: u32,
) -> Result<Expr, SyntaxFault>
    ensures { Gives expr_view result (computed operator (map expr_view operands.items)) }
{
    match operator {
        Operator::Plus => summed(alloc, operands, at),
        Operator::Minus => subtracted(alloc, operands, at),
        Operator::Times => multiplied(alloc, operands, at),
        Operator::Divide => Err(SyntaxFault::LeftOut(at, LeftOutPart::Division)),
        Operator::Other => Err(SyntaxFault::Shape(at)),
    }
}

/// The expressions that the members of the list at `at` spell.
#[cycle(expr)]
pub fn read_exprs(
    alloc: Global,
    trees: &[Tree],
    scope: &Scope,
    duration: bool,
    at: u32,
) -> Result<Vec<Expr>, SyntaxFault>
    ensures { Gives (λ v. map expr_view v.items) result (expressions_of
        (symbols_of scope.now) (terms_for (scope_view scope.now) duration) (shapes trees.now)) }
{
    let mut exprs = Vec::new(alloc);
    for tree in trees {
        exprs.push(read_expr(alloc, tree, scope, duration, at)?)?;
    }
    Ok(exprs)
}

/// The expression that a member of the list at `at` spells. It may name `?duration` or not.
#[cycle(expr)]
pub fn read_expr(
    alloc: Global,
    tree: &Tree,
    scope: &Scope,
    duration: bool,
    at: u32,
) -> Result<Expr, SyntaxFault>
    ensures { Gives expr_view result (expression_of (symbols_of scope.now)
        (terms_for (scope_view scope.now) duration) (shape_of tree.now)) }
{
    let (items, at) = match tree {
        Tree::Word(token) => return word_expression(token, duration, at),
        Tree::List { items, span } => (items.as_slice(), span.start),
    };
    let [first, args @ ..] = items else {
        return Err(SyntaxFault::Shape(at));
    };
    let Tree::Word(word) = first else {
        return Err(SyntaxFault::Shape(at));
    };
    let operator = operator_of(word.text);
    if is_operator(operator) {
        let exprs = read_exprs(alloc, args, scope, duration, at)?;
        computed(alloc, operator, exprs, at)
    } else {
        let atom = atom_in(alloc, scope, Kind::Function, word, args, at)?;
        Ok(Expr::Fluent(atom))
    }
}

// `?duration` is left out by name in conditions alone.
pub fn outside_conditions(fault: SyntaxFault) -> SyntaxFault
    ensures { IsKept fault result }
{
    match fault {
        SyntaxFault::LeftOut(at, LeftOutPart::DurationInCondition) => SyntaxFault::Shape(at),
        _ => fault,
    }
}

/// As `read_expr`, in an effect or in a duration constraint.
pub fn read_value(
    alloc: Global,
    tree: &Tree,
    scope: &Scope,
    duration: bool,
    at: u32,
) -> Result<Expr, SyntaxFault>
    ensures { Gives expr_view result (expression_of (symbols_of scope.now)
        (terms_for (scope_view scope.now) duration) (shape_of tree.now)) }
{
    match read_expr(alloc, tree, scope, duration, at) {
        Ok(value) => Ok(value),
        Err(fault) => Err(outside_conditions(fault)),
    }
}
