//! Conditions.

ghost use Rattle.std.specs.Prelude.{◌≡◌, map, option_map};
ghost use Rattle.tp_text.specs.Trees.{shape_of};
ghost use Rattle.tp_syntax_ast.specs.Terms.{shapes, term_view};
ghost use Rattle.tp_syntax_scope.specs.ScopeViews.{scope_view, symbols_of};
ghost use Rattle.tp_syntax_ast.specs.Symbols.{typed_view, parent_view};
ghost use Rattle.tp_syntax_ast.specs.Gives.{Gives, IsKept};
ghost use Rattle.tp_syntax_ast.specs.Words.{comparison};
ghost use Rattle.tp_syntax_ast.specs.Symbols.{atom_in};
ghost use Rattle.tp_syntax_ast.specs.ExprViews.{expr_view};
ghost use Rattle.tp_syntax_ast.specs.Conditions.{kind_of, combined, negated, implied, bound, is_term, are_terms, equated, related, equality, relation, simple, condition_of, conditions_of, bound_condition, fact, pair_of};
ghost use Rattle.tp_syntax_ast.specs.CondViews.{cond_view};

use crate::expr::read_exprs;
use std::alloc::Global;
use tp_syntax_ast::{
    Atom, Comparison, Cond, CondKind, CondWord, Expr, LeftOutPart, SyntaxFault, Term, TypedList,
    cond_word_of, is_name,
};
use tp_syntax_scope::{
    Kind, Scope, Variables, argument_known, atom_in, is_variable, parameters_at, place, terms_of,
};
use tp_text::{Token, Tree};

fn kind_of(head: CondWord) -> CondKind
    ensures { result ≡ kind_of head }
{
    match head {
        CondWord::And | CondWord::Or | CondWord::Not | CondWord::Imply => CondKind::Joined,
        CondWord::Forall | CondWord::Exists => CondKind::Bound,
        _ => CondKind::Simple,
    }
}

// The two that a list has.
fn pair<T: Drop>(mut items: Vec<T>) -> Option<(T, T)>
    ensures { option_map (λ p. (p.0, p.1)) result ≡ pair_of items.items }
{
    let second = items.pop();
    let first = items.pop();
    match (first, second, items.is_empty()) {
        (Some(a), Some(b), true) => Some((a, b)),
        _ => None,
    }
}

fn negated(alloc: Global, mut conds: Vec<Cond>, at: u32) -> Result<Cond, SyntaxFault>
    ensures { Gives cond_view result (negated (map cond_view conds.items)) }
{
    match (conds.pop(), conds.is_empty()) {
        (Some(cond), true) => Ok(Cond::Not(Box::new(alloc, cond)?)),
        _ => Err(SyntaxFault::Shape(at)),
    }
}

fn implied(alloc: Global, conds: Vec<Cond>, at: u32) -> Result<Cond, SyntaxFault>
    ensures { Gives cond_view result (implied (map cond_view conds.items)) }
{
    match pair(conds) {
        Some((a, b)) => Ok(Cond::Imply(Box::new(alloc, a)?, Box::new(alloc, b)?)),
        None => Err(SyntaxFault::Shape(at)),
    }
}

#[tactic(auto, unfolding(tp_syntax_ast::specs::Conditions::combined))]
fn combined(alloc: Global, head: CondWord, conds: Vec<Cond>, at: u32) -> Result<Cond, SyntaxFault>
    ensures { Gives cond_view result (combined head (map cond_view conds.items)) }
{
    match head {
        CondWord::And => Ok(Cond::And(conds)),
        CondWord::Or => Ok(Cond::Or(conds)),
        CondWord::Not => negated(alloc, conds, at),
        CondWord::Imply => implied(alloc, conds, at),
        _ => Err(SyntaxFault::Shape(at)),
    }
}

fn bound(alloc: Global, head: CondWord, vars: TypedList, inner: Cond) -> Result<Cond, SyntaxFault>
    ensures { Gives cond_view result
        (Some (bound head (map typed_view vars.items) (cond_view inner))) }
{
    let inner = Box::new(alloc, inner)?;
    match head {
        CondWord::Exists => Ok(Cond::Exists(vars, inner)),
        _ => Ok(Cond::Forall(vars, inner)),
    }
}

fn comparison(head: CondWord) -> Option<Comparison>
    ensures { result ≡ comparison head }
{
    match head {
        CondWord::Less => Some(Comparison::Less),
        CondWord::AtMost => Some(Comparison::AtMost),
        CondWord::Equal => Some(Comparison::Equal),
        CondWord::AtLeast => Some(Comparison::AtLeast),
        CondWord::Greater => Some(Comparison::Greater),
        _ => None,
    }
}

fn related(head: CondWord, exprs: Vec<Expr>, at: u32) -> Result<Cond, SyntaxFault>
    ensures { Gives cond_view result (related head (map expr_view exprs.items)) }
{
    let Some(operator) = comparison(head) else {
        return Err(SyntaxFault::Shape(at));
    };
    match pair(exprs) {
        Some((a, b)) => Ok(Cond::Compare(operator, a, b)),
        None => Err(SyntaxFault::Shape(at)),
    }
}

// An equality of a term and an expression is at fault for its types.
fn relation_fault(fault: SyntaxFault, head: CondWord, args: &[Tree]) -> SyntaxFault
    ensures { IsKept fault result }
{
    match (fault, head) {
        (SyntaxFault::Shape(at), CondWord::Equal) if has_term(args) => SyntaxFault::Types(at),
        _ => fault,
    }
}

fn has_term(trees: &[Tree]) -> bool {
    for tree in trees {
        if is_term(tree) {
            return true;
        }
    }
    false
}

fn relation(
    alloc: Global,
    scope: &Scope,
    head: CondWord,
    args: &[Tree],
    at: u32,
) -> Result<Cond, SyntaxFault>
    ensures { Gives cond_view result
        (relation (symbols_of scope.now) (scope_view scope.now) head (shapes args.now)) }
{
    match read_exprs(alloc, args, scope, false, at) {
        Ok(exprs) => related(head, exprs, at),
        Err(fault) => Err(relation_fault(fault, head, args)),
    }
}

// What is wrong with a term that is not known, the one of this number in the list at `at`.
fn unknown_fault(term: &Term, trees: &[Tree], number: usize, at: u32) -> SyntaxFault {
    if let Term::Variable(name) = term {
        if name.as_str() == "?duration" {
            return SyntaxFault::LeftOut(at, LeftOutPart::DurationInCondition);
        }
    }
    match trees.get(number) {
        Some(tree) => SyntaxFault::Unknown(place(tree)),
        None => SyntaxFault::Unknown(at),
    }
}

fn equated(
    scope: &Scope,
    mut terms: Vec<Term>,
    trees: &[Tree],
    at: u32,
) -> Result<Cond, SyntaxFault>
    ensures { Gives cond_view result
        (equated (symbols_of scope.now) (scope_view scope.now) (map term_view terms.items)) }
{
    let second = terms.pop();
    let first = terms.pop();
    match (first, second, terms.is_empty()) {
        (Some(a), Some(b), true) => {
            if !argument_known(scope, &a) {
                Err(unknown_fault(&a, trees, 0, at))
            } else if !argument_known(scope, &b) {
                Err(unknown_fault(&b, trees, 1, at))
            } else {
                Ok(Cond::Same(a, b))
            }
        }
        _ => Err(SyntaxFault::Shape(at)),
    }
}

fn equality(alloc: Global, scope: &Scope, args: &[Tree], at: u32) -> Result<Cond, SyntaxFault>
    ensures { Gives cond_view result
        (equality (symbols_of scope.now) (scope_view scope.now) (shapes args.now)) }
{
    let terms = terms_of(alloc, args, at)?;
    equated(scope, terms, args, at)
}

fn fact(
    alloc: Global,
    scope: &Scope,
    word: &Token,
    args: &[Tree],
    at: u32,
) -> Result<Cond, SyntaxFault>
    ensures { Gives cond_view result
        (option_map fact (atom_in (symbols_of scope.now) (symbols_of scope.now).predicates
        (scope_view scope.now) word.now.text.now (shapes args.now))) }
{
    let atom = atom_in(alloc, scope, Kind::Predicate, word, args, at)?;
    Ok(Cond::Atom(atom))
}

#[tactic(auto, unfolding(tp_syntax_ast::specs::Conditions::is_term))]
fn is_term(tree: &Tree) -> bool
    ensures { result ≡ is_term (shape_of tree.now) }
{
    match tree {
        Tree::Word(token) => is_variable(token.text.as_bytes()) || is_name(token.text.as_bytes()),
        Tree::List { .. } => false,
    }
}

fn are_terms(trees: &[Tree]) -> bool
    ensures { result ≡ are_terms (shapes trees.now) }
{
    for tree in trees {
        if !is_term(tree) {
            return false;
        }
    }
    true
}

#[tactic(auto, unfolding(tp_syntax_ast::specs::Conditions::simple))]
fn simple(
    alloc: Global,
    scope: &Scope,
    head: CondWord,
    word: &Token,
    args: &[Tree],
    at: u32,
) -> Result<Cond, SyntaxFault>
    ensures { Gives cond_view result (simple (symbols_of scope.now)
        (scope_view scope.now) head word.now.text.now (shapes args.now)) }
{
    match head {
        CondWord::Equal => {
            if are_terms(args) {
                equality(alloc, scope, args, at)
            } else {
                relation(alloc, scope, head, args, at)
            }
        }
        CondWord::Less | CondWord::AtMost | CondWord::AtLeast | CondWord::Greater => {
            relation(alloc, scope, head, args, at)
        }
        CondWord::Other => fact(alloc, scope, word, args, at),
        CondWord::Preference => Err(SyntaxFault::LeftOut(at, LeftOutPart::Preference)),
        _ => Err(SyntaxFault::Shape(at)),
    }
}

#[cycle(cond)]
fn read_conds(
    alloc: Global,
    trees: &[Tree],
    scope: &Scope,
    at: u32,
) -> Result<Vec<Cond>, SyntaxFault>
    ensures { Gives (λ v. map cond_view v.items) result
        (conditions_of (symbols_of scope.now) (scope_view scope.now) (shapes trees.now)) }
{
    let mut conds = Vec::new(alloc);
    for tree in trees {
        conds.push(read_cond(alloc, tree, scope, at)?)?;
    }
    Ok(conds)
}

// Variables, and a condition in which they may be named.
#[cycle(cond)]
fn read_bound(
    alloc: Global,
    args: &[Tree],
    scope: &Scope,
    head: CondWord,
    at: u32,
) -> Result<Cond, SyntaxFault>
    ensures { Gives cond_view result
        (bound_condition (symbols_of scope.now) (scope_view scope.now) head (shapes args.now)) }
{
    let [list, body @ ..] = args else {
        return Err(SyntaxFault::Shape(at));
    };
    let vars = parameters_at(alloc, &scope.symbols.types, list, at)?;
    let [tree, more @ ..] = body else {
        return Err(SyntaxFault::Shape(at));
    };
    if !more.is_empty() {
        return Err(SyntaxFault::Shape(at));
    }
    let known = Variables::new(alloc, scope, vars)?;
    let wider = Scope::inside(&*scope, &known);
    let inner = read_cond(alloc, tree, &wider, at)?;
    bound(alloc, head, known.into_items(), inner)
}

/// The condition that a member of the list at `at` spells.
#[cycle(cond)]
pub fn read_cond(alloc: Global, tree: &Tree, scope: &Scope, at: u32) -> Result<Cond, SyntaxFault>
    ensures { Gives cond_view result
        (condition_of (symbols_of scope.now) (scope_view scope.now) (shape_of tree.now)) }
{
    let (items, at) = match tree {
        Tree::Word(_) => return Err(SyntaxFault::Shape(at)),
        Tree::List { items, span } => (items.as_slice(), span.start),
    };
    let [first, args @ ..] = items else {
        return Ok(Cond::And(Vec::new(alloc)));
    };
    let Tree::Word(word) = first else {
        return Err(SyntaxFault::Shape(at));
    };
    let head = cond_word_of(word.text);
    match kind_of(head) {
        CondKind::Joined => {
            let conds = read_conds(alloc, args, scope, at)?;
            combined(alloc, head, conds, at)
        }
        CondKind::Bound => read_bound(alloc, args, scope, head, at),
        CondKind::Simple => simple(alloc, scope, head, word, args, at),
    }
}
