//! The spellings of what stands in a domain: names, terms, expressions, conditions, effects,
//! duration constraints. Nothing here takes memory.

ghost use Rattle.std.specs.Prelude.{◌≡◌, [], ◌∷◌, ◌++◌, map, string_bytes};
ghost use Rattle.std.specs.Fmt.{signed_decimal};
ghost use Rattle.tp_text.specs.Shapes.{Shape, node};
ghost use Rattle.tp_text.specs.Texts.{shape_text, more_text};
ghost use Rattle.tp_syntax_ast.specs.Terms.{term_view, atom_view};
ghost use Rattle.tp_syntax_ast.specs.Symbols.{typed_view};
ghost use Rattle.tp_syntax_ast.specs.ExprViews.{expr_view};
ghost use Rattle.tp_syntax_ast.specs.CondViews.{cond_view};
ghost use Rattle.tp_syntax_ast.specs.Conditions.{Condition, conditions, same, compared};
ghost use Rattle.tp_syntax_ast.specs.Parts.{parts};
ghost use Rattle.tp_syntax_ast.specs.PartViews.{joined_view};
ghost use Rattle.tp_syntax_ast.specs.Effects.{constraints_in, writes};
ghost use Rattle.tp_syntax_ast.specs.EffectViews.{simple_effect_view, effect_view, timed_view};
ghost use Rattle.tp_syntax_ast.specs.ConstraintViews.{constraint_view};
ghost use Rattle.tp_syntax_print.specs.Printers.{Prints};
ghost use Rattle.tp_syntax_print.specs.Printing.{argument_shape, argument_shapes, fact_shape, name_shapes, types_shape, typed_shapes, expression_shape, condition_shape, condition_shapes, joined_shape, part_shapes, simple_effect_shape, effect_shape, timed_shape, constraint_shape, constraint_shapes};
ghost use Rattle.tp_syntax_print.specs.DomainTexts.{item_text, operands_text, specifier_text};

use crate::printer::Printer;
use crate::words::{comparison_word, writing_word};
use itoa::Buffer;
use tp_device::Sink;
use tp_syntax_ast::{
    Atom, Comparison, Cond, DurationRule, Effect, Expr, Joined, SimpleEffect, Term, TimeSpecifier,
    Timed, Typed, TypedList, Writing,
};

// Names, each after a space.
pub fn print_names<W: Sink>(out: &mut Printer<W>, names: &[String])
    ensures { Prints W.held W.failures out.old out.new
        (more_text (name_shapes (map string_bytes names.now))) }
{
    for name in names {
        out.put(b" ");
        out.put(name.as_bytes());
    }
}

// The type of an item, or the choice that it has.
fn print_types<W: Sink>(out: &mut Printer<W>, types: &[String])
    ensures { Prints W.held W.failures out.old out.new
        (shape_text (types_shape (map string_bytes types.now))) }
{
    if let [only] = types {
        out.put(only.as_bytes());
        return;
    }
    out.put(b"(either");
    print_names(out, types);
    out.put(b")");
}

// A name with its types.
fn print_item<W: Sink>(out: &mut Printer<W>, item: &Typed)
    ensures { Prints W.held W.failures out.old out.new (item_text (typed_view item.now)) }
{
    out.put(item.name.as_bytes());
    out.put(b" - ");
    print_types(out, item.type_names());
}

// A typed list, each item after a space.
pub fn print_items<W: Sink>(out: &mut Printer<W>, items: &[Typed])
    ensures { Prints W.held W.failures out.old out.new
        (more_text (typed_shapes (map typed_view items.now))) }
{
    for item in items {
        out.put(b" ");
        print_item(out, item);
    }
}

// Variables in parentheses.
pub fn print_variables<W: Sink>(out: &mut Printer<W>, list: &TypedList)
    ensures { Prints W.held W.failures out.old out.new
        (shape_text (node (typed_shapes (map typed_view list.now.items)))) }
{
    let [first, rest @ ..] = list.as_slice() else {
        out.put(b"()");
        return;
    };
    out.put(b"(");
    print_item(out, first);
    print_items(out, rest);
    out.put(b")");
}

fn print_term<W: Sink>(out: &mut Printer<W>, term: &Term)
    ensures { Prints W.held W.failures out.old out.new
        (shape_text (argument_shape (term_view term.now))) }
{
    match term {
        Term::Object(name) => out.put(name.as_bytes()),
        Term::Variable(name) => out.put(name.as_bytes()),
    }
}

// Terms, each after a space.
fn print_terms<W: Sink>(out: &mut Printer<W>, terms: &[Term])
    ensures { Prints W.held W.failures out.old out.new
        (more_text (argument_shapes (map term_view terms.now))) }
{
    for term in terms {
        out.put(b" ");
        print_term(out, term);
    }
}

fn print_atom<W: Sink>(out: &mut Printer<W>, atom: &Atom)
    ensures { Prints W.held W.failures out.old out.new
        (shape_text (fact_shape (atom_view atom.now))) }
{
    out.put(b"(");
    out.put(atom.name.as_bytes());
    print_terms(out, &atom.terms);
    out.put(b")");
}

fn print_number<W: Sink>(out: &mut Printer<W>, number: i64)
    ensures { Prints W.held W.failures out.old out.new (signed_decimal number) }
{
    let mut buffer = Buffer::new();
    out.put(buffer.format(number).as_bytes());
}

// The last operand after a space, and the end of its list.
#[cycle(print_expr)]
fn print_last_operand<W: Sink>(out: &mut Printer<W>, expr: &Expr)
    ensures { Prints W.held W.failures out.old out.new
        (32 ∷ (shape_text (expression_shape (expr_view expr.now)) ++ 41 ∷ [])) }
{
    out.put(b" ");
    print_expr(out, expr);
    out.put(b")");
}

#[cycle(print_expr)]
fn print_expr<W: Sink>(out: &mut Printer<W>, expr: &Expr)
    ensures { Prints W.held W.failures out.old out.new
        (shape_text (expression_shape (expr_view expr.now))) }
{
    match expr {
        Expr::Number(number) => print_number(out, *number),
        Expr::Fluent(atom) => print_atom(out, atom),
        Expr::Sum(a, b) => {
            out.put(b"(+ ");
            print_expr(out, a);
            print_last_operand(out, b);
        }
        Expr::Negated(a) => {
            out.put(b"(-");
            print_last_operand(out, a);
        }
        Expr::Difference(a, b) => {
            out.put(b"(- ");
            print_expr(out, a);
            print_last_operand(out, b);
        }
        Expr::Product(a, b) => {
            out.put(b"(* ");
            print_expr(out, a);
            print_last_operand(out, b);
        }
        Expr::Duration => out.put(b"?duration"),
    }
}

// Two operands, each after a space, and the end of their list.
fn print_operands<W: Sink>(out: &mut Printer<W>, a: &Expr, b: &Expr)
    ensures { Prints W.held W.failures out.old out.new
        (operands_text (expression_shape (expr_view a.now)) (expression_shape (expr_view b.now))) }
{
    out.put(b" ");
    print_expr(out, a);
    print_last_operand(out, b);
}

// Two numbers compared.
fn print_comparison<W: Sink>(out: &mut Printer<W>, comparison: Comparison, a: &Expr, b: &Expr)
    ensures { Prints W.held W.failures out.old out.new
        (shape_text (condition_shape (compared comparison (expr_view a.now) (expr_view b.now)))) }
{
    out.put(b"(");
    out.put(comparison_word(comparison));
    print_operands(out, a, b);
}

// The condition that two terms are the same object.
fn print_same<W: Sink>(out: &mut Printer<W>, a: &Term, b: &Term)
    ensures { Prints W.held W.failures out.old out.new
        (shape_text (condition_shape (same (term_view a.now) (term_view b.now)))) }
{
    out.put(b"(= ");
    print_term(out, a);
    out.put(b" ");
    print_term(out, b);
    out.put(b")");
}

// Conditions, each after a space.
#[cycle(print_cond)]
fn print_conds<W: Sink>(out: &mut Printer<W>, conds: &[Cond])
    ensures { Prints W.held W.failures out.old out.new
        (more_text (condition_shapes (conditions (map cond_view conds.now)))) }
{
    for cond in conds {
        out.put(b" ");
        print_cond(out, cond);
    }
}

// Conditions behind a word, and the end of their list.
#[cycle(print_cond)]
fn print_junction<W: Sink>(out: &mut Printer<W>, word: &[u8], conds: &[Cond])
    ensures { Prints W.held W.failures out.old out.new
        (word.now
        ++ (more_text (condition_shapes (conditions (map cond_view conds.now))) ++ 41 ∷ [])) }
{
    out.put(word);
    print_conds(out, conds);
    out.put(b")");
}

// The last condition of a list after a space, and the list's end.
#[cycle(print_cond)]
fn print_last_cond<W: Sink>(out: &mut Printer<W>, cond: &Cond)
    ensures { Prints W.held W.failures out.old out.new
        (32 ∷ (shape_text (condition_shape (cond_view cond.now)) ++ 41 ∷ [])) }
{
    out.put(b" ");
    print_cond(out, cond);
    out.put(b")");
}

#[cycle(print_cond)]
pub fn print_cond<W: Sink>(out: &mut Printer<W>, cond: &Cond)
    ensures { Prints W.held W.failures out.old out.new
        (shape_text (condition_shape (cond_view cond.now))) }
{
    match cond {
        Cond::And(conds) => print_junction(out, b"(and", conds),
        Cond::Or(conds) => print_junction(out, b"(or", conds),
        Cond::Not(inner) => {
            out.put(b"(not");
            print_last_cond(out, inner);
        }
        Cond::Imply(a, b) => {
            out.put(b"(imply ");
            print_cond(out, a);
            print_last_cond(out, b);
        }
        Cond::Forall(variables, inner) => {
            out.put(b"(forall ");
            print_variables(out, variables);
            print_last_cond(out, inner);
        }
        Cond::Exists(variables, inner) => {
            out.put(b"(exists ");
            print_variables(out, variables);
            print_last_cond(out, inner);
        }
        Cond::Atom(atom) => print_atom(out, atom),
        Cond::Same(a, b) => print_same(out, a, b),
        Cond::Compare(comparison, a, b) => print_comparison(out, *comparison, a, b),
    }
}

// What may stand among joined parts.
pub trait Printed {
    // What it shows.
    ghost Seen: { Type 0 };

    ghost seen: { Self → Seen };

    // The tree that is printed.
    ghost tree: { Seen → Shape };

    fn print<W: Sink>(&self, out: &mut Printer<W>)
        ensures { Prints W.held W.failures out.old out.new (shape_text (tree (seen self.now))) };
}

// Parts, each after a space.
#[cycle(print_joined)]
fn print_parts<P: Printed, W: Sink>(out: &mut Printer<W>, members: &[Joined<P>])
    ensures { Prints W.held W.failures out.old out.new
        (more_text (part_shapes P.tree (parts (map (joined_view P.seen) members.now)))) }
{
    for part in members {
        out.put(b" ");
        print_joined(out, part);
    }
}

#[cycle(print_joined)]
pub fn print_joined<P: Printed, W: Sink>(out: &mut Printer<W>, joined: &Joined<P>)
    ensures { Prints W.held W.failures out.old out.new
        (shape_text (joined_shape P.tree (joined_view P.seen joined.now))) }
{
    match joined {
        Joined::And(parts) => {
            out.put(b"(and");
            print_parts(out, parts);
            out.put(b")");
        }
        Joined::Forall(variables, inner) => {
            out.put(b"(forall ");
            print_variables(out, variables);
            out.put(b" ");
            print_joined(out, inner);
            out.put(b")");
        }
        Joined::One(part) => part.print(out),
    }
}

// A fluent and its value, each after a space, and the end of their list.
fn print_target<W: Sink>(out: &mut Printer<W>, fluent: &Atom, value: &Expr)
    ensures { Prints W.held W.failures out.old out.new
        (operands_text
        (fact_shape (atom_view fluent.now)) (expression_shape (expr_view value.now))) }
{
    out.put(b" ");
    print_atom(out, fluent);
    out.put(b" ");
    print_expr(out, value);
    out.put(b")");
}

// A fluent's new value.
fn print_write<W: Sink>(out: &mut Printer<W>, writing: Writing, fluent: &Atom, value: &Expr)
    ensures { Prints W.held W.failures out.old out.new
        (shape_text
        (simple_effect_shape (writes writing (atom_view fluent.now) (expr_view value.now)))) }
{
    out.put(b"(");
    out.put(writing_word(writing));
    print_target(out, fluent, value);
}

impl Printed for SimpleEffect {
    ghost Seen = { Rattle.tp_syntax_ast.specs.Effects.SimpleEffect };

    ghost seen = { simple_effect_view };

    ghost tree = { simple_effect_shape };

    fn print<W: Sink>(&self, out: &mut Printer<W>) {
        match self {
            SimpleEffect::Add(atom) => print_atom(out, atom),
            SimpleEffect::Delete(atom) => {
                out.put(b"(not ");
                print_atom(out, atom);
                out.put(b")");
            }
            SimpleEffect::Write(writing, fluent, value) => {
                print_write(out, *writing, fluent, value);
            }
        }
    }
}

// A time specifier's words behind '(', with a space after each.
fn specifier_words(specifier: TimeSpecifier) -> &'static [u8]
    ensures { result.now ≡ specifier_text specifier }
{
    match specifier {
        TimeSpecifier::AtStart => b"(at start ",
        TimeSpecifier::OverAll => b"(over all ",
        TimeSpecifier::AtEnd => b"(at end ",
    }
}

impl Printed for Timed<Cond> {
    ghost Seen = { Rattle.tp_syntax_ast.specs.Effects.Timed Condition };

    ghost seen = { timed_view cond_view };

    ghost tree = { timed_shape condition_shape };

    fn print<W: Sink>(&self, out: &mut Printer<W>) {
        out.put(specifier_words(self.specifier));
        print_cond(out, &self.what);
        out.put(b")");
    }
}

impl Printed for Timed<Effect> {
    ghost Seen = { Rattle.tp_syntax_ast.specs.Effects.Timed Rattle.tp_syntax_ast.specs.Effects.Effect };

    ghost seen = { timed_view effect_view };

    ghost tree = { timed_shape effect_shape };

    fn print<W: Sink>(&self, out: &mut Printer<W>) {
        out.put(specifier_words(self.specifier));
        print_joined(out, &self.what);
        out.put(b")");
    }
}

// Duration constraints, each after a space.
#[cycle(print_constraint)]
fn print_constraints<W: Sink>(out: &mut Printer<W>, constraints: &[DurationRule])
    ensures { Prints W.held W.failures out.old out.new
        (more_text (constraint_shapes (constraints_in (map constraint_view constraints.now)))) }
{
    for constraint in constraints {
        out.put(b" ");
        print_constraint(out, constraint);
    }
}

#[cycle(print_constraint)]
pub fn print_constraint<W: Sink>(out: &mut Printer<W>, constraint: &DurationRule)
    ensures { Prints W.held W.failures out.old out.new
        (shape_text (constraint_shape (constraint_view constraint.now))) }
{
    match constraint {
        DurationRule::And(constraints) => {
            out.put(b"(and");
            print_constraints(out, constraints);
            out.put(b")");
        }
        DurationRule::Limit(comparison, value) => {
            out.put(b"(");
            out.put(comparison_word(*comparison));
            out.put(b" ?duration ");
            print_expr(out, value);
            out.put(b")");
        }
    }
}
