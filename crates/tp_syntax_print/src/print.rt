//! The one spelling of a domain. Nothing here takes memory.

ghost use Rattle.std.specs.Prelude.{◌≡◌, [], ◌∷◌, ◌++◌, map, codes, string_bytes};
ghost use Rattle.tp_device.specs.Bytes.{Writes, failures_after};
ghost use Rattle.tp_text.specs.Texts.{shape_text, more_text};
ghost use Rattle.tp_syntax_ast.specs.Symbols.{typed_view, parent_view, signature_view};
ghost use Rattle.tp_syntax_ast.specs.EffectViews.{timed_condition_view, timed_effect_view};
ghost use Rattle.tp_syntax_ast.specs.DomainViews.{body_view, action_view, domain_view};
ghost use Rattle.tp_syntax_print.specs.Printers.{Prints};
ghost use Rattle.tp_syntax_print.specs.Printing.{name_shapes, typed_shapes, timed_shapes, body_shapes, body_word, field_shapes, action_shape, action_shapes, type_shapes, signature_shape, signature_shapes, name_shape};
ghost use Rattle.tp_syntax_print.specs.DomainTexts.{lines_text, section_line, declarations_text, domain_text, IsSpelledAgain};

use crate::print_parts::{
    print_cond, print_constraint, print_items, print_joined, print_names, print_variables,
};
use crate::printer::Printer;
use tp_device::{Failed, Sink};
use tp_syntax_ast::{Action, Body, Domain, Signature, TimedCond, TimedEffect, TypeName, Typed};

// Conditions and effects at their time specifiers, each behind its word.
fn print_timed<W: Sink>(out: &mut Printer<W>, condition: &TimedCond, effect: &TimedEffect)
    ensures { Prints W.held W.failures out.old out.new
        (more_text
        (timed_shapes (timed_condition_view condition.now) (timed_effect_view effect.now))) }
{
    out.put(b" :condition ");
    print_joined(out, condition);
    out.put(b" :effect ");
    print_joined(out, effect);
}

// The fields behind an action's parameters.
fn print_body<W: Sink>(out: &mut Printer<W>, body: &Body)
    ensures { Prints W.held W.failures out.old out.new
        (more_text (body_shapes (body_view body.now))) }
{
    match body {
        Body::Instant {
            precondition,
            effect,
        } => {
            out.put(b" :precondition ");
            print_cond(out, precondition);
            out.put(b" :effect ");
            print_joined(out, effect);
        }
        Body::Durative {
            duration,
            condition,
            effect,
        } => {
            out.put(b" :duration ");
            print_constraint(out, duration);
            print_timed(out, condition, effect);
        }
    }
}

// An action's fields.
fn print_fields<W: Sink>(out: &mut Printer<W>, action: &Action)
    ensures { Prints W.held W.failures out.old out.new
        (more_text (field_shapes (action_view action.now))) }
{
    out.put(b" :parameters ");
    print_variables(out, &action.parameters);
    print_body(out, &action.body);
}

// An action's word behind '(', with a space after it.
fn action_word(body: &Body) -> &'static [u8]
    ensures { result.now ≡ 40 ∷ (body_word (body_view body.now) ++ 32 ∷ []) }
{
    match body {
        Body::Instant { .. } => b"(:action ",
        Body::Durative { .. } => b"(:durative-action ",
    }
}

fn print_action<W: Sink>(out: &mut Printer<W>, action: &Action)
    ensures { Prints W.held W.failures out.old out.new
        (shape_text (action_shape (action_view action.now)) ++ 10 ∷ []) }
{
    out.put(action_word(&action.body));
    out.put(action.name.as_bytes());
    print_fields(out, action);
    out.put(b")\n");
}

// Actions, each on a line of its own.
fn print_actions<W: Sink>(out: &mut Printer<W>, actions: &[Action])
    ensures { Prints W.held W.failures out.old out.new
        (lines_text (action_shapes (map action_view actions.now))) }
{
    for action in actions {
        print_action(out, action);
    }
}

// Types with those above them, each after a space.
fn print_parents<W: Sink>(out: &mut Printer<W>, types: &[TypeName])
    ensures { Prints W.held W.failures out.old out.new
        (more_text (type_shapes (map parent_view types.now))) }
{
    for declared in types {
        out.put(b" ");
        out.put(declared.name.as_bytes());
        out.put(b" - ");
        out.put(declared.parent.as_bytes());
    }
}

fn print_signature<W: Sink>(out: &mut Printer<W>, signature: &Signature)
    ensures { Prints W.held W.failures out.old out.new
        (shape_text (signature_shape (signature_view signature.now))) }
{
    out.put(b"(");
    out.put(signature.name.as_bytes());
    print_items(out, signature.parameters.as_slice());
    out.put(b")");
}

// Predicates or functions, each after a space.
fn print_signatures<W: Sink>(out: &mut Printer<W>, signatures: &[Signature])
    ensures { Prints W.held W.failures out.old out.new
        (more_text (signature_shapes (map signature_view signatures.now))) }
{
    for signature in signatures {
        out.put(b" ");
        print_signature(out, signature);
    }
}

fn print_requirements<W: Sink>(out: &mut Printer<W>, words: &[String])
    ensures { Prints W.held W.failures out.old out.new
        (section_line (codes ":requirements") (name_shapes (map string_bytes words.now))) }
{
    if words.is_empty() {
        return;
    }
    out.put(b"(:requirements");
    print_names(out, words);
    out.put(b")\n");
}

fn print_type_section<W: Sink>(out: &mut Printer<W>, types: &[TypeName])
    ensures { Prints W.held W.failures out.old out.new
        (section_line (codes ":types") (type_shapes (map parent_view types.now))) }
{
    if types.is_empty() {
        return;
    }
    out.put(b"(:types");
    print_parents(out, types);
    out.put(b")\n");
}

fn print_constants<W: Sink>(out: &mut Printer<W>, constants: &[Typed])
    ensures { Prints W.held W.failures out.old out.new
        (section_line (codes ":constants") (typed_shapes (map typed_view constants.now))) }
{
    if constants.is_empty() {
        return;
    }
    out.put(b"(:constants");
    print_items(out, constants);
    out.put(b")\n");
}

fn print_predicates<W: Sink>(out: &mut Printer<W>, signatures: &[Signature])
    ensures { Prints W.held W.failures out.old out.new
        (section_line
        (codes ":predicates") (signature_shapes (map signature_view signatures.now))) }
{
    if signatures.is_empty() {
        return;
    }
    out.put(b"(:predicates");
    print_signatures(out, signatures);
    out.put(b")\n");
}

fn print_functions<W: Sink>(out: &mut Printer<W>, signatures: &[Signature])
    ensures { Prints W.held W.failures out.old out.new
        (section_line (codes ":functions") (signature_shapes (map signature_view signatures.now))) }
{
    if signatures.is_empty() {
        return;
    }
    out.put(b"(:functions");
    print_signatures(out, signatures);
    out.put(b")\n");
}

// The sections that declare something.
fn print_declarations<W: Sink>(out: &mut Printer<W>, domain: &Domain)
    ensures { Prints W.held W.failures out.old out.new
        (declarations_text (domain_view domain.now)) }
{
    print_requirements(out, &domain.requirements);
    print_type_section(out, domain.types.as_slice());
    print_constants(out, &domain.constants);
    print_predicates(out, &domain.predicates);
    print_functions(out, &domain.functions);
}

// The line that a domain begins with.
fn print_name<W: Sink>(out: &mut Printer<W>, domain: &Domain)
    ensures { Prints W.held W.failures out.old out.new
        (codes "(define " ++ (shape_text (name_shape (domain_view domain.now)) ++ 10 ∷ [])) }
{
    out.put(b"(define (domain ");
    out.put(domain.name.as_bytes());
    out.put(b")\n");
}

fn print_lines<W: Sink>(out: &mut Printer<W>, domain: &Domain)
    ensures { Prints W.held W.failures out.old out.new (domain_text (domain_view domain.now)) }
{
    print_name(out, domain);
    print_declarations(out, domain);
    print_actions(out, &domain.actions);
    out.put(b")\n");
}

/// Writes the one spelling of a domain. What is written of a domain that some text spells spells it
/// too. It takes no memory, and time in proportion to the domain, also where the writer fails.
///
/// # Errors
///
/// The writer's first failure. It has then taken some first part of the spelling, and is handed
/// nothing more.
pub fn print_domain<W: Sink>(domain: &Domain, writer: &mut W) -> Result<(), Failed>
    ensures spells { IsSpelledAgain (domain_view domain.now) }
    ensures bytes { Writes
        (W.held writer.old) (W.held writer.new) (domain_text (domain_view domain.now)) result }
    ensures cause { W.failures writer.new ≡ failures_after (W.failures writer.old) result }
{
    let mut out = Printer::new(writer);
    print_lines(&mut out, domain);
    out.outcome()
}
