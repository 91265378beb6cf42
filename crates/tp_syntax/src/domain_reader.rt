//! From a text to a domain.

ghost use Rattle.std.specs.Prelude.{◌≡◌, map, string_bytes, length, ◌≤◌, IfOk, IfErr, OnOk};
ghost use Rattle.tp_text.specs.Tokens.{max_text};
ghost use Rattle.tp_text.specs.Trees.{shape_of};
ghost use Rattle.tp_syntax.specs.Limits.{NestsUpTo};
ghost use Rattle.tp_syntax_ast.specs.Domains.{requirements_in, types_in, objects_in, section, action_at, actions_in, domain_with, domain_of, SpellsDomain};
ghost use Rattle.tp_syntax_ast.specs.DomainViews.{action_view, domain_view};
ghost use Rattle.tp_syntax_scope.specs.SignatureViews.{predicates_in, functions_in};
ghost use Rattle.tp_syntax.specs.SectionViews.{section_body_view, Adds, action_kind, actions_once, domain_symbols};
ghost use Rattle.tp_syntax.specs.Refusals.{IsRefusedDomain};
ghost use Rattle.tp_syntax_scope.specs.SymbolViews.{symbols_view};
ghost use Rattle.tp_syntax_types.specs.TypeViews.{types_view};
ghost use Rattle.tp_syntax_ast.specs.Symbols.{typed_view, parent_view, signature_view};
ghost use Rattle.tp_syntax_ast.specs.Terms.{shapes};
ghost use Rattle.tp_syntax_ast.specs.Gives.{Gives};
ghost use Rattle.tp_syntax_ast.specs.declared.words.Section.TheVariants as sections;

use crate::action_reader::read_action;
use crate::keyed::SectionItem;
use crate::known::with_signatures;
use crate::sections::{find_section, read_sections};
use std::alloc::Global;
use tp_syntax_ast::{
    Action, Domain, Section, Signature, SyntaxFault, TypeList, Typed, text_fault, tree_fault,
};
use tp_syntax_scope::{
    Symbols, defined, functions_in, named, objects_in, place, predicates_in, requirements_in,
    types_in,
};
use tp_syntax_types::lookup::Lookup;
use tp_syntax_types::table::second_named;
use tp_syntax_types::types::Types;
use tp_text::{Tree, read_tree};

// Whether the actions of a section last, if it has one.
fn action_kind(section: Section) -> Option<bool>
    ensures { result ≡ action_kind section }
{
    match section {
        Section::Action => Some(false),
        Section::DurativeAction => Some(true),
        _ => None,
    }
}

// Adds the action of a section, if it has one.
fn add_action(
    alloc: Global,
    actions: &mut Vec<Action>,
    symbols: &Symbols,
    part: &SectionItem<Section>,
) -> Result<(), SyntaxFault>
    ensures { Adds (map action_view actions.old.items) (map action_view actions.new.items) result
        (action_at (symbols_view symbols.now) part.now.kind (shapes part.now.body.now)) }
{
    let Some(lasts) = action_kind(part.kind) else {
        return Ok(());
    };
    actions.push(read_action(alloc, lasts, part.body, symbols, part.at)?)?;
    Ok(())
}

fn actions_in(
    alloc: Global,
    symbols: &Symbols,
    parts: &[SectionItem<Section>],
) -> Result<Vec<Action>, SyntaxFault>
    ensures { Gives (λ v. map action_view v.items) result
        (actions_in (symbols_view symbols.now) (map section_body_view parts.now)) }
{
    let mut actions = Vec::new(alloc);
    for part in parts {
        add_action(alloc, &mut actions, symbols, part)?;
    }
    Ok(actions)
}

// Where the action of a number has its name.
fn action_place(parts: &[SectionItem<Section>], number: usize) -> u32 {
    let mut left = number;
    for part in parts {
        if action_kind(part.kind).is_some() {
            if left == 0 {
                return part.body.first().map_or(part.at, |name| place(name));
            }
            left -= 1;
        }
    }
    0
}

// The actions, each named once.
fn actions_once(
    alloc: Global,
    symbols: &Symbols,
    parts: &[SectionItem<Section>],
) -> Result<Vec<Action>, SyntaxFault>
    ensures { Gives (λ v. map action_view v.items) result
        (actions_once (symbols_view symbols.now) (map section_body_view parts.now)) }
{
    let actions = actions_in(alloc, symbols, parts)?;
    if let Some(number) = second_named(alloc, &actions)? {
        return Err(SyntaxFault::Twice(action_place(parts, number)));
    }
    Ok(actions)
}

fn requirements(alloc: Global, parts: &[SectionItem<Section>]) -> Result<Vec<String>, SyntaxFault>
    ensures { Gives (λ v. map string_bytes v.items) result
        (requirements_in (section sections.Requirements (map section_body_view parts.now))) }
{
    let part = find_section(Section::Requirements, parts);
    requirements_in(alloc, part.body, part.at)
}

fn types(alloc: Global, parts: &[SectionItem<Section>]) -> Result<TypeList, SyntaxFault>
    ensures { Gives (λ v. map parent_view v.items) result
        (types_in (section sections.Types (map section_body_view parts.now))) }
{
    let part = find_section(Section::Types, parts);
    types_in(alloc, part.body, part.at)
}

fn constants(
    alloc: Global,
    types: &Types,
    parts: &[SectionItem<Section>],
) -> Result<Vec<Typed>, SyntaxFault>
    ensures { Gives (λ v. map typed_view v.items) result
        (objects_in (types_view types.now)
        (section sections.Constants (map section_body_view parts.now))) }
{
    let part = find_section(Section::Constants, parts);
    objects_in(alloc, types, part.body, part.at)
}

fn predicates(
    alloc: Global,
    types: &Types,
    parts: &[SectionItem<Section>],
) -> Result<Vec<Signature>, SyntaxFault>
    ensures { Gives (λ v. map signature_view v.items) result (predicates_in
        (types_view types.now) (section sections.Predicates (map section_body_view parts.now))) }
{
    let part = find_section(Section::Predicates, parts);
    predicates_in(alloc, types, part.body, part.at)
}

fn functions(
    alloc: Global,
    types: &Types,
    parts: &[SectionItem<Section>],
) -> Result<Vec<Signature>, SyntaxFault>
    ensures { Gives (λ v. map signature_view v.items) result (functions_in
        (types_view types.now) (section sections.Functions (map section_body_view parts.now))) }
{
    let part = find_section(Section::Functions, parts);
    functions_in(alloc, types, part.body, part.at)
}

// The actions over what the other sections declare.
fn actions_over<'d>(
    alloc: Global,
    types: Types<'d>,
    constants: &'d [Typed],
    predicates: &'d [Signature],
    functions: &'d [Signature],
    parts: &[SectionItem<Section>],
) -> Result<Vec<Action>, SyntaxFault>
    ensures { Gives (λ v. map action_view v.items) result
        (actions_once (domain_symbols (types_view types.entry) (map typed_view constants.now)
        (map signature_view predicates.now) (map signature_view functions.now))
        (map section_body_view parts.now)) }
{
    let constants = Lookup::new(alloc, constants)?;
    let objects = Lookup::new(alloc, &[])?;
    let symbols = with_signatures(alloc, types, constants, objects, predicates, functions)?;
    actions_once(alloc, &symbols, parts)
}

fn domain_with(
    alloc: Global,
    name: String,
    parts: &[SectionItem<Section>],
) -> Result<Domain, SyntaxFault>
    ensures { Gives domain_view result
        (domain_with (string_bytes name) (map section_body_view parts.now)) }
{
    let requirements = requirements(alloc, parts)?;
    let types = types(alloc, parts)?;
    let known = Types::new(alloc, types.as_slice())?;
    let constants = constants(alloc, &known, parts)?;
    let predicates = predicates(alloc, &known, parts)?;
    let functions = functions(alloc, &known, parts)?;
    let actions = actions_over(alloc, known, &constants, &predicates, &functions, parts)?;
    Ok(Domain {
        name,
        requirements,
        types,
        constants,
        predicates,
        functions,
        actions,
    })
}

fn domain_of(alloc: Global, tree: &Tree) -> Result<Domain, SyntaxFault>
    ensures { Gives domain_view result (domain_of (shape_of tree.now)) }
{
    let at = place(tree);
    let Some((head, rest)) = defined(tree) else {
        return Err(SyntaxFault::Shape(at));
    };
    let name = named(alloc, "domain", head, at)?;
    let parts = read_sections(alloc, rest, at)?;
    domain_with(alloc, name, &parts)
}

/// The domain that the text spells.
pub fn read_domain(alloc: Global, text: &str) -> Result<Domain, SyntaxFault>
    ensures found { IfOk result (λ d. SpellsDomain text.now (domain_view d)) }
    ensures limited { OnOk result (length text.now ≤ max_text) }
    ensures nested { OnOk result (NestsUpTo text.now 64) }
    ensures refused { IfErr result (λ e. IsRefusedDomain text.now e) }
{
    match read_tree(alloc, text) {
        Ok(tree) => match domain_of(alloc, &tree) {
            Ok(domain) => Ok(domain),
            Err(fault) => Err(tree_fault(fault)),
        },
        Err(fault) => Err(text_fault(fault)),
    }
}
