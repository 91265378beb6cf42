//! Problems of a domain.

ghost use Rattle.std.specs.Prelude.{◌≡◌, ◌++◌, map, string_bytes, length, ◌≤◌, IfOk, IfErr, OnOk};
ghost use Rattle.std.specs.Option.{is_some};
ghost use Rattle.tp_syntax_ast.specs.TypedLists.{has_twice};
ghost use Rattle.tp_text.specs.Tokens.{max_text};
ghost use Rattle.tp_text.specs.Trees.{shape_of};
ghost use Rattle.tp_syntax.specs.Limits.{NestsUpTo};
ghost use Rattle.tp_syntax_ast.specs.Terms.{shapes};
ghost use Rattle.tp_syntax_ast.specs.Symbols.{typed_view};
ghost use Rattle.tp_syntax_scope.specs.SymbolViews.{symbols_view};
ghost use Rattle.tp_syntax_types.specs.TypeViews.{types_view};
ghost use Rattle.tp_syntax_ast.specs.Problems.{initial_of, section, goal_in, new_objects, stated, symbols_with, problem_with, own_name, problem_of, SpellsProblem, IsRefusedProblem};
ghost use Rattle.tp_syntax_ast.specs.CondViews.{cond_view};
ghost use Rattle.tp_syntax_ast.specs.DomainViews.{initial_view, domain_view, problem_view};
ghost use Rattle.tp_syntax.specs.ProblemViews.{section_body_view};
ghost use Rattle.tp_syntax_ast.specs.Gives.{Gives};
ghost use Rattle.tp_syntax_ast.specs.declared.words.ProblemSection.TheVariants as sections;

use crate::clash::first_clash;
use crate::initial::initial_of;
use crate::keyed::SectionItem;
use crate::known::with_signatures;
use crate::problem_sections::{find_section, once_each};
use std::alloc::{AllocError, Global};
use tp_syntax_ast::{
    Atom, Cond, Domain, Initial, Problem, ProblemSection, SyntaxFault, Typed, text_fault,
    tree_fault,
};
use tp_syntax_bodies::read_cond;
use tp_syntax_scope::{
    Scope, Symbols, defined, first_of, item_place, name_place, named, objects_in, only, place,
    requirements_in,
};
use tp_syntax_types::lookup::Lookup;
use tp_syntax_types::once::second_mention;
use tp_syntax_types::types::Types;
use tp_text::{Tree, read_tree};

#[tactic(auto, unfolding(tp_syntax_ast::specs::Problems::goal_in))]
fn goal_in(alloc: Global, symbols: &Symbols, trees: &[Tree], at: u32) -> Result<Cond, SyntaxFault>
    ensures { Gives cond_view result (goal_in (symbols_view symbols.now) (shapes trees.now)) }
{
    let Some(tree) = only(trees) else {
        return Err(SyntaxFault::Shape(at));
    };
    let none = Scope::of(symbols);
    read_cond(alloc, tree, &none, at)
}

// The number of the first name among these, the constants first, that stands before, too.
fn named_again(
    alloc: Global,
    constants: &[Typed],
    objects: &[Typed],
) -> Result<Option<usize>, AllocError>
    ensures { IfOk result (λ o. is_some o ≡ has_twice
        (map (λ d. d.name) (map typed_view constants.now ++ map typed_view objects.now))) }
{
    let mut names = Vec::new(alloc);
    for constant in constants {
        names.push(constant.name.as_str())?;
    }
    for object in objects {
        names.push(object.name.as_str())?;
    }
    second_mention(alloc, &names)
}

// The objects that the section at `at` declares, none of them a constant.
#[tactic(auto, unfolding(tp_syntax_ast::specs::Problems::new_objects))]
fn new_objects(
    alloc: Global,
    types: &Types,
    domain: &Domain,
    trees: &[Tree],
    at: u32,
) -> Result<Vec<Typed>, SyntaxFault>
    requires { types_view types.now ≡ (domain_view domain.now).types }
    ensures { Gives (λ v. map typed_view v.items) result
        (new_objects (domain_view domain.now) (shapes trees.now)) }
{
    let objects = objects_in(alloc, types, trees, at)?;
    if domain.constants.is_empty() {
        return Ok(objects);
    }
    if let Some(number) = named_again(alloc, &domain.constants, &objects)? {
        let object = number.saturating_sub(domain.constants.len());
        return Err(SyntaxFault::Twice(item_place(trees, object, at)));
    }
    Ok(objects)
}

// Where an entry of `:init` names its atom or fluent.
fn entry_place(trees: &[Tree], number: usize, at: u32) -> u32 {
    let Some(tree) = trees.get(number) else {
        return at;
    };
    let Tree::List { items, span } = tree else {
        return at;
    };
    match items.as_slice() {
        [_, atom, ..] => match atom {
            Tree::List { span: inner, .. } => inner.start,
            Tree::Word(_) => span.start,
        },
        _ => span.start,
    }
}

// What holds at first, by the sections of the problem at `at`.
fn initial_in(
    alloc: Global,
    symbols: &Symbols,
    parts: &[SectionItem<ProblemSection>],
    at: u32,
) -> Result<Vec<Initial>, SyntaxFault>
    ensures { Gives (λ v. map initial_view v.items) result
        (initial_of (symbols_view symbols.now)
        (section sections.Init (map section_body_view parts.now))) }
{
    let entries = find_section(ProblemSection::Init, parts, at);
    initial_of(alloc, symbols, entries.body, entries.at)
}

// What is to hold, by the sections of the problem at `at`.
fn goal_of(
    alloc: Global,
    symbols: &Symbols,
    parts: &[SectionItem<ProblemSection>],
    at: u32,
) -> Result<Cond, SyntaxFault>
    ensures { Gives cond_view result
        (goal_in (symbols_view symbols.now)
        (section sections.Goal (map section_body_view parts.now))) }
{
    let goals = find_section(ProblemSection::Goal, parts, at);
    goal_in(alloc, symbols, goals.body, goals.at)
}

// What holds at first, and what is to hold. The problem is at `at`.
#[tactic(auto, unfolding(tp_syntax_ast::specs::Problems::stated))]
fn stated(
    alloc: Global,
    symbols: &Symbols,
    parts: &[SectionItem<ProblemSection>],
    at: u32,
) -> Result<(Vec<Initial>, Cond), SyntaxFault>
    ensures { Gives (λ r. (map initial_view r.0.items, cond_view r.1)) result
        (stated (symbols_view symbols.now) (map section_body_view parts.now)) }
{
    let initial = initial_in(alloc, symbols, parts, at)?;
    let goal = goal_of(alloc, symbols, parts, at)?;
    if let Some(number) = first_clash(alloc, &initial)? {
        let entries = find_section(ProblemSection::Init, parts, at);
        return Err(SyntaxFault::Twice(entry_place(entries.body, number, at)));
    }
    Ok((initial, goal))
}

// What a domain declares, and these objects.
fn symbols_with<'d>(
    alloc: Global,
    types: Types<'d>,
    domain: &'d Domain,
    objects: &'d [Typed],
) -> Result<Symbols<'d>, AllocError>
    requires { types_view types ≡ (domain_view domain.now).types }
    ensures { IfOk result
        (λ s. symbols_view s ≡ symbols_with (domain_view domain.now) (map typed_view objects.now)) }
{
    let constants = Lookup::new(alloc, &domain.constants)?;
    let objects = Lookup::new(alloc, objects)?;
    with_signatures(
        alloc,
        types,
        constants,
        objects,
        &domain.predicates,
        &domain.functions,
    )
}

fn stated_of<'d>(
    alloc: Global,
    types: Types<'d>,
    domain: &'d Domain,
    objects: &'d [Typed],
    parts: &[SectionItem<ProblemSection>],
    at: u32,
) -> Result<(Vec<Initial>, Cond), SyntaxFault>
    requires { types_view types ≡ (domain_view domain.now).types }
    ensures { Gives (λ r. (map initial_view r.0.items, cond_view r.1)) result (stated (symbols_with
        (domain_view domain.now) (map typed_view objects.now)) (map section_body_view parts.now)) }
{
    let symbols = symbols_with(alloc, types, domain, objects)?;
    stated(alloc, &symbols, parts, at)
}

#[tactic(auto, unfolding(tp_syntax_ast::specs::Problems::problem_with))]
fn problem_with(
    alloc: Global,
    domain: &Domain,
    name: String,
    parts: &[SectionItem<ProblemSection>],
    at: u32,
) -> Result<Problem, SyntaxFault>
    ensures { Gives problem_view result
        (problem_with (domain_view domain.now) (string_bytes name)
        (map section_body_view parts.now)) }
{
    let words = find_section(ProblemSection::Requirements, parts, at);
    let _words = requirements_in(alloc, words.body, words.at)?;
    let listed = find_section(ProblemSection::Objects, parts, at);
    let types = Types::new(alloc, domain.types.as_slice())?;
    let objects = new_objects(alloc, &types, domain, listed.body, listed.at)?;
    let (initial, goal) = stated_of(alloc, types, domain, &objects, parts, at)?;
    Ok(Problem {
        name,
        objects,
        initial,
        goal,
    })
}

// The problem's name, beside that of its domain.
#[tactic(auto, unfolding(tp_syntax_ast::specs::Problems::own_name))]
fn own_name(
    alloc: Global,
    domain: &Domain,
    head: &Tree,
    of: &Tree,
    at: u32,
) -> Result<String, SyntaxFault>
    ensures { Gives (λ s. string_bytes s) result
        (own_name (domain_view domain.now) (shape_of head.now) (shape_of of.now)) }
{
    let name = named(alloc, "problem", head, at)?;
    let owner = named(alloc, ":domain", of, at)?;
    if owner.as_str() != domain.name.as_str() {
        return Err(SyntaxFault::Unknown(name_place(of)));
    }
    Ok(name)
}

#[tactic(auto, unfolding(tp_syntax_ast::specs::Problems::problem_of))]
fn problem_of(alloc: Global, domain: &Domain, tree: &Tree) -> Result<Problem, SyntaxFault>
    ensures { Gives problem_view result (problem_of (domain_view domain.now) (shape_of tree.now)) }
{
    let at = place(tree);
    let Some((head, more)) = defined(tree) else {
        return Err(SyntaxFault::Shape(at));
    };
    let Some((of, sections)) = first_of(more) else {
        return Err(SyntaxFault::Shape(at));
    };
    let name = own_name(alloc, domain, head, of, at)?;
    let parts = once_each(alloc, sections, at)?;
    problem_with(alloc, domain, name, &parts, at)
}

/// The problem of this domain that the text spells.
pub fn read_problem(alloc: Global, text: &str, domain: &Domain) -> Result<Problem, SyntaxFault>
    ensures found { IfOk result
        (λ p. SpellsProblem (domain_view domain.now) text.now (problem_view p)) }
    ensures limited { OnOk result (length text.now ≤ max_text) }
    ensures nested { OnOk result (NestsUpTo text.now 64) }
    ensures refused { IfErr result (λ e. IsRefusedProblem (domain_view domain.now) text.now e) }
{
    match read_tree(alloc, text) {
        Ok(tree) => match problem_of(alloc, domain, &tree) {
            Ok(problem) => Ok(problem),
            Err(fault) => Err(tree_fault(fault)),
        },
        Err(fault) => Err(text_fault(fault)),
    }
}
