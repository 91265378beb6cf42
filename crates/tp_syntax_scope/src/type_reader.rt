//! The types that a domain declares.

ghost use Rattle.std.specs.Prelude.{◌≡◌, ◌∷◌, [], ◌++◌, ◌||◌, map, filter, not, true, string_bytes, length, List, IfOk, OnOk, IfSome};
ghost use Rattle.std.specs.List.{list_all, list_any};
ghost use Rattle.std.specs.Str.{bytes_eq};
ghost use Rattle.tp_syntax_ast.specs.Domains.{object, above, type_below, is_object, mentioned, with_mentioned, no_cycle, types_from, types_in};
ghost use Rattle.std.specs.Option.{is_some};
ghost use Rattle.tp_syntax_scope.specs.RowViews.{AreParentRows, HaveParentRows};
ghost use Rattle.tp_syntax_scope.specs.SignatureViews.{Knows, to_mention};
ghost use Rattle.tp_syntax_types.specs.Among.{has_mark};
ghost use Rattle.tp_syntax_ast.specs.Symbols.{Parent, parent_view, typed_view};
ghost use Rattle.tp_syntax_ast.specs.Terms.{shapes};
ghost use Rattle.tp_syntax_ast.specs.Gives.{Gives};

use crate::typed::{item_place, typed_items};
use std::alloc::{AllocError, Global};
use std::rc::Rc;
use tp_syntax_ast::{Items, SyntaxFault, TypeList, TypeName, Typed, is_marked};
use tp_syntax_types::names::NameSet;
use tp_syntax_types::table::second_named;
use tp_syntax_types::types::{Types, no_cycle};
use tp_text::Tree;

// The type that is named first, or `object`.
fn above(alloc: Global, types: &[String]) -> Result<String, AllocError>
    ensures { IfOk result (λ s. string_bytes s ≡ above (map string_bytes types.now)) }
{
    match types {
        [] => String::from_str(alloc, "object"),
        [first, ..] => first.clone(),
    }
}

fn object_name(alloc: Global) -> Result<Rc<String>, AllocError>
    ensures { IfOk result (λ s. string_bytes s.value ≡ object) }
{
    let name = String::from_str(alloc, "object")?;
    Ok(Rc::new(alloc, name)?)
}

// The parent of a type: that of the type before, if it is marked.
fn parent_in_row(
    alloc: Global,
    before: &Rc<String>,
    mark: bool,
    item: &Typed,
) -> Result<Rc<String>, AllocError>
    requires { mark ≡ true
        → string_bytes before.now.value ≡ above (map string_bytes item.now.types.value.items) }
    ensures { IfOk result (λ s.
        string_bytes s.value ≡ above (map string_bytes item.now.types.value.items)) }
{
    if mark {
        return before.clone();
    }
    let name = above(alloc, item.type_names())?;
    Ok(Rc::new(alloc, name)?)
}

fn type_below(item: &Typed, parent: &Rc<String>) -> Result<TypeName, AllocError>
    requires { string_bytes parent.now.value ≡ above (map string_bytes item.now.types.value.items) }
    ensures { IfOk result (λ t. parent_view t ≡ type_below (typed_view item.now)) }
{
    let name = item.name.clone()?;
    let parent = parent.clone()?;
    Ok(TypeName { name, parent })
}

// The types that these items declare. Those that are marked share the parent of the one before
// them.
fn types_below(alloc: Global, items: &[Typed], rows: &[bool]) -> Result<Vec<TypeName>, AllocError>
    requires { AreParentRows rows.now (map type_below (map typed_view items.now)) }
    ensures { IfOk result
        (λ v. map parent_view v.items ≡ map type_below (map typed_view items.now)) }
{
    let mut types = Vec::new(alloc);
    let mut parent = object_name(alloc)?;
    for (place, item) in items.iter().enumerate() {
        parent = parent_in_row(alloc, &parent, is_marked(rows, place), item)?;
        types.push(type_below(item, &parent)?)?;
    }
    Ok(types)
}

fn is_object(declared: &TypeName) -> bool
    ensures { result ≡ is_object (parent_view declared.now) }
{
    declared.name.as_str() == "object"
}

// `object` is below nothing else.
fn object_is_highest(types: &[TypeName]) -> bool
    ensures { result ≡ list_all
        (λ p. not (is_object p) || bytes_eq p.parent object) (map parent_view types.now) }
{
    for declared in types {
        if is_object(declared) && declared.parent.as_str() != "object" {
            return false;
        }
    }
    true
}

// Types, and marks on those that share the parent of the one before them.
#[derive(Drop)]
struct TypeRows {
    types: Vec<TypeName>,
    marks: Vec<bool>,
}

fn push_type(rows: &mut TypeRows, declared: &TypeName, mark: bool) -> Result<(), AllocError>
    ensures types { OnOk result (map parent_view rows.new.types.items
        ≡ map parent_view rows.old.types.items ++ parent_view declared.now ∷ []) }
    ensures marks { OnOk result (rows.new.marks.items ≡ rows.old.marks.items ++ mark ∷ []) }
{
    let name = declared.name.clone()?;
    let parent = declared.parent.clone()?;
    rows.types.push(TypeName { name, parent })?;
    rows.marks.push(mark)?;
    Ok(())
}

// A type that comes behind `object` isn't marked: its neighbour is gone.
fn without_object(
    alloc: Global,
    listed: &[TypeName],
    marks: &[bool],
) -> Result<TypeRows, AllocError>
    requires { AreParentRows marks.now (map parent_view listed.now) }
    ensures types { IfOk result (λ r. map parent_view r.types.items
        ≡ filter (λ p. not (is_object p)) (map parent_view listed.now)) }
    ensures marks { IfOk result
        (λ r. HaveParentRows r.marks.items (map parent_view r.types.items)) }
{
    let mut rows = TypeRows {
        types: Vec::new(alloc),
        marks: Vec::new(alloc),
    };
    let mut passed = false;
    for (place, declared) in listed.iter().enumerate() {
        if is_object(declared) {
            passed = true;
        } else {
            push_type(&mut rows, declared, is_marked(marks, place) && !passed)?;
            passed = false;
        }
    }
    Ok(rows)
}

// The names that are known: `object` and those of these types.
fn known_names<'a>(alloc: Global, types: &'a [TypeName]) -> Result<NameSet<'a>, AllocError>
    ensures { IfOk result (λ s. Knows s (object ∷ map (λ p. p.name) (map parent_view types.now))) }
{
    let mut known = NameSet::new(alloc);
    known.insert("object")?;
    for declared in types {
        known.insert(declared.name.as_str())?;
    }
    Ok(known)
}

fn below_object(alloc: Global, name: &str) -> Result<TypeName, AllocError>
    ensures { IfOk result (λ t. parent_view t ≡ record { name = name.now; parent = object }) }
{
    let name = String::from_str(alloc, name)?;
    let parent = object_name(alloc)?;
    Ok(TypeName { name, parent })
}

// Declares a parent by its mention, if it is not known. That of a type that is marked is.
fn mention<'a>(
    alloc: Global,
    known: &mut NameSet<'a>,
    done: &mut Vec<TypeName>,
    mark: bool,
    parent: &'a str,
) -> Result<(), AllocError>
    requires { mark ≡ true → has_mark known.old parent.now ≡ true }
    ensures done { OnOk result ((p : Parent) (ps : List Parent) → p.parent ≡ parent.now
        → to_mention done.new.items known.new ps ≡ to_mention done.old.items known.old (p ∷ ps)) }
    ensures known { OnOk result (has_mark known.new parent.now ≡ true) }
{
    if mark {
        return Ok(());
    }
    if !known.insert(parent)? {
        return Ok(());
    }
    done.push(below_object(alloc, parent)?)?;
    Ok(())
}

// Types that are declared by their mention alone.
fn mentioned(alloc: Global, types: &[TypeName], marks: &[bool]) -> Result<Vec<TypeName>, AllocError>
    requires { AreParentRows marks.now (map parent_view types.now) }
    ensures { IfOk result (λ v. map parent_view v.items ≡ mentioned
        (object ∷ map (λ p. p.name) (map parent_view types.now)) (map parent_view types.now)) }
{
    let mut known = known_names(alloc, types)?;
    let mut done = Vec::new(alloc);
    for (place, declared) in types.iter().enumerate() {
        let mark = is_marked(marks, place);
        mention(alloc, &mut known, &mut done, mark, declared.parent.as_str())?;
    }
    Ok(done)
}

// All types but `object`, those that are declared by their mention alone last, unmarked.
fn with_mentioned(
    alloc: Global,
    listed: &[TypeName],
    marks: &[bool],
) -> Result<TypeRows, AllocError>
    requires { AreParentRows marks.now (map parent_view listed.now) }
    ensures types { IfOk result (λ r. map parent_view r.types.items
        ≡ with_mentioned (filter (λ p. not (is_object p)) (map parent_view listed.now))) }
    ensures marks { IfOk result
        (λ r. AreParentRows r.marks.items (map parent_view r.types.items)) }
{
    let TypeRows { types, marks } = without_object(alloc, listed, marks)?;
    let mut types = types;
    for declared in mentioned(alloc, &types, &marks)? {
        types.push(declared)?;
    }
    Ok(TypeRows { types, marks })
}

// Whether the parents of types make no cycle.
fn are_straight(alloc: Global, types: &[TypeName]) -> Result<bool, AllocError>
    ensures { IfOk result (λ b. b ≡ no_cycle (map parent_view types.now)) }
{
    let known = Types::new(alloc, types)?;
    Ok(no_cycle(&known))
}

// The types that these lines of the section at `at` declare.
fn types_from(
    alloc: Global,
    listed: &[TypeName],
    marks: &[bool],
    trees: &[Tree],
    at: u32,
) -> Result<TypeList, SyntaxFault>
    requires { AreParentRows marks.now (map parent_view listed.now) }
    ensures { Gives (λ v. map parent_view v.items) result
        (types_from (map parent_view listed.now)) }
{
    if let Some(number) = second_named(alloc, listed)? {
        return Err(SyntaxFault::Twice(item_place(trees, number, at)));
    }
    if !object_is_highest(listed) {
        return Err(SyntaxFault::Types(at));
    }
    let TypeRows { types, marks } = with_mentioned(alloc, listed, marks)?;
    if !are_straight(alloc, &types)? {
        return Err(SyntaxFault::Types(at));
    }
    Ok(TypeList { types, marks })
}

/// The types of the section at `at`, all but `object`. What types that were given one parent
/// together share is looked at once.
#[tactic(auto, unfolding(tp_syntax_ast::specs::Domains::types_in))]
pub fn types_in(alloc: Global, trees: &[Tree], at: u32) -> Result<TypeList, SyntaxFault>
    ensures { Gives (λ v. map parent_view v.items) result (types_in (shapes trees.now)) }
{
    let none = Types::new(alloc, &[])?;
    let items = typed_items(alloc, &none, Items::Names, trees, at)?;
    let marks = items.items.marks();
    let listed = types_below(alloc, items.items.as_slice(), marks)?;
    types_from(alloc, &listed, marks, trees, at)
}
