//! Typed lists.

ghost use Rattle.std.specs.Prelude.{◌≡◌, ◌&&◌, ◌∷◌, [], ◌++◌, map, OnOk, IfOk, string_bytes, codes};
ghost use Rattle.tp_text.specs.Trees.{shape_of};
ghost use Rattle.tp_syntax_ast.specs.Terms.{shapes};
ghost use Rattle.tp_syntax_ast.specs.Symbols.{typed_view};
ghost use Rattle.tp_syntax_scope.specs.RowViews.{HaveRows};
ghost use Rattle.tp_syntax_types.specs.TypeViews.{types_view};
ghost use Rattle.std.specs.Option.{is_some};
ghost use Rattle.tp_syntax_ast.specs.Gives.{Gives, provided};
ghost use Rattle.tp_syntax_ast.specs.Domains.{objects_in};
ghost use Rattle.tp_syntax_ast.specs.TypedLists.{is_dash, given, item_at, type_at, typed_list, name_at, names_of, is_either, either_of, is_type, has_twice, are_declared, parameters_of, parameters_at};
ghost use Rattle.std.specs.List.{list_all, list_any};
ghost use Rattle.std.specs.Str.{bytes_eq};

use crate::term::{name_of, variable_of};
use std::alloc::{AllocError, Global};
use std::rc::Rc;
use tp_syntax_ast::{Items, LeftOutPart, SyntaxFault, Typed, TypedList, is_word};
use tp_syntax_types::once::second_mention;
use tp_syntax_types::types::{Types, are_types, is_type};
use tp_text::Tree;

/// Where a tree begins.
pub fn place(tree: &Tree) -> u32 {
    match tree {
        Tree::Word(token) => token.span.start,
        Tree::List { span, .. } => span.start,
    }
}

#[tactic(auto, unfolding(tp_syntax_ast::specs::TypedLists::is_dash))]
pub fn is_dash(tree: &Tree) -> bool
    ensures { result ≡ is_dash (shape_of tree.now) }
{
    match tree {
        Tree::Word(token) => token.text == "-",
        Tree::List { .. } => false,
    }
}

#[tactic(auto, unfolding(tp_syntax_ast::specs::TypedLists::item_at))]
fn item_at(alloc: Global, items: Items, tree: &Tree, at: u32) -> Result<String, SyntaxFault>
    ensures { Gives (λ s. string_bytes s) result (item_at items (shape_of tree.now)) }
{
    match tree {
        Tree::Word(token) => match items {
            Items::Variables => variable_of(alloc, token.text, at),
            Items::Names => name_of(alloc, token.text, at),
        },
        Tree::List { .. } => Err(SyntaxFault::Shape(at)),
    }
}

#[tactic(auto, unfolding(tp_syntax_ast::specs::TypedLists::name_at))]
fn name_at(alloc: Global, tree: &Tree, at: u32) -> Result<String, SyntaxFault>
    ensures { Gives (λ s. string_bytes s) result (name_at (shape_of tree.now)) }
{
    match tree {
        Tree::Word(token) => name_of(alloc, token.text, at),
        Tree::List { .. } => Err(SyntaxFault::Shape(at)),
    }
}

fn names_of(alloc: Global, trees: &[Tree], at: u32) -> Result<Vec<String>, SyntaxFault>
    ensures { Gives (λ v. map string_bytes v.items) result (names_of (shapes trees.now)) }
{
    let mut names = Vec::new(alloc);
    for tree in trees {
        names.push(name_at(alloc, tree, at)?)?;
    }
    Ok(names)
}

#[tactic(auto, unfolding(tp_syntax_ast::specs::TypedLists::is_either))]
fn is_either(tree: &Tree) -> bool
    ensures { result ≡ is_either (shape_of tree.now) }
{
    match tree {
        Tree::Word(token) => is_word(token.text, "either"),
        Tree::List { .. } => false,
    }
}

#[tactic(auto, unfolding(tp_syntax_ast::specs::TypedLists::either_of))]
fn either_of(alloc: Global, trees: &[Tree], at: u32) -> Result<Vec<String>, SyntaxFault>
    ensures { Gives (λ v. map string_bytes v.items) result (either_of (shapes trees.now)) }
{
    let [first, types @ ..] = trees else {
        return Err(SyntaxFault::Shape(at));
    };
    if !is_either(first) {
        return Err(SyntaxFault::Shape(at));
    }
    let names = names_of(alloc, types, at)?;
    if names.is_empty() {
        return Err(SyntaxFault::Shape(at));
    }
    Ok(names)
}

// What is wrong with a list where a type's name has to stand.
fn list_fault(members: &[Tree], at: u32) -> SyntaxFault {
    match members {
        [first, ..] if is_either(first) => SyntaxFault::LeftOut(at, LeftOutPart::Either),
        _ => SyntaxFault::Shape(at),
    }
}

#[tactic(auto, unfolding(tp_syntax_ast::specs::TypedLists::type_at))]
fn type_at(alloc: Global, items: Items, tree: &Tree, at: u32) -> Result<Vec<String>, SyntaxFault>
    ensures { Gives (λ v. map string_bytes v.items) result (type_at items (shape_of tree.now)) }
{
    match tree {
        Tree::Word(token) => {
            let name = name_of(alloc, token.text, at)?;
            let mut types = Vec::with_capacity(alloc, 1)?;
            types.push(name)?;
            Ok(types)
        }
        Tree::List {
            items: members,
            span,
        } => match items {
            Items::Variables => either_of(alloc, members, span.start),
            Items::Names => Err(list_fault(members, span.start)),
        },
    }
}

fn object_type(alloc: Global) -> Result<Vec<String>, AllocError>
    ensures { IfOk result (λ v. map string_bytes v.items ≡ codes "object" ∷ []) }
{
    let name = String::from_str(alloc, "object")?;
    let mut types = Vec::with_capacity(alloc, 1)?;
    types.push(name)?;
    Ok(types)
}

// Gives a name these types, which others may share.
fn push_typed(
    done: &mut Vec<Typed>,
    rows: &mut Vec<bool>,
    name: String,
    types: &Rc<Vec<String>>,
    mark: bool,
) -> Result<(), AllocError>
    ensures items { OnOk result (map typed_view done.new.items ≡ map typed_view done.old.items
        ++ given (map string_bytes types.now.value.items) (string_bytes name) ∷ []) }
    ensures rows { OnOk result (rows.new.items ≡ rows.old.items ++ mark ∷ []) }
{
    let types = types.clone()?;
    done.push(Typed { name, types })?;
    rows.push(mark)?;
    Ok(())
}

// Gives each of some names these types, which they share: all but the first are marked.
fn give(
    alloc: Global,
    done: &mut Vec<Typed>,
    rows: &mut Vec<bool>,
    names: Vec<String>,
    types: Vec<String>,
) -> Result<(), AllocError>
    ensures items { OnOk result (map typed_view done.new.items ≡ map typed_view done.old.items
        ++ map (given (map string_bytes types.items)) (map string_bytes names.items)) }
    ensures rows { OnOk result (HaveRows rows.old.items (map typed_view done.old.items)
        → HaveRows rows.new.items (map typed_view done.new.items)) }
{
    let shared = Rc::new(alloc, types)?;
    let mut mark = false;
    for name in names {
        push_typed(done, rows, name, &shared, mark)?;
        mark = true;
    }
    Ok(())
}

// Gives names behind which no type stands the type of all objects. Where there are none, as in most
// lists, nothing is made.
fn give_object(
    alloc: Global,
    done: &mut Vec<Typed>,
    rows: &mut Vec<bool>,
    names: Vec<String>,
) -> Result<(), AllocError>
    ensures items { OnOk result (map typed_view done.new.items ≡ map typed_view done.old.items
        ++ map (given (codes "object" ∷ [])) (map string_bytes names.items)) }
    ensures rows { OnOk result (HaveRows rows.old.items (map typed_view done.old.items)
        → HaveRows rows.new.items (map typed_view done.new.items)) }
{
    if names.is_empty() {
        return Ok(());
    }
    let object = object_type(alloc)?;
    give(alloc, done, rows, names, object)
}

/// The items of a typed list, and whether each of their types is declared.
#[derive(Drop)]
pub struct Listed {
    pub items: TypedList,
    pub are_declared: bool,
}

// Whether these types are declared too.
fn declared_too(so_far: bool, types: &Types, names: &[String]) -> bool
    ensures { result
        ≡ (so_far && list_all (is_type (types_view types.now)) (map string_bytes names.now)) }
{
    so_far && are_types(types, names)
}

/// The items of a typed list, with their types, of which each is looked for once for all items that
/// share it. The list that has these members is at `at`.
pub fn typed_items(
    alloc: Global,
    types: &Types,
    items: Items,
    trees: &[Tree],
    at: u32,
) -> Result<Listed, SyntaxFault>
    ensures items { Gives
        (λ l. map typed_view l.items.items) result (typed_list items (shapes trees.now)) }
    ensures declared { IfOk result (λ l. l.are_declared ≡ list_all
        (λ d. list_all (is_type (types_view types.now)) d.types) (map typed_view l.items.items)) }
{
    let mut done = Vec::new(alloc);
    let mut rows = Vec::new(alloc);
    let mut are_declared = true;
    let mut waiting = Vec::new(alloc);
    let mut rest = trees;
    'runs: while let [first, others @ ..] = rest {
        if is_dash(first) {
            if waiting.is_empty() {
                return Err(SyntaxFault::Shape(at));
            }
            let [kind, more @ ..] = others else {
                return Err(SyntaxFault::Shape(at));
            };
            let kinds = type_at(alloc, items, kind, at)?;
            are_declared = declared_too(are_declared, types, kinds.as_slice());
            give(alloc, &mut done, &mut rows, waiting, kinds)?;
            waiting = Vec::new(alloc);
            rest = more;
        } else {
            waiting.push(item_at(alloc, items, first, at)?)?;
            rest = others;
        }
    }
    give_object(alloc, &mut done, &mut rows, waiting)?;
    let items = TypedList {
        items: done,
        marks: rows,
    };
    Ok(Listed {
        items,
        are_declared,
    })
}

// The number of the first item whose name stands before it, too.
fn named_again(alloc: Global, items: &[Typed]) -> Result<Option<usize>, AllocError>
    ensures { IfOk result
        (λ o. is_some o ≡ has_twice (map (λ d. d.name) (map typed_view items.now))) }
{
    // One item, as most lists have, takes no memory.
    if let [] | [_] = items {
        return Ok(None);
    }
    let mut names = Vec::new(alloc);
    for item in items {
        names.push(item.name.as_str())?;
    }
    second_mention(alloc, &names)
}

/// Where an item of a typed list stands, by its number.
pub fn item_place(trees: &[Tree], number: usize, at: u32) -> u32 {
    let mut left = number;
    let mut after_dash = false;
    for tree in trees {
        if after_dash {
            after_dash = false;
        } else if is_dash(tree) {
            after_dash = true;
        } else if left == 0 {
            return place(tree);
        } else {
            left -= 1;
        }
    }
    at
}

// Where a type stands, by its number among those of `(either T ..)`.
fn type_place(tree: &Tree, number: usize) -> u32 {
    match tree {
        Tree::Word(token) => token.span.start,
        Tree::List { items, span } => match items.as_slice() {
            [] => span.start,
            [_, types @ ..] => types.get(number).map_or(span.start, |kind| place(kind)),
        },
    }
}

// Where the first type of an item that is not declared stands, in the tree that names its types.
fn undeclared(types: &Types, item: Option<&Typed>, tree: &Tree) -> Option<u32> {
    for (number, name) in item?.type_names().iter().enumerate() {
        if !is_type(types, name.as_str()) {
            return Some(type_place(tree, number));
        }
    }
    None
}

// What is wrong with items of which one has a type that is not declared. The types of a run are
// those of its last item.
fn undeclared_type(types: &Types, items: &[Typed], trees: &[Tree], at: u32) -> SyntaxFault {
    let mut last = None;
    let mut left = items.iter();
    let mut after_dash = false;
    for tree in trees {
        if after_dash {
            after_dash = false;
            if let Some(place) = undeclared(types, last, tree) {
                return SyntaxFault::Unknown(place);
            }
        } else if is_dash(tree) {
            after_dash = true;
        } else {
            last = left.next();
        }
    }
    SyntaxFault::Unknown(at)
}

// Items that were read from these trees, each named once and of declared types.
fn declared(
    alloc: Global,
    types: &Types,
    listed: Listed,
    trees: &[Tree],
    at: u32,
) -> Result<TypedList, SyntaxFault>
    requires { listed.are_declared ≡ list_all (λ d.
        list_all (is_type (types_view types.now)) d.types) (map typed_view listed.items.items) }
    ensures { let ds = map typed_view listed.items.items in Gives (λ v. map typed_view v.items)
        result (provided (are_declared (types_view types.now) ds) ds) }
{
    let Listed {
        items,
        are_declared,
    } = listed;
    if let Some(number) = named_again(alloc, items.as_slice())? {
        return Err(SyntaxFault::Twice(item_place(trees, number, at)));
    }
    if !are_declared {
        return Err(undeclared_type(types, items.as_slice(), trees, at));
    }
    Ok(items)
}

fn has_duration(items: &[Typed]) -> bool
    ensures { result
        ≡ list_any (λ v. bytes_eq v.name (codes "?duration")) (map typed_view items.now) }
{
    for item in items {
        if item.name.as_str() == "?duration" {
            return true;
        }
    }
    false
}

/// Names, each once and of declared types. The list that has these members is at `at`.
#[tactic(auto, unfolding(tp_syntax_ast::specs::Domains::objects_in))]
pub fn objects_in(
    alloc: Global,
    types: &Types,
    trees: &[Tree],
    at: u32,
) -> Result<Vec<Typed>, SyntaxFault>
    ensures { Gives (λ v. map typed_view v.items) result
        (objects_in (types_view types.now) (shapes trees.now)) }
{
    let listed = typed_items(alloc, types, Items::Names, trees, at)?;
    match declared(alloc, types, listed, trees, at) {
        Ok(items) => Ok(items.into_items()),
        Err(fault) => Err(fault),
    }
}

/// Variables, each once and of declared types.
#[tactic(auto, unfolding(tp_syntax_ast::specs::TypedLists::parameters_of))]
pub fn parameters_of(
    alloc: Global,
    types: &Types,
    trees: &[Tree],
    at: u32,
) -> Result<TypedList, SyntaxFault>
    ensures { Gives (λ v. map typed_view v.items) result
        (parameters_of (types_view types.now) (shapes trees.now)) }
{
    let listed = typed_items(alloc, types, Items::Variables, trees, at)?;
    if has_duration(listed.items.as_slice()) {
        return Err(SyntaxFault::Shape(at));
    }
    declared(alloc, types, listed, trees, at)
}

/// The variables that a member of the list at `at` declares.
pub fn parameters_at(
    alloc: Global,
    types: &Types,
    tree: &Tree,
    at: u32,
) -> Result<TypedList, SyntaxFault>
    ensures { Gives (λ v. map typed_view v.items) result
        (parameters_at (types_view types.now) (shape_of tree.now)) }
{
    match tree {
        Tree::Word(_) => Err(SyntaxFault::Shape(at)),
        Tree::List { items, span } => parameters_of(alloc, types, items, span.start),
    }
}
