//! The types that a domain declares, and the order among them.

ghost use Rattle.std.specs.Prelude.{◌≡◌, map, length, option_map, string_bytes, List, IfOk};
ghost use Rattle.std.specs.List.{list_all, list_any};
ghost use Rattle.tp_syntax_ast.specs.Domains.{object, no_cycle};
ghost use Rattle.tp_syntax_ast.specs.Symbols.{parent_view, parent_of, at_or_below, types_fit};
ghost use Rattle.tp_syntax_ast.specs.TypedLists.{is_type};
ghost use Rattle.tp_syntax_types.specs.Among.{AreAmong};
ghost use Rattle.tp_syntax_types.specs.Tables.{Name, IsTable};
ghost use Rattle.tp_syntax_types.specs.TypeNames.{type_name};
ghost use Rattle.tp_syntax_types.specs.TypeViews.{types_view};

use crate::names::NameSet;
use crate::table::places;
use std::alloc::{AllocError, Global};
use std::collections::BTreeMap;
use std::marker::Model;
use tp_syntax_ast::TypeName;

/// The types that a domain declares, and a table of their places.
#[derive(Drop)]
pub struct Types<'a> {
    declared: &'a [TypeName],
    places: BTreeMap<&'a str, usize>,
}

impl<'a> Model for Types<'a> {
    ghost use Rattle.std.specs.Prelude.{List, map};
    ghost use Rattle.tp_syntax_ast.specs.declared.types.TypeName.{TypeName};
    ghost use Rattle.tp_syntax_types.specs.Tables.{IsTable};
    ghost use Rattle.tp_syntax_types.specs.TypeNames.{type_name};

    ghost Value = { List TypeName };

    ghost view = { λ t. t.declared.now };

    ghost invariant = { λ t. IsTable t.places (map type_name t.declared.now) };
}

impl<'a> Types<'a> {
    /// Types with a table: a parent is found in the logarithm of their number.
    pub fn new(alloc: Global, declared: &'a [TypeName]) -> Result<Types<'a>, AllocError>
        ensures { IfOk result (λ t. types_view t ≡ map parent_view declared.now) }
    {
        let places = places(alloc, declared)?;
        Ok(Types { declared, places })
    }

    fn len(&self) -> usize
        ensures { result ≡ length self.now }
    {
        self.declared.len()
    }

    fn declared(&self) -> &'a [TypeName]
        ensures { result.now ≡ self.now }
    {
        self.declared
    }
}

fn parent_among<'a>(
    types: &'a [TypeName],
    places: &BTreeMap<&str, usize>,
    name: &str,
) -> Option<&'a String>
    requires { IsTable places.now (map type_name types.now) }
    ensures { option_map (λ p. string_bytes p.now) result
        ≡ parent_of name.now (map parent_view types.now) }
{
    let Some(place) = places.get(name) else {
        return None;
    };
    let Some(declared) = types.get(*place) else {
        return None;
    };
    Some(declared.parent.as_ref())
}

/// The parent of a type, if the type is declared.
pub fn parent_of<'a>(name: &str, types: &Types<'a>) -> Option<&'a String>
    ensures { option_map (λ p. string_bytes p.now) result
        ≡ parent_of name.now (types_view types.now) }
{
    parent_among(types.declared, &types.places, name)
}

fn climbs(types: &Types, steps: usize, below: &String, above: &str) -> bool
    ensures { result ≡ at_or_below (types_view types.now) steps (string_bytes below.now) above.now }
{
    let mut current = below;
    let mut left = steps;
    'up: while left > 0 {
        if current.as_str() == above {
            return true;
        }
        let Some(parent) = parent_of(current.as_str(), types) else {
            return false;
        };
        current = parent;
        left -= 1;
    }
    current.as_str() == above
}

// Whether a type is another, or is below it in at most so many steps.
fn at_or_below(types: &Types, steps: usize, below: &str, above: &str) -> bool
    ensures { result ≡ at_or_below (types_view types.now) steps below.now above.now }
{
    if below == above {
        return true;
    }
    if steps == 0 {
        return false;
    }
    match parent_of(below, types) {
        None => false,
        Some(parent) => climbs(types, steps - 1, parent, above),
    }
}

/// Whether a type is another, or is below it: a climb from parent to parent.
pub fn is_below(types: &Types, below: &str, above: &str) -> bool
    ensures { result ≡ at_or_below (types_view types.now) (length types.now) below.now above.now }
{
    at_or_below(types, types.len(), below, above)
}

// Whether each of some types is below `object`.
fn are_below_object(types: &Types, some: &[TypeName]) -> bool
    ensures { result
        ≡ list_all (λ p. at_or_below (types_view types.now) (length types.now) p.name object)
        (map parent_view some.now) }
{
    for declared in some {
        if !is_below(types, declared.name.as_str(), "object") {
            return false;
        }
    }
    true
}

/// Whether each type is below `object`.
pub fn no_cycle(types: &Types) -> bool
    ensures { result ≡ no_cycle (types_view types.now) }
{
    are_below_object(types, types.declared())
}

// Whether a type is at or below one of these.
fn type_fits(types: &Types, below: &str, parameter: &[String]) -> bool
    ensures { result
        ≡ list_any (λ p. at_or_below (types_view types.now) (length types.now) below.now p)
        (map string_bytes parameter.now) }
{
    for above in parameter {
        if is_below(types, below, above.as_str()) {
            return true;
        }
    }
    false
}

/// Whether each of some types is at or below one of these: each pair is compared.
pub fn types_fit(types: &Types, argument: &[String], parameter: &[String]) -> bool
    ensures { result ≡ types_fit
        (types_view types.now) (map string_bytes argument.now) (map string_bytes parameter.now) }
{
    for below in argument {
        if !type_fits(types, below.as_str(), parameter) {
            return false;
        }
    }
    true
}

// Whether a type is one of some names, or is below one of them in at most so many steps.
fn climbs_to(types: &Types, steps: usize, below: &String, above: &NameSet) -> bool
    ensures { (ps : List Name) → AreAmong ps above.now → result
        ≡ list_any (λ p. at_or_below (types_view types.now) steps (string_bytes below.now) p) ps }
{
    let mut current = below;
    let mut left = steps;
    'up: while left > 0 {
        if above.contains(current.as_str()) {
            return true;
        }
        let Some(parent) = parent_of(current.as_str(), types) else {
            return false;
        };
        current = parent;
        left -= 1;
    }
    above.contains(current.as_str())
}

// The names of some types.
fn names_of<'a>(alloc: Global, types: &'a [String]) -> Result<NameSet<'a>, AllocError>
    ensures { IfOk result (λ s. AreAmong (map string_bytes types.now) s) }
{
    let mut names = NameSet::new(alloc);
    for name in types {
        names.insert(name.as_str())?;
    }
    Ok(names)
}

// Whether each of some types is one of some names, or is below one of them.
fn fit_names(types: &Types, argument: &[String], names: &NameSet) -> bool
    ensures { (ps : List Name) → AreAmong ps names.now → result
        ≡ types_fit (types_view types.now) (map string_bytes argument.now) ps }
{
    for below in argument {
        if !climbs_to(types, types.len(), below, names) {
            return false;
        }
    }
    true
}

// The pairs of so few types are compared one by one.
const FEW: usize = 16;

/// As `types_fit`, for lists that may be long: a climb for each type of the argument.
pub fn lists_fit(
    alloc: Global,
    types: &Types,
    argument: &[String],
    parameter: &[String],
) -> Result<bool, AllocError>
    ensures { IfOk result (λ b. b ≡ types_fit
        (types_view types.now) (map string_bytes argument.now) (map string_bytes parameter.now)) }
{
    if argument.len().saturating_mul(parameter.len()) <= FEW {
        return Ok(types_fit(types, argument, parameter));
    }
    let names = names_of(alloc, parameter)?;
    Ok(fit_names(types, argument, &names))
}

/// Whether a type is declared.
pub fn is_type(types: &Types, name: &str) -> bool
    ensures { result ≡ is_type (types_view types.now) name.now }
{
    name == "object" || parent_of(name, types).is_some()
}

/// Whether each of some types is declared.
pub fn are_types(types: &Types, names: &[String]) -> bool
    ensures { result ≡ list_all (is_type (types_view types.now)) (map string_bytes names.now) }
{
    for name in names {
        if !is_type(types, name.as_str()) {
            return false;
        }
    }
    true
}
