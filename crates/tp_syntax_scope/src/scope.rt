//! What may be named where something stands, and atoms that speak of it.

ghost use Rattle.std.specs.Prelude.{◌≡◌, map, option_map, string_bytes, [], ◌++◌, slice_get, IfOk, IfSome, true, Some};
ghost use Rattle.std.specs.Option.{is_some};
ghost use Rattle.tp_syntax_ast.specs.Terms.{term_view, shapes, atom_view};
ghost use Rattle.tp_syntax_ast.specs.Symbols as declared;
ghost use Rattle.tp_syntax_ast.specs.Symbols.{typed_view, types_of, signature_view, signature_of, argument_types, argument_fits, arguments_fit, atom_in};
ghost use Rattle.tp_syntax_scope.specs.SymbolViews.{symbols_view};
ghost use Rattle.tp_syntax_scope.specs.LevelViews.{levels_view};
ghost use Rattle.tp_syntax_scope.specs.ScopeViews.{scope_view, symbols_of};
ghost use Rattle.tp_syntax_scope.specs.Fits.{signatures_of, types_at};
ghost use Rattle.tp_syntax_ast.specs.Gives.{Gives};

use crate::levels::Levels;
pub use crate::levels::Scope;
use crate::symbols::{Kind, Symbols, object_types, signature_in};
use crate::term::{name_of, terms_of};
use crate::typed::place;
use crate::variables::Variables;
use std::alloc::{AllocError, Global};
use tp_syntax_ast::{Atom, Signature, SyntaxFault, Term};
use tp_syntax_types::types::lists_fit;
use tp_text::{Token, Tree};

impl<'a, 's, 'd> Scope<'a, 's, 'd> {
    /// A scope without variables.
    pub fn of(symbols: &'s Symbols<'d>) -> Scope<'a, 's, 'd>
        ensures symbols { symbols_of result ≡ symbols_view symbols.now }
        ensures view { scope_view result ≡ [] }
    {
        Scope {
            symbols,
            levels: Levels::Empty,
        }
    }

    /// The scope of variables inside another.
    pub fn inside(&'a self, variables: &'a Variables<'s, 'd>) -> Scope<'a, 's, 'd>
        requires { variables.now.symbols ≡ symbols_of self.now }
        ensures symbols { symbols_of result ≡ symbols_of self.now }
        ensures view { scope_view result
            ≡ map typed_view variables.now.items ++ scope_view self.now }
    {
        Scope {
            symbols: self.symbols,
            levels: Levels::Inner(variables, &self.levels),
        }
    }
}

fn types_among<'a>(name: &str, variables: &'a Variables) -> Option<&'a [String]>
    ensures { option_map (λ ts. map string_bytes ts.now) result
        ≡ types_of name.now (map typed_view variables.now.items) }
{
    match variables.find(name) {
        Some(typed) => Some(typed.type_names()),
        None => None,
    }
}

fn variable_types<'a>(name: &str, levels: &'a Levels) -> Option<&'a [String]>
    ensures { option_map (λ ts. map string_bytes ts.now) result
        ≡ types_of name.now (levels_view levels.now) }
{
    match levels {
        Levels::Empty => None,
        Levels::Inner(variables, outer) => match types_among(name, variables) {
            Some(types) => Some(types),
            None => variable_types(name, outer),
        },
    }
}

// The types of an object that is declared, or of a variable in scope.
fn argument_types<'a>(scope: &'a Scope, argument: &Term) -> Option<&'a [String]>
    ensures { option_map (λ ts. map string_bytes ts.now) result ≡ argument_types
        (symbols_of scope.now).objects (scope_view scope.now) (term_view argument.now) }
{
    match argument {
        Term::Object(name) => object_types(scope.symbols, name.as_str()),
        Term::Variable(name) => variable_types(name.as_str(), &scope.levels),
    }
}

// The types of the parameter at a place.
fn parameter_types(signature: &Signature, place: usize) -> Option<&[String]>
    ensures { option_map (λ ts. map string_bytes ts.now) result
        ≡ types_at (signature_view signature.now).parameters place }
{
    match signature.parameters.as_slice().get(place) {
        Some(parameter) => Some(parameter.type_names()),
        None => None,
    }
}

// Whether an argument may stand for a parameter of some types.
fn argument_fits(
    alloc: Global,
    scope: &Scope,
    argument: &Term,
    parameter: &[String],
) -> Result<bool, AllocError>
    ensures { IfOk result (λ b. b
        ≡ argument_fits (symbols_of scope.now).types (symbols_of scope.now).objects
        (scope_view scope.now) (term_view argument.now) (map string_bytes parameter.now)) }
{
    match argument_types(scope, argument) {
        Some(types) => lists_fit(alloc, &scope.symbols.types, types, parameter),
        None => Ok(false),
    }
}

// As many arguments as parameters, each of which fits.
fn arguments_fit(
    alloc: Global,
    scope: &Scope,
    signature: &Signature,
    arguments: &[Term],
) -> Result<bool, AllocError>
    ensures { IfOk result (λ b. b
        ≡ arguments_fit (symbols_of scope.now).types (symbols_of scope.now).objects
        (scope_view scope.now) (map term_view arguments.now)
        (signature_view signature.now).parameters) }
{
    for (place, argument) in arguments.iter().enumerate() {
        let Some(parameter) = parameter_types(signature, place) else {
            return Ok(false);
        };
        if !argument_fits(alloc, scope, argument, parameter)? {
            return Ok(false);
        }
    }
    Ok(arguments.len() >= signature.parameters.as_slice().len())
}

// What is wrong with arguments that do not fit.
fn arguments_fault(scope: &Scope, terms: &[Term], trees: &[Tree], at: u32) -> SyntaxFault {
    for (term, tree) in terms.iter().zip(trees) {
        if !argument_known(scope, term) {
            return SyntaxFault::Unknown(place(tree));
        }
    }
    SyntaxFault::Types(at)
}

/// The atom that the list at `at` is: a name, one of these, and arguments that fit.
#[tactic(auto, unfolding(tp_syntax_ast::specs::Symbols::atom_in))]
pub fn atom_in(
    alloc: Global,
    scope: &Scope,
    kind: Kind,
    word: &Token,
    args: &[Tree],
    at: u32,
) -> Result<Atom, SyntaxFault>
    ensures { Gives atom_view result
        (atom_in (symbols_of scope.now) (signatures_of kind (symbols_of scope.now))
        (scope_view scope.now) word.now.text.now (shapes args.now)) }
{
    let name = name_of(alloc, word.text, at)?;
    let Some(signature) = signature_in(kind, scope.symbols, name.as_str()) else {
        return Err(SyntaxFault::Unknown(word.span.start));
    };
    let terms = terms_of(alloc, args, at)?;
    if !arguments_fit(alloc, scope, signature, &terms)? {
        return Err(arguments_fault(scope, &terms, args, at));
    }
    Ok(Atom { name, terms })
}

/// Whether an object is declared, or a variable in scope.
pub fn argument_known(scope: &Scope, argument: &Term) -> bool
    ensures { result ≡ is_some (argument_types
        (symbols_of scope.now).objects (scope_view scope.now) (term_view argument.now)) }
{
    argument_types(scope, argument).is_some()
}
