//! What a domain declares.

ghost use Rattle.std.specs.Prelude.{◌≡◌, map, option_map, string_bytes};
ghost use Rattle.tp_syntax_ast.specs.Symbols.{typed_view, types_of, signature_view, signature_of};
ghost use Rattle.tp_syntax_scope.specs.SymbolViews.{symbols_view};
ghost use Rattle.tp_syntax_scope.specs.Fits.{signatures_of};

use tp_syntax_ast::{Signature, Typed};
use tp_syntax_types::lookup::Lookup;
use tp_syntax_types::types::Types;

/// What an atom is of.
#[derive(Clone, Copy)]
pub enum Kind {
    Predicate,
    Function,
}

/// What may be named: what a domain declares, and in a problem its objects too.
#[derive(Drop)]
pub struct Symbols<'a> {
    pub types: Types<'a>,
    pub constants: Lookup<'a, Typed>,
    pub objects: Lookup<'a, Typed>,
    pub predicates: Lookup<'a, Signature>,
    pub functions: Lookup<'a, Signature>,
}

fn types_found<'a>(name: &str, declared: &'a Lookup<Typed>) -> Option<&'a [String]>
    ensures { option_map (λ ts. map string_bytes ts.now) result
        ≡ types_of name.now (map typed_view declared.now) }
{
    match declared.find(name) {
        Some(typed) => Some(typed.type_names()),
        None => None,
    }
}

fn signature_of<'a>(name: &str, signatures: &Lookup<'a, Signature>) -> Option<&'a Signature>
    ensures { option_map (λ f. signature_view f.now) result
        ≡ signature_of name.now (map signature_view signatures.now) }
{
    signatures.find(name)
}

/// The predicate or the function of a name.
pub fn signature_in<'a>(kind: Kind, symbols: &Symbols<'a>, name: &str) -> Option<&'a Signature>
    ensures { option_map (λ f. signature_view f.now) result
        ≡ signature_of name.now (signatures_of kind (symbols_view symbols.now)) }
{
    match kind {
        Kind::Predicate => signature_of(name, &symbols.predicates),
        Kind::Function => signature_of(name, &symbols.functions),
    }
}

/// The types of an object that is declared.
pub fn object_types<'a>(symbols: &'a Symbols, name: &str) -> Option<&'a [String]>
    ensures { option_map (λ ts. map string_bytes ts.now) result
        ≡ types_of name.now (symbols_view symbols.now).objects }
{
    match types_found(name, &symbols.constants) {
        Some(types) => Some(types),
        None => types_found(name, &symbols.objects),
    }
}
