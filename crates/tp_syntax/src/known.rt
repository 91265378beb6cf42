//! What the actions of a domain and a problem may name.

ghost use Rattle.std.specs.Prelude.{◌≡◌, ◌++◌, map, IfOk};
ghost use Rattle.tp_syntax_ast.specs.Symbols.{typed_view, signature_view};
ghost use Rattle.tp_syntax_types.specs.TypeViews.{types_view};
ghost use Rattle.tp_syntax_scope.specs.SymbolViews.{symbols_view};
ghost use Rattle.tp_syntax.specs.SectionViews.{domain_symbols};

use std::alloc::{AllocError, Global};
use tp_syntax_ast::{Signature, Typed};
use tp_syntax_scope::Symbols;
use tp_syntax_types::lookup::Lookup;
use tp_syntax_types::types::Types;

/// Types and objects that are found, beside predicates and functions.
pub fn with_signatures<'d>(
    alloc: Global,
    types: Types<'d>,
    constants: Lookup<'d, Typed>,
    objects: Lookup<'d, Typed>,
    predicates: &'d [Signature],
    functions: &'d [Signature],
) -> Result<Symbols<'d>, AllocError>
    ensures { IfOk result (λ s. symbols_view s ≡ domain_symbols
        (types_view types.entry) (map typed_view constants.entry ++ map typed_view objects.entry)
        (map signature_view predicates.now) (map signature_view functions.now)) }
{
    let predicates = Lookup::new(alloc, predicates)?;
    let functions = Lookup::new(alloc, functions)?;
    Ok(Symbols {
        types,
        constants,
        objects,
        predicates,
        functions,
    })
}
