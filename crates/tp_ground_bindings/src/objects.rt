//! The types and the objects, and the objects that fit lists of types.

ghost use Rattle.std.specs.Prelude.{◌≡◌, ◌++◌, map, true};
ghost use Rattle.std.specs.List.{list_all};
ghost use Rattle.tp_syntax_ast.specs.Symbols.{typed_view};
ghost use Rattle.tp_syntax_types.specs.TypeViews.{types_view};
ghost use Rattle.tp_ground_bindings.specs.KnownChoices.{is_known};

use tp_syntax_ast::Typed;
use tp_syntax_types::types::Types;

/// The types, the domain's constants, the problem's objects, and the objects of each list of types
/// that was looked for.
#[derive(Drop)]
pub struct Universe<'a> {
    pub types: Types<'a>,
    pub constants: &'a [Typed],
    pub objects: &'a [Typed],
    pub known: Vec<Known<'a>>,
    ghost right: { list_all (is_known (record {
      types = types_view types;
      objects = map typed_view constants.now ++ map typed_view objects.now;
    })) known.items ≡ true },
}

/// The objects that fit some types.
#[derive(Drop)]
pub struct Known<'a> {
    pub types: &'a [String],
    pub names: Vec<&'a str>,
}
