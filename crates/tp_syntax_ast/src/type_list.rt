//! The types of a domain.

ghost use Rattle.std.specs.Prelude.{◌≡◌};
ghost use Rattle.std.specs.Cmp.{on_per};
ghost use Rattle.std.specs.Cmp.Lexicographic.{pointwise, lists_per};
ghost use Rattle.tp_syntax_ast.specs.Shared.{ShareParents};

use crate::types::TypeName;
use std::alloc::Global;
use std::marker::Model;

/// Types. One that is marked was declared together with the one before it, so that their parents
/// are the same (the first, with `object`); where there are no more marks, none is.
#[derive(Debug, Drop)]
pub struct TypeList {
    pub types: Vec<TypeName>,
    pub marks: Vec<bool>,
}

impl Model for TypeList {
    ghost use Rattle.std.specs.Prelude.{Vec};
    ghost use Rattle.std.specs.Global.{Global};
    ghost use Rattle.tp_syntax_ast.specs.declared.types.TypeName.{TypeName};

    ghost Value = { Vec TypeName Global };

    ghost use Rattle.tp_syntax_ast.specs.Shared.{ShareParents};

    ghost view = { λ l. l.types };

    ghost invariant = { λ l. ShareParents l.marks.items l.types.items };
}

impl TypeList {
    /// Types of which none is marked.
    pub fn unmarked(alloc: Global, types: Vec<TypeName>) -> TypeList
        ensures { result ≡ types }
    {
        let marks = Vec::new(alloc);
        TypeList { types, marks }
    }

    pub fn as_slice(&self) -> &[TypeName]
        ensures { result.now ≡ self.now.items }
    {
        self.types.as_slice()
    }

    /// The marks.
    pub fn marks(&self) -> &[bool]
        ensures { ShareParents result.now self.now.items }
    {
        self.marks.as_slice()
    }
}

impl PartialEq for TypeList {
    ghost use Rattle.tp_syntax_ast.specs.declared.types.TypeName.{TypeName};
    ghost use Rattle.tp_syntax_ast.specs.contracts.types.TypeNamePartialEq.TheImpl as item;
    ghost use Rattle.tp_syntax_ast.specs.contracts.types.TypeNamePartialEq.TheImpl.Laws as item_laws;

    ghost eq = { λ x y. pointwise {A = TypeName} {B = TypeName} item.ghosts.eq x.items y.items };

    ghost laws = { on_per (λ x. x.items) (lists_per item_laws.laws-law) };

    fn eq(&self, other: &TypeList) -> bool {
        self.types == other.types
    }
}
