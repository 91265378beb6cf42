//! Items with their types.

ghost use Rattle.std.specs.Prelude.{◌≡◌};
ghost use Rattle.std.specs.Cmp.{on_per};
ghost use Rattle.std.specs.Cmp.Lexicographic.{pointwise, lists_per};
ghost use Rattle.tp_syntax_ast.specs.Shared.{ShareTypes};

use crate::symbols::Typed;
use std::alloc::Global;
use std::marker::Model;

/// Items with their types. An item that is marked was given its types together with the one before
/// it, so that they are the same; where there are no more marks, none is.
#[derive(Debug, Drop)]
pub struct TypedList {
    pub items: Vec<Typed>,
    pub marks: Vec<bool>,
}

impl Model for TypedList {
    ghost use Rattle.std.specs.Prelude.{Vec};
    ghost use Rattle.std.specs.Global.{Global};
    ghost use Rattle.tp_syntax_ast.specs.declared.symbols.Typed.{Typed};

    ghost Value = { Vec Typed Global };

    ghost use Rattle.tp_syntax_ast.specs.Shared.{ShareTypes};

    ghost view = { λ l. l.items };

    ghost invariant = { λ l. ShareTypes l.marks.items l.items.items };
}

impl TypedList {
    /// Items of which none is marked.
    pub fn unmarked(alloc: Global, items: Vec<Typed>) -> TypedList
        ensures { result ≡ items }
    {
        let marks = Vec::new(alloc);
        TypedList { items, marks }
    }

    pub fn as_slice(&self) -> &[Typed]
        ensures { result.now ≡ self.now.items }
    {
        self.items.as_slice()
    }

    pub fn into_items(self) -> Vec<Typed>
        ensures { result ≡ self }
    {
        let TypedList { items, .. } = self;
        items
    }

    /// The marks.
    pub fn marks(&self) -> &[bool]
        ensures { ShareTypes result.now self.now.items }
    {
        self.marks.as_slice()
    }
}

impl PartialEq for TypedList {
    ghost use Rattle.tp_syntax_ast.specs.declared.symbols.Typed.{Typed};
    ghost use Rattle.tp_syntax_ast.specs.contracts.symbols.TypedPartialEq.TheImpl as item;
    ghost use Rattle.tp_syntax_ast.specs.contracts.symbols.TypedPartialEq.TheImpl.Laws as item_laws;

    ghost eq = { λ x y. pointwise {A = Typed} {B = Typed} item.ghosts.eq x.items y.items };

    ghost laws = { on_per (λ x. x.items) (lists_per item_laws.laws-law) };

    fn eq(&self, other: &TypedList) -> bool {
        self.items == other.items
    }
}
