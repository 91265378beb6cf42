//! What a domain declares: objects and variables with their types, predicates and functions.

ghost use Rattle.std.specs.Prelude.{◌≡◌};

use crate::typed_list::TypedList;
use std::rc::Rc;

/// A name with its types: an object or parameter is of one of them. Items that were given their
/// types together share them.
#[derive(Debug, PartialEq, Drop)]
pub struct Typed {
    pub name: String,
    pub types: Rc<Vec<String>>,
}

impl Typed {
    /// The names of its types.
    pub fn type_names(&self) -> &[String]
        ensures { result.now ≡ self.now.types.value.items }
    {
        self.types.as_slice()
    }
}

/// A predicate or function with its parameters.
#[derive(Debug, PartialEq, Drop)]
pub struct Signature {
    pub name: String,
    pub parameters: TypedList,
}
