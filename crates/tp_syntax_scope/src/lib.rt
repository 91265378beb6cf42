//! Names, typed lists, what a domain declares, and what a name means in its scope.
//!
//! - `term`, `lists`: names, variables and terms, and lists of a known length
//! - `typed`: typed lists of names or variables
//! - `type_reader`, `signatures`: types, and predicates and functions, as they are declared
//! - `head`: what a text begins with
//! - `symbols`: what was declared, found by its name
//! - `variables`: variables, found by their names
//! - `levels`, `scope`: the variables in scope, and atoms over them and what was declared
#![tactic(auto)]

mod head;
mod levels;
mod lists;
mod scope;
mod signatures;
mod symbols;
mod term;
mod type_reader;
mod typed;
mod variables;

pub use head::{defined, name_place, named, requirements_in};
pub use lists::{both, first_of, only};
pub use scope::{Scope, argument_known, atom_in};
pub use signatures::{functions_in, predicates_in};
pub use symbols::{Kind, Symbols};
pub use term::{is_variable, name_of, terms_of};
pub use type_reader::types_in;
pub use typed::{item_place, objects_in, parameters_at, place};
pub use variables::Variables;
