//! Domains.

use crate::action::Action;
use crate::symbols::{Signature, Typed};
use crate::type_list::TypeList;

/// A domain: what problems may name, and what may be done. All names are in lower case.
#[derive(Debug, PartialEq, Drop)]
pub struct Domain {
    pub name: String,
    /// The words of `:requirements`, with their ':'.
    pub requirements: Vec<String>,
    /// All types but `object`, those that are declared by their mention alone last.
    pub types: TypeList,
    pub constants: Vec<Typed>,
    pub predicates: Vec<Signature>,
    pub functions: Vec<Signature>,
    pub actions: Vec<Action>,
}
