//! What is joined by `and` and `forall`.

use crate::typed_list::TypedList;

/// Parts that all stand together: of an effect, of a timed condition or of a timed effect.
#[derive(Debug, PartialEq, Drop)]
pub enum Joined<A> {
    And(Vec<Joined<A>>),
    /// Once for each binding of the variables.
    Forall(TypedList, Box<Joined<A>>),
    One(A),
}
