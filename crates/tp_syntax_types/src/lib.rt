//! Names found by tables, and the order among types.
//!
//! - `names`, `once`, `table`, `own_places`, `lookup`: sets of names, names that appear once, where
//!   names stand, what they were declared as
//! - `types`: the order among types, and whether types fit
#![tactic(auto)]

pub mod lookup;
pub mod names;
pub mod once;
pub mod own_places;
pub mod table;
pub mod types;
