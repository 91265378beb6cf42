//! What is wrong with a domain or a problem.
//!
//! - `characters`: characters that may not stand in a text
//! - `indentation`: which list is not closed, by the lines that begin with lists or fields
//! - `lists`: what is wrong with the lists of a text that is no tree
//! - `reasons`: what may be wrong with a list, and how it is worded
//! - `texts`, `sections`, `typed_lists`, `bodies`, `expressions`, `initial`: what is wrong with a
//!   list of a role
//! - `shapes`: what is wrong with the list around a place
//! - `left_out`: constructs that are left out
//! - `declarations`: what the texts declare, and the variables in scope
//! - `near`: the nearest of the declared names, or a list of them
//! - `typing`: types of terms, and which of them fit
//! - `unknown`, `twice`, `mismatches`: what is wrong with the name at a place
#![tactic(auto)]

mod bodies;
mod characters;
mod declarations;
mod expressions;
mod indentation;
mod initial;
mod left_out;
mod lists;
mod mismatches;
mod near;
mod reasons;
mod sections;
mod shapes;
mod texts;
mod twice;
mod typed_lists;
mod typing;
mod unknown;

pub use characters::{put_bad_byte, put_no_utf8};
pub use declarations::{
    Declared, Fault, Kind, World, declarations_of, find_named, is_action, parameters_in,
    section_of, typed_items,
};
pub use left_out::put_left_out;
pub use lists::{put_depth, put_empty, put_extra, put_text_too_long, put_unclosed};
pub use mismatches::{first_misfit, put_takes, put_types};
pub use near::put_no_name;
pub use shapes::put_shape;
pub use twice::put_twice;
pub use typing::{Types, fits};
pub use unknown::put_unknown;
