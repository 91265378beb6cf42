//! What explanations are put together from: their lines, places in files with the source line and
//! the caret under it, names that are near to a wanted one, ticks beside units of time; and where a
//! place of a domain or a problem is in the grammar.
//!
//! - `page`: the lines
//! - `places`: lines and columns, and what stands before a headline or a note
//! - `marks`: the source line and the caret line
//! - `chars`: the characters of bytes that may be no text
//! - `nearest`: names that are near to a wanted one
//! - `moments`: ticks and units of time
//! - `trees`: trees that own their words
//! - `roles`: what a list is, by the lists around it
//! - `paths`: the lists around a place
//!
//! Nothing that writes returns an error: where memory is refused, a page takes no more, and the
//! line in hand is dropped.
#![tactic(auto)]

mod chars;
mod marks;
mod moments;
mod nearest;
mod page;
mod paths;
mod places;
mod roles;
mod trees;

pub use chars::first_char;
pub use marks::{put_mark, put_mark_of_line, put_shown};
pub use moments::{Moment, Ticks, Units};
pub use nearest::Nearest;
pub use page::{Count, Cut, Lower, Page};
pub use paths::{Step, path_to};
pub use places::{At, Source, put_error, without_return};
pub use roles::{Role, Symbol, Value};
pub use trees::{Brief, Text, Tree, Words, head_of, read_tree, rest_of};
