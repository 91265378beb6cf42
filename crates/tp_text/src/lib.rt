//! From the bytes of a planning text to its words, its tree and its numbers.
//!
//! `lexing` parts a text into tokens (`token`), its parentheses and words, each with its place.
//! `tree` makes of them the one tree that the text spells. `number` reads words as whole numbers
//! and as times, in ticks. `fault` says why a text is refused, and `law` what holds of every text.
#![tactic(auto)]

mod fault;
pub mod law;
mod lexing;
mod number;
mod token;
mod tree;

pub use fault::TextFault;
pub use lexing::tokens;
pub use number::{Scale, has_time_form, read_ticks, read_whole};
pub use token::{Span, Token};
pub use tree::{Tree, read_tree};
