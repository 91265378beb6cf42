//! Prints domains.
//!
//! - `printer`: a writer that is given nothing more once it has failed
//! - `words`: the words of comparisons and of writes
//! - `print_parts`: names, terms, expressions, conditions, effects, duration constraints
//! - `print`: domains
#![tactic(auto)]

mod print;
mod print_parts;
mod printer;
mod words;

pub use print::print_domain;
