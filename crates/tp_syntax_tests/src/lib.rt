//! Tests of texts and of their syntax.
//!
//! - `words`: tokens, whole numbers and times
//! - `domains`: domains that are read, printed and read again
#![tactic(auto)]

#[cfg(test)]
mod domains;
#[cfg(test)]
mod words;
