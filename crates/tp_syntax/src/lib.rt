//! Domains and problems of planning texts.
//!
//! - `keyed`: items that begin with a word of their kind, in any order
//! - `sections`, `problem_sections`: the sections of a domain and of a problem
//! - `fields`: the fields of an action, each at most once
//! - `clash`: the first entry of `:init` that clashes with one before it
//! - `action_reader`: actions
//! - `known`: what actions and a problem may name
//! - `domain_reader`: domains
//! - `initial`: what a problem says of its initial state
//! - `problem`: problems
#![tactic(auto)]

mod action_reader;
mod clash;
mod domain_reader;
mod fields;
mod initial;
mod keyed;
mod known;
mod problem;
mod problem_sections;
mod sections;

pub use domain_reader::read_domain;
pub use problem::read_problem;
pub use tp_syntax_ast::{
    Action, Atom, Body, Comparison, Cond, Domain, DurationRule, Effect, Expr, Initial, Joined,
    LeftOutPart, Problem, Signature, SimpleEffect, SyntaxFault, Term, TimeSpecifier, Timed,
    TimedCond, TimedEffect, TypeList, TypeName, Typed, TypedList, Writing, is_name,
};
pub use tp_syntax_print::print_domain;
pub use tp_syntax_types::types::{Types, types_fit};
