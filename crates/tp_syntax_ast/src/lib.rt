//! The syntax tree of domains and problems; specs/ has the grammar of the texts that spell them.
//!
//! - `words`: the words that forms begin with
//! - `marks`: items that are as the ones before them
//! - `term`, `types`, `symbols`: terms and atoms; types; what a domain declares
//! - `typed_list`, `type_list`: items with their types, and types, with what those share that were
//!   given together
//! - `expr`, `cond`, `joined`, `effect`, `timed`, `constraint`: expressions, conditions, effects
//!   and duration constraints
//! - `action`, `domain`, `problem`: what they are parts of
//! - `fault`: why a text is none
#![tactic(auto)]

mod action;
mod cond;
mod constraint;
mod domain;
mod effect;
mod expr;
mod fault;
mod joined;
mod marks;
mod problem;
mod symbols;
mod term;
mod timed;
mod type_list;
mod typed_list;
mod types;
mod words;

pub use action::{Action, Body};
pub use cond::Cond;
pub use constraint::DurationRule;
pub use domain::Domain;
pub use effect::{Effect, SimpleEffect};
pub use expr::Expr;
pub use fault::{LeftOutPart, SyntaxFault, text_fault, tree_fault};
pub use joined::Joined;
pub use marks::is_marked;
pub use problem::{Initial, Problem};
pub use symbols::{Signature, Typed};
pub use term::{Atom, Term, is_name};
pub use timed::{Timed, TimedCond, TimedEffect};
pub use type_list::TypeList;
pub use typed_list::TypedList;
pub use types::TypeName;
pub use words::{
    Comparison, CondKind, CondWord, ConstraintForm, EffectWord, Items, Joint, Key, Operator,
    ProblemSection, Section, TimeSpecifier, Writing, cond_word_of, constraint_form_of,
    effect_word_of, is_word, joint_of, key_of, operator_of, problem_section_of, section_of,
    specifier_of,
};
