//! The audit of journals, and the reading of their heads.
//!
//! - `form`: which lines may stand where in a journal, whatever executive it is of.
//! - `telling`: the head of a journal, as its lines tell it.
//! - `auditing`: the audit of a whole journal.
//! - `cutting`: where the whole pairs of a journal end.
//! - `faults`: what audits answer.
//! - `laws`: what holds of what a journal writes.
#![tactic(auto)]

mod auditing;
mod cutting;
mod faults;
mod form;
mod laws;
mod telling;

pub use auditing::{audit, replay};
pub use cutting::whole_pairs;
pub use faults::{AuditFault, Audited, JournalHead};
pub use laws::{
    answers_have_the_form, heads_are_read, journals_are_accepted, journals_are_never_wrong,
    journals_break_nowhere, journals_have_short_lines, journals_have_the_form,
    journals_have_their_head, pairs_have_the_form, questions_are_read, texts_lead_to_one_state,
    written_journals_are_accepted, written_journals_have_short_lines,
};
pub use telling::journal_head;
