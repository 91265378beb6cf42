//! Whether an answer is one that the machine allows.

ghost use Rattle.std.specs.Prelude.{◌≡◌, ◌↔◌, IsTrue, ℕ, List, ◌++◌, true, false, Some, None, drop, codes};
ghost use Rattle.tp_exec_machine.specs.declared.command.Answer.TheVariants.{Refused};
ghost use Rattle.tp_exec_machine.specs.declared.refusal.Refusal.TheVariants.{Memory};
ghost use Rattle.tp_exec_machine.specs.Step.{first_refusal};
ghost use Rattle.tp_journal_pairs.specs.Allowed.{IsJudged, verdict_of};
ghost use Rattle.tp_journal_pairs.specs.Edges.{begins, edges_of};
ghost use Rattle.tp_journal_pairs.specs.Sound.{IsSound};
ghost use Rattle.tp_script.specs.Words.{words_of};

use crate::edges::{begins_with, read_reason};
use crate::page::is_text_of;
use crate::reasons::{begins_with_brought, can_conflict, is_reason};
use crate::refusals::{may_grow, refused_first};
use std::alloc::{AllocError, Global};
use tp_bounds::Reason;
use tp_exec_machine::{Answer, Command, Executive, Refusal, perform};
use tp_net::Net;

/// What is found of an answer.
#[derive(Clone, Copy, Debug, PartialEq, Eq)]
pub enum Finding {
    /// The machine allows it, and the executive has gone on.
    Right,
    /// The machine does not allow it.
    Wrong,
    /// A growth was refused, and nothing was found.
    Memory,
}

/// The verdict by a comparison.
fn compared(same: Result<bool, AllocError>) -> Finding
    ensures { result ≡ verdict_of same }
{
    match same {
        Ok(true) => Finding::Right,
        Ok(false) => Finding::Wrong,
        Err(_) => Finding::Memory,
    }
}

/// Judges the answer of a command to which a refusal applies whatever schedules remain.
fn judge_refused<N: Net>(
    alloc: Global,
    executive: &Executive<N>,
    command: Command,
    refusal: Refusal,
    text: &[u8],
) -> Finding
    requires { first_refusal executive.now command ≡ Some refusal }
    ensures { IsJudged executive.now command text.now executive.now result }
{
    compared(is_text_of(alloc, &Answer::Refused(refusal), text))
}

/// Judges a reason against a command that is well formed.
fn judge_reason<N: Net>(
    alloc: Global,
    executive: &Executive<N>,
    command: Command,
    reason: Reason,
    text: &[u8],
) -> Finding
    requires sound { IsSound executive.now }
    requires formed { first_refusal executive.now command ≡ None }
    requires reads { edges_of (words_of (drop 16 text.now)) ≡ Some reason.edges.items }
    requires conflict { begins (codes "refused conflict") text.now ≡ true }
    ensures { IsJudged executive.now command text.now executive.now result }
{
    let _count = executive.net().events();
    let _next = executive.next();
    let edges = reason.edges.as_slice();
    if !can_conflict(command) {
        return Finding::Wrong;
    }
    if !begins_with_brought(command, edges) {
        return Finding::Wrong;
    }
    if !is_reason(executive, command, edges) {
        return Finding::Wrong;
    }
    compared(is_text_of(alloc, &Answer::Refused(Refusal::Conflict(reason)), text))
}

/// Judges a refusal of a command that is well formed. The command is not carried out.
fn judge_refusal<N: Net>(
    alloc: Global,
    executive: &Executive<N>,
    command: Command,
    text: &[u8],
) -> Finding
    requires sound { IsSound executive.now }
    requires formed { first_refusal executive.now command ≡ None }
    requires refused { begins (codes "refused") text.now ≡ true }
    ensures { IsJudged executive.now command text.now executive.now result }
{
    if text == b"refused memory".as_slice() {
        return if may_grow(command) {
            Finding::Right
        } else {
            Finding::Wrong
        };
    }
    if !begins_with(text, b"refused conflict") {
        return Finding::Wrong;
    }
    let _count = executive.net().events();
    let _next = executive.next();
    match read_reason(alloc, &text[16..]) {
        Ok(Some(reason)) => judge_reason(alloc, executive, command, reason, text),
        Ok(None) => Finding::Wrong,
        Err(_) => Finding::Memory,
    }
}

/// Whether an answer is that a growth was refused.
fn wants_memory(answer: &Answer) -> bool
    ensures { IsTrue result ↔ (answer.now ≡ Refused Memory) }
{
    matches!(answer, Answer::Refused(Refusal::Memory))
}

/// Judges what is no refusal, by a command that is well formed and is carried out.
fn judge_telling<N: Net>(
    alloc: Global,
    executive: &mut Executive<N>,
    command: Command,
    text: &[u8],
) -> Finding
    requires sound { IsSound executive.old }
    requires formed { first_refusal executive.old command ≡ None }
    requires telling { begins (codes "refused") text.now ≡ false }
    ensures exact { IsJudged executive.old command text.now executive.new result }
    ensures sound { IsSound executive.new }
{
    let answer = perform(executive, command);
    if wants_memory(&answer) {
        return Finding::Memory;
    }
    compared(is_text_of(alloc, &answer, text))
}

/// Judges the text of a command's answer, without its line end. Any reason that qualifies is right,
/// and so is that memory ran out where it may. Where the text is right the executive has gone on as
/// it says.
///
/// It costs what the command costs, or for a refusal 3 k + 1 look-ups, where its reason has k
/// edges; and it takes memory for a copy of the text, and for the edges of a reason.
pub fn judge<N: Net>(
    alloc: Global,
    executive: &mut Executive<N>,
    command: Command,
    text: &[u8],
) -> Finding
    requires { IsSound executive.old }
    ensures exact { IsJudged executive.old command text.now executive.new result }
    ensures sound { IsSound executive.new }
{
    if let Some(refusal) = refused_first(executive, command) {
        return judge_refused(alloc, executive, command, refusal, text);
    }
    if begins_with(text, b"refused") {
        judge_refusal(alloc, executive, command, text)
    } else {
        judge_telling(alloc, executive, command, text)
    }
}
