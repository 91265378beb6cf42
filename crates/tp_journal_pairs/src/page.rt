//! Bytes that are written to be compared.

ghost use Rattle.std.specs.Prelude.{◌≡◌, ◌↔◌, ℕ, ◌<◌, [], ◌∷◌, ◌++◌, Some, IsTrue, IfOk};
ghost use Rattle.tp_script.specs.Transcript.{answer_text, line_of};
ghost use Rattle.tp_script.specs.Written.{command_text, command_line};
ghost use Rattle.tp_journal_pairs.specs.Journal.{head_of, head_lines, text_of};
ghost use Rattle.tp_journal_pairs.specs.Writing.{AllAreInForce, IsNewExecutive};

use crate::writing::write_head;
use std::alloc::{AllocError, Global};
use tp_device::{Failed, Sink, Tally};
use tp_exec_machine::{Answer, Command, Executive};
use tp_net::Net;
use tp_script::{write_answer, write_command};

/// A text in memory that grows at its end.
#[derive(Drop)]
struct Page {
    bytes: Vec<u8>,
    failed: Tally,
}

impl Page {
    // A text with nothing in it.
    fn new(alloc: Global) -> Self
        ensures { result.bytes.items ≡ [] }
    {
        Page {
            bytes: Vec::new(alloc),
            failed: Tally::new(),
        }
    }
}

impl Sink for Page {
    ghost held = { λ s. Some s.bytes.items };

    ghost failures = { λ s. s.failed.count };

    fn push(&mut self, bytes: &[u8]) -> Result<usize, Failed> {
        match self.bytes.extend_from_slice(bytes) {
            Ok(()) => Ok(bytes.len()),
            Err(_) => {
                self.failed.tick();
                Err(Failed)
            }
        }
    }
}

/// The line of an answer.
fn line_on_page(alloc: Global, answer: &Answer) -> Result<Vec<u8>, AllocError>
    ensures { IfOk result (λ bytes. bytes.items ≡ line_of answer.now) }
{
    let mut page = Page::new(alloc);
    match write_answer(&mut page, answer) {
        Ok(()) => Ok(page.bytes),
        Err(_) => Err(AllocError),
    }
}

/// Whether a line is a text with a line end behind it.
fn is_line_of(line: &[u8], text: &[u8]) -> bool
    ensures { IsTrue result ↔ (line.now ≡ text.now ++ 10 ∷ []) }
{
    let Some((last, front)) = line.split_last() else {
        return false;
    };
    *last == b'\n' && front == text
}

/// Whether a text is that of an answer.
pub(crate) fn is_text_of(alloc: Global, answer: &Answer, text: &[u8]) -> Result<bool, AllocError>
    ensures { IfOk result (λ same. IsTrue same ↔ (text.now ≡ answer_text answer.now)) }
{
    let line = line_on_page(alloc, answer)?;
    Ok(is_line_of(line.as_slice(), text))
}

/// The line of a command.
fn command_on_page(alloc: Global, command: &Command) -> Result<Vec<u8>, AllocError>
    ensures { IfOk result (λ bytes. bytes.items ≡ command_line command.now) }
{
    let mut page = Page::new(alloc);
    match write_command(&mut page, command) {
        Ok(()) => Ok(page.bytes),
        Err(_) => Err(AllocError),
    }
}

/// Whether a text is the one spelling of a command, without a line end. It takes memory for that
/// spelling, and no more time than its length asks for.
pub fn is_text_of_command(alloc: Global, command: &Command, text: &[u8]) -> Result<bool, AllocError>
    ensures { IfOk result (λ same. IsTrue same ↔ (text.now ≡ command_text command.now)) }
{
    let line = command_on_page(alloc, command)?;
    Ok(is_line_of(line.as_slice(), text))
}

/// The head of an executive.
fn head_on_page<N: Net>(alloc: Global, executive: &Executive<N>) -> Result<Vec<u8>, AllocError>
    requires { AllAreInForce executive.now }
    ensures { IfOk result (λ bytes. bytes.items ≡ text_of (head_lines (head_of 2 executive.now))) }
{
    let mut page = Page::new(alloc);
    match write_head(&mut page, executive) {
        Ok(()) => Ok(page.bytes),
        Err(_) => Err(AllocError),
    }
}

/// The head with which the journal of a new executive begins, as `journal` writes it. It takes
/// memory for its bytes: three lines, and one for each own bound and each lag that is not 0.
pub fn head_text<N: Net>(alloc: Global, executive: &Executive<N>) -> Result<Vec<u8>, AllocError>
    requires { IsNewExecutive executive.now }
    ensures { IfOk result (λ bytes. bytes.items ≡ text_of (head_lines (head_of 2 executive.now))) }
{
    head_on_page(alloc, executive)
}
