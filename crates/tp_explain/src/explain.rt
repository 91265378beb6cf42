//! What explains an answer that is no.

use crate::heads::put_head;
use crate::journals::put_wrong;
use crate::plans::{put_exhausted, put_spent, put_unreachable};
use std::alloc::AllocError;
use tp_cli_files::Files;
use tp_explain_faults::{Call, call_of, put_fault_line};
use tp_explain_text::Page;

/// Puts what an answer means.
fn put_ending<N: Files>(
    page: &mut Page,
    files: &mut N,
    call: &Call<'_>,
    answer: &str,
) -> Result<(), AllocError> {
    let (word, rest) = answer.split_once(' ').unwrap_or((answer, ""));
    match word.as_bytes() {
        b"spent" => put_spent(page, call, rest),
        b"exhausted" => put_exhausted(page, call),
        b"unreachable" => return put_unreachable(page, files, call),
        b"wrong" => {
            if let Ok(number) = rest.parse::<u64>() {
                return put_wrong(page, files, call, number);
            }
        }
        _ => {}
    }
    Ok(())
}

/// Puts what explains the only line of standard output of `plan`, `solve` or `audit`, which is
/// given without its end: `unreachable`, `exhausted`, `spent B` or `wrong N`; nothing for another.
/// `words` are those of the call, whose files are read again.
///
/// The cost is that of grounding the task and of its reach for `unreachable`; for `wrong`, of the
/// run.
pub fn explain_ending<N: Files>(words: &[String], files: &mut N, answer: &str, page: &mut Page) {
    let call = call_of(words);
    let _ = put_ending(page, files, &call, answer);
}

/// Puts what explains a fault line, which is given without its end; nothing for a fault of memory
/// or of a device but that a file can't be opened or a journal not be created, nor where more
/// stands behind the line. `words` are those of the call, and `input` is what was read of standard
/// input, at least its first lines. The files are read again by their names.
///
/// The cost is a few passes over the text at fault and those that it names things of; for too large
/// a task, its objects times its parameters; for a journal, its bytes up to the line at fault, and
/// for its head the network of the plan.
pub fn explain_fault<N: Files>(
    words: &[String],
    files: &mut N,
    input: &[u8],
    line: &str,
    page: &mut Page,
) {
    if line == "fault journal 5 head" {
        let call = call_of(words);
        let _ = put_head(page, files, &call);
    } else {
        put_fault_line(words, files, input, line, page);
    }
}
