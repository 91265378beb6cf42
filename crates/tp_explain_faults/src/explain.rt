//! What stands behind a fault line with `--explain`.

use crate::arguments::put_arguments;
use crate::calls::call_of;
use crate::contents::bytes_of;
use crate::fault_lines::{Line, line_of, number_of};
use crate::journals::{keep_lines, put_journal_line};
use crate::scripts::put_head;
use crate::texts::put_text_fault;
use crate::worlds::put_with_world;
use std::alloc::AllocError;
use tp_cli_files::Files;
use tp_explain_syntax::{put_no_utf8, put_text_too_long};
use tp_explain_text::{Page, Source, put};

/// What a number that passes the greatest one, or what is too large, means: by the part and the
/// word of the line, what is wrong with a file, and what helps.
const LIMITS: [(&str, &str, &str, &str); 5] = [
    (
        "check",
        "range",
        "a value past 1000000000000000 arises before the first fault",
        "choose a greater unit",
    ),
    (
        "search",
        "range",
        "a value past 1000000000000000 arises in the search",
        "choose a greater unit",
    ),
    (
        "net",
        "too-many",
        "the network has more than 65535 bounds",
        "fewer steps that write what others read",
    ),
    (
        "split",
        "agent",
        "no event is that of an agent of this number or a greater one",
        "give --part a number up to the greatest of this file",
    ),
    (
        "split",
        "too-many",
        "the network of this agent has more than 65535 bounds",
        "give its events to more agents",
    ),
];

/// Puts what is beyond a limit.
fn put_limit(page: &mut Page, line: &Line<'_>) {
    let found = LIMITS
        .iter()
        .find(|row| row.0 == line.part && row.1 == line.word);
    if let Some((part, _, what, help)) = found.copied() {
        let name = match part.as_bytes() {
            b"search" => line.call.problem,
            b"split" => line.call.owners,
            _ => line.call.plan,
        };
        put!(page; "{name}: error: {what}\nhelp: {help}\n");
    }
}

/// Puts what is wrong with a file that gave no text.
fn put_file<N: Files>(page: &mut Page, files: &mut N, line: &Line<'_>) -> Result<(), AllocError> {
    let name = line.rest;
    match line.word.as_bytes() {
        b"read" => put!(page; "{name}: error: the file cannot be opened or read\n"),
        b"utf8" => {
            let bytes = bytes_of(page.alloc(), files, name)?;
            let text = bytes.as_slice();
            put_no_utf8(page, Source { name, text });
        }
        b"too-long" if name == line.call.owners => {
            put_text_too_long(page, name, "one number an event");
        }
        b"too-long" => put_text_too_long(page, name, "divide the plan"),
        _ => {}
    }
    Ok(())
}

/// Puts what is wrong with commands, or with the journal of their answers.
fn put_script<N: Files>(page: &mut Page, files: &mut N, line: &Line<'_>) -> Result<(), AllocError> {
    match line.word.as_bytes() {
        b"too-long" => {
            page.put("stdin: error: the input has more than 4294967296 bytes\n");
            page.put("help: begin a new run\n");
        }
        b"log" => {
            put!(page; "{}: error: the journal cannot be made or written\n", line.call.journal);
            page.put("help: see that its folder is there and may be written\n");
        }
        b"head" if line.call.command == "run" => return put_with_world(page, files, line),
        b"head" => return put_head(page, line.input),
        _ => {}
    }
    Ok(())
}

/// Puts what a fault line says, where memory and devices are not what is wanting.
fn put_fault<N: Files>(page: &mut Page, files: &mut N, line: &Line<'_>) -> Result<(), AllocError> {
    match (line.part.as_bytes(), line.word.as_bytes()) {
        (_, b"memory") => {}
        (b"arguments", b"words") => put_arguments(page, &line.call),
        (b"file", _) => return put_file(page, files, line),
        (b"script", _) => return put_script(page, files, line),
        (b"journal", b"line") => {
            let (name, number) = (line.call.log, number_of(line.rest).unwrap_or(0));
            let lines = keep_lines(page.alloc(), files, name, number)?;
            put_journal_line(page, name, lines.as_slice(), number);
        }
        (b"domain" | b"problem", b"text") => return put_text_fault(page, files, line),
        (b"domain" | b"problem" | b"ground" | b"plan", _) | (b"split", b"owner") => {
            return put_with_world(page, files, line);
        }
        _ => put_limit(page, line),
    }
    Ok(())
}

/// Puts what explains a fault line, which is given without its end; nothing for a fault of memory
/// or of a device but that a file can't be opened or a journal not be made, nor where more stands
/// behind the line. `words` are those of the call, and `input` is what was read of standard input,
/// at least its first lines. The files are read again by their names.
///
/// The cost is a few passes over the text at fault and those that it names things of; for too large
/// a task, its objects times its parameters; for a journal, its bytes up to the line at fault.
pub fn put_fault_line<N: Files>(
    words: &[String],
    files: &mut N,
    input: &[u8],
    line: &str,
    page: &mut Page,
) {
    if line.contains('\n') {
        return;
    }
    if let Some(line) = line_of(line, call_of(words), input) {
        let _ = put_fault(page, files, &line);
    }
}
