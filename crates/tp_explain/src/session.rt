//! What was heard of a call, and the lines that explain it.

use crate::explain::{explain_ending, explain_fault};
use crate::heard::Listener;
use crate::narrator::Narrator;
use std::alloc::Global;
use std::io::Write;
use tp_cli_files::Files;
use tp_explain_text::Page;

/// How many bytes of the standard input are kept, and of each other stream.
const MOST: usize = 1_048_576;

/// What was heard of a call. `files` opens the files of the call again, `notes` is where its
/// explanations go.
#[derive(Drop)]
pub(crate) struct Session<'w, N, V> {
    alloc: Global,
    words: &'w [String],
    files: N,
    notes: V,
    narrator: Narrator<'w>,
    page: Page,
    input: Vec<u8>,
    output: Vec<u8>,
    fault: Vec<u8>,
}

/// Keeps the first bytes of a stream, as far as there is memory.
fn keep(kept: &mut Vec<u8>, bytes: &[u8]) {
    if kept.len() < MOST {
        let room = bytes.len().min(MOST - kept.len());
        let _refused = kept.extend_from_slice(&bytes[..room]).is_err();
    }
}

/// The first line of a text, without its end.
fn first_line(text: &[u8]) -> &str {
    let line = match text.iter().position(|byte| *byte == b'\n') {
        Some(end) => text.get(..end).unwrap_or(text),
        None => text,
    };
    str::from_utf8(line).unwrap_or("")
}

/// A text without the end of its last line.
fn without_end(text: &[u8]) -> &str {
    let line = match text.strip_suffix(b"\n") {
        Some(line) => line,
        None => text,
    };
    str::from_utf8(line).unwrap_or("")
}

impl<'w, N: Files, V: Write> Session<'w, N, V> {
    /// Nothing was heard yet of the call with these words.
    pub(crate) fn new(alloc: Global, words: &'w [String], files: N, notes: V) -> Self {
        Session {
            alloc,
            words,
            files,
            notes,
            narrator: Narrator::new(alloc, words),
            page: Page::new(alloc),
            input: Vec::new(alloc),
            output: Vec::new(alloc),
            fault: Vec::new(alloc),
        }
    }

    /// Writes what stands on the page, and clears it. Where that fails nothing else changes.
    fn tell(&mut self) {
        let _failed = self.notes.write_all(self.page.as_bytes()).is_err();
        self.page.clear();
    }

    /// Explains how the call ended. `files` opens its files again, the standard input too where it
    /// is one of them.
    pub(crate) fn end<M: Files>(&mut self, status: u8, files: &mut M) {
        if status <= 1 {
            let answer = first_line(self.output.as_slice());
            explain_ending(self.words, files, answer, &mut self.page);
            self.narrator.ended(status, files, &mut self.page);
        } else {
            let line = without_end(self.fault.as_slice());
            let input = self.input.as_slice();
            explain_fault(self.words, files, input, line, &mut self.page);
        }
        self.tell();
    }
}

impl<N: Files, V: Write> Listener for Session<'_, N, V> {
    fn input(&mut self, bytes: &[u8]) {
        keep(&mut self.input, bytes);
        self.narrator.heard(bytes);
    }

    fn output(&mut self, bytes: &[u8]) {
        keep(&mut self.output, bytes);
        self.narrator.said(bytes, &mut self.files, &mut self.page);
        self.tell();
    }

    fn fault(&mut self, bytes: &[u8]) {
        keep(&mut self.fault, bytes);
    }
}
