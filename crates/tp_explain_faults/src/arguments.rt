//! Words that are those of no command, where nothing else is said of them.

use crate::calls::Call;
use tp_explain_text::{Page, put};

/// Puts that a scale is none, if it is.
fn put_scale(page: &mut Page, scale: &str) -> bool {
    if matches!(scale.as_bytes(), b"" | b"1" | b"10" | b"100" | b"1000") {
        return false;
    }
    put!(page; "error: `--scale {scale}` is none of 1, 10, 100 and 1000\n");
    true
}

/// Puts that `audit` takes too few files, if it does.
fn put_audit(page: &mut Page, call: &Call<'_>) -> bool {
    let others = call.words.saturating_sub(2);
    if call.command != "audit" || others == 0 || others > 2 {
        return false;
    }
    page.put("error: `audit` takes the domain, problem and plan of a run, or none of them, not ");
    put!(page; "{others}\n");
    true
}

/// Puts that the standard input is named too often, if it is.
fn put_input(page: &mut Page, call: &Call<'_>) -> bool {
    if call.inputs > 1 {
        page.put("error: `-` is standard input, and can be one file of a call alone\n");
        return true;
    }
    if call.inputs == 1 && call.command == "run" {
        page.put("error: `run` reads commands from standard input, which cannot be a file, too\n");
        return true;
    }
    false
}

/// Puts what is wrong with the files of journals, if something is.
fn put_journal(page: &mut Page, journal: &str, resumes: bool) {
    if journal == "-" {
        page.put("error: the journal cannot be `-`\n");
    } else if !journal.is_empty() {
        put!(page; "error: the journal `{journal}` is another file of the call, too\n");
    } else if resumes {
        page.put("error: `--resume` needs `--journal`, the file of the journal that goes on\n");
    }
}

/// Puts why the words of a call are those of no command.
pub fn put_arguments(page: &mut Page, call: &Call<'_>) {
    if put_scale(page, call.scale_word) || put_audit(page, call) || put_input(page, call) {
        return;
    }
    put_journal(page, call.journal, call.resumes);
}
