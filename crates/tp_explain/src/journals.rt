//! The answer that is allowed on a line of a journal.

use crate::executives::{bare_executive, plan_executive, plan_network};
use crate::taken::{LONGEST, Taken, next_of, shown};
use std::alloc::{AllocError, Global};
use tp_cli_audit::head_in;
use tp_cli_files::Files;
use tp_device::{Source as Reader, push_all};
use tp_exec_machine::{Executive, perform};
use tp_explain_faults::Call;
use tp_explain_text::{Page, put, put_mark_of_line};
use tp_journal::JournalHead;
use tp_net::Net;
use tp_repair::RepairNet;
use tp_script::{LineBuffers, Lines, read_command, write_answer};

/// A command of a journal, the answer that follows it there, and the one that is allowed.
#[derive(Drop)]
struct Pair {
    command: Vec<u8>,
    answer: Vec<u8>,
    allowed: Vec<u8>,
}

/// The answer to the command of a line.
fn answer_of<N: Net>(alloc: Global, executive: &mut Executive<N>, line: &[u8]) -> Vec<u8> {
    let mut taken = Taken::new(alloc);
    match read_command(line) {
        Some(command) => {
            let answer = perform(executive, command);
            let _ = write_answer(&mut taken, &answer);
        }
        None => {
            let _ = push_all(&mut taken, b"refused line\n");
        }
    }
    taken.into_bytes()
}

/// The pair whose answer stands on a line of a journal.
fn pair_at<N: Net, S: Reader + Drop>(
    alloc: Global,
    executive: &mut Executive<N>,
    lines: &mut Lines<'_, S>,
    wanted: u64,
) -> Result<Option<Pair>, AllocError> {
    let mut number = 0u64;
    for _ in 0..wanted {
        let Some(line) = next_of(alloc, lines)? else {
            return Ok(None);
        };
        number = number.saturating_add(1);
        let [b'>', b' ', command @ ..] = line.as_slice() else {
            continue;
        };
        number = number.saturating_add(1);
        let pair = take_pair(alloc, executive, lines, command, number >= wanted)?;
        if number >= wanted {
            return Ok(pair);
        }
    }
    Ok(None)
}

/// Takes the answer to a command, and carries the command out. One that is not wanted and was
/// refused changed nothing.
fn take_pair<N: Net, S: Reader + Drop>(
    alloc: Global,
    executive: &mut Executive<N>,
    lines: &mut Lines<'_, S>,
    command: &[u8],
    is_wanted: bool,
) -> Result<Option<Pair>, AllocError> {
    let Some(answer) = next_of(alloc, lines)? else {
        return Ok(None);
    };
    let allowed = if is_wanted || !answer.as_slice().starts_with(b"< refused") {
        answer_of(alloc, executive, command)
    } else {
        Vec::new(alloc)
    };
    Ok(Some(Pair {
        command: Vec::from_slice(alloc, command)?,
        answer,
        allowed,
    }))
}

/// Puts that an answer is not allowed, and one that is.
fn put_pair(page: &mut Page, call: &Call<'_>, number: u64, pair: &Pair) {
    let command = shown(pair.command.as_slice());
    put!(page; "{}:{number}:1: wrong: this answer to `{command}` is not allowed\n", call.log);
    put_mark_of_line(page, pair.answer.as_slice(), 0);
    put!(page; "note: `{}` is\n", shown(pair.allowed.as_slice()));
}

/// The executive of the journal of a call: that of its head, or of the plan's network.
fn executive_of<N: Files>(
    alloc: Global,
    files: &mut N,
    call: &Call<'_>,
    head: &JournalHead,
) -> Option<Executive<RepairNet>> {
    if call.domain.is_empty() {
        return bare_executive(alloc, head);
    }
    let network = plan_network(alloc, files, call)?;
    plan_executive(alloc, &network, head)
}

/// Puts why the answer on a line of the journal of a call is wrong.
pub fn put_wrong<N: Files>(
    page: &mut Page,
    files: &mut N,
    call: &Call<'_>,
    number: u64,
) -> Result<(), AllocError> {
    let alloc = page.alloc();
    let Ok(head) = head_in(alloc, files, call.log) else {
        return Ok(());
    };
    let Some(executive) = executive_of(alloc, files, call, &head) else {
        return Ok(());
    };
    let mut executive = executive;
    let Ok(mut source) = files.open(call.log) else {
        return Ok(());
    };
    let Ok(buffers) = LineBuffers::new(alloc, LONGEST) else {
        return Ok(());
    };
    let mut lines = Lines::new(buffers, &mut source);
    if let Some(pair) = pair_at(alloc, &mut executive, &mut lines, number)? {
        put_pair(page, call, number, &pair);
    }
    Ok(())
}
