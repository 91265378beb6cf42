//! Sessions whose journal is kept, and what stops them.

use super::sessions::{
    Device, SLOW, SOUND, Seen, front, front_lines, headed, lines_in, run, see, sink_of, source_of,
    whole,
};
use std::alloc::Global;
use tp_journal_pairs::{JournalFault, journal};
use tp_script::{LineBuffers, Lines, ServeFault, Served};
use tp_testkit::Stop;

/// Two bounds with the origin, a window, and a refused bound.
const COMMANDS: &[u8] = b"network 2 100\nadd o 0 10\nadd 0 o -3\nwindow 0\nadd 0 o -11\n";

const ANSWERS: &[u8] = b"bound 0\nbound 1\nwindow 3 10\nrefused conflict new b0\n";

const JOURNAL: &[u8] =
    b"journal 2\nnetwork 2 100\nbare\n> add o 0 10\n< bound 0\n> add 0 o -3\n< bound 1\n> window 0\n< window 3 10\n> add 0 o -11\n< refused conflict new b0\n";

/// What is left behind a session whose journal is kept.
#[derive(Drop)]
struct Left {
    served: Result<Served, JournalFault>,
    text: Vec<u8>,
    log: Vec<u8>,
    seen: Seen,
}

/// What is left behind these commands.
fn record(alloc: Global, log: Device) -> Result<Left, ServeFault> {
    let mut source = source_of(COMMANDS, SOUND);
    let mut answers = sink_of(alloc, SLOW);
    let mut pages = sink_of(alloc, log);
    let buffers = LineBuffers::new(alloc, 256)?;
    let mut lines = Lines::new(buffers, &mut source);
    let mut executive = headed(alloc, &mut lines)?;
    let served = journal(&mut executive, &mut lines, &mut answers, &mut pages);
    Ok(Left {
        served,
        text: answers.into_text(),
        log: pages.into_text(),
        seen: see(&executive),
    })
}

/// How many answers stand for the first so many bytes of the journal, one for each pair that is
/// whole; and how many commands were done, one more once the head is whole.
fn pairs_in(log: &[u8]) -> (usize, usize) {
    let lines = lines_in(log);
    let pairs = lines.saturating_sub(3) / 2;
    (
        pairs,
        if lines < 3 {
            0
        } else {
            pairs.saturating_add(1)
        },
    )
}

/// Whether a session left these answers and that log, for that reason, and its executive as behind
/// so many commands.
fn is_left(alloc: Global, left: &Left, fault: JournalFault, count: usize, done: usize) -> bool {
    let Ok(wanted) = run(alloc, whole(front_lines(COMMANDS, done.saturating_add(1)))) else {
        return false;
    };
    left.served == Err(fault)
        && left.text.as_slice() == front_lines(ANSWERS, count)
        && left.seen == wanted.seen
}

/// Whether a log that fails at the call for that byte, and takes more behind it, holds the bytes
/// before it and no others. The answer of the pair that is not whole did not go out, and the
/// executive is as behind its command.
fn tears_at(alloc: Global, call: usize) -> bool {
    let log = Device {
        pace: 1,
        stop: Stop::Call(call),
    };
    let Ok(left) = record(alloc, log) else {
        return false;
    };
    let text = front(JOURNAL, call);
    let (pairs, done) = pairs_in(text);
    left.log.as_slice() == text && is_left(alloc, &left, JournalFault::Log, pairs, done)
}

#[test]
fn logs_that_fail(rt: HostRuntime) {
    let alloc = rt.alloc();
    for call in 0..JOURNAL.len() {
        assert!(rt; tears_at(alloc, call), "{call}");
    }
}
