//! Sessions that a reader, a writer or the limit of bytes stops.

use super::sessions::{
    Device, SLOW, SOUND, Session, front, front_lines, is_left_of, lines_in, run, whole,
};
use std::alloc::Global;
use tp_script::{ServeFault, Served};
use tp_testkit::Stop;

/// Two bounds with the origin, and two windows.
const COMMANDS: &[u8] = b"network 2 100\nadd o 0 10\nadd 0 o -3\nwindow 0\nwindow 1\n";

const ANSWERS: &[u8] = b"bound 0\nbound 1\nwindow 3 10\nwindow 0 100\n";

/// Whether a session has these answers, and so many commands.
fn answers(alloc: Global, session: Session<'_>, text: &[u8], commands: u64) -> bool {
    match run(alloc, session) {
        Ok(left) => left.served == Ok(Served { commands }) && left.text.as_slice() == text,
        Err(_) => false,
    }
}

#[test]
fn one_byte_a_call(rt: HostRuntime) {
    let session = Session {
        reader: SLOW,
        writer: SLOW,
        ..whole(COMMANDS)
    };
    let alloc = rt.alloc();
    assert!(rt; answers(alloc, session, ANSWERS, 4));
}

/// Whether a reader that fails there, behind so many bytes, leaves what the lines before leave.
fn breaks_at(alloc: Global, pace: usize, stop: Stop, count: usize) -> bool {
    let session = Session {
        reader: Device { pace, stop },
        ..whole(COMMANDS)
    };
    let found = run(alloc, session);
    is_left_of(alloc, &found, ServeFault::Read, front(COMMANDS, count))
}

/// Behind each byte, also the last one; in pieces of one byte at each call too.
#[test]
fn readers_that_fail(rt: HostRuntime) {
    let alloc = rt.alloc();
    for count in 0..=COMMANDS.len() {
        let behind = Stop::Bytes(count);
        assert!(rt; breaks_at(alloc, 9, behind, count));
        let at = Stop::Call(count);
        assert!(rt; breaks_at(alloc, 1, at, count));
    }
}

/// Whether a writer that fails at that call has taken a first part of the answers, and the
/// executive is as behind the command whose answer it did not take whole.
fn jams_at(alloc: Global, pace: usize, call: usize) -> bool {
    let writer = Device {
        pace,
        stop: Stop::Call(call),
    };
    let session = Session {
        writer,
        ..whole(COMMANDS)
    };
    let Ok(left) = run(alloc, session) else {
        return false;
    };
    let read = lines_in(left.text.as_slice()).saturating_add(2);
    let Ok(wanted) = run(alloc, whole(front_lines(COMMANDS, read))) else {
        return false;
    };
    left.served == Err(ServeFault::Write)
        && ANSWERS.starts_with(left.text.as_slice())
        && left.seen == wanted.seen
}

/// At each call, of one byte each and of any number; each answer takes one call at least.
#[test]
fn writers_that_fail(rt: HostRuntime) {
    let alloc = rt.alloc();
    for call in 0..ANSWERS.len() {
        assert!(rt; jams_at(alloc, 1, call), "{call}");
    }
    for call in 0..4 {
        assert!(rt; jams_at(alloc, 1_000, call), "{call}");
    }
}

/// A head and lines of windows, of which no more than 25 bytes are read here.
const WINDOWS: &[u8] = b"network 1 5\nwindow 0\nwindow 0\nwindow 0\n";

/// 25 bytes of them have no fault, the last line being no command; of more than 25 the whole line
/// alone is answered.
#[test]
fn at_most_25_bytes(rt: HostRuntime) {
    let alloc = rt.alloc();
    let session = Session {
        most: 25,
        ..whole(front(WINDOWS, 25))
    };
    let text = b"window 0 5\nrefused line\n";
    assert!(rt; answers(alloc, session, text, 1));
    assert!(rt; stops_behind_one(alloc));
}

/// Whether more than 25 bytes have one answer.
fn stops_behind_one(alloc: Global) -> bool {
    let session = Session {
        most: 25,
        ..whole(WINDOWS)
    };
    match run(alloc, session) {
        Ok(left) => {
            left.served == Err(ServeFault::TooLong)
                && left.text.as_slice() == b"window 0 5\n".as_slice()
        }
        Err(_) => false,
    }
}
