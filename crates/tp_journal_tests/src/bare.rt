//! Runs of `bare`, with and without a journal, over streams and a file in memory.

use crate::memory::{CountedLogs, Feed, Sheet};
use std::alloc::Global;
use tp_cli_bare::{run_bare, run_bare_journal};
use tp_cli_files::HostFile;

/// The name of the journal.
const LOG: &str = "night.log";

/// What comes of a run: its exit status, and what it writes to its output, to its faults, and to
/// its journal, if one was kept.
type Outcome = (u8, Vec<u8>, Vec<u8>, Option<Vec<u8>>);

fn input_of(text: &str) -> HostFile<Feed<'_>> {
    HostFile::new(Feed {
        bytes: text.as_bytes(),
        most: usize::MAX,
        broken: false,
    })
}

/// What comes of a run with so much room in its output.
fn plain(alloc: Global, text: &str, room: usize) -> Outcome {
    let mut input = input_of(text);
    let mut output = Sheet::new(alloc, room);
    let mut faults = Sheet::new(alloc, usize::MAX);
    let status = run_bare(alloc, &mut input, &mut output, &mut faults);
    (status, output.into_text(), faults.into_text(), None)
}

/// The same with a journal, with so much room in it, if it can be made.
fn journaled(alloc: Global, text: &str, room: usize, log: Option<usize>) -> Outcome {
    let mut input = input_of(text);
    let mut output = Sheet::new(alloc, room);
    let mut faults = Sheet::new(alloc, usize::MAX);
    let mut logs = CountedLogs::new(alloc, log);
    let status = run_bare_journal(alloc, &mut logs, LOG, &mut input, &mut output, &mut faults);
    (
        status,
        output.into_text(),
        faults.into_text(),
        logs.into_text(),
    )
}

/// What a run is to come to: its exit status, its answers, its fault line, and its journal.
type Told = (u8, &'static str, &'static str, Option<&'static str>);

fn is_told(outcome: &Outcome, told: Told) -> bool {
    let kept = match (&outcome.3, told.3) {
        (Some(log), Some(text)) => log.as_slice() == text.as_bytes(),
        (None, None) => true,
        _ => false,
    };
    kept && outcome.0 == told.0
        && outcome.1.as_slice() == told.1.as_bytes()
        && outcome.2.as_slice() == told.2.as_bytes()
}

const INPUT: &str = "network 2 100\nadd o 0 10\nadd 0 o -3\nadd 0 o -11\nwindow 0\n";

/// The room of the output, and what a run without a journal comes to.
const PLAIN: [(usize, Told); 2] = [
    (
        usize::MAX,
        (
            0,
            "bound 0\nbound 1\nrefused conflict new b0\nwindow 3 10\n",
            "",
            None,
        ),
    ),
    (9, (3, "bound 0\nb", "fault script 2 write\n", None)),
];

#[test]
fn runs_without_a_journal(rt: HostRuntime) {
    for (room, told) in PLAIN {
        let outcome = plain(rt.alloc(), INPUT, room);
        assert!(rt; is_told(&outcome, told), "{room}");
    }
}

const NIGHT: &str = "network 2 100\nadd o 0 10\nwindow 0\n";

const LAGGING: &str = "network 3 10\nlag 0 3\nlag 1 0\nlag 2 4\nadvance 4\n\nwindo 0\n";

/// An input, the room of the output and of the journal, if one can be made, and what a run comes
/// to.
type Row = (&'static str, usize, Option<usize>, Told);

const JOURNALED: [Row; 4] = [
    // lags stand in the head, but for those that are 0
    (
        LAGGING,
        usize::MAX,
        Some(usize::MAX),
        (
            0,
            "ok\nrefused line\n",
            "",
            Some(
                "journal 2\nnetwork 3 10\nbare\nlag 0 3\nlag 2 4\n> advance 4\n< ok\n> ?\n\
                 < refused line\n",
            ),
        ),
    ),
    // the file can't be made
    (
        NIGHT,
        usize::MAX,
        None,
        (3, "", "fault script 6 log\n", None),
    ),
    // the log fails in the second pair, whose answer does not go out
    (
        NIGHT,
        usize::MAX,
        Some(55),
        (
            3,
            "bound 0\n",
            "fault script 6 log\n",
            Some("journal 2\nnetwork 2 100\nbare\n> add o 0 10\n< bound 0\n> w"),
        ),
    ),
    // the output fails at the second answer, whose pair is in the log
    (
        NIGHT,
        9,
        Some(usize::MAX),
        (
            3,
            "bound 0\nw",
            "fault script 2 write\n",
            Some(
                "journal 2\nnetwork 2 100\nbare\n> add o 0 10\n< bound 0\n> window 0\n\
                 < window 0 10\n",
            ),
        ),
    ),
];

#[test]
fn runs_with_a_journal(rt: HostRuntime) {
    for (input, room, log, told) in JOURNALED {
        let outcome = journaled(rt.alloc(), input, room, log);
        assert!(rt; is_told(&outcome, told), "{}", told.2);
    }
}
