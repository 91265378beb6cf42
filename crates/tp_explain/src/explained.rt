//! The run of a call whose streams are heard.

ghost use Rattle.std.specs.Prelude.{ℕ, None};
ghost use Rattle.std.specs.String.{string_bytes};
ghost use Rattle.tp_cli.specs.CallFiles.{call_files};
ghost use Rattle.tp_cli.specs.Streams.{Ends};
ghost use Rattle.tp_explain.specs.Asked.{RunsPlain};

use crate::asked::without_explain;
use crate::heard::KeptInput;
use crate::listening::run_heard;
use crate::session::Session;
use std::alloc::Global;
use std::cell::RefCell;
use std::io::{Read, Write};
use std::rt::Files as HostFileSystem;
use tp_cli::{Desk, Ended};
use tp_cli_files::{HostFiles, Logs, StandardInput};

/// The streams of a call: what it reads, where its answers and its fault line go, where it tells
/// how far it is, and where its explanations go.
#[derive(Drop)]
pub struct Streams<I, W, V, B, E> {
    pub input: I,
    pub output: W,
    pub faults: V,
    pub board: B,
    pub notes: E,
}

/// How an explained call ended, and its journal files.
#[derive(Drop)]
pub struct Explained<L, W, V> {
    pub ended: Ended<W, V>,
    pub logs: L,
}

/// Does what the words request, as `run_streams` does, and explains on `notes` each refusal as it
/// goes out, and the verdict or the fault at the end. `again` is the standard input for a command
/// that reads it as a file.
///
/// What is promised of a call of the words without `--explain` is promised of this one. A proof can
/// refer to no byte of a file of the host, and the counts of its failures stay within the call.
pub fn run_explained<R, L, J, I, W, V, B, E>(
    rt: &R,
    alloc: Global,
    words: Vec<String>,
    logs: L,
    again: J,
    streams: Streams<I, W, V, B, E>,
) -> Explained<L, W, V>
where
    R: HostFileSystem,
    L: Logs + Drop,
    J: Read + Drop,
    I: Read + Drop,
    W: Write + Drop,
    V: Write + Drop,
    B: Write + Drop,
    E: Write + Drop,
    ensures ends { RunsPlain string_bytes words.items (λ plain. (unread later : ℕ) × Ends plain
        (call_files (λ _. None) (L.asked logs) (L.asked result.logs) L.blank (L.named result.logs)
        (L.kept result.logs) unread later (L.failures logs) (L.failures result.logs))
        (I.remaining streams.input) (W.contents streams.output) (V.contents streams.faults)
        W.contents result.ended.status result.ended.output (V.contents result.ended.faults)) }
{
    let plain = without_explain(words);
    let kept = RefCell::new(Vec::new(alloc));
    let nothing: &[u8] = &[];
    let unread = RefCell::new(StandardInput::new(alloc, nothing));
    let session = RefCell::new(Session::new(
        alloc,
        plain.as_slice(),
        HostFiles::new(rt, &unread),
        streams.notes,
    ));
    let input = RefCell::new(StandardInput::new(
        alloc,
        KeptInput {
            reader: again,
            kept: &kept,
        },
    ));
    let mut desk = Desk {
        shelf: HostFiles::new(rt, &input),
        logs,
        board: streams.board,
    };
    let heard = (streams.input, streams.output, streams.faults);
    let ended = run_heard(alloc, plain.as_slice(), &mut desk, heard, &session);
    if let (Ok(read), Ok(mut session)) = (kept.try_borrow(), session.try_borrow_mut()) {
        let read = RefCell::new(StandardInput::new(alloc, read.as_slice()));
        session.end(ended.status, &mut HostFiles::new(rt, &read));
    }
    let Desk {
        shelf: _shelf,
        logs,
        board: _board,
    } = desk;
    Explained { ended, logs }
}
