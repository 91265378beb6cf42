//! A call whose streams are listened to.

ghost use Rattle.std.specs.Prelude.{◌≡◌, map, option_map};
ghost use Rattle.std.specs.String.{string_bytes};
ghost use Rattle.tp_cli_args.specs.Requests.{AsksForNoProgress};
ghost use Rattle.tp_cli.specs.CallFiles.{call_files};
ghost use Rattle.tp_cli.specs.Streams.{Ends};

use crate::heard::{HeardFaults, HeardInput, HeardOutput, Listener};
use std::alloc::Global;
use std::cell::RefCell;
use std::io::{Read, Write};
use tp_cli::{Desk, Ended, run_streams};
use tp_cli_files::{Files, Logs};

/// How a call ended, with the writers that were listened to.
fn unheard<W: Drop, V: Drop, H>(
    ended: Ended<HeardOutput<'_, W, H>, HeardFaults<'_, V, H>>,
) -> Ended<W, V>
    ensures status { result.status ≡ ended.entry.status }
    ensures output { result.output ≡ option_map (λ heard. heard.writer) ended.entry.output }
    ensures faults { result.faults ≡ ended.entry.faults.writer }
{
    let Ended {
        status,
        output,
        faults,
    } = ended;
    let output = match output {
        Some(heard) => Some(heard.writer),
        None => None,
    };
    Ended {
        status,
        output,
        faults: faults.writer,
    }
}

/// Does what the words ask for, as `run_streams` does, while someone listens to what is read and
/// written. What is promised of a call is promised of this one.
pub(crate) fn run_heard<
    N: Files,
    L: Logs,
    B: Write,
    R: Read + Drop,
    W: Write + Drop,
    V: Write + Drop,
    H: Listener,
>(
    alloc: Global,
    words: &[String],
    files: &mut Desk<N, L, B>,
    streams: (R, W, V),
    listener: &RefCell<H>,
) -> Ended<W, V>
    ensures ends { Ends (map string_bytes words.now) (call_files (N.held files.old.shelf)
        (L.asked files.old.logs) (L.asked files.new.logs) L.blank
        (L.named files.new.logs) (L.kept files.new.logs)
        (N.failures files.old.shelf) (N.failures files.new.shelf)
        (L.failures files.old.logs) (L.failures files.new.logs))
        (R.remaining streams.0) (W.contents streams.1) (V.contents streams.2) W.contents
        result.status result.output (V.contents result.faults) }
    ensures quiet { AsksForNoProgress (map string_bytes words.now)
        → files.new.board ≡ files.old.board }
{
    let (reader, output, faults) = streams;
    unheard(run_streams(
        alloc,
        words,
        files,
        HeardInput { reader, listener },
        HeardOutput {
            writer: output,
            listener,
        },
        HeardFaults {
            writer: faults,
            listener,
        },
    ))
}
