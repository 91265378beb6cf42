//! A run over readers and writers of std.

ghost use Rattle.std.specs.Prelude.{◌≡◌, ◌≤◌, ◌<◌, [], IfSome, None, map};
ghost use Rattle.std.specs.Io.Buffered.{line_writer_contents};
ghost use Rattle.std.specs.Io.KnownBytes.{Keeps};
ghost use Rattle.std.specs.String.{string_bytes};
ghost use Rattle.tp_cli_files.specs.Calls.{call_status, call_text};
ghost use Rattle.tp_cli_files.specs.FaultLines.{TellsFault};
ghost use Rattle.tp_device.specs.Bytes.{AppendsPart};
ghost use Rattle.tp_cli_args.specs.Requests.{AsksForNoProgress};
ghost use Rattle.tp_cli.specs.CallFiles.{call_files};
ghost use Rattle.tp_cli.specs.Streams.{Ends, HandsOn, TellsSome};

use crate::desk::Desk;
use crate::words::run_words;
use std::alloc::Global;
use std::io::{LineWriter, Read, Write};
use tp_cli_files::{CallFault, Fault, Files, Logs, OUT_OF_ORDER, complain, refuse_call};
use tp_device::{FromRead, Sink, ToWrite};

/// What a run came to: its exit status, and the writers. The output is gone where the last of it
/// could not be handed on.
#[derive(Drop)]
pub struct Ended<W, V> {
    pub status: u8,
    pub output: Option<W>,
    pub faults: V,
}

/// An exit status, and the output where all of it could be handed on.
#[derive(Drop)]
struct HandedOn<W> {
    status: u8,
    output: Option<W>,
}

/// The writer, once all that was written was handed on to it.
fn writer_of<W: Write + Drop>(output: LineWriter<W>) -> Option<W>
    ensures { IfSome result (λ w. Keeps (line_writer_contents W.contents output) (W.contents w)) }
{
    let mut output = output;
    match output.flush() {
        Ok(()) => output.into_inner().ok(),
        Err(_) => None,
    }
}

/// Tells that the output could not be handed on, if no other fault was told.
fn tell_lost<F: Sink>(status: u8, faults: &mut F)
    ensures told { status ≤ 1 → TellsFault [] (F.failures faults.old) (F.held faults.old)
        (F.failures faults.new) (F.held faults.new) }
    ensures same { 2 ≤ status → F.held faults.new ≡ F.held faults.old }
{
    if status <= 1 {
        complain(faults, Fault::ScriptWrite.line());
    }
}

/// Hands on what was written, and answers the exit status. What can't be handed on is a write that
/// failed.
fn hand_on<W: Write + Drop, F: Sink>(
    status: u8,
    output: LineWriter<W>,
    faults: &mut F,
) -> HandedOn<W>
    ensures { HandsOn W.contents status (line_writer_contents W.contents output)
        (F.failures faults.old) (F.held faults.old) (F.failures faults.new)
        (F.held faults.new) result.status result.output }
{
    match writer_of(output) {
        Some(output) => HandedOn {
            status,
            output: Some(output),
        },
        None => {
            tell_lost(status, faults);
            HandedOn {
                status: OUT_OF_ORDER,
                output: None,
            }
        }
    }
}

/// Does what the words ask for, and counts the failures of each stream.
fn run_counted<N: Files, L: Logs, B: Write, R: Read + Drop, W: Write + Drop, V: Write + Drop>(
    alloc: Global,
    words: &[String],
    files: &mut Desk<N, L, B>,
    input: R,
    output: LineWriter<W>,
    faults: V,
) -> Ended<W, V>
    ensures ends { Ends (map string_bytes words.now) (call_files (N.held files.old.shelf)
        (L.asked files.old.logs) (L.asked files.new.logs) L.blank
        (L.named files.new.logs) (L.kept files.new.logs)
        (N.failures files.old.shelf) (N.failures files.new.shelf)
        (L.failures files.old.logs) (L.failures files.new.logs))
        (R.remaining input)
        (line_writer_contents W.contents output) (V.contents faults) W.contents
        result.status result.output (V.contents result.faults) }
    ensures quiet { AsksForNoProgress (map string_bytes words.now)
        → files.new.board ≡ files.old.board }
{
    let mut input = FromRead::new(input);
    let mut output = ToWrite::new(output);
    let mut faults = ToWrite::new(faults);
    let status = run_words(alloc, words, files, &mut input, &mut output, &mut faults);
    let handed_on = hand_on(status, output.into_writer(), &mut faults);
    Ended {
        status: handed_on.status,
        output: handed_on.output,
        faults: faults.into_writer(),
    }
}

/// Tells that there is no memory for the buffer of the output. Answers the exit status.
fn refuse_memory<F: Sink>(faults: &mut F) -> u8
    ensures status { result ≡ OUT_OF_ORDER }
    ensures fault { TellsFault [] (F.failures faults.old) (F.held faults.old)
        (F.failures faults.new) (F.held faults.new) }
{
    complain(faults, Fault::ScriptMemory.line())
}

/// Ends a run that has no memory for the buffer of the output. Nothing is done.
fn end_lost<W, V: Write + Drop>(faults: V) -> Ended<W, V>
    ensures status { result.status ≡ OUT_OF_ORDER }
    ensures output { result.output ≡ None }
    ensures fault { TellsSome (V.contents faults) (V.contents result.faults) }
{
    let mut faults = ToWrite::new(faults);
    let status = refuse_memory(&mut faults);
    Ended {
        status,
        output: None,
        faults: faults.into_writer(),
    }
}

/// Does what the words ask for, over a reader and writers of std.
///
/// Each answer is handed to `output` as soon as its line is whole. What could not be written to
/// `output` in the end is told as a failed write.
pub fn run_streams<N: Files, L: Logs, B: Write, R: Read + Drop, W: Write + Drop, V: Write + Drop>(
    alloc: Global,
    words: &[String],
    files: &mut Desk<N, L, B>,
    input: R,
    output: W,
    faults: V,
) -> Ended<W, V>
    ensures ends { Ends (map string_bytes words.now) (call_files (N.held files.old.shelf)
        (L.asked files.old.logs) (L.asked files.new.logs) L.blank
        (L.named files.new.logs) (L.kept files.new.logs)
        (N.failures files.old.shelf) (N.failures files.new.shelf)
        (L.failures files.old.logs) (L.failures files.new.logs))
        (R.remaining input) (W.contents output) (V.contents faults) W.contents result.status
        result.output (V.contents result.faults) }
    ensures quiet { AsksForNoProgress (map string_bytes words.now)
        → files.new.board ≡ files.old.board }
{
    match LineWriter::new(alloc, output) {
        Ok(writer) => { run_counted(alloc, words, files, input, writer, faults) }
        Err(_) => end_lost(faults),
    }
}

/// Why a call was refused was told, and this is its exit status and the writer.
#[derive(Drop)]
pub struct Refused<V> {
    pub status: u8,
    pub faults: V,
}

/// Tells a writer of std why the words of a call were not taken: the whole line, or where the
/// writer fails a first part of it.
pub fn refuse_streams<V: Write + Drop>(why: CallFault, faults: V) -> Refused<V>
    ensures status { result.status ≡ call_status why }
    ensures told { AppendsPart (V.contents faults) (V.contents result.faults) (call_text why) }
{
    let mut faults = ToWrite::new(faults);
    let status = refuse_call(why, &mut faults);
    Refused {
        status,
        faults: faults.into_writer(),
    }
}
