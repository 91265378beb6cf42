//! The doing of what the words of a call ask for.

ghost use Rattle.std.specs.Prelude.{◌≡◌, ◌≢◌, ◌≤◌, ◌⊎◌, ℕ, List, Option, [], map};
ghost use Rattle.std.specs.String.{string_bytes};
ghost use Rattle.std.specs.Io.KnownBytes.{Appends};
ghost use Rattle.tp_device.specs.Bytes.{AppendsPart};
ghost use Rattle.tp_cli_bare.specs.Bare.{AnswersAll, AnswersPart, IsRefused};
ghost use Rattle.tp_cli.specs.CallFiles.{call_files};
ghost use Rattle.tp_cli.specs.Done.{AnswersNo, DoesPart, DoesWhatIsAsked};
ghost use Rattle.tp_cli.specs.Journaled.{AsksForNoJournal};
ghost use Rattle.tp_cli_files.specs.FaultLines.{TellsFault, TellsRefusal};
ghost use Rattle.tp_cli.specs.Endings.{EndsBare, EndsCall, RefusesWords, StopsHelp};
ghost use Rattle.tp_cli_args.specs.Requests.{AsksFor, AsksForNoCommands, AsksForNoProgress, AsksForNothing};

use crate::check::run_check;
use crate::desk::Desk;
use crate::net::run_net;
use std::alloc::Global;
use std::io::Write;
use tp_cli_args::{NoRequest, Request, read_words};
use tp_cli_audit::{run_bare_audit, run_bare_resume, run_plan_audit, run_run_resume};
use tp_cli_bare::{run_bare, run_bare_journal};
use tp_cli_draw::run_draw;
use tp_cli_files::{Fault, Files, Logs, OUT_OF_ORDER, REFUSED, complain, complain_more};
use tp_cli_plan::run_plan;
use tp_cli_run::{run_run, run_run_journal};
use tp_cli_split::run_split;
use tp_device::{Sink, Source, push_all};

/// Does what the words ask for. Answers the exit status, and for another than 0 and 1 writes one
/// fault line.
pub fn run_words<N: Files, L: Logs, B: Write, I: Source, O: Sink, F: Sink>(
    alloc: Global,
    words: &[String],
    files: &mut Desk<N, L, B>,
    input: &mut I,
    output: &mut O,
    faults: &mut F,
) -> u8
    ensures done { result ≡ 0 → DoesWhatIsAsked (map string_bytes words.now)
        (call_files (N.held files.old.shelf) (L.asked files.old.logs) (L.asked files.new.logs)
        L.blank (L.named files.new.logs) (L.kept files.new.logs)
        (N.failures files.old.shelf) (N.failures files.new.shelf)
        (L.failures files.old.logs) (L.failures files.new.logs))
        (I.left input.old) (O.held output.old) (O.held output.new) }
    ensures no { result ≡ 1 → AnswersNo (map string_bytes words.now)
        (call_files (N.held files.old.shelf) (L.asked files.old.logs) (L.asked files.new.logs)
        L.blank (L.named files.new.logs) (L.kept files.new.logs)
        (N.failures files.old.shelf) (N.failures files.new.shelf)
        (L.failures files.old.logs) (L.failures files.new.logs))
        (I.left input.old) (O.held output.old) (O.held output.new) }

    // Of a network of bounds alone all is answered, or where the status tells otherwise a first
    // part.
    ensures all { AsksFor (map string_bytes words.now) Request.Bare → result ≡ 0
        → AnswersAll (I.left input.old) (O.held output.old) (O.held output.new) }
    ensures part { AsksFor (map string_bytes words.now) Request.Bare → result ≢ 0
        → AnswersPart (I.left input.old) (O.held output.old) (O.held output.new) }

    // Such a network is refused only where it has no head, or a lag that does not fit, or too many
    // bytes come in.
    ensures refused { AsksFor (map string_bytes words.now) Request.Bare → result ≡ REFUSED
        → IsRefused (I.left input.old) }
    ensures bare { AsksFor (map string_bytes words.now) Request.Bare → result ≢ 0
        → EndsBare (I.left input.old) (I.failures input.old) (I.failures input.new) result
        (O.held output.old) (O.held output.new) (O.failures output.old) (O.failures output.new)
        (F.failures faults.old) (F.held faults.old) (F.failures faults.new) (F.held faults.new) }

    // What stopped the call is told, and is as it is told.
    ensures stopped { 2 ≤ result → EndsCall (map string_bytes words.now)
        (call_files (N.held files.old.shelf) (L.asked files.old.logs) (L.asked files.new.logs)
        L.blank (L.named files.new.logs) (L.kept files.new.logs)
        (N.failures files.old.shelf) (N.failures files.new.shelf)
        (L.failures files.old.logs) (L.failures files.new.logs)) (I.left input.old)
        (I.failures input.old) (I.failures input.new) result
        (O.held output.old) (O.held output.new) (O.failures output.old) (O.failures output.new)
        (F.failures faults.old) (F.held faults.old) (F.failures faults.new) (F.held faults.new) }

    // Where memory or a device is wanting, a first part of what is asked for is written, or
    // nothing.
    ensures broken { result ≡ OUT_OF_ORDER → DoesPart (map string_bytes words.now)
        (call_files (N.held files.old.shelf) (L.asked files.old.logs) (L.asked files.new.logs)
        L.blank (L.named files.new.logs) (L.kept files.new.logs)
        (N.failures files.old.shelf) (N.failures files.new.shelf)
        (L.failures files.old.logs) (L.failures files.new.logs))
        (I.left input.old) (O.held output.old) (O.held output.new) }

    // Where no answers to commands are asked for, the input is left as it is, and nothing is
    // written for what is refused.
    ensures unread { AsksForNoCommands (map string_bytes words.now) → input.new ≡ input.old }
    ensures kept { AsksForNoCommands (map string_bytes words.now) → result ≡ REFUSED
        → O.held output.new ≡ O.held output.old }

    // A journal file is asked for only where the words ask for a journal.
    ensures unlogged { AsksForNoJournal (map string_bytes words.now)
        → L.asked files.new.logs ≡ L.asked files.old.logs }

    // Plans are told of as they are found only where the words ask for that.
    ensures quiet { AsksForNoProgress (map string_bytes words.now)
        → files.new.board ≡ files.old.board }

    // A read of the input or a write that failed is always told. A fault line goes with each fault,
    // and with nothing else; behind it stands only what `clap` says of words that are refused.
    ensures heard { result ≢ OUT_OF_ORDER → I.failures input.new ≡ I.failures input.old }
    ensures told { result ≢ OUT_OF_ORDER → O.failures output.new ≡ O.failures output.old }
    ensures within { result ≤ 3 }
    ensures silent { result ≤ 1 → faults.new ≡ faults.old }
    ensures fault { 2 ≤ result → TellsRefusal result (F.failures faults.old) (F.held faults.old)
        (F.failures faults.new) (F.held faults.new) }
{
    let Desk { shelf, logs, board } = files;
    match read_words(alloc, words) {
        Ok(Request::Bare) => run_bare(alloc, input, output, faults),
        Ok(Request::BareLog(log)) => run_bare_journal(alloc, logs, log, input, output, faults),
        Ok(Request::Check(plan)) => run_check(alloc, shelf, plan, output, faults),
        Ok(Request::Net(plan)) => run_net(alloc, shelf, plan, output, faults),
        Ok(Request::Run(plan)) => run_run(alloc, shelf, plan, input, output, faults),
        Ok(Request::RunLog(plan, log)) => run_run_journal(
            alloc, shelf, logs, plan, log, input, output, faults,
        ),
        Ok(Request::Plan(search)) => run_plan(alloc, shelf, search, board, output, faults),
        Ok(Request::Audit(log)) => run_bare_audit(alloc, shelf, log, output, faults),
        Ok(Request::PlanAudit(log, plan)) => run_plan_audit(
            alloc, shelf, log, plan, output, faults,
        ),
        Ok(Request::Split(plan, owners)) => {
            run_split(alloc, shelf, plan, owners, None, output, faults)
        }
        Ok(Request::Part(plan, owners, agent)) => {
            run_split(alloc, shelf, plan, owners, Some(agent), output, faults)
        }
        Ok(Request::BareResume(old, log)) => run_bare_resume(
            alloc, shelf, logs, old, log, input, output, faults,
        ),
        Ok(Request::RunResume(plan, old, log)) => run_run_resume(
            alloc, shelf, logs, plan, old, log, input, output, faults,
        ),
        Ok(Request::Draw(words)) => run_draw(alloc, shelf, words, output, faults),
        Ok(Request::Help(text)) => show(text.as_str(), output, faults),
        Err(NoRequest::Words(text)) => refuse_words(text, faults),
        Err(NoRequest::Memory) => complain(faults, Fault::ArgumentsMemory.line()),
    }
}

/// Writes a text of help. Answers the exit status.
fn show<O: Sink, F: Sink>(text: &str, output: &mut O, faults: &mut F) -> u8
    ensures shown { result ≡ 0 → Appends (O.held output.old) (O.held output.new) text.now }
    ensures part { AppendsPart (O.held output.old) (O.held output.new) text.now }
    ensures status { (result ≡ 0) ⊎ (result ≡ OUT_OF_ORDER) }
    ensures told { result ≢ OUT_OF_ORDER → O.failures output.new ≡ O.failures output.old }
    ensures stopped { result ≢ 0 → StopsHelp text.now result (O.held output.old) (O.held output.new)
        (F.failures faults.old) (F.held faults.old) (F.failures faults.new) (F.held faults.new) }
    ensures silent { result ≡ 0 → faults.new ≡ faults.old }
    ensures fault { result ≢ 0 → TellsFault [] (F.failures faults.old) (F.held faults.old)
        (F.failures faults.new) (F.held faults.new) }
{
    match push_all(output, text.as_bytes()) {
        Ok(()) => 0,
        Err(_) => complain(faults, Fault::ScriptWrite.line()),
    }
}

/// Writes that the words are refused, and what `clap` says of them, if it says something. Answers
/// the exit status.
fn refuse_words<F: Sink>(text: Option<String>, faults: &mut F) -> u8
    ensures status { result ≡ REFUSED }
    ensures refused { (words : List (List ℕ)) → AsksForNothing words
        → (held : Option (List ℕ)) → (n : ℕ) → RefusesWords words result held held n n
        (F.failures faults.old) (F.held faults.old) (F.failures faults.new) (F.held faults.new) }
    ensures fault { TellsRefusal result (F.failures faults.old) (F.held faults.old)
        (F.failures faults.new) (F.held faults.new) }
{
    let line = Fault::ArgumentsWords.line();
    match text {
        Some(text) => complain_more(faults, line, text.as_str()),
        None => complain(faults, line),
    }
}
