//! Why nothing is drawn, and the line of it.

ghost use Rattle.std.specs.Prelude.{◌≡◌};
ghost use Rattle.tp_cli_files.specs.FaultLines.{fault_text};
ghost use Rattle.tp_cli_inputs.specs.JudgeLines.{judge_status, judge_text};
ghost use Rattle.tp_cli_audit.specs.AuditLines.{stop_status, stop_text};
ghost use Rattle.tp_cli_draw.specs.Stops.{draw_status, draw_text, journal_name};
ghost use Rattle.tp_cli_draw.specs.Words.{plan_of};

use crate::draw_words::plan_words;
use tp_cli_audit::{AuditStop, audit_stop_line};
use tp_cli_files::{Fault, FaultLine, Part};
use tp_cli_inputs::{DrawWords, JudgeFault, judge_line};
use tp_cli_run::network_line;
use tp_deorder::DeorderFault;

/// Why nothing is drawn.
#[derive(Clone, Copy)]
pub enum DrawStop {
    /// The files of the plan gave no verdict.
    Judging(JudgeFault),
    /// The plan has no network.
    Network(DeorderFault),
    /// There is no memory for the executive.
    Executive,
    /// The journal can't be drawn.
    Journal(AuditStop),
    /// There is no memory for the picture.
    Memory,
    /// The output can't be written.
    Write,
}

/// The name of the file of the journal, empty where none is named.
fn journal_of(words: DrawWords<'_>) -> &str
    ensures { result.now ≡ journal_name words.entry }
{
    match words.journal {
        Some(log) => log,
        None => "",
    }
}

/// The line of files of a plan that gave no verdict.
fn plan_line<'w>(fault: JudgeFault, words: DrawWords<'w>) -> FaultLine<'w>
    ensures status { result.status ≡ judge_status fault }
    ensures text { fault_text result ≡ judge_text (plan_of words.entry 0) fault }
{
    judge_line(fault, plan_words(words, 0))
}

/// The line of a journal that can't be drawn.
fn journal_line<'w>(stop: AuditStop, words: DrawWords<'w>) -> FaultLine<'w>
    ensures status { result.status ≡ stop_status stop }
    ensures text { fault_text result ≡ stop_text (journal_name words.entry) stop }
{
    audit_stop_line(stop, journal_of(words))
}

/// The line of what stopped a picture.
pub fn draw_line<'w>(stop: DrawStop, words: DrawWords<'w>) -> FaultLine<'w>
    ensures status { result.status ≡ draw_status stop }
    ensures text { fault_text result ≡ draw_text words.entry stop }
{
    match stop {
        DrawStop::Judging(fault) => plan_line(fault, words),
        DrawStop::Network(fault) => network_line(fault),
        DrawStop::Executive => Fault::Memory(Part::Run).line(),
        DrawStop::Journal(stop) => journal_line(stop, words),
        DrawStop::Memory => Fault::Memory(Part::Draw).line(),
        DrawStop::Write => Fault::ScriptWrite.line(),
    }
}
