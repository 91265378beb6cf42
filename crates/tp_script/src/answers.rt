//! The line of an answer. Nothing here takes memory.

ghost use Rattle.std.specs.Prelude.{◌≡◌, ◌≤◌, ◌++◌, ◌∷◌, length, codes, decimal, flat_map};
ghost use Rattle.tp_device.specs.Bytes.{Writes, failures_after};
ghost use Rattle.tp_exec_machine.specs.declared.command.Answer.TheVariants.{Refused, Reported};
ghost use Rattle.tp_exec_machine.specs.declared.refusal.Refusal.TheVariants.{Conflict};
ghost use Rattle.tp_script.specs.Transcript.{edge_text, kind_text, moment_text, line_of};

use crate::numbered::{write_numbered, write_two_numbers};
use tp_bounds::{Edge, Reason};
use tp_device::{Failed, Sink, Text, push_all};
use tp_exec_machine::{Answer, Kind, Refusal, Report};

/// The word of a kind.
fn kind_word(kind: Kind) -> &'static [u8]
    ensures text { result.now ≡ kind_text kind }
    ensures short { length result.now ≤ 10 }
{
    match kind {
        Kind::Bare => b"bare",
        Kind::Kept => b"kept",
        Kind::Altered => b"altered",
    }
}

/// Writes a moment of a report.
fn write_moment<W: Sink>(writer: &mut W, moment: (u32, bool)) -> Result<(), Failed>
    ensures bytes { Writes (W.held writer.old) (W.held writer.new) (moment_text moment) result }
    ensures cause { W.failures writer.new ≡ failures_after (W.failures writer.old) result }
{
    let mut text = Text::new(b" ");
    text.put_number(moment.0);
    if moment.1 {
        text.put(b"!");
    }
    push_all(writer, text.as_slice())
}

/// Writes the moments of a report.
fn write_moments<W: Sink>(writer: &mut W, moments: &[(u32, bool)]) -> Result<(), Failed>
    ensures bytes { Writes
        (W.held writer.old) (W.held writer.new) (flat_map moment_text moments.now) result }
    ensures cause { W.failures writer.new ≡ failures_after (W.failures writer.old) result }
{
    for moment in moments {
        write_moment(writer, *moment)?;
    }
    Ok(())
}

/// A report's line up to its moments.
fn report_head(report: &Report) -> Text
    ensures { result ≡ codes "report "
        ++ decimal report.entry.now.now ++ codes " " ++ kind_text report.entry.now.kind }
{
    let mut text = Text::new(b"report ");
    text.put_number(report.now);
    text.put(b" ");
    text.put(kind_word(report.kind));
    text
}

/// Writes the line of a report.
fn write_report<W: Sink>(writer: &mut W, report: &Report) -> Result<(), Failed>
    ensures bytes { Writes
        (W.held writer.old) (W.held writer.new) (line_of (Reported report.entry.now)) result }
    ensures cause { W.failures writer.new ≡ failures_after (W.failures writer.old) result }
{
    let head = report_head(report);
    push_all(writer, head.as_slice())?;
    write_moments(writer, report.moments.as_slice())?;
    push_all(writer, b"\n")
}

/// Writes an edge of a reason, after a space.
fn write_edge<W: Sink>(writer: &mut W, edge: Edge) -> Result<(), Failed>
    ensures bytes { Writes (W.held writer.old) (W.held writer.new) (32 ∷ edge_text edge) result }
    ensures cause { W.failures writer.new ≡ failures_after (W.failures writer.old) result }
{
    let text = match edge {
        Edge::Own(id) => edge_with(b" b", id.0, b""),
        Edge::New => Text::new(b" new"),
        Edge::PastHigh(e) => edge_with(b" past", u32::from(e), b"+"),
        Edge::PastLow(e) => edge_with(b" past", u32::from(e), b"-"),
        Edge::Now(e) => edge_with(b" now", u32::from(e), b""),
        Edge::End(e) => edge_with(b" end", u32::from(e), b""),
    };
    push_all(writer, text.as_slice())
}

/// A number between two words.
fn edge_with(before: &[u8], n: u32, after: &[u8]) -> Text
    requires before { length before.now ≤ 20 }
    requires after { length after.now ≤ 20 }
    ensures { result ≡ before.now ++ decimal n ++ after.now }
{
    let mut text = Text::new(before);
    text.put_number(n);
    text.put(after);
    text
}

/// Writes the edges of a reason.
fn write_edges<W: Sink>(writer: &mut W, edges: &[Edge]) -> Result<(), Failed>
    ensures bytes { Writes (W.held writer.old) (W.held writer.new)
        (flat_map (λ e. 32 ∷ edge_text e) edges.now) result }
    ensures cause { W.failures writer.new ≡ failures_after (W.failures writer.old) result }
{
    for edge in edges {
        write_edge(writer, *edge)?;
    }
    Ok(())
}

/// Writes the line of a conflict.
fn write_conflict<W: Sink>(writer: &mut W, reason: &Reason) -> Result<(), Failed>
    ensures bytes { Writes
        (W.held writer.old) (W.held writer.new) (line_of (Refused (Conflict reason.now))) result }
    ensures cause { W.failures writer.new ≡ failures_after (W.failures writer.old) result }
{
    push_all(writer, b"refused conflict")?;
    write_edges(writer, reason.edges.as_slice())?;
    push_all(writer, b"\n")
}

/// Writes the line of a refusal.
fn write_refusal<W: Sink>(writer: &mut W, refusal: &Refusal) -> Result<(), Failed>
    ensures bytes { Writes
        (W.held writer.old) (W.held writer.new) (line_of (Refused refusal.now)) result }
    ensures cause { W.failures writer.new ≡ failures_after (W.failures writer.old) result }
{
    match refusal {
        Refusal::NoEvent => push_all(writer, b"refused event\n"),
        Refusal::Done => push_all(writer, b"refused done\n"),
        Refusal::NoBound => push_all(writer, b"refused bound\n"),
        Refusal::Weight => push_all(writer, b"refused weight\n"),
        Refusal::Back => push_all(writer, b"refused back\n"),
        Refusal::Moment => push_all(writer, b"refused moment\n"),
        Refusal::Full => push_all(writer, b"refused full\n"),
        Refusal::Spent => push_all(writer, b"refused spent\n"),
        Refusal::Memory => push_all(writer, b"refused memory\n"),
        Refusal::Conflict(reason) => write_conflict(writer, reason),
    }
}

/// Writes the line of an answer. It takes no memory. Where the writer fails, it has taken some
/// first part of the line.
pub fn write_answer<W: Sink>(writer: &mut W, answer: &Answer) -> Result<(), Failed>
    ensures bytes { Writes (W.held writer.old) (W.held writer.new) (line_of answer.now) result }
    ensures cause { W.failures writer.new ≡ failures_after (W.failures writer.old) result }
{
    match answer {
        Answer::Accepted => push_all(writer, b"ok\n"),
        Answer::Named(id) => write_numbered(writer, b"bound ", id.0),
        Answer::Told(low, high) => write_two_numbers(writer, b"window ", *low, *high),
        Answer::Reported(report) => write_report(writer, report),
        Answer::Refused(refusal) => write_refusal(writer, refusal),
    }
}
