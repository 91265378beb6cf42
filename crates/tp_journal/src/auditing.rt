//! The audit of a whole journal: each line is read once, the head is compared with the executive's
//! own, and each answer is judged by the machine.

ghost use Rattle.std.specs.Prelude.{◌≡◌, ◌+◌, ◌≤◌, ◌↔◌, [], true, drop, length, IsTrue, Some, IfOk, IfSome};
ghost use Rattle.tp_script.specs.Reading.{SameLimits};
ghost use Rattle.tp_journal_pairs.specs.Journal.{IsHead, IsVersion, head_of, lags_of};
ghost use Rattle.tp_journal_pairs.specs.Sound.{IsSound};
ghost use Rattle.tp_journal_pairs.specs.Writing.{IsNewExecutive};
ghost use Rattle.tp_journal.specs.Form.{may_end, is_of_pair, is_reply};
ghost use Rattle.tp_journal.specs.Replay.{LeadsTo};
ghost use Rattle.tp_journal.specs.Auditing.{HasFew, TakesPiece, TakesNext, TakesVersion, head_version, BeginsWithLine, Matches, TurnsHead, Heads, IsReplyJudged, TakesReply, TakesQuestion, TakesPair, Audits, audit_failures};

use crate::faults::{AuditFault, Audited};
use crate::form::{Asked, Place, head_place, is_reply, read_question, read_version};
use std::alloc::Global;
use tp_device::Source;
use tp_exec_machine::{Executive, Kind};
use tp_journal_pairs::{Finding, begins_with, head_text, judge};
use tp_net::Net;
use tp_script::{LineFault, Lines, Next};

/// What came of the wish for a line.
#[derive(Clone, Copy)]
pub(crate) enum Found {
    /// A line, with its end.
    Whole,
    /// Nothing is left.
    Over,
}

/// What stands first of what is left.
#[derive(Clone, Copy)]
pub(crate) enum Piece {
    /// A line, with its end.
    Whole,
    /// The last bytes, which no end of a line follows.
    Open,
    /// A line of too many bytes.
    Long,
    /// Part of a line: as many bytes were taken as may be.
    Cut,
    /// Nothing.
    Over,
}

/// Takes what stands first.
pub(crate) fn take_piece<R: Source>(lines: &mut Lines<'_, R>) -> Result<Piece, AuditFault>
    requires { lines.old.longest ≡ 16_384 }
    ensures takes { TakesPiece lines.old lines.new result }
    ensures limits { SameLimits lines.old lines.new }
    ensures read { lines.new.failures ≡ audit_failures lines.old.failures result }
{
    let before = lines.taken();
    match lines.next_line() {
        Err(LineFault::Read) => Err(AuditFault::Read),
        Err(LineFault::TooLong) => Ok(Piece::Cut),
        Ok(Next::End) => Ok(Piece::Over),
        Ok(Next::Long) => Ok(Piece::Long),
        Ok(Next::Line) => {
            if lines.taken() - before == lines.line().len() as u64 + 1 {
                Ok(Piece::Whole)
            } else {
                Ok(Piece::Open)
            }
        }
    }
}

/// Takes the line of that number.
pub(crate) fn take_line<R: Source>(
    lines: &mut Lines<'_, R>,
    number: u64,
) -> Result<Found, AuditFault>
    requires { lines.old.longest ≡ 16_384 }
    ensures takes { TakesNext lines.old lines.new number result }
    ensures limits { SameLimits lines.old lines.new }
    ensures read { lines.new.failures ≡ audit_failures lines.old.failures result }
{
    match take_piece(lines) {
        Err(fault) => Err(fault),
        Ok(Piece::Whole) => Ok(Found::Whole),
        Ok(Piece::Over) => Ok(Found::Over),
        Ok(Piece::Open) => Err(AuditFault::Line(number)),
        Ok(Piece::Long) => Err(AuditFault::Line(number)),
        Ok(Piece::Cut) => Err(AuditFault::Line(number)),
    }
}

/// What a line of a head brought.
#[derive(Clone, Copy)]
enum Turn {
    /// It is the next line of the executive's head: what the lines call for then, and how many
    /// bytes it has with its end.
    Goes(Place, usize),
    /// The head is over, and a question was put.
    Asks(Asked),
    /// The journal is over.
    Stops,
}

/// What a head was found to be: its version, how many lines were taken, and the question behind it,
/// if there is one.
#[derive(Clone, Copy)]
struct Headed {
    version: u8,
    count: u64,
    asked: Option<Asked>,
}

/// Whether the lines may end at a place.
pub(crate) fn may_end(place: Place) -> bool
    ensures { result ≡ may_end place }
{
    matches!(place, Place::Lag(_, _, _) | Place::Question(_))
}

/// Whether bytes begin with a line and its end.
fn begins_with_line(bytes: &[u8], line: &[u8]) -> bool
    ensures { IsTrue result ↔ BeginsWithLine bytes.now line.now }
{
    if bytes.len() <= line.len() {
        return false;
    }
    if !begins_with(bytes, line) {
        return false;
    }
    if bytes[line.len()] != b'\n' {
        return false;
    }
    true
}

/// What a question behind the lines of a head is.
fn match_question(
    alloc: Global,
    line: &[u8],
    head: &[u8],
    place: Place,
    version: u8,
    number: u64,
) -> Result<Turn, AuditFault>
    requires names { head_version place ≡ Some version }
    requires pair { is_of_pair line.now ≡ true }
    ensures { Matches place version line.now head.now number result }
{
    if !may_end(place) {
        return Err(AuditFault::Line(number));
    }
    match read_question(alloc, version, line) {
        Err(_) => Err(AuditFault::Memory),
        Ok(None) => Err(AuditFault::Line(number)),
        Ok(Some(asked)) => {
            if head.is_empty() {
                Ok(Turn::Asks(asked))
            } else {
                Err(AuditFault::Head)
            }
        }
    }
}

/// What a line behind the lines of a head is.
fn match_line(
    alloc: Global,
    line: &[u8],
    head: &[u8],
    place: Place,
    version: u8,
    number: u64,
) -> Result<Turn, AuditFault>
    requires names { head_version place ≡ Some version }
    ensures { Matches place version line.now head.now number result }
{
    if begins_with(line, b">") || begins_with(line, b"<") {
        return match_question(alloc, line, head, place, version, number);
    }
    let Some(next) = head_place(place, line) else {
        return Err(AuditFault::Line(number));
    };
    if begins_with_line(head, line) {
        Ok(Turn::Goes(next, line.len() + 1))
    } else {
        Err(AuditFault::Head)
    }
}

/// Takes a line of a head, or the question behind it.
fn take_turn<R: Source>(
    alloc: Global,
    lines: &mut Lines<'_, R>,
    head: &[u8],
    place: Place,
    version: u8,
    number: u64,
) -> Result<Turn, AuditFault>
    requires longest { lines.old.longest ≡ 16_384 }
    requires names { head_version place ≡ Some version }
    ensures turns { TurnsHead place version head.now number lines.old lines.new result }
    ensures limits { SameLimits lines.old lines.new }
    ensures read { lines.new.failures ≡ audit_failures lines.old.failures result }
{
    match take_line(lines, number) {
        Err(fault) => Err(fault),
        Ok(Found::Over) => {
            if !may_end(place) {
                Err(AuditFault::Line(number))
            } else if head.is_empty() {
                Ok(Turn::Stops)
            } else {
                Err(AuditFault::Head)
            }
        }
        Ok(Found::Whole) => match_line(alloc, lines.line(), head, place, version, number),
    }
}

/// Takes line 1, which names the version.
pub(crate) fn take_version<R: Source>(lines: &mut Lines<'_, R>) -> Result<u8, AuditFault>
    requires { lines.old.longest ≡ 16_384 }
    ensures version { TakesVersion lines.old lines.new result }
    ensures limits { SameLimits lines.old lines.new }
    ensures read { lines.new.failures ≡ audit_failures lines.old.failures result }
{
    match take_line(lines, 1) {
        Err(fault) => Err(fault),
        Ok(Found::Over) => Err(AuditFault::Line(1)),
        Ok(Found::Whole) => match read_version(lines.line()) {
            Some(version) => Ok(version),
            None => Err(AuditFault::Line(1)),
        },
    }
}

/// Whether no event has a lag.
fn has_no_lags<N: Net>(executive: &Executive<N>) -> bool
    ensures { IsTrue result ↔ (lags_of executive.now ≡ []) }
{
    let net = executive.net();
    for e in 0..net.events() {
        if net.lag(e) != 0 {
            return false;
        }
    }
    true
}

/// Whether an executive has as few own bounds as a head can tell.
fn has_few<N: Net>(executive: &Executive<N>) -> bool
    ensures { IsTrue result ↔ HasFew executive.now }
{
    match executive.kind() {
        Kind::Bare => true,
        _ => executive.next() <= 65_535,
    }
}

/// Whether a journal of that version can begin with the head of an executive.
fn may_head<N: Net>(executive: &Executive<N>, version: u8) -> bool
    requires new { IsNewExecutive executive.now }
    requires version { IsVersion version }
    ensures { IsTrue result ↔ IsHead (head_of version executive.now) }
{
    let _count = executive.net().events();
    if !has_few(executive) {
        return false;
    }
    if version == 2 {
        return true;
    }
    has_no_lags(executive)
}

/// What stands behind the first bytes.
fn behind(bytes: &[u8], count: usize) -> &[u8]
    requires { count ≤ length bytes.now }
    ensures { result.now ≡ drop count bytes.now }
{
    &bytes[count..]
}

/// Reads the head, which is to be the executive's, and the question behind it.
fn audit_head<N: Net, R: Source>(
    alloc: Global,
    executive: &Executive<N>,
    lines: &mut Lines<'_, R>,
) -> Result<Headed, AuditFault>
    requires longest { lines.old.longest ≡ 16_384 }
    requires new { IsNewExecutive executive.now }
    ensures heads { Heads executive.now lines.old lines.new result }
    ensures longest { lines.new.longest ≡ lines.old.longest }
    ensures most { lines.new.most ≡ lines.old.most }
    ensures source { lines.new.source ≡ lines.old.source }
    ensures few { IfOk result (λ headed. headed.count + 9 ≤ lines.new.taken) }
    ensures read { lines.new.failures ≡ audit_failures lines.old.failures result }
{
    let Ok(head) = head_text(alloc, executive) else {
        return Err(AuditFault::Memory);
    };
    let version = match take_version(lines) {
        Ok(version) => version,
        Err(fault) => return Err(fault),
    };
    if !may_head(executive, version) {
        return Err(AuditFault::Head);
    }
    let mut left = behind(head.as_slice(), 10);
    let mut place = Place::Network(version);
    let mut count = 1u64;
    'head: loop {
        let _taken = lines.taken();
        match take_turn(alloc, lines, left, place, version, count + 1) {
            Ok(Turn::Goes(next, bytes)) => {
                place = next;
                left = behind(left, bytes);
                count += 1;
            }
            Ok(Turn::Asks(asked)) => {
                return Ok(Headed {
                    version,
                    count: count + 1,
                    asked: Some(asked),
                });
            }
            Ok(Turn::Stops) => {
                return Ok(Headed {
                    version,
                    count,
                    asked: None,
                });
            }
            Err(fault) => return Err(fault),
        }
    }
}

/// Judges a reply to a question.
fn judge_reply<N: Net>(
    alloc: Global,
    executive: &mut Executive<N>,
    asked: Asked,
    line: &[u8],
) -> Finding
    requires sound { IsSound executive.old }
    requires formed { is_reply line.now ≡ true }
    ensures judged { IsReplyJudged executive.old executive.new asked line.now result }
    ensures sound { IsSound executive.new }
{
    match asked {
        Asked::Told(command) => judge(alloc, executive, command, &line[2..]),
        Asked::Nothing => {
            if line == b"< refused line".as_slice() {
                Finding::Right
            } else {
                Finding::Wrong
            }
        }
    }
}

/// Takes the reply to a question and judges it.
fn take_reply<N: Net, R: Source>(
    alloc: Global,
    executive: &mut Executive<N>,
    lines: &mut Lines<'_, R>,
    asked: Asked,
    number: u64,
) -> Result<(), AuditFault>
    requires longest { lines.old.longest ≡ 16_384 }
    requires sound { IsSound executive.old }
    ensures replies { TakesReply executive.old executive.new lines.old lines.new asked number
        result }
    ensures sound { IsSound executive.new }
    ensures limits { SameLimits lines.old lines.new }
    ensures read { lines.new.failures ≡ audit_failures lines.old.failures result }
{
    match take_line(lines, number) {
        Err(fault) => Err(fault),
        Ok(Found::Over) => Err(AuditFault::Line(number)),
        Ok(Found::Whole) => {
            if !is_reply(lines.line()) {
                return Err(AuditFault::Line(number));
            }
            match judge_reply(alloc, executive, asked, lines.line()) {
                Finding::Right => Ok(()),
                Finding::Wrong => Err(AuditFault::Wrong(number)),
                Finding::Memory => Err(AuditFault::Memory),
            }
        }
    }
}

/// Takes the next question, if there is one.
fn take_question<R: Source>(
    alloc: Global,
    lines: &mut Lines<'_, R>,
    version: u8,
    number: u64,
) -> Result<Option<Asked>, AuditFault>
    requires longest { lines.old.longest ≡ 16_384 }
    ensures asks { TakesQuestion lines.old lines.new version number result }
    ensures limits { SameLimits lines.old lines.new }
    ensures read { lines.new.failures ≡ audit_failures lines.old.failures result }
{
    match take_line(lines, number) {
        Err(fault) => Err(fault),
        Ok(Found::Over) => Ok(None),
        Ok(Found::Whole) => match read_question(alloc, version, lines.line()) {
            Ok(Some(asked)) => Ok(Some(asked)),
            Ok(None) => Err(AuditFault::Line(number)),
            Err(_) => Err(AuditFault::Memory),
        },
    }
}

/// Takes a reply and the question behind it.
fn take_pair<N: Net, R: Source>(
    alloc: Global,
    executive: &mut Executive<N>,
    lines: &mut Lines<'_, R>,
    version: u8,
    asked: Asked,
    count: u64,
) -> Result<Option<Asked>, AuditFault>
    requires longest { lines.old.longest ≡ 16_384 }
    requires sound { IsSound executive.old }
    requires few { count + 9 ≤ lines.old.taken }
    ensures takes { TakesPair executive.old executive.new lines.old lines.new version asked count
        result }
    ensures sound { IsSound executive.new }
    ensures limits { SameLimits lines.old lines.new }
    ensures read { lines.new.failures ≡ audit_failures lines.old.failures result }
{
    let _taken = lines.taken();
    match take_reply(alloc, executive, lines, asked, count + 1) {
        Ok(()) => take_question(alloc, lines, version, count + 2),
        Err(fault) => Err(fault),
    }
}

/// Audits a journal: whether its lines are one of the executive, which is new, and how many pairs
/// it has. Each line is read once, and each command that was accepted is carried out, so that an
/// audit costs what the run did, and twice the bytes; a refusal is judged without it, by about 4
/// look-ups for each edge of its reason. It takes memory for the executive's head, for one line at
/// a time, and for what the commands take. The executive is dropped.
///
/// # Errors
/// `Line(n)` where line n is the first that breaks the format, or does not end within the bytes
/// that the lines may take, 2^32 unless they were made with another limit;
/// `Wrong(n)` where the lines before are a journal and the machine does not allow that answer;
/// `Head` for the head of another executive; `Memory` where a growth is refused; `Read` where the
/// reader fails.
pub fn audit<N: Net + Drop, R: Source>(
    alloc: Global,
    executive: Executive<N>,
    lines: &mut Lines<'_, R>,
) -> Result<Audited, AuditFault>
    requires longest { lines.old.longest ≡ 16_384 }
    requires new { IsNewExecutive executive }
    ensures audits { Audits executive lines.old lines.new result }
    ensures longest { lines.new.longest ≡ lines.old.longest }
    ensures most { lines.new.most ≡ lines.old.most }
    ensures source { lines.new.source ≡ lines.old.source }
    ensures read { lines.new.failures ≡ audit_failures lines.old.failures result }
{
    let mut executive = executive;
    replay(alloc, &mut executive, lines)
}

/// The same with an executive that is kept: where the lines are a journal, it is as the run left
/// it.
///
/// # Errors
/// Those of `audit`.
pub fn replay<N: Net, R: Source>(
    alloc: Global,
    executive: &mut Executive<N>,
    lines: &mut Lines<'_, R>,
) -> Result<Audited, AuditFault>
    requires longest { lines.old.longest ≡ 16_384 }
    requires new { IsNewExecutive executive.old }
    ensures audits { Audits executive.old lines.old lines.new result }
    ensures leads { IfOk result (λ audited. IfSome lines.old.rest
        (λ bytes. LeadsTo executive.old bytes audited.pairs executive.new)) }
    ensures longest { lines.new.longest ≡ lines.old.longest }
    ensures most { lines.new.most ≡ lines.old.most }
    ensures source { lines.new.source ≡ lines.old.source }
    ensures read { lines.new.failures ≡ audit_failures lines.old.failures result }
{
    let headed = match audit_head(alloc, executive, lines) {
        Ok(headed) => headed,
        Err(fault) => return Err(fault),
    };
    let mut count = headed.count;
    let mut next = headed.asked;
    let mut pairs = 0u64;
    'pairs: loop {
        let _taken = lines.taken();
        let Some(asked) = next else {
            return Ok(Audited { pairs });
        };
        match take_pair(alloc, executive, lines, headed.version, asked, count) {
            Ok(question) => next = question,
            Err(fault) => return Err(fault),
        }
        count += 2;
        pairs += 1;
    }
}
