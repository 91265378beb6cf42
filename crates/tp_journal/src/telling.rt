//! The head of a journal, as its lines tell it, whatever executive it is of.

ghost use Rattle.std.specs.Prelude.{◌≡◌, ◌++◌, true, is_some, IfErr, OnOk};
ghost use Rattle.std.specs.Option.{option_to_list};
ghost use Rattle.tp_script.specs.Reading.{SameLimits};
ghost use Rattle.tp_journal.specs.Auditing.{audit_failures, head_version};
ghost use Rattle.tp_journal.specs.Form.{is_of_pair, own_count_of};
ghost use Rattle.tp_journal.specs.Telling.{tell, new_lag, MatchesPart, MatchesAny, TurnsAny, TellsHead, StaysInHead};

use crate::auditing::{Piece, may_end, take_piece, take_version};
use crate::faults::{AuditFault, JournalHead};
use crate::form::{Place, head_place, read_lag, read_network, read_own_count};
use std::alloc::{AllocError, Global};
use tp_device::Source;
use tp_journal_pairs::begins_with;
use tp_script::Lines;

/// What the lines of a head told so far, but for its version and its lags.
#[derive(Clone, Copy)]
struct Told {
    events: u16,
    horizon: u32,
    own: Option<u32>,
}

/// How many own bounds a line tells, if it does.
fn own_told(line: &[u8]) -> Option<u32>
    ensures { result ≡ own_count_of line.now }
{
    match read_own_count(line) {
        Some(count) => Some(u32::from(count)),
        None => None,
    }
}

/// What is told with a line that stands where the lines call for that place.
fn tell(told: Told, place: Place, line: &[u8]) -> Told
    ensures { result ≡ tell place line.now told }
{
    match place {
        Place::Network(_) => match read_network(line) {
            Some((events, horizon)) => Told {
                events,
                horizon,
                own: told.own,
            },
            None => told,
        },
        Place::Kind(_, _) => Told {
            events: told.events,
            horizon: told.horizon,
            own: own_told(line),
        },
        _ => told,
    }
}

/// The lag that a line tells, where the lines call for that place.
fn new_lag(place: Place, line: &[u8]) -> Option<(u16, u32)>
    ensures { result ≡ new_lag place line.now }
{
    match place {
        Place::Lag(_, _, _) => read_lag(line),
        _ => None,
    }
}

/// Keeps a lag, if there is one.
fn put_lag(lags: &mut Vec<(u16, u32)>, lag: Option<(u16, u32)>) -> Result<(), AllocError>
    ensures { OnOk result (lags.new.items ≡ lags.old.items ++ option_to_list lag) }
{
    if let Some(lag) = lag {
        lags.push(lag)?;
    }
    Ok(())
}

/// The head that was told.
fn head_told(version: u8, told: Told, lags: Vec<(u16, u32)>) -> JournalHead
    ensures version { result.version ≡ version }
    ensures events { result.events ≡ told.events }
    ensures horizon { result.horizon ≡ told.horizon }
    ensures own { result.own ≡ told.own }
    ensures lags { result.lags ≡ lags }
{
    JournalHead {
        version,
        events: told.events,
        horizon: told.horizon,
        own: told.own,
        lags,
    }
}

/// What a line of a journal brought.
#[derive(Clone, Copy)]
enum Step {
    /// It is one of the head: what the lines call for then.
    On(Place),
    /// The head is over.
    Done,
}

/// Whether a line begins as one of a pair does.
fn is_of_pair(line: &[u8]) -> bool
    ensures { result ≡ is_of_pair line.now }
{
    begins_with(line, b">") || begins_with(line, b"<")
}

/// What a line is behind the lines of a head, as far as its first byte tells.
fn match_part(line: &[u8], place: Place, number: u64) -> Result<Step, AuditFault>
    ensures { MatchesPart place line.now number result }
{
    if !may_end(place) {
        return Err(AuditFault::Line(number));
    }
    if is_of_pair(line) {
        Ok(Step::Done)
    } else {
        Err(AuditFault::Line(number))
    }
}

/// What a line is behind the lines of a head.
fn match_any(line: &[u8], place: Place, number: u64) -> Result<Step, AuditFault>
    requires names { is_some (head_version place) ≡ true }
    ensures { MatchesAny place line.now number result }
{
    if is_of_pair(line) {
        return match_part(line, place, number);
    }
    match head_place(place, line) {
        Some(next) => Ok(Step::On(next)),
        None => Err(AuditFault::Line(number)),
    }
}

/// Takes a line behind the lines of a head.
fn take_any<R: Source>(
    lines: &mut Lines<'_, R>,
    place: Place,
    number: u64,
) -> Result<Step, AuditFault>
    requires longest { lines.old.longest ≡ 16_384 }
    requires names { is_some (head_version place) ≡ true }
    ensures turns { TurnsAny place number lines.old lines.new result }
    ensures limits { SameLimits lines.old lines.new }
    ensures read { lines.new.failures ≡ audit_failures lines.old.failures result }
{
    match take_piece(lines) {
        Err(fault) => Err(fault),
        Ok(Piece::Over) => {
            if may_end(place) {
                Ok(Step::Done)
            } else {
                Err(AuditFault::Line(number))
            }
        }
        Ok(Piece::Whole) => match_any(lines.line(), place, number),
        Ok(Piece::Open) => match_part(lines.line(), place, number),
        Ok(Piece::Long) => match_part(lines.line(), place, number),
        Ok(Piece::Cut) => match_part(lines.line(), place, number),
    }
}

/// Reads the head of a journal, and no more: where a head may end, a line that begins with `>` or
/// `<` ends it, whatever else the line holds. It takes memory for the lags, and reads each line of
/// the head twice.
///
/// # Errors `Line(n)` where line n is wanted in the head and is the first that breaks the format,
/// or does not end within the bytes that the lines may take; `Memory` where a growth is refused;
/// `Read` where the reader fails.
pub fn journal_head<R: Source>(
    alloc: Global,
    lines: &mut Lines<'_, R>,
) -> Result<JournalHead, AuditFault>
    requires longest { lines.old.longest ≡ 16_384 }
    ensures head { TellsHead lines.old lines.new result }
    ensures alone { IfErr result (StaysInHead lines.old lines.new) }
    ensures longest { lines.new.longest ≡ lines.old.longest }
    ensures most { lines.new.most ≡ lines.old.most }
    ensures source { lines.new.source ≡ lines.old.source }
    ensures read { lines.new.failures ≡ audit_failures lines.old.failures result }
{
    let version = match take_version(lines) {
        Ok(version) => version,
        Err(fault) => return Err(fault),
    };
    let mut told = Told {
        events: 0,
        horizon: 0,
        own: None,
    };
    let mut lags = Vec::new(alloc);
    let mut place = Place::Network(version);
    let mut count = 1u64;
    'head: loop {
        let _taken = lines.taken();
        match take_any(lines, place, count + 1) {
            Err(fault) => return Err(fault),
            Ok(Step::Done) => {
                return Ok(head_told(version, told, lags));
            }
            Ok(Step::On(next)) => {
                told = tell(told, place, lines.line());
                let Ok(_put) = put_lag(&mut lags, new_lag(place, lines.line())) else {
                    return Err(AuditFault::Memory);
                };
                place = next;
                count += 1;
            }
        }
    }
}
