//! The format of a journal, line by line: which lines may stand where, whatever executive it is of.

ghost use Rattle.std.specs.Prelude.{◌≡◌, ◌↔◌, IsTrue, ℕ, drop, is_some, Some, IfOk, codes};
ghost use Rattle.std.specs.List.{list_all};
ghost use Rattle.std.specs.Option.{option_and_then};
ghost use Rattle.tp_script.specs.Words.{words_of};
ghost use Rattle.tp_script.specs.Commands.{moment_of, point_of, weight_of, list_is_empty};
ghost use Rattle.tp_journal_pairs.specs.Edges.{begins};
ghost use Rattle.tp_journal.specs.Form.{last_after, is_neat, version_of, network_of, own_count_of, is_number, are_ends, is_own_line, lag_of, has_command, is_moment_word, is_edge_word, is_refusal_word, is_kind_word, is_moment_alone, is_window_from, is_kind_and, is_report_from, is_refusal_from, is_answer_from, is_reply, own_place, may_lag, lag_place, kind_place, one_command, question_of, head_place};

use std::alloc::{AllocError, Global};
use tp_bounds::MOST_LAG;
use tp_exec_machine::Command;
use tp_journal_pairs::{begins_with, is_text_of_command, read_edge};
use tp_script::{next_word, read_command, read_event, read_head_line, read_moment, read_number};

/// A question that was put.
#[derive(Clone, Copy, Debug, PartialEq, Eq)]
pub(crate) enum Asked {
    /// A line that was no command.
    Nothing,
    /// A command.
    Told(Command),
}

/// What the lines of a journal so far call for.
#[derive(Clone, Copy, Debug, PartialEq, Eq)]
pub(crate) enum Place {
    /// The version.
    Start,
    /// The network. Told: the version.
    Network(u8),
    /// Where the bounds come from. Told: the version, and how many events there are.
    Kind(u8, u16),
    /// An own bound. Told: the version, the events, the bound's identifier, and how many own bounds
    /// there are.
    Own(u8, u16, u32, u32),
    /// A lag, or a question, or the end. Told: the version, the events, and the least event whose
    /// lag may come.
    Lag(u8, u16, u32),
    /// A question, or the end. Told: the version.
    Question(u8),
    /// A reply. Told: the version.
    Reply(u8),
}

/// What the byte before is.
#[derive(Clone, Copy, Debug, PartialEq, Eq)]
enum LastByte {
    /// None, or a space.
    Gap,
    /// A zero with which a number begins.
    Zero,
    /// Another digit of a number.
    Digit,
    /// Another byte.
    Other,
}

/// What the next byte is, if it may follow: a space follows no space and no blank is another byte,
/// and no digit follows a zero with which a number begins.
fn last_after(last: LastByte, b: u8) -> Option<LastByte>
    ensures { result ≡ last_after last b }
{
    if b == b' ' {
        return match last {
            LastByte::Gap => None,
            _ => Some(LastByte::Gap),
        };
    }
    if b == b'\t' || b == b'\r' {
        return None;
    }
    if b < b'0' || b'9' < b {
        return Some(LastByte::Other);
    }
    match last {
        LastByte::Zero => None,
        LastByte::Digit => Some(LastByte::Digit),
        _ => {
            if b == b'0' {
                Some(LastByte::Zero)
            } else {
                Some(LastByte::Digit)
            }
        }
    }
}

/// Whether a text is words with one space between, and no number in it has a leading zero.
fn is_neat(text: &[u8]) -> bool
    ensures { result ≡ is_neat text.now }
{
    let mut last = LastByte::Gap;
    for b in text {
        let Some(next) = last_after(last, *b) else {
            return false;
        };
        last = next;
    }
    !matches!(last, LastByte::Gap)
}

/// The version that line 1 names.
pub(crate) fn read_version(line: &[u8]) -> Option<u8>
    ensures { result ≡ version_of line.now }
{
    if line == b"journal 1".as_slice() {
        Some(1)
    } else if line == b"journal 2".as_slice() {
        Some(2)
    } else {
        None
    }
}

/// The events and the horizon that line 2 tells.
pub(crate) fn read_network(line: &[u8]) -> Option<(u16, u32)>
    ensures { result ≡ network_of line.now }
{
    if is_neat(line) {
        read_head_line(line)
    } else {
        None
    }
}

/// How many own bounds line 3 of a network that came from a plan tells.
pub(crate) fn read_own_count(line: &[u8]) -> Option<u16>
    ensures { result ≡ own_count_of line.now }
{
    if !is_neat(line) {
        return None;
    }
    let (name, rest) = next_word(line);
    let (count, rest) = next_word(rest);
    let (more, _) = next_word(rest);
    if name != b"own".as_slice() || count.is_empty() || !more.is_empty() {
        return None;
    }
    read_event(count)
}

/// Whether a word is an event or the origin.
fn is_point(word: &[u8]) -> bool
    ensures { result ≡ is_some (point_of word.now) }
{
    word == b"o".as_slice() || read_event(word).is_some()
}

/// Whether a word is a weight, which may begin with a minus.
fn is_weight(word: &[u8]) -> bool
    ensures { result ≡ is_some (weight_of word.now) }
{
    match word {
        [] => false,
        [b'-', digits @ ..] => read_number(digits).is_some(),
        _ => read_number(word).is_some(),
    }
}

/// Whether a word is that number.
fn is_number(word: &[u8], n: u32) -> bool
    ensures { result ≡ is_number n (moment_of word.now) }
{
    match read_moment(word) {
        Some(k) => k == n,
        None => false,
    }
}

/// Whether words are two points and a weight.
fn are_ends(from: &[u8], to: &[u8], weight: &[u8]) -> bool
    ensures { result ≡ are_ends from.now to.now weight.now }
{
    is_point(from) && is_point(to) && is_weight(weight)
}

/// Whether a line is that of an own bound under that identifier.
fn is_own_line(id: u32, line: &[u8]) -> bool
    ensures { result ≡ is_own_line id line.now }
{
    if !is_neat(line) {
        return false;
    }
    let (name, rest) = next_word(line);
    let (number, rest) = next_word(rest);
    let (from, rest) = next_word(rest);
    let (to, rest) = next_word(rest);
    let (weight, rest) = next_word(rest);
    let (more, _) = next_word(rest);
    if name != b"bound".as_slice() || number.is_empty() || from.is_empty() {
        return false;
    }
    if to.is_empty() || weight.is_empty() || !more.is_empty() {
        return false;
    }
    if !is_number(number, id) || weight == b"-0".as_slice() {
        return false;
    }
    are_ends(from, to, weight)
}

/// The event and its lag that the line of a lag tells.
pub(crate) fn read_lag(line: &[u8]) -> Option<(u16, u32)>
    ensures { result ≡ lag_of line.now }
{
    if !is_neat(line) {
        return None;
    }
    let (name, rest) = next_word(line);
    let (event, rest) = next_word(rest);
    let (lag, rest) = next_word(rest);
    let (more, _) = next_word(rest);
    if name != b"lag".as_slice() || event.is_empty() || lag.is_empty() || !more.is_empty() {
        return None;
    }
    Some((read_event(event)?, read_moment(lag)?))
}

/// Whether a word is a moment in a report, with the mark of a dispatched event or without.
fn is_moment_word(word: &[u8]) -> bool
    ensures { result ≡ is_moment_word word.now }
{
    if word.is_empty() {
        return false;
    }
    let (front, last) = word.split_at(word.len() - 1);
    if last == b"!".as_slice() {
        read_moment(front).is_some()
    } else {
        read_moment(word).is_some()
    }
}

/// Whether a word is that of a refusal without a reason, or of a line that was no command.
fn is_refusal_word(word: &[u8]) -> bool
    ensures { result ≡ is_refusal_word word.now }
{
    word == b"event".as_slice()
        || word == b"done".as_slice()
        || word == b"bound".as_slice()
        || word == b"weight".as_slice()
        || word == b"back".as_slice()
        || word == b"moment".as_slice()
        || word == b"full".as_slice()
        || word == b"spent".as_slice()
        || word == b"memory".as_slice()
        || word == b"line".as_slice()
}

/// Whether a word is that of a kind.
fn is_kind_word(word: &[u8]) -> bool
    ensures { result ≡ is_kind_word word.now }
{
    word == b"bare".as_slice() || word == b"kept".as_slice() || word == b"altered".as_slice()
}

/// Whether a text has no word.
fn is_over(text: &[u8]) -> bool
    ensures { result ≡ list_is_empty (words_of text.now) }
{
    let (word, _) = next_word(text);
    word.is_empty()
}

/// Whether a text is one moment or identifier.
fn is_moment_alone(text: &[u8]) -> bool
    ensures { result ≡ is_moment_alone (words_of text.now) }
{
    let (word, rest) = next_word(text);
    !word.is_empty() && read_moment(word).is_some() && is_over(rest)
}

/// Whether a text is what follows `window`.
fn is_window(text: &[u8]) -> bool
    ensures { result ≡ is_window_from (words_of text.now) }
{
    let (low, rest) = next_word(text);
    !low.is_empty() && read_moment(low).is_some() && is_moment_alone(rest)
}

/// Whether each word of a text is a moment in a report.
fn are_moments(text: &[u8]) -> bool
    ensures { result ≡ list_all is_moment_word (words_of text.now) }
{
    let mut rest = text;
    loop {
        let (word, more) = next_word(rest);
        if word.is_empty() {
            return true;
        }
        if !is_moment_word(word) {
            return false;
        }
        rest = more;
    }
}

/// Whether each word of a text is an edge.
fn are_edges(text: &[u8]) -> bool
    ensures { result ≡ list_all is_edge_word (words_of text.now) }
{
    let mut rest = text;
    loop {
        let (word, more) = next_word(rest);
        if word.is_empty() {
            return true;
        }
        if read_edge(word).is_none() {
            return false;
        }
        rest = more;
    }
}

/// Whether a text is a kind and then moments.
fn is_kind_and(text: &[u8]) -> bool
    ensures { result ≡ is_kind_and (words_of text.now) }
{
    let (kind, rest) = next_word(text);
    !kind.is_empty() && is_kind_word(kind) && are_moments(rest)
}

/// Whether a text is what follows `report`.
fn is_report(text: &[u8]) -> bool
    ensures { result ≡ is_report_from (words_of text.now) }
{
    let (now, rest) = next_word(text);
    !now.is_empty() && read_moment(now).is_some() && is_kind_and(rest)
}

/// Whether a text is what follows `refused`.
fn is_refusal(text: &[u8]) -> bool
    ensures { result ≡ is_refusal_from (words_of text.now) }
{
    let (word, rest) = next_word(text);
    if word.is_empty() {
        return false;
    }
    if word == b"conflict".as_slice() {
        !is_over(rest) && are_edges(rest)
    } else {
        is_refusal_word(word) && is_over(rest)
    }
}

/// Whether the words of a text are those of an answer.
fn is_answer(text: &[u8]) -> bool
    ensures { result ≡ is_answer_from (words_of text.now) }
{
    let (name, rest) = next_word(text);
    if name == b"ok".as_slice() {
        is_over(rest)
    } else if name == b"bound".as_slice() {
        is_moment_alone(rest)
    } else if name == b"window".as_slice() {
        is_window(rest)
    } else if name == b"report".as_slice() {
        is_report(rest)
    } else if name == b"refused".as_slice() {
        is_refusal(rest)
    } else {
        false
    }
}

/// Whether a line is that of an answer, whatever the machine may answer.
pub(crate) fn is_reply(line: &[u8]) -> bool
    ensures { result ≡ is_reply line.now }
{
    if !begins_with(line, b"< ") {
        return false;
    }
    let text = &line[2..];
    is_neat(text) && is_answer(text)
}

/// What the lines call for before the own bound of that identifier, where there are so many.
fn own_place(version: u8, events: u16, id: u32, count: u32) -> Place
    ensures { result ≡ own_place version events id count }
{
    if id < count {
        Place::Own(version, events, id, count)
    } else {
        Place::Lag(version, events, 0)
    }
}

/// What the lines call for behind the line that tells where the bounds come from.
fn kind_place(version: u8, events: u16, line: &[u8]) -> Option<Place>
    ensures { result ≡ kind_place version events line.now }
{
    if line == b"bare".as_slice() {
        return Some(Place::Lag(version, events, 0));
    }
    let count = read_own_count(line)?;
    Some(own_place(version, events, 0, u32::from(count)))
}

/// Whether that lag may come.
fn may_lag(events: u16, least: u32, event: u16, lag: u32) -> bool
    ensures { result ≡ may_lag events least (event, lag) }
{
    least <= u32::from(event) && event < events && 0 < lag && lag <= MOST_LAG
}

/// What the lines call for behind the line of a lag.
fn lag_place(version: u8, events: u16, least: u32, line: &[u8]) -> Option<Place>
    ensures { result ≡ option_and_then (lag_place version events least) (lag_of line.now) }
{
    let (event, lag) = read_lag(line)?;
    if version == 2 && may_lag(events, least, event, lag) {
        Some(Place::Lag(version, events, u32::from(event) + 1))
    } else {
        None
    }
}

/// Whether a version has a command.
fn has_command(version: u8, command: Command) -> bool
    ensures { result ≡ has_command version command }
{
    match command {
        Command::Happened(_, _) => version == 2,
        _ => true,
    }
}

/// The command of a version that a text is the one spelling of.
fn read_one_command(alloc: Global, version: u8, text: &[u8]) -> Result<Option<Asked>, AllocError>
    ensures { IfOk result (λ asked. asked ≡ one_command version text.now) }
{
    let Some(command) = read_command(text) else {
        return Ok(None);
    };
    let same = is_text_of_command(alloc, &command, text)?;
    if same && has_command(version, command) {
        Ok(Some(Asked::Told(command)))
    } else {
        Ok(None)
    }
}

/// The question that a line puts, in a version.
pub(crate) fn read_question(
    alloc: Global,
    version: u8,
    line: &[u8],
) -> Result<Option<Asked>, AllocError>
    ensures { IfOk result (λ asked. asked ≡ question_of version line.now) }
{
    if line == b"> ?".as_slice() {
        return Ok(Some(Asked::Nothing));
    }
    if !begins_with(line, b"> ") {
        return Ok(None);
    }
    read_one_command(alloc, version, &line[2..])
}

/// What the lines call for behind a line of a head.
pub(crate) fn head_place(place: Place, line: &[u8]) -> Option<Place>
    ensures { result ≡ head_place place line.now }
{
    match place {
        Place::Start => Some(Place::Network(read_version(line)?)),
        Place::Network(version) => {
            let (events, _) = read_network(line)?;
            Some(Place::Kind(version, events))
        }
        Place::Kind(version, events) => kind_place(version, events, line),
        Place::Own(version, events, id, count) => {
            if id < count && is_own_line(id, line) {
                Some(own_place(version, events, id + 1, count))
            } else {
                None
            }
        }
        Place::Lag(version, events, least) => lag_place(version, events, least, line),
        Place::Question(_) => None,
        Place::Reply(_) => None,
    }
}
