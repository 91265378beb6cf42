//! The command that a line spells.

ghost use Rattle.std.specs.Prelude.{◌≡◌};
ghost use Rattle.std.specs.Option.{option_copied};
ghost use Rattle.tp_script.specs.Words.{words_of};
ghost use Rattle.tp_script.specs.Commands.{event_of, moment_of, point_of, weight_of, the_only, bound_spelled, pair_spelled, command_of};

use crate::words::{next_word, read_number};
use tp_bounds::{Bound, BoundId, Point};
use tp_exec_machine::Command;

/// An event number of at most 65,535, of one to ten digits.
pub fn read_event(word: &[u8]) -> Option<u16>
    ensures { result ≡ event_of word.now }
{
    let number = read_number(word)?;
    if number <= 65_535 {
        Some(number as u16)
    } else {
        None
    }
}

/// A moment or an identifier of at most 4,294,967,295, of one to ten digits.
pub fn read_moment(word: &[u8]) -> Option<u32>
    ensures { result ≡ moment_of word.now }
{
    let number = read_number(word)?;
    if number <= 4_294_967_295 {
        Some(number as u32)
    } else {
        None
    }
}

/// An event, or the origin.
fn read_point(word: &[u8]) -> Option<Point>
    ensures { result ≡ point_of word.now }
{
    if word == b"o".as_slice() {
        Some(Point::Origin)
    } else {
        Some(Point::Event(read_event(word)?))
    }
}

/// A weight, which may begin with a minus.
fn read_weight(word: &[u8]) -> Option<i64>
    ensures { result ≡ weight_of word.now }
{
    match word {
        [] => None,
        [b'-', digits @ ..] => Some(-(read_number(digits)? as i64)),
        _ => Some(read_number(word)? as i64),
    }
}

/// The only word of a line.
fn only_word(line: &[u8]) -> Option<&[u8]>
    ensures { option_copied result ≡ the_only (words_of line.now) }
{
    let (word, rest) = next_word(line);
    let (more, _) = next_word(rest);
    if word.is_empty() || !more.is_empty() {
        None
    } else {
        Some(word)
    }
}

/// The bound that three words spell.
fn read_bound(line: &[u8]) -> Option<Bound>
    ensures { result ≡ bound_spelled (words_of line.now) }
{
    let (from, rest) = next_word(line);
    let (to, rest) = next_word(rest);
    let (w, rest) = next_word(rest);
    let (more, _) = next_word(rest);
    if from.is_empty() || to.is_empty() || w.is_empty() || !more.is_empty() {
        return None;
    }
    Some(Bound {
        from: read_point(from)?,
        to: read_point(to)?,
        w: read_weight(w)?,
    })
}

/// The event and the moment, or the number of ticks, that two words spell.
pub(crate) fn read_pair(line: &[u8]) -> Option<(u16, u32)>
    ensures { result ≡ pair_spelled (words_of line.now) }
{
    let (event, rest) = next_word(line);
    let (moment, rest) = next_word(rest);
    let (more, _) = next_word(rest);
    if event.is_empty() || moment.is_empty() || !more.is_empty() {
        return None;
    }
    Some((read_event(event)?, read_moment(moment)?))
}

/// The command that a line spells.
pub fn read_command(line: &[u8]) -> Option<Command>
    ensures { result ≡ command_of line.now }
{
    let (name, rest) = next_word(line);
    if name == b"advance".as_slice() {
        Some(Command::Advance(read_moment(only_word(rest)?)?))
    } else if name == b"add".as_slice() {
        Some(Command::Add(read_bound(rest)?))
    } else if name == b"withdraw".as_slice() {
        Some(Command::Withdraw(BoundId(read_moment(only_word(rest)?)?)))
    } else if name == b"window".as_slice() {
        Some(Command::Window(read_event(only_word(rest)?)?))
    } else if name == b"dispatch".as_slice() {
        Some(Command::Dispatch(read_event(only_word(rest)?)?))
    } else if name == b"happened".as_slice() {
        let (event, moment) = read_pair(rest)?;
        Some(Command::Happened(event, moment))
    } else if name == b"report".as_slice() {
        let (more, _) = next_word(rest);
        if more.is_empty() {
            Some(Command::Report)
        } else {
            None
        }
    } else {
        None
    }
}
