//! The run of a journal, carried out anew.

ghost use Rattle.std.specs.Prelude.{◌≡◌, ℕ};
ghost use Rattle.tp_cli_files.specs.Causes.{counted};
ghost use Rattle.tp_cli_draw.specs.Stops.{replay_unread};

use crate::picture::Refusals;
use std::alloc::{AllocError, Global};
use tp_device::Source;
use tp_exec_machine::{Answer, Command, Executive, Refusal, perform};
use tp_journal_pairs::begins_with;
use tp_net::Net;
use tp_repair::RepairNet;
use tp_script::{LineBuffers, LineFault, Lines, Next, read_command};

/// What a journal says beside the state to which its commands lead.
#[derive(Drop)]
pub(crate) struct Told {
    /// How many commands were answered.
    pub(crate) commands: u64,
    /// When each event was reported, if that was after it happened.
    pub(crate) reported: Vec<Option<u32>>,
    /// The commands that conflicts refused, by rising tick.
    pub(crate) refused: Vec<Refusals>,
}

/// Why a journal was not carried out: there is no memory, or it can't be read.
#[derive(Clone, Copy)]
pub(crate) enum ReplayStop {
    Memory,
    Read,
}

/// The last question of a journal, and the number of its line.
#[derive(Drop)]
struct Asked {
    line: u64,
    command: String,
}

/// Puts bytes of a journal, which are in ASCII, at the end of a text.
fn put_bytes(text: &mut String, bytes: &[u8]) -> Result<(), AllocError> {
    for b in bytes {
        text.push(char::from(*b))?;
    }
    Ok(())
}

/// What stands behind the first two bytes of a line.
fn behind_sign(line: &[u8]) -> &[u8] {
    match line {
        [_, _, rest @ ..] => rest,
        _ => &[],
    }
}

/// Notes that a conflict refused a command at a tick.
fn note_refusal(
    alloc: Global,
    refused: &mut Vec<Refusals>,
    at: u32,
    asked: &Asked,
    answer: &[u8],
) -> Result<(), AllocError> {
    let is_first = match refused.last() {
        Some(last) => last.at != at,
        None => true,
    };
    if is_first {
        let lines = String::new(alloc);
        refused.push(Refusals {
            at,
            count: 0,
            lines,
        })?;
    }
    let Some(last) = refused.last_mut() else {
        return Ok(());
    };
    last.count = last.count.saturating_add(1);
    write_refusal(&mut last.lines, asked, answer)
}

/// Writes the line of a refused command.
fn write_refusal(lines: &mut String, asked: &Asked, answer: &[u8]) -> Result<(), AllocError> {
    let number = asked.line;
    write!(lines, "\nline {number}: {}: ", asked.command)?;
    put_bytes(lines, answer)
}

/// Notes that an event is reported now, where it happened before.
fn note_report(told: &mut Told, command: Command, now: u32) {
    let Command::Happened(event, moment) = command else {
        return;
    };
    if moment < now {
        if let Some(reported) = told.reported.get_mut(usize::from(event)) {
            *reported = Some(now);
        }
    }
}

/// Carries out a command that was accepted.
fn carry_out(
    executive: &mut Executive<RepairNet>,
    told: &mut Told,
    command: Command,
) -> Result<(), ReplayStop>
    ensures { (n : ℕ) → counted replay_unread n result ≡ n }
{
    note_report(told, command, executive.net().now());
    match perform(executive, command) {
        Answer::Refused(Refusal::Memory) => Err(ReplayStop::Memory),
        _ => Ok(()),
    }
}

/// Takes the answer to a question.
fn take_answer(
    alloc: Global,
    executive: &mut Executive<RepairNet>,
    told: &mut Told,
    asked: &Asked,
    answer: &[u8],
) -> Result<(), ReplayStop>
    ensures { (n : ℕ) → counted replay_unread n result ≡ n }
{
    told.commands = told.commands.saturating_add(1);
    if begins_with(answer, b"refused conflict") {
        let now = executive.net().now();
        return match note_refusal(alloc, &mut told.refused, now, asked, answer) {
            Ok(()) => Ok(()),
            Err(_) => Err(ReplayStop::Memory),
        };
    }
    if begins_with(answer, b"refused") {
        return Ok(());
    }
    match read_command(asked.command.as_bytes()) {
        Some(command) => carry_out(executive, told, command),
        None => Ok(()),
    }
}

/// Takes a question.
fn take_question(
    alloc: Global,
    asked: &mut Asked,
    line: &[u8],
    number: u64,
) -> Result<(), ReplayStop>
    ensures { (n : ℕ) → counted replay_unread n result ≡ n }
{
    let mut command = String::new(alloc);
    match put_bytes(&mut command, behind_sign(line)) {
        Ok(()) => {
            asked.line = number;
            asked.command = command;
            Ok(())
        }
        Err(_) => Err(ReplayStop::Memory),
    }
}

/// Takes a line of a journal: those of its head say nothing here.
fn take_line(
    alloc: Global,
    executive: &mut Executive<RepairNet>,
    told: &mut Told,
    asked: &mut Asked,
    line: &[u8],
    number: u64,
) -> Result<(), ReplayStop>
    ensures { (n : ℕ) → counted replay_unread n result ≡ n }
{
    if begins_with(line, b"> ") {
        return take_question(alloc, asked, line, number);
    }
    if begins_with(line, b"< ") {
        return take_answer(alloc, executive, told, asked, behind_sign(line));
    }
    Ok(())
}

/// What is told before the first line, of a network of so many events.
fn told_first(alloc: Global, events: u16) -> Result<Told, AllocError> {
    let mut reported = Vec::new(alloc);
    for _ in 0..events {
        reported.push(None)?;
    }
    Ok(Told {
        commands: 0,
        reported,
        refused: Vec::new(alloc),
    })
}

/// Carries out what the lines of a journal say that was carried out. Answers what they say beside
/// that.
fn replay_lines<R: Source>(
    alloc: Global,
    executive: &mut Executive<RepairNet>,
    lines: &mut Lines<'_, R>,
    mut told: Told,
) -> Result<Told, ReplayStop>
    ensures opened { lines.new.failures ≡ counted replay_unread lines.old.failures result }
    ensures source { lines.new.source ≡ lines.old.source }
{
    let mut asked = Asked {
        line: 0,
        command: String::new(alloc),
    };
    for number in 1..u64::MAX {
        match lines.next_line() {
            Err(LineFault::Read) => return Err(ReplayStop::Read),
            // No journal is so long.
            Err(LineFault::TooLong) => return Ok(told),
            Ok(Next::End) => return Ok(told),
            Ok(_) => take_line(
                alloc,
                executive,
                &mut told,
                &mut asked,
                lines.line(),
                number,
            )?,
        }
    }
    Ok(told)
}

/// The longest line of a journal.
const LONGEST: usize = 16_384;

/// Carries out what the journal that a source has left says that was carried out, which was found
/// to be one of the executive. Answers what it says beside that.
pub(crate) fn replay<R: Source>(
    alloc: Global,
    executive: &mut Executive<RepairNet>,
    source: &mut R,
) -> Result<Told, ReplayStop>
    ensures { R.failures source.new ≡ counted replay_unread (R.failures source.old) result }
{
    let Ok(told) = told_first(alloc, executive.net().events()) else {
        return Err(ReplayStop::Memory);
    };
    match LineBuffers::new(alloc, LONGEST) {
        Ok(buffers) => {
            let mut lines = Lines::new(buffers, source);
            let replayed = replay_lines(alloc, executive, &mut lines, told);
            let _source = lines.into_source();
            replayed
        }
        Err(_) => Err(ReplayStop::Memory),
    }
}
