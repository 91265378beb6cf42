//! The writing of a journal: lines of commands are answered, and each answer has its pair in the
//! log before it goes out.

ghost use Rattle.std.specs.Prelude.{◌≡◌, ◌≤◌, ◌<◌, [], ◌∷◌, ◌++◌, None, Some, IfOk, length, codes, decimal, map};
ghost use Rattle.tp_device.specs.Bytes.{Writes, failures_after};
ghost use Rattle.tp_script.specs.Reading.{SameLimits};
ghost use Rattle.tp_script.specs.Serving.{commands_of};
ghost use Rattle.tp_script.specs.Transcript.{line_of, refused_line};
ghost use Rattle.tp_script.specs.Written.{command_line};
ghost use Rattle.tp_journal_pairs.specs.Journal.{head_of, head_lines, kind_lines, own_lines, bounds_from, lag_line, lags_of, own_of, text_of};
ghost use Rattle.tp_journal_pairs.specs.Writing.{HeadIsOne, IsNewExecutive, AllAreInForce, pairs_text, SaysAll, EntersCommand, EntersLine, Turns, Journals, read_failures, write_failures, log_failures};

use crate::faults::JournalFault;
use crate::gathered::Gathered;
use tp_bounds::BoundId;
use tp_device::{Failed, Sink, Source, push_all};
use tp_exec_machine::{Answer, Command, Executive, Kind, perform};
use tp_net::Net;
use tp_script::{
    LineFault, Lines, Next, Served, next_word, read_command, write_answer, write_bound,
    write_command, write_numbered, write_two_numbers,
};

/// Writes the first two lines of a head.
fn write_start<V: Sink>(log: &mut V, events: u16, horizon: u32) -> Result<(), Failed>
    ensures bytes { Writes (V.held log.old) (V.held log.new) (codes "journal 2" ++ 10 ∷
        (codes "network " ++ decimal events ++ codes " " ++ decimal horizon ++ codes "\n")) result }
    ensures cause { V.failures log.new ≡ failures_after (V.failures log.old) result }
{
    push_all(log, b"journal 2\n")?;
    write_two_numbers(log, b"network ", u32::from(events), horizon)
}

/// Writes the lines of the bounds of a plan.
fn write_own_bounds<N: Net, V: Sink>(log: &mut V, executive: &Executive<N>) -> Result<(), Failed>
    requires { AllAreInForce executive.now }
    ensures bytes { Writes (V.held log.old) (V.held log.new) (text_of
        (own_lines 0 (bounds_from executive.now.setting.bounds 0 executive.now.next))) result }
    ensures cause { V.failures log.new ≡ failures_after (V.failures log.old) result }
{
    for id in 0..executive.next() {
        if let Some(bound) = executive.net().bound(BoundId(id)) {
            write_bound(log, BoundId(id), bound)?;
        }
    }
    Ok(())
}

/// Writes the lines of a network that came from a plan.
fn write_own<N: Net, V: Sink>(log: &mut V, executive: &Executive<N>) -> Result<(), Failed>
    requires { AllAreInForce executive.now }
    ensures bytes { Writes (V.held log.old) (V.held log.new) (text_of (kind_lines
        (Some (bounds_from executive.now.setting.bounds 0 executive.now.next)))) result }
    ensures cause { V.failures log.new ≡ failures_after (V.failures log.old) result }
{
    write_numbered(log, b"own ", executive.next())?;
    write_own_bounds(log, executive)
}

/// Writes the lines that say where the bounds come from.
fn write_kind<N: Net, V: Sink>(log: &mut V, executive: &Executive<N>) -> Result<(), Failed>
    requires { AllAreInForce executive.now }
    ensures bytes { Writes (V.held log.old) (V.held log.new)
        (text_of (kind_lines (own_of executive.now))) result }
    ensures cause { V.failures log.new ≡ failures_after (V.failures log.old) result }
{
    match executive.kind() {
        Kind::Bare => push_all(log, b"bare\n"),
        Kind::Kept | Kind::Altered => write_own(log, executive),
    }
}

/// Writes the lines of the lags that are not 0.
fn write_lags<N: Net, V: Sink>(log: &mut V, executive: &Executive<N>) -> Result<(), Failed>
    ensures bytes { Writes (V.held log.old) (V.held log.new)
        (text_of (map lag_line (lags_of executive.now))) result }
    ensures cause { V.failures log.new ≡ failures_after (V.failures log.old) result }
{
    let net = executive.net();
    for e in 0..net.events() {
        let lag = net.lag(e);
        if lag != 0 {
            write_two_numbers(log, b"lag ", u32::from(e), lag)?;
        }
    }
    Ok(())
}

/// Writes the head of an executive.
pub(crate) fn write_head<N: Net, V: Sink>(
    log: &mut V,
    executive: &Executive<N>,
) -> Result<(), Failed>
    requires { AllAreInForce executive.now }
    ensures bytes { Writes (V.held log.old) (V.held log.new)
        (text_of (head_lines (head_of 2 executive.now))) result }
    ensures cause { V.failures log.new ≡ failures_after (V.failures log.old) result }
{
    write_start(log, executive.net().events(), executive.net().horizon())?;
    write_kind(log, executive)?;
    write_lags(log, executive)
}

/// Writes the line of a question.
fn write_question<V: Sink>(log: &mut V, command: &Command) -> Result<(), Failed>
    ensures bytes { Writes (V.held log.old) (V.held log.new)
        (codes "> " ++ command_line command.now) result }
    ensures cause { V.failures log.new ≡ failures_after (V.failures log.old) result }
{
    push_all(log, b"> ")?;
    write_command(log, command)
}

/// Writes the line of a reply.
fn write_reply<V: Sink>(log: &mut V, answer: &Answer) -> Result<(), Failed>
    ensures bytes { Writes (V.held log.old) (V.held log.new)
        (codes "< " ++ line_of answer.now) result }
    ensures cause { V.failures log.new ≡ failures_after (V.failures log.old) result }
{
    push_all(log, b"< ")?;
    write_answer(log, answer)
}

/// Writes the pair of a command.
fn write_pair<V: Sink>(log: &mut V, command: &Command, answer: &Answer) -> Result<(), Failed>
    ensures bytes { Writes (V.held log.old) (V.held log.new)
        (pairs_text (Some (command.now, answer.now) ∷ [])) result }
    ensures cause { V.failures log.new ≡ failures_after (V.failures log.old) result }
{
    write_question(log, command)?;
    write_reply(log, answer)
}

/// Writes the pair of a command, in as few pushes as the log wants for its bytes: they are gathered
/// first. What is too long for that goes out piece by piece.
fn write_pair_whole<V: Sink>(log: &mut V, command: &Command, answer: &Answer) -> Result<(), Failed>
    ensures bytes { Writes (V.held log.old) (V.held log.new)
        (pairs_text (Some (command.now, answer.now) ∷ [])) result }
    ensures cause { V.failures log.new ≡ failures_after (V.failures log.old) result }
{
    let mut gathered = Gathered::new();
    match write_pair(&mut gathered, command, answer) {
        Ok(()) => push_all(log, gathered.as_slice()),
        Err(_) => write_pair(log, command, answer),
    }
}

/// Carries a command out, writes its pair, and then its answer.
fn enter_command<N: Net, W: Sink, V: Sink>(
    executive: &mut Executive<N>,
    command: Command,
    answers: &mut W,
    log: &mut V,
) -> Result<(), JournalFault>
    ensures enters { EntersCommand executive.old executive.new command (W.held answers.old)
        (W.held answers.new) (V.held log.old) (V.held log.new) result }
    ensures write { W.failures answers.new ≡ write_failures (W.failures answers.old) result }
    ensures log { V.failures log.new ≡ log_failures (V.failures log.old) result }
{
    let answer = perform(executive, command);
    if write_pair_whole(log, &command, &answer).is_err() {
        return Err(JournalFault::Log);
    }
    match write_answer(answers, &answer) {
        Ok(()) => Ok(()),
        Err(_) => Err(JournalFault::Write),
    }
}

/// Writes the pair of a line that is no command, and then its answer.
fn refuse_line<W: Sink, V: Sink>(answers: &mut W, log: &mut V) -> Result<(), JournalFault>
    ensures says { SaysAll (None ∷ []) refused_line (W.held answers.old) (W.held answers.new)
        (V.held log.old) (V.held log.new) result }
    ensures write { W.failures answers.new ≡ write_failures (W.failures answers.old) result }
    ensures log { V.failures log.new ≡ log_failures (V.failures log.old) result }
{
    if push_all(log, b"> ?\n< refused line\n").is_err() {
        return Err(JournalFault::Log);
    }
    match push_all(answers, b"refused line\n") {
        Ok(()) => Ok(()),
        Err(_) => Err(JournalFault::Write),
    }
}

/// Enters a line, and says how many commands it was.
fn enter_line<N: Net, W: Sink, V: Sink>(
    executive: &mut Executive<N>,
    line: &[u8],
    answers: &mut W,
    log: &mut V,
) -> Result<u64, JournalFault>
    requires { length line.now ≤ 256 }
    ensures enters { EntersLine executive.old executive.new line.now (W.held answers.old)
        (W.held answers.new) (V.held log.old) (V.held log.new) result }
    ensures command { IfOk result (λ n. n ≡ commands_of line.now) }
    ensures write { W.failures answers.new ≡ write_failures (W.failures answers.old) result }
    ensures log { V.failures log.new ≡ log_failures (V.failures log.old) result }
{
    if let Some(command) = read_command(line) {
        return match enter_command(executive, command, answers, log) {
            Ok(()) => Ok(1),
            Err(fault) => Err(fault),
        };
    }
    let (word, _) = next_word(line);
    if word.is_empty() {
        return Ok(0);
    }
    match refuse_line(answers, log) {
        Ok(()) => Ok(0),
        Err(fault) => Err(fault),
    }
}

/// What one turn did.
#[derive(Clone, Copy)]
pub(crate) enum Turn {
    Answered(u64),
    Over,
}

/// Reads a line and enters it.
pub(crate) fn take_turn<N: Net, R: Source, W: Sink, V: Sink>(
    executive: &mut Executive<N>,
    lines: &mut Lines<'_, R>,
    answers: &mut W,
    log: &mut V,
) -> Result<Turn, JournalFault>
    requires { lines.old.longest ≡ 256 }
    ensures turns { Turns executive.old executive.new lines.old lines.new (W.held answers.old)
        (W.held answers.new) (V.held log.old) (V.held log.new) result }
    ensures limits { SameLimits lines.old lines.new }
    ensures read { lines.new.failures ≡ read_failures lines.old.failures result }
    ensures write { W.failures answers.new ≡ write_failures (W.failures answers.old) result }
    ensures log { V.failures log.new ≡ log_failures (V.failures log.old) result }
{
    match lines.next_line() {
        Err(LineFault::Read) => Err(JournalFault::Read),
        Err(LineFault::TooLong) => Err(JournalFault::TooLong),
        Ok(Next::End) => Ok(Turn::Over),
        Ok(Next::Long) => match refuse_line(answers, log) {
            Ok(()) => Ok(Turn::Answered(0)),
            Err(fault) => Err(fault),
        },
        Ok(Next::Line) => match enter_line(executive, lines.line(), answers, log) {
            Ok(n) => Ok(Turn::Answered(n)),
            Err(fault) => Err(fault),
        },
    }
}

/// Answers all lines, as `serve` does, and writes their journal to the log: the head, then for each
/// line that has an answer its pair, which goes to the log before the answer goes out. After a
/// fault the executive is as after the lines that were read whole. Beside what the commands cost it
/// writes each answer twice, and takes no memory.
///
/// # Errors `Read` where the reader fails, `Write` where `answers` does, `Log` where `log` does;
/// `TooLong` where the reader has more bytes than the lines may take, 2^32 unless they were made
/// with another limit.
pub fn journal<N: Net, R: Source, W: Sink, V: Sink>(
    executive: &mut Executive<N>,
    lines: &mut Lines<'_, R>,
    answers: &mut W,
    log: &mut V,
) -> Result<Served, JournalFault>
    requires longest { lines.old.longest ≡ 256 }
    requires new { IsNewExecutive executive.old }
    ensures journals { Journals executive.old executive.new lines.old lines.new (W.held answers.old)
        (W.held answers.new) (V.held log.old) (V.held log.new) result }
    ensures head { HeadIsOne executive.old }
    ensures longest { lines.new.longest ≡ lines.old.longest }
    ensures most { lines.new.most ≡ lines.old.most }
    ensures source { lines.new.source ≡ lines.old.source }
    ensures read { lines.new.failures ≡ read_failures lines.old.failures result }
    ensures write { W.failures answers.new ≡ write_failures (W.failures answers.old) result }
    ensures log { V.failures log.new ≡ log_failures (V.failures log.old) result }
{
    let _count = executive.net().events();
    if write_head(log, executive).is_err() {
        return Err(JournalFault::Log);
    }
    let mut commands = 0u64;
    loop {
        match take_turn(executive, lines, answers, log) {
            Ok(Turn::Answered(n)) => commands += n,
            Ok(Turn::Over) => return Ok(Served { commands }),
            Err(fault) => return Err(fault),
        }
    }
}
