//! The lines of faults, and how they are written.

ghost use Rattle.std.specs.Prelude.{◌≡◌, [], ◌++◌, codes, decimal};
ghost use Rattle.tp_device.specs.Bytes.{Writes, failures_after};
ghost use Rattle.tp_cli_files.specs.FaultLines.{Tells, TellsFault, detail_text, fault_text, head_text, line_of, line_with};
ghost use Rattle.tp_cli_files.specs.Faults.{row};
ghost use Rattle.tp_cli_files.specs.FileFaults.{file_status, file_text};

use crate::faults::{Fault, Part};
use crate::files::FileFault;
use itoa::Buffer;
use tp_device::{Failed, Sink, push_all};

/// What stands behind the number and the word of a fault.
#[derive(Clone, Copy)]
pub enum Detail<'w> {
    Nothing,
    Number(u32),
    Line(usize),
    Construct(u32, &'static str),
    Name(&'w str),
}

/// The line `fault PART NUMBER WORD ..`, and the exit status that goes with it.
#[derive(Clone, Copy)]
pub struct FaultLine<'w> {
    pub part: &'static str,
    pub words: &'static str,
    pub detail: Detail<'w>,
    pub status: u8,
}

impl Fault {
    /// Its line, with nothing behind.
    pub fn line(self) -> FaultLine<'static>
        ensures status { result.status ≡ (row self).status }
        ensures text { fault_text result ≡ line_of self }
    {
        self.with(Detail::Nothing)
    }

    /// Its line, with this behind.
    pub fn with<'w>(self, detail: Detail<'w>) -> FaultLine<'w>
        ensures status { result.status ≡ (row self).status }
        ensures text { fault_text result ≡ line_with self (detail_text detail.entry) }
    {
        let (part, words, status) = self.row();
        FaultLine {
            part,
            words,
            detail,
            status,
        }
    }
}

impl<'w> FaultLine<'w> {
    /// The line of a file of that name that gave no text for a part of the input.
    pub fn of_file(part: Part, fault: FileFault, name: &'w str) -> Self
        ensures status { result.status ≡ file_status fault }
        ensures text { fault_text result ≡ file_text part fault name.entry.now }
    {
        match fault {
            FileFault::Memory => Fault::Memory(part).line(),
            FileFault::Read => Fault::FileRead.with(Detail::Name(name)),
            FileFault::Utf8 => Fault::FileUtf8.with(Detail::Name(name)),
            FileFault::TooLong => Fault::FileTooLong.with(Detail::Name(name)),
        }
    }

    /// Writes the part, the number and the word.
    fn write_head<F: Sink>(&self, faults: &mut F) -> Result<(), Failed>
        ensures bytes { Writes (F.held faults.old) (F.held faults.new) (head_text self.now) result }
        ensures cause { F.failures faults.new ≡ failures_after (F.failures faults.old) result }
    {
        push_both(faults, b"fault ", self.part)?;
        push_both(faults, b" ", self.words)
    }

    /// Writes what stands behind them.
    fn write_detail<F: Sink>(&self, faults: &mut F) -> Result<(), Failed>
        ensures bytes { Writes (F.held faults.old) (F.held faults.new)
            (detail_text self.now.detail) result }
        ensures cause { F.failures faults.new ≡ failures_after (F.failures faults.old) result }
    {
        match self.detail {
            Detail::Nothing => Ok(()),
            Detail::Number(n) => push_number(faults, n),
            Detail::Line(n) => push_both(faults, b" ", Buffer::new().format(n)),
            Detail::Construct(at, what) => push_construct(faults, at, what),
            Detail::Name(name) => push_both(faults, b" ", name),
        }
    }

    /// Writes what stands behind them, and ends the line.
    fn write_rest<F: Sink>(&self, faults: &mut F) -> Result<(), Failed>
        ensures bytes { Writes (F.held faults.old) (F.held faults.new)
            (detail_text self.now.detail ++ codes "\n") result }
        ensures cause { F.failures faults.new ≡ failures_after (F.failures faults.old) result }
    {
        self.write_detail(faults)?;
        push_all(faults, b"\n")
    }

    /// Writes the line.
    fn write<F: Sink>(&self, faults: &mut F) -> Result<(), Failed>
        ensures bytes { Writes (F.held faults.old) (F.held faults.new)
            (fault_text self.now) result }
        ensures cause { F.failures faults.new ≡ failures_after (F.failures faults.old) result }
    {
        self.write_head(faults)?;
        self.write_rest(faults)
    }

    /// Writes the line and a text behind it.
    fn write_more<F: Sink>(&self, faults: &mut F, more: &str) -> Result<(), Failed>
        ensures bytes { Writes (F.held faults.old) (F.held faults.new)
            (fault_text self.now ++ more.now) result }
        ensures cause { F.failures faults.new ≡ failures_after (F.failures faults.old) result }
    {
        self.write(faults)?;
        push_all(faults, more.as_bytes())
    }
}

/// Writes a text, and what stands before it.
fn push_both<F: Sink>(faults: &mut F, before: &[u8], text: &str) -> Result<(), Failed>
    ensures bytes { Writes (F.held faults.old) (F.held faults.new) (before.now ++ text.now) result }
    ensures cause { F.failures faults.new ≡ failures_after (F.failures faults.old) result }
{
    push_all(faults, before)?;
    push_all(faults, text.as_bytes())
}

/// Writes a number after a space.
fn push_number<F: Sink>(faults: &mut F, n: u32) -> Result<(), Failed>
    ensures bytes { Writes (F.held faults.old) (F.held faults.new) (codes " " ++ decimal n) result }
    ensures cause { F.failures faults.new ≡ failures_after (F.failures faults.old) result }
{
    push_both(faults, b" ", Buffer::new().format(n))
}

/// Writes a place and a word, each after a space.
fn push_construct<F: Sink>(faults: &mut F, at: u32, what: &str) -> Result<(), Failed>
    ensures bytes { Writes (F.held faults.old) (F.held faults.new)
        ((codes " " ++ decimal at) ++ (codes " " ++ what.now)) result }
    ensures cause { F.failures faults.new ≡ failures_after (F.failures faults.old) result }
{
    push_number(faults, at)?;
    push_both(faults, b" ", what)
}

/// Writes the line of a fault, and answers the exit status. If the line can't be written, the
/// status alone tells.
pub fn complain<F: Sink>(faults: &mut F, line: FaultLine<'_>) -> u8
    ensures status { result ≡ line.entry.status }
    ensures told { Tells (fault_text line.entry) (F.failures faults.old) (F.held faults.old)
        (F.failures faults.new) (F.held faults.new) }
    ensures fault { TellsFault [] (F.failures faults.old) (F.held faults.old)
        (F.failures faults.new) (F.held faults.new) }
{
    let _ = line.write(faults);
    line.status
}

/// Writes the line of a fault and a text behind it, and answers the exit status. If they can't be
/// written, the status alone tells.
pub fn complain_more<F: Sink>(faults: &mut F, line: FaultLine<'_>, more: &str) -> u8
    ensures status { result ≡ line.entry.status }
    ensures told { Tells (fault_text line.entry ++ more.now) (F.failures faults.old)
        (F.held faults.old) (F.failures faults.new) (F.held faults.new) }
{
    let _ = line.write_more(faults, more);
    line.status
}
