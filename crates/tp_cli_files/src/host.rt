//! The files of the host, and the words of its call.

ghost use Rattle.std.specs.Prelude.{◌≡◌, ◌+◌, ◌-◌, ◌^◌, ◌<◌, ◌≤◌, ◌++◌, None, true, min, length, take, drop, IfOk};
ghost use Rattle.std.specs.Io.{ReadsAtMost};
ghost use Rattle.std.specs.Io.KnownBytes.{ReadConsumes};
ghost use Rattle.tp_device.specs.Bytes.{failures_after};
ghost use Rattle.tp_cli_files.specs.Calls.{call_status, call_text};
ghost use Rattle.tp_cli_files.specs.FaultLines.{Tells, fault_text};
ghost use Rattle.tp_cli_files.specs.Texts.{ReadsKept};

use crate::fault_lines::{FaultLine, complain};
use crate::faults::Fault;
use crate::files::Files;
use std::alloc::{AllocError, AllocFailed, Global};
use std::cell::RefCell;
use std::io::{ErrorKind, Read};
use std::rt::{Env, Files as HostFileSystem};
use std::{env, fs, io};
use tp_device::{Failed, Sink, Source, Tally};

/// The name of the standard input among those of files.
pub const STANDARD_INPUT: &str = "-";

/// A file of the host that is read. Each pull is a read of the host's. What it has left is told by
/// a clause of `pull` and not by the source, since a file of the host tells nothing as it is
/// opened.
#[derive(Drop)]
pub struct HostFile<R: Read> {
    reader: R,
    failures: Tally,
}

impl<R: Read> HostFile<R> {
    /// What a reader has left.
    pub fn new(reader: R) -> Self
        ensures failures { result.failures.count ≡ 0 }
    {
        HostFile {
            reader,
            failures: Tally::new(),
        }
    }
}

impl<R: Read> Source for HostFile<R> {
    // It is not told for good: see `read` below.
    ghost left = { λ _. None };

    ghost failures = { λ s. s.failures.count };

    fn pull(&mut self, buffer: &mut [u8]) -> Result<usize, Failed>
        ensures within { IfOk result (λ n. n ≤ length buffer.old) }
        ensures bytes { ReadConsumes None None result buffer.new }
        ensures cause { self.new.failures.count ≡ failures_after self.old.failures.count result }
        // Each pull is a read.
        ensures read { ReadConsumes
            (R.remaining self.old.reader) (R.remaining self.new.reader) result buffer.new }
    {
        match self.reader.read(buffer) {
            Ok(count) => Ok(count),
            Err(_) => {
                self.failures.tick();
                Err(Failed)
            }
        }
    }
}

/// The standard input as a file of a call. What the first that opens it reads is kept, as far as
/// there is memory, so that it can be opened once more at its first byte.
#[derive(Drop)]
pub struct StandardInput<I> {
    reader: I,
    kept: Vec<u8>,
    opened: u8,
    whole: bool,
}

impl<I: Read> StandardInput<I> {
    /// What the reader has left.
    pub fn new(alloc: Global, reader: I) -> Self {
        StandardInput {
            reader,
            kept: Vec::new(alloc),
            opened: 0,
            whole: true,
        }
    }

    /// Whether it can be opened, and then counts that.
    fn open(&mut self) -> bool {
        let may = self.opened == 0 || (self.opened == 1 && self.whole);
        if may {
            self.opened += 1;
        }
        may
    }

    /// Reads what stands behind the first `at` bytes.
    fn read_from(&mut self, at: usize, buf: &mut [u8]) -> io::Result<usize>
        ensures bound { ReadsAtMost result buf.new }

        // Bytes that are kept are read again, and behind them the reader goes on.
        ensures again { at < length self.old.kept.items
            → ReadsKept (drop at self.old.kept.items) result buf.new }
        ensures same { at < length self.old.kept.items → self.new ≡ self.old }
        ensures read { length self.old.kept.items ≤ at → ReadConsumes
            (I.remaining self.old.reader) (I.remaining self.new.reader) result buf.new }

        // As far as there is memory, the first that opens it keeps what it reads.
        ensures kept { length self.old.kept.items ≤ at → self.old.opened ≡ 1
            → self.new.whole ≡ true → IfOk result
            (λ n. self.new.kept.items ≡ self.old.kept.items ++ take n buf.new) }
    {
        if at < self.kept.len() {
            let mut behind = &self.kept[at..];
            return behind.read(buf);
        }
        let count = self.reader.read(buf)?;
        if self.opened == 1 && self.whole {
            self.whole = self.kept.extend_from_slice(&buf[..count]).is_ok();
        }
        Ok(count)
    }
}

/// The standard input, opened as a file: `at` of its kept bytes were read.
#[derive(Drop)]
pub struct OpenInput<'i, I> {
    input: &'i RefCell<StandardInput<I>>,
    at: usize,
}

impl<I: Read> Read for OpenInput<'_, I> {
    fn read(&mut self, buf: &mut [u8]) -> io::Result<usize>
        ensures bound { ReadsAtMost result buf.new }
        ensures bytes { ReadConsumes None None result buf.new }
        // The next read goes on behind this one.
        ensures next { IfOk result (λ n. self.new.at ≡ min (self.old.at + n) (2 ^ 64 - 1)) }
    {
        let Ok(mut input) = self.input.try_borrow_mut() else {
            return Err(io::Error::from(ErrorKind::WouldBlock));
        };
        let count = input.read_from(self.at, buf)?;
        self.at = self.at.saturating_add(count);
        Ok(count)
    }
}

/// Where a file of a call is read from: under its path, or from the standard input.
#[derive(Drop)]
pub enum HostReader<'i, F, I> {
    File(F),
    Input(OpenInput<'i, I>),
}

impl<F: Read, I: Read> Read for HostReader<'_, F, I> {
    fn read(&mut self, buf: &mut [u8]) -> io::Result<usize> {
        match self {
            HostReader::File(file) => file.read(buf),
            HostReader::Input(input) => input.read(buf),
        }
    }
}

/// The files of the host, under their paths. The name `-` is that of the standard input.
#[derive(Drop)]
pub struct HostFiles<'r, 'i, R: HostFileSystem, I> {
    rt: &'r R,
    input: &'i RefCell<StandardInput<I>>,
    failures: Tally,
}

impl<'r, 'i, R: HostFileSystem, I: Read> HostFiles<'r, 'i, R, I> {
    /// The files that the runtime reaches, and the standard input.
    pub fn new(rt: &'r R, input: &'i RefCell<StandardInput<I>>) -> Self {
        HostFiles {
            rt,
            input,
            failures: Tally::new(),
        }
    }

    /// Opens the standard input, if it can be opened.
    fn open_input(&self) -> Option<HostReader<'i, R::File, I>> {
        let Ok(mut input) = self.input.try_borrow_mut() else {
            return None;
        };
        if !input.open() {
            return None;
        }
        Some(HostReader::Input(OpenInput {
            input: self.input,
            at: 0,
        }))
    }

    /// Opens what a name names, if it can be opened.
    fn reader(&self, name: &str) -> Option<HostReader<'i, R::File, I>> {
        if name == STANDARD_INPUT {
            return self.open_input();
        }
        match fs::open(self.rt, name) {
            Ok(file) => Some(HostReader::File(file)),
            Err(_) => None,
        }
    }
}

impl<'i, R: HostFileSystem, I: Read> Files for HostFiles<'_, 'i, R, I> {
    type Input = HostFile<HostReader<'i, R::File, I>>;

    ghost held = { λ _ _. None };

    ghost failures = { λ s. s.failures.count };

    fn open(&mut self, name: &str) -> Result<Self::Input, Failed> {
        match self.reader(name) {
            Some(reader) => Ok(HostFile::new(reader)),
            None => {
                self.failures.tick();
                Err(Failed)
            }
        }
    }

    fn close(&mut self, input: Self::Input) {
        self.failures.add(&input.failures);
    }
}

/// All words but the first.
fn without_first(words: Vec<String>) -> Vec<String>
    ensures { result.items ≡ drop 1 words.items }
{
    let mut words = words;
    if !words.is_empty() {
        let _name = words.remove(0);
    }
    words
}

/// Why the words of a call were not taken.
#[derive(Clone, Copy, Debug, PartialEq, Eq)]
pub enum CallFault {
    /// Out of memory.
    Memory,
    /// One of them is no text.
    NotText,
}

impl From<AllocError> for CallFault {
    ghost use Rattle.tp_cli_files.specs.declared.host.CallFault.TheVariants.{Memory};

    ghost from_gives = { λ _ e. e ≡ Memory };

    fn from(_e: AllocError) -> CallFault {
        CallFault::Memory
    }
}

impl<T: Drop> From<AllocFailed<T>> for CallFault {
    ghost use Rattle.tp_cli_files.specs.declared.host.CallFault.TheVariants.{Memory};

    ghost from_gives = { λ _ e. e ≡ Memory };

    fn from(_e: AllocFailed<T>) -> CallFault {
        CallFault::Memory
    }
}

/// What keeps the host from telling the words.
fn call_fault(kind: ErrorKind) -> CallFault {
    if kind == ErrorKind::InvalidData {
        CallFault::NotText
    } else {
        CallFault::Memory
    }
}

/// The words after the program's name. What the host's call holds is not told. The cost grows with
/// the bytes of the words.
pub fn words_of_call<R: Env + AllocGlobal>(rt: &R) -> Result<Vec<String>, CallFault> {
    let mut words = Vec::new(rt.alloc());
    match env::args(rt) {
        Ok(given) => {
            for word in given {
                words.push(word)?;
            }
            Ok(without_first(words))
        }
        Err(error) => Err(call_fault(error.kind())),
    }
}

/// The line of words that were not taken.
fn line_of_call(why: CallFault) -> FaultLine<'static>
    ensures status { result.status ≡ call_status why }
    ensures text { fault_text result ≡ call_text why }
{
    match why {
        CallFault::Memory => Fault::ArgumentsMemory.line(),
        CallFault::NotText => Fault::ArgumentsWords.line(),
    }
}

/// Writes why the words were not taken. Answers the exit status: 2 where one of them is no text,
/// and 3 where memory was refused.
pub fn refuse_call<F: Sink>(why: CallFault, faults: &mut F) -> u8
    ensures status { result ≡ call_status why }
    ensures told { Tells (call_text why) (F.failures faults.old) (F.held faults.old)
        (F.failures faults.new) (F.held faults.new) }
{
    complain(faults, line_of_call(why))
}
