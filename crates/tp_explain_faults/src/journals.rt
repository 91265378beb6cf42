//! Lines that are no journal's.

use std::alloc::{AllocError, Global};
use std::fmt;
use tp_cli_files::Files;
use tp_device::Source as Reader;
use tp_explain_text::{Page, put, put_mark_of_line};
use tp_script::{next_word, read_number};

/// The most bytes of a line of a journal.
const LONGEST: usize = 16_384;

/// A line that was kept: its number, its first bytes, and whether it ends within as many as it may
/// have.
#[derive(Drop)]
pub struct KeptLine {
    pub number: u64,
    pub bytes: Vec<u8>,
    pub is_long: bool,
    pub is_ended: bool,
}

/// Lines that are taken byte by byte, of which some are kept.
#[derive(Drop)]
struct Keeper {
    alloc: Global,
    kept: Vec<KeptLine>,
    number: u64,
    is_kept: bool,
}

/// Whether a line is to be kept: one of the first three, one of a number, or the one before it.
fn is_wanted(number: u64, wanted: u64) -> bool {
    number <= 3 || number == wanted || number.saturating_add(1) == wanted
}

impl Keeper {
    /// Begins the next line with its first byte.
    fn begin(&mut self, wanted: u64) -> Result<(), AllocError> {
        self.number = self.number.saturating_add(1);
        self.is_kept = is_wanted(self.number, wanted);
        if self.is_kept {
            let bytes = Vec::new(self.alloc);
            self.kept.push(KeptLine {
                number: self.number,
                bytes,
                is_long: false,
                is_ended: false,
            })?;
        }
        Ok(())
    }

    /// Takes a byte of a line.
    fn take(&mut self, byte: u8) -> Result<(), AllocError> {
        if !self.is_kept {
            return Ok(());
        }
        let Some(line) = self.kept.last_mut() else {
            return Ok(());
        };
        if byte == b'\n' {
            line.is_ended = true;
        } else if line.bytes.len() < LONGEST {
            line.bytes.push(byte)?;
        } else {
            line.is_long = true;
        }
        Ok(())
    }

    /// Takes bytes. Answers whether they end inside a line.
    fn take_all(&mut self, bytes: &[u8], wanted: u64, inside: bool) -> Result<bool, AllocError> {
        let mut inside = inside;
        for byte in bytes {
            if !inside {
                self.begin(wanted)?;
            }
            self.take(*byte)?;
            inside = *byte != b'\n';
        }
        Ok(inside)
    }

    /// Takes what a source gives, up to the line that is wanted.
    fn take_source<S: Reader>(&mut self, source: &mut S, wanted: u64) -> Result<(), AllocError> {
        let mut chunk = [0; 4096];
        let mut inside = false;
        for _ in 0..2_097_152u32 {
            let count = source.pull(&mut chunk).unwrap_or(0);
            if count == 0 || self.number > wanted {
                break;
            }
            inside = self.take_all(chunk.get(..count).unwrap_or(&[]), wanted, inside)?;
        }
        Ok(())
    }
}

/// The first three lines of the file of a name, the one of a number and the one before it, as far
/// as they are there.
pub fn keep_lines<N: Files>(
    alloc: Global,
    files: &mut N,
    name: &str,
    wanted: u64,
) -> Result<Vec<KeptLine>, AllocError> {
    let mut keeper = Keeper {
        alloc,
        kept: Vec::new(alloc),
        number: 0,
        is_kept: false,
    };
    if let Ok(source) = files.open(name) {
        let mut source = source;
        keeper.take_source(&mut source, wanted)?;
    }
    let Keeper { kept, .. } = keeper;
    Ok(kept)
}

/// A line that was kept, by its number.
pub fn kept_line(lines: &[KeptLine], number: u64) -> Option<&KeptLine> {
    lines.iter().find(|line| line.number == number)
}

/// How many own bounds a head tells of, by its third line.
fn own_bounds(lines: &[KeptLine]) -> u64 {
    let Some(line) = kept_line(lines, 3) else {
        return 0;
    };
    let (word, behind) = next_word(line.bytes.as_slice());
    if word != b"own".as_slice() {
        return 0;
    }
    read_number(next_word(behind).0).unwrap_or(0)
}

/// What is wanted on a line.
fn wanted_form(lines: &[KeptLine], number: u64) -> &'static str {
    match number {
        1 => return "`journal 2`",
        2 => return "`network N H`",
        3 => return "`bare` or `own K`",
        _ => {}
    }
    if number <= own_bounds(lines).saturating_add(3) {
        return "`bound ID F T W`";
    }
    let before = kept_line(lines, number.saturating_sub(1));
    match before.map_or(&[][..], |line| line.bytes.as_slice()) {
        [b'>', ..] => "an answer, `< ..`",
        [b'<', ..] => "a command, `> ..`",
        _ => "`lag E L` or a command, `> ..`",
    }
}

/// At most 60 characters of a line; those past ASCII are `?`.
#[derive(Clone, Copy)]
struct Ascii<'l>(&'l [u8]);

impl fmt::Display for Ascii<'_> {
    fn fmt<W: fmt::Write>(&self, f: &mut fmt::Formatter<W>) -> fmt::Result {
        for byte in self.0.iter().take(60) {
            let is_shown = b' ' <= *byte && *byte <= b'~';
            write!(f, "{}", if is_shown { char::from(*byte) } else { '?' })?;
        }
        write!(f, "{}", if self.0.len() > 60 { "..." } else { "" })
    }
}

/// A word up to a parenthesis, a bracket or a semicolon in it, unless it begins with one.
fn word_of(word: &[u8]) -> &[u8] {
    let ends = |byte: &u8| matches!(*byte, b'(' | b')' | b'[' | b']' | b';');
    let end = word.iter().skip(1).position(ends);
    end.and_then(|end| word.get(..=end)).unwrap_or(word)
}

/// Puts what was wanted on a line, and what was found: its first word, or all of it where that is a
/// sign of what is wanted.
fn put_found(page: &mut Page, wanted: &str, line: Option<&KeptLine>) {
    let Some(line) = line else {
        put!(page; "expected {wanted}, found the end of the file\n");
        return;
    };
    let bytes = line.bytes.as_slice();
    match next_word(bytes).0 {
        [] => put!(page; "expected {wanted}, found an empty line\n"),
        [b'>' | b'<'] => put!(page; "expected {wanted}, found `{}`\n", Ascii(bytes)),
        word => put!(page; "expected {wanted}, found `{}`\n", Ascii(word_of(word))),
    }
}

/// Puts the command to which an answer is missing. Answers whether one is.
fn put_command(page: &mut Page, lines: &[KeptLine], number: u64) -> bool {
    let before = number.saturating_sub(1);
    let line = kept_line(lines, before).map_or(&[][..], |line| line.bytes.as_slice());
    let [b'>', b' ', command @ ..] = line else {
        return false;
    };
    put!(page; "note: line {before} is the command `{}`\n", Ascii(command));
    true
}

/// Puts what is wrong with a line of a journal: it is too long, does not end, or is none.
pub fn put_journal_line(page: &mut Page, name: &str, lines: &[KeptLine], number: u64) {
    let line = kept_line(lines, number);
    put!(page; "{name}:{number}:1: error: ");
    let is_long = line.map_or(false, |line| line.is_long);
    let is_open = line.map_or(false, |line| !line.is_ended);
    if is_long {
        page.put("the line has more than 16384 bytes\n");
    } else if is_open {
        page.put("the line does not end\n");
    } else {
        put_found(page, wanted_form(lines, number), line);
    }
    if let Some(line) = line {
        put_mark_of_line(page, line.bytes.as_slice(), 0);
    }
    let is_missing = line.is_none() && put_command(page, lines, number);
    if is_missing || (is_open && !is_long) {
        page.put("help: after a crash, cut the journal behind its last whole pair\n");
    } else {
        put!(page; "help: see that {name} is a journal\n");
    }
}
