//! Calls of the program over files, readers and writers in memory: what a call writes and its exit
//! status, row by row.

ghost use Rattle.std.specs.Prelude.{◌≡◌, None};

mod rows;

use crate::memory::{CountedLogs, Sheet};
use rows::{CALLS, FAULTS, GATE, OPEN_GATE, Row};
use std::alloc::{AllocError, Global};
use tp_cli::{Desk, run_words};
use tp_cli_files::Files;
use tp_device::{Failed, Source, Tally};

/// A file in memory that is read.
#[derive(Drop)]
struct Page<'a> {
    left: &'a [u8],
    failures: Tally,
}

impl<'a> Page<'a> {
    fn new(text: &'a str) -> Self
        ensures failures { result.failures.count ≡ 0 }
    {
        Page {
            left: text.as_bytes(),
            failures: Tally::new(),
        }
    }
}

impl Source for Page<'_> {
    ghost left = { λ _. None };

    ghost failures = { λ p. p.failures.count };

    fn pull(&mut self, buffer: &mut [u8]) -> Result<usize, Failed> {
        let count = self.left.len().min(buffer.len());
        let (first, rest) = self.left.split_at(count);
        buffer[..count].copy_from_slice(first);
        self.left = rest;
        Ok(count)
    }
}

/// Files in memory under their names.
#[derive(Drop)]
struct Shelf<'a> {
    texts: &'a [(&'a str, &'a str)],
    failures: Tally,
}

impl<'a> Files for Shelf<'a> {
    type Input = Page<'a>;

    ghost held = { λ _ _. None };

    ghost failures = { λ s. s.failures.count };

    fn open(&mut self, name: &str) -> Result<Page<'a>, Failed> {
        for (file, text) in self.texts {
            if *file == name {
                return Ok(Page::new(text));
            }
        }
        self.failures.tick();
        Err(Failed)
    }

    fn close(&mut self, input: Page<'a>) {
        self.failures.add(&input.failures);
    }
}

/// The words of a call, between blanks.
fn words_of(alloc: Global, call: &str) -> Result<Vec<String>, AllocError> {
    let mut words = Vec::new(alloc);
    for word in call.split_whitespace() {
        words.push(String::from_str(alloc, word)?)?;
    }
    Ok(words)
}

/// Whether a text is as told. What stands behind a fault line of refused arguments is left open.
fn is_as_told(text: &[u8], told: &str) -> bool {
    if told.ends_with('\n') || told.is_empty() {
        text == told.as_bytes()
    } else {
        text.starts_with(told.as_bytes())
    }
}

/// What comes of a call: its exit status, and what it writes to its output and to its faults.
type Outcome = (u8, Vec<u8>, Vec<u8>);

/// What comes of a call with these files and this input.
fn outcome(
    alloc: Global,
    call: &str,
    texts: &[(&str, &str)],
    given: &str,
) -> Result<Outcome, AllocError> {
    let words = words_of(alloc, call)?;
    let mut desk = Desk {
        shelf: Shelf {
            texts,
            failures: Tally::new(),
        },
        logs: CountedLogs::new(alloc, None),
        board: Vec::new(alloc),
    };
    let mut input = Page::new(given);
    let mut output = Sheet::new(alloc, usize::MAX);
    let mut faults = Sheet::new(alloc, usize::MAX);
    let status = run_words(
        alloc,
        words.as_slice(),
        &mut desk,
        &mut input,
        &mut output,
        &mut faults,
    );
    Ok((status, output.into_text(), faults.into_text()))
}

/// Whether a call comes to what its row tells.
fn comes_to(alloc: Global, row: Row) -> bool {
    let (call, texts, given, status, answers, fault) = row;
    match outcome(alloc, call, texts, given) {
        Ok((ended, output, faults)) => {
            ended == status
                && is_as_told(output.as_slice(), answers)
                && is_as_told(faults.as_slice(), fault)
        }
        Err(_) => false,
    }
}

#[test]
fn calls_come_to_what_is_told(rt: HostRuntime) {
    for row in CALLS {
        assert!(rt; comes_to(rt.alloc(), row), "{}", row.0);
    }
}

#[test]
fn faults_are_told_in_one_line(rt: HostRuntime) {
    for row in FAULTS {
        assert!(rt; comes_to(rt.alloc(), row), "{}", row.5);
    }
}

/// So many looks through a gate, and then as often its key is taken.
fn looks_and_takes(alloc: Global, count: usize) -> Result<String, AllocError> {
    let mut plan = String::new(alloc);
    for step in ["0: (look)\n", "1: (take)\n"] {
        for _ in 0..count {
            plan.push_str(step)?;
        }
    }
    Ok(plan)
}

/// Each of 256 looks has a bound with each of 256 steps that end what it needs.
#[test]
fn a_network_of_too_many_bounds(rt: HostRuntime) -> Result<(), AllocError> {
    let plan = looks_and_takes(rt.alloc(), 256)?;
    let texts = [
        ("domain", GATE),
        ("problem", OPEN_GATE),
        ("plan", plan.as_str()),
    ];
    let (status, _, faults) = outcome(rt.alloc(), "net domain problem plan", &texts, "")?;
    assert_eq!(rt; status, 2);
    assert!(rt; faults.as_slice() == "fault net 2 too-many\n".as_bytes());
    Ok(())
}
