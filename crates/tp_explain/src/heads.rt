//! The head of a journal that is not that of the network of its call.

use crate::executives::plan_network;
use crate::taken::{LONGEST, Taken, next_of, shown};
use std::alloc::{AllocError, Global};
use tp_bounds::{BoundId, PlanNet};
use tp_cli_files::Files;
use tp_device::Sink;
use tp_explain_faults::Call;
use tp_explain_text::{Page, put, put_mark_of_line};
use tp_script::{LineBuffers, Lines, write_bound, write_numbered, write_two_numbers};

/// Puts the headline of a line of a head, and the line.
fn put_headline(page: &mut Page, call: &Call<'_>, number: u64, line: Option<&[u8]>, what: &str) {
    put!(page; "{}:{number}:1: error: {what}\n", call.log);
    if let Some(line) = line {
        put_mark_of_line(page, line, 0);
    }
}

/// Puts that a journal is of a plan's run, and no plan is named.
fn put_no_plan<N: Files>(
    page: &mut Page,
    files: &mut N,
    call: &Call<'_>,
) -> Result<(), AllocError> {
    let third = line_at(page.alloc(), files, call, 3)?;
    let line = third.as_ref().map(|bytes| bytes.as_slice());
    let is_own = line.map_or(false, |bytes| bytes.starts_with(b"own"));
    if is_own {
        let what = "the network of this journal came from a plan, and no plan is named";
        put_headline(page, call, 3, line, what);
        put!(page; "help: name its domain, problem and plan behind the journal\n");
    } else {
        put_headline(page, call, 2, None, "there is no network of this head");
        put!(page; "note: it has at most 1024 events, a horizon and lags of at most 1000000000\n");
    }
    Ok(())
}

/// The line of a number of the journal of a call.
fn line_at<N: Files>(
    alloc: Global,
    files: &mut N,
    call: &Call<'_>,
    number: u64,
) -> Result<Option<Vec<u8>>, AllocError> {
    let Ok(mut source) = files.open(call.log) else {
        return Ok(None);
    };
    let Ok(buffers) = LineBuffers::new(alloc, LONGEST) else {
        return Ok(None);
    };
    let mut lines = Lines::new(buffers, &mut source);
    for _ in 1..number {
        let _skipped = lines.next_line();
    }
    next_of(alloc, &mut lines)
}

/// Writes the line of a number that the head of the journal of a network has, from the second on.
fn write_line<W: Sink>(writer: &mut W, network: &PlanNet, number: u64) {
    let place = number
        .checked_sub(4)
        .and_then(|place| usize::try_from(place).ok());
    let events = u32::try_from(network.events.len()).unwrap_or(u32::MAX);
    let bounds = u32::try_from(network.bounds.len()).unwrap_or(u32::MAX);
    match (number, place) {
        (2, _) => {
            let _ = write_two_numbers(writer, b"network ", events, network.horizon);
        }
        (3, _) => {
            let _ = write_numbered(writer, b"own ", bounds);
        }
        (_, Some(place)) => {
            if let Some(bound) = network.bounds.get(place) {
                let id = BoundId(u32::try_from(place).unwrap_or(u32::MAX));
                let _ = write_bound(writer, id, *bound);
            }
        }
        _ => {}
    }
}

/// A line of the head of the journal of a network, without its end. Behind the head it is empty.
fn wanted_line(alloc: Global, network: &PlanNet, number: u64) -> Vec<u8> {
    let mut taken = Taken::new(alloc);
    write_line(&mut taken, network, number);
    let mut bytes = taken.into_bytes();
    let _end = bytes.pop();
    bytes
}

/// Puts that a line of a journal is another than in the head of a network.
fn put_other(page: &mut Page, call: &Call<'_>, number: u64, line: Option<&[u8]>, wanted: &[u8]) {
    let what = "the head is not that of the network of this plan";
    put_headline(page, call, number, line, what);
    if !wanted.is_empty() {
        put!(page; "note: the plan's has `{}` there\n", shown(wanted));
    }
    page.put("help: name the run's own files, with its `--scale` and `--horizon`\n");
}

/// Puts the first line of a journal that is another than in the head of a network.
fn put_first_other<N: Files>(
    page: &mut Page,
    files: &mut N,
    call: &Call<'_>,
    network: &PlanNet,
) -> Result<(), AllocError> {
    let alloc = page.alloc();
    let Ok(mut source) = files.open(call.log) else {
        return Ok(());
    };
    let Ok(buffers) = LineBuffers::new(alloc, LONGEST) else {
        return Ok(());
    };
    let mut lines = Lines::new(buffers, &mut source);
    let _version = lines.next_line();
    let last = (network.bounds.len() as u64).saturating_add(4);
    for number in 2..=last {
        let line = next_of(alloc, &mut lines)?;
        let found = line.as_ref().map(|bytes| bytes.as_slice());
        let wanted = wanted_line(alloc, network, number);
        if found != Some(wanted.as_slice()) {
            put_other(page, call, number, found, wanted.as_slice());
            return Ok(());
        }
    }
    Ok(())
}

/// Puts why the head of the journal of a call is not that of its network.
pub fn put_head<N: Files>(
    page: &mut Page,
    files: &mut N,
    call: &Call<'_>,
) -> Result<(), AllocError> {
    if call.domain.is_empty() {
        return put_no_plan(page, files, call);
    }
    match plan_network(page.alloc(), files, call) {
        Some(network) => put_first_other(page, files, call, &network),
        None => Ok(()),
    }
}
