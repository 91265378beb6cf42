//! Commands of a head's network that are served, and what is left behind them.

ghost use Rattle.std.specs.Prelude.{◌≡◌, IfOk};
ghost use Rattle.tp_journal_pairs.specs.Writing.{IsNewExecutive};

use std::alloc::Global;
use tp_bounds::Limits;
use tp_exec_machine::Executive;
use tp_net::{Net, ScratchNet};
use tp_script::{LineBuffers, Lines, ServeFault, Served, read_head, serve};
use tp_testkit::{Stop, StopSink, StopSource};

/// What an executive is seen as: now, how many bounds are in force, the next identifier, and the
/// windows of the first two events.
#[derive(Clone, Copy, Debug, PartialEq, Eq)]
pub(crate) struct Seen {
    now: u32,
    in_force: usize,
    next: u32,
    first: Option<(u32, u32)>,
    second: Option<(u32, u32)>,
}

/// The least and the greatest moment of an event, where there is such an event.
fn window<N: Net>(net: &N, e: u16) -> Option<(u32, u32)> {
    if net.events() <= e {
        return None;
    }
    Some((net.low(e), net.high(e)))
}

pub(crate) fn see<N: Net>(executive: &Executive<N>) -> Seen {
    let net = executive.net();
    Seen {
        now: net.now(),
        in_force: net.in_force(),
        next: executive.next(),
        first: window(net, 0),
        second: window(net, 1),
    }
}

/// How many bytes a device moves a call, one at least, and where it stops.
#[derive(Clone, Copy)]
pub(crate) struct Device {
    pub(crate) pace: usize,
    pub(crate) stop: Stop,
}

/// A device that never stops.
pub(crate) const SOUND: Device = Device {
    pace: 1_000,
    stop: Stop::Never,
};

/// One that moves one byte a call.
pub(crate) const SLOW: Device = Device {
    pace: 1,
    stop: Stop::Never,
};

/// How many bytes the program reads at most.
pub(crate) const MOST: u64 = 4_294_967_296;

/// A session: what is read, by which devices, and how many bytes at most.
#[derive(Clone, Copy)]
pub(crate) struct Session<'a> {
    pub(crate) input: &'a [u8],
    pub(crate) reader: Device,
    pub(crate) writer: Device,
    pub(crate) most: u64,
}

/// Whole lines through devices that never stop.
pub(crate) fn whole(input: &[u8]) -> Session<'_> {
    Session {
        input,
        reader: SOUND,
        writer: SOUND,
        most: MOST,
    }
}

/// What is left behind a session.
#[derive(Drop)]
pub(crate) struct Left {
    pub(crate) served: Result<Served, ServeFault>,
    pub(crate) text: Vec<u8>,
    pub(crate) seen: Seen,
}

/// The source of some bytes.
pub(crate) fn source_of(bytes: &[u8], device: Device) -> StopSource<'_> {
    StopSource::new(bytes, device.pace, device.stop)
}

/// A sink behind an empty text.
pub(crate) fn sink_of(alloc: Global, device: Device) -> StopSink {
    StopSink::new(Vec::new(alloc), device.pace, device.stop)
}

/// An executive over the network of the head.
pub(crate) fn headed(
    alloc: Global,
    lines: &mut Lines<'_, StopSource<'_>>,
) -> Result<Executive<ScratchNet>, ServeFault>
    requires { lines.old.longest ≡ 256 }
    ensures longest { lines.new.longest ≡ 256 }
    ensures new { IfOk result IsNewExecutive }
{
    let (events, horizon) = read_head(lines)?;
    let net = ScratchNet::new(alloc, events, horizon)?;
    Ok(Executive::bare(alloc, Limits::greatest(horizon), net))
}

/// What is left behind a session, or why it has no network.
pub(crate) fn run(alloc: Global, session: Session<'_>) -> Result<Left, ServeFault> {
    let mut source = source_of(session.input, session.reader);
    let mut sink = sink_of(alloc, session.writer);
    let buffers = LineBuffers::new(alloc, 256)?;
    let mut lines = Lines::with_limit(buffers, &mut source, session.most);
    let mut executive = headed(alloc, &mut lines)?;
    let served = serve(&mut executive, &mut lines, &mut sink);
    Ok(Left {
        served,
        text: sink.into_text(),
        seen: see(&executive),
    })
}

/// How many lines are whole.
pub(crate) fn lines_in(text: &[u8]) -> usize {
    text.iter().filter(|b| **b == b'\n').count()
}

/// The first so many bytes.
pub(crate) fn front(text: &[u8], count: usize) -> &[u8] {
    text.get(..count).unwrap_or(text)
}

/// The first so many lines that are whole.
pub(crate) fn front_lines(text: &[u8], count: usize) -> &[u8] {
    let mut lines = 0;
    let mut end = 0;
    for (at, byte) in text.iter().enumerate() {
        if *byte == b'\n' && lines < count {
            lines += 1;
            end = at + 1;
        }
    }
    front(text, end)
}

/// Whether a session was stopped so, and left just what the whole lines of some text leave: answers
/// and executive.
pub(crate) fn is_left_of(
    alloc: Global,
    found: &Result<Left, ServeFault>,
    fault: ServeFault,
    text: &[u8],
) -> bool {
    match (found, &run(alloc, whole(front_lines(text, usize::MAX)))) {
        (Ok(left), Ok(wanted)) => {
            left.served == Err(fault)
                && left.text.as_slice() == wanted.text.as_slice()
                && left.seen == wanted.seen
        }
        (Err(why), Err(_)) => *why == fault,
        _ => false,
    }
}
