//! Lines of lags, which stand behind the head of a network.

ghost use Rattle.std.specs.Prelude.{◌≡◌, ◌↔◌, IsTrue};
ghost use Rattle.tp_bounds.specs.Setting.{event_count};
ghost use Rattle.tp_exec_machine.specs.Machine.{IsFresh};
ghost use Rattle.tp_script.specs.Lags.{lag_spelled, MaySet, ReadsLags};
ghost use Rattle.tp_script.specs.Serving.{read_failures};

use crate::commands::read_pair;
use crate::lines::Lines;
use crate::serving::ServeFault;
use crate::words::next_word;
use tp_bounds::MOST_LAG;
use tp_device::Source;
use tp_net::Net;

/// The event and the lag that a line spells.
pub(crate) fn read_lag(line: &[u8]) -> Option<(u16, u32)>
    ensures { result ≡ lag_spelled line.now }
{
    if 256 < line.len() {
        return None;
    }
    let (name, rest) = next_word(line);
    if name == b"lag".as_slice() {
        read_pair(rest)
    } else {
        None
    }
}

/// Whether there is the event, its lag is still 0, and the lag is in range.
fn may_set<N: Net>(net: &N, e: u16, lag: u32) -> bool
    ensures { IsTrue result ↔ MaySet (N.seen net.now) (e, lag) }
{
    e < net.events() && net.lag(e) == 0 && lag <= MOST_LAG
}

/// Reads the lines of lags that come next, and sets the lags. The first line of another form is
/// left, to be taken next. It takes no memory.
///
/// # Errors `Read` where the reader fails; `Head` for an event that there is not or that has a lag
/// already, and for a lag over 1,000,000,000 ticks. The lags before it stay set, and the line at
/// fault was taken.
pub fn read_lags<N: Net, R: Source>(lines: &mut Lines<'_, R>, net: &mut N) -> Result<(), ServeFault>
    requires longest { lines.old.longest ≡ 256 }
    requires start { (N.seen net.old).clock ≡ 0 }
    ensures lags { ReadsLags lines.old lines.new (N.seen net.old) (N.seen net.new) result }

    // What no lag changes: a new network is new but for lags.
    ensures new { IsFresh (N.seen net.old) → IsFresh (N.seen net.new) }
    ensures events { event_count (N.seen net.new) ≡ event_count (N.seen net.old) }
    ensures horizon { (N.seen net.new).horizon ≡ (N.seen net.old).horizon }
    ensures longest { lines.new.longest ≡ lines.old.longest }
    ensures most { lines.new.most ≡ lines.old.most }
    ensures source { lines.new.source ≡ lines.old.source }
    ensures read { lines.new.failures ≡ read_failures lines.old.failures result }
{
    loop {
        match lines.next_lag() {
            Err(_) => return Err(ServeFault::Read),
            Ok(None) => return Ok(()),
            Ok(Some((e, lag))) => {
                if !may_set(net, e, lag) {
                    return Err(ServeFault::Head);
                }
                net.set_lag(e, lag);
            }
        }
    }
}
