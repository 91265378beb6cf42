//! The audit of a journal of a network of bounds alone.

ghost use Rattle.std.specs.Prelude.{◌≡◌, ◌≢◌, ◌≤◌, ℕ, List, [], IsTrue, ◌↔◌, IfOk, IfErr};
ghost use Rattle.std.specs.List.{All};
ghost use Rattle.tp_exec_machine.specs.Machine.{IsFresh};
ghost use Rattle.tp_cli_files.specs.FaultLines.{TellsFault};
ghost use Rattle.tp_journal_pairs.specs.Writing.{IsNewExecutive};
ghost use Rattle.tp_bounds.specs.Setting.{event_count};
ghost use Rattle.tp_cli_files.specs.Causes.{counted};
ghost use Rattle.tp_cli_audit.specs.AuditLines.{stop_unread};
ghost use Rattle.tp_cli_audit.specs.Audits.{say_failures};
ghost use Rattle.tp_cli_audit.specs.Bare.{EndsBareAudit, HeadFits, HindersBare, HindersTold, IsBareFound, IsBareHead, IsToldFound, LagFits, SaysAuditPart, SaysBare, SaysJournal, SaysWrong, StopsBareAudit, bare_machine, lagged};

use crate::audit_lines::{AuditStop, audit_stop_line};
use crate::auditing::{Found, audit_in, head_in};
use crate::verdicts::say;
use std::alloc::{AllocError, Global};
use tp_bounds::{Limits, MOST_EVENTS, MOST_HORIZON, MOST_LAG};
use tp_cli_files::{Files, OUT_OF_ORDER, REFUSED, complain};
use tp_device::Sink;
use tp_exec_machine::Executive;
use tp_journal::JournalHead;
use tp_net::Net;
use tp_repair::RepairNet;

/// Whether all lags are of so many events, and in range. One look at each.
pub(crate) fn lags_fit(events: u16, lags: &[(u16, u32)]) -> bool
    ensures { IsTrue result ↔ All (LagFits events) lags.now }
{
    lags.iter().all(|lag| lag.0 < events && lag.1 <= MOST_LAG)
}

/// Whether a network can be as a head tells.
fn head_fits(head: &JournalHead) -> bool
    ensures { IsTrue result ↔ HeadFits head.now }
{
    head.events <= MOST_EVENTS
        && head.horizon <= MOST_HORIZON
        && lags_fit(head.events, head.lags.as_slice())
}

/// Whether a head is that of a network of bounds alone, which can be so.
pub fn is_bare(head: &JournalHead) -> bool
    ensures { IsTrue result ↔ IsBareHead head.now }
{
    match head.own {
        None => head_fits(head),
        Some(_) => false,
    }
}

/// Sets the lags of a new network, one after another. It takes no memory.
pub(crate) fn set_lags<N: Net>(net: &mut N, lags: &[(u16, u32)])
    requires start { (N.seen net.old).clock ≡ 0 }
    requires fit { All (LagFits (event_count (N.seen net.old))) lags.now }
    ensures set { N.seen net.new ≡ lagged (N.seen net.old) lags.now }
    ensures new { IsFresh (N.seen net.old) → IsFresh (N.seen net.new) }
    ensures events { event_count (N.seen net.new) ≡ event_count (N.seen net.old) }
    ensures horizon { (N.seen net.new).horizon ≡ (N.seen net.old).horizon }
{
    for lag in lags {
        net.set_lag(lag.0, lag.1);
    }
}

/// The executive that a head tells, which is new.
pub fn bare_start(alloc: Global, head: &JournalHead) -> Result<Executive<RepairNet>, AllocError>
    requires { HeadFits head.now }
    ensures machine { IfOk result (λ m. m ≡ bare_machine head.now) }
    ensures new { IfOk result IsNewExecutive }
{
    let mut net = RepairNet::new(alloc, head.events, head.horizon)?;
    set_lags(&mut net, head.lags.as_slice());
    Ok(Executive::bare(alloc, Limits::greatest(head.horizon), net))
}

/// Audits the journal in the file of a name against the executive that its head tells.
fn audit_told<N: Files>(
    alloc: Global,
    files: &mut N,
    log: &str,
    head: &JournalHead,
) -> Result<Found, AuditStop>
    ensures found { IfOk result (IsToldFound head.now (N.held files.old log.now)) }
    ensures cause { IfErr result (HindersTold head.now (N.held files.old log.now)) }
    ensures opened { N.failures files.new ≡ counted stop_unread (N.failures files.old) result }
{
    if !is_bare(head) {
        return Err(AuditStop::Head);
    }
    match bare_start(alloc, head) {
        Ok(executive) => audit_in(alloc, files, log, executive),
        Err(_) => Err(AuditStop::Network),
    }
}

/// The same, with the head read first.
fn audit_bare<N: Files>(alloc: Global, files: &mut N, log: &str) -> Result<Found, AuditStop>
    ensures found { IfOk result (IsBareFound (N.held files.old log.now)) }
    ensures cause { IfErr result (HindersBare (N.held files.old log.now)) }
    ensures opened { N.failures files.new ≡ counted stop_unread (N.failures files.old) result }
{
    match head_in(alloc, files, log) {
        Ok(head) => audit_told(alloc, files, log, &head),
        Err(stop) => Err(stop),
    }
}

/// The same, and writes what was found. Answers whether it is a journal.
fn say_bare<N: Files, O: Sink>(
    alloc: Global,
    files: &mut N,
    log: &str,
    output: &mut O,
) -> Result<bool, AuditStop>
    ensures said { IfOk result
        (SaysBare (N.held files.old log.now) (O.held output.old) (O.held output.new)) }
    ensures cause { IfErr result
        (StopsBareAudit (N.held files.old log.now) (O.held output.old) (O.held output.new)) }
    ensures failures { O.failures output.new ≡ say_failures (O.failures output.old) result }
    ensures opened { N.failures files.new ≡ counted stop_unread (N.failures files.old) result }
{
    match audit_bare(alloc, files, log) {
        Ok(found) => say(output, found),
        Err(stop) => Err(stop),
    }
}

/// Audits the journal in the file of a name, which is to be that of commands on a network of bounds
/// alone: the network is the one that its head tells. Answers the exit status: 0 where it is such a
/// journal, and the line `audit ok N` with the number of its pairs was written; 1 where an answer
/// is not allowed, and the line `wrong N` with the number of its line was; and for another writes
/// one fault line. The file is opened twice: its head is read first, and then all of it. It costs
/// little more than the run did.
pub fn run_bare_audit<N: Files, O: Sink, F: Sink>(
    alloc: Global,
    files: &mut N,
    log: &str,
    output: &mut O,
    faults: &mut F,
) -> u8
    ensures yes { result ≡ 0
        → SaysJournal (N.held files.old log.now) (O.held output.old) (O.held output.new) }
    ensures wrong { result ≡ 1
        → SaysWrong (N.held files.old log.now) (O.held output.old) (O.held output.new) }

    // What hindered it is told, and is as it is told.
    ensures stopped { 2 ≤ result → EndsBareAudit (N.held files.old log.now) log.now result
        (O.held output.old) (O.held output.new) (N.failures files.old) (N.failures files.new)
        (O.failures output.old) (O.failures output.new)
        (F.failures faults.old) (F.held faults.old) (F.failures faults.new) (F.held faults.new) }
    ensures kept { result ≡ REFUSED → O.held output.new ≡ O.held output.old }
    ensures part { result ≡ OUT_OF_ORDER
        → SaysAuditPart (N.held files.old log.now) (O.held output.old) (O.held output.new) }
    ensures told { result ≢ OUT_OF_ORDER → O.failures output.new ≡ O.failures output.old }

    // A fault line goes with each fault, and with nothing else.
    ensures within { result ≤ 3 }
    ensures silent { result ≤ 1 → faults.new ≡ faults.old }
    ensures fault { 2 ≤ result → TellsFault [] (F.failures faults.old) (F.held faults.old)
        (F.failures faults.new) (F.held faults.new) }
{
    match say_bare(alloc, files, log, output) {
        Ok(true) => 0,
        Ok(false) => 1,
        Err(stop) => complain(faults, audit_stop_line(stop, log)),
    }
}
