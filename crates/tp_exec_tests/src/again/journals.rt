//! Heads of journals, and audits.

use std::alloc::Global;
use std::test::Fail;
use tp_bounds::Limits;
use tp_exec_machine::Executive;
use tp_journal::{AuditFault, Audited, JournalHead, audit, journal_head};
use tp_net::ScratchNet;
use tp_script::{LineBuffers, Lines, ServeFault};
use tp_testkit::{Stop, StopSource};

/// A network with own bounds and lags in its head.
const HEADED: &[u8] =
    b"journal 2\nnetwork 4 50\nown 2\nbound 0 0 1 -1\nbound 1 o 2 10\nlag 1 3\nlag 3 4\n> report\n";

/// The head of a journal.
fn head_of(alloc: Global, text: &[u8]) -> Result<Result<JournalHead, AuditFault>, ServeFault> {
    let mut source = StopSource::new(text, 64, Stop::Never);
    let buffers = LineBuffers::new(alloc, 16_384)?;
    let mut lines = Lines::new(buffers, &mut source);
    Ok(journal_head(alloc, &mut lines))
}

fn head(alloc: Global, text: &[u8]) -> Result<JournalHead, AuditFault> {
    match head_of(alloc, text) {
        Ok(head) => head,
        Err(ServeFault::Memory) => Err(AuditFault::Memory),
        Err(_) => Err(AuditFault::Read),
    }
}

#[test]
fn a_head_with_lags(rt: HostRuntime) -> Result<(), Fail> {
    let alloc = rt.alloc();
    let head = again!(head(alloc, HEADED)).map_err(|_| "no head")?;
    assert!(rt; (head.events, head.horizon, head.own) == (4, 50, Some(2)));
    assert!(rt; head.lags.as_slice() == [(1, 3), (3, 4)].as_slice());
    Ok(())
}

/// Seven pairs of a network of bounds alone.
const SEVEN: &[u8] =
    b"journal 1\nnetwork 2 100\nbare\n> add o 0 10\n< bound 0\n> add 0 o -3\n< bound 1\n> window 0\n< window 3 10\n> window 1\n< window 0 100\n> add 0 o -11\n< refused conflict new b0\n> window 0\n< window 3 10\n> add o 1 7\n< bound 2\n";

/// The audit of a journal.
fn audit_of(alloc: Global, text: &[u8]) -> Result<Result<Audited, AuditFault>, ServeFault> {
    let mut source = StopSource::new(text, 64, Stop::Never);
    let buffers = LineBuffers::new(alloc, 16_384)?;
    let mut lines = Lines::new(buffers, &mut source);
    let net = ScratchNet::new(alloc, 2, 100)?;
    let executive = Executive::bare(alloc, Limits::greatest(100), net);
    Ok(audit(alloc, executive, &mut lines))
}

fn audited(alloc: Global, text: &[u8]) -> Result<Audited, AuditFault> {
    match audit_of(alloc, text) {
        Ok(found) => found,
        Err(ServeFault::Memory) => Err(AuditFault::Memory),
        Err(_) => Err(AuditFault::Read),
    }
}

/// The journal and the executive are made anew.
#[test]
fn an_audit_of_seven_pairs(rt: HostRuntime) {
    let alloc = rt.alloc();
    let found = again!(audited(alloc, SEVEN)).map(|audited| audited.pairs);
    assert!(rt; found == Ok(7));
}
