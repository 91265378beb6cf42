//! The journal that a run goes on from.

ghost use Rattle.std.specs.Prelude.{◌≡◌, ◌++◌, ℕ, List, Some, IfOk, IfErr, IfSome, OnOk};
ghost use Rattle.tp_journal_pairs.specs.Writing.{IsNewExecutive};
ghost use Rattle.tp_cli_files.specs.Causes.{counted};
ghost use Rattle.tp_cli_audit.specs.AuditLines.{stop_unread};
ghost use Rattle.tp_cli_audit.specs.Audits.{Hinders};
ghost use Rattle.tp_cli_audit.specs.Old.{IsKept, IsTaken, IsUnread};

use crate::audit_lines::AuditStop;
use crate::auditing::{Found, replay_of};
use std::alloc::Global;
use std::io::Read;
use tp_cli_files::Files;
use tp_device::{Failed, Source};
use tp_exec_machine::Executive;
use tp_journal::whole_pairs;
use tp_repair::RepairNet;

/// Bytes in memory, as a source.
#[derive(Drop)]
pub(crate) struct Bytes<'b> {
    pub(crate) left: &'b [u8],
}

impl Source for Bytes<'_> {
    ghost left = { λ s. Some s.left.now };

    ghost failures = { λ _. 0 };

    fn pull(&mut self, buffer: &mut [u8]) -> Result<usize, Failed> {
        Ok(self.left.read(buffer).unwrap_or(0))
    }
}

/// Puts more bytes at the end of others.
fn put(bytes: &mut Vec<u8>, more: &[u8]) -> Result<(), AuditStop>
    ensures put { OnOk result (bytes.new.items ≡ bytes.old.items ++ more.now) }
    ensures cause { IfErr result IsUnread }
    ensures opened { (n : ℕ) → counted stop_unread n result ≡ n }
{
    match bytes.extend_from_slice(more) {
        Ok(()) => Ok(()),
        Err(_) => Err(AuditStop::Memory),
    }
}

/// All bytes that a source has left.
fn pull_all<S: Source>(alloc: Global, source: &mut S) -> Result<Vec<u8>, AuditStop>
    ensures whole { IfOk result (λ v. IfSome (S.left source.old) (λ bytes. v.items ≡ bytes)) }
    ensures cause { IfErr result IsUnread }
    ensures opened { S.failures source.new ≡ counted stop_unread (S.failures source.old) result }
{
    let mut chunk = [0; 4096];
    let mut bytes = Vec::new(alloc);
    while bytes.len() < usize::MAX {
        let Ok(count) = source.pull(&mut chunk) else {
            return Err(AuditStop::Read);
        };
        if count == 0 {
            return Ok(bytes);
        }
        put(&mut bytes, &chunk[..count])?;
    }
    Err(AuditStop::Memory)
}

/// The journal in the file of a name, up to its last whole pair.
pub(crate) fn kept_in<N: Files>(
    alloc: Global,
    files: &mut N,
    name: &str,
) -> Result<Vec<u8>, AuditStop>
    ensures kept { IfOk result (λ v. IsKept (N.held files.old name.now) v.items) }
    ensures cause { IfErr result IsUnread }
    ensures same { (other : List ℕ) → N.held files.new other ≡ N.held files.old other }
    ensures opened { N.failures files.new ≡ counted stop_unread (N.failures files.old) result }
{
    match files.open(name) {
        Ok(source) => {
            let mut source = source;
            let pulled = pull_all(alloc, &mut source);
            files.close(source);
            let mut bytes = pulled?;
            let whole = whole_pairs(bytes.as_slice());
            bytes.truncate(whole);
            Ok(bytes)
        }
        Err(_) => Err(AuditStop::Open),
    }
}

/// A run that was audited to the end of its journal.
#[derive(Drop)]
pub(crate) struct Run {
    pub(crate) executive: Executive<RepairNet>,
    pub(crate) kept: Vec<u8>,
}

/// What was found of the journal that a run goes on from.
#[derive(Drop)]
pub(crate) enum Taken {
    /// The run, as its journal leaves it.
    Goes(Run),
    /// An answer, on this line, that is not allowed. The first line is 1.
    Wrong(u64),
}

/// Audits a journal against the executive that it begins with, which is new.
pub(crate) fn take_up(
    alloc: Global,
    kept: Vec<u8>,
    executive: Executive<RepairNet>,
) -> Result<Taken, AuditStop>
    requires { IsNewExecutive executive }
    ensures taken { IfOk result (IsTaken executive kept.items) }
    ensures cause { IfErr result (Hinders executive (Some kept.items)) }
    ensures opened { (n : ℕ) → counted stop_unread n result ≡ n }
{
    let mut executive = executive;
    let mut bytes = Bytes {
        left: kept.as_slice(),
    };
    match replay_of(alloc, &mut bytes, &mut executive) {
        Ok(Found::Journal(_)) => Ok(Taken::Goes(Run { executive, kept })),
        Ok(Found::Wrong(n)) => Ok(Taken::Wrong(n)),
        Err(stop) => Err(stop),
    }
}
