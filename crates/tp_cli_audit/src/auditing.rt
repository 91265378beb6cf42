//! The head of a journal in a file, and its audit against an executive.

ghost use Rattle.std.specs.Prelude.{◌≡◌, ℕ, List, IfOk, IfErr, IfSome};
ghost use Rattle.tp_journal_pairs.specs.Writing.{IsNewExecutive};
ghost use Rattle.tp_journal.specs.Telling.{IsHeadTold};
ghost use Rattle.tp_cli_files.specs.Causes.{counted};
ghost use Rattle.tp_cli_audit.specs.AuditLines.{stop_unread};
ghost use Rattle.tp_cli_audit.specs.Audits.{Hinders, HindersHead, IsFound, Leads};

use crate::audit_lines::AuditStop;
use std::alloc::Global;
use tp_cli_files::Files;
use tp_device::Source;
use tp_exec_machine::Executive;
use tp_journal::{AuditFault, JournalHead, journal_head, replay};
use tp_repair::RepairNet;
use tp_script::{LineBuffers, Lines};

/// The most bytes of a line of a journal.
const LONGEST: usize = 16_384;

/// What an audit found.
#[derive(Clone, Copy)]
pub enum Found {
    /// A journal of so many pairs.
    Journal(u64),
    /// An answer, on this line, that is not allowed. The first line is 1.
    Wrong(u64),
}

/// The head of the journal that a source has left.
pub(crate) fn head_of<S: Source>(alloc: Global, source: &mut S) -> Result<JournalHead, AuditStop>
    ensures head { IfOk result
        (λ head. IfSome (S.left source.old) (λ bytes. IsHeadTold bytes head)) }
    ensures cause { IfErr result (HindersHead (S.left source.old)) }
    ensures opened { S.failures source.new ≡ counted stop_unread (S.failures source.old) result }
{
    match LineBuffers::new(alloc, LONGEST) {
        Ok(buffers) => {
            let mut lines = Lines::new(buffers, source);
            let told = journal_head(alloc, &mut lines);
            let _source = lines.into_source();
            match told {
                Ok(head) => Ok(head),
                Err(AuditFault::Memory) => Err(AuditStop::Memory),
                Err(AuditFault::Read) => Err(AuditStop::Read),
                Err(AuditFault::Line(n)) => Err(AuditStop::Line(n)),
                Err(AuditFault::Wrong(_)) => Err(AuditStop::Head),
                Err(AuditFault::Head) => Err(AuditStop::Head),
            }
        }
        Err(_) => Err(AuditStop::Memory),
    }
}

/// The head of the journal in the file of a name. It takes memory for a line and for the lags that
/// the head tells.
///
/// # Errors `Open` where the file can't be opened, `Read` where a read fails, `Memory`; `Line(n)`
/// where line n breaks the format.
pub fn head_in<N: Files>(alloc: Global, files: &mut N, log: &str) -> Result<JournalHead, AuditStop>
    ensures head { IfOk result (λ head.
        IfSome (N.held files.old log.now) (λ bytes. IsHeadTold bytes head)) }
    ensures cause { IfErr result (HindersHead (N.held files.old log.now)) }
    ensures same { (other : List ℕ) → N.held files.new other ≡ N.held files.old other }
    ensures opened { N.failures files.new ≡ counted stop_unread (N.failures files.old) result }
{
    match files.open(log) {
        Ok(source) => {
            let mut source = source;
            let head = head_of(alloc, &mut source);
            files.close(source);
            head
        }
        Err(_) => Err(AuditStop::Open),
    }
}

/// Audits the journal that a source has left against an executive, which is new, and then in the
/// state in which the run ended. Each line is read once and each accepted command is executed, so
/// that it costs little more than the run.
///
/// # Errors
/// `Read` where a read fails, `Memory`; `Line(n)` where line n breaks the format; `Head` for the
/// head of another executive.
pub(crate) fn replay_of<S: Source>(
    alloc: Global,
    source: &mut S,
    executive: &mut Executive<RepairNet>,
) -> Result<Found, AuditStop>
    requires { IsNewExecutive executive.old }
    ensures found { IfOk result (IsFound executive.old (S.left source.old)) }
    ensures leads { IfOk result (Leads executive.old executive.new (S.left source.old)) }
    ensures cause { IfErr result (Hinders executive.old (S.left source.old)) }
    ensures opened { S.failures source.new ≡ counted stop_unread (S.failures source.old) result }
{
    match LineBuffers::new(alloc, LONGEST) {
        Ok(buffers) => {
            let mut lines = Lines::new(buffers, source);
            let replayed = replay(alloc, executive, &mut lines);
            let _source = lines.into_source();
            match replayed {
                Ok(audited) => Ok(Found::Journal(audited.pairs)),
                Err(AuditFault::Wrong(n)) => Ok(Found::Wrong(n)),
                Err(AuditFault::Memory) => Err(AuditStop::Memory),
                Err(AuditFault::Read) => Err(AuditStop::Read),
                Err(AuditFault::Line(n)) => Err(AuditStop::Line(n)),
                Err(AuditFault::Head) => Err(AuditStop::Head),
            }
        }
        Err(_) => Err(AuditStop::Memory),
    }
}

/// The same, with the executive dropped.
///
/// # Errors
/// Those of `replay_of`.
pub(crate) fn audit_of<S: Source>(
    alloc: Global,
    source: &mut S,
    executive: Executive<RepairNet>,
) -> Result<Found, AuditStop>
    requires { IsNewExecutive executive }
    ensures found { IfOk result (IsFound executive (S.left source.old)) }
    ensures cause { IfErr result (Hinders executive (S.left source.old)) }
    ensures opened { S.failures source.new ≡ counted stop_unread (S.failures source.old) result }
{
    let mut executive = executive;
    replay_of(alloc, source, &mut executive)
}

/// The same of the journal in the file of a name.
///
/// # Errors
/// `Open` where the file can't be opened; those of `audit_of`.
pub fn audit_in<N: Files>(
    alloc: Global,
    files: &mut N,
    log: &str,
    executive: Executive<RepairNet>,
) -> Result<Found, AuditStop>
    requires { IsNewExecutive executive }
    ensures found { IfOk result (IsFound executive (N.held files.old log.now)) }
    ensures cause { IfErr result (Hinders executive (N.held files.old log.now)) }
    ensures same { (other : List ℕ) → N.held files.new other ≡ N.held files.old other }
    ensures opened { N.failures files.new ≡ counted stop_unread (N.failures files.old) result }
{
    match files.open(log) {
        Ok(source) => {
            let mut source = source;
            let found = audit_of(alloc, &mut source, executive);
            files.close(source);
            found
        }
        Err(_) => Err(AuditStop::Open),
    }
}
