//! What hinders the audit of the journal of a plan's run, and its line.

ghost use Rattle.std.specs.Prelude.{◌≡◌};
ghost use Rattle.tp_cli_files.specs.FaultLines.{fault_text};
ghost use Rattle.tp_cli_audit.specs.AuditStops.{plan_stop_status, plan_stop_text};

use crate::audit_lines::{AuditStop, audit_stop_line};
use tp_cli_files::FaultLine;
use tp_cli_inputs::{JudgeFault, PlanWords, judge_line};
use tp_cli_run::network_line;
use tp_deorder::DeorderFault;

/// What hinders the audit of the journal of a plan's run.
#[derive(Clone, Copy)]
pub enum PlanAuditStop {
    /// The journal, its file or the output.
    Auditing(AuditStop),
    /// The files of the plan gave no verdict.
    Judging(JudgeFault),
    /// The plan has no network.
    Deordering(DeorderFault),
}

/// The line of an audit that was hindered, of the file of a name against the plan that the words
/// name.
pub(crate) fn plan_stop_line<'w>(
    stop: PlanAuditStop,
    log: &'w str,
    words: PlanWords<'w>,
) -> FaultLine<'w>
    ensures status { result.status ≡ plan_stop_status stop }
    ensures text { fault_text result ≡ plan_stop_text log.entry.now words.entry stop }
{
    match stop {
        PlanAuditStop::Auditing(stop) => audit_stop_line(stop, log),
        PlanAuditStop::Judging(fault) => judge_line(fault, words),
        PlanAuditStop::Deordering(fault) => network_line(fault),
    }
}
