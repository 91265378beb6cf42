//! The audit of a journal against the network of a plan, and what is written of it.

ghost use Rattle.std.specs.Prelude.{◌≡◌, ◌≤◌, length, IfOk, IfErr};
ghost use Rattle.tp_cli_files.specs.Causes.{counted};
ghost use Rattle.tp_cli_audit.specs.AuditLines.{stop_unread};
ghost use Rattle.tp_cli_audit.specs.Audits.{say_failures};
ghost use Rattle.tp_cli_audit.specs.AuditStops.{plan_stop_failures, plan_stop_unread};
ghost use Rattle.tp_cli_audit.specs.Ends.{HindersNet, SaysNet, SaysSteps, SaysVerdict, StopsNet, StopsSteps, StopsVerdict, audit_result};
ghost use Rattle.tp_cli_audit.specs.PlanAudits.{IsNetFound};

use crate::audit_lines::AuditStop;
use crate::auditing::{Found, audit_of};
use crate::starting::{lags_suit, plan_start};
use crate::stop_lines::PlanAuditStop;
use crate::verdicts::say;
use std::alloc::Global;
use tp_bounds::{Limits, PlanNet};
use tp_cli_inputs::write_invalid;
use tp_deorder::deorder;
use tp_device::{Sink, Source};
use tp_journal::JournalHead;
use tp_validate::{ValidPlan, Verdict};

/// Audits what a source has left, a journal with that head, against the executive over the network
/// of a plan.
fn audit_net<S: Source>(
    alloc: Global,
    network: &PlanNet,
    head: &JournalHead,
    source: &mut S,
) -> Result<Found, AuditStop>
    requires { length network.now.bounds.items ≤ 65535 }
    ensures found { IfOk result (IsNetFound network.now head.now (S.left source.old)) }
    ensures cause { IfErr result (HindersNet network.now head.now (S.left source.old)) }
    ensures opened { S.failures source.new ≡ counted stop_unread (S.failures source.old) result }
{
    if !lags_suit(network, head) {
        return Err(AuditStop::Head);
    }
    match plan_start(alloc, network, head) {
        Ok(executive) => audit_of(alloc, source, executive),
        Err(_) => Err(AuditStop::Network),
    }
}

/// The same, and writes what was found. Answers whether it is a journal.
fn say_net<S: Source, O: Sink>(
    alloc: Global,
    network: &PlanNet,
    head: &JournalHead,
    source: &mut S,
    output: &mut O,
) -> Result<bool, AuditStop>
    requires { length network.now.bounds.items ≤ 65535 }
    ensures said { IfOk result (SaysNet network.now head.now (S.left source.old) (O.held output.old)
        (O.held output.new)) }
    ensures cause { IfErr result (StopsNet network.now head.now (S.left source.old)
        (O.held output.old) (O.held output.new)) }
    ensures failures { O.failures output.new ≡ say_failures (O.failures output.old) result }
    ensures opened { S.failures source.new ≡ counted stop_unread (S.failures source.old) result }
{
    match audit_net(alloc, network, head, source) {
        Ok(found) => say(output, found),
        Err(stop) => Err(stop),
    }
}

/// What came of an audit, among what may hinder that of a plan's journal.
fn of_audit(said: Result<bool, AuditStop>) -> Result<bool, PlanAuditStop>
    ensures { result ≡ audit_result said }
{
    match said {
        Ok(yes) => Ok(yes),
        Err(stop) => Err(PlanAuditStop::Auditing(stop)),
    }
}

/// The same on the network of a validated plan.
fn audit_valid<S: Source, O: Sink>(
    alloc: Global,
    plan: &ValidPlan<'_>,
    horizon: u32,
    head: &JournalHead,
    source: &mut S,
    output: &mut O,
) -> Result<bool, PlanAuditStop>
    requires { horizon ≤ 1000000000 }
    ensures said { IfOk result (SaysSteps plan.now.task plan.now.steps horizon head.now
        (S.left source.old) (O.held output.old) (O.held output.new)) }
    ensures cause { IfErr result (StopsSteps plan.now.task plan.now.steps horizon head.now
        (S.left source.old) (O.held output.old) (O.held output.new)) }
    ensures failures { O.failures output.new ≡ plan_stop_failures (O.failures output.old) result }
    ensures opened { S.failures source.new ≡
        counted plan_stop_unread (S.failures source.old) result }
{
    match deorder(alloc, plan, &Limits::greatest(horizon)) {
        Ok(network) => of_audit(say_net(alloc, &network, head, source, output)),
        Err(fault) => Err(PlanAuditStop::Deordering(fault)),
    }
}

/// The same of a plan that is valid; of another, writes its first fault.
pub(crate) fn audit_verdict<S: Source, O: Sink>(
    alloc: Global,
    verdict: &Verdict<'_>,
    horizon: u32,
    head: &JournalHead,
    source: &mut S,
    output: &mut O,
) -> Result<bool, PlanAuditStop>
    requires { horizon ≤ 1000000000 }
    ensures said { IfOk result (SaysVerdict verdict.now horizon head.now (S.left source.old)
        (O.held output.old) (O.held output.new)) }
    ensures cause { IfErr result (StopsVerdict verdict.now horizon head.now (S.left source.old)
        (O.held output.old) (O.held output.new)) }
    ensures failures { O.failures output.new ≡ plan_stop_failures (O.failures output.old) result }
    ensures opened { S.failures source.new ≡
        counted plan_stop_unread (S.failures source.old) result }
{
    match verdict {
        Verdict::Valid(plan) => audit_valid(alloc, plan, horizon, head, source, output),
        Verdict::Invalid { plan: _, tick, why } => match write_invalid(output, *tick, *why) {
            Ok(()) => Ok(false),
            Err(_) => Err(PlanAuditStop::Auditing(AuditStop::Write)),
        },
    }
}
