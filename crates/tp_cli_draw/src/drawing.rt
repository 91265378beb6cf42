//! The picture of a plan, and that of a journal's run.

ghost use Rattle.std.specs.Prelude.{◌≡◌, ◌≤◌, ℕ, List, Option, length, IfErr, IfOk};
ghost use Rattle.tp_cli_files.specs.Causes.{counted};
ghost use Rattle.tp_cli_audit.specs.PlanAudits.{IsNetFound, LagsFit};
ghost use Rattle.tp_cli_draw.specs.Stops.{draw_unread};
ghost use Rattle.tp_cli_draw.specs.Pictures.{DrawsJudged, DrawsLog, DrawsNet, DrawsVerdict, HindersJudged, HindersSteps, StopsNet, StopsReplay, StopsSteps, StopsVerdict};

use crate::answers::Drawn;
use crate::beginning::begin;
use crate::draw_words::horizon_or;
use crate::named::Names;
use crate::picture::picture_text;
use crate::replaying::{ReplayStop, Told, replay};
use crate::scenes::scene_of;
use crate::stops::DrawStop;
use std::alloc::Global;
use tp_bounds::{Limits, PlanNet};
use tp_cli_audit::{AuditStop, Found, audit_in, lags_suit, plan_start};
use tp_cli_files::Files;
use tp_cli_inputs::DrawWords;
use tp_deorder::deorder;
use tp_device::Source;
use tp_exec_machine::Executive;
use tp_happen::Step;
use tp_journal::JournalHead;
use tp_repair::RepairNet;
use tp_validate::{ValidPlan, Verdict};

/// The tick at which the last step ends.
fn end_of(steps: &[Step]) -> u32 {
    let mut end = 0u32;
    for step in steps {
        end = end.max(step.tick.saturating_add(step.duration));
    }
    end
}

/// The picture of a plan, over an executive of its network; with what a journal says, that of the
/// run.
fn picture(
    alloc: Global,
    names: Option<Names>,
    plan: &ValidPlan<'_>,
    executive: &Executive<RepairNet>,
    told: Option<Told>,
) -> Result<String, DrawStop>
    ensures { IfErr result (λ stop. stop ≡ DrawStop.Memory) }
{
    let Some(names) = names else {
        return Err(DrawStop::Memory);
    };
    match scene_of(
        alloc,
        names,
        plan.task(),
        plan.plan().steps(),
        executive,
        told,
    ) {
        Ok(scene) => match picture_text(alloc, &scene) {
            Ok(text) => Ok(text),
            Err(_) => Err(DrawStop::Memory),
        },
        Err(_) => Err(DrawStop::Memory),
    }
}

/// The picture of a valid plan over its network.
fn net_picture(
    alloc: Global,
    network: &PlanNet,
    plan: &ValidPlan<'_>,
    names: Option<Names>,
) -> Result<String, DrawStop>
    requires { length network.now.bounds.items ≤ 65535 }
    ensures cause { IfErr result (StopsSteps plan.now.task plan.now.steps) }
    ensures opened { (n : ℕ) → counted draw_unread n result ≡ n }
{
    match begin(alloc, network) {
        Ok(executive) => picture(alloc, names, plan, &executive, None),
        Err(_) => Err(DrawStop::Executive),
    }
}

/// The picture of a valid plan. Its windows end at the horizon that the words give, or else at the
/// plan's own end.
fn plan_picture(
    alloc: Global,
    words: DrawWords<'_>,
    plan: &ValidPlan<'_>,
    names: Option<Names>,
) -> Result<String, DrawStop>
    ensures cause { IfErr result (StopsSteps plan.now.task plan.now.steps) }
    ensures opened { (n : ℕ) → counted draw_unread n result ≡ n }
{
    let horizon = horizon_or(words, end_of(plan.plan().steps()));
    match deorder(alloc, plan, &Limits::greatest(horizon)) {
        Ok(network) => net_picture(alloc, &network, plan, names),
        Err(fault) => Err(DrawStop::Network(fault)),
    }
}

/// The picture of a plan by its verdict, or its first fault.
pub(crate) fn draw_verdict(
    alloc: Global,
    words: DrawWords<'_>,
    verdict: &Verdict<'_>,
    names: Option<Names>,
) -> Result<Drawn, DrawStop>
    ensures drawn { IfOk result (DrawsVerdict verdict.now) }
    ensures cause { IfErr result (StopsVerdict verdict.now) }
    ensures opened { (n : ℕ) → counted draw_unread n result ≡ n }
{
    match verdict {
        Verdict::Valid(plan) => match plan_picture(alloc, words, plan, names) {
            Ok(text) => Ok(Drawn::Picture(text)),
            Err(stop) => Err(stop),
        },
        Verdict::Invalid { plan: _, tick, why } => Ok(Drawn::Invalid(*tick, *why)),
    }
}

/// What the file of a journal was found to be, against the network of a plan.
fn found_in<N: Files>(
    alloc: Global,
    files: &mut N,
    log: &str,
    head: &JournalHead,
    network: &PlanNet,
) -> Result<Found, DrawStop>
    requires { length network.now.bounds.items ≤ 65535 }
    ensures found { IfOk result (IsNetFound network.now head.now (N.held files.old log.now)) }
    ensures cause { IfErr result (StopsNet network.now head.now (N.held files.old log.now)) }
    ensures opened { N.failures files.new ≡ counted draw_unread (N.failures files.old) result }
{
    if !lags_suit(network, head) {
        return Err(DrawStop::Journal(AuditStop::Head));
    }
    match plan_start(alloc, network, head) {
        Ok(executive) => match audit_in(alloc, files, log, executive) {
            Ok(found) => Ok(found),
            Err(stop) => Err(DrawStop::Journal(stop)),
        },
        Err(_) => Err(DrawStop::Executive),
    }
}

/// The picture of the run of the journal that a source has left, over an executive in which the run
/// began.
fn replayed_picture<S: Source>(
    alloc: Global,
    source: &mut S,
    mut executive: Executive<RepairNet>,
    plan: &ValidPlan<'_>,
    names: Option<Names>,
) -> Result<String, DrawStop>
    ensures cause { IfErr result StopsReplay }
    ensures opened { S.failures source.new ≡ counted draw_unread (S.failures source.old) result }
{
    match replay(alloc, &mut executive, source) {
        Ok(told) => picture(alloc, names, plan, &executive, Some(told)),
        Err(ReplayStop::Memory) => Err(DrawStop::Journal(AuditStop::Memory)),
        Err(ReplayStop::Read) => Err(DrawStop::Journal(AuditStop::Read)),
    }
}

/// The picture of the run of a journal that was found to be one of a plan's network.
fn log_picture<N: Files>(
    alloc: Global,
    files: &mut N,
    log: &str,
    head: &JournalHead,
    network: &PlanNet,
    plan: &ValidPlan<'_>,
    names: Option<Names>,
) -> Result<String, DrawStop>
    requires bounds { length network.now.bounds.items ≤ 65535 }
    requires lags { LagsFit network.now head.now }
    ensures cause { IfErr result StopsReplay }
    ensures opened { N.failures files.new ≡ counted draw_unread (N.failures files.old) result }
{
    let Ok(mut source) = files.open(log) else {
        return Err(DrawStop::Journal(AuditStop::Open));
    };
    match plan_start(alloc, network, head) {
        Ok(executive) => {
            let text = replayed_picture(alloc, &mut source, executive, plan, names);
            files.close(source);
            text
        }
        Err(_) => Err(DrawStop::Executive),
    }
}

/// The picture of the run of an accepted journal, else the line of its answer that is not allowed.
fn draw_found<N: Files>(
    alloc: Global,
    files: &mut N,
    log: &str,
    head: &JournalHead,
    network: &PlanNet,
    found: Found,
    plan: &ValidPlan<'_>,
    names: Option<Names>,
) -> Result<Drawn, DrawStop>
    requires bounds { length network.now.bounds.items ≤ 65535 }
    requires lags { LagsFit network.now head.now }
    ensures drawn { (input : Option (List ℕ)) → IsNetFound network.now head.now input found
        → IfOk result (DrawsNet network.now head.now input) }
    ensures cause { IfErr result StopsReplay }
    ensures opened { N.failures files.new ≡ counted draw_unread (N.failures files.old) result }
{
    match found {
        Found::Journal(_) => {
            match log_picture(alloc, files, log, head, network, plan, names) {
                Ok(text) => Ok(Drawn::Picture(text)),
                Err(stop) => Err(stop),
            }
        }
        Found::Wrong(line) => Ok(Drawn::Wrong(line)),
    }
}

/// What the file of a journal was found to be, and then the picture of its run, over a plan's
/// network.
fn draw_net<N: Files>(
    alloc: Global,
    files: &mut N,
    log: &str,
    head: &JournalHead,
    network: &PlanNet,
    plan: &ValidPlan<'_>,
    names: Option<Names>,
) -> Result<Drawn, DrawStop>
    requires { length network.now.bounds.items ≤ 65535 }
    ensures drawn { IfOk result (DrawsNet network.now head.now (N.held files.old log.now)) }
    ensures cause { IfErr result (StopsNet network.now head.now (N.held files.old log.now)) }
    ensures opened { N.failures files.new ≡ counted draw_unread (N.failures files.old) result }
{
    match found_in(alloc, files, log, head, network) {
        Ok(found) => draw_found(alloc, files, log, head, network, found, plan, names),
        Err(stop) => Err(stop),
    }
}

/// The same of a valid plan.
fn draw_log<N: Files>(
    alloc: Global,
    files: &mut N,
    log: &str,
    head: &JournalHead,
    horizon: u32,
    plan: &ValidPlan<'_>,
    names: Option<Names>,
) -> Result<Drawn, DrawStop>
    requires { horizon ≤ 1000000000 }
    ensures drawn { IfOk result (DrawsLog plan.now.task plan.now.steps horizon head.now
        (N.held files.old log.now)) }
    ensures cause { IfErr result (HindersSteps plan.now.task plan.now.steps horizon head.now
        (N.held files.old log.now)) }
    ensures opened { N.failures files.new ≡ counted draw_unread (N.failures files.old) result }
{
    match deorder(alloc, plan, &Limits::greatest(horizon)) {
        Ok(network) => draw_net(alloc, files, log, head, &network, plan, names),
        Err(fault) => Err(DrawStop::Network(fault)),
    }
}

/// The same of a plan by its verdict; of one that is not valid, its first fault.
pub(crate) fn draw_judged<N: Files>(
    alloc: Global,
    files: &mut N,
    log: &str,
    head: &JournalHead,
    horizon: u32,
    verdict: &Verdict<'_>,
    names: Option<Names>,
) -> Result<Drawn, DrawStop>
    requires { horizon ≤ 1000000000 }
    ensures drawn { IfOk result
        (DrawsJudged verdict.now horizon head.now (N.held files.old log.now)) }
    ensures cause { IfErr result
        (HindersJudged verdict.now horizon head.now (N.held files.old log.now)) }
    ensures opened { N.failures files.new ≡ counted draw_unread (N.failures files.old) result }
{
    match verdict {
        Verdict::Valid(plan) => draw_log(alloc, files, log, head, horizon, plan, names),
        Verdict::Invalid { plan: _, tick, why } => Ok(Drawn::Invalid(*tick, *why)),
    }
}
