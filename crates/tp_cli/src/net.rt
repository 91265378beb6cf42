//! The network of the plan in a file.

ghost use Rattle.std.specs.Prelude.{◌≡◌, ◌≢◌, ◌≤◌, ℕ, List, [], Option, IfOk, IfErr, OnOk};
ghost use Rattle.std.specs.String.{string_bytes};
ghost use Rattle.tp_deorder.specs.Answers.{OnTooMany, PassesLimits};
ghost use Rattle.tp_cli_files.specs.FaultLines.{TellsFault};
ghost use Rattle.tp_cli_inputs.specs.Named.{IsNamedPlan};
ghost use Rattle.tp_validate.specs.OfTask.{IsOfTask};
ghost use Rattle.tp_cli_run.specs.Invalid.{SaysInvalid};
ghost use Rattle.tp_cli.specs.Networks.{EndsNet, Shows, ShowsNetwork, ShowsPart, ShowsVerdict, StopsNet, StopsNetwork, StopsShown, TellsNetwork, WritesNetwork};
ghost use Rattle.tp_cli.specs.Stops.{stop_failures, stop_unread};
ghost use Rattle.tp_cli_files.specs.Causes.{counted};

use crate::stops::{PlanStop, stop_line};
use std::alloc::Global;
use tp_bounds::Limits;
use tp_cli_files::{Files, OUT_OF_ORDER, REFUSED, complain};
use tp_cli_inputs::{NamedPlan, PlanWords, plan_in, verdict_of, write_invalid};
use tp_deorder::{DeorderFault, deorder};
use tp_device::{Sink, push_all};
use tp_happen::Plan;
use tp_script::network_text;
use tp_task::Task;
use tp_validate::{ValidPlan, Verdict};

/// The lines of the network of a validated plan.
fn lines_of(alloc: Global, plan: &ValidPlan<'_>, limits: &Limits) -> Result<String, DeorderFault>
    ensures lines { IfOk result (λ text.
        TellsNetwork plan.now.task plan.now.steps limits.now (string_bytes text)) }
    ensures cause { IfErr result (λ e.
        OnTooMany e (PassesLimits limits.now plan.now.task plan.now.steps)) }
{
    match deorder(alloc, plan, limits) {
        Ok(net) => match network_text(alloc, &net) {
            Ok(text) => Ok(text),
            Err(_) => Err(DeorderFault::Memory),
        },
        Err(fault) => Err(fault),
    }
}

/// Writes the lines of the network of a validated plan.
fn write_network<O: Sink>(
    alloc: Global,
    plan: &ValidPlan<'_>,
    limits: &Limits,
    output: &mut O,
) -> Result<(), PlanStop>
    ensures written { OnOk result (WritesNetwork plan.now.task plan.now.steps limits.now
        (O.held output.old) (O.held output.new)) }
    ensures cause { IfErr result (StopsNetwork plan.now.task plan.now.steps limits.now
        (O.held output.old) (O.held output.new)) }
    ensures failures { O.failures output.new ≡ stop_failures (O.failures output.old) result }
    ensures opened { (n : ℕ) → counted stop_unread n result ≡ n }
{
    match lines_of(alloc, plan, limits) {
        Ok(text) => match push_all(output, text.as_bytes()) {
            Ok(()) => Ok(()),
            Err(_) => Err(PlanStop::Write),
        },
        Err(fault) => Err(PlanStop::Network(fault)),
    }
}

/// Writes the lines of the network of a plan, or its first fault. Answers whether the plan is
/// valid.
fn show<O: Sink>(
    alloc: Global,
    verdict: &Verdict<'_>,
    limits: &Limits,
    output: &mut O,
) -> Result<bool, PlanStop>
    ensures said { IfOk result
        (ShowsVerdict verdict.now limits.now (O.held output.old) (O.held output.new)) }
    ensures cause { IfErr result
        (StopsShown verdict.now limits.now (O.held output.old) (O.held output.new)) }
    ensures failures { O.failures output.new ≡ stop_failures (O.failures output.old) result }
    ensures opened { (n : ℕ) → counted stop_unread n result ≡ n }
{
    match verdict {
        Verdict::Valid(plan) => match write_network(alloc, plan, limits, output) {
            Ok(()) => Ok(true),
            Err(stop) => Err(stop),
        },
        Verdict::Invalid { plan: _, tick, why } => match write_invalid(output, *tick, *why) {
            Ok(()) => Ok(false),
            Err(_) => Err(PlanStop::Write),
        },
    }
}

/// The same of the plan that the words name, of its task.
fn show_of<O: Sink>(
    alloc: Global,
    words: PlanWords<'_>,
    task: &Task,
    plan: Plan,
    output: &mut O,
) -> Result<bool, PlanStop>
    requires { IsOfTask task.now plan }
    ensures said { (held : List ℕ → Option (List ℕ))
        → IsNamedPlan held words.entry task.now plan
        → IfOk result (Shows held words.entry (O.held output.old) (O.held output.new)) }
    ensures cause { (held : List ℕ → Option (List ℕ))
        → IsNamedPlan held words.entry task.now plan
        → IfErr result (StopsNet held words.entry (O.held output.old) (O.held output.new)) }
    ensures failures { O.failures output.new ≡ stop_failures (O.failures output.old) result }
    ensures opened { (n : ℕ) → counted stop_unread n result ≡ n }
{
    let _ = words;
    match verdict_of(alloc, task, plan) {
        Ok(verdict) => show(alloc, &verdict, &task.limits, output),
        Err(fault) => Err(PlanStop::Judging(fault)),
    }
}

/// Writes the network of the plan that the words name, or its first fault. Answers whether the plan
/// is valid. A file is opened only when what stands before it is done.
fn net<N: Files, O: Sink>(
    alloc: Global,
    files: &mut N,
    words: PlanWords<'_>,
    output: &mut O,
) -> Result<bool, PlanStop>
    requires { words.horizon ≤ 1000000000 }
    ensures said { IfOk result
        (Shows (N.held files.old) words.entry (O.held output.old) (O.held output.new)) }
    ensures cause { IfErr result
        (StopsNet (N.held files.old) words.entry (O.held output.old) (O.held output.new)) }
    ensures failures { O.failures output.new ≡ stop_failures (O.failures output.old) result }
    ensures opened { N.failures files.new ≡ counted stop_unread (N.failures files.old) result }
{
    match plan_in(alloc, files, words) {
        Ok(named) => {
            let NamedPlan { task, plan } = named;
            show_of(alloc, words, &task, plan, output)
        }
        Err(fault) => Err(PlanStop::Judging(fault)),
    }
}

/// Writes the network of the plan that the words name. Answers the exit status: 0 where it was
/// written, 1 for a plan that is not valid, and for another writes one fault line.
pub fn run_net<N: Files, O: Sink, F: Sink>(
    alloc: Global,
    files: &mut N,
    words: PlanWords<'_>,
    output: &mut O,
    faults: &mut F,
) -> u8
    requires { words.horizon ≤ 1000000000 }
    ensures shown { result ≡ 0
        → ShowsNetwork (N.held files.old) words.entry (O.held output.old) (O.held output.new) }
    ensures invalid { result ≡ 1
        → SaysInvalid (N.held files.old) words.entry (O.held output.old) (O.held output.new) }

    // What stopped it is told, and is as it is told.
    ensures stopped { 2 ≤ result → EndsNet (N.held files.old) words.entry result (O.held output.old)
        (O.held output.new) (N.failures files.old) (N.failures files.new)
        (O.failures output.old) (O.failures output.new) (F.failures faults.old)
        (F.held faults.old) (F.failures faults.new) (F.held faults.new) }

    // Nothing is written for input that is refused, and of the true text at most a first part where
    // memory or a device is wanting; a write that failed is always told.
    ensures kept { result ≡ REFUSED → O.held output.new ≡ O.held output.old }
    ensures part { result ≡ OUT_OF_ORDER
        → ShowsPart (N.held files.old) words.entry (O.held output.old) (O.held output.new) }
    ensures told { result ≢ OUT_OF_ORDER → O.failures output.new ≡ O.failures output.old }

    // A fault line goes with each fault, and with nothing else.
    ensures within { result ≤ 3 }
    ensures silent { result ≤ 1 → faults.new ≡ faults.old }
    ensures fault { 2 ≤ result → TellsFault [] (F.failures faults.old) (F.held faults.old)
        (F.failures faults.new) (F.held faults.new) }
{
    match net(alloc, files, words, output) {
        Ok(true) => 0,
        Ok(false) => 1,
        Err(stop) => complain(faults, stop_line(stop, words)),
    }
}
