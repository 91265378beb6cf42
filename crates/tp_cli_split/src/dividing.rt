//! The intervals of the events of a plan's network.

ghost use Rattle.std.specs.Prelude.{◌≡◌, ◌≤◌, ℕ, length, Some, false, IfOk, IfErr};
ghost use Rattle.std.specs.String.{string_bytes};
ghost use Rattle.tp_agents.specs.Splits.{IsUnbegun};
ghost use Rattle.tp_agents.specs.Texts.{AreNumbers, words_of};
ghost use Rattle.tp_cli_files.specs.Causes.{counted};
ghost use Rattle.tp_cli_inputs.specs.Named.{IsIn};
ghost use Rattle.tp_cli_split.specs.Stops.{split_unread};
ghost use Rattle.tp_cli_split.specs.Divides.{Divides, DividesPlan, IsMisread, IsSplitText, SplitsInto, StopsAmong, StopsAs, StopsDividing, StopsPlan, net_setting};

use crate::interval_lines::intervals_text;
use crate::part_lines::bare_text;
use crate::plan_settings::plan_setting;
use crate::stops::SplitStop;
use std::alloc::Global;
use tp_agents::{Owners, PartFault, Split, SplitFault, part, read_owners, split};
use tp_bounds::{Limits, PlanNet, Setting};
use tp_cli_files::{Files, open_text};
use tp_deorder::deorder;
use tp_validate::ValidPlan;

/// Why a split stopped, without its reason.
fn stop_of(fault: SplitFault) -> SplitStop
    ensures told { StopsAs fault result }
    ensures opened { split_unread result ≡ false }
{
    match fault {
        SplitFault::Memory => SplitStop::Memory,
        SplitFault::Owner(e) => SplitStop::Owner(e),
        SplitFault::Conflict(_) => SplitStop::Conflict,
    }
}

/// The lines of the network of an agent's part.
fn part_text(alloc: Global, split: &Split, agent: u32) -> Result<String, SplitStop>
    ensures lines { IfOk result (λ text. IsSplitText (Some agent) split.now.setting
        split.now.owners.items split.now.intervals.items (string_bytes text)) }
    ensures cause { IfErr result
        (StopsAmong (Some agent) split.now.setting split.now.owners.items) }
    ensures opened { (n : ℕ) → counted split_unread n result ≡ n }
{
    if agent >= u32::from(split.agents()) {
        return Err(SplitStop::Agent(agent));
    }
    match part(alloc, split, agent as u16) {
        Ok(net) => match bare_text(alloc, &net) {
            Ok(text) => Ok(text),
            Err(_) => Err(SplitStop::Memory),
        },
        Err(PartFault::Memory) => Err(SplitStop::Memory),
        Err(PartFault::TooMany) => Err(SplitStop::TooMany),
    }
}

/// The lines of the intervals of a setting that is split, or of the network of one agent's part.
fn split_text(alloc: Global, split: &Split, agent: Option<u32>) -> Result<String, SplitStop>
    ensures lines { IfOk result (λ text. IsSplitText agent split.now.setting
        split.now.owners.items split.now.intervals.items (string_bytes text)) }
    ensures cause { IfErr result (StopsAmong agent split.now.setting split.now.owners.items) }
    ensures opened { (n : ℕ) → counted split_unread n result ≡ n }
{
    match agent {
        Some(agent) => part_text(alloc, split, agent),
        None => match intervals_text(alloc, &split.intervals) {
            Ok(text) => Ok(text),
            Err(_) => Err(SplitStop::Memory),
        },
    }
}

/// The agents that the file of a name tells.
fn owners_in<N: Files>(alloc: Global, files: &mut N, owners: &str) -> Result<Owners, SplitStop>
    ensures spelled { IfOk result (λ numbers. IsIn (N.held files.old owners.now) (λ text.
        AreNumbers (words_of text) numbers)) }
    ensures cause { IfErr result (IsMisread (N.held files.old owners.now)) }
    ensures opened { N.failures files.new ≡ counted split_unread (N.failures files.old) result }
{
    match open_text(alloc, files, owners) {
        Ok(text) => match read_owners(alloc, text.as_str()) {
            Ok(numbers) => Ok(numbers),
            Err(fault) => Err(stop_of(fault)),
        },
        Err(fault) => Err(SplitStop::OwnersFile(fault)),
    }
}

/// The lines of the intervals of a setting that is split among agents, or of the network of one
/// agent's part.
fn lines_among(
    alloc: Global,
    setting: &Setting,
    owners: &Owners,
    agent: Option<u32>,
) -> Result<String, SplitStop>
    requires { IsUnbegun setting.now }
    ensures lines { IfOk result (λ text.
        SplitsInto agent setting.now owners.now (string_bytes text)) }
    ensures cause { IfErr result (StopsAmong agent setting.now owners.now) }
    ensures opened { (n : ℕ) → counted split_unread n result ≡ n }
{
    match split(alloc, setting, owners) {
        Ok(split) => split_text(alloc, &split, agent),
        Err(fault) => Err(stop_of(fault)),
    }
}

/// The lines of the intervals of a setting that is split among the agents that the file of a name
/// tells.
fn lines_of<N: Files>(
    alloc: Global,
    files: &mut N,
    owners: &str,
    setting: &Setting,
    agent: Option<u32>,
) -> Result<String, SplitStop>
    requires { IsUnbegun setting.now }
    ensures lines { IfOk result (λ text.
        Divides agent setting.now (N.held files.old owners.now) (string_bytes text)) }
    ensures cause { IfErr result (StopsDividing agent setting.now (N.held files.old owners.now)) }
    ensures opened { N.failures files.new ≡ counted split_unread (N.failures files.old) result }
{
    match owners_in(alloc, files, owners) {
        Ok(numbers) => lines_among(alloc, setting, &numbers, agent),
        Err(stop) => Err(stop),
    }
}

/// The same of the setting of a plan's network.
fn lines_of_net<N: Files>(
    alloc: Global,
    files: &mut N,
    owners: &str,
    network: &PlanNet,
    agent: Option<u32>,
) -> Result<String, SplitStop>
    requires { length network.now.bounds.items ≤ 65535 }
    ensures lines { IfOk result (λ text.
        Divides agent (net_setting network.now) (N.held files.old owners.now) (string_bytes text)) }
    ensures cause { IfErr result
        (StopsDividing agent (net_setting network.now) (N.held files.old owners.now)) }
    ensures opened { N.failures files.new ≡ counted split_unread (N.failures files.old) result }
{
    match plan_setting(alloc, network) {
        Ok(setting) => lines_of(alloc, files, owners, &setting, agent),
        Err(_) => Err(SplitStop::Setting),
    }
}

/// The lines of the intervals of a valid plan's events, split among the agents that the file of a
/// name tells. The file is opened only once the network is there.
pub(crate) fn lines_of_plan<N: Files>(
    alloc: Global,
    files: &mut N,
    owners: &str,
    plan: &ValidPlan<'_>,
    horizon: u32,
    agent: Option<u32>,
) -> Result<String, SplitStop>
    requires { horizon ≤ 1000000000 }
    ensures lines { IfOk result (λ text. DividesPlan agent plan.now.task plan.now.steps horizon
        (N.held files.old owners.now) (string_bytes text)) }
    ensures cause { IfErr result
        (StopsPlan agent plan.now.task plan.now.steps horizon (N.held files.old owners.now)) }
    ensures opened { N.failures files.new ≡ counted split_unread (N.failures files.old) result }
{
    match deorder(alloc, plan, &Limits::greatest(horizon)) {
        Ok(network) => lines_of_net(alloc, files, owners, &network, agent),
        Err(fault) => Err(SplitStop::Network(fault)),
    }
}
