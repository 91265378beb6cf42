//! Why a split stopped, and the line of it.

ghost use Rattle.std.specs.Prelude.{◌≡◌};
ghost use Rattle.tp_cli_files.specs.FaultLines.{fault_text};
ghost use Rattle.tp_cli_split.specs.Stops.{split_status, split_text};

use tp_cli_files::{Detail, Fault, FaultLine, FileFault, Part};
use tp_cli_inputs::{JudgeFault, PlanWords, judge_line};
use tp_cli_run::network_line;
use tp_deorder::DeorderFault;

/// Why the network of a plan was not split among agents.
#[derive(Clone, Copy, Debug, PartialEq, Eq)]
pub enum SplitStop {
    /// The files gave no verdict.
    Judging(JudgeFault),
    /// The plan has no network.
    Network(DeorderFault),
    /// There is no memory for the setting of the network.
    Setting,
    /// The file of the agents' numbers gave no text.
    OwnersFile(FileFault),
    /// The word, counted from 0, is no number; or the event has no agent, or one whose number is
    /// over 1,023, or there is no such event and a number for it.
    Owner(u32),
    /// There is no agent of that number.
    Agent(u32),
    /// The agent's part has more bounds than can be in force at one time.
    TooMany,
    /// There is no memory for the split, or for its lines.
    Memory,
    /// No schedule remains.
    Conflict,
    /// The output can't be written.
    Write,
}

/// The line of a split that stopped.
pub fn split_line<'w>(stop: SplitStop, words: PlanWords<'w>, owners: &'w str) -> FaultLine<'w>
    ensures status { result.status ≡ split_status stop }
    ensures text { fault_text result ≡ split_text words.entry owners.entry.now stop }
{
    match stop {
        SplitStop::Judging(fault) => judge_line(fault, words),
        SplitStop::Network(fault) => network_line(fault),
        SplitStop::Setting => Fault::Memory(Part::Run).line(),
        SplitStop::OwnersFile(fault) => FaultLine::of_file(Part::Split, fault, owners),
        SplitStop::Owner(e) => Fault::SplitOwner.with(Detail::Number(e)),
        SplitStop::Agent(agent) => Fault::SplitAgent.with(Detail::Number(agent)),
        SplitStop::TooMany => Fault::SplitTooMany.line(),
        SplitStop::Memory => Fault::Memory(Part::Split).line(),
        SplitStop::Conflict => Fault::SplitConflict.line(),
        SplitStop::Write => Fault::ScriptWrite.line(),
    }
}
