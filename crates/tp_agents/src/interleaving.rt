//! Commands that come to several executives, in whatever order.

ghost use Rattle.std.specs.Prelude.{◌≡◌, ◌≢◌, ℕ, ◌<◌, None, length, IfOk, IfErr, OnOk, OnErr, slice_index_or};
ghost use Rattle.std.specs.List.{AllByRecursion};
ghost use Rattle.tp_exec_machine.specs.Machine.{Machine};
ghost use Rattle.tp_exec_machine.specs.Step.{Step};
ghost use Rattle.tp_agents.specs.Interleaved.{RunsJointly, RunAlone, KeepsApart, first_stranger, StopsCommands};

use crate::fault::CommandFault;
use std::alloc::{AllocError, Global};
use tp_exec_machine::{Answer, Command, Executive, perform};
use tp_net::Net;

/// Carries out a command of an agent, whose executive it changes alone.
fn perform_of<N: Net>(executives: &mut [Executive<N>], agent: u16, command: Command) -> Answer
    requires { agent < length executives.old }
    ensures len { length executives.new ≡ length executives.old }
    ensures step { (other : Machine) → Step (slice_index_or executives.old agent other) command
        result (slice_index_or executives.new agent other) }
    ensures others { (k : ℕ) (other : Machine) → k ≢ agent
        → slice_index_or executives.new k other ≡ slice_index_or executives.old k other }
{
    perform(&mut executives[agent as usize], command)
}

/// The place of the first command whose agent there is not.
fn stranger(agents: usize, commands: &[(u16, Command)]) -> Option<usize>
    ensures { result ≡ first_stranger agents commands.now }
{
    for (place, command) in commands.iter().enumerate() {
        if command.0 as usize >= agents {
            return Some(place);
        }
    }
    None
}

/// Carries out commands of agents that there are, one after another.
fn perform_known<N: Net>(
    alloc: Global,
    executives: &mut [Executive<N>],
    commands: &[(u16, Command)],
) -> Result<Vec<Answer>, AllocError>
    requires { AllByRecursion (λ c. c.0 < length executives.old) commands.now }
    ensures joint { IfOk result
        (λ answers. RunsJointly executives.old commands.now answers.items executives.new) }
    ensures alone { IfOk result
        (λ answers. RunAlone executives.old commands.now answers.items executives.new) }
    ensures err { OnErr result (executives.new ≡ executives.old) }
{
    let mut answers = Vec::with_capacity(alloc, commands.len())?;
    for (agent, command) in commands {
        answers.push(perform_of(executives, *agent, *command))?;
    }
    Ok(answers)
}

/// Carries commands out as they come to executives that share nothing, each for the agent whose
/// number it has. Each executive is as after its own commands alone.
///
/// # Errors
/// `Agent` of the first command whose agent there is not; then `Memory` where there is none for the
/// answers. Either way none is carried out.
pub fn perform_each<N: Net>(
    alloc: Global,
    executives: &mut [Executive<N>],
    commands: &[(u16, Command)],
) -> Result<Vec<Answer>, CommandFault>
    ensures joint { IfOk result
        (λ answers. RunsJointly executives.old commands.now answers.items executives.new) }
    ensures alone { IfOk result
        (λ answers. RunAlone executives.old commands.now answers.items executives.new) }
    ensures known { OnOk result (first_stranger (length executives.old) commands.now ≡ None) }
    ensures err { OnErr result (executives.new ≡ executives.old) }
    ensures cause { IfErr result (StopsCommands (length executives.old) commands.now) }
{
    if let Some(place) = stranger(executives.len(), commands) {
        return Err(CommandFault::Agent(place));
    }
    Ok(perform_known(alloc, executives, commands)?)
}

/// Executives that share nothing, whatever the order in which their commands come in, are each as
/// after its own alone.
pub fn executives_keep_apart()
    ensures { KeepsApart }
{}
