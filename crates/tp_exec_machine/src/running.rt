//! Commands carried out, one after another.

ghost use Rattle.std.specs.Prelude.{◌≡◌, IfOk, OnErr, List};
ghost use Rattle.tp_exec_machine.specs.Machine.{Machine};
ghost use Rattle.tp_exec_machine.specs.Step.{Step};
ghost use Rattle.tp_exec_machine.specs.Run.{Run, RunTellsTruth};
ghost use Rattle.tp_exec_machine.specs.declared.command.Answer.{Answer};
ghost use Rattle.tp_exec_machine.specs.declared.command.Command.{Command};

use crate::command::{Answer, Command};
use crate::executive::Executive;
use std::alloc::{AllocError, Global};
use tp_net::Net;

/// Carries a command out.
pub fn perform<N: Net>(executive: &mut Executive<N>, command: Command) -> Answer
    ensures { Step executive.old command result executive.new }
{
    match command {
        Command::Advance(to) => match executive.advance(to) {
            Ok(()) => Answer::Accepted,
            Err(refusal) => Answer::Refused(refusal),
        },
        Command::Add(bound) => match executive.add(bound.from, bound.to, bound.w) {
            Ok(id) => Answer::Named(id),
            Err(refusal) => Answer::Refused(refusal),
        },
        Command::Withdraw(id) => match executive.withdraw(id) {
            Ok(()) => Answer::Accepted,
            Err(refusal) => Answer::Refused(refusal),
        },
        Command::Window(e) => match executive.window(e) {
            Ok((low, high)) => Answer::Told(low, high),
            Err(refusal) => Answer::Refused(refusal),
        },
        Command::Dispatch(e) => match executive.dispatch(e) {
            Ok(()) => Answer::Accepted,
            Err(refusal) => Answer::Refused(refusal),
        },
        Command::Happened(e, moment) => match executive.happened(e, moment) {
            Ok(()) => Answer::Accepted,
            Err(refusal) => Answer::Refused(refusal),
        },
        Command::Report => match executive.report() {
            Ok(report) => Answer::Reported(report),
            Err(refusal) => Answer::Refused(refusal),
        },
    }
}

/// Carries commands out, one after another. Where there is no memory for their answers, none of
/// them is carried out.
pub fn perform_all<N: Net>(
    alloc: Global,
    executive: &mut Executive<N>,
    commands: &[Command],
) -> Result<Vec<Answer>, AllocError>
    ensures run { IfOk result
        (λ answers. Run executive.old commands.now answers.items executive.new) }
    ensures err { OnErr result (executive.new ≡ executive.old) }
{
    let mut answers = Vec::with_capacity(alloc, commands.len())?;
    for command in commands {
        answers.push(perform(executive, *command))?;
    }
    Ok(answers)
}

/// What a run tells is true. Each window told holds exactly the moments at which the event happens
/// in some schedule that remains just then; and a well-formed command is answered Conflict exactly
/// if no schedule would remain, where there is memory.
pub fn runs_tell_the_truth()
    ensures { (old new : Machine) (commands : List Command) (answers : List Answer)
        → Run old commands answers new → RunTellsTruth old commands answers new }
{}
