//! The first refusal that applies to a command whatever schedules remain.

ghost use Rattle.std.specs.Prelude.{◌≡◌, Bool};
ghost use Rattle.tp_bounds.specs.Setting.{event_count};
ghost use Rattle.tp_exec_machine.specs.Step.{first_refusal, is_in_range, may_want_memory};

use tp_bounds::{Bound, BoundId};
use tp_exec_machine::{Command, Executive, GREATEST_WEIGHT, Refusal, is_point};
use tp_net::Net;

/// Whether a weight is in range.
fn is_light(w: i64) -> bool
    ensures { result ≡ is_in_range w }
{
    -GREATEST_WEIGHT <= w && w <= GREATEST_WEIGHT
}

/// The first refusal of a bound that is to come into force.
fn add_refusal<N: Net>(executive: &Executive<N>, bound: Bound) -> Option<Refusal>
    ensures { result ≡ first_refusal executive.now (Command.Add bound) }
{
    let net = executive.net();
    let count = net.events();
    if !is_point(bound.from, count) || !is_point(bound.to, count) {
        return Some(Refusal::NoEvent);
    }
    if !is_light(bound.w) {
        return Some(Refusal::Weight);
    }
    if executive.limits().bounds() as usize <= net.in_force() {
        return Some(Refusal::Full);
    }
    if executive.limits().ids() <= executive.next() {
        return Some(Refusal::Spent);
    }
    None
}

/// The first refusal of a step to a moment.
fn advance_refusal<N: Net>(executive: &Executive<N>, to: u32) -> Option<Refusal>
    ensures { result ≡ first_refusal executive.now (Command.Advance to) }
{
    let net = executive.net();
    if to < net.now() {
        return Some(Refusal::Back);
    }
    if net.horizon() < to {
        return Some(Refusal::Moment);
    }
    None
}

/// The first refusal of a dispatch.
fn dispatch_refusal<N: Net>(executive: &Executive<N>, e: u16) -> Option<Refusal>
    ensures { result ≡ first_refusal executive.now (Command.Dispatch e) }
{
    let net = executive.net();
    if net.events() <= e {
        return Some(Refusal::NoEvent);
    }
    if net.fixed(e).is_some() {
        return Some(Refusal::Done);
    }
    None
}

/// The first refusal of the report of an event.
fn happened_refusal<N: Net>(executive: &Executive<N>, e: u16, moment: u32) -> Option<Refusal>
    ensures { result ≡ first_refusal executive.now (Command.Happened e moment) }
{
    let net = executive.net();
    if net.events() <= e {
        return Some(Refusal::NoEvent);
    }
    if net.fixed(e).is_some() {
        return Some(Refusal::Done);
    }
    if moment < net.now().saturating_sub(net.lag(e)) {
        return Some(Refusal::Back);
    }
    if net.now() < moment {
        return Some(Refusal::Moment);
    }
    None
}

/// The first refusal that applies to a command, if one does. The command is not carried out.
pub(crate) fn refused_first<N: Net>(executive: &Executive<N>, command: Command) -> Option<Refusal>
    ensures { result ≡ first_refusal executive.now command }
{
    match command {
        Command::Advance(to) => advance_refusal(executive, to),
        Command::Add(bound) => add_refusal(executive, bound),
        Command::Withdraw(id) => match executive.net().bound(id) {
            Some(_) => None,
            None => Some(Refusal::NoBound),
        },
        Command::Window(e) => {
            if e < executive.net().events() {
                None
            } else {
                Some(Refusal::NoEvent)
            }
        }
        Command::Dispatch(e) => dispatch_refusal(executive, e),
        Command::Happened(e, moment) => happened_refusal(executive, e, moment),
        Command::Report => None,
    }
}

/// Whether a command may grow something.
pub(crate) fn may_grow(command: Command) -> bool
    ensures { result ≡ may_want_memory command }
{
    !matches!(command, Command::Window(_))
}
