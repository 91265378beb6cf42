//! Why a command changes nothing.

ghost use Rattle.std.specs.Prelude.{◌≡◌};
ghost use Rattle.tp_exec_machine.specs.Step.{refusal_of};
ghost use Rattle.tp_net.specs.Faults.{SaysBetween};

use std::alloc::AllocError;
use thiserror::Error;
use tp_bounds::Reason;
use tp_net::NetFault;

/// Why a command changed nothing. The first in this order that applies is answered.
#[derive(Debug, Drop, Error)]
pub enum Refusal {
    /// The command names an event that there is not.
    #[error("no such event")]
    NoEvent,
    /// The event is dispatched already.
    #[error("the event is dispatched already")]
    Done,
    /// No bound is in force under the identifier.
    #[error("no such bound in force")]
    NoBound,
    /// The weight is over 2,000,000,000 ticks, one way or the other.
    #[error("the weight is out of range")]
    Weight,
    /// The moment is before now, or that of a reported event before its floor.
    #[error("too early a moment")]
    Back,
    /// The moment is past the horizon, or that of a reported event after now.
    #[error("too late a moment")]
    Moment,
    /// As many bounds are in force as the limits allow.
    #[error("as many bounds in force as the limit")]
    Full,
    /// All identifiers that the limits allow were given out.
    #[error("no identifier is left")]
    Spent,
    /// Out of memory.
    #[error("out of memory")]
    Memory,
    /// No schedule would remain.
    #[error("no schedule would remain")]
    Conflict(Reason),
}

impl From<AllocError> for Refusal {
    ghost use Rattle.tp_exec_machine.specs.declared.refusal.Refusal.TheVariants.{Memory};

    ghost from_gives = { λ _ refusal. refusal ≡ Memory };

    fn from(_error: AllocError) -> Refusal {
        Refusal::Memory
    }
}

/// What a network's fault becomes. A network that takes bounds between events never says that it
/// can't hold one.
pub(crate) fn refused_by(fault: NetFault) -> Refusal
    requires { ¬ SaysBetween (Err fault) }
    ensures { result ≡ refusal_of fault }
{
    match fault {
        NetFault::Memory => Refusal::Memory,
        NetFault::Conflict(reason) => Refusal::Conflict(reason),
        NetFault::Between => unreachable!(),
    }
}
