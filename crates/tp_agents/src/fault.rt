//! What keeps a setting from being split, an agent from its part, and commands from being carried
//! out.

use std::alloc::{AllocError, AllocFailed};
use thiserror::Error;
use tp_bounds::Reason;

/// Why nothing was split.
#[derive(Debug, Drop, Error)]
pub enum SplitFault {
    /// Out of memory.
    #[error("out of memory")]
    Memory,
    /// The word of the text, counted from 0, is no number; or the event has no agent, or one whose
    /// number is over 1,023, or there is no such event and a number for it.
    #[error("no agent for this event")]
    Owner(u32),
    /// No schedule remains, and this closed chain of edges says why.
    #[error("no schedule remains")]
    Conflict(Reason),
}

impl From<AllocError> for SplitFault {
    ghost use Rattle.std.specs.Prelude.{◌≡◌};
    ghost use Rattle.tp_agents.specs.declared.fault.SplitFault.TheVariants.{Memory};

    ghost from_gives = { λ _ fault. fault ≡ Memory };

    fn from(_error: AllocError) -> SplitFault {
        SplitFault::Memory
    }
}

impl<T: Drop> From<AllocFailed<T>> for SplitFault {
    ghost use Rattle.std.specs.Prelude.{◌≡◌};
    ghost use Rattle.tp_agents.specs.declared.fault.SplitFault.TheVariants.{Memory};

    ghost from_gives = { λ _ fault. fault ≡ Memory };

    fn from(_error: AllocFailed<T>) -> SplitFault {
        SplitFault::Memory
    }
}

/// Why an agent gets no network.
#[derive(Debug, Drop, Error)]
pub enum PartFault {
    /// Out of memory.
    #[error("out of memory")]
    Memory,
    /// The part has more bounds than can be in force at one time.
    #[error("more than 65,535 bounds")]
    TooMany,
}

impl From<AllocError> for PartFault {
    ghost use Rattle.std.specs.Prelude.{◌≡◌};
    ghost use Rattle.tp_agents.specs.declared.fault.PartFault.TheVariants.{Memory};

    ghost from_gives = { λ _ fault. fault ≡ Memory };

    fn from(_error: AllocError) -> PartFault {
        PartFault::Memory
    }
}

/// Why no command was carried out.
#[derive(Debug, Drop, Error)]
pub enum CommandFault {
    /// Out of memory.
    #[error("out of memory")]
    Memory,
    /// The command at this place is of an agent that there is not.
    #[error("no agent for this command")]
    Agent(usize),
}

impl From<AllocError> for CommandFault {
    ghost use Rattle.std.specs.Prelude.{◌≡◌};
    ghost use Rattle.tp_agents.specs.declared.fault.CommandFault.TheVariants.{Memory};

    ghost from_gives = { λ _ fault. fault ≡ Memory };

    fn from(_error: AllocError) -> CommandFault {
        CommandFault::Memory
    }
}
