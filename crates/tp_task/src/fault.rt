//! Why a problem has no task.

ghost use Rattle.std.specs.Prelude.{◌≡◌};
ghost use Rattle.tp_task.specs.declared.fault.GroundFault.TheVariants.{Memory};

use std::alloc::{AllocError, AllocFailed};
use thiserror::Error;

/// The kind of thing of which a problem has more than the limits allow.
#[derive(Clone, Copy, Debug, PartialEq, Eq)]
pub enum TooManyKind {
    Objects,
    Atoms,
    Fluents,
    Actions,
}

/// What keeps a problem from being grounded.
#[derive(Clone, Copy, Debug, PartialEq, Eq, Error)]
pub enum GroundFault {
    /// Out of memory.
    #[error("out of memory")]
    Memory,
    /// There are more of these than the limits allow.
    #[error("the problem is too large")]
    TooMany(TooManyKind),
    /// A number in the domain or the problem is past 10^15 in absolute value.
    #[error("a number is out of range")]
    Range,
}

impl From<AllocError> for GroundFault {
    ghost from_gives = { λ _ e. e ≡ Memory };

    fn from(_e: AllocError) -> GroundFault {
        GroundFault::Memory
    }
}

impl<T: Drop> From<AllocFailed<T>> for GroundFault {
    ghost from_gives = { λ _ e. e ≡ Memory };

    fn from(_e: AllocFailed<T>) -> GroundFault {
        GroundFault::Memory
    }
}
