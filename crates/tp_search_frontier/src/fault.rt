//! What keeps a search from an answer.

use std::alloc::AllocError;
use thiserror::Error;

/// What keeps a search from an answer: out of memory, or a number past 10^15 in absolute value.
#[derive(Clone, Copy, Debug, PartialEq, Eq, Error)]
pub enum SearchFault {
    #[error("out of memory")]
    Memory,
    #[error("a number passed 10^15")]
    Range,
}

impl From<AllocError> for SearchFault {
    ghost use Rattle.std.specs.Prelude.{◌≡◌};
    ghost use Rattle.tp_search_frontier.specs.declared.fault.SearchFault.TheVariants as faults;

    ghost from_gives = { λ _ e. e ≡ faults.Memory };

    fn from(_: AllocError) -> Self {
        SearchFault::Memory
    }
}
