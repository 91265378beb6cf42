//! Why a text could not be read.

ghost use Rattle.std.specs.Prelude.{◌≡◌};
ghost use Rattle.tp_text.specs.declared.fault.TextFault.TheVariants.{Memory};

use std::alloc::{AllocError, AllocFailed};
use thiserror::Error;

/// What is wrong with a text. A place is the offset of a byte.
#[derive(Clone, Copy, Debug, PartialEq, Eq, Error)]
pub enum TextFault {
    /// Out of memory.
    #[error("out of memory")]
    Memory,
    /// The text is longer than 1,048,576 bytes.
    #[error("the text is too long")]
    TooLong,
    /// A byte may not stand there.
    #[error("a byte that may not stand at {0}")]
    BadByte(u32),
    /// The outermost list that is open at the end begins there.
    #[error("the list at {0} is not closed")]
    Unclosed(u32),
    /// Something stands there that belongs to no tree, or to a second one.
    #[error("something extra at {0}")]
    Extra(u32),
    /// A list stands there inside 64 others.
    #[error("too many lists in one another at {0}")]
    Depth(u32),
    /// The text has neither a word nor a list.
    #[error("nothing but blanks and comments")]
    Empty,
}

impl From<AllocError> for TextFault {
    ghost from_gives = { λ _ e. e ≡ Memory };

    fn from(_e: AllocError) -> TextFault {
        TextFault::Memory
    }
}

impl<T: Drop> From<AllocFailed<T>> for TextFault {
    ghost from_gives = { λ _ e. e ≡ Memory };

    fn from(_e: AllocFailed<T>) -> TextFault {
        TextFault::Memory
    }
}
