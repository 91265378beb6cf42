//! What the writing of a journal answers.

use thiserror::Error;

/// Why serving with a journal stopped.
#[derive(Clone, Copy, Debug, PartialEq, Eq, Error)]
pub enum JournalFault {
    /// The reader failed.
    #[error("the commands can't be read")]
    Read,
    /// The writer failed.
    #[error("the answers can't be written")]
    Write,
    /// The log failed.
    #[error("the journal can't be written")]
    Log,
    /// The reader has more bytes than are taken in all.
    #[error("too many bytes of commands")]
    TooLong,
}
