//! Tests of calls that are made once more where memory was refused.
//!
//! - `again`: each call that may want memory
//! - `wanting`: the faults that tell of want of memory
#![tactic(auto)]

/// The answer of a call; where it wants memory, that of the same call once more.
#[cfg(test)]
macro_rules! again {
    ($call:expr) => {
        match $call {
            Err(fault) if crate::wanting::Wanting::is_memory(&fault) => $call,
            first => first,
        }
    };
}

#[cfg(test)]
mod again;
#[cfg(test)]
mod wanting;
