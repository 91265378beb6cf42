//! Tests of devices, sessions and journals, of `bare`, and of calls of the program, over devices in
//! memory. What the program itself can show is a test of the built program.
//!
//! - `streams`: readers and writers as devices
//! - `failing`: sessions and journals over devices that stop at each byte and at each call
//! - `memory`: files, readers and writers in memory
//! - `bare`: runs of `bare`, with and without a journal, over them
//! - `words`: calls of the program over them
#![tactic(auto)]

#[cfg(test)]
mod bare;
#[cfg(test)]
mod failing;
#[cfg(test)]
mod memory;
#[cfg(test)]
mod streams;
#[cfg(test)]
mod words;
