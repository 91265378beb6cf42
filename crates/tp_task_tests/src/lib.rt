//! Tests of ground tasks, of happenings and of what is printed, on the small domains.
//!
//! - `tasks`: tasks of all actions, of those in reach, and of those that joins leave
//! - `happenings`: what comes of events at one tick, and what is told of states and events
//! - `printing`: plans that are printed, and read again
#![tactic(auto)]

#[cfg(test)]
mod happenings;
#[cfg(test)]
mod printing;
#[cfg(test)]
mod tasks;
