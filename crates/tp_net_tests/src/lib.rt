//! Tests of networks of events and bounds, and of executives over them.
//!
//! - `asking`: what a network may be asked, and its windows
//! - `box_net`: the network of bounds with the origin
//! - `certificates`: settings, schedules, reasons and limits as data
//! - `lists`: the same commands to executives over both networks for all bounds
//! - `looks`: how many edges a repair looks at
//! - `machine`: limits of an executive, and copies of its setting
#![tactic(auto)]

#[cfg(test)]
mod asking;
#[cfg(test)]
mod box_net;
#[cfg(test)]
mod certificates;
#[cfg(test)]
mod lists;
#[cfg(test)]
mod looks;
#[cfg(test)]
mod machine;
