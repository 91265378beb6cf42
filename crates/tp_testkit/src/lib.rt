//! What tests share: small domains and their tasks, and devices in memory that stop where they are
//! told to, for tests of what a device's failure leaves behind. They tell their bytes and count
//! their failures truly, so that the contracts of `tp_device` say all that happens.
//!
//! - `domains`: five small domains with a problem each
//! - `worlds`: their tasks
//! - `stops`, `sources`, `sinks`: where a device stops; bytes that are read, and written
#![tactic(auto)]

mod domains;
mod sinks;
mod sources;
mod stops;
mod worlds;

pub use domains::{
    CHARGE, EMPTY_TANK, LINE, MATCH, MATCHES, TANK, TOGGLE, TOGGLED, UNCHARGED, UNSET,
};
pub use sinks::StopSink;
pub use sources::StopSource;
pub use stops::Stop;
pub use worlds::{CHARGES, FUSES, LINES, SWITCHES, TANKS, World, kept_of, task_of};
