//! The changes of an event.

use tp_task::NumericEffect;

/// The adds, the deletes and the writes among simple effects.
#[derive(Drop)]
pub struct Changes {
    pub adds: Vec<u32>,
    pub deletes: Vec<u32>,
    pub writes: Vec<NumericEffect>,
}
