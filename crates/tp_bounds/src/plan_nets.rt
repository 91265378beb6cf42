//! The temporal network of a plan, as it is before anything has happened.

ghost use Rattle.std.specs.Prelude.{◌≡◌, ◌<◌, ℕ, List, length, Some, slice_get, option_map, string_bytes, ◌↔◌};
ghost use Rattle.tp_bounds.specs.Nets.{IsNet};
ghost use Rattle.tp_bounds.specs.OwnBounds.{setting_of, IsWithin, MeetsEach};
ghost use Rattle.tp_bounds.specs.Schedule.{IsSchedule};
ghost use Rattle.tp_bounds.specs.declared.Bound.{Bound};

use crate::Bound;

/// The events of a plan, each as text, and the bounds that its schedules have to meet. The points
/// of the bounds exist, their weights are in range, and they have a schedule up to the horizon.
#[derive(Drop)]
pub struct PlanNet {
    /// The latest moment, in ticks.
    pub horizon: u32,
    /// The text of each event.
    pub events: Vec<String>,
    pub bounds: Vec<Bound>,
    pub ghost net: { IsNet (length events.items) horizon bounds.items },
}

impl PlanNet {
    /// The text of an event. It takes no memory.
    pub fn event_text(&self, e: u16) -> &str
        requires { e < length self.now.events.items }
        ensures { option_map (λ s. string_bytes s) (slice_get self.now.events.items e)
            ≡ Some result.now }
    {
        &self.events[e as usize]
    }
}

/// The schedules of bounds in force under identifiers from 0 on, where nothing has happened, are
/// the assignments from 0 to the horizon that meet each of them.
pub fn schedules_meet_bounds()
    ensures { (events horizon : ℕ) (bounds : List Bound) (t : ℕ → ℕ) → (IsSchedule
        (setting_of events horizon bounds) t ↔ (IsWithin events horizon t × MeetsEach t bounds)) }
{}
