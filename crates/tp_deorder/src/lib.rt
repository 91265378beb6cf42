//! Deordering: the network of all schedules of a validated plan.
//!
//! - `walk`: how many ticks each step may take, by the states that the plan's run goes through
//! - `traces`: the events with what they read and write
//! - `marks`: which events come before which that they interfere with
//! - `orders`: bounds that keep the order of interfering events
//! - `invariants`: bounds that keep what writes into an invariant in its place
//! - `steps`: bounds that keep the steps' lengths and their invariants
//! - `event_texts`: the texts of the events
//! - `deordering`: all of it, `deorder`
#![tactic(auto)]

ghost use Rattle.std.specs.Prelude.{◌≡◌, ℕ, List, ◌↔◌, map, string_bytes};
ghost use Rattle.tp_task.specs.State.{State};
ghost use Rattle.tp_task.specs.Valid.{Planned};
ghost use Rattle.tp_task.specs.Bounds.{MeetsBounds, retimed};
ghost use Rattle.tp_task.specs.declared.task.Task.{Task};
ghost use Rattle.tp_happen.specs.tp_plan_text.declared.plans.Step.{Step};
ghost use Rattle.tp_validate.specs.OfTask.{plan_of};
ghost use Rattle.tp_deorder.specs.RunPlans.{run_steps};
ghost use Rattle.tp_bounds.specs.Schedule.{IsSchedule};
ghost use Rattle.tp_bounds.specs.OwnBounds.{setting_of, IsWithin};
ghost use Rattle.tp_bounds.specs.declared.plan_nets.PlanNet.{PlanNet};
ghost use Rattle.tp_bounds.specs.RunLimits.{RunLimits};
ghost use Rattle.tp_deorder.specs.Answers.{IsPlanNetOf};
ghost use Rattle.tp_deorder.specs.Inequalities.{plan_bounds, event_count_of};

mod deordering;
mod event_texts;
mod invariants;
mod marks;
mod orders;
mod steps;
mod traces;
mod walk;

pub use deordering::deorder;
pub use event_texts::has_two;
use std::alloc::AllocError;
use thiserror::Error;

// What carries a plan out needs of the crates of tasks and plans.
pub use tp_happen;
pub use tp_task;
pub use tp_validate;

/// What keeps a plan from having a network: out of memory, or too many events, ticks or bounds for
/// the limits.
#[derive(Clone, Copy, Debug, PartialEq, Eq, Error)]
pub enum DeorderFault {
    #[error("out of memory")]
    Memory,
    #[error("the plan passes the limits")]
    TooMany,
}

impl From<AllocError> for DeorderFault {
    ghost use Rattle.std.specs.Prelude.{◌≡◌};
    ghost use Rattle.tp_deorder.specs.declared.DeorderFault.TheVariants.{Memory};

    ghost from_gives = { λ _ fault. fault ≡ Memory };

    fn from(_fault: AllocError) -> DeorderFault {
        DeorderFault::Memory
    }
}

/// The schedules of the list of a plan's bounds are exactly the assignments from 0 to the horizon
/// that meet the bounds of the plan.
pub fn bounds_are_listed()
    ensures { (horizon scale : ℕ) (trace : ℕ → State) (plan : List Planned) (t : ℕ → ℕ)
        → (IsSchedule
        (setting_of (event_count_of plan) horizon (plan_bounds horizon scale trace plan)) t
        ↔ (IsWithin (event_count_of plan) horizon t × MeetsBounds scale trace plan t)) }
{}

/// What the steps of a run's plan do is what the validated ones do, retimed.
pub fn runs_are_retimed()
    ensures { (task : Task) (t : ℕ → ℕ) (steps : List Step)
        → plan_of task (run_steps task t steps) ≡ retimed t (plan_of task steps) }
{}

/// A plan has one network within the same limits: the same events, and the same bounds under the
/// same numbers.
pub fn networks_agree()
    ensures { (task : Task) (steps : List Step) (limits : RunLimits) (m n : PlanNet)
        → IsPlanNetOf task steps limits m → IsPlanNetOf task steps limits n
        → (m.horizon ≡ n.horizon)
        × (map string_bytes m.events.items ≡ map string_bytes n.events.items)
        × (m.bounds.items ≡ n.bounds.items) }
{}
