//! What is proved of valid plans and of reach.

ghost use Rattle.std.specs.Prelude.{◌≡◌, ℕ, List, Bool, true, false, suc, None};
ghost use Rattle.tp_task.specs.declared.events.Cond.{Cond};
ghost use Rattle.tp_task.specs.State.{State};
ghost use Rattle.tp_task.specs.Valid.{Planned, Placed, IsValidRun, IsValid, events};
ghost use Rattle.tp_task.specs.Bounds.{In, MeetsBounds, retimed};
ghost use Rattle.tp_task.specs.Reach.{met, IsClosed};
ghost use Rattle.tp_task.specs.State.{holds};
ghost use Rattle.tp_task.specs.Verdict.{Fault, states, fault_at, last_moment, IsFirstFault};
ghost use Rattle.tp_task.specs.declared.events.GroundEvent.{GroundEvent};

/// The bounds of a valid plan: its own moments meet them, and each assignment that meets them makes
/// a valid plan.
pub fn schedules_are_valid()
    ensures own { (scale : ℕ) (initial : State) (goal : Cond) (plan : List Planned)
        (trace : ℕ → State) (t : ℕ → ℕ) → IsValidRun scale initial goal plan trace
        → ((e : Placed) → In e (events plan) → t e.number ≡ e.moment)
        → MeetsBounds scale trace plan t }
    ensures valid { (scale : ℕ) (initial : State) (goal : Cond) (plan : List Planned)
        (trace : ℕ → State) (t : ℕ → ℕ) → IsValidRun scale initial goal plan trace
        → MeetsBounds scale trace plan t → IsValid scale initial goal (retimed t plan) }
{}

/// Where the goal is not met in a closed set of atoms, no plan of these events is valid.
pub fn unreachable_has_no_plan()
    ensures { (scale : ℕ) (initial : State) (goal : Cond) (acts : List GroundEvent)
        (reach : ℕ → Bool) → IsClosed initial acts reach → met reach true goal ≡ false
        → (plan : List Planned) → ((e : Placed) → In e (events plan) → In e.timed.event acts)
        → ¬ IsValid scale initial goal plan }
{}

/// A plan is valid exactly if it has no fault and reaches the goal, so one with a first fault is
/// not valid.
pub fn valid_without_fault()
    ensures sound { (scale : ℕ) (initial : State) (goal : Cond) (plan : List Planned)
        → ((m : ℕ) → fault_at scale initial plan m ≡ None)
        → holds (states scale initial (events plan) (suc (last_moment (events plan)))) goal ≡ true
        → IsValid scale initial goal plan }
    ensures complete { (scale : ℕ) (initial : State) (goal : Cond) (plan : List Planned)
        → IsValid scale initial goal plan → ((m : ℕ) → fault_at scale initial plan m ≡ None)
        × (holds (states scale initial (events plan) (suc (last_moment (events plan)))) goal
        ≡ true) }
    ensures faulty { (scale : ℕ)
        (initial : State) (goal : Cond) (plan : List Planned) (m : ℕ) (why : Fault)
        → IsFirstFault scale initial goal plan m why → ¬ IsValid scale initial goal plan }
{}
