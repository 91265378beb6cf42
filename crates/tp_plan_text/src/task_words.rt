//! What plan texts need of a task: its horizon, its actions by their words, and which of these
//! last.

ghost use Rattle.std.specs.Prelude.{◌≡◌, ◌≤◌, ◌<◌, map, option_map, IfSome};
ghost use Rattle.tp_plan_text.specs.TaskWords.{readable, is_durative};

use tp_bounds::MOST_HORIZON;
use tp_task::{ActionId, Body, Task};

/// The latest tick at which a step of a task may end.
pub(crate) fn horizon(task: &Task) -> u32
    ensures value { result ≡ (readable task.now).horizon }
    ensures limit { result ≤ 1000000000 }
{
    task.limits.horizon().min(MOST_HORIZON)
}

/// The ground action of these words, if there is one.
pub(crate) fn action_of(task: &Task, words: &[&str]) -> Option<ActionId>
    ensures value { result ≡ (readable task.now).action (map (λ w. w.now) words.now) }
    ensures known { IfSome result (λ a. a.0 < (readable task.now).count) }
{
    let (name, arguments) = words.split_first()?;
    task.action(*name, arguments)
}

fn lasts(body: Option<&Body>) -> bool
    ensures { result ≡ is_durative (option_map (λ b. b.now) body.entry) }
{
    match body {
        None => false,
        Some(body) => match body {
            Body::Instant(_) => false,
            Body::Durative(..) => true,
        },
    }
}

/// Whether a ground action lasts.
pub(crate) fn is_durative(task: &Task, action: ActionId) -> bool
    ensures { result ≡ (readable task.now).is_durative action }
{
    lasts(task.actions.get(action.0 as usize))
}
