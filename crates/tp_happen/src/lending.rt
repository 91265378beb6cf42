//! Events lent from their task.

ghost use Rattle.std.specs.Prelude.{◌≡◌, length, true, slice_get, IfSome};
ghost use Rattle.std.specs.Option.{option_and_then};
ghost use Rattle.tp_task.specs.Fits.{body_fits, event_fits};
ghost use Rattle.tp_happen.specs.Parts.{part_of};

use crate::events::{Event, Part};
use tp_task::{ActionId, Body, GroundEvent, Task};

fn part_of(body: &Body, part: Part) -> Option<Event<'_>>
    ensures { result ≡ part_of body.now part }
{
    match (body, part) {
        (Body::Instant(only), Part::Only) => Some(Event::new(only)),
        (Body::Durative(start, _, _), Part::Start) => Some(Event::new(start)),
        (Body::Durative(_, end, _), Part::End) => Some(Event::new(end)),
        _ => None,
    }
}

/// That event of an action, None where the action has none.
#[tactic(auto, using(crate::proofs::Lent::lent_fits))]
pub fn event<'t>(task: &'t Task, action: ActionId, part: Part) -> Option<Event<'t>>
    ensures value { result
        ≡ option_and_then (λ b. part_of b part) (slice_get task.now.actions.items action.0) }
    ensures fits { IfSome result (λ e. event_fits
        (length task.now.initial_atoms.items) (length task.now.initial_numbers.items) e ≡ true) }
{
    part_of(task.actions.get(action.0 as usize)?, part)
}
