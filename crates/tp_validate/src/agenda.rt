//! The events of a plan in the order of their moments, tick after tick.

ghost use Rattle.std.specs.Prelude.{◌≡◌, ◌<◌, ◌≤◌, [], length, take, drop, IfOk, MatchOption};
ghost use Rattle.std.specs.List.{All};
ghost use Rattle.std.specs.List.Sorted.{IsNonDecreasingBy};
ghost use Rattle.tp_validate.specs.Agenda.{IsAgenda, IsNextTick};

use crate::placing::PlacedEvent;
use std::alloc::AllocError;

/// A moment, and the events there.
#[derive(Drop)]
pub struct Tick<'a, 't> {
    pub moment: u32,
    pub there: &'a [PlacedEvent<'t>],
}

/// The events in the order of their moments, those of one moment as they stood.
pub fn agenda_of<'t>(events: Vec<PlacedEvent<'t>>) -> Result<Vec<PlacedEvent<'t>>, AllocError>
    ensures { IfOk result (λ v. IsAgenda events.entry.items 0 v.items) }
{
    let mut agenda = events;
    agenda.sort_by_key(|event| event.moment())?;
    Ok(agenda)
}

// How many events of an agenda come no later than a moment.
fn count_until(agenda: &[PlacedEvent<'_>], moment: u32) -> usize
    requires { IsNonDecreasingBy (λ e. e.moment) agenda.now }
    ensures bound { result ≤ length agenda.now }
    ensures until { All (λ e. e.moment ≤ moment) (take result agenda.now) }
    ensures after { All (λ e. moment < e.moment) (drop result agenda.now) }
{
    agenda.partition_point(|event| event.moment() <= moment)
}

/// The first tick of an agenda, None if it has no event.
pub fn next_tick<'a, 't>(agenda: &'a [PlacedEvent<'t>]) -> Option<Tick<'a, 't>>
    requires { IsNonDecreasingBy (λ e. e.moment) agenda.now }
    ensures { MatchOption result
        (agenda.now ≡ []) (λ t. IsNextTick agenda.now t.moment t.there.now) }
{
    let moment = agenda.first()?.moment();
    let (there, _) = agenda.split_at(count_until(agenda, moment));
    Some(Tick { moment, there })
}
