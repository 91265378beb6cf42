//! The steps that run, by the ticks that they have left.

use std::alloc::AllocError;
use tp_search_compiled::Running;

/// A step that runs: the ticks that it has left, its action and its duration.
#[derive(Clone, Copy, PartialEq, Eq, PartialOrd, Ord)]
pub struct Due {
    pub left: u32,
    pub action: u32,
    pub duration: u32,
}

fn due_of(run: &Running) -> Due {
    Due {
        left: run.left,
        action: run.action,
        duration: run.duration,
    }
}

/// Lists running steps, the one first whose end comes first.
pub fn list_dues(running: &[Running], into: &mut Vec<Due>) -> Result<(), AllocError> {
    into.clear();
    for run in running {
        into.push(due_of(run))?;
    }
    into.sort_unstable();
    Ok(())
}

// The ticks that the step at a place has left, None past the last one.
fn left_at(dues: &[Due], place: usize) -> Option<u32> {
    match dues.get(place) {
        Some(due) => Some(due.left),
        None => None,
    }
}

/// Where the steps end that have as many ticks left as the one at a place.
pub fn group_end(dues: &[Due], from: usize) -> usize {
    let left = left_at(dues, from);
    let mut to = from.saturating_add(1);
    for _ in 0..dues.len() {
        if to >= dues.len() || left_at(dues, to) != left {
            break;
        }
        to = to.saturating_add(1);
    }
    to
}
