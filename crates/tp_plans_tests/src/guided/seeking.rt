//! What searches of small worlds come to.

use std::alloc::{AllocError, Global};
use std::test::Fail;
use tp_guided::{Guided, Proposal};
use tp_task::Task;
use tp_testkit::{CHARGES, FUSES, LINES, SWITCHES, TANKS, World, kept_of};
use tp_text::Scale;

/// A lamp that burns for 2 to 20 ticks, and a repair of 10 for which it has to.
const LAMP: &str = "(define (domain lamp) (:requirements :durative-actions)
 (:predicates (lit) (dark) (mended))
 (:durative-action burn :parameters () :duration (and (>= ?duration 2) (<= ?duration 20))
  :condition (at start (dark))
  :effect (and (at start (not (dark))) (at start (lit)) (at end (not (lit)))))
 (:durative-action mend :parameters () :duration (= ?duration 10)
  :condition (over all (lit)) :effect (at end (mended))))";

const UNMENDED: &str = "(define (problem p) (:domain lamp) (:init (dark)) (:goal (mended)))";

const LAMPS: World<'static> = World {
    domain: LAMP,
    problem: UNMENDED,
    scale: Scale::One,
    horizon: 100,
};

/// The steps of a plan, None where there is none, the expansions, and whether no node was left.
type Found = (Option<usize>, u32, bool);

fn found_in(proposal: &Proposal) -> Found {
    let steps = proposal.steps.as_ref().map(|steps| steps.len());
    (steps, proposal.spent, proposal.exhausted)
}

fn seek(
    alloc: Global,
    task: &Task,
    horizon: u32,
    budget: u32,
    before: Option<u32>,
) -> Result<Found, AllocError> {
    let mut guided = Guided::new(alloc, task, horizon)?;
    let proposal = guided.seek(budget, before)?;
    Ok(found_in(&proposal))
}

/// A world, the horizon, the budget, before when the plan is to end, and what is found.
type Row = (World<'static>, u32, u32, Option<u32>, Found);

const ROWS: [Row; 12] = [
    (FUSES, 8, 1000, None, (Some(2), 2, false)),
    // A match burns for 8 ticks. Five rounds look at the root, which is dead.
    (FUSES, 7, 1000, None, (None, 5, true)),
    (SWITCHES, 100, 1000, None, (Some(1), 1, false)),
    (TANKS, 100, 1000, None, (Some(2), 1, false)),
    (CHARGES, 100, 1000, None, (Some(2), 4, false)),
    (LINES, 100, 1000, None, (Some(1), 1, false)),
    // It burns as long as the repair takes.
    (LAMPS, 100, 1000, None, (Some(2), 2, false)),
    (FUSES, 100, 0, None, (None, 0, false)),
    (FUSES, 100, 1, None, (None, 1, false)),
    // The match burns until tick 8. Sixteen rounds look at the root.
    (FUSES, 100, 1000, Some(9), (Some(2), 2, false)),
    (FUSES, 100, 1000, Some(8), (None, 16, true)),
    (FUSES, 100, 1000, Some(0), (None, 0, true)),
];

fn found_of(alloc: Global, row: Row) -> Result<Found, Fail> {
    let task = kept_of(alloc, row.0)?;
    Ok(seek(alloc, &task, row.1, row.2, row.3)?)
}

#[test]
fn what_searches_come_to(rt: HostRuntime) -> Result<(), Fail> {
    for row in ROWS {
        let found = found_of(rt.alloc(), row)?;
        assert!(rt; found == row.4, "{found:?}");
    }
    Ok(())
}

// The second call goes on with the next round.
#[test]
fn a_search_goes_on(rt: HostRuntime) -> Result<(), Fail> {
    let task = kept_of(rt.alloc(), FUSES)?;
    let mut guided = Guided::new(rt.alloc(), &task, 100)?;
    let first = guided.seek(1, None)?;
    assert!(rt; found_in(&first) == (None, 1, false));
    let second = guided.seek(10, None)?;
    assert!(rt; found_in(&second) == (Some(2), 2, false));
    Ok(())
}
