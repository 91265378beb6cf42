//! A domain with a proposition of each kind, and how many events relaxed plans for its goals have.

use std::alloc::{AllocError, Global};
use std::process::Abort;
use std::test::Fail;
use tp_guided_costs::{DEAD, Heuristic, build};
use tp_search_compiled::{State, Task};
use tp_testkit::{World, kept_of};
use tp_text::Scale;

/// A lock, lamps that can be switched on while it is closed, and some numbers.
const KINDS: &str = "(define (domain kinds)
 (:requirements :typing :durative-actions)
 (:types lamp)
 (:predicates (closed) (on ?l - lamp) (lit) (night))
 (:functions (level) (count) (price) (unset))
 (:action open :parameters () :effect (not (closed)))
 (:action switch :parameters (?l - lamp) :precondition (closed) :effect (on ?l))
 (:action fill :parameters () :effect (increase (level) 2))
 (:action drain :parameters () :precondition (closed) :effect (decrease (level) 3))
 (:action set :parameters () :effect (assign (unset) 4))
 (:action pay :parameters () :precondition (>= (unset) 1)
  :effect (increase (price) (* (count) 2)))
 (:durative-action burn :parameters (?l - lamp) :duration (= ?duration 5)
  :condition (over all (on ?l))
  :effect (and (at start (lit)) (at end (not (lit))) (at end (night)))))";

/// What stands before the goal: it is closed, two lamps are off, the count is 3.
const BEFORE: &str = "(define (problem p) (:domain kinds) (:objects l1 l2 - lamp)
 (:init (closed) (= (level) 0) (= (count) 3) (= (price) 0)) (:goal ";

/// Goals, and the values of the state at first.
const GOALS: [(&str, u32); 16] = [
    ("(closed)", 0),
    // open
    ("(not (closed))", 1),
    // switch l1, switch l2
    ("(forall (?l - lamp) (on ?l))", 2),
    // switch l1
    ("(exists (?l - lamp) (on ?l))", 1),
    // open
    ("(imply (closed) (on l1))", 1),
    // fill four times
    ("(>= (level) 7)", 4),
    // drain twice
    ("(<= (+ (level) 6) 0)", 2),
    // fill three times: past it counts as there
    ("(= (level) 5)", 3),
    // fill once
    ("(not (= (level) 0))", 1),
    // set
    ("(= (unset) 4)", 1),
    // set, pay twice
    ("(>= (price) 10)", 3),
    // set, pay: it has a value
    ("(>= (- (price) (unset)) 1)", 2),
    // switch l1, burn l1
    ("(and (lit) (night))", 3),
    // switch l1, burn l1, switch l2, fill twice
    ("(and (night) (on l2) (>= (level) 3))", 6),
    // It has never a value below 0.
    ("(< (unset) 0)", DEAD),
    ("(>= (count) 4)", DEAD),
];

fn problem_for(alloc: Global, goal: &str) -> Result<String, AllocError> {
    let mut problem = String::from_str(alloc, BEFORE)?;
    problem.push_str(goal)?;
    problem.push_str("))")?;
    Ok(problem)
}

/// The task of the domain with a goal.
pub fn task_for(alloc: Global, goal: &str) -> Result<Task, Fail> {
    let problem = problem_for(alloc, goal)?;
    let ground = kept_of(
        alloc,
        World {
            domain: KINDS,
            problem: problem.as_str(),
            scale: Scale::One,
            horizon: 100,
        },
    )?;
    let kept = Vec::from_elem(alloc, true, ground.actions.len())?;
    Ok(Task::new(alloc, &ground, &kept, 100)?)
}

fn value_in(alloc: Global, task: &Task, by_most: bool, seed: u64) -> Result<u32, AllocError> {
    let state = State::initial(alloc, task)?;
    let relaxed = build(alloc, task, &state, None)?;
    let mut heuristic = Heuristic::new(alloc, task, &relaxed, by_most)?;
    let first = heuristic.evaluate(&state, &[], seed)?;
    let again = heuristic.evaluate(&state, &[], seed)?;
    Ok(if first == again { first } else { DEAD })
}

/// Whether the state at first has that value; whatever the costs and the ties, what is out of reach
/// stays so, and what is in reach is.
fn is_worth(rt: &impl Abort, alloc: Global, goal: &str, value: u32) -> Result<(), Fail> {
    let task = task_for(alloc, goal)?;
    let found = value_in(alloc, &task, false, 0)?;
    assert!(rt; found == value, "{goal}: {found}");
    let by_most = value_in(alloc, &task, true, 7)?;
    assert!(rt; (by_most == DEAD) == (value == DEAD), "{goal}: {by_most}");
    Ok(())
}

#[test]
fn goals_are_worth_their_events(rt: HostRuntime) -> Result<(), Fail> {
    for (goal, value) in GOALS {
        is_worth(&rt, rt.alloc(), goal, value)?;
    }
    Ok(())
}
