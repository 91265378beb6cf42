//! Tasks of all actions, of those in reach, and of those that joins leave.

use std::alloc::{AllocError, Global};
use std::test::Fail;
use tp_bounds::Limits;
use tp_ground::{ground, ground_reached};
use tp_ground_joins::ground_joined;
use tp_ground_named::begin;
use tp_syntax::{Domain, Problem, read_domain, read_problem};
use tp_task::{ActionId, AtomId, GroundFault, Task, TooManyKind};
use tp_testkit::{FUSES, MATCH, MATCHES, TANK, TOGGLE, task_of};
use tp_text::Scale;

/// Which actions a task has.
#[derive(Clone, Copy)]
enum Which {
    All,
    InReach,
}

fn grounded(
    alloc: Global,
    which: Which,
    domain: &Domain,
    problem: &Problem,
    limits: &Limits,
) -> Result<Task, GroundFault> {
    match which {
        Which::All => ground(alloc, domain, problem, limits, Scale::One),
        Which::InReach => ground_reached(alloc, domain, problem, limits, Scale::One),
    }
}

/// A domain, a problem, and which of its actions count.
type World = (Which, &'static str, &'static str);

fn task_in(
    alloc: Global,
    world: World,
    limits: &Limits,
) -> Result<Result<Task, GroundFault>, Fail> {
    let domain = read_domain(alloc, world.1)?;
    let problem = read_problem(alloc, world.2, &domain)?;
    Ok(grounded(alloc, world.0, &domain, &problem, limits))
}

const UNSWITCHED: &str = "(define (problem p) (:domain toggle) (:init) (:goal (done)))";

/// The second match can't be lit, but its end asks for nothing.
const TWO_MATCHES: &str = "(define (problem p) (:domain match)
 (:objects m1 m2 - match f1 - fuse) (:init (unused m1)) (:goal (mended f1)))";

const FULL: &str = "(define (problem p) (:domain tank)
 (:init (= (level) 1000000000000000)) (:goal (>= (level) 3)))";

const PAST: &str = "(define (problem p) (:domain tank)
 (:init (= (level) 1000000000000001)) (:goal (>= (level) 3)))";

/// A world, the most atoms and actions, and what keeps it from having a task, if anything does.
type Limited = (World, (u32, u32), Option<GroundFault>);

const ATOMS: Option<GroundFault> = Some(GroundFault::TooMany(TooManyKind::Atoms));

const ACTIONS: Option<GroundFault> = Some(GroundFault::TooMany(TooManyKind::Actions));

const LIMITED: [Limited; 9] = [
    ((Which::All, MATCH, MATCHES), (2, 2), ATOMS),
    ((Which::All, MATCH, MATCHES), (3, 1), ACTIONS),
    ((Which::All, MATCH, MATCHES), (3, 2), None),
    ((Which::All, TANK, PAST), (9, 9), Some(GroundFault::Range)),
    ((Which::All, TANK, FULL), (9, 9), None),
    ((Which::All, TOGGLE, UNSWITCHED), (9, 4), None),
    ((Which::All, TOGGLE, UNSWITCHED), (9, 3), ACTIONS),
    // only what is kept counts
    ((Which::InReach, TOGGLE, UNSWITCHED), (9, 3), None),
    ((Which::InReach, TOGGLE, UNSWITCHED), (9, 2), ACTIONS),
];

fn fault_of(alloc: Global, row: Limited) -> Result<Option<GroundFault>, Fail> {
    let (atoms, actions) = row.1;
    let limits = Limits::new(10, 10, 10, 100, atoms.min(100), actions.min(100), 10);
    Ok(task_in(alloc, row.0, &limits)?.err())
}

#[test]
fn tasks_within_limits(rt: HostRuntime) -> Result<(), Fail> {
    for row in LIMITED {
        let fault = fault_of(rt.alloc(), row)?;
        assert!(rt; fault == row.2, "{fault:?}");
    }
    Ok(())
}

/// A world, how many atoms its task has, and the actions in order.
type Told = (World, usize, &'static [&'static str]);

const TOLD: [Told; 4] = [
    (
        (Which::All, MATCH, MATCHES),
        3,
        &["(light-match m1)", "(mend-fuse f1)"],
    ),
    (
        (Which::All, TOGGLE, UNSWITCHED),
        3,
        &["(need)", "(drop)", "(give)", "(watch)"],
    ),
    (
        (Which::InReach, TOGGLE, UNSWITCHED),
        3,
        &["(drop)", "(give)", "(watch)"],
    ),
    (
        (Which::InReach, MATCH, TWO_MATCHES),
        4,
        &["(light-match m1)", "(light-match m2)", "(mend-fuse f1)"],
    ),
];

fn tells(task: &Task, atoms: usize, actions: &[&str]) -> Result<bool, AllocError> {
    for (number, text) in actions.iter().enumerate() {
        let Ok(number) = u32::try_from(number) else {
            return Ok(false);
        };
        let told = task.action_text(ActionId(number))?;
        if told.as_str() != *text {
            return Ok(false);
        }
    }
    Ok(task.actions.len() == actions.len() && task.initial_atoms.len() == atoms)
}

fn is_told(alloc: Global, row: Told) -> Result<bool, Fail> {
    let task = task_in(alloc, row.0, &Limits::greatest(100))?;
    let task = task.ok().ok_or("no task")?;
    Ok(tells(&task, row.1, row.2)?)
}

#[test]
fn actions_are_told_in_order(rt: HostRuntime) -> Result<(), Fail> {
    for row in TOLD {
        assert!(rt; is_told(rt.alloc(), row)?);
    }
    Ok(())
}

/// Whether the actions of match are found by all their words, and by no others.
fn finds(task: &Task) -> bool {
    task.action("light-match", &["m1"]) == Some(ActionId(0))
        && task.action("mend-fuse", &["f1"]) == Some(ActionId(1))
        && task.action("mend-fuse", &["m1"]) == None
        && task.action("mend-fuse", &[]) == None
}

/// Whether the match is unused at first, and nothing else is true.
fn begins(task: &Task) -> Result<bool, AllocError> {
    let first = task.atom_text(AtomId(0))?;
    Ok(
        first.as_str() == "(unused m1)"
            && task.initial_atoms.as_slice() == [true, false, false].as_slice(),
    )
}

#[test]
fn actions_and_atoms_of_match(rt: HostRuntime) -> Result<(), Fail> {
    let task = task_of(rt.alloc(), FUSES)?;
    assert!(rt; finds(&task) && begins(&task)?);
    Ok(())
}

const ROADS: &str = "(define (domain roads) (:types place truck hoist)
 (:predicates (road ?x ?y - place) (at ?x - (either truck hoist) ?y - place) (idle ?x - hoist))
 (:functions (length ?x ?y - place) (loads ?x - place))
 (:durative-action drive :parameters (?t - truck ?x ?y - place) :duration (= ?duration (length ?x ?y))
  :condition (and (at start (at ?t ?x)) (over all (road ?x ?y)))
  :effect (and (at start (not (at ?t ?x))) (at end (at ?t ?y))))
 (:action meet :parameters (?a ?b - truck ?x - place)
  :precondition (and (at ?a ?x) (at ?b ?x) (not (= ?a ?b))) :effect (increase (loads ?x) 1))
 (:action lift :parameters (?h - hoist ?x - place)
  :precondition (at ?h ?x) :effect (idle ?h)))";

// Both trucks drive from a to b and back, but never come to c, and meet only each other. No effect
// brings a hoist to a place, though effects bring trucks there.
const MAP: &str = "(define (problem p) (:domain roads)
 (:objects a b c d - place s t - truck g h - hoist)
 (:init (road a b) (road b a) (road c d) (= (length a b) 3) (= (length b a) 4)
  (= (length c d) 5) (at s a) (at t b) (at h b) (= (loads a) 0) (= (loads b) 0)) (:goal (idle h)))";

/// How many actions joins leave under a limit of so many, and whether they are all; None where
/// these are too many.
fn joined(
    alloc: Global,
    domain: &Domain,
    problem: &Problem,
    limits: &Limits,
) -> Option<(usize, bool)> {
    match begin(alloc, domain, problem, limits) {
        Ok(begun) => match ground_joined(alloc, domain, problem, begun, limits, Scale::One) {
            Ok(joined) => Some((joined.task.actions.len(), joined.is_whole)),
            Err(_) => None,
        },
        Err(_) => None,
    }
}

fn kept(alloc: Global, actions: u32) -> Result<Option<(usize, bool)>, Fail> {
    let domain = read_domain(alloc, ROADS)?;
    let problem = read_problem(alloc, MAP, &domain)?;
    let limits = Limits::new(100, 100, 100, 100, 10, actions.min(100), 10);
    Ok(joined(alloc, &domain, &problem, &limits))
}

// By three of the nine all atoms are reached that are not there at first.
#[test]
fn too_many_actions_are_thinned_out(rt: HostRuntime) -> Result<(), Fail> {
    for (actions, wanted) in [
        (10, Some((9, true))),
        (9, Some((9, true))),
        (8, Some((8, false))),
        (3, Some((3, false))),
        (2, None),
    ] {
        let found = kept(rt.alloc(), actions)?;
        assert!(rt; found == wanted, "{actions}: {found:?}");
    }
    Ok(())
}
