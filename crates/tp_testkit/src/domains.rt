//! Five small domains with a problem each, as the texts that tests read: what happens in them can
//! be worked out by hand.

/// A fuse is mended by the light of a match.
pub const MATCH: &str = "(define (domain match)
 (:requirements :typing :durative-actions)
 (:types match fuse)
 (:predicates (light) (unused ?m - match) (mended ?f - fuse))
 (:durative-action light-match :parameters (?m - match)
  :duration (= ?duration 8)
  :condition (and (at start (unused ?m)))
  :effect (and (at start (not (unused ?m))) (at start (light))
               (at end (not (light)))))
 (:durative-action mend-fuse :parameters (?f - fuse)
  :duration (= ?duration 5)
  :condition (over all (light))
  :effect (at end (mended ?f))))";

/// One match, one fuse.
pub const MATCHES: &str = "(define (problem p) (:domain match) (:objects m1 - match f1 - fuse)
 (:init (unused m1)) (:goal (mended f1)))";

/// Two atoms that are needed, dropped, given and watched over.
pub const TOGGLE: &str = "(define (domain toggle)
 (:predicates (p) (q) (done))
 (:action need :parameters () :precondition (p) :effect (done))
 (:action drop :parameters () :effect (not (p)))
 (:action give :parameters () :effect (q))
 (:durative-action watch :parameters () :duration (= ?duration 5)
  :condition (over all (or (p) (q))) :effect (at end (done))))";

/// The first of them is true.
pub const TOGGLED: &str = "(define (problem p) (:domain toggle) (:init (p)) (:goal (done)))";

/// A tank that is filled from two sides, and held below a level.
pub const TANK: &str = "(define (domain tank)
 (:functions (level))
 (:action fill-a :parameters () :effect (increase (level) 1))
 (:action fill-b :parameters () :effect (increase (level) 2))
 (:durative-action hold :parameters () :duration (>= ?duration 1)
  :condition (over all (<= (level) 3)) :effect ()))";

/// Nothing is in it.
pub const EMPTY_TANK: &str = "(define (problem p) (:domain tank)
 (:init (= (level) 0)) (:goal (>= (level) 3)))";

/// A charge that grows with its duration, and a rest of the same lengths.
pub const CHARGE: &str = "(define (domain charge)
 (:predicates (full))
 (:functions (e))
 (:durative-action charge :parameters ()
  :duration (and (>= ?duration 2) (<= ?duration 6))
  :effect (at end (increase (e) (* ?duration 2))))
 (:durative-action rest :parameters ()
  :duration (and (>= ?duration 2) (<= ?duration 6))
  :effect (at end (full))))";

/// Nothing is charged.
pub const UNCHARGED: &str = "(define (problem p) (:domain charge)
 (:init (= (e) 0)) (:goal (or (>= (e) 8) (full))))";

/// A fluent that each step sets.
pub const LINE: &str = "(define (domain line) (:functions (x))
 (:action set :parameters () :effect (assign (x) 1)))";

/// It begins as 0 and is to be 1.
pub const UNSET: &str = "(define (problem p) (:domain line) (:init (= (x) 0)) (:goal (= (x) 1)))";
