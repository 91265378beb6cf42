//! Domains that are read, printed and read again.

use std::alloc::Global;
use std::test::Fail;
use tp_device::{Failed, ToWrite};
use tp_syntax::{Domain, print_domain, read_domain};
use tp_testkit::{MATCH, TOGGLE};

/// What printing to so much room answers.
fn print_in(domain: &Domain, room: &mut [u8]) -> Result<(), Failed> {
    let mut sink = ToWrite::new(room);
    print_domain(domain, &mut sink)
}

/// Whether room of zeros gets just that text.
fn prints(domain: &Domain, text: &str) -> bool {
    let mut room = [0; 4096];
    let printed = print_in(domain, room.as_mut_slice());
    printed == Ok(())
        && room.starts_with(text.as_bytes())
        && room.iter().skip(text.len()).all(|byte| *byte == 0)
}

/// Whether a text's domain is printed as another text, which spells it too.
fn is_printed_as(alloc: Global, text: &str, wanted: &str) -> Result<bool, Fail> {
    let domain = read_domain(alloc, text)?;
    let again = read_domain(alloc, wanted)?;
    Ok(domain == again && prints(&domain, wanted))
}

/// Texts, and as what their domains are printed.
const ROWS: [(&str, &str); 9] = [
    ("(define (domain d))", "(define (domain d)\n)\n"),
    (
        "(define (domain D) (:predicates (P ?x ?y - a)) (:types a b - c))",
        "(define (domain d)\n(:types a - c b - c c - object)\n(:predicates (p ?x - a ?y - a))\n)\n",
    ),
    (
        MATCH,
        "(define (domain match)
(:requirements :typing :durative-actions)
(:types match - object fuse - object)
(:predicates (light) (unused ?m - match) (mended ?f - fuse))
(:durative-action light-match :parameters (?m - match) :duration (= ?duration 8) :condition (and (at start (unused ?m))) :effect (and (at start (not (unused ?m))) (at start (light)) (at end (not (light)))))
(:durative-action mend-fuse :parameters (?f - fuse) :duration (= ?duration 5) :condition (over all (light)) :effect (at end (mended ?f)))
)
",
    ),
    (
        TOGGLE,
        "(define (domain toggle)
(:predicates (p) (q) (done))
(:action need :parameters () :precondition (p) :effect (done))
(:action drop :parameters () :precondition (and) :effect (not (p)))
(:action give :parameters () :precondition (and) :effect (q))
(:durative-action watch :parameters () :duration (= ?duration 5) :condition (over all (or (p) (q))) :effect (at end (done)))
)
",
    ),
    (
        "(define (domain tank)
 (:functions (level) - number)
 (:action fill-a :parameters () :effect (increase (level) 1))
 (:action fill-b :effect (increase (level) 2))
 (:durative-action hold :parameters () :duration (>= ?duration 1)
  :condition (over all (<= (level) 3)) :effect ()))",
        "(define (domain tank)
(:functions (level))
(:action fill-a :parameters () :precondition (and) :effect (increase (level) 1))
(:action fill-b :parameters () :precondition (and) :effect (increase (level) 2))
(:durative-action hold :parameters () :duration (>= ?duration 1) :condition (over all (<= (level) 3)) :effect (and))
)
",
    ),
    (
        "(define (domain charge)
 (:predicates (full))
 (:functions (e))
 (:durative-action charge :parameters ()
  :duration (and (at start (>= ?duration 2)) (<= ?duration 6.0))
  :effect (at end (increase (e) (* ?duration 2))))
 (:durative-action rest :parameters ()
  :duration (and (>= ?duration 2) (<= ?duration 6))
  :effect (at end (full))))",
        "(define (domain charge)
(:predicates (full))
(:functions (e))
(:durative-action charge :parameters () :duration (and (>= ?duration 2) (<= ?duration 6)) :condition (and) :effect (at end (increase (e) (* ?duration 2))))
(:durative-action rest :parameters () :duration (and (>= ?duration 2) (<= ?duration 6)) :condition (and) :effect (at end (full)))
)
",
    ),
    (
        "(define (domain all) (:action go :effect (and (forall (?a ?b - (either t u)) (assign (f ?a) (- 2 (f b))))
   (scale-up (f B) (+ 1 (- (f c)))) (decrease (f b) -9223372036854775808) (P b)) :precondition
   (imply (not (exists (?x) (= ?X b))) (forall (?x - u) (or (= (f b) -0) (< (f b) 1) (> 1 2) (and (P ?x)) ()))) :parameters (?x))
   (:constants b c - t) (:types t - object u - t) (:functions (F ?x - t)) (:predicates (p ?x)))",
        "(define (domain all)
(:types t - object u - t)
(:constants b - t c - t)
(:predicates (p ?x - object))
(:functions (f ?x - t))
(:action go :parameters (?x - object) :precondition (imply (not (exists (?x - object) (= ?x b))) (forall (?x - u) (or (= (f b) 0) (< (f b) 1) (> 1 2) (and (p ?x)) (and)))) :effect (and (forall (?a - (either t u) ?b - (either t u)) (assign (f ?a) (- 2 (f b)))) (scale-up (f b) (+ 1 (- (f c)))) (decrease (f b) -9223372036854775808) (p b)))
)
",
    ),
    (
        "(DEFINE (Domain D) (:Predicates (AT ?T)) (:Durative-Action A :Parameters (?t) :Duration ()
 :Condition (AT START (at ?T))))",
        "(define (domain d)
(:predicates (at ?t - object))
(:durative-action a :parameters (?t - object) :duration (and) :condition (at start (at ?t)) :effect (and))
)
",
    ),
    (
        "(define (domain d) (:functions (f)) (:action a :precondition (< (f) 3.0)))",
        "(define (domain d)
(:functions (f))
(:action a :parameters () :precondition (< (f) 3) :effect (and))
)
",
    ),
];

#[test]
fn domains_are_printed_and_read_again(rt: HostRuntime) -> Result<(), Fail> {
    for (text, wanted) in ROWS {
        assert!(rt; is_printed_as(rt.alloc(), text, wanted)?, "{text}");
    }
    Ok(())
}

const SMALL: &str =
    "(define (domain d)\n(:predicates (p ?x - object))\n(:action a :parameters (?x - object) :precondition (and) :effect (p ?x))\n)\n";

/// Whether too little room gets the first bytes of the text.
fn is_cut_off(alloc: Global, domain: &Domain, length: usize) -> Result<bool, Fail> {
    let mut room = vec![in alloc; 0u8; length]?;
    let printed = print_in(domain, room.as_mut_slice());
    Ok(printed == Err(Failed) && SMALL.as_bytes().starts_with(room.as_slice()))
}

#[test]
fn what_was_written_before_a_failure_is_a_first_part(rt: HostRuntime) -> Result<(), Fail> {
    let domain = read_domain(rt.alloc(), SMALL)?;
    for length in 0..SMALL.len() {
        assert!(rt; is_cut_off(rt.alloc(), &domain, length)?, "{length}");
    }
    Ok(())
}
