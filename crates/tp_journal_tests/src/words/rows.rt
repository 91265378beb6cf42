//! Calls with what they come to, worked out by hand.

use tp_testkit::{CHARGE, EMPTY_TANK, MATCH, MATCHES, TANK, TOGGLE, TOGGLED, UNCHARGED};

/// Files in memory, each with its name.
pub(super) type Texts = &'static [(&'static str, &'static str)];

/// The words of a call, the files that it may open and the standard input, and what it comes to:
/// its exit status, and what it writes to the standard output and to the standard error. Where the
/// latter ends without a line feed, more may follow.
pub(super) type Row = (
    &'static str,
    Texts,
    &'static str,
    u8,
    &'static str,
    &'static str,
);

/// A gate that is looked through where it is open, and that can be shut.
pub(super) const GATE: &str = "(define (domain gate) (:predicates (open))
 (:action look :precondition (open) :effect ())
 (:action take :effect (not (open))))";

/// It is open.
pub(super) const OPEN_GATE: &str = "(define (problem p) (:domain gate) (:init (open)) (:goal ()))";

const FUSES: Texts = &[
    ("domain", MATCH),
    ("problem", MATCHES),
    ("plan", "0: (light-match m1) [8]\n0: (mend-fuse f1) [5]\n"),
];

const LATE: Texts = &[
    ("domain", MATCH),
    ("problem", MATCHES),
    ("plan", "0: (light-match m1) [8]\n4: (mend-fuse f1) [5]\n"),
];

const DARK: Texts = &[
    ("domain", MATCH),
    (
        "problem",
        "(define (problem p) (:domain match) (:objects m1 - match f1 - fuse)\n (:init) (:goal (mended f1)))",
    ),
];

const SPARE: Texts = &[
    ("domain", MATCH),
    (
        "problem",
        "(define (problem p) (:domain match) (:objects m1 m2 - match f1 - fuse)\n (:init (unused m1)) (:goal (unused m2)))",
    ),
];

const CLASH: Texts = &[
    ("domain", TOGGLE),
    ("problem", TOGGLED),
    ("plan", "3: (need)\n3: (drop)\n"),
];

const NEED: Texts = &[
    ("domain", TOGGLE),
    ("problem", TOGGLED),
    ("plan", "3: (need)\n4: (drop)\n"),
];

const DROP: Texts = &[
    ("domain", TOGGLE),
    ("problem", TOGGLED),
    ("plan", "3: (drop)\n4: (need)\n"),
];

const WATCH: Texts = &[
    ("domain", TOGGLE),
    ("problem", TOGGLED),
    ("plan", "0: (watch) [5]\n2: (give)\n3: (drop)\n"),
];

const IDLE: Texts = &[("domain", TOGGLE), ("problem", TOGGLED), ("plan", "")];

const MET: Texts = &[
    ("domain", TOGGLE),
    (
        "problem",
        "(define (problem p) (:domain toggle) (:init (p)) (:goal (p)))",
    ),
    ("plan", ""),
];

const FILLS: Texts = &[
    ("domain", TANK),
    ("problem", EMPTY_TANK),
    ("plan", "1: (fill-a)\n1: (fill-b)\n"),
];

const HOLD: Texts = &[
    ("domain", TANK),
    ("problem", EMPTY_TANK),
    ("plan", "0: (hold) [4]\n1: (fill-a)\n1: (fill-b)\n"),
];

const LONG: Texts = &[
    ("domain", CHARGE),
    ("problem", UNCHARGED),
    ("plan", "0: (charge) [7]\n"),
];

const FOUR: Texts = &[
    ("domain", CHARGE),
    ("problem", UNCHARGED),
    ("plan", "0: (charge) [4]\n"),
];

const REST: Texts = &[
    ("domain", CHARGE),
    ("problem", UNCHARGED),
    ("plan", "0: (rest) [4]\n"),
];

const SHORT: Texts = &[
    ("domain", CHARGE),
    ("problem", UNCHARGED),
    ("plan", "0.001: (charge) [2.000]\n"),
];

const FINE: Texts = &[
    ("domain", CHARGE),
    ("problem", UNCHARGED),
    ("plan", "0.001: (charge) [4.000]\n"),
];

const HALF: Texts = &[
    ("domain", CHARGE),
    ("problem", UNCHARGED),
    ("plan", "0.001: (charge) [4.5]\n"),
];

const UNEVEN: Texts = &[
    ("domain", CHARGE),
    ("problem", UNCHARGED),
    ("plan", "0.0005: (charge) [4]\n"),
];

const AGENTS: Texts = &[
    ("domain", MATCH),
    ("problem", MATCHES),
    ("plan", "0: (light-match m1) [8]\n0: (mend-fuse f1) [5]\n"),
    ("owners", "0 0 1 1"),
];

const FEW: Texts = &[
    ("domain", MATCH),
    ("problem", MATCHES),
    ("plan", "0: (light-match m1) [8]\n0: (mend-fuse f1) [5]\n"),
    ("owners", "0 0 1"),
];

const NIGHT: Texts = &[(
    "log",
    "journal 1\nnetwork 2 100\nbare\n> add o 0 10\n< bound 0\n> add 0 o -3\n< bound 1\n> window 0\n< window 3 10\n> window 1\n< window 0 100\n> add 0 o -11\n< refused conflict new b0\n> window 0\n< window 3 10\n> add o 1 7\n< bound 2\n",
)];

const DOUBTED: Texts = &[(
    "log",
    "journal 1\nnetwork 2 100\nbare\n> add o 0 10\n< bound 0\n> add 0 o -3\n< bound 1\n> window 0\n< window 3 10\n> window 1\n< window 0 100\n> add 0 o -11\n< refused conflict new b1\n> window 0\n< window 3 10\n> add o 1 7\n< bound 2\n",
)];

const CUT: Texts = &[(
    "log",
    "journal 1\nnetwork 2 100\nbare\n> add o 0 10\n< bound 0\n> add 0 o -3\n< bound 1\n> window 0\n< window 3 10\n> window 1\n< window 0 100\n> add 0 o -11\n< refused conflict new b0\n> window 0\n< window 3 10\n> add o 1 7\n",
)];

const SUPPLY: Texts = &[
    (
        "domain",
        "(define (domain supply)\n (:functions (stock))\n (:action square :parameters () :effect (increase (stock) (* (stock) (stock)))))",
    ),
    (
        "problem",
        "(define (problem p) (:domain supply)\n (:init (= (stock) 1000000000)) (:goal (> (stock) 0)))",
    ),
    ("plan", "0: (square)\n"),
];

const OWED: Texts = &[
    (
        "domain",
        "(define (domain supply)\n (:functions (stock))\n (:action square :parameters () :effect (increase (stock) (* (stock) (stock)))))",
    ),
    (
        "problem",
        "(define (problem p) (:domain supply)\n (:init (= (stock) 1000000000)) (:goal (< (stock) 0)))",
    ),
];

const GREAT: Texts = &[
    (
        "domain",
        "(define (domain supply)\n (:functions (stock))\n (:action square :parameters () :effect (increase (stock) (* (stock) (stock)))))",
    ),
    (
        "problem",
        "(define (problem p) (:domain supply)\n (:init (= (stock) 1000000000000001)) (:goal (> (stock) 0)))",
    ),
];

const OPEN: Texts = &[("domain", "(define (domain d)")];

const OTHER: Texts = &[("domain", CHARGE), ("problem", TOGGLED)];

const DASH: Texts = &[
    ("domain", CHARGE),
    ("problem", UNCHARGED),
    ("plan", "0: (dash) [1]\n"),
];

/// Calls that are answered.
pub(super) const CALLS: [Row; 38] = [
    (
        "bare",
        &[],
        "network 2 100\nadd o 0 10\nadd 0 o -3\nwindow 0\nwindow 1\n",
        0,
        "bound 0\nbound 1\nwindow 3 10\nwindow 0 100\n",
        "",
    ),
    (
        "bare",
        &[],
        "network 2 100\nadd o 0 10\nadd 0 o -3\nadd 0 o -11\nwindow 0\nadd o 1 7\n",
        0,
        "bound 0\nbound 1\nrefused conflict new b0\nwindow 3 10\nbound 2\n",
        "",
    ),
    (
        "bare",
        &[],
        "network 0 0\nreport\nadvance 0\nwindow 0\n",
        0,
        "report 0 bare\nok\nrefused event\n",
        "",
    ),
    (
        "bare",
        &[],
        "network 1 5\nadvance 6\nadvance 5\nwindow 0\ndispatch 0\ndispatch 0\nadvance 4\nreport\n",
        0,
        "refused moment\nok\nwindow 5 5\nok\nrefused done\nrefused back\nreport 5 bare 5!\n",
        "",
    ),
    (
        "bare",
        &[],
        "network 1 5\nadd 0 0 0\nadd 0 0 -1\nwithdraw 0\nwithdraw 0\n\nwindo 0\nwindow 0",
        0,
        "bound 0\nrefused conflict new\nok\nrefused bound\nrefused line\nwindow 0 5\n",
        "",
    ),
    (
        "bare",
        &[],
        "network 1 5\nadd o 0 2000000000\nadd o 0 2000000001\nadd o 0 -2000000000\nadd 0 o -6\nadd 1 0 5000000000\nadd o 0 99999999999\n",
        0,
        "bound 0\nrefused weight\nrefused conflict new now0\nrefused conflict new end0\nrefused event\nrefused line\n",
        "",
    ),
    (
        "bare",
        &[],
        "network 1 5\nadd 0 o -2\ndispatch 0\nadvance 3\ndispatch 0\nadd o 0 2\n",
        0,
        "bound 0\nrefused conflict past0+ b0\nok\nok\nrefused conflict new past0-\n",
        "",
    ),
    ("", &[], "network 1 5\nwindow 0\n", 0, "window 0 5\n", ""),
    (
        "plan domain problem --budget 7",
        FUSES,
        "",
        0,
        "0: (light-match m1) [8]\n0: (mend-fuse f1) [5]\n",
        "",
    ),
    (
        "plan domain problem --budget 6",
        FUSES,
        "",
        1,
        "spent 6\n",
        "",
    ),
    (
        "plan domain problem --budget 0",
        FUSES,
        "",
        1,
        "spent 0\n",
        "",
    ),
    ("plan domain problem", DARK, "", 1, "exhausted\n", ""),
    ("plan domain problem", SPARE, "", 1, "unreachable\n", ""),
    (
        "solve domain problem",
        FUSES,
        "",
        0,
        "0: (light-match m1) [8]\n0: (mend-fuse f1) [5]\n",
        "",
    ),
    ("check domain problem plan", FUSES, "", 0, "valid\n", ""),
    (
        "check domain problem plan",
        LATE,
        "",
        1,
        "invalid 8 over-all 1\n",
        "",
    ),
    (
        "check domain problem plan",
        CLASH,
        "",
        1,
        "invalid 3 interferes 0 1\n",
        "",
    ),
    ("check domain problem plan", NEED, "", 0, "valid\n", ""),
    (
        "check domain problem plan",
        DROP,
        "",
        1,
        "invalid 4 condition 1\n",
        "",
    ),
    ("check domain problem plan", WATCH, "", 0, "valid\n", ""),
    (
        "check domain problem plan",
        IDLE,
        "",
        1,
        "invalid 0 goal\n",
        "",
    ),
    ("check domain problem plan", MET, "", 0, "valid\n", ""),
    (
        "check domain problem plan",
        LONG,
        "",
        1,
        "invalid 0 duration 0\n",
        "",
    ),
    (
        "check domain problem plan --scale 1000",
        SHORT,
        "",
        1,
        "invalid 2001 goal\n",
        "",
    ),
    (
        "check domain problem plan --scale 1000",
        FINE,
        "",
        0,
        "valid\n",
        "",
    ),
    (
        "check domain problem plan --scale 1000",
        HALF,
        "",
        1,
        "invalid 4501 undefined 1\n",
        "",
    ),
    (
        "net domain problem plan",
        FUSES,
        "",
        0,
        "event 0 start 0 (light-match m1)\nevent 1 end 0 (light-match m1)\nevent 2 start 1 (mend-fuse f1)\nevent 3 end 1 (mend-fuse f1)\nbound 0 1 0 -1\nbound 1 1 0 -8\nbound 2 0 1 8\nbound 3 3 2 -5\nbound 4 2 3 5\nbound 5 2 0 0\nbound 6 1 3 0\n",
        "",
    ),
    (
        "run domain problem plan",
        WATCH,
        "dispatch 0\nadvance 1\ndispatch 3\nwindow 2\nadvance 2\ndispatch 2\nadvance 5\ndispatch 1\n",
        0,
        "ok\nok\nok\nwindow 1 1\nrefused conflict now2 past3+ b6\nok\nok\nok\nplan\n0: (watch) [5]\n1: (give)\n1: (drop)\n",
        "",
    ),
    (
        "net domain problem plan --horizon 100",
        FILLS,
        "",
        0,
        "event 0 at 0 (fill-a)\nevent 1 at 1 (fill-b)\n",
        "",
    ),
    (
        "run domain problem plan",
        FUSES,
        "dispatch 0\nwindow 2\n",
        1,
        "ok\nwindow 0 3\n",
        "",
    ),
    (
        "run domain problem plan",
        FOUR,
        "dispatch 0\nwindow 1\n",
        1,
        "ok\nwindow 4 4\n",
        "",
    ),
    (
        "run domain problem plan",
        REST,
        "dispatch 0\nwindow 1\n",
        1,
        "ok\nwindow 2 6\n",
        "",
    ),
    (
        "run domain problem plan --horizon 100",
        FILLS,
        "window 0\nwindow 1\n",
        1,
        "window 0 100\nwindow 0 100\n",
        "",
    ),
    (
        "run domain problem plan --horizon 100",
        HOLD,
        "dispatch 0\nwindow 2\nadvance 2\ndispatch 2\nwindow 3\nwindow 1\n",
        1,
        "ok\nwindow 0 100\nok\nok\nwindow 2 2\nwindow 2 100\n",
        "",
    ),
    (
        "run domain problem plan",
        FUSES,
        "dispatch 0\ndispatch 2\nadvance 5\ndispatch 3\nadvance 8\ndispatch 1\n",
        0,
        "ok\nok\nok\nok\nok\nok\nplan\n0: (light-match m1) [8]\n0: (mend-fuse f1) [5]\n",
        "",
    ),
    ("audit log", NIGHT, "", 0, "audit ok 7\n", ""),
    ("audit log", DOUBTED, "", 1, "wrong 13\n", ""),
    (
        "split domain problem plan owners --horizon 100",
        AGENTS,
        "",
        0,
        "interval 0 0 0\ninterval 1 5 100\ninterval 2 0 100\ninterval 3 0 5\n",
        "",
    ),
];

/// Calls that end with a fault line.
pub(super) const FAULTS: [Row; 13] = [
    ("fly", &[], "", 2, "", "fault arguments 1"),
    (
        "check domain problem plan",
        &[],
        "",
        3,
        "",
        "fault file 1 read domain\n",
    ),
    (
        "check domain problem plan",
        OPEN,
        "",
        2,
        "",
        "fault domain 2 text 4 unclosed 0\n",
    ),
    (
        "check domain problem plan",
        OTHER,
        "",
        2,
        "",
        "fault problem 4 unknown 29\n",
    ),
    (
        "check domain problem plan",
        GREAT,
        "",
        2,
        "",
        "fault ground 3 range\n",
    ),
    (
        "check domain problem plan",
        DASH,
        "",
        2,
        "",
        "fault plan 3 no-action 1\n",
    ),
    (
        "check domain problem plan --scale 1000",
        UNEVEN,
        "",
        2,
        "",
        "fault plan 4 not-ticks 1\n",
    ),
    (
        "check domain problem plan",
        SUPPLY,
        "",
        2,
        "",
        "fault check 2 range\n",
    ),
    (
        "plan domain problem",
        OWED,
        "",
        2,
        "",
        "fault search 2 range\n",
    ),
    (
        "split domain problem plan owners",
        FEW,
        "",
        2,
        "",
        "fault split 2 owner 3\n",
    ),
    ("bare", &[], "advance 4\n", 2, "", "fault script 5 head\n"),
    (
        "bare --journal night",
        &[],
        "network 1 5\nwindow 0\n",
        3,
        "",
        "fault script 6 log\n",
    ),
    ("audit log", CUT, "", 2, "", "fault journal 3 line 17\n"),
];
