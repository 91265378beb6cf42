//! The commands of the program, their words and their help, as `clap` is told of them.

ghost use Rattle.std.specs.Prelude.{◌≡◌, false, IfOk, codes};
ghost use Rattle.clap.specs.Words.{app_of, new_app, rule_of, with_subcommand};
ghost use Rattle.clap.specs.declared.builder.command.Command.TheViews.{out-Command as fields_of};
ghost use Rattle.tp_cli_args.specs.Commands.{audit_app, auditing_app, bare_app, budget_rule, check_app, draw_app, drawing_app, explain_rule, file_rule, flag_rule, horizon_rule, journal_app, journal_rule, judging_app, net_app, network_app, options_app, other_rule, part_rule, plan_app, planning_app, resume_rule, run_app, scale_rule, search_app, solve_app, solve_budget_rule, solve_files, solving_app, split_app, splitting_app, start_app, tempo_app, timed_app, until_rule, with_others};

use clap::{Arg, ArgAction, Command, value_parser};
use std::alloc::{AllocError, Global};

/// The version of the program, and the logic that it is proved in, as `rt version` prints it after
/// the kit's name: kits that differ in nothing that a proof depends on have one logic.
const VERSION: &str = "0.3.0 (rattle logic dac8208d650f15bf)";

const ABOUT: &str = "Temporal planner, plan validator and plan executive for PDDL 2.1";

const EXIT: &str =
    "Without arguments, `tempo` is `tempo bare`. A file `-` is standard input: at most one file of a
call, and none of a command that reads commands there. With `--explain` faults, verdicts and
refusals are explained on standard error.

Exit status: 0 yes, 1 no, 2 refused input, 3 memory, a file or a stream failed.
With 2 and 3 a line `fault PART NUMBER WORD ..` is written to standard error.

Examples:
  printf 'network 1 5\\nwindow 0\\n' | tempo bare
  printf 'network 1 5\\nwindow 0\\n' | tempo bare --journal night.log
  tempo plan domain.pddl problem.pddl > plan.txt
  tempo solve domain.pddl problem.pddl --improve > plan.txt
  tempo check domain.pddl problem.pddl plan.txt
  tempo net domain.pddl problem.pddl plan.txt
  printf 'dispatch 0\\nadvance 3\\ndispatch 1\\n' | tempo run domain.pddl problem.pddl plan.txt
  printf 'dispatch 0\\n' | tempo run domain.pddl problem.pddl plan.txt --journal run.log
  tempo audit run.log domain.pddl problem.pddl plan.txt
  tempo split domain.pddl problem.pddl plan.txt owners.txt
  tempo draw domain.pddl problem.pddl plan.txt > plan.svg
  tempo solve domain.pddl problem.pddl | tempo check domain.pddl problem.pddl - --explain";

const BARE_ABOUT: &str = "Executes commands on a simple temporal network (STN)";

const BARE_HELP: &str =
    "Standard input has the line `network N H` (N events, the horizon H), then lines `lag E L` for events
that are reported up to L ticks late, if any, and then commands, one a line:

  advance T      now becomes T
  add F T W      adds a bound: the moment of T minus that of F is at most W
  withdraw ID    removes a bound
  window E       prints the least and the greatest moment of an event
  dispatch E     the event happens now
  happened E M   the event happened at M
  report         prints now, and a moment for each event

F and T are events, numbered from 0, or `o`, the origin (moment 0). Each command has one answer
line: `ok`, `bound ID`, `window LO HI`, `report NOW KIND M ..` or `refused WHY`.

Example:
  printf 'network 2 100\\nadd 0 1 5\\nwindow 1\\n' | tempo bare
prints
  bound 0
  window 0 100

With `--journal FILE` each command and its answer are written to the file before the answer is
printed, for `tempo audit FILE`. With `--resume OLD --journal NEW` the run whose journal is OLD
continues: NEW gets its head and its whole pairs, and standard input has only commands.";

const CHECK_ABOUT: &str = "Validates a plan, and prints its first fault";

const CHECK_HELP: &str = "Reads a domain and a problem of PDDL 2.1, and a plan, one step a line:

  TIME: (NAME ARG ..) [DURATION]

Prints `valid`, or `invalid TICK WHY`, where WHY is the first fault, of one tick in this order:

  duration STEP     the duration of STEP is not allowed
  undefined E       event E reads a fluent without a value
  condition E       the condition of event E does not hold
  clash E           event E writes a fluent twice, once by assign or scale-up
  interferes E F    events E and F of one tick interfere
  over-all STEP     the invariant of STEP does not hold after the tick
  goal              the goal does not hold at the end

Steps are numbered from 0 in the order of the plan, and events from 0 by step, the start of a step
before its end.

Example:
  tempo check domain.pddl problem.pddl plan.txt --scale 1000
prints
  valid";

const NET_ABOUT: &str = "Deorders a valid plan: prints the STN of all its schedules";

const NET_HELP: &str =
    "Reads a domain, a problem and a plan, as `check` does. For a valid plan it prints

  event E TEXT       each event; TEXT is `start STEP (NAME ARG ..)`, `end STEP ..` or `at STEP ..`
  bound ID F T W     each bound: the moment of T minus that of F is at most W ticks

The moments from 0 to the horizon that meet all bounds are those that keep the duration constraints
of the plan's steps, the order of its interfering events, and its invariants. Each makes a valid
plan. For an invalid plan it prints the line of `check`.

Example:
  tempo net domain.pddl problem.pddl plan.txt --horizon 100
prints
  event 0 start 0 (rest)
  event 1 end 0 (rest)
  bound 0 1 0 -2
  bound 1 0 1 6";

const RUN_ABOUT: &str =
    "Dispatches the network of a valid plan by commands, and prints the plan of the run";

const RUN_HELP: &str =
    "Reads a domain, a problem and a plan, as `check` does. For a valid plan it executes commands on the
network that `net` prints; the plan's bounds have its identifiers. Standard input has lines
`lag E L`, if any, and then the commands of `bare`, one a line. In a report the network is `kept`,
or `altered` once a bound of the plan was withdrawn.

If every event happened and the network is kept, `plan` and the plan of the run follow the answers,
each step at its moment. That plan is valid. For an invalid plan it prints the line of `check`.

With `--journal FILE` each command and its answer are written to the file before the answer is
printed; `tempo audit FILE` with the same three files, scale and horizon judges it. With
`--resume OLD --journal NEW` the run whose journal is OLD continues: NEW gets its head and its whole
pairs, and standard input has only commands.

Exit status: 0 a plan of the run was printed, 1 there is none, 2 refused input, 3 memory, a file or
a stream failed.

Example:
  printf 'dispatch 0\\nadvance 3\\ndispatch 1\\n' | tempo run domain.pddl problem.pddl plan.txt
prints
  ok
  ok
  ok
  plan
  0: (rest) [3]";

const PLAN_ABOUT: &str = "Searches for a plan of a problem";

const PLAN_HELP: &str =
    "Reads a domain and a problem of PDDL 2.1. Prints a valid plan, one step a line:

  TIME: (NAME ARG ..) [DURATION]

which `check` accepts. Nodes are expanded by the number of goal conjuncts that they lack; `solve` is
for larger problems. Without a plan it prints

  unreachable   no plan is valid: the goal is not met in the delete relaxation
  exhausted     no node is left to expand
  spent B       B nodes were expanded, the budget

With `--progress` it prints on standard error, after each 100000 expansions, the line

  expanded N waiting W lacking L

W is the number of waiting nodes, L the least number of goal conjuncts that a node lacked.

Example:
  tempo plan domain.pddl problem.pddl --budget 1000
prints
  0: (need)";

const SOLVE_ABOUT: &str = "Searches for a plan of a larger problem";

const SOLVE_HELP: &str =
    "Reads a domain and a problem of PDDL 2.1, and prints what `plan` prints: a valid plan, at the
earliest schedule of its network where that is found, or one of the lines `unreachable`,
`exhausted` and `spent B`.

The search is guided by relaxed plans, within three quarters of the budget; where it finds no plan,
the search of `plan` has the rest. With `--improve` it continues after its first plan until the
budget is spent, and prints the plan that ends first. With `--progress` it prints on standard error,
for each plan that is found, the line

  makespan M expanded N

A metric of the problem is ignored.

Example:
  tempo solve domain.pddl problem.pddl --improve --progress
prints
  0: (need)";

const AUDIT_ABOUT: &str =
    "Judges the journal of a run: each answer, by executing the commands again";

const AUDIT_HELP: &str =
    "Reads the journal of a run: its head, and for each line that had an answer a pair of the command,
after `> `, and the answer, after `< `. The commands are executed again, and each answer is judged.
It prints

  audit ok N     the file is a journal of N pairs
  wrong N        the answer on line N is not allowed

The network is that of the head. For the journal of `tempo run`, name the domain, the problem and
the plan: the network is that of the plan. For an invalid plan it prints the line of `check`.

Exit status: 0 for the first, 1 for the others, 2 refused input, 3 memory, a file or a stream
failed. A journal is refused by its first line that breaks the format (`fault journal 3 line N`), or
for the head of another network (`fault journal 5 head`).

Examples:
  tempo audit night.log
  tempo audit run.log domain.pddl problem.pddl plan.txt
print
  audit ok 7";

const SPLIT_ABOUT: &str =
    "Decouples the network of a valid plan among agents that do not communicate";

const SPLIT_HELP: &str =
    "Reads a domain, a problem and a plan, as `check` does, and from OWNERS the agent of each event, in
the order of `net`: whole numbers of one to four digits between blanks, at most 1023. For a valid
plan it prints

  interval E LO HI   each event that a bound joins with an event of another agent

Whatever ticks the agents choose inside these intervals, every bound between two agents is met, and
each agent can meet the bounds of its own events. For an invalid plan it prints the line of `check`.

With `--part A` it prints the network of agent A instead, as input of `tempo bare`: its events,
numbered from 0, the bounds among them, and two bounds for each of its intervals.

Exit status: 0 for the intervals, even if there are none, 1 for an invalid plan, 2 refused input, 3
memory, a file or a stream failed.

Example:
  printf '0 1\\n' >owners.txt
  tempo split domain.pddl problem.pddl plan.txt owners.txt --horizon 100
prints
  interval 0 0 0
  interval 1 2 6";

const DRAW_ABOUT: &str = "Draws a valid plan, or a run of it, as a picture";

const DRAW_HELP: &str =
    "Reads a domain, a problem and a plan, as `check` does. For a valid plan it prints an SVG picture: a
bar for each step, in lanes by the first object, the window of each start and end as a whisker, and
arrows for the bounds that hold them. Windows end at the horizon, by default the plan's own end. For
an invalid plan it prints the line of `check`.

With `--journal LOG` it draws the run of that journal up to its end: what happened, now, and the
windows that remain. LOG is judged as by `audit`. The horizon is then, by default, that of its head.

Example:
  tempo draw domain.pddl problem.pddl plan.txt > plan.svg";

/// A file that has to be named.
fn file_argument<'a>(alloc: Global, id: &'a str, help: &'a str) -> Arg<'a>
    ensures rule { rule_of result ≡ file_rule id.entry.now }
    ensures local { result.global ≡ false }
{
    Arg::new(alloc, id)
        .required(true)
        .action(ArgAction::Set)
        .help(help)
}

/// The ticks of a unit of time.
fn scale_option<'a>(alloc: Global) -> Arg<'a>
    ensures rule { rule_of result ≡ scale_rule }
    ensures local { result.global ≡ false }
{
    Arg::new(alloc, "scale")
        .long("scale")
        .value_name("S")
        .action(ArgAction::Set)
        .value_parser(value_parser!(u32).range(1..=1000))
        .default_value("1")
        .help("Ticks in a unit of time: 1, 10, 100 or 1000")
}

/// The tick that no step may end past.
fn horizon_option<'a>(alloc: Global) -> Arg<'a>
    ensures rule { rule_of result ≡ horizon_rule }
    ensures local { result.global ≡ false }
{
    Arg::new(alloc, "horizon")
        .long("horizon")
        .value_name("H")
        .action(ArgAction::Set)
        .value_parser(value_parser!(u32).range(0..=1000000000))
        .default_value("1000000")
        .help("The tick that no step may end past, from 0 to 1000000000")
}

/// The same without a tick where none is given.
fn until_option<'a>(alloc: Global) -> Arg<'a>
    ensures rule { rule_of result ≡ until_rule }
    ensures local { result.global ≡ false }
{
    Arg::new(alloc, "horizon")
        .long("horizon")
        .value_name("H")
        .action(ArgAction::Set)
        .value_parser(value_parser!(u32).range(0..=1000000000))
        .help("The tick at which windows end, from 0 to 1000000000")
}

/// How many nodes a search may expand.
fn budget_option<'a>(alloc: Global) -> Arg<'a>
    ensures rule { rule_of result ≡ budget_rule }
    ensures local { result.global ≡ false }
{
    Arg::new(alloc, "budget")
        .long("budget")
        .value_name("B")
        .action(ArgAction::Set)
        .value_parser(value_parser!(u32).range(0..=1000000))
        .default_value("100000")
        .help("Nodes that the search may expand, from 0 to 1000000")
}

/// How many nodes a guided search may expand.
fn solve_budget_option<'a>(alloc: Global) -> Arg<'a>
    ensures rule { rule_of result ≡ solve_budget_rule }
    ensures local { result.global ≡ false }
{
    Arg::new(alloc, "budget")
        .long("budget")
        .value_name("B")
        .action(ArgAction::Set)
        .value_parser(value_parser!(u32).range(0..=1000000000))
        .default_value("1000000")
        .help("Nodes that the search may expand, from 0 to 1000000000")
}

/// An option that is given or not.
fn flag_option<'a>(alloc: Global, id: &'a str, help: &'a str) -> Arg<'a>
    ensures rule { rule_of result ≡ flag_rule id.entry.now }
    ensures local { result.global ≡ false }
{
    Arg::new(alloc, id)
        .long(id)
        .action(ArgAction::SetTrue)
        .help(help)
}

/// Whether faults, verdicts and refusals are explained.
fn explain_option<'a>(alloc: Global) -> Arg<'a>
    ensures rule { rule_of result ≡ explain_rule }
    ensures local { result.global ≡ false }
{
    flag_option(
        alloc,
        "explain",
        "Explain faults, verdicts and refusals on standard error",
    )
}

/// The file of a journal that is kept.
fn journal_option<'a>(alloc: Global) -> Arg<'a>
    ensures rule { rule_of result ≡ journal_rule }
    ensures local { result.global ≡ false }
{
    Arg::new(alloc, "journal")
        .long("journal")
        .value_name("FILE")
        .action(ArgAction::Set)
        .help("The file of the journal; its old content is lost")
}

/// The file of a journal that is read.
fn log_option<'a>(alloc: Global) -> Arg<'a>
    ensures rule { rule_of result ≡ journal_rule }
    ensures local { result.global ≡ false }
{
    Arg::new(alloc, "journal")
        .long("journal")
        .value_name("LOG")
        .action(ArgAction::Set)
        .help("The journal of a run of the plan, to draw up to its end")
}

/// The file of a journal that a run goes on from.
fn resume_option<'a>(alloc: Global) -> Arg<'a>
    ensures rule { rule_of result ≡ resume_rule }
    ensures local { result.global ≡ false }
{
    Arg::new(alloc, "resume")
        .long("resume")
        .value_name("OLD")
        .action(ArgAction::Set)
        .help("The journal of a run to continue; --journal gets its pairs")
}

/// The agent whose part is printed.
fn part_option<'a>(alloc: Global) -> Arg<'a>
    ensures rule { rule_of result ≡ part_rule }
    ensures local { result.global ≡ false }
{
    Arg::new(alloc, "part")
        .long("part")
        .value_name("A")
        .action(ArgAction::Set)
        .value_parser(value_parser!(u32).range(0..=1023))
        .help("Print the network of this agent, as input of `tempo bare`")
}

/// The two options of commands that keep journals.
fn journal_options<'a>(alloc: Global, start: Command<'a>) -> Result<Command<'a>, AllocError>
    requires { (fields_of start).has_globals ≡ false }
    ensures app { IfOk result (λ c. app_of c ≡ journal_app (app_of start.entry)) }
    ensures local { IfOk result (λ c. (fields_of c).has_globals ≡ false) }
{
    start.arg(journal_option(alloc))?.arg(resume_option(alloc))
}

/// The command `bare` before it has its options.
fn bare_start<'a>(alloc: Global) -> Command<'a>
    ensures app { app_of result ≡ new_app (codes "bare") }
    ensures local { (fields_of result).has_globals ≡ false }
{
    Command::new(alloc, "bare")
        .about(BARE_ABOUT)
        .after_help(BARE_HELP)
}

/// The command `bare`.
fn bare_command<'a>(alloc: Global) -> Result<Command<'a>, AllocError>
    ensures app { IfOk result (λ c. app_of c ≡ bare_app) }
    ensures local { IfOk result (λ c. (fields_of c).has_globals ≡ false) }
{
    journal_options(alloc, bare_start(alloc))?.arg(explain_option(alloc))
}

/// A command that takes the files of a plan, before it has arguments.
fn plan_start<'a>(alloc: Global, name: &'a str, about: &'a str, help: &'a str) -> Command<'a>
    ensures app { app_of result ≡ new_app name.entry.now }
    ensures local { (fields_of result).has_globals ≡ false }
{
    Command::new(alloc, name).about(about).after_help(help)
}

/// The same with the scale, the horizon and whether it explains.
fn timed_command<'a>(alloc: Global, start: Command<'a>) -> Result<Command<'a>, AllocError>
    requires { (fields_of start).has_globals ≡ false }
    ensures app { IfOk result (λ c. app_of c ≡ timed_app (app_of start.entry)) }
    ensures local { IfOk result (λ c. (fields_of c).has_globals ≡ false) }
{
    start
        .arg(scale_option(alloc))?
        .arg(horizon_option(alloc))?
        .arg(explain_option(alloc))
}

/// The same with the files, the scale and the horizon.
fn plan_command<'a>(alloc: Global, start: Command<'a>) -> Result<Command<'a>, AllocError>
    requires { (fields_of start).has_globals ≡ false }
    ensures app { IfOk result (λ c. app_of c ≡ plan_app (app_of start.entry)) }
    ensures local { IfOk result (λ c. (fields_of c).has_globals ≡ false) }
{
    let files = start
        .arg(file_argument(alloc, "DOMAIN", "The file of the domain"))?
        .arg(file_argument(alloc, "PROBLEM", "The file of the problem"))?
        .arg(file_argument(alloc, "PLAN", "The file of the plan"))?;
    timed_command(alloc, files)
}

/// The command `check`.
fn check_command<'a>(alloc: Global) -> Result<Command<'a>, AllocError>
    ensures app { IfOk result (λ c. app_of c ≡ check_app) }
    ensures local { IfOk result (λ c. (fields_of c).has_globals ≡ false) }
{
    plan_command(alloc, plan_start(alloc, "check", CHECK_ABOUT, CHECK_HELP))
}

/// The command `net`.
fn net_command<'a>(alloc: Global) -> Result<Command<'a>, AllocError>
    ensures app { IfOk result (λ c. app_of c ≡ net_app) }
    ensures local { IfOk result (λ c. (fields_of c).has_globals ≡ false) }
{
    plan_command(alloc, plan_start(alloc, "net", NET_ABOUT, NET_HELP))
}

/// The command `run`.
fn run_command<'a>(alloc: Global) -> Result<Command<'a>, AllocError>
    ensures app { IfOk result (λ c. app_of c ≡ run_app) }
    ensures local { IfOk result (λ c. (fields_of c).has_globals ≡ false) }
{
    let run = plan_command(alloc, plan_start(alloc, "run", RUN_ABOUT, RUN_HELP))?;
    journal_options(alloc, run)
}

/// The command `plan`.
fn search_command<'a>(alloc: Global) -> Result<Command<'a>, AllocError>
    ensures app { IfOk result (λ c. app_of c ≡ search_app) }
    ensures local { IfOk result (λ c. (fields_of c).has_globals ≡ false) }
{
    let files = plan_start(alloc, "plan", PLAN_ABOUT, PLAN_HELP)
        .arg(file_argument(alloc, "DOMAIN", "The file of the domain"))?
        .arg(file_argument(alloc, "PROBLEM", "The file of the problem"))?;
    timed_command(alloc, files)?
        .arg(budget_option(alloc))?
        .arg(flag_option(
            alloc,
            "progress",
            "Print the progress of the search on standard error",
        ))
}

/// The command `solve` with its files and how its time is measured.
fn solve_start<'a>(alloc: Global) -> Result<Command<'a>, AllocError>
    ensures app { IfOk result (λ c. app_of c ≡ solve_files) }
    ensures local { IfOk result (λ c. (fields_of c).has_globals ≡ false) }
{
    let files = plan_start(alloc, "solve", SOLVE_ABOUT, SOLVE_HELP)
        .arg(file_argument(alloc, "DOMAIN", "The file of the domain"))?
        .arg(file_argument(alloc, "PROBLEM", "The file of the problem"))?;
    timed_command(alloc, files)
}

/// The command `solve`.
fn solve_command<'a>(alloc: Global) -> Result<Command<'a>, AllocError>
    ensures app { IfOk result (λ c. app_of c ≡ solve_app) }
    ensures local { IfOk result (λ c. (fields_of c).has_globals ≡ false) }
{
    solve_start(alloc)?
        .arg(solve_budget_option(alloc))?
        .arg(flag_option(
            alloc,
            "improve",
            "Search for better plans until the budget is spent",
        ))?
        .arg(flag_option(
            alloc,
            "progress",
            "Print the makespan of each plan on standard error",
        ))
}

/// A file that may be named.
fn other_argument<'a>(alloc: Global, id: &'a str, help: &'a str) -> Arg<'a>
    ensures rule { rule_of result ≡ other_rule id.entry.now }
    ensures local { result.global ≡ false }
{
    Arg::new(alloc, id).action(ArgAction::Set).help(help)
}

/// The command `audit` before it has its arguments.
fn audit_start<'a>(alloc: Global) -> Command<'a>
    ensures app { app_of result ≡ new_app (codes "audit") }
    ensures local { (fields_of result).has_globals ≡ false }
{
    Command::new(alloc, "audit")
        .about(AUDIT_ABOUT)
        .after_help(AUDIT_HELP)
}

/// The same with the files of a plan, which may be left out.
fn audit_files<'a>(alloc: Global, start: Command<'a>) -> Result<Command<'a>, AllocError>
    requires { (fields_of start).has_globals ≡ false }
    ensures app { IfOk result (λ c. app_of c ≡ with_others (app_of start.entry)) }
    ensures local { IfOk result (λ c. (fields_of c).has_globals ≡ false) }
{
    start
        .arg(other_argument(
            alloc,
            "DOMAIN",
            "The file of the domain of the plan that was run",
        ))?
        .arg(other_argument(alloc, "PROBLEM", "The file of its problem"))?
        .arg(other_argument(alloc, "PLAN", "The file of the plan"))
}

/// The command `audit`.
fn audit_command<'a>(alloc: Global) -> Result<Command<'a>, AllocError>
    ensures app { IfOk result (λ c. app_of c ≡ audit_app) }
    ensures local { IfOk result (λ c. (fields_of c).has_globals ≡ false) }
{
    let start = audit_start(alloc).arg(file_argument(alloc, "LOG", "The file of the journal"))?;
    timed_command(alloc, audit_files(alloc, start)?)
}

/// The command `split`.
fn split_command<'a>(alloc: Global) -> Result<Command<'a>, AllocError>
    ensures app { IfOk result (λ c. app_of c ≡ split_app) }
    ensures local { IfOk result (λ c. (fields_of c).has_globals ≡ false) }
{
    plan_command(alloc, plan_start(alloc, "split", SPLIT_ABOUT, SPLIT_HELP))?
        .arg(file_argument(alloc, "OWNERS", "The file with the agent of each event"))?
        .arg(part_option(alloc))
}

/// The options of `draw`.
fn draw_options<'a>(alloc: Global, start: Command<'a>) -> Result<Command<'a>, AllocError>
    requires { (fields_of start).has_globals ≡ false }
    ensures app { IfOk result (λ c. app_of c ≡ drawing_app (app_of start.entry)) }
    ensures local { IfOk result (λ c. (fields_of c).has_globals ≡ false) }
{
    start
        .arg(scale_option(alloc))?
        .arg(until_option(alloc))?
        .arg(log_option(alloc))?
        .arg(explain_option(alloc))
}

/// The command `draw`.
fn draw_command<'a>(alloc: Global) -> Result<Command<'a>, AllocError>
    ensures app { IfOk result (λ c. app_of c ≡ draw_app) }
    ensures local { IfOk result (λ c. (fields_of c).has_globals ≡ false) }
{
    let files = plan_start(alloc, "draw", DRAW_ABOUT, DRAW_HELP)
        .arg(file_argument(alloc, "DOMAIN", "The file of the domain"))?
        .arg(file_argument(alloc, "PROBLEM", "The file of the problem"))?
        .arg(file_argument(alloc, "PLAN", "The file of the plan"))?;
    draw_options(alloc, files)
}

/// The program before it has commands. Its words begin after its name.
fn tempo_start<'a>(alloc: Global) -> Result<Command<'a>, AllocError>
    ensures { IfOk result (λ c. app_of c ≡ start_app) }
{
    Command::new(alloc, "tempo")
        .version(VERSION)
        .no_binary_name(true)
        .about(ABOUT)
        .after_help(EXIT)
        .bin_name("tempo")
}

/// The same with the option that it explains.
fn tempo_options<'a>(alloc: Global) -> Result<Command<'a>, AllocError>
    ensures { IfOk result (λ c. app_of c ≡ options_app) }
{
    tempo_start(alloc)?.arg(explain_option(alloc))
}

/// The program with the commands that judge.
fn judging_command<'a>(alloc: Global) -> Result<Command<'a>, AllocError>
    ensures { IfOk result (λ c. app_of c ≡ judging_app) }
{
    let bare = bare_command(alloc)?;
    let check = check_command(alloc)?;
    tempo_options(alloc)?.subcommand(bare)?.subcommand(check)
}

/// The same with the command that prints networks.
fn network_command<'a>(alloc: Global) -> Result<Command<'a>, AllocError>
    ensures { IfOk result (λ c. app_of c ≡ network_app) }
{
    let net = net_command(alloc)?;
    judging_command(alloc)?.subcommand(net)
}

/// The same with the command that runs plans.
fn running_command<'a>(alloc: Global) -> Result<Command<'a>, AllocError>
    ensures { IfOk result (λ c. app_of c ≡ with_subcommand network_app run_app.top) }
{
    let run = run_command(alloc)?;
    network_command(alloc)?.subcommand(run)
}

/// The same with the command that searches.
fn planning_command<'a>(alloc: Global) -> Result<Command<'a>, AllocError>
    ensures { IfOk result (λ c. app_of c ≡ planning_app) }
{
    let search = search_command(alloc)?;
    running_command(alloc)?.subcommand(search)
}

/// The same with the command that searches larger problems.
fn solving_command<'a>(alloc: Global) -> Result<Command<'a>, AllocError>
    ensures { IfOk result (λ c. app_of c ≡ solving_app) }
{
    let solve = solve_command(alloc)?;
    planning_command(alloc)?.subcommand(solve)
}

/// The same with the command that audits journals.
fn auditing_command<'a>(alloc: Global) -> Result<Command<'a>, AllocError>
    ensures { IfOk result (λ c. app_of c ≡ auditing_app) }
{
    let audit = audit_command(alloc)?;
    solving_command(alloc)?.subcommand(audit)
}

/// The same with the command that splits networks among agents.
fn splitting_command<'a>(alloc: Global) -> Result<Command<'a>, AllocError>
    ensures { IfOk result (λ c. app_of c ≡ splitting_app) }
{
    let split = split_command(alloc)?;
    auditing_command(alloc)?.subcommand(split)
}

/// The program with all its commands.
pub fn tempo_command<'a>(alloc: Global) -> Result<Command<'a>, AllocError>
    ensures { IfOk result (λ c. app_of c ≡ tempo_app) }
{
    let draw = draw_command(alloc)?;
    splitting_command(alloc)?.subcommand(draw)
}
