//! The search for a plan of the problem in a file.

ghost use Rattle.std.specs.Prelude.{◌≡◌, ◌≢◌, ◌≤◌, ℕ, List, [], Option, IfOk, IfErr, IfSome, true, false};
ghost use Rattle.tp_cli_files.specs.FaultLines.{TellsFault};
ghost use Rattle.tp_search.specs.Answers.{IsAnswer};
ghost use Rattle.tp_cli_plan.specs.FoundText.{IsFoundOfTask};
ghost use Rattle.tp_cli_plan.specs.SearchStops.{EndsSearch, StopsSearch, stop_failures, stop_unread};
ghost use Rattle.tp_cli_files.specs.Causes.{counted};
ghost use Rattle.tp_syntax.specs.DomainViews.{domain_view, problem_view};
ghost use Rattle.tp_solve.specs.Sought.{IsSought};
ghost use Rattle.tp_cli_inputs.specs.Named.{AreNamed};
ghost use Rattle.tp_cli_plan.specs.Parts.{IsJoinedOf, IsPart, IsWholeOf};
ghost use Rattle.tp_cli_plan.specs.SearchTasks.{IsSearchTask};
ghost use Rattle.tp_cli_plan.specs.Searches.{SaysNoPlan, Searches, SearchesPart, WritesPlan, task_words, tells_progress};
ghost use Rattle.tp_cli_plan.specs.Telling.{StopsTelling, TellsFound};
ghost use Rattle.tp_cli_plan.specs.declared.search_words.Order.TheVariants.{Guided};

use crate::found_text::write_found;
use crate::search_words::{Order, SearchWords};
use crate::stops::{SearchStop, stop_line};
use crate::tasks::{Inputs, inputs_in, joined_task, reached_task};
use std::alloc::Global;
use std::io::Write;
use std::mem::forget;
use tp_cli_files::{Files, OUT_OF_ORDER, REFUSED, complain};
use tp_device::Sink;
use tp_ground::{actions_are_readable, reached_actions_are_readable};
use tp_ground_joins::JoinedTask;
use tp_ground_laws::{
    plans_of_some_are_plans, same_goal_is_in_reach, same_plans_are_valid,
    whole_tasks_have_all_plans,
};
use tp_ground_named::chosen_actions_are_readable;
use tp_happen::plans_are_read;
use tp_search::{Found, SearchFault, search_with};
use tp_solve::{Proposed, Wishes, propose_with, search_rest, solve_with};
use tp_task::Task;
use tp_validate::ValidPlan;

/// Writes what a search came to. Answers whether that is a plan.
fn tell<O: Sink>(found: &Found<'_>, output: &mut O) -> Result<bool, SearchStop>
    ensures said { IfOk result (TellsFound found.now (O.held output.old) (O.held output.new)) }
    ensures cause { IfErr result (StopsTelling found.now (O.held output.old) (O.held output.new)) }
    ensures of_task { IsFoundOfTask found.now }
    ensures failures { O.failures output.new ≡ stop_failures (O.failures output.old) result }
    ensures opened { (n : ℕ) → counted stop_unread n result ≡ n }
{
    match write_found(output, found) {
        Ok(()) => Ok(matches!(found, Found::Plan(_))),
        Err(_) => Err(SearchStop::Write),
    }
}

/// What the search that the words name comes to, where so many expansions of the guided search of
/// another task are spent, if any.
fn found_in<'t, B: Write>(
    alloc: Global,
    words: SearchWords<'_>,
    task: &'t Task,
    spent: Option<u32>,
    board: &mut B,
) -> Result<Found<'t>, SearchFault>
    ensures answer { IfOk result (IsAnswer task.now words.entry.budget words.entry.horizon) }
    ensures quiet { tells_progress words.entry.order ≡ false → board.new ≡ board.old }
{
    match (words.order, spent) {
        (Order::Lacking { progress }, _) => search_with(
            alloc,
            task,
            words.budget,
            words.horizon,
            progress,
            board,
        ),
        (Order::Guided(_), Some(spent)) => {
            search_rest(alloc, task, words.budget, spent, words.horizon)
        }
        (Order::Guided(wishes), None) => {
            solve_with(alloc, task, words.budget, words.horizon, wishes, board)
        }
    }
}

/// Searches for a plan of a task, and writes it, or why there is none. Answers whether there is
/// one.
fn search_of<B: Write, O: Sink>(
    alloc: Global,
    words: SearchWords<'_>,
    task: &Task,
    spent: Option<u32>,
    board: &mut B,
    output: &mut O,
) -> Result<bool, SearchStop>
    requires { words.horizon ≤ 1000000000 }
    ensures said { (held : List ℕ → Option (List ℕ)) → IsSearchTask held (task_words words.entry)
        task.now → IfOk result (Searches held words.entry (O.held output.old) (O.held output.new)) }
    ensures cause { (held : List ℕ → Option (List ℕ))
        → IsSearchTask held (task_words words.entry) task.now
        → IfErr result (StopsSearch held words.entry (O.held output.old) (O.held output.new)) }
    ensures failures { O.failures output.new ≡ stop_failures (O.failures output.old) result }
    ensures opened { (n : ℕ) → counted stop_unread n result ≡ n }
    ensures quiet { tells_progress words.entry.order ≡ false → board.new ≡ board.old }
{
    plans_are_read();
    actions_are_readable();
    reached_actions_are_readable();
    same_plans_are_valid();
    same_goal_is_in_reach();
    match found_in(alloc, words, task, spent, board) {
        Ok(found) => tell(&found, output),
        Err(fault) => Err(SearchStop::Searching(fault)),
    }
}

/// Searches for a plan of the task of the actions that the relaxed reach keeps.
fn plan_reached<B: Write, O: Sink>(
    alloc: Global,
    words: SearchWords<'_>,
    inputs: &Inputs,
    spent: Option<u32>,
    board: &mut B,
    output: &mut O,
) -> Result<bool, SearchStop>
    requires { words.horizon ≤ 1000000000 }
    ensures said { (held : List ℕ → Option (List ℕ)) → AreNamed held (task_words words.entry)
        (domain_view inputs.now.domain) (problem_view inputs.now.problem)
        → IfOk result (Searches held words.entry (O.held output.old) (O.held output.new)) }
    ensures cause { (held : List ℕ → Option (List ℕ)) → AreNamed held (task_words words.entry)
        (domain_view inputs.now.domain) (problem_view inputs.now.problem)
        → IfErr result (StopsSearch held words.entry (O.held output.old) (O.held output.new)) }
    ensures failures { O.failures output.new ≡ stop_failures (O.failures output.old) result }
    ensures opened { (n : ℕ) → counted stop_unread n result ≡ n }
    ensures quiet { tells_progress words.entry.order ≡ false → board.new ≡ board.old }
{
    match reached_task(alloc, words.task_words(), inputs) {
        Ok(task) => search_of(alloc, words, &task, spent, board, output),
        Err(of_task) => Err(SearchStop::Files(of_task)),
    }
}

/// What came of the search of the task that joins leave.
#[derive(Clone, Copy)]
pub(crate) enum Part {
    /// What was found was written, and whether that is a plan.
    Answered(bool),
    /// No plan was found with so many expansions of the guided search.
    Spent(u32),
    /// There is no such task, or its search has no answer, as for want of memory.
    NoTask,
}

/// Writes a plan that was found of the task that joins leave.
fn tell_plan<'t, O: Sink>(
    words: SearchWords<'_>,
    wishes: Wishes,
    task: &'t Task,
    plan: ValidPlan<'t>,
    output: &mut O,
) -> Result<Part, SearchStop>
    requires limit { words.horizon ≤ 1000000000 }
    requires order { words.order ≡ Guided wishes }
    requires sought { IsSought task.now words.horizon plan }
    ensures said { (held : List ℕ → Option (List ℕ)) → IsJoinedOf held words.entry task.now
        → IfOk result (IsPart held words.entry (O.held output.old) (O.held output.new)) }
    ensures cause { (held : List ℕ → Option (List ℕ)) → IsJoinedOf held words.entry task.now
        → IfErr result (StopsSearch held words.entry (O.held output.old) (O.held output.new)) }
    ensures failures { O.failures output.new ≡ stop_failures (O.failures output.old) result }
    ensures opened { (n : ℕ) → counted stop_unread n result ≡ n }
{
    let _ = words;
    let _ = wishes;
    let _ = task;
    plans_are_read();
    actions_are_readable();
    chosen_actions_are_readable();
    plans_of_some_are_plans();
    match tell(&Found::Plan(plan), output) {
        Ok(_) => Ok(Part::Answered(true)),
        Err(stop) => Err(stop),
    }
}

/// Writes a plan of the task that joins leave, if one was proposed.
fn tell_proposed<'t, O: Sink>(
    words: SearchWords<'_>,
    wishes: Wishes,
    task: &'t Task,
    proposed: Proposed<'t>,
    output: &mut O,
) -> Result<Part, SearchStop>
    requires limit { words.horizon ≤ 1000000000 }
    requires order { words.order ≡ Guided wishes }
    requires sought { IfSome proposed.plan (IsSought task.now words.horizon) }
    ensures said { (held : List ℕ → Option (List ℕ)) → IsJoinedOf held words.entry task.now
        → IfOk result (IsPart held words.entry (O.held output.old) (O.held output.new)) }
    ensures cause { (held : List ℕ → Option (List ℕ)) → IsJoinedOf held words.entry task.now
        → IfErr result (StopsSearch held words.entry (O.held output.old) (O.held output.new)) }
    ensures failures { O.failures output.new ≡ stop_failures (O.failures output.old) result }
    ensures opened { (n : ℕ) → counted stop_unread n result ≡ n }
{
    let Proposed { plan, spent } = proposed;
    match plan {
        Some(plan) => tell_plan(words, wishes, task, plan, output),
        None => Ok(Part::Spent(spent)),
    }
}

/// Writes a plan that the guided search proposes of the task that joins leave, if there is one.
fn propose_of<B: Write, O: Sink>(
    alloc: Global,
    words: SearchWords<'_>,
    wishes: Wishes,
    task: &Task,
    board: &mut B,
    output: &mut O,
) -> Result<Part, SearchStop>
    requires limit { words.horizon ≤ 1000000000 }
    requires order { words.order ≡ Guided wishes }
    ensures said { (held : List ℕ → Option (List ℕ)) → IsJoinedOf held words.entry task.now
        → IfOk result (IsPart held words.entry (O.held output.old) (O.held output.new)) }
    ensures cause { (held : List ℕ → Option (List ℕ)) → IsJoinedOf held words.entry task.now
        → IfErr result (StopsSearch held words.entry (O.held output.old) (O.held output.new)) }
    ensures failures { O.failures output.new ≡ stop_failures (O.failures output.old) result }
    ensures opened { (n : ℕ) → counted stop_unread n result ≡ n }
    ensures quiet { wishes.progress ≡ false → board.new ≡ board.old }
{
    match propose_with(alloc, task, words.budget, words.horizon, wishes, board) {
        Ok(proposed) => tell_proposed(words, wishes, task, proposed, output),
        Err(_) => Ok(Part::NoTask),
    }
}

/// Searches for a plan of a task that has each action that a valid plan may have, and writes it, or
/// why there is none. Answers whether it found one.
fn solve_whole<B: Write, O: Sink>(
    alloc: Global,
    words: SearchWords<'_>,
    wishes: Wishes,
    task: &Task,
    board: &mut B,
    output: &mut O,
) -> Result<bool, SearchStop>
    requires limit { words.horizon ≤ 1000000000 }
    requires order { words.order ≡ Guided wishes }
    ensures said { (held : List ℕ → Option (List ℕ)) → IsWholeOf held words.entry task.now
        → IfOk result (Searches held words.entry (O.held output.old) (O.held output.new)) }
    ensures cause { (held : List ℕ → Option (List ℕ)) → IsWholeOf held words.entry task.now
        → IfErr result (StopsSearch held words.entry (O.held output.old) (O.held output.new)) }
    ensures failures { O.failures output.new ≡ stop_failures (O.failures output.old) result }
    ensures opened { (n : ℕ) → counted stop_unread n result ≡ n }
    ensures quiet { wishes.progress ≡ false → board.new ≡ board.old }
{
    let _ = wishes;
    plans_are_read();
    actions_are_readable();
    chosen_actions_are_readable();
    plans_of_some_are_plans();
    whole_tasks_have_all_plans();
    match found_in(alloc, words, task, None, board) {
        Ok(found) => tell(&found, output),
        Err(fault) => Err(SearchStop::Searching(fault)),
    }
}

/// Searches for a plan of the task that joins leave: where that is whole, by both searches.
fn plan_some<B: Write, O: Sink>(
    alloc: Global,
    words: SearchWords<'_>,
    wishes: Wishes,
    joined: &JoinedTask,
    board: &mut B,
    output: &mut O,
) -> Result<Part, SearchStop>
    requires limit { words.horizon ≤ 1000000000 }
    requires order { words.order ≡ Guided wishes }
    ensures said { (held : List ℕ → Option (List ℕ)) → IsJoinedOf held words.entry
        joined.now.task → (joined.now.is_whole ≡ true → IsWholeOf held words.entry joined.now.task)
        → IfOk result (IsPart held words.entry (O.held output.old) (O.held output.new)) }
    ensures cause { (held : List ℕ → Option (List ℕ)) → IsJoinedOf held words.entry
        joined.now.task → (joined.now.is_whole ≡ true → IsWholeOf held words.entry joined.now.task)
        → IfErr result (StopsSearch held words.entry (O.held output.old) (O.held output.new)) }
    ensures failures { O.failures output.new ≡ stop_failures (O.failures output.old) result }
    ensures opened { (n : ℕ) → counted stop_unread n result ≡ n }
    ensures quiet { wishes.progress ≡ false → board.new ≡ board.old }
{
    if joined.is_whole {
        match solve_whole(alloc, words, wishes, &joined.task, board, output) {
            Ok(planned) => Ok(Part::Answered(planned)),
            Err(stop) => Err(stop),
        }
    } else {
        propose_of(alloc, words, wishes, &joined.task, board, output)
    }
}

/// The same of the task that joins leave, if there is one within the limits.
fn plan_joined<B: Write, O: Sink>(
    alloc: Global,
    words: SearchWords<'_>,
    wishes: Wishes,
    inputs: &Inputs,
    board: &mut B,
    output: &mut O,
) -> Result<Part, SearchStop>
    requires limit { words.horizon ≤ 1000000000 }
    requires order { words.order ≡ Guided wishes }
    ensures said { (held : List ℕ → Option (List ℕ)) → AreNamed held (task_words words.entry)
        (domain_view inputs.now.domain) (problem_view inputs.now.problem)
        → IfOk result (IsPart held words.entry (O.held output.old) (O.held output.new)) }
    ensures cause { (held : List ℕ → Option (List ℕ)) → AreNamed held (task_words words.entry)
        (domain_view inputs.now.domain) (problem_view inputs.now.problem)
        → IfErr result (StopsSearch held words.entry (O.held output.old) (O.held output.new)) }
    ensures failures { O.failures output.new ≡ stop_failures (O.failures output.old) result }
    ensures opened { (n : ℕ) → counted stop_unread n result ≡ n }
    ensures quiet { wishes.progress ≡ false → board.new ≡ board.old }
{
    match joined_task(alloc, words.task_words(), inputs) {
        Some(joined) => plan_some(alloc, words, wishes, &joined, board, output),
        None => Ok(Part::NoTask),
    }
}

/// Searches for a plan in the task of the relaxed reach, if none was found in that which joins
/// leave.
fn plan_rest<B: Write, O: Sink>(
    alloc: Global,
    words: SearchWords<'_>,
    inputs: &Inputs,
    part: Part,
    board: &mut B,
    output: &mut O,
) -> Result<bool, SearchStop>
    requires { words.horizon ≤ 1000000000 }
    ensures said { (held : List ℕ → Option (List ℕ)) (before : Option (List ℕ)) → AreNamed held
        (task_words words.entry) (domain_view inputs.now.domain) (problem_view inputs.now.problem)
        → IsPart held words.entry before (O.held output.old) part
        → IfOk result (Searches held words.entry before (O.held output.new)) }
    ensures cause { (held : List ℕ → Option (List ℕ)) (before : Option (List ℕ)) → AreNamed held
        (task_words words.entry) (domain_view inputs.now.domain) (problem_view inputs.now.problem)
        → IsPart held words.entry before (O.held output.old) part
        → IfErr result (StopsSearch held words.entry before (O.held output.new)) }
    ensures failures { O.failures output.new ≡ stop_failures (O.failures output.old) result }
    ensures opened { (n : ℕ) → counted stop_unread n result ≡ n }
    ensures quiet { tells_progress words.entry.order ≡ false → board.new ≡ board.old }
{
    match part {
        Part::Answered(planned) => Ok(planned),
        Part::Spent(spent) => plan_reached(alloc, words, inputs, Some(spent), board, output),
        Part::NoTask => plan_reached(alloc, words, inputs, None, board, output),
    }
}

/// Searches for a plan, first by the guided search of the task that joins leave, and then in that
/// of the relaxed reach.
fn plan_guided<B: Write, O: Sink>(
    alloc: Global,
    words: SearchWords<'_>,
    wishes: Wishes,
    inputs: &Inputs,
    board: &mut B,
    output: &mut O,
) -> Result<bool, SearchStop>
    requires limit { words.horizon ≤ 1000000000 }
    requires order { words.order ≡ Guided wishes }
    ensures said { (held : List ℕ → Option (List ℕ)) → AreNamed held (task_words words.entry)
        (domain_view inputs.now.domain) (problem_view inputs.now.problem)
        → IfOk result (Searches held words.entry (O.held output.old) (O.held output.new)) }
    ensures cause { (held : List ℕ → Option (List ℕ)) → AreNamed held (task_words words.entry)
        (domain_view inputs.now.domain) (problem_view inputs.now.problem)
        → IfErr result (StopsSearch held words.entry (O.held output.old) (O.held output.new)) }
    ensures failures { O.failures output.new ≡ stop_failures (O.failures output.old) result }
    ensures opened { (n : ℕ) → counted stop_unread n result ≡ n }
    ensures quiet { wishes.progress ≡ false → board.new ≡ board.old }
{
    match plan_joined(alloc, words, wishes, inputs, board, output) {
        Ok(part) => plan_rest(alloc, words, inputs, part, board, output),
        Err(stop) => Err(stop),
    }
}

/// Searches for a plan of a problem in the order that the words name.
fn plan_of<B: Write, O: Sink>(
    alloc: Global,
    words: SearchWords<'_>,
    inputs: &Inputs,
    board: &mut B,
    output: &mut O,
) -> Result<bool, SearchStop>
    requires { words.horizon ≤ 1000000000 }
    ensures said { (held : List ℕ → Option (List ℕ)) → AreNamed held (task_words words.entry)
        (domain_view inputs.now.domain) (problem_view inputs.now.problem)
        → IfOk result (Searches held words.entry (O.held output.old) (O.held output.new)) }
    ensures cause { (held : List ℕ → Option (List ℕ)) → AreNamed held (task_words words.entry)
        (domain_view inputs.now.domain) (problem_view inputs.now.problem)
        → IfErr result (StopsSearch held words.entry (O.held output.old) (O.held output.new)) }
    ensures failures { O.failures output.new ≡ stop_failures (O.failures output.old) result }
    ensures opened { (n : ℕ) → counted stop_unread n result ≡ n }
    ensures quiet { tells_progress words.entry.order ≡ false → board.new ≡ board.old }
{
    match words.order {
        Order::Lacking { .. } => plan_reached(alloc, words, inputs, None, board, output),
        Order::Guided(wishes) => plan_guided(alloc, words, wishes, inputs, board, output),
    }
}

/// Searches for a plan of the task that the words name, and writes it, or why there is none.
/// Answers whether there is one. What both texts spell is never freed: a call is made once in a run
/// of the program, whose end frees all at once.
fn plan<N: Files, B: Write, O: Sink>(
    alloc: Global,
    files: &mut N,
    words: SearchWords<'_>,
    board: &mut B,
    output: &mut O,
) -> Result<bool, SearchStop>
    requires { words.horizon ≤ 1000000000 }
    ensures said { IfOk result
        (Searches (N.held files.old) words.entry (O.held output.old) (O.held output.new)) }
    ensures cause { IfErr result
        (StopsSearch (N.held files.old) words.entry (O.held output.old) (O.held output.new)) }
    ensures failures { O.failures output.new ≡ stop_failures (O.failures output.old) result }
    ensures opened { N.failures files.new ≡ counted stop_unread (N.failures files.old) result }
    ensures quiet { tells_progress words.entry.order ≡ false → board.new ≡ board.old }
{
    match inputs_in(alloc, files, words.task_words()) {
        Ok(inputs) => {
            let planned = plan_of(alloc, words, &inputs, board, output);
            forget(inputs);
            planned
        }
        Err(fault) => Err(SearchStop::Files(fault)),
    }
}

/// Searches for a plan of the problem that the words name, with at most so many expansions as their
/// budget, and writes it in the plan format; or the line `unreachable`, `exhausted` or `spent N`
/// where none was found. Answers the exit status: 0 for a plan, 1 where none was found, and for
/// another writes one fault line.
///
/// The search is of the task that `ground_reached` makes: no more actions than its relaxed reach
/// keeps. In the guided order the task that `ground_joined` makes is searched in its place where it
/// is whole; else the guided search alone has it first, and where that proposes no valid plan, the
/// other order answers with what is left of the budget. The cost is that of reading both texts, of
/// grounding and of the search. What a guided search tells of plans as it finds them goes to
/// `board`, if the words wish for it.
pub fn run_plan<N: Files, B: Write, O: Sink, F: Sink>(
    alloc: Global,
    files: &mut N,
    words: SearchWords<'_>,
    board: &mut B,
    output: &mut O,
    faults: &mut F,
) -> u8
    requires { words.horizon ≤ 1000000000 }
    ensures planned { result ≡ 0
        → WritesPlan (N.held files.old) words.entry (O.held output.old) (O.held output.new) }
    ensures none { result ≡ 1
        → SaysNoPlan (N.held files.old) words.entry (O.held output.old) (O.held output.new) }

    // What stopped it is told, and is as it is told.
    ensures stopped { 2 ≤ result → EndsSearch (N.held files.old) words.entry result
        (O.held output.old) (O.held output.new) (N.failures files.old) (N.failures files.new)
        (O.failures output.old) (O.failures output.new)
        (F.failures faults.old) (F.held faults.old) (F.failures faults.new) (F.held faults.new) }

    // Nothing is written for input that is refused, and of a true answer at most a first part where
    // memory or a device is wanting; a write that failed is always told.
    ensures kept { result ≡ REFUSED → O.held output.new ≡ O.held output.old }
    ensures part { result ≡ OUT_OF_ORDER
        → SearchesPart (N.held files.old) words.entry (O.held output.old) (O.held output.new) }
    ensures told { result ≢ OUT_OF_ORDER → O.failures output.new ≡ O.failures output.old }

    // A fault line goes with each fault, and with nothing else.
    ensures within { result ≤ 3 }
    ensures silent { result ≤ 1 → faults.new ≡ faults.old }
    ensures fault { 2 ≤ result → TellsFault [] (F.failures faults.old) (F.held faults.old)
        (F.failures faults.new) (F.held faults.new) }
    ensures quiet { tells_progress words.entry.order ≡ false → board.new ≡ board.old }
{
    match plan(alloc, files, words, board, output) {
        Ok(true) => 0,
        Ok(false) => 1,
        Err(stop) => complain(faults, stop_line(stop, words)),
    }
}
