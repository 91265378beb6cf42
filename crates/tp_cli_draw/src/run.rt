//! The picture of the plan that words name.

ghost use Rattle.std.specs.Prelude.{◌≡◌, ◌≢◌, ◌≤◌, ℕ, List, [], Option, IfErr, IfOk, IfSome, None};
ghost use Rattle.tp_cli_files.specs.FaultLines.{TellsFault};
ghost use Rattle.tp_cli_inputs.specs.Named.{IsNamedPlan};
ghost use Rattle.tp_validate.specs.OfTask.{IsOfTask};
ghost use Rattle.tp_journal.specs.Telling.{IsHeadTold};
ghost use Rattle.tp_cli_draw.specs.Draws.{Draws, DrawsNo, DrawsPart, EndsDraw, IsDrawn, IsStopped, NamesLog, StopsDraw, WritesDrawn};
ghost use Rattle.tp_cli_files.specs.Causes.{counted};
ghost use Rattle.tp_cli_draw.specs.Stops.{draw_failures, draw_unread};
ghost use Rattle.tp_cli_draw.specs.Words.{plan_of};

use crate::answers::{Drawn, write_drawn};
use crate::draw_words::{horizon_or, plan_words};
use crate::drawing::{draw_judged, draw_verdict};
use crate::named::{Names, plan_and_names};
use crate::stops::{DrawStop, draw_line};
use std::alloc::Global;
use tp_cli_audit::head_in;
use tp_cli_files::{Files, OUT_OF_ORDER, REFUSED, complain};
use tp_cli_inputs::{DrawWords, NamedPlan, verdict_of};
use tp_device::Sink;
use tp_happen::Plan;
use tp_journal::JournalHead;
use tp_task::Task;

/// The picture of a plan of a task.
fn draw_task(
    alloc: Global,
    words: DrawWords<'_>,
    task: &Task,
    plan: Plan,
    names: Option<Names>,
) -> Result<Drawn, DrawStop>
    requires of_task { IsOfTask task.now plan }
    requires no_log { words.journal ≡ None }
    ensures drawn { (held : List ℕ → Option (List ℕ)) → (h : ℕ)
        → IsNamedPlan held (plan_of words.entry h) task.now plan
        → IfOk result (IsDrawn held words.entry) }
    ensures cause { (held : List ℕ → Option (List ℕ)) → (h : ℕ)
        → IsNamedPlan held (plan_of words.entry h) task.now plan
        → IfErr result (IsStopped held words.entry) }
    ensures opened { (n : ℕ) → counted draw_unread n result ≡ n }
{
    match verdict_of(alloc, task, plan) {
        Ok(verdict) => draw_verdict(alloc, words, &verdict, names),
        Err(fault) => Err(DrawStop::Judging(fault)),
    }
}

/// The picture of the plan that the words name, without a journal.
fn draw_plan<N: Files>(
    alloc: Global,
    files: &mut N,
    words: DrawWords<'_>,
) -> Result<Drawn, DrawStop>
    requires { words.journal ≡ None }
    ensures drawn { IfOk result (IsDrawn (N.held files.old) words.entry) }
    ensures cause { IfErr result (IsStopped (N.held files.old) words.entry) }
    ensures opened { N.failures files.new ≡ counted draw_unread (N.failures files.old) result }
{
    let horizon = horizon_or(words, u32::MAX);
    let mut names = None;
    match plan_and_names(alloc, files, plan_words(words, horizon), &mut names) {
        Ok(named) => {
            let NamedPlan { task, plan } = named;
            draw_task(alloc, words, &task, plan, names)
        }
        Err(fault) => Err(DrawStop::Judging(fault)),
    }
}

/// The picture of the run of a journal, of a plan of a task.
fn draw_run_of<N: Files>(
    alloc: Global,
    files: &mut N,
    words: DrawWords<'_>,
    log: &str,
    head: &JournalHead,
    horizon: u32,
    task: &Task,
    plan: Plan,
    names: Option<Names>,
) -> Result<Drawn, DrawStop>
    requires limit { horizon ≤ 1000000000 }
    requires of_task { IsOfTask task.now plan }
    requires named { NamesLog words log.now }
    ensures drawn { (held : List ℕ → Option (List ℕ))
        → N.held files.old log.now ≡ held log.now
        → IsNamedPlan held (plan_of words.entry horizon) task.now plan
        → IfSome (held log.now) (λ bytes. IsHeadTold bytes head.now)
        → IfOk result (IsDrawn held words.entry) }
    ensures cause { (held : List ℕ → Option (List ℕ))
        → N.held files.old log.now ≡ held log.now
        → IsNamedPlan held (plan_of words.entry horizon) task.now plan
        → IfSome (held log.now) (λ bytes. IsHeadTold bytes head.now)
        → IfErr result (IsStopped held words.entry) }
    ensures opened { N.failures files.new ≡ counted draw_unread (N.failures files.old) result }
{
    let _ = words;
    match verdict_of(alloc, task, plan) {
        Ok(verdict) => draw_judged(alloc, files, log, head, horizon, &verdict, names),
        Err(fault) => Err(DrawStop::Judging(fault)),
    }
}

/// The same of the plan that the words name, where the head of the journal is known: its horizon is
/// that of the head where the words give none.
fn draw_headed<N: Files>(
    alloc: Global,
    files: &mut N,
    words: DrawWords<'_>,
    log: &str,
    head: &JournalHead,
) -> Result<Drawn, DrawStop>
    requires { NamesLog words log.now }
    ensures drawn { (held : List ℕ → Option (List ℕ))
        → ((other : List ℕ) → N.held files.old other ≡ held other)
        → IfSome (held log.now) (λ bytes. IsHeadTold bytes head.now)
        → IfOk result (IsDrawn held words.entry) }
    ensures cause { (held : List ℕ → Option (List ℕ))
        → ((other : List ℕ) → N.held files.old other ≡ held other)
        → IfSome (held log.now) (λ bytes. IsHeadTold bytes head.now)
        → IfErr result (IsStopped held words.entry) }
    ensures opened { N.failures files.new ≡ counted draw_unread (N.failures files.old) result }
{
    let horizon = horizon_or(words, head.horizon);
    let mut names = None;
    match plan_and_names(alloc, files, plan_words(words, horizon), &mut names) {
        Ok(named) => {
            let NamedPlan { task, plan } = named;
            draw_run_of(alloc, files, words, log, head, horizon, &task, plan, names)
        }
        Err(fault) => Err(DrawStop::Judging(fault)),
    }
}

/// The same, with the head read first.
fn draw_run<N: Files>(
    alloc: Global,
    files: &mut N,
    words: DrawWords<'_>,
    log: &str,
) -> Result<Drawn, DrawStop>
    requires { NamesLog words log.now }
    ensures drawn { IfOk result (IsDrawn (N.held files.old) words.entry) }
    ensures cause { IfErr result (IsStopped (N.held files.old) words.entry) }
    ensures opened { N.failures files.new ≡ counted draw_unread (N.failures files.old) result }
{
    match head_in(alloc, files, log) {
        Ok(head) => draw_headed(alloc, files, words, log, &head),
        Err(stop) => Err(DrawStop::Journal(stop)),
    }
}

/// The picture that the words ask for.
fn draw<N: Files>(alloc: Global, files: &mut N, words: DrawWords<'_>) -> Result<Drawn, DrawStop>
    ensures drawn { IfOk result (IsDrawn (N.held files.old) words.entry) }
    ensures cause { IfErr result (IsStopped (N.held files.old) words.entry) }
    ensures opened { N.failures files.new ≡ counted draw_unread (N.failures files.old) result }
{
    match words.journal {
        None => draw_plan(alloc, files, words),
        Some(log) => draw_run(alloc, files, words, log),
    }
}

/// Writes the picture that the words ask for, or why the answer is no.
fn draw_and_write<N: Files, O: Sink>(
    alloc: Global,
    files: &mut N,
    words: DrawWords<'_>,
    output: &mut O,
) -> Result<bool, DrawStop>
    ensures written { IfOk result (WritesDrawn (N.held files.old) words.entry
        (O.held output.old) (O.held output.new)) }
    ensures cause { IfErr result (StopsDraw (N.held files.old) words.entry
        (O.held output.old) (O.held output.new)) }
    ensures failures { O.failures output.new ≡ draw_failures (O.failures output.old) result }
    ensures opened { N.failures files.new ≡ counted draw_unread (N.failures files.old) result }
{
    match draw(alloc, files, words) {
        Ok(drawn) => write_drawn(output, &drawn),
        Err(stop) => Err(stop),
    }
}

/// Draws the plan that the words name as an SVG picture; where they name a journal, its run up to
/// the journal's end. Answers the exit status: 0 where the picture was written; 1 for a plan that
/// is not valid, whose first fault was written, or a journal with an answer that is not allowed,
/// the number of whose line was; and for another writes one fault line. The journal is judged
/// first, as by `audit`. Of the picture itself nothing is promised.
///
/// The cost is that of `check` and of the network, one addition to a network for each of its
/// bounds, with a journal twice that of an audit, and the picture: a look at each two steps.
pub fn run_draw<N: Files, O: Sink, F: Sink>(
    alloc: Global,
    files: &mut N,
    words: DrawWords<'_>,
    output: &mut O,
    faults: &mut F,
) -> u8
    ensures drawn { result ≡ 0
        → Draws (N.held files.old) words.entry (O.held output.old) (O.held output.new) }
    ensures no { result ≡ 1
        → DrawsNo (N.held files.old) words.entry (O.held output.old) (O.held output.new) }

    // What stopped it is told, and is as it is told.
    ensures stopped { 2 ≤ result → EndsDraw (N.held files.old) words.entry result
        (O.held output.old) (O.held output.new) (N.failures files.old) (N.failures files.new)
        (O.failures output.old) (O.failures output.new)
        (F.failures faults.old) (F.held faults.old) (F.failures faults.new) (F.held faults.new) }

    // Nothing is written for input that is refused, and at most a first part where memory or a
    // device is wanting; a write that failed is always told.
    ensures kept { result ≡ REFUSED → O.held output.new ≡ O.held output.old }
    ensures part { result ≡ OUT_OF_ORDER
        → DrawsPart (N.held files.old) words.entry (O.held output.old) (O.held output.new) }
    ensures told { result ≢ OUT_OF_ORDER → O.failures output.new ≡ O.failures output.old }

    // A fault line goes with each fault, and with nothing else.
    ensures within { result ≤ 3 }
    ensures silent { result ≤ 1 → faults.new ≡ faults.old }
    ensures fault { 2 ≤ result → TellsFault [] (F.failures faults.old) (F.held faults.old)
        (F.failures faults.new) (F.held faults.new) }
{
    match draw_and_write(alloc, files, words, output) {
        Ok(true) => 0,
        Ok(false) => 1,
        Err(stop) => complain(faults, draw_line(stop, words)),
    }
}
