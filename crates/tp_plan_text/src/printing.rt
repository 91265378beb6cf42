//! The text of a plan. Nothing here takes memory.

ghost use Rattle.std.specs.Prelude.{◌≡◌, ◌++◌, true};
ghost use Rattle.tp_device.specs.Bytes.{Writes, failures_after};
ghost use Rattle.tp_plan_text.specs.PlanPrints.{digit, decimals, time_text, space_before, words_text, end_text, step_text, plan_text, PlansAreRead};
ghost use Rattle.tp_plan_text.specs.TaskWords.{readable};

use crate::plans::{Plan, Step};
use crate::task_words::is_durative;
use itoa::Buffer;
use tp_device::{Failed, Sink, push_all};
use tp_task::{ActionId, Task};
use tp_text::Scale;

fn digit(n: u32) -> u8
    ensures { result ≡ digit n }
{
    b'0' + (n % 10) as u8
}

fn write_decimals<W: Sink>(writer: &mut W, scale: Scale, n: u32) -> Result<(), Failed>
    ensures bytes { Writes (W.held writer.old) (W.held writer.new) (decimals scale n) result }
    ensures cause { W.failures writer.new ≡ failures_after (W.failures writer.old) result }
{
    match scale {
        Scale::One => push_all(writer, &[]),
        Scale::Ten => push_all(writer, &[b'.', digit(n)]),
        Scale::Hundred => push_all(writer, &[b'.', digit(n / 10), digit(n)]),
        Scale::Thousand => push_all(writer, &[b'.', digit(n / 100), digit(n / 10), digit(n)]),
    }
}

fn write_time<W: Sink>(writer: &mut W, scale: Scale, n: u32) -> Result<(), Failed>
    ensures bytes { Writes (W.held writer.old) (W.held writer.new) (time_text scale n) result }
    ensures cause { W.failures writer.new ≡ failures_after (W.failures writer.old) result }
{
    let mut buffer = Buffer::new();
    let whole = n / scale.ticks();
    push_all(writer, buffer.format(whole).as_bytes())?;
    write_decimals(writer, scale, n)
}

// A time, and what stands behind it.
fn write_time_before<W: Sink>(
    writer: &mut W,
    scale: Scale,
    n: u32,
    behind: &[u8],
) -> Result<(), Failed>
    ensures bytes { Writes
        (W.held writer.old) (W.held writer.new) (time_text scale n ++ behind.now) result }
    ensures cause { W.failures writer.new ≡ failures_after (W.failures writer.old) result }
{
    write_time(writer, scale, n)?;
    push_all(writer, behind)
}

// A word, and what stands before it.
fn write_word<W: Sink>(writer: &mut W, before: &[u8], word: &str) -> Result<(), Failed>
    ensures bytes { Writes (W.held writer.old) (W.held writer.new) (before.now ++ word.now) result }
    ensures cause { W.failures writer.new ≡ failures_after (W.failures writer.old) result }
{
    push_all(writer, before)?;
    push_all(writer, word.as_bytes())
}

// A space before each word but the first.
#[tactic(auto, using(crate::proofs::OnPrints::space_is))]
fn space_before(place: usize) -> &'static [u8]
    ensures { result.now ≡ space_before place }
{
    if place == 0 { b"" } else { b" " }
}

// An action's words, with one space between.
fn write_words<W: Sink>(writer: &mut W, task: &Task, action: ActionId) -> Result<(), Failed>
    ensures bytes { Writes (W.held writer.old)
        (W.held writer.new) (words_text ((readable task.now).words action)) result }
    ensures cause { W.failures writer.new ≡ failures_after (W.failures writer.old) result }
{
    let mut place = 0usize;
    'words: while let Some(word) = task.action_word(action, place) {
        write_word(writer, space_before(place), word)?;
        place += 1;
    }
    Ok(())
}

fn write_duration<W: Sink>(writer: &mut W, scale: Scale, duration: u32) -> Result<(), Failed>
    ensures bytes { Writes
        (W.held writer.old) (W.held writer.new) (end_text scale true duration) result }
    ensures cause { W.failures writer.new ≡ failures_after (W.failures writer.old) result }
{
    push_all(writer, b") [")?;
    write_time_before(writer, scale, duration, b"]\n")
}

// What stands behind the words: the duration of a durative action.
fn write_end<W: Sink>(
    writer: &mut W,
    scale: Scale,
    is_durative: bool,
    duration: u32,
) -> Result<(), Failed>
    ensures bytes { Writes
        (W.held writer.old) (W.held writer.new) (end_text scale is_durative duration) result }
    ensures cause { W.failures writer.new ≡ failures_after (W.failures writer.old) result }
{
    if is_durative {
        write_duration(writer, scale, duration)
    } else {
        push_all(writer, b")\n")
    }
}

// The words of a step's action, and its duration.
fn write_action<W: Sink>(writer: &mut W, task: &Task, step: Step) -> Result<(), Failed>
    ensures bytes { Writes (W.held writer.old) (W.held writer.new) (words_text
        ((readable task.now).words step.action) ++ end_text (readable task.now).scale
        ((readable task.now).is_durative step.action) step.duration) result }
    ensures cause { W.failures writer.new ≡ failures_after (W.failures writer.old) result }
{
    write_words(writer, task, step.action)?;
    write_end(
        writer,
        task.scale,
        is_durative(task, step.action),
        step.duration,
    )
}

fn write_step<W: Sink>(writer: &mut W, task: &Task, step: Step) -> Result<(), Failed>
    ensures bytes { Writes
        (W.held writer.old) (W.held writer.new) (step_text (readable task.now) step) result }
    ensures cause { W.failures writer.new ≡ failures_after (W.failures writer.old) result }
{
    write_time_before(writer, task.scale, step.tick, b": (")?;
    write_action(writer, task, step)
}

// The steps of a plan, a line for each.
fn write_steps<W: Sink>(steps: &[Step], task: &Task, writer: &mut W) -> Result<(), Failed>
    ensures bytes { Writes
        (W.held writer.old) (W.held writer.new) (plan_text (readable task.now) steps.now) result }
    ensures cause { W.failures writer.new ≡ failures_after (W.failures writer.old) result }
{
    for step in steps {
        write_step(writer, task, *step)?;
    }
    Ok(())
}

/// Writes a plan of a task, a line for each step. It takes no memory. Where the writer fails, it
/// has taken some first part.
pub fn print_plan<W: Sink>(plan: &Plan, task: &Task, writer: &mut W) -> Result<(), Failed>
    ensures bytes { Writes
        (W.held writer.old) (W.held writer.new) (plan_text (readable task.now) plan.now) result }
    ensures cause { W.failures writer.new ≡ failures_after (W.failures writer.old) result }
{
    write_steps(plan.steps(), task, writer)
}

/// What is written for steps spells them, where the words of each action are names in lower case,
/// by which it is found.
pub fn plans_are_read()
    ensures { PlansAreRead }
{}
