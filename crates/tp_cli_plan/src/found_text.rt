//! The text of what a search came to. Nothing here takes memory.

ghost use Rattle.std.specs.Prelude.{◌≡◌, ◌++◌, codes, decimal};
ghost use Rattle.tp_device.specs.Bytes.{Writes, failures_after};
ghost use Rattle.tp_happen.specs.tp_plan_text.PlanPrints.{plan_text};
ghost use Rattle.tp_happen.specs.tp_plan_text.Steps.{IsPlan};
ghost use Rattle.tp_happen.specs.tp_plan_text.TaskWords.{readable};
ghost use Rattle.tp_validate.specs.OfTask.{IsOfTask};
ghost use Rattle.tp_cli_plan.specs.FoundText.{IsFoundOfTask, found_text, spent_line};

use itoa::Buffer;
use tp_device::{Failed, Sink, push_all};
use tp_happen::print_plan;
use tp_search::Found;
use tp_validate::ValidPlan;

/// Writes a number, and ends the line.
fn write_number<W: Sink>(writer: &mut W, n: u32) -> Result<(), Failed>
    ensures bytes { Writes (W.held writer.old) (W.held writer.new)
        (decimal n ++ codes "\n") result }
    ensures cause { W.failures writer.new ≡ failures_after (W.failures writer.old) result }
{
    push_all(writer, Buffer::new().format(n).as_bytes())?;
    push_all(writer, b"\n")
}

/// Writes that a budget is spent.
fn write_spent<W: Sink>(writer: &mut W, expanded: u32) -> Result<(), Failed>
    ensures bytes { Writes (W.held writer.old) (W.held writer.new) (spent_line expanded) result }
    ensures cause { W.failures writer.new ≡ failures_after (W.failures writer.old) result }
{
    push_all(writer, b"spent ")?;
    write_number(writer, expanded)
}

/// Writes the steps of a validated plan, a line for each.
fn write_plan<W: Sink>(writer: &mut W, plan: &ValidPlan<'_>) -> Result<(), Failed>
    ensures bytes { Writes (W.held writer.old) (W.held writer.new)
        (plan_text (readable plan.now.task) plan.now.steps) result }
    ensures cause { W.failures writer.new ≡ failures_after (W.failures writer.old) result }
    ensures plan { IsPlan plan.now.steps }
    ensures of_task { IsOfTask plan.now.task plan.now.steps }
{
    let steps = plan.plan();
    let _at_most_512 = steps.steps();
    print_plan(steps, plan.task(), writer)
}

/// Writes what a search came to.
pub(crate) fn write_found<W: Sink>(writer: &mut W, found: &Found<'_>) -> Result<(), Failed>
    ensures bytes { Writes (W.held writer.old) (W.held writer.new) (found_text found.now) result }
    ensures cause { W.failures writer.new ≡ failures_after (W.failures writer.old) result }
    ensures of_task { IsFoundOfTask found.now }
{
    match found {
        Found::Plan(plan) => write_plan(writer, plan),
        Found::Unreachable => push_all(writer, b"unreachable\n"),
        Found::Exhausted => push_all(writer, b"exhausted\n"),
        Found::Spent(expanded) => write_spent(writer, *expanded),
    }
}
