//! The lines of faults of texts, tasks and plans.

ghost use Rattle.std.specs.Prelude.{◌≡◌};
ghost use Rattle.tp_cli_files.specs.FaultLines.{fault_text};
ghost use Rattle.tp_cli_inputs.specs.JudgeLines.{ground_status, ground_text, judge_status, judge_text, kind_text, left_out_text, plan_status, plan_text, source_status, source_text, syntax_status, syntax_text, text_status, text_text};

use crate::judging::JudgeFault;
use crate::plan_words::PlanWords;
use tp_cli_files::{Detail, Fault, FaultLine, FileFault, Part};
use tp_happen::PlanFault;
use tp_syntax::{LeftOutPart, SyntaxFault};
use tp_task::{GroundFault, TooManyKind};
use tp_text::TextFault;

/// The word of what there are too many of.
fn kind_word(kind: TooManyKind) -> &'static str
    ensures { result.now ≡ kind_text kind }
{
    match kind {
        TooManyKind::Objects => "objects",
        TooManyKind::Atoms => "atoms",
        TooManyKind::Fluents => "fluents",
        TooManyKind::Actions => "actions",
    }
}

/// The word of a construct that is left out.
fn left_out_word(what: LeftOutPart) -> &'static str
    ensures { result.now ≡ left_out_text what }
{
    match what {
        LeftOutPart::When => "when",
        LeftOutPart::Division => "division",
        LeftOutPart::ScaleDown => "scale-down",
        LeftOutPart::Number => "number",
        LeftOutPart::AtEndDuration => "at-end-duration",
        LeftOutPart::DurationInCondition => "duration-in-condition",
        LeftOutPart::Continuous => "continuous",
        LeftOutPart::TimedLiteral => "timed-literal",
        LeftOutPart::Derived => "derived",
        LeftOutPart::Preference => "preference",
        LeftOutPart::Constraint => "constraint",
        LeftOutPart::ObjectFluent => "object-fluent",
        LeftOutPart::Either => "either",
        LeftOutPart::Operands => "operands",
    }
}

/// The line of a domain or problem whose text is no tree.
fn text_line(part: Part, fault: TextFault) -> FaultLine<'static>
    ensures status { result.status ≡ text_status fault }
    ensures text { fault_text result ≡ text_text part fault }
{
    match fault {
        TextFault::Memory => Fault::TextMemory(part).line(),
        TextFault::TooLong => Fault::TextTooLong(part).line(),
        TextFault::BadByte(at) => Fault::TextBadByte(part).with(Detail::Number(at)),
        TextFault::Unclosed(at) => Fault::TextUnclosed(part).with(Detail::Number(at)),
        TextFault::Extra(at) => Fault::TextExtra(part).with(Detail::Number(at)),
        TextFault::Depth(at) => Fault::TextDepth(part).with(Detail::Number(at)),
        TextFault::Empty => Fault::TextEmpty(part).line(),
    }
}

/// The line of a text that is no domain or no problem, by the part of the input that it is.
pub fn syntax_line(part: Part, fault: SyntaxFault) -> FaultLine<'static>
    ensures status { result.status ≡ syntax_status fault }
    ensures text { fault_text result ≡ syntax_text part fault }
{
    match fault {
        SyntaxFault::Memory => Fault::Memory(part).line(),
        SyntaxFault::Text(text) => text_line(part, text),
        SyntaxFault::Shape(at) => Fault::Shape(part).with(Detail::Number(at)),
        SyntaxFault::Unknown(at) => Fault::Unknown(part).with(Detail::Number(at)),
        SyntaxFault::Twice(at) => Fault::Twice(part).with(Detail::Number(at)),
        SyntaxFault::Types(at) => Fault::Types(part).with(Detail::Number(at)),
        SyntaxFault::LeftOut(at, what) => {
            Fault::LeftOut(part).with(Detail::Construct(at, left_out_word(what)))
        }
    }
}

/// The line of the file of a domain or a problem that gave no text.
pub fn file_line<'w>(part: Part, fault: FileFault, name: &'w str) -> FaultLine<'w>
    ensures status { result.status ≡ source_status fault }
    ensures text { fault_text result ≡ source_text part fault name.entry.now }
{
    match fault {
        FileFault::TooLong => Fault::TextTooLong(part).line(),
        other => FaultLine::of_file(part, other, name),
    }
}

/// The line of a task that is too large, or has too great a number.
pub fn task_line(fault: GroundFault) -> FaultLine<'static>
    ensures status { result.status ≡ ground_status fault }
    ensures text { fault_text result ≡ ground_text fault }
{
    match fault {
        GroundFault::Memory => Fault::Memory(Part::Ground).line(),
        GroundFault::TooMany(kind) => Fault::GroundTooMany.with(Detail::Name(kind_word(kind))),
        GroundFault::Range => Fault::GroundRange.line(),
    }
}

/// The line of a plan that could not be read.
pub fn plan_line(fault: PlanFault) -> FaultLine<'static>
    ensures status { result.status ≡ plan_status fault }
    ensures text { fault_text result ≡ plan_text fault }
{
    match fault {
        PlanFault::Memory => Fault::Memory(Part::Plan).line(),
        PlanFault::Line(line) => Fault::PlanLine.with(Detail::Line(line)),
        PlanFault::NoAction(line) => Fault::PlanNoAction.with(Detail::Line(line)),
        PlanFault::NotTicks(line) => Fault::PlanNotTicks.with(Detail::Line(line)),
        PlanFault::TooMany => Fault::PlanTooMany.line(),
        PlanFault::NoDuration(line) => Fault::PlanNoDuration.with(Detail::Line(line)),
        PlanFault::Horizon(line) => Fault::PlanHorizon.with(Detail::Line(line)),
    }
}

/// The line of files that gave no verdict.
pub fn judge_line<'w>(fault: JudgeFault, words: PlanWords<'w>) -> FaultLine<'w>
    ensures status { result.status ≡ judge_status fault }
    ensures text { fault_text result ≡ judge_text words.entry fault }
{
    match fault {
        JudgeFault::DomainFile(fault) => file_line(Part::Domain, fault, words.domain),
        JudgeFault::Domain(fault) => syntax_line(Part::Domain, fault),
        JudgeFault::ProblemFile(fault) => file_line(Part::Problem, fault, words.problem),
        JudgeFault::Problem(fault) => syntax_line(Part::Problem, fault),
        JudgeFault::Task(fault) => task_line(fault),
        JudgeFault::PlanFile(fault) => FaultLine::of_file(Part::Plan, fault, words.plan),
        JudgeFault::Plan(fault) => plan_line(fault),
        JudgeFault::Memory => Fault::Memory(Part::Check).line(),
        JudgeFault::Range => Fault::CheckRange.line(),
    }
}
