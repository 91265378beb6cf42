//! Why a domain or a problem could not be read.

ghost use Rattle.std.specs.Prelude.{◌≡◌};
ghost use Rattle.tp_syntax_ast.specs.Readings.{of_text, of_tree};
ghost use Rattle.tp_syntax_ast.specs.declared.fault.SyntaxFault.TheVariants.{Memory};

use std::alloc::{AllocError, AllocFailed};
use thiserror::Error;
use tp_text::TextFault;

/// A construct that is left out.
#[derive(Clone, Copy, Debug, PartialEq, Eq)]
pub enum LeftOutPart {
    /// An effect under a condition.
    When,
    Division,
    ScaleDown,
    /// A number with a fraction, or one that does not fit.
    Number,
    /// `at end` in a duration constraint.
    AtEndDuration,
    /// `?duration` in a condition.
    DurationInCondition,
    /// An effect that lasts.
    Continuous,
    /// A change at a moment of the initial state.
    TimedLiteral,
    Derived,
    Preference,
    Constraint,
    /// A function whose values are no numbers.
    ObjectFluent,
    /// `either` where a type or an object is declared.
    Either,
    /// A sum or product of more than two.
    Operands,
}

/// What is wrong with a domain or a problem. A place is the offset of a byte.
#[derive(Clone, Copy, Debug, PartialEq, Eq, Error)]
pub enum SyntaxFault {
    /// Out of memory.
    #[error("out of memory")]
    Memory,
    /// The text is no tree.
    #[error("the text is not one list")]
    Text(TextFault),
    /// The list there has the wrong form.
    #[error("the list at {0} has the wrong form")]
    Shape(u32),
    /// The name there is not declared.
    #[error("the name at {0} is not declared")]
    Unknown(u32),
    /// What stands there may stand once, and stands a second time.
    #[error("what stands at {0} may stand only once")]
    Twice(u32),
    /// What stands there is of the wrong types, or the types lead round in a cycle.
    #[error("the types at {0} do not fit")]
    Types(u32),
    /// The construct there is left out.
    #[error("the construct at {0} is left out")]
    LeftOut(u32, LeftOutPart),
}

/// A text that is no tree. Out of memory stays out of memory.
pub fn text_fault(fault: TextFault) -> SyntaxFault
    ensures { result ≡ of_text fault }
{
    match fault {
        TextFault::Memory => SyntaxFault::Memory,
        other => SyntaxFault::Text(other),
    }
}

/// A fault of a reader of trees, of which none is of texts.
pub fn tree_fault(fault: SyntaxFault) -> SyntaxFault
    ensures { result ≡ of_tree fault }
{
    match fault {
        SyntaxFault::Text(_) => SyntaxFault::Shape(0),
        other => other,
    }
}

impl From<AllocError> for SyntaxFault {
    ghost from_gives = { λ _ e. e ≡ Memory };

    fn from(_e: AllocError) -> SyntaxFault {
        SyntaxFault::Memory
    }
}

impl<T: Drop> From<AllocFailed<T>> for SyntaxFault {
    ghost from_gives = { λ _ e. e ≡ Memory };

    fn from(_e: AllocFailed<T>) -> SyntaxFault {
        SyntaxFault::Memory
    }
}
