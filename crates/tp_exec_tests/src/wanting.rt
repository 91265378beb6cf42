//! Which faults tell of want of memory: a call that answers another is not made once more.

use std::alloc::AllocError;
use tp_deorder::DeorderFault;
use tp_exec_machine::{Answer, Refusal};
use tp_happen::{ApplyFault, PlanFault};
use tp_journal::AuditFault;
use tp_search::SearchFault;
use tp_syntax::SyntaxFault;
use tp_task::GroundFault;
use tp_text::TextFault;

/// A fault of a call that may want memory.
pub(crate) trait Wanting {
    /// Whether a growth was refused.
    fn is_memory(&self) -> bool;
}

impl Wanting for AllocError {
    fn is_memory(&self) -> bool {
        true
    }
}

impl Wanting for ApplyFault {
    fn is_memory(&self) -> bool {
        matches!(self, ApplyFault::Memory)
    }
}

impl Wanting for AuditFault {
    fn is_memory(&self) -> bool {
        matches!(self, AuditFault::Memory)
    }
}

impl Wanting for DeorderFault {
    fn is_memory(&self) -> bool {
        matches!(self, DeorderFault::Memory)
    }
}

impl Wanting for GroundFault {
    fn is_memory(&self) -> bool {
        matches!(self, GroundFault::Memory)
    }
}

impl Wanting for PlanFault {
    fn is_memory(&self) -> bool {
        matches!(self, PlanFault::Memory)
    }
}

impl Wanting for SearchFault {
    fn is_memory(&self) -> bool {
        matches!(self, SearchFault::Memory)
    }
}

impl Wanting for SyntaxFault {
    fn is_memory(&self) -> bool {
        matches!(self, SyntaxFault::Memory)
    }
}

impl Wanting for TextFault {
    fn is_memory(&self) -> bool {
        matches!(self, TextFault::Memory)
    }
}

/// Whether no command wanted memory; where one did, the run is another.
pub(crate) fn had_memory(answers: &[Answer]) -> bool {
    for answer in answers {
        if matches!(answer, Answer::Refused(Refusal::Memory)) {
            return false;
        }
    }
    true
}
