//! What is told of a plan.

ghost use Rattle.std.specs.Prelude.{◌≡◌};
ghost use Rattle.tp_device.specs.Bytes.{Writes, failures_after};
ghost use Rattle.tp_cli.specs.Judgements.{judgement_line};

use tp_cli_inputs::write_invalid;
use tp_device::{Failed, Sink, push_all};
use tp_validate::Fault;

/// What is told of a plan: that it is valid, or its first fault, with its tick.
#[derive(Clone, Copy, Debug, PartialEq, Eq)]
pub enum Judgement {
    Valid,
    Invalid { tick: u32, why: Fault },
}

/// Writes the line of a judgement.
pub fn write_judgement<W: Sink>(writer: &mut W, judgement: Judgement) -> Result<(), Failed>
    ensures bytes { Writes (W.held writer.old) (W.held writer.new)
        (judgement_line judgement) result }
    ensures cause { W.failures writer.new ≡ failures_after (W.failures writer.old) result }
{
    match judgement {
        Judgement::Valid => push_all(writer, b"valid\n"),
        Judgement::Invalid { tick, why } => write_invalid(writer, tick, why),
    }
}
