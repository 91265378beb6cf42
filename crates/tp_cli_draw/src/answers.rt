//! What is written: a picture, or why there is none.

ghost use Rattle.std.specs.Prelude.{◌≡◌, ℕ, IfErr, IfOk, false, true};
ghost use Rattle.std.specs.String.{string_bytes};
ghost use Rattle.std.specs.Io.KnownBytes.{Appends};
ghost use Rattle.tp_device.specs.Bytes.{AppendsPart};
ghost use Rattle.tp_cli_audit.specs.Audits.{found_line};
ghost use Rattle.tp_cli_inputs.specs.VerdictLines.{invalid_line};
ghost use Rattle.tp_cli_draw.specs.Draws.{drawn_text, is_picture};
ghost use Rattle.tp_cli_files.specs.Causes.{counted};
ghost use Rattle.tp_cli_draw.specs.Stops.{draw_failures, draw_unread};

use crate::stops::DrawStop;
use tp_cli_audit::{Found, say};
use tp_cli_inputs::write_invalid;
use tp_device::{Sink, push_all};
use tp_validate::Fault;

/// What is written.
#[derive(Drop)]
pub enum Drawn {
    /// A picture.
    Picture(String),
    /// The plan is not valid: the tick of its first fault, and why.
    Invalid(u32, Fault),
    /// The answer on this line of the journal is not allowed.
    Wrong(u64),
}

/// Writes a picture.
fn write_picture<O: Sink>(output: &mut O, text: &String) -> Result<bool, DrawStop>
    ensures written { IfOk result (λ drew. (drew ≡ true)
        × Appends (O.held output.old) (O.held output.new) (string_bytes text.now)) }
    ensures part { IfErr result (λ stop. (stop ≡ DrawStop.Write)
        × AppendsPart (O.held output.old) (O.held output.new) (string_bytes text.now)) }
    ensures failures { O.failures output.new ≡ draw_failures (O.failures output.old) result }
    ensures opened { (n : ℕ) → counted draw_unread n result ≡ n }
{
    match push_all(output, text.as_bytes()) {
        Ok(()) => Ok(true),
        Err(_) => Err(DrawStop::Write),
    }
}

/// Writes the first fault of a plan.
fn write_fault<O: Sink>(output: &mut O, tick: u32, why: Fault) -> Result<bool, DrawStop>
    ensures written { IfOk result (λ drew. (drew ≡ false)
        × Appends (O.held output.old) (O.held output.new) (invalid_line tick why)) }
    ensures part { IfErr result (λ stop. (stop ≡ DrawStop.Write)
        × AppendsPart (O.held output.old) (O.held output.new) (invalid_line tick why)) }
    ensures failures { O.failures output.new ≡ draw_failures (O.failures output.old) result }
    ensures opened { (n : ℕ) → counted draw_unread n result ≡ n }
{
    match write_invalid(output, tick, why) {
        Ok(()) => Ok(false),
        Err(_) => Err(DrawStop::Write),
    }
}

/// Writes the line of an answer that is not allowed.
fn write_wrong<O: Sink>(output: &mut O, line: u64) -> Result<bool, DrawStop>
    ensures written { IfOk result (λ drew. (drew ≡ false)
        × Appends (O.held output.old) (O.held output.new) (found_line (Found.Wrong line))) }
    ensures part { IfErr result (λ stop. (stop ≡ DrawStop.Write)
        × AppendsPart (O.held output.old) (O.held output.new) (found_line (Found.Wrong line))) }
    ensures failures { O.failures output.new ≡ draw_failures (O.failures output.old) result }
    ensures opened { (n : ℕ) → counted draw_unread n result ≡ n }
{
    match say(output, Found::Wrong(line)) {
        Ok(_) => Ok(false),
        Err(_) => Err(DrawStop::Write),
    }
}

/// Writes it. Answers whether it is a picture.
pub(crate) fn write_drawn<O: Sink>(output: &mut O, drawn: &Drawn) -> Result<bool, DrawStop>
    ensures written { IfOk result (λ drew. (drew ≡ is_picture drawn.now)
        × Appends (O.held output.old) (O.held output.new) (drawn_text drawn.now)) }
    ensures part { IfErr result (λ stop. (stop ≡ DrawStop.Write)
        × AppendsPart (O.held output.old) (O.held output.new) (drawn_text drawn.now)) }
    ensures failures { O.failures output.new ≡ draw_failures (O.failures output.old) result }
    ensures opened { (n : ℕ) → counted draw_unread n result ≡ n }
{
    match drawn {
        Drawn::Picture(text) => write_picture(output, text),
        Drawn::Invalid(tick, why) => write_fault(output, *tick, *why),
        Drawn::Wrong(line) => write_wrong(output, *line),
    }
}
