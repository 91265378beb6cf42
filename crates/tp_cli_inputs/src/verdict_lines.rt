//! The line of a plan that is not valid.

ghost use Rattle.std.specs.Prelude.{◌≡◌, ◌+◌, ◌≤◌, ◌++◌, codes, decimal, length};
ghost use Rattle.tp_device.specs.Bytes.{Writes, failures_after};
ghost use Rattle.tp_cli_inputs.specs.VerdictLines.{invalid_line, why_text};

use tp_device::{Failed, Sink, Text, push_all};
use tp_validate::Fault;

/// A word, and the number of an event or of a step.
fn numbered(word: &[u8], n: u16) -> Text
    requires { length word.now ≤ 12 }
    ensures text { result ≡ word.now ++ decimal n }
    ensures short { length result ≤ length word.now + 10 }
{
    let mut line = Text::new(word);
    line.put_number(u32::from(n));
    line
}

/// Why a plan is not valid.
fn why_line(why: Fault) -> Text
    ensures text { result ≡ why_text why }
    ensures short { length result ≤ 33 }
{
    match why {
        Fault::Condition(event) => numbered(b"condition ", event),
        Fault::Undefined(event) => numbered(b"undefined ", event),
        Fault::Clash(event) => numbered(b"clash ", event),
        Fault::Interferes(event, other) => {
            let mut line = numbered(b"interferes ", event);
            line.put(b" ");
            line.put_number(u32::from(other));
            line
        }
        Fault::OverAll(step) => numbered(b"over-all ", step),
        Fault::Duration(step) => numbered(b"duration ", step),
        Fault::Goal => Text::new(b"goal"),
    }
}

/// Writes the line of a plan that is not valid.
pub fn write_invalid<W: Sink>(writer: &mut W, tick: u32, why: Fault) -> Result<(), Failed>
    ensures bytes { Writes (W.held writer.old) (W.held writer.new) (invalid_line tick why) result }
    ensures cause { W.failures writer.new ≡ failures_after (W.failures writer.old) result }
{
    let mut line = Text::new(b"invalid ");
    line.put_number(tick);
    line.put(b" ");
    line.put(why_line(why).as_slice());
    line.put(b"\n");
    push_all(writer, line.as_slice())
}
