//! Lines of words and numbers.

ghost use Rattle.std.specs.Prelude.{◌≡◌, ◌≤◌, ◌++◌, length, codes, decimal};
ghost use Rattle.tp_device.specs.Bytes.{Writes, failures_after};

use tp_device::{Failed, Sink, Text, push_all};

/// Writes a line of a word, with the space behind it, and a number. It takes no memory. Where the
/// writer fails, it has taken some first part of the line.
pub fn write_numbered<W: Sink>(writer: &mut W, word: &[u8], n: u32) -> Result<(), Failed>
    requires { length word.now ≤ 20 }
    ensures bytes { Writes
        (W.held writer.old) (W.held writer.new) (word.now ++ decimal n ++ codes "\n") result }
    ensures cause { W.failures writer.new ≡ failures_after (W.failures writer.old) result }
{
    let mut text = Text::new(word);
    text.put_number(n);
    text.put(b"\n");
    push_all(writer, text.as_slice())
}

/// Writes a line of a word, with the space behind it, and two numbers. It takes no memory. Where
/// the writer fails, it has taken some first part of the line.
pub fn write_two_numbers<W: Sink>(
    writer: &mut W,
    word: &[u8],
    first: u32,
    second: u32,
) -> Result<(), Failed>
    requires { length word.now ≤ 20 }
    ensures bytes { Writes (W.held writer.old) (W.held writer.new)
        (word.now ++ decimal first ++ codes " " ++ decimal second ++ codes "\n") result }
    ensures cause { W.failures writer.new ≡ failures_after (W.failures writer.old) result }
{
    let mut text = Text::new(word);
    text.put_number(first);
    text.put(b" ");
    text.put_number(second);
    text.put(b"\n");
    push_all(writer, text.as_slice())
}
