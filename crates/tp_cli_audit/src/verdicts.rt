//! The lines of what an audit found.

ghost use Rattle.std.specs.Prelude.{◌≡◌, ℕ, ◌++◌, codes, decimal, IfOk, IfErr};
ghost use Rattle.tp_device.specs.Bytes.{Writes, AppendsPart, failures_after};
ghost use Rattle.tp_cli_files.specs.Causes.{counted};
ghost use Rattle.tp_cli_audit.specs.AuditLines.{stop_unread};
ghost use Rattle.tp_cli_audit.specs.Audits.{Says, found_line, say_failures};

use crate::audit_lines::AuditStop;
use crate::auditing::Found;
use itoa::Buffer;
use tp_device::{Failed, Sink, push_all};

/// Writes a text and ends the line.
fn write_last<O: Sink>(output: &mut O, text: &[u8]) -> Result<(), Failed>
    ensures bytes { Writes (O.held output.old) (O.held output.new) (text.now ++ codes "\n") result }
    ensures cause { O.failures output.new ≡ failures_after (O.failures output.old) result }
{
    push_all(output, text)?;
    push_all(output, b"\n")
}

/// Writes a number and ends the line.
fn write_number<O: Sink>(output: &mut O, n: u64) -> Result<(), Failed>
    ensures bytes { Writes (O.held output.old) (O.held output.new)
        (decimal n ++ codes "\n") result }
    ensures cause { O.failures output.new ≡ failures_after (O.failures output.old) result }
{
    write_last(output, Buffer::new().format(n).as_bytes())
}

/// Writes a number behind words, and ends the line.
fn write_counted<O: Sink>(output: &mut O, words: &[u8], n: u64) -> Result<(), Failed>
    ensures bytes { Writes (O.held output.old) (O.held output.new)
        (words.now ++ (decimal n ++ codes "\n")) result }
    ensures cause { O.failures output.new ≡ failures_after (O.failures output.old) result }
{
    push_all(output, words)?;
    write_number(output, n)
}

/// Writes the line of what was found.
fn write_found<O: Sink>(output: &mut O, found: Found) -> Result<(), Failed>
    ensures bytes { Writes (O.held output.old) (O.held output.new) (found_line found) result }
    ensures cause { O.failures output.new ≡ failures_after (O.failures output.old) result }
{
    match found {
        Found::Journal(pairs) => write_counted(output, b"audit ok ", pairs),
        Found::Wrong(n) => write_counted(output, b"wrong ", n),
    }
}

/// Writes what was found. Answers whether it is a journal.
///
/// # Errors
/// `Write` where the writer fails.
pub fn say<O: Sink>(output: &mut O, found: Found) -> Result<bool, AuditStop>
    ensures said { IfOk result (Says found (O.held output.old) (O.held output.new)) }
    ensures part { IfErr result (λ stop. (stop ≡ AuditStop.Write)
        × AppendsPart (O.held output.old) (O.held output.new) (found_line found)) }
    ensures failures { O.failures output.new ≡ say_failures (O.failures output.old) result }
    ensures opened { (n : ℕ) → counted stop_unread n result ≡ n }
{
    match write_found(output, found) {
        Ok(()) => Ok(matches!(found, Found::Journal(_))),
        Err(_) => Err(AuditStop::Write),
    }
}
