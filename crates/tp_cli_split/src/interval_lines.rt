//! The lines of intervals.

ghost use Rattle.std.specs.Prelude.{◌≡◌, ◌++◌, codes, IfOk, OnOk, string_bytes};
ghost use Rattle.tp_cli_split.specs.IntervalLines.{interval_line, interval_lines};

use std::alloc::{AllocError, Global};
use std::fmt::Write;

/// Puts the line of an event's interval, where it has one, at the end of a text.
fn put_interval(text: &mut String, e: usize, interval: Option<(u32, u32)>) -> Result<(), AllocError>
    ensures { OnOk result
        (string_bytes text.new ≡ string_bytes text.old ++ interval_line e interval) }
{
    match interval {
        Some((low, high)) => writeln!(text, "interval {e} {low} {high}"),
        None => Ok(()),
    }
}

/// The line `interval E LO HI` for each event that has an interval, by rising number: LO and HI are
/// its first and its last tick.
///
/// # Errors
/// Where memory is wanting.
pub fn intervals_text(alloc: Global, intervals: &[Option<(u32, u32)>]) -> Result<String, AllocError>
    ensures { IfOk result (λ text. string_bytes text ≡ interval_lines intervals.now) }
{
    let mut text = String::new(alloc);
    for (e, interval) in intervals.iter().enumerate() {
        put_interval(&mut text, e, *interval)?;
    }
    Ok(text)
}
