//! The lines by which the network of an agent's part is made from nothing.

ghost use Rattle.std.specs.Prelude.{◌≡◌, ◌++◌, IfOk, OnOk, string_bytes};
ghost use Rattle.std.specs.List.{flat_map};
ghost use Rattle.tp_script.specs.NetLines.{point_text};
ghost use Rattle.tp_cli_split.specs.PartLines.{add_line, bare_lines, head_line};

use std::alloc::{AllocError, Global};
use std::fmt::Write;
use tp_bounds::{Bound, PlanNet, Point};

/// Puts a point at the end of a text, after a blank.
fn put_point(text: &mut String, point: Point) -> Result<(), AllocError>
    ensures { OnOk result (string_bytes text.new ≡ string_bytes text.old ++ point_text point) }
{
    match point {
        Point::Origin => write!(text, " o"),
        Point::Event(e) => write!(text, " {e}"),
    }
}

/// Puts the command that adds a bound at the end of a text.
fn put_add(text: &mut String, bound: Bound) -> Result<(), AllocError>
    ensures { OnOk result (string_bytes text.new ≡ string_bytes text.old ++ add_line bound) }
{
    write!(text, "add")?;
    put_point(text, bound.from)?;
    put_point(text, bound.to)?;
    writeln!(text, " {}", bound.w)
}

/// Puts the commands that add bounds at the end of a text.
fn put_adds(text: &mut String, bounds: &[Bound]) -> Result<(), AllocError>
    ensures { OnOk result
        (string_bytes text.new ≡ string_bytes text.old ++ flat_map add_line bounds.now) }
{
    for bound in bounds {
        put_add(text, *bound)?;
    }
    Ok(())
}

/// Puts the head of a network at the end of a text.
fn put_head(text: &mut String, events: usize, horizon: u32) -> Result<(), AllocError>
    ensures { OnOk result
        (string_bytes text.new ≡ string_bytes text.old ++ head_line events horizon) }
{
    writeln!(text, "network {events} {horizon}")
}

/// The lines by which `bare` makes a network from nothing: its head, `network N H`, and then
/// `add F T W` for each bound.
pub(crate) fn bare_text(alloc: Global, net: &PlanNet) -> Result<String, AllocError>
    ensures { IfOk result (λ text. string_bytes text ≡ bare_lines net.now) }
{
    let mut text = String::new(alloc);
    put_head(&mut text, net.events.len(), net.horizon)?;
    put_adds(&mut text, &net.bounds)?;
    Ok(text)
}
