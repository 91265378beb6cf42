//! The network of a plan as lines: its events with their texts, and its bounds by their
//! identifiers.

ghost use Rattle.std.specs.Prelude.{◌≡◌, ◌++◌, map, codes, IfOk, OnOk, string_bytes};
ghost use Rattle.tp_script.specs.NetLines.{bound_line, event_line, lines_from, network_lines, point_text};

use std::alloc::{AllocError, Global};
use std::fmt::Write;
use tp_bounds::{Bound, PlanNet, Point};

/// Puts a point at the end of a text, after a blank.
fn put_point(text: &mut String, point: Point) -> Result<(), AllocError>
    ensures { OnOk result (string_bytes text.new ≡ string_bytes text.old ++ point_text point) }
{
    match point {
        Point::Origin => write!(text, " o"),
        Point::Event(e) => write!(text, " {e}"),
    }
}

/// Puts the line of a bound at the end of a text.
fn put_bound(text: &mut String, id: usize, bound: Bound) -> Result<(), AllocError>
    ensures { OnOk result (string_bytes text.new ≡ string_bytes text.old ++ bound_line id bound) }
{
    write!(text, "bound {id}")?;
    put_point(text, bound.from)?;
    put_point(text, bound.to)?;
    writeln!(text, " {}", bound.w)
}

/// Puts the lines of bounds at the end of a text.
fn put_bounds(text: &mut String, bounds: &[Bound]) -> Result<(), AllocError>
    ensures { OnOk result
        (string_bytes text.new ≡ string_bytes text.old ++ lines_from bound_line 0 bounds.now) }
{
    for (id, bound) in bounds.iter().enumerate() {
        put_bound(text, id, *bound)?;
    }
    Ok(())
}

/// Puts the line of an event at the end of a text.
fn put_event(text: &mut String, e: usize, event: &str) -> Result<(), AllocError>
    ensures { OnOk result
        (string_bytes text.new ≡ string_bytes text.old ++ event_line e event.now) }
{
    writeln!(text, "event {e} {event}")
}

/// Puts the lines of events at the end of a text.
fn put_events(text: &mut String, events: &[String]) -> Result<(), AllocError>
    ensures { OnOk result (string_bytes text.new
        ≡ string_bytes text.old ++ lines_from event_line 0 (map string_bytes events.now)) }
{
    for (e, event) in events.iter().enumerate() {
        put_event(text, e, event.as_str())?;
    }
    Ok(())
}

/// The lines of a network: `event E TEXT` for each event, and then `bound ID F T W` for each bound,
/// F and T being events, or `o` for the origin.
pub fn network_text(alloc: Global, net: &PlanNet) -> Result<String, AllocError>
    ensures { IfOk result (λ text. string_bytes text ≡ network_lines net.now) }
{
    let mut text = String::new(alloc);
    put_events(&mut text, &net.events)?;
    put_bounds(&mut text, &net.bounds)?;
    Ok(text)
}
