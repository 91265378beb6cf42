//! The names and objects for which the lines of a plan text ask.

ghost use Rattle.std.specs.Prelude.{◌≡◌, map, IfOk};
ghost use Rattle.tp_plan_text.specs.PlanTexts.{lines_of};
ghost use Rattle.tp_plan_text.specs.PlanNames.{names_from};

use crate::forms::read_form;
use crate::reading::first_line;
use crate::tokens::is_bare;
use std::alloc::{AllocError, Global};
use tp_bounds::MOST_STEPS;

/// The name and the objects for which each line of a text in lower case asks, as far as the lines
/// can be steps: those behind the 512th that is not empty are left out.
pub fn names_in<'t>(alloc: Global, text: &'t str) -> Result<Vec<Vec<&'t str>>, AllocError>
    ensures { IfOk result (λ v. map (λ ws. map (λ w. w.now) ws.items) v.items
        ≡ names_from 0 (lines_of text.now)) }
{
    let mut names = Vec::new(alloc);
    let mut rest = text.as_bytes();
    let mut count = 0usize;
    'lines: while !rest.is_empty() {
        let (line, after) = first_line(rest);
        rest = after;
        if is_bare(line) {
            continue;
        }
        if count == MOST_STEPS {
            return Ok(names);
        }
        count += 1;
        if let Some(form) = read_form(alloc, line)? {
            names.push(form.words)?;
        }
    }
    Ok(names)
}
