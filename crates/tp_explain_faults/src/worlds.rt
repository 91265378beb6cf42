//! The domain and the problem of a call, as far as they can be read.

use crate::contents::{ReadText, read_text, text_of};
use crate::fault_lines::Line;
use crate::plans::put_planned;
use crate::texts::put_tree_fault;
use std::alloc::AllocError;
use tp_cli_files::Files;
use tp_explain_syntax::World;
use tp_explain_text::Page;

/// The texts of a call, as far as they were read.
#[derive(Drop)]
struct Texts {
    domain: ReadText,
    problem: Option<ReadText>,
}

/// Puts what a fault line says of a domain or a problem, or of what stands on both.
fn put_in_world<N: Files>(
    page: &mut Page,
    files: &mut N,
    line: &Line<'_>,
    texts: &Texts,
) -> Result<(), AllocError> {
    let domain = text_of(&texts.domain);
    let problem = match &texts.problem {
        Some(problem) => Some(text_of(problem)),
        None => None,
    };
    let world = World { domain, problem };
    match (line.part.as_bytes(), problem) {
        (b"domain", _) => put_tree_fault(page, world, domain, line),
        (_, None) => Ok(()),
        (b"problem", Some(problem)) => put_tree_fault(page, world, problem, line),
        _ => put_planned(page, files, &world, line),
    }
}

/// Puts what a fault line says of what was read.
pub fn put_with_world<N: Files>(
    page: &mut Page,
    files: &mut N,
    line: &Line<'_>,
) -> Result<(), AllocError> {
    let alloc = page.alloc();
    let Some(domain) = read_text(alloc, files, line.call.domain) else {
        return Ok(());
    };
    let problem = if line.part == "domain" {
        None
    } else {
        read_text(alloc, files, line.call.problem)
    };
    let texts = Texts { domain, problem };
    put_in_world(page, files, line, &texts)
}
