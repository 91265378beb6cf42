//! Faults of domains and problems.

use crate::contents::{bytes_of, text_in};
use crate::fault_lines::{Line, cut_fault, cut_word, place_of};
use std::alloc::AllocError;
use tp_cli_files::Files;
use tp_explain_syntax::{
    Fault, World, put_bad_byte, put_depth, put_empty, put_extra, put_left_out, put_shape,
    put_text_too_long, put_twice, put_types, put_unclosed, put_unknown,
};
use tp_explain_text::{Page, Source, Text};

/// Puts what is wrong with a text that is a tree.
pub fn put_tree_fault<'t>(
    page: &mut Page,
    world: World<'t>,
    text: Text<'t>,
    line: &Line<'_>,
) -> Result<(), AllocError> {
    let Some(at) = place_of(line.rest) else {
        return Ok(());
    };
    let fault = Fault {
        world,
        text,
        in_problem: line.part == "problem",
        at,
    };
    match line.word.as_bytes() {
        b"shape" => put_shape(page, &fault),
        b"unknown" => put_unknown(page, &fault),
        b"twice" => put_twice(page, &fault),
        b"types" => put_types(page, &fault),
        b"left-out" => put_left_out(page, &fault, cut_word(line.rest).1),
        _ => Ok(()),
    }
}

/// Puts what is wrong with a text that is no tree.
pub fn put_text_fault<N: Files>(
    page: &mut Page,
    files: &mut N,
    line: &Line<'_>,
) -> Result<(), AllocError> {
    let in_problem = line.part == "problem";
    let name = if in_problem {
        line.call.problem
    } else {
        line.call.domain
    };
    let (fault, place) = cut_fault(line.rest);
    let Some(at) = place_of(place) else {
        match fault.as_bytes() {
            b"too-long" => put_text_too_long(page, name, "shorten comments and names"),
            b"empty" => put_empty(page, name, in_problem),
            _ => {}
        }
        return Ok(());
    };
    if fault == "unclosed" {
        return match text_in(page.alloc(), files, name) {
            Some(text) => put_unclosed(page, name, text.as_str(), at),
            None => Ok(()),
        };
    }
    let bytes = bytes_of(page.alloc(), files, name)?;
    let source = Source {
        name,
        text: bytes.as_slice(),
    };
    match fault.as_bytes() {
        b"bad-byte" => put_bad_byte(page, source, at),
        b"extra" => put_extra(page, source, at),
        b"depth" => put_depth(page, source, at),
        _ => {}
    }
    Ok(())
}
